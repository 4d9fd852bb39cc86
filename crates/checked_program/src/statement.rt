// Statements, actions and handlers (Z.200, chapters on actions, on exception handling and on concurrent execution).
use crate::expr::{Base, Binary, Call, Expr, Location, Received, Routine, Start};
use chill_base::{List, Numbers};
use modes::Bounds;

/// A statement with its label and its handler. The label encloses the handler too.
#[derive(Drop)]
#[cycle(statement)]
pub struct Statement {
    pub labelled: bool,
    pub action: Box<Action>,
    pub handler: Option<Box<Handler>>,
}

/// An action, a declaration, or a module or region at its place.
#[derive(Drop)]
#[cycle(statement)]
pub enum Action {
    /// It does nothing: a semicolon, or the declaration of shared locations without initialisation.
    Nothing,
    /// A declaration: the value is evaluated once, and the names are set in their order.
    Declare {
        names: List<Base>,
        value: Received,
    },
    /// The declaration of locals without initialisation, which are set to the lowest value of their mode.
    Lowest {
        locals: Numbers,
        value: List<i64>,
    },
    /// A module. Its handler is the statement's.
    Module {
        actions: List<Statement>,
    },
    /// The initialisations of a region, which is locked for them and released behind them. Its handler is the
    /// statement's.
    Region {
        region: u32,
        actions: List<Statement>,
    },
    Assign {
        target: Location,
        value: Received,
    },
    /// An assignment with an operator. The indices of the target are evaluated once, and its contents are read before
    /// the value is evaluated. `bounds` are those of the target, where its mode is discrete.
    Update {
        target: Location,
        operator: Binary,
        value: Box<Expr>,
        bounds: Option<Bounds>,
    },
    /// A call, whose result is dropped.
    Call(Box<Call>),
    /// A value routine that stands as an action, whose value is dropped.
    Routine {
        routine: Routine,
        argument: Box<Expr>,
    },
    /// GET_INT, or UPPER, LOWER or SIZE, whose value is dropped: the expression is evaluated.
    Evaluate(Box<Expr>),
    PutInt(Box<Expr>),
    PutText(Box<Expr>),
    PutLine,
    /// EXIT: leaves a labelled statement around it in its body, the innermost of which has number 0.
    Exit {
        outwards: u32,
    },
    /// RETURN, which sets the result where it has a value.
    Return {
        value: Option<Received>,
    },
    /// RESULT, which sets the result.
    Result {
        value: Received,
    },
    Assert(Box<Expr>),
    /// CAUSE of the exception of this number.
    Cause {
        exception: u32,
    },
    Stop,
    Start(Box<Start>),
    Delay {
        event: u32,
        priority: u32,
    },
    Continue {
        event: u32,
    },
    Send {
        sent: Box<Sent>,
        priority: u32,
    },
    If {
        choices: List<Choice>,
        otherwise: List<Statement>,
    },
    /// A choice by a value of one number. Without ELSE RANGEFAIL is raised where no label holds it.
    Case {
        selector: Box<Expr>,
        alternatives: List<CaseAlternative>,
        otherwise: Option<List<Statement>>,
    },
    Do {
        control: Box<Control>,
        actions: List<Statement>,
    },
    Begin {
        actions: List<Statement>,
    },
    /// DELAY CASE. `set` is the location that gets the instance that continued the process.
    DelayCase {
        set: Option<Box<Location>>,
        priority: u32,
        alternatives: List<DelayAlternative>,
    },
    /// RECEIVE CASE of buffers. `set` is the location that gets the sender.
    ReceiveBuffers {
        set: Option<Box<Location>>,
        alternatives: List<ReceiveAlternative>,
        otherwise: Option<List<Statement>>,
    },
    /// RECEIVE CASE of signals. `set` is the location that gets the sender.
    ReceiveSignals {
        set: Option<Box<Location>>,
        alternatives: List<ReceiveAlternative>,
        otherwise: Option<List<Statement>>,
    },
}

/// What is sent.
#[derive(Drop)]
pub enum Sent {
    /// A value to the buffer of this number.
    ToBuffer {
        buffer: u32,
        value: Received,
    },
    /// The signal of this number with its parts, to an instance or to any.
    Signal {
        signal: u32,
        parts: List<Received>,
        receiver: Option<Box<Expr>>,
    },
}

/// A condition of an IF, and what is done where it is the first that holds.
#[derive(Drop)]
#[cycle(statement)]
pub struct Choice {
    pub condition: Box<Expr>,
    pub actions: List<Statement>,
}

/// What a CASE does for the values of its labels, each from one number to another.
#[derive(Drop)]
#[cycle(statement)]
pub struct CaseAlternative {
    pub labels: List<Bounds>,
    pub actions: List<Statement>,
}

/// How often a DO does its actions. A counter is the local of its number.
#[derive(Drop)]
pub enum Control {
    While(Box<Expr>),
    Forever,
    /// For each member of a powerset, rising. Members are counted from `low`.
    Members {
        counter: u32,
        set: Box<Expr>,
        low: i64,
        condition: Option<Box<Expr>>,
    },
    /// From a start up or down to an end. Start, step and end are evaluated once in the order written: start, step, end.
    /// A step below 1 raises RANGEFAIL directly after it is evaluated.
    Steps {
        counter: u32,
        start: Box<Expr>,
        step: Option<Box<Expr>>,
        end: Box<Expr>,
        down: bool,
        condition: Option<Box<Expr>>,
    },
}

/// What a DELAY CASE does after one of its events.
#[derive(Drop)]
#[cycle(statement)]
pub struct DelayAlternative {
    pub events: Numbers,
    pub actions: List<Statement>,
}

/// What a RECEIVE CASE does with what comes from a buffer or by a signal: the locals that get the scalars in order, and
/// the actions.
#[derive(Drop)]
#[cycle(statement)]
pub struct ReceiveAlternative {
    pub source: u32,
    pub received: Numbers,
    pub actions: List<Statement>,
}

/// What is done after an exception.
#[derive(Drop)]
#[cycle(statement)]
pub struct Handler {
    pub alternatives: List<HandlerAlternative>,
    pub otherwise: Option<List<Statement>>,
}

/// The exceptions of an alternative of a handler, by their numbers, and its actions.
#[derive(Drop)]
#[cycle(statement)]
pub struct HandlerAlternative {
    pub exceptions: Numbers,
    pub actions: List<Statement>,
}
