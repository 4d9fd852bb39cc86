// Expressions and locations (Z.200, chapters on values, operations and locations).
use chill_base::{List, Scalars};
use modes::{Bounds, Class};

/// An expression: its class, and how its value is found.
#[derive(Drop)]
#[cycle(expression)]
pub struct Expr {
    pub class: Class,
    /// How many flat scalars its value has.
    pub count: u32,
    pub operation: Operation,
}

/// How a value is found. Operands are evaluated from left to right.
#[derive(Drop)]
#[cycle(expression)]
pub enum Operation {
    /// A constant: the flat scalars of its value.
    Constant(Scalars),
    /// The own instance.
    This,
    /// The contents of a location.
    Contents(Box<Location>),
    /// A part of another value than a location's contents.
    PartOf {
        of: Box<Expr>,
        parts: List<Part>,
    },
    /// A value that is received from the buffer of this number.
    Receive {
        buffer: u32,
    },
    /// The instance of a process that is started.
    Start(Box<Start>),
    /// The result of a procedure.
    Call(Box<Call>),
    /// A powerset of the members that these ranges tell, each tested against the member mode's bounds. The offset of a
    /// member is counted from `bounds.low`.
    Powerset {
        bounds: Bounds,
        members: List<Range>,
    },
    /// The elements of an array or the fields of a structure, in order.
    Parts(List<Received>),
    /// An array of so many elements, which all have one value that is evaluated once.
    Uniform {
        elements: u32,
        value: Received,
    },
    /// A predefined routine with its argument.
    Routine {
        routine: Routine,
        argument: Box<Expr>,
    },
    /// GET_INT.
    GetInt,
    Prefixed {
        operator: Prefix,
        operand: Box<Expr>,
    },
    Binary {
        operator: Binary,
        left: Box<Expr>,
        right: Box<Expr>,
    },
}

/// A value of one number, or the values from one to another, which may be none: a part of a powerset's tuple.
#[derive(Drop)]
#[cycle(expression)]
pub struct Range {
    pub first: Box<Expr>,
    pub last: Option<Box<Expr>>,
}

/// A value that something of a mode takes. Where the mode is discrete, RANGEFAIL is raised for a value outside its
/// bounds, directly after the value is evaluated.
#[derive(Drop)]
#[cycle(expression)]
pub struct Received {
    pub value: Box<Expr>,
    pub bounds: Option<Bounds>,
}

/// Where a location lies: the part of a shared or a local location.
#[derive(Drop)]
#[cycle(expression)]
pub struct Location {
    pub base: Base,
    pub parts: List<Part>,
    /// How many flat scalars it has.
    pub count: u32,
}

/// A location that is declared, or a parameter, a counter or a received name.
#[derive(Clone, Copy, PartialEq, Eq)]
pub enum Base {
    /// The shared location of this number.
    Shared(u32),
    /// The local of this number of the own body.
    Local(u32),
}

/// A part of a location or value.
#[derive(Drop)]
#[cycle(expression)]
pub enum Part {
    /// A field: the number of its first scalar in its structure, and how many it has.
    Field {
        first: u32,
        count: u32,
    },
    /// An element of an array or a character of a text: its index, with the bounds outside of which RANGEFAIL is raised,
    /// and how many scalars an element has.
    Element {
        index: Box<Expr>,
        bounds: Bounds,
        count: u32,
    },
}

/// A process that is started: the number of its body, and its arguments.
#[derive(Drop)]
#[cycle(expression)]
pub struct Start {
    pub process: u32,
    pub arguments: List<Received>,
}

/// A call of a procedure: the number of its body, and its arguments.
#[derive(Drop)]
#[cycle(expression)]
pub struct Call {
    pub body: u32,
    pub arguments: List<Argument>,
}

/// An argument of a call.
#[derive(Drop)]
#[cycle(expression)]
pub enum Argument {
    /// A value that is copied in.
    In(Received),
    /// A location to which the parameter is copied out. `bounds` are those of the location, where its mode is discrete.
    Out {
        target: Location,
        bounds: Option<Bounds>,
    },
    /// A location whose contents are copied in, tested against the parameter's bounds, and to which the parameter is
    /// copied out, tested against the location's.
    InOut {
        target: Location,
        taken: Option<Bounds>,
        bounds: Option<Bounds>,
    },
}

/// A predefined routine of one argument.
#[derive(Clone, Copy, PartialEq, Eq)]
pub enum Routine {
    /// NUM.
    Number,
    /// ABS.
    Absolute,
    /// CARD.
    Cardinality,
    /// SUCC, with OVERFLOW at this upper bound or past it.
    Successor { high: i64 },
    /// PRED, with OVERFLOW at this lower bound or past it.
    Predecessor { low: i64 },
    /// MIN of a powerset whose members are counted from this number.
    Least { low: i64 },
    /// MAX of a powerset whose members are counted from this number.
    Greatest { low: i64 },
}

/// An operator before its operand.
#[derive(Clone, Copy, PartialEq, Eq)]
pub enum Prefix {
    /// The negative of a number.
    Minus,
    /// NOT of a Boolean.
    Not,
    /// NOT of a powerset of so many members.
    Complement { members: u32 },
}

/// An operator between two operands. Comparisons are of the flat scalars of both operands, one by one.
#[derive(Clone, Copy, PartialEq, Eq)]
pub enum Binary {
    Add,
    Subtract,
    Multiply,
    Divide,
    Modulo,
    Remainder,
    And,
    Or,
    Xor,
    /// ANDIF: the second operand is evaluated only where the first is TRUE.
    AndIf,
    /// ORIF: the second operand is evaluated only where the first is FALSE.
    OrIf,
    Equal,
    NotEqual,
    Less,
    LessOrEqual,
    Greater,
    GreaterOrEqual,
    Union,
    Intersection,
    SymmetricDifference,
    Difference,
    /// `<=` of powersets.
    Included,
    /// `<` of powersets.
    ProperlyIncluded,
    /// `>=` of powersets.
    Includes,
    /// `>` of powersets.
    ProperlyIncludes,
    /// IN: FALSE for a value outside these bounds of the member mode.
    Member(Bounds),
}
