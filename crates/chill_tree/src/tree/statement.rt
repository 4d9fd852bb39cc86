// Statements, actions and handlers (Z.200, chapters on actions, on exception handling and on concurrent
// execution).
ghost use Rattle.std.specs.Prelude.{◌≡◌};

use crate::tree::{Expr, Local, Name, Operator, ValueRange};
use chill_base::{List, Memory, Pos};
use std::alloc::Global;

/// An action with its label, its handler and the name at its end.
#[derive(Drop)]
#[cycle(statement)]
pub enum Statement {
    /// A semicolon alone.
    Empty {
        at: Pos,
    },
    Simple {
        at: Pos,
        action: Box<Simple>,
        handler: Option<Box<Handler>>,
    },
    Bracketed {
        at: Pos,
        label: Option<Name>,
        action: Box<Bracketed>,
        handler: Option<Box<Handler>>,
        closing: Option<Name>,
    },
}

/// An action that holds other actions.
#[derive(Drop)]
#[cycle(statement)]
pub enum Bracketed {
    If {
        at: Pos,
        condition: Box<Expr>,
        actions: List<Statement>,
        branches: List<ElsIf>,
        otherwise: Option<List<Statement>>,
    },
    Case {
        at: Pos,
        selector: Box<Expr>,
        alternatives: List<CaseAlternative>,
        otherwise: Option<List<Statement>>,
    },
    Do {
        at: Pos,
        control: Control,
        actions: List<Statement>,
    },
    Begin {
        at: Pos,
        body: List<BodyPart>,
    },
    DelayCase {
        at: Pos,
        set: Option<Box<Expr>>,
        priority: Option<Box<Expr>>,
        alternatives: List<NamedAlternative>,
    },
    ReceiveCase {
        at: Pos,
        set: Option<Box<Expr>>,
        alternatives: List<ReceiveAlternative>,
        otherwise: Option<List<Statement>>,
    },
}

/// A further condition of an IF, and what is done where it holds.
#[derive(Drop)]
#[cycle(statement)]
pub struct ElsIf {
    pub at: Pos,
    pub condition: Box<Expr>,
    pub actions: List<Statement>,
}

/// What a CASE does for the values of its labels.
#[derive(Drop)]
#[cycle(statement)]
pub struct CaseAlternative {
    pub at: Pos,
    pub labels: List<ValueRange>,
    pub actions: List<Statement>,
}

/// What a DELAY CASE does after one of its events, or a handler after one of its exceptions.
#[derive(Drop)]
#[cycle(statement)]
pub struct NamedAlternative {
    pub at: Pos,
    pub names: List<Name>,
    pub actions: List<Statement>,
}

/// What a RECEIVE CASE does with what comes from a buffer or by a signal, and the names that this gets.
#[derive(Drop)]
#[cycle(statement)]
pub struct ReceiveAlternative {
    pub at: Pos,
    pub source: Name,
    pub received: Option<List<Name>>,
    pub actions: List<Statement>,
}

/// What is done after an exception.
#[derive(Drop)]
#[cycle(statement)]
pub struct Handler {
    pub at: Pos,
    pub alternatives: List<NamedAlternative>,
    pub otherwise: Option<List<Statement>>,
}

/// What a body is made of.
#[derive(Drop)]
#[cycle(statement)]
pub enum BodyPart {
    Local(Local),
    Statement(Statement),
}

/// How often a DO does its actions.
#[derive(Drop)]
pub enum Control {
    While {
        at: Pos,
        condition: Box<Expr>,
    },
    Forever {
        at: Pos,
    },
    /// For each member of a powerset.
    Members {
        at: Pos,
        counter: Name,
        set: Box<Expr>,
        condition: Option<Box<Expr>>,
    },
    /// From a start up or down to an end.
    Steps {
        at: Pos,
        counter: Name,
        start: Box<Expr>,
        step: Option<Box<Expr>>,
        down: bool,
        end: Box<Expr>,
        condition: Option<Box<Expr>>,
    },
}

/// An action that holds no other.
#[derive(Drop)]
pub enum Simple {
    Assign {
        at: Pos,
        target: Box<Expr>,
        value: Box<Expr>,
    },
    /// An assignment with an operator, which has its own place.
    Update {
        at: Pos,
        target: Box<Expr>,
        operator: Operator,
        sign: Pos,
        value: Box<Expr>,
    },
    /// A call, with the word CALL before it or without.
    Call {
        at: Pos,
        call: bool,
        name: Name,
        args: List<Expr>,
    },
    Exit {
        at: Pos,
        label: Name,
    },
    Return {
        at: Pos,
        value: Option<Box<Expr>>,
    },
    Result {
        at: Pos,
        value: Box<Expr>,
    },
    Assert {
        at: Pos,
        condition: Box<Expr>,
    },
    Cause {
        at: Pos,
        exception: Name,
    },
    Stop {
        at: Pos,
    },
    Start {
        at: Pos,
        process: Name,
        args: List<Expr>,
    },
    Delay {
        at: Pos,
        event: Name,
        priority: Option<Box<Expr>>,
    },
    Continue {
        at: Pos,
        event: Name,
    },
    Send {
        at: Pos,
        target: Name,
        args: Option<List<Expr>>,
        receiver: Option<Box<Expr>>,
        priority: Option<Box<Expr>>,
    },
}

impl Statement {
    ghost use Rattle.std.specs.Prelude.{option_map};
    ghost use Rattle.chill_tree.specs.SimpleTree.{boxed_simple};
    ghost use Rattle.chill_tree.specs.StatementTree.{empty, simple, bracketed, handler_node, statement_tree, boxed_bracketed, boxed_handler};

    /// A semicolon alone.
    #[tactic(auto, using(crate::proofs::StatementViews::statement_built))]
    pub fn empty(at: Pos) -> Statement
        ensures { statement_tree result ≡ empty at }
    {
        Statement::Empty { at }
    }

    /// An action that holds no other.
    #[tactic(auto, using(crate::proofs::StatementViews::statement_built))]
    pub fn simple(at: Pos, action: Box<Simple>, handler: Option<Box<Handler>>) -> Statement
        ensures { statement_tree result ≡ simple at (boxed_simple action) (handler_node (option_map boxed_handler handler)) }
    {
        Statement::Simple {
            at,
            action,
            handler,
        }
    }

    /// An action that holds others.
    #[tactic(auto, using(crate::proofs::StatementViews::statement_built))]
    pub fn bracketed(
        at: Pos,
        label: Option<Name>,
        action: Box<Bracketed>,
        handler: Option<Box<Handler>>,
        closing: Option<Name>,
    ) -> Statement
        ensures { statement_tree result ≡ bracketed at label (boxed_bracketed action) (handler_node (option_map boxed_handler handler)) closing }
    {
        Statement::Bracketed {
            at,
            label,
            action,
            handler,
            closing,
        }
    }
}

impl Bracketed {
    ghost use Rattle.std.specs.Prelude.{IfOk, map, option_map};
    ghost use Rattle.chill_tree.specs.ExprTree.{boxed_expr};
    ghost use Rattle.chill_tree.specs.SimpleTree.{control_tree};
    ghost use Rattle.chill_tree.specs.StatementTree.{if_then, case_of, do_loop, begin_end, delay_case, receive_case, statement_nodes, branch_nodes, case_nodes, named_nodes, receive_nodes, otherwise_node, body_nodes, boxed_bracketed, branch_tree, case_tree, named_tree, receive_tree, statement_trees, body_trees};

    /// A choice by conditions.
    #[tactic(auto, using(crate::proofs::StatementViews::statement_built))]
    pub fn if_then(
        alloc: Global,
        at: Pos,
        condition: Box<Expr>,
        actions: List<Statement>,
        branches: List<ElsIf>,
        otherwise: Option<List<Statement>>,
    ) -> Result<Box<Bracketed>, Memory>
        ensures { IfOk result (λ b. boxed_bracketed b ≡ if_then at (boxed_expr condition) (statement_nodes (statement_trees actions)) (branch_nodes (map branch_tree branches)) (otherwise_node (option_map statement_trees otherwise))) }
    {
        let action = Bracketed::If {
            at,
            condition,
            actions,
            branches,
            otherwise,
        };
        Ok(Box::new(alloc, action)?)
    }

    /// A choice by a value.
    #[tactic(auto, using(crate::proofs::StatementViews::statement_built))]
    pub fn case_of(
        alloc: Global,
        at: Pos,
        selector: Box<Expr>,
        alternatives: List<CaseAlternative>,
        otherwise: Option<List<Statement>>,
    ) -> Result<Box<Bracketed>, Memory>
        ensures { IfOk result (λ b. boxed_bracketed b ≡ case_of at (boxed_expr selector) (case_nodes (map case_tree alternatives)) (otherwise_node (option_map statement_trees otherwise))) }
    {
        let action = Bracketed::Case {
            at,
            selector,
            alternatives,
            otherwise,
        };
        Ok(Box::new(alloc, action)?)
    }

    /// A loop.
    #[tactic(auto, using(crate::proofs::StatementViews::statement_built))]
    pub fn do_loop(
        alloc: Global,
        at: Pos,
        control: Control,
        actions: List<Statement>,
    ) -> Result<Box<Bracketed>, Memory>
        ensures { IfOk result (λ b. boxed_bracketed b ≡ do_loop at (control_tree control) (statement_nodes (statement_trees actions))) }
    {
        let action = Bracketed::Do {
            at,
            control,
            actions,
        };
        Ok(Box::new(alloc, action)?)
    }

    /// A block.
    #[tactic(auto, using(crate::proofs::StatementViews::statement_built))]
    pub fn begin_end(alloc: Global, at: Pos, body: List<BodyPart>) -> Result<Box<Bracketed>, Memory>
        ensures { IfOk result (λ b. boxed_bracketed b ≡ begin_end at (body_nodes (body_trees body))) }
    {
        let action = Bracketed::Begin { at, body };
        Ok(Box::new(alloc, action)?)
    }

    /// A delay for the first of some events.
    #[tactic(auto, using(crate::proofs::StatementViews::statement_built))]
    pub fn delay_case(
        alloc: Global,
        at: Pos,
        set: Option<Box<Expr>>,
        priority: Option<Box<Expr>>,
        alternatives: List<NamedAlternative>,
    ) -> Result<Box<Bracketed>, Memory>
        ensures { IfOk result (λ b. boxed_bracketed b ≡ delay_case at (option_map boxed_expr set) (option_map boxed_expr priority) (named_nodes (map named_tree alternatives))) }
    {
        let action = Bracketed::DelayCase {
            at,
            set,
            priority,
            alternatives,
        };
        Ok(Box::new(alloc, action)?)
    }

    /// A receipt from the first of some buffers or by the first of some signals.
    #[tactic(auto, using(crate::proofs::StatementViews::statement_built))]
    pub fn receive_case(
        alloc: Global,
        at: Pos,
        set: Option<Box<Expr>>,
        alternatives: List<ReceiveAlternative>,
        otherwise: Option<List<Statement>>,
    ) -> Result<Box<Bracketed>, Memory>
        ensures { IfOk result (λ b. boxed_bracketed b ≡ receive_case at (option_map boxed_expr set) (receive_nodes (map receive_tree alternatives)) (otherwise_node (option_map statement_trees otherwise))) }
    {
        let action = Bracketed::ReceiveCase {
            at,
            set,
            alternatives,
            otherwise,
        };
        Ok(Box::new(alloc, action)?)
    }
}

impl ElsIf {
    ghost use Rattle.chill_tree.specs.ExprTree.{boxed_expr};
    ghost use Rattle.chill_tree.specs.StatementTree.{branch_tree, statement_trees};

    /// A further condition.
    #[tactic(auto, using(crate::proofs::StatementViews::statement_built))]
    pub fn new(at: Pos, condition: Box<Expr>, actions: List<Statement>) -> ElsIf
        ensures { branch_tree result ≡ record { at = at; condition = boxed_expr condition; actions = statement_trees actions } }
    {
        ElsIf {
            at,
            condition,
            actions,
        }
    }
}

impl CaseAlternative {
    ghost use Rattle.chill_tree.specs.ExprTree.{range_trees};
    ghost use Rattle.chill_tree.specs.StatementTree.{case_tree, statement_trees};

    /// Labels and their actions.
    #[tactic(auto, using(crate::proofs::StatementViews::statement_built))]
    pub fn new(at: Pos, labels: List<ValueRange>, actions: List<Statement>) -> CaseAlternative
        ensures { case_tree result ≡ record { at = at; labels = range_trees labels; actions = statement_trees actions } }
    {
        CaseAlternative {
            at,
            labels,
            actions,
        }
    }
}

impl NamedAlternative {
    ghost use Rattle.chill_tree.specs.StatementTree.{named_tree, statement_trees};

    /// Names and their actions.
    #[tactic(auto, using(crate::proofs::StatementViews::statement_built))]
    pub fn new(at: Pos, names: List<Name>, actions: List<Statement>) -> NamedAlternative
        ensures { named_tree result ≡ record { at = at; names = names; actions = statement_trees actions } }
    {
        NamedAlternative { at, names, actions }
    }
}

impl ReceiveAlternative {
    ghost use Rattle.chill_tree.specs.StatementTree.{receive_tree, statement_trees};

    /// A buffer or signal, the names that get what comes, and their actions.
    #[tactic(auto, using(crate::proofs::StatementViews::statement_built))]
    pub fn new(
        at: Pos,
        source: Name,
        received: Option<List<Name>>,
        actions: List<Statement>,
    ) -> ReceiveAlternative
        ensures { receive_tree result ≡ record { at = at; source = source; received = received; actions = statement_trees actions } }
    {
        ReceiveAlternative {
            at,
            source,
            received,
            actions,
        }
    }
}

impl Handler {
    ghost use Rattle.std.specs.Prelude.{IfOk, map, option_map};
    ghost use Rattle.chill_tree.specs.StatementTree.{named_tree, boxed_handler, statement_trees};

    /// A handler.
    #[tactic(auto, using(crate::proofs::StatementViews::statement_built))]
    pub fn new(
        alloc: Global,
        at: Pos,
        alternatives: List<NamedAlternative>,
        otherwise: Option<List<Statement>>,
    ) -> Result<Box<Handler>, Memory>
        ensures { IfOk result (λ h. boxed_handler h ≡ record { at = at; alternatives = map named_tree alternatives; otherwise_part = option_map statement_trees otherwise }) }
    {
        let handler = Handler {
            at,
            alternatives,
            otherwise,
        };
        Ok(Box::new(alloc, handler)?)
    }
}

impl BodyPart {
    ghost use Rattle.chill_tree.specs.LocalTree.{local_tree};
    ghost use Rattle.chill_tree.specs.StatementTree.{local_part, action_part, body_tree, statement_tree};

    /// A definition in a body.
    #[tactic(auto, using(crate::proofs::StatementViews::statement_built))]
    pub fn local(own: Local) -> BodyPart
        ensures { body_tree result ≡ local_part (local_tree own) }
    {
        BodyPart::Local(own)
    }

    /// An action in a body.
    #[tactic(auto, using(crate::proofs::StatementViews::statement_built))]
    pub fn action(own: Statement) -> BodyPart
        ensures { body_tree result ≡ action_part (statement_tree own) }
    {
        BodyPart::Statement(own)
    }
}
