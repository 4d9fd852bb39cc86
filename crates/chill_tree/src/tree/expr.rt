// Expressions, locations and tuples (Z.200, chapters on values and operations).
ghost use Rattle.std.specs.Prelude.{◌≡◌};

use crate::tree::Name;
use chill_base::{List, Memory, Pos, Text};
use std::alloc::Global;

/// An operator between two operands.
#[derive(Clone, Copy, PartialEq, Eq)]
pub enum Operator {
    Or,
    Xor,
    OrIf,
    And,
    AndIf,
    Equal,
    NotEqual,
    Less,
    LessOrEqual,
    Greater,
    GreaterOrEqual,
    In,
    Plus,
    Minus,
    Times,
    Divide,
    Mod,
    Rem,
}

/// An operator before its operand.
#[derive(Clone, Copy, PartialEq, Eq)]
pub enum Prefix {
    Minus,
    Not,
}

/// An expression or a location.
#[derive(Drop)]
#[cycle(expression)]
pub enum Expr {
    Whole {
        at: Pos,
        value: u64,
    },
    Char {
        at: Pos,
        value: u8,
    },
    Text {
        at: Pos,
        value: Text,
    },
    This {
        at: Pos,
    },
    /// An expression in parentheses.
    Paren {
        at: Pos,
        inner: Box<Expr>,
    },
    /// What is received from a buffer.
    Receive {
        at: Pos,
        buffer: Name,
    },
    /// The instance of a process that is started.
    Start {
        at: Pos,
        process: Name,
        args: List<Expr>,
    },
    /// A tuple of parts, with a mode's name before its bracket or none.
    Tuple {
        at: Pos,
        mode: Option<Name>,
        bracket: Pos,
        parts: List<ValueRange>,
    },
    /// A tuple `[(*): value]`, whose elements all have one value.
    Uniform {
        at: Pos,
        mode: Option<Name>,
        bracket: Pos,
        value: Box<Expr>,
    },
    Name(Name),
    /// What stands before brackets, and the expressions in them: a call or an element.
    Apply {
        at: Pos,
        of: Box<Expr>,
        args: List<Expr>,
    },
    Field {
        at: Pos,
        of: Box<Expr>,
        field: Name,
    },
    /// An operator and its operand.
    Prefixed {
        at: Pos,
        operator: Prefix,
        operand: Box<Expr>,
    },
    /// Two operands with an operator between them, which has its own place.
    Binary {
        at: Pos,
        left: Box<Expr>,
        operator: Operator,
        sign: Pos,
        right: Box<Expr>,
    },
}

/// An expression, or a range of values between two: a part of a tuple, or a label of a CASE.
#[derive(Drop)]
#[cycle(expression)]
pub struct ValueRange {
    pub first: Box<Expr>,
    pub last: Option<Box<Expr>>,
}

impl Expr {
    ghost use Rattle.std.specs.Prelude.{IfOk, option_map};
    ghost use Rattle.chill_tree.specs.ExprTree.{name_in, applied_in, whole, character, text, this_instance, paren, receive, start, tuple, uniform, name, apply, field, prefixed, binary, expr_nodes, range_nodes, place_of, expr_tree, boxed_expr, expr_trees, range_trees};

    /// The place of the first token.
    #[tactic(auto, using(crate::proofs::ExprViews::expr_built))]
    pub fn at(&self) -> Pos
        ensures { result ≡ place_of (expr_tree self.now) }
    {
        match self {
            Expr::Whole { at, .. } => *at,
            Expr::Char { at, .. } => *at,
            Expr::Text { at, .. } => *at,
            Expr::This { at } => *at,
            Expr::Paren { at, .. } => *at,
            Expr::Receive { at, .. } => *at,
            Expr::Start { at, .. } => *at,
            Expr::Tuple { at, .. } => *at,
            Expr::Uniform { at, .. } => *at,
            Expr::Name(name) => name.at,
            Expr::Apply { at, .. } => *at,
            Expr::Field { at, .. } => *at,
            Expr::Prefixed { at, .. } => *at,
            Expr::Binary { at, .. } => *at,
        }
    }

    /// The name, where the expression is one.
    #[tactic(auto, using(crate::proofs::ExprViews::expr_built))]
    pub fn into_name(own: Box<Expr>) -> Option<Name>
        ensures { result ≡ name_in (boxed_expr own) }
    {
        match Box::into_inner(own) {
            Expr::Name(name) => Some(name),
            Expr::Whole { .. }
            | Expr::Char { .. }
            | Expr::Text { .. }
            | Expr::This { .. }
            | Expr::Paren { .. }
            | Expr::Receive { .. }
            | Expr::Start { .. }
            | Expr::Tuple { .. }
            | Expr::Uniform { .. }
            | Expr::Apply { .. }
            | Expr::Field { .. }
            | Expr::Prefixed { .. }
            | Expr::Binary { .. } => None,
        }
    }

    /// The name and the expressions in its brackets, where the expression is a name with brackets behind it.
    #[tactic(auto, using(crate::proofs::ExprViews::expr_built))]
    pub fn into_applied(own: Box<Expr>) -> Option<(Name, List<Expr>)>
        ensures { option_map (λ a. (a.0, expr_nodes (expr_trees a.1))) result ≡ applied_in (boxed_expr own) }
    {
        match Box::into_inner(own) {
            Expr::Apply { at: _, of, args } => Some((Expr::into_name(of)?, args)),
            Expr::Whole { .. }
            | Expr::Char { .. }
            | Expr::Text { .. }
            | Expr::This { .. }
            | Expr::Paren { .. }
            | Expr::Receive { .. }
            | Expr::Start { .. }
            | Expr::Tuple { .. }
            | Expr::Uniform { .. }
            | Expr::Name(..)
            | Expr::Field { .. }
            | Expr::Prefixed { .. }
            | Expr::Binary { .. } => None,
        }
    }

    /// A whole literal.
    #[tactic(auto, using(crate::proofs::ExprViews::expr_built))]
    pub fn whole(alloc: Global, at: Pos, value: u64) -> Result<Box<Expr>, Memory>
        ensures { IfOk result (λ e. boxed_expr e ≡ whole at value) }
    {
        Ok(Box::new(alloc, Expr::Whole { at, value })?)
    }

    /// A character literal.
    #[tactic(auto, using(crate::proofs::ExprViews::expr_built))]
    pub fn character(alloc: Global, at: Pos, value: u8) -> Result<Box<Expr>, Memory>
        ensures { IfOk result (λ e. boxed_expr e ≡ character at value) }
    {
        Ok(Box::new(alloc, Expr::Char { at, value })?)
    }

    /// A text literal.
    #[tactic(auto, using(crate::proofs::ExprViews::expr_built))]
    pub fn text(alloc: Global, at: Pos, value: Text) -> Result<Box<Expr>, Memory>
        ensures { IfOk result (λ e. boxed_expr e ≡ text at value) }
    {
        Ok(Box::new(alloc, Expr::Text { at, value })?)
    }

    /// The own instance.
    #[tactic(auto, using(crate::proofs::ExprViews::expr_built))]
    pub fn this_instance(alloc: Global, at: Pos) -> Result<Box<Expr>, Memory>
        ensures { IfOk result (λ e. boxed_expr e ≡ this_instance at) }
    {
        Ok(Box::new(alloc, Expr::This { at })?)
    }

    /// An expression in parentheses.
    #[tactic(auto, using(crate::proofs::ExprViews::expr_built))]
    pub fn paren(alloc: Global, at: Pos, inner: Box<Expr>) -> Result<Box<Expr>, Memory>
        ensures { IfOk result (λ e. boxed_expr e ≡ paren at (boxed_expr inner)) }
    {
        Ok(Box::new(alloc, Expr::Paren { at, inner })?)
    }

    /// What is received from a buffer.
    #[tactic(auto, using(crate::proofs::ExprViews::expr_built))]
    pub fn receive(alloc: Global, at: Pos, buffer: Name) -> Result<Box<Expr>, Memory>
        ensures { IfOk result (λ e. boxed_expr e ≡ receive at buffer) }
    {
        Ok(Box::new(alloc, Expr::Receive { at, buffer })?)
    }

    /// A process that is started.
    #[tactic(auto, using(crate::proofs::ExprViews::expr_built))]
    pub fn start(
        alloc: Global,
        at: Pos,
        process: Name,
        args: List<Expr>,
    ) -> Result<Box<Expr>, Memory>
        ensures { IfOk result (λ e. boxed_expr e ≡ start at process (expr_nodes (expr_trees args))) }
    {
        Ok(Box::new(alloc, Expr::Start { at, process, args })?)
    }

    /// A tuple of parts.
    #[tactic(auto, using(crate::proofs::ExprViews::expr_built))]
    pub fn tuple(
        alloc: Global,
        at: Pos,
        mode: Option<Name>,
        bracket: Pos,
        parts: List<ValueRange>,
    ) -> Result<Box<Expr>, Memory>
        ensures { IfOk result (λ e. boxed_expr e ≡ tuple at mode bracket (range_nodes (range_trees parts))) }
    {
        let tuple = Expr::Tuple {
            at,
            mode,
            bracket,
            parts,
        };
        Ok(Box::new(alloc, tuple)?)
    }

    /// A tuple whose elements all have one value.
    #[tactic(auto, using(crate::proofs::ExprViews::expr_built))]
    pub fn uniform(
        alloc: Global,
        at: Pos,
        mode: Option<Name>,
        bracket: Pos,
        value: Box<Expr>,
    ) -> Result<Box<Expr>, Memory>
        ensures { IfOk result (λ e. boxed_expr e ≡ uniform at mode bracket (boxed_expr value)) }
    {
        let tuple = Expr::Uniform {
            at,
            mode,
            bracket,
            value,
        };
        Ok(Box::new(alloc, tuple)?)
    }

    /// A name alone.
    #[tactic(auto, using(crate::proofs::ExprViews::expr_built))]
    pub fn name(alloc: Global, own: Name) -> Result<Box<Expr>, Memory>
        ensures { IfOk result (λ e. boxed_expr e ≡ name own) }
    {
        Ok(Box::new(alloc, Expr::Name(own))?)
    }

    /// What stands before brackets, with the expressions in them.
    #[tactic(auto, using(crate::proofs::ExprViews::expr_built))]
    pub fn apply(alloc: Global, of: Box<Expr>, args: List<Expr>) -> Result<Box<Expr>, Memory>
        ensures { IfOk result (λ e. boxed_expr e ≡ apply (place_of (boxed_expr of)) (boxed_expr of) (expr_nodes (expr_trees args))) }
    {
        let at = of.at();
        Ok(Box::new(alloc, Expr::Apply { at, of, args })?)
    }

    /// A field.
    #[tactic(auto, using(crate::proofs::ExprViews::expr_built))]
    pub fn field(alloc: Global, of: Box<Expr>, own: Name) -> Result<Box<Expr>, Memory>
        ensures { IfOk result (λ e. boxed_expr e ≡ field (place_of (boxed_expr of)) (boxed_expr of) own) }
    {
        let at = of.at();
        Ok(Box::new(alloc, Expr::Field { at, of, field: own })?)
    }

    /// An operand behind its operator.
    #[tactic(auto, using(crate::proofs::ExprViews::expr_built))]
    pub fn prefixed(
        alloc: Global,
        at: Pos,
        operator: Prefix,
        operand: Box<Expr>,
    ) -> Result<Box<Expr>, Memory>
        ensures { IfOk result (λ e. boxed_expr e ≡ prefixed at operator (boxed_expr operand)) }
    {
        Ok(Box::new(
            alloc,
            Expr::Prefixed {
                at,
                operator,
                operand,
            },
        )?)
    }

    /// Two operands with an operator between them.
    #[tactic(auto, using(crate::proofs::ExprViews::expr_built))]
    pub fn binary(
        alloc: Global,
        left: Box<Expr>,
        operator: Operator,
        sign: Pos,
        right: Box<Expr>,
    ) -> Result<Box<Expr>, Memory>
        ensures { IfOk result (λ e. boxed_expr e ≡ binary (place_of (boxed_expr left)) (boxed_expr left) operator sign (boxed_expr right)) }
    {
        let at = left.at();
        let binary = Expr::Binary {
            at,
            left,
            operator,
            sign,
            right,
        };
        Ok(Box::new(alloc, binary)?)
    }
}

impl ValueRange {
    ghost use Rattle.std.specs.Prelude.{option_map};
    ghost use Rattle.chill_tree.specs.ExprTree.{range_of, boxed_expr, range_tree};

    /// An expression, up to another one or alone.
    #[tactic(auto, using(crate::proofs::ExprViews::expr_built))]
    pub fn new(first: Box<Expr>, last: Option<Box<Expr>>) -> ValueRange
        ensures { range_tree result ≡ range_of (boxed_expr first) (option_map boxed_expr last) }
    {
        ValueRange { first, last }
    }
}
