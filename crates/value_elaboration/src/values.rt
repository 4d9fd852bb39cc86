// Expressions: one recursion, whose nodes are made from what is known of their parts (Z.200, chapters on values and on
// operations).
use crate::elaborated::{Elaborated, boxed};
use crate::operators::{operator_before, operator_between};
use checked_program::{Expr, Operation, Received};
use chill_tree::tree::{Expr as Tree, Name, Prefix};
use expr_rules::{Receiver, Walk};
use modes::Mode;
use program_numbers::{ElaborationRefusal, Known, Numbering, Thing};
use std::alloc::Global;
use std::rc::Rc;

/// What expressions are elaborated by: what is known of a program, and the numbers of its parts.
#[derive(Clone, Copy)]
pub struct Values<'a, 'b, 'c> {
    pub walk: &'c Walk<'a, 'b>,
    pub numbering: &'c Numbering,
}

impl<'a, 'b, 'c> Values<'a, 'b, 'c> {
    pub(crate) fn alloc(&self) -> Global {
        self.walk.evaluation.alloc
    }

    /// The expression of a tree that something receives. A tuple without a mode's name has the mode of what receives it.
    pub fn value(
        &self,
        expr: &Tree,
        receiver: Receiver<'_>,
    ) -> Result<Box<Expr>, ElaborationRefusal> {
        self.node(expr, receiver)?.into_expr(self.alloc())
    }

    /// The expression of a tree as something of a mode takes its value.
    #[cycle(value)]
    pub fn received(&self, expr: &Tree, mode: &Rc<Mode>) -> Result<Received, ElaborationRefusal> {
        let node = self.node(expr, Receiver::Mode(Some(mode)))?;
        node.into_received(self.alloc(), mode)
    }

    /// The number that a constant of one number is: a label of a CASE or a priority.
    pub fn number(&self, expr: &Tree) -> Result<i64, ElaborationRefusal> {
        let node = self.node(expr, Receiver::Nothing)?;
        match node.known.number() {
            Some(number) if node.known.is_constant => Ok(number),
            _ => Err(ElaborationRefusal::Unsound),
        }
    }

    // A node of an expression.
    #[cycle(value)]
    pub(crate) fn node(
        &self,
        expr: &Tree,
        receiver: Receiver<'_>,
    ) -> Result<Elaborated, ElaborationRefusal> {
        match expr {
            Tree::Whole { value, .. } => self.whole(*value, false),
            Tree::Char { value, .. } => {
                Ok(Elaborated::constant(self.walk.evaluation.character(*value)?))
            }
            Tree::Text { value, .. } => Ok(Elaborated::constant(self.walk.evaluation.text(value)?)),
            Tree::This { .. } => self.found(self.known_instance()?, Operation::This),
            Tree::Paren { inner, .. } => self.node(inner, receiver),
            Tree::Receive { buffer, .. } => self.received_from(buffer),
            Tree::Start { process, args, .. } => self.started(process, args.as_slice()),
            Tree::Tuple { mode, parts, .. } => self.tuple(parts.as_slice(), mode, receiver),
            Tree::Uniform { mode, value, .. } => self.uniform(value, mode, receiver),
            Tree::Name(_) | Tree::Apply { .. } | Tree::Field { .. } => self.named(expr),
            Tree::Prefixed {
                operator,
                operand,
                ..
            } => self.prefixed(*operator, operand),
            Tree::Binary { .. } => self.operands(expr),
        }
    }

    // A whole number, which makes one with the minus before it.
    fn whole(&self, value: u64, is_negative: bool) -> Result<Elaborated, ElaborationRefusal> {
        Ok(Elaborated::constant(self.known_whole(value, is_negative)?))
    }

    /// What is found by an operation.
    pub(crate) fn found(
        &self,
        known: Known,
        operation: Operation,
    ) -> Result<Elaborated, ElaborationRefusal> {
        Ok(Elaborated::found(known, boxed(self.alloc(), operation)?))
    }

    // RECEIVE of a buffer.
    fn received_from(&self, name: &Name) -> Result<Elaborated, ElaborationRefusal> {
        let Thing::Buffer(buffer) = self.numbering.thing_used(self.walk, name.at) else {
            return Err(ElaborationRefusal::Unsound);
        };
        let known = self.known_received(name)?;
        self.found(known, Operation::Receive { buffer })
    }

    // An operator before its operand.
    #[cycle(value)]
    fn prefixed(&self, operator: Prefix, operand: &Tree) -> Result<Elaborated, ElaborationRefusal> {
        if let (Prefix::Minus, Tree::Whole { value, .. }) = (operator, operand) {
            return self.whole(*value, true);
        }
        let operand = self.node(operand, Receiver::Nothing)?;
        let known = fitting(self.known_unary(operator, &operand.known)?)?;
        if known.is_constant {
            return Ok(Elaborated::constant(known));
        }
        let operand = operand.into_expr(self.alloc())?;
        let operator = operator_before(operator, &operand.class);
        self.found(known, Operation::Prefixed { operator, operand })
    }

    // Two operands with an operator between them: an expression that is handed down whole, since both are its parts.
    #[cycle(value)]
    fn operands(&self, expr: &Tree) -> Result<Elaborated, ElaborationRefusal> {
        let Tree::Binary {
            left,
            operator,
            right,
            ..
        } = expr
        else {
            return Err(ElaborationRefusal::Unsound);
        };
        let left = self.node(left, Receiver::Nothing)?;
        let right = self.node(right, Receiver::Nothing)?;
        let known = fitting(self.known_binary(*operator, &left.known, &right.known)?)?;
        if known.is_constant {
            return Ok(Elaborated::constant(known));
        }
        let left = left.into_expr(self.alloc())?;
        let right = right.into_expr(self.alloc())?;
        let Some(operator) = operator_between(*operator, &left.class, &right.class) else {
            return Err(ElaborationRefusal::Unsound);
        };
        self.found(
            known,
            Operation::Binary {
                operator,
                left,
                right,
            },
        )
    }
}

/// What is known of the result of an operator or a routine, which operands that fit have.
pub(crate) fn fitting(found: Option<Known>) -> Result<Known, ElaborationRefusal> {
    match found {
        Some(known) => Ok(known),
        None => Err(ElaborationRefusal::Unsound),
    }
}
