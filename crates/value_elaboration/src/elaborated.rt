// A node of an expression as it is elaborated, from which the node around it is made.
use checked_program::{Expr, Operation, Received};
use chill_base::{Memory, Scalars};
use modes::{Class, Mode, bounds, number_of_scalars};
use program_numbers::{ElaborationRefusal, Known};
use std::alloc::Global;

/// What is known of an expression, and how its value is found. A constant has no operation, since its value is known.
pub struct Elaborated {
    pub known: Known,
    operation: Option<Box<Operation>>,
}

// Dropped by hand, so that whoever drops one makes one call.
impl Drop for Elaborated {
    fn drop(self) {
        let Elaborated { known, operation } = self;
        drop(known);
        drop(operation);
    }
}

impl Elaborated {
    /// A constant.
    pub fn constant(known: Known) -> Elaborated {
        Elaborated {
            known,
            operation: None,
        }
    }

    /// What is found by an operation; the operation is dropped where it is a constant all the same.
    pub fn found(known: Known, operation: Box<Operation>) -> Elaborated {
        if known.is_constant {
            drop(operation);
            return Elaborated::constant(known);
        }
        Elaborated {
            known,
            operation: Some(operation),
        }
    }

    /// The expression of the elaborated program.
    pub fn into_expr(self, alloc: Global) -> Result<Box<Expr>, ElaborationRefusal> {
        let Elaborated { known, operation } = self;
        let (class, value) = known.into_parts();
        let Some(class) = class else {
            return Err(ElaborationRefusal::Unsound);
        };
        let operation = match operation {
            Some(operation) => Box::into_inner(operation),
            None => constant_of(value)?,
        };
        let count = number_in(&class);
        let expr = Expr {
            class,
            count,
            operation,
        };
        Ok(boxed(alloc, expr)?)
    }

    /// The expression as something of a mode takes it.
    pub fn into_received(self, alloc: Global, mode: &Mode) -> Result<Received, ElaborationRefusal> {
        let value = self.into_expr(alloc)?;
        Ok(Received {
            value,
            bounds: bounds(mode),
        })
    }
}

// The operation of a constant.
fn constant_of(value: Option<Scalars>) -> Result<Operation, ElaborationRefusal> {
    match value {
        Some(scalars) => Ok(Operation::Constant(scalars)),
        None => Err(ElaborationRefusal::Unsound),
    }
}

/// How many flat scalars a value of a class has. NULL has one, and what gives no value has none.
pub fn number_in(class: &Class) -> u32 {
    match class {
        Class::Value(mode) | Class::Derived(mode) => number_of_scalars(mode),
        Class::Null => 1,
        Class::Nothing => 0,
    }
}

/// A value in a box.
pub fn boxed<T: Drop>(alloc: Global, value: T) -> Result<Box<T>, Memory> {
    Ok(Box::new(alloc, value)?)
}
