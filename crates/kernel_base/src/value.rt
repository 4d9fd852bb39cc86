// The values of locations, as trees (Z.200, chapters on modes and values).
ghost use Rattle.std.specs.Prelude.{◌≡◌, ◌↔◌, IfOk, IsTrue};

use chill_base::{Item, List, Memory, Numbers};

/// A value.
#[derive(Drop)]
pub enum Value {
    /// A discrete value or an instance: FALSE and TRUE are 0 and 1, a SET's element is its number, a CHAR its code,
    /// NULL is 0.
    Number(i64),
    /// A powerset whose member mode has `size` values. The members are told by their offsets from the lower bound of
    /// that mode, which rise and are below `size`.
    Members { size: u32, offsets: Numbers },
    /// The characters, elements or fields of a text, an array or a structure, in order.
    Parts(List<Value>),
}

/// What a scalar of a value is.
#[derive(Clone, Copy)]
pub enum ScalarKind {
    /// A discrete value or an instance.
    Plain,
    /// Members of a powerset whose member mode has `size` values: bit k tells the member at offset `first` + k.
    Powerset { size: u32, first: u32 },
}

/// Values of several locations.
pub type Values = List<Value>;

fn copy_value(value: &Value) -> Result<Value, Memory>
    ensures { IfOk result (λ copy. copy ≡ value.now) }
{
    match value {
        Value::Number(number) => Ok(Value::Number(*number)),
        Value::Members { size, offsets } => Ok(Value::Members {
            size: *size,
            offsets: offsets.copy()?,
        }),
        Value::Parts(parts) => {
            let mut copy = List::new(parts.allocator());
            for part in parts.as_slice() {
                copy.push(copy_value(part)?)?;
            }
            Ok(Value::Parts(copy))
        }
    }
}

fn equal_values(value: &Value, other: &Value) -> bool
    ensures { IsTrue result ↔ (value.now ≡ other.now) }
{
    match (value, other) {
        (Value::Number(number), Value::Number(n)) => *number == *n,
        (
            Value::Members { size, offsets },
            Value::Members {
                size: s,
                offsets: o,
            },
        ) => { *size == *s && offsets.equals(o) }
        (Value::Parts(parts), Value::Parts(p)) => {
            let (mine, theirs) = (parts.as_slice(), p.as_slice());
            if mine.len() != theirs.len() {
                return false;
            }
            for i in 0..mine.len() {
                if !equal_values(&mine[i], &theirs[i]) {
                    return false;
                }
            }
            true
        }
        _ => false,
    }
}

impl Item for Value {
    fn copy(&self) -> Result<Self, Memory> {
        copy_value(self)
    }

    fn equals(&self, other: &Self) -> bool {
        equal_values(self, other)
    }
}
