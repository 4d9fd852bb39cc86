// What the kernel answers to a request (Z.200, chapter on concurrent execution).
ghost use Rattle.std.specs.Prelude.{◌≡◌, ◌↔◌, IfOk, IsTrue};

use crate::Exc;
use chill_base::{Item, Memory, Scalars};

/// An answer to a request. Processes go by the numbers of their instances.
#[derive(Drop)]
pub enum Answer {
    /// The scalars of a place, or the number read.
    Value(Scalars),
    /// It was done.
    Done,
    /// The delayed process was continued by instance `by`, through this alternative.
    Woken {
        alternative: u32,
        by: u32,
    },
    /// A value was received that instance `by` sent under this send number, through this alternative.
    Got {
        alternative: u32,
        send: u32,
        scalars: Scalars,
        by: u32,
    },
    /// Nothing was there to receive, and ELSE is written.
    Otherwise,
    /// The process that was started.
    Instance(u32),
    /// An exception is raised.
    Fail(Exc),
    /// The process that CONTINUE chose, if any.
    Chose(Option<u32>),
    /// The value went straight to this process.
    Handed(u32),
    /// The value is stored.
    Stored,
}

impl Item for Answer {
    fn copy(&self) -> Result<Self, Memory> {
        let copy = match self {
            Answer::Value(scalars) => Answer::Value(scalars.copy()?),
            Answer::Done => Answer::Done,
            Answer::Woken { alternative, by } => Answer::Woken {
                alternative: *alternative,
                by: *by,
            },
            Answer::Got {
                alternative,
                send,
                scalars,
                by,
            } => Answer::Got {
                alternative: *alternative,
                send: *send,
                scalars: scalars.copy()?,
                by: *by,
            },
            Answer::Otherwise => Answer::Otherwise,
            Answer::Instance(instance) => Answer::Instance(*instance),
            Answer::Fail(exception) => Answer::Fail(*exception),
            Answer::Chose(chosen) => Answer::Chose(*chosen),
            Answer::Handed(instance) => Answer::Handed(*instance),
            Answer::Stored => Answer::Stored,
        };
        Ok(copy)
    }

    fn equals(&self, other: &Self) -> bool {
        match (self, other) {
            (Answer::Value(scalars), Answer::Value(s)) => scalars.equals(s),
            (Answer::Done, Answer::Done) => true,
            (
                Answer::Woken { alternative, by },
                Answer::Woken {
                    alternative: a,
                    by: b,
                },
            ) => { *alternative == *a && *by == *b }
            (
                Answer::Got {
                    alternative,
                    send,
                    scalars,
                    by,
                },
                Answer::Got {
                    alternative: a,
                    send: n,
                    scalars: s,
                    by: b,
                },
            ) => { *alternative == *a && *send == *n && scalars.equals(s) && *by == *b }
            (Answer::Otherwise, Answer::Otherwise) => true,
            (Answer::Instance(instance), Answer::Instance(i)) => *instance == *i,
            (Answer::Fail(exception), Answer::Fail(e)) => *exception == *e,
            (Answer::Chose(chosen), Answer::Chose(c)) => *chosen == *c,
            (Answer::Handed(instance), Answer::Handed(i)) => *instance == *i,
            (Answer::Stored, Answer::Stored) => true,
            _ => false,
        }
    }
}
