// The journal's events. One event is one atomic step of a run.
ghost use Rattle.std.specs.Prelude.{◌≡◌, ◌↔◌, IfOk, IsTrue};

use crate::{Answer, Request};
use chill_base::{Item, List, Memory};

/// An event of the journal. `ticks` are those that the process made since its last event.
#[derive(Drop)]
pub enum Event {
    /// A request was answered at once. `refill` is the delayed sender whose value took the place of the one received.
    Did {
        who: u32,
        ticks: u32,
        request: Request,
        answer: Answer,
        refill: Option<u32>,
    },
    /// A request waits.
    Waits {
        who: u32,
        ticks: u32,
        request: Request,
    },
    /// A process that waited goes on with its answer.
    Goes {
        who: u32,
        answer: Answer,
    },
    /// A process made ticks and asked nothing.
    Runs {
        who: u32,
        ticks: u32,
    },
}

/// A journal, or a part of one.
pub type Events = List<Event>;

impl Item for Event {
    fn copy(&self) -> Result<Self, Memory> {
        match self {
            Event::Did {
                who,
                ticks,
                request,
                answer,
                refill,
            } => Ok(Event::Did {
                who: *who,
                ticks: *ticks,
                request: request.copy()?,
                answer: answer.copy()?,
                refill: *refill,
            }),
            Event::Waits {
                who,
                ticks,
                request,
            } => Ok(Event::Waits {
                who: *who,
                ticks: *ticks,
                request: request.copy()?,
            }),
            Event::Goes { who, answer } => Ok(Event::Goes {
                who: *who,
                answer: answer.copy()?,
            }),
            Event::Runs { who, ticks } => Ok(Event::Runs {
                who: *who,
                ticks: *ticks,
            }),
        }
    }

    fn equals(&self, other: &Self) -> bool {
        match (self, other) {
            (
                Event::Did {
                    who,
                    ticks,
                    request,
                    answer,
                    refill,
                },
                Event::Did {
                    who: w,
                    ticks: t,
                    request: r,
                    answer: a,
                    refill: f,
                },
            ) => {
                *who == *w && *ticks == *t && request.equals(r) && answer.equals(a) && *refill == *f
            }
            (
                Event::Waits {
                    who,
                    ticks,
                    request,
                },
                Event::Waits {
                    who: w,
                    ticks: t,
                    request: r,
                },
            ) => { *who == *w && *ticks == *t && request.equals(r) }
            (Event::Goes { who, answer }, Event::Goes { who: w, answer: a }) => {
                *who == *w && answer.equals(a)
            }
            (Event::Runs { who, ticks }, Event::Runs { who: w, ticks: t }) => {
                *who == *w && *ticks == *t
            }
            _ => false,
        }
    }
}
