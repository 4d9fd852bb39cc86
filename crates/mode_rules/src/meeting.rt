// Events and buffers, where processes meet (Z.200, chapter on concurrent execution).
use modes::Mode;
use std::rc::Rc;

/// What a location is at which processes meet.
#[derive(Clone, Copy)]
pub enum Meeting<'m> {
    Event {
        length: Option<u32>,
    },
    Buffer {
        length: Option<u32>,
        element: &'m Rc<Mode>,
    },
}

/// What processes meet at where a location has the mode, if they do. Names and READ are looked through.
pub fn meeting_of(mode: &Mode) -> Option<Meeting<'_>> {
    match mode {
        Mode::Event { length } => Some(Meeting::Event { length: *length }),
        Mode::Buffer { length, element } => Some(Meeting::Buffer {
            length: *length,
            element,
        }),
        Mode::Read { of } | Mode::Named { of, .. } => meeting_of(of),
        Mode::Int
        | Mode::Bool
        | Mode::Char
        | Mode::Instance
        | Mode::Set { .. }
        | Mode::Range { .. }
        | Mode::Powerset { .. }
        | Mode::Chars { .. }
        | Mode::Array { .. }
        | Mode::Struct { .. } => None,
    }
}
