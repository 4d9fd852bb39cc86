// Which handler takes an exception, and where it goes on.
ghost use Rattle.std.specs.Prelude.{◌≡◌, IsSomeAnd, MatchOption, None};
ghost use Rattle.code_types.specs.Places.{names_exception, taker, takes};
ghost use Rattle.machine_steps.specs.Asking.{HasFewSlots};
ghost use Rattle.machine_steps.specs.Rooms.{KeepsFrames};
ghost use Rattle.machine_steps.specs.Stepping.{IsMade, Steps};

use crate::process::{Doing, Process, Stepped};
use code_types::{Code, Handler};
use kernel_base::Exc;
use machine_frames::numbers::number_of;

/// Whether an exception is among these numbers.
pub fn is_named(names: &[u32], exception: Exc) -> bool
    ensures { result ≡ names_exception names.now exception }
{
    let number = number_of(exception);
    names.iter().any(|name| *name as u64 == number)
}

// Whether the handler takes the exception, raised at this place.
fn takes_at(handler: &Handler, place: usize, exception: Exc) -> bool
    ensures { result ≡ takes handler.now place exception }
{
    handler.from as usize <= place
        && place < handler.until as usize
        && (handler.otherwise || is_named(handler.names.as_slice(), exception))
}

/// Where the innermost handler that takes the exception has its actions, and with how many numbers on the stack.
pub fn landing(code: &Code, place: usize, exception: Exc) -> Option<(u32, u32)>
    ensures { MatchOption result (taker code.now.handlers place exception ≡ None) (λ at. IsSomeAnd (taker code.now.handlers place exception) (λ handler. (handler.target ≡ at.0) × (handler.height ≡ at.1))) }
{
    for i in 0..code.handlers.len() {
        let handler = code.handlers.at(i);
        if takes_at(handler, place, exception) {
            return Some((handler.target, handler.height));
        }
    }
    None
}

impl Process {
    /// Lands at the actions of the handler that takes the exception.
    pub fn land(&mut self, code: &Code, exception: Exc, target: u32, height: u32) -> Stepped
        requires raising { self.old.doing ≡ Doing.Raising exception }
        requires taken { IsSomeAnd (taker code.now.handlers self.old.top.place exception) (λ handler. (handler.target ≡ target) × (handler.height ≡ height)) }
        ensures steps { Steps code.now self.old self.new result }
        ensures made { IsMade result }
        ensures memory { KeepsFrames self.old self.new }
        ensures few { HasFewSlots self.new.doing }
    {
        self.top.stack.truncate(height as usize);
        self.top.place = target as usize;
        self.doing = Doing::Running;
        Stepped::GoesOn
    }
}
