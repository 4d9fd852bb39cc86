// The processes that were started are taken, over the kernel's state.
ghost use Rattle.std.specs.Prelude.{◌≡◌, ◌<◌, [], Some, length, slice_get, slice_set, vec_len, vec_capacity};
ghost use Rattle.kernel_steps.specs.Kept.{IsKept, IsPrepared};
ghost use Rattle.kernel_steps.specs.View.{view_of, Takes};

use chill_base::{List, Scalars};
use kernel_steps::commits::each_is_numbered;
use kernel_steps::messages::process_of;
use kernel_steps::{New, State};
use std::mem;

// The arguments of an instance. Nothing is left in their place.
fn take_arguments(arguments: &mut Vec<Scalars>, instance: u32) -> Scalars
    requires { instance < length arguments.old.items }
    ensures scalars { slice_get arguments.old.items instance ≡ Some result }
    ensures items { arguments.new.items ≡ slice_set arguments.old.items instance [] }
    ensures len { vec_len arguments.new ≡ vec_len arguments.old }
    ensures capacity { vec_capacity arguments.new ≡ vec_capacity arguments.old }
{
    let none = List::new(*arguments.allocator());
    mem::replace(&mut arguments[instance as usize], none)
}

/// The next process that was started; none exactly where each was taken. It takes no memory.
pub fn take_new(s: &mut State) -> Option<New>
    requires kept { IsKept s.old }
    requires prepared { IsPrepared s.old }
    ensures kept { IsKept s.new }
    ensures prepared { IsPrepared s.new }
    ensures takes { Takes (view_of s.old) (view_of s.new) result }
{
    each_is_numbered(s);
    if s.taken as usize + 1 >= s.arguments.len() {
        return None;
    }
    s.taken += 1;
    Some(New {
        instance: s.taken,
        process: process_of(s, s.taken),
        scalars: take_arguments(&mut s.arguments, s.taken),
    })
}
