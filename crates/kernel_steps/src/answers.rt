// Answers of those that went on are fetched.
ghost use Rattle.std.specs.Prelude.{◌≡◌, None, slice_set, vec_len, vec_capacity};
ghost use Rattle.kernel_steps.specs.Kept.{IsKept, IsPrepared};
ghost use Rattle.kernel_steps.specs.View.{view_of, unfetched_of, Fetches};

use crate::State;
use kernel_base::Answer;
use std::mem;

fn next_answer(unfetched: &mut Vec<Option<Answer>>, who: u32) -> Option<Answer>
    ensures answer { result ≡ unfetched_of unfetched.old.items who }
    ensures unfetched { unfetched.new.items ≡ slice_set unfetched.old.items who None }
    ensures len { vec_len unfetched.new ≡ vec_len unfetched.old }
    ensures capacity { vec_capacity unfetched.new ≡ vec_capacity unfetched.old }
{
    if who as usize >= unfetched.len() {
        return None;
    }
    mem::replace(&mut unfetched[who as usize], None)
}

/// The answer of one that went on, which is then fetched; none exactly where it has none that wasn't. It takes no
/// memory.
pub fn fetch(s: &mut State, who: u32) -> Option<Answer>
    requires kept { IsKept s.old }
    requires prepared { IsPrepared s.old }
    ensures kept { IsKept s.new }
    ensures prepared { IsPrepared s.new }
    ensures fetches { Fetches (view_of s.old) (view_of s.new) who result }
{
    next_answer(&mut s.seats.unfetched, who)
}
