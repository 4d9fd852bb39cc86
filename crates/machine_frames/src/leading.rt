// The instructions that lead elsewhere in their body.
ghost use Rattle.code_types.specs.declared.instr.Instr.TheVariants.{Again, Jump, Raise, Unless};
ghost use Rattle.machine_frames.specs.Frames.{Does, IsReady, KeepsRoom};

use crate::activation::{Acted, Activation};
use crate::numbers::{exception_with, is_true};

/// Goes to a later place.
pub fn jump(top: &mut Activation, to: u32) -> Acted
    ensures does { Does 0 (Jump to) top.old top.new result }
    ensures room { KeepsRoom top.old top.new }
{
    top.place = to as usize;
    Acted::GoesOn
}

/// Goes to a later place at 0.
pub fn unless(top: &mut Activation, to: u32) -> Acted
    requires { IsReady 1 0 top.old }
    ensures does { Does 1 (Unless to) top.old top.new result }
    ensures room { KeepsRoom top.old top.new }
{
    let x = top.one();
    top.drop_numbers(1);
    if !is_true(x) {
        top.place = to as usize;
    }
    Acted::GoesOn
}

/// Makes a tick and goes back to a place.
pub fn again(top: &mut Activation, to: u32) -> Acted
    ensures does { Does 0 (Again to) top.old top.new result }
    ensures room { KeepsRoom top.old top.new }
{
    top.place = to as usize;
    Acted::Ticks
}

/// Raises an exception.
pub fn raise(top: &mut Activation, exception: u32) -> Acted
    ensures does { Does 0 (Raise exception) top.old top.new result }
    ensures room { KeepsRoom top.old top.new }
{
    Acted::Raises(exception_with(exception))
}
