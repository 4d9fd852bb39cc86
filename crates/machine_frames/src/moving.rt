// The instructions that move numbers between the stack and the locals.
ghost use Rattle.std.specs.Prelude.{◌+◌, ◌≤◌, length};
ghost use Rattle.code_types.specs.declared.instr.Instr.TheVariants.{Copy, Local, LocalAt, Part, PartAt, Pop, Push, SetLocal, SetLocalAt, Thing};
ghost use Rattle.machine_frames.specs.Frames.{Does, IsReady, KeepsRoom};

use crate::activation::{Acted, Activation};
use crate::numbers::offset_from;
use kernel_base::Exc;

/// Pushes a number.
pub fn push(top: &mut Activation, number: i64) -> Acted
    requires { IsReady 0 1 top.old }
    ensures does { Does 0 (Push number) top.old top.new result }
    ensures room { KeepsRoom top.old top.new }
{
    top.replace(0, number);
    Acted::GoesOn
}

/// Pushes the number of an event, a buffer or a signal.
pub fn thing(top: &mut Activation, number: u32) -> Acted
    requires { IsReady 0 1 top.old }
    ensures does { Does 0 (Thing number) top.old top.new result }
    ensures room { KeepsRoom top.old top.new }
{
    top.replace(0, number as i64);
    Acted::GoesOn
}

/// Drops numbers.
pub fn pop(top: &mut Activation, n: u32) -> Acted
    requires { IsReady n 0 top.old }
    ensures does { Does n (Pop n) top.old top.new result }
    ensures room { KeepsRoom top.old top.new }
{
    top.drop_numbers(n as usize);
    Acted::GoesOn
}

/// Pushes the topmost numbers again.
pub fn copy(top: &mut Activation, n: u32) -> Acted
    requires { IsReady n (n + n) top.old }
    ensures does { Does n (Copy n) top.old top.new result }
    ensures room { KeepsRoom top.old top.new }
{
    let height = top.stack.len();
    top.stack
        .extend_from_within(height - n as usize..height)
        .unwrap();
    top.place += 1;
    Acted::GoesOn
}

/// Pushes locals.
pub fn local(top: &mut Activation, first: u32, count: u32) -> Acted
    requires ready { IsReady 0 count top.old }
    requires inside { first + count ≤ length top.old.locals.items }
    ensures does { Does 0 (Local first count) top.old top.new result }
    ensures room { KeepsRoom top.old top.new }
{
    top.fetch(0, first as usize, count as usize);
    Acted::GoesOn
}

/// Pops into locals.
pub fn set_local(top: &mut Activation, first: u32, count: u32) -> Acted
    requires ready { IsReady count 0 top.old }
    requires inside { first + count ≤ length top.old.locals.items }
    ensures does { Does count (SetLocal first count) top.old top.new result }
    ensures room { KeepsRoom top.old top.new }
{
    top.store(count as usize, first as usize, count as usize);
    Acted::GoesOn
}

/// Pushes locals from an offset on, or RANGEFAIL.
pub fn local_at(top: &mut Activation, first: u32, count: u32) -> Acted
    requires { IsReady 1 count top.old }
    ensures does { Does 1 (LocalAt first count) top.old top.new result }
    ensures room { KeepsRoom top.old top.new }
{
    let x = top.one();
    match offset_from(x) {
        Some(k) => {
            let start = first as usize + k;
            if start + count as usize <= top.locals.len() {
                top.fetch(1, start, count as usize);
                Acted::GoesOn
            } else {
                Acted::Raises(Exc::Rangefail)
            }
        }
        None => Acted::Raises(Exc::Rangefail),
    }
}

/// Pops into locals from an offset on, or RANGEFAIL.
pub fn set_local_at(top: &mut Activation, first: u32, count: u32) -> Acted
    requires { IsReady (1 + count) 0 top.old }
    ensures does { Does (1 + count) (SetLocalAt first count) top.old top.new result }
    ensures room { KeepsRoom top.old top.new }
{
    let x = top.lowest(count as usize);
    match offset_from(x) {
        Some(k) => {
            let start = first as usize + k;
            if start + count as usize <= top.locals.len() {
                top.store(1 + count as usize, start, count as usize);
                Acted::GoesOn
            } else {
                Acted::Raises(Exc::Rangefail)
            }
        }
        None => Acted::Raises(Exc::Rangefail),
    }
}

/// Keeps a part of the topmost numbers.
pub fn part(top: &mut Activation, first: u32, count: u32, of: u32) -> Acted
    requires ready { IsReady of count top.old }
    requires inside { first + count ≤ of }
    ensures does { Does of (Part first count of) top.old top.new result }
    ensures room { KeepsRoom top.old top.new }
{
    top.keep(of as usize, 0, first as usize, count as usize);
    Acted::GoesOn
}

/// Keeps a part of the topmost numbers from an offset on, or RANGEFAIL.
pub fn part_at(top: &mut Activation, count: u32, of: u32) -> Acted
    requires { IsReady (1 + of) count top.old }
    ensures does { Does (1 + of) (PartAt count of) top.old top.new result }
    ensures room { KeepsRoom top.old top.new }
{
    let x = top.one();
    match offset_from(x) {
        Some(k) => {
            if k + count as usize <= of as usize {
                top.keep(of as usize, 1, k, count as usize);
                Acted::GoesOn
            } else {
                Acted::Raises(Exc::Rangefail)
            }
        }
        None => Acted::Raises(Exc::Rangefail),
    }
}
