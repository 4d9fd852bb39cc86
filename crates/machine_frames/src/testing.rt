// The instructions that test numbers.
ghost use Rattle.std.specs.Prelude.{◌*◌};
ghost use Rattle.code_types.specs.declared.instr.Instr.TheVariants.{And, Less, Not, Or, Same, Xor};
ghost use Rattle.machine_frames.specs.Frames.{Does, IsReady, KeepsRoom};

use crate::activation::{Acted, Activation};
use crate::numbers::{are_same, comes_first, is_true, truth_from};

/// Whether the number counts as false.
pub fn not(top: &mut Activation) -> Acted
    requires { IsReady 1 1 top.old }
    ensures does { Does 1 Not top.old top.new result }
    ensures room { KeepsRoom top.old top.new }
{
    let x = top.one();
    top.replace(1, truth_from(!is_true(x)));
    Acted::GoesOn
}

/// Whether both numbers count as true.
pub fn and(top: &mut Activation) -> Acted
    requires { IsReady 2 1 top.old }
    ensures does { Does 2 And top.old top.new result }
    ensures room { KeepsRoom top.old top.new }
{
    let (x, y) = top.two();
    top.replace(2, truth_from(is_true(x) & is_true(y)));
    Acted::GoesOn
}

/// Whether one of the numbers counts as true.
pub fn or(top: &mut Activation) -> Acted
    requires { IsReady 2 1 top.old }
    ensures does { Does 2 Or top.old top.new result }
    ensures room { KeepsRoom top.old top.new }
{
    let (x, y) = top.two();
    top.replace(2, truth_from(is_true(x) | is_true(y)));
    Acted::GoesOn
}

/// Whether just one of the numbers counts as true.
pub fn xor(top: &mut Activation) -> Acted
    requires { IsReady 2 1 top.old }
    ensures does { Does 2 Xor top.old top.new result }
    ensures room { KeepsRoom top.old top.new }
{
    let (x, y) = top.two();
    top.replace(2, truth_from(is_true(x) != is_true(y)));
    Acted::GoesOn
}

/// Whether two lists are equal.
pub fn same(top: &mut Activation, n: u32) -> Acted
    requires { IsReady (2 * n) 1 top.old }
    ensures does { Does (2 * n) (Same n) top.old top.new result }
    ensures room { KeepsRoom top.old top.new }
{
    let count = n as usize;
    let height = top.stack.len();
    let yes = are_same(
        &top.stack[height - 2 * count..height - count],
        &top.stack[height - count..],
    );
    top.replace(2 * count, truth_from(yes));
    Acted::GoesOn
}

/// Whether the lower of two lists comes first.
pub fn less(top: &mut Activation, n: u32) -> Acted
    requires { IsReady (2 * n) 1 top.old }
    ensures does { Does (2 * n) (Less n) top.old top.new result }
    ensures room { KeepsRoom top.old top.new }
{
    let count = n as usize;
    let height = top.stack.len();
    let yes = comes_first(
        &top.stack[height - 2 * count..height - count],
        &top.stack[height - count..],
    );
    top.replace(2 * count, truth_from(yes));
    Acted::GoesOn
}
