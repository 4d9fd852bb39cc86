// The instructions of arithmetic.
ghost use Rattle.code_types.specs.declared.instr.Instr.TheVariants.{Abs, Add, Check, Div, Index, Mod, Mul, Neg, Pred, Rem, Sub, Succ};
ghost use Rattle.machine_frames.specs.Frames.{Does, IsReady, KeepsRoom};

use crate::activation::{Acted, Activation};
use crate::numbers::{
    difference, index_offset, magnitude_of, modulus_of, negation, predecessor, product,
    quotient_of, remainder_of, successor, sum, within_bounds,
};
use kernel_base::Exc;

/// The sum, or OVERFLOW.
pub fn add(top: &mut Activation) -> Acted
    requires { IsReady 2 1 top.old }
    ensures does { Does 2 Add top.old top.new result }
    ensures room { KeepsRoom top.old top.new }
{
    let (x, y) = top.two();
    top.settle(2, sum(x, y), Exc::Overflow)
}

/// The difference, or OVERFLOW.
pub fn subtract(top: &mut Activation) -> Acted
    requires { IsReady 2 1 top.old }
    ensures does { Does 2 Sub top.old top.new result }
    ensures room { KeepsRoom top.old top.new }
{
    let (x, y) = top.two();
    top.settle(2, difference(x, y), Exc::Overflow)
}

/// The product, or OVERFLOW.
pub fn multiply(top: &mut Activation) -> Acted
    requires { IsReady 2 1 top.old }
    ensures does { Does 2 Mul top.old top.new result }
    ensures room { KeepsRoom top.old top.new }
{
    let (x, y) = top.two();
    top.settle(2, product(x, y), Exc::Overflow)
}

/// The quotient, or OVERFLOW.
pub fn divide(top: &mut Activation) -> Acted
    requires { IsReady 2 1 top.old }
    ensures does { Does 2 Div top.old top.new result }
    ensures room { KeepsRoom top.old top.new }
{
    let (x, y) = top.two();
    top.settle(2, quotient_of(x, y), Exc::Overflow)
}

/// The number modulo another, or OVERFLOW.
pub fn modulo(top: &mut Activation) -> Acted
    requires { IsReady 2 1 top.old }
    ensures does { Does 2 Mod top.old top.new result }
    ensures room { KeepsRoom top.old top.new }
{
    let (x, y) = top.two();
    top.settle(2, modulus_of(x, y), Exc::Overflow)
}

/// The remainder, or OVERFLOW.
pub fn remain(top: &mut Activation) -> Acted
    requires { IsReady 2 1 top.old }
    ensures does { Does 2 Rem top.old top.new result }
    ensures room { KeepsRoom top.old top.new }
{
    let (x, y) = top.two();
    top.settle(2, remainder_of(x, y), Exc::Overflow)
}

/// The number with the other sign, or OVERFLOW.
pub fn negate(top: &mut Activation) -> Acted
    requires { IsReady 1 1 top.old }
    ensures does { Does 1 Neg top.old top.new result }
    ensures room { KeepsRoom top.old top.new }
{
    let x = top.one();
    top.settle(1, negation(x), Exc::Overflow)
}

/// The magnitude, or OVERFLOW.
pub fn absolute(top: &mut Activation) -> Acted
    requires { IsReady 1 1 top.old }
    ensures does { Does 1 Abs top.old top.new result }
    ensures room { KeepsRoom top.old top.new }
{
    let x = top.one();
    top.settle(1, magnitude_of(x), Exc::Overflow)
}

/// The successor, or OVERFLOW.
pub fn succeed(top: &mut Activation, bound: i64) -> Acted
    requires { IsReady 1 1 top.old }
    ensures does { Does 1 (Succ bound) top.old top.new result }
    ensures room { KeepsRoom top.old top.new }
{
    let x = top.one();
    top.settle(1, successor(bound, x), Exc::Overflow)
}

/// The predecessor, or OVERFLOW.
pub fn precede(top: &mut Activation, bound: i64) -> Acted
    requires { IsReady 1 1 top.old }
    ensures does { Does 1 (Pred bound) top.old top.new result }
    ensures room { KeepsRoom top.old top.new }
{
    let x = top.one();
    top.settle(1, predecessor(bound, x), Exc::Overflow)
}

/// The offset of an element, or RANGEFAIL.
pub fn index(top: &mut Activation, low: i64, high: i64, size: u32) -> Acted
    requires { IsReady 1 1 top.old }
    ensures does { Does 1 (Index low high size) top.old top.new result }
    ensures room { KeepsRoom top.old top.new }
{
    let x = top.one();
    top.settle(1, index_offset(low, high, size, x), Exc::Rangefail)
}

/// The number itself, or RANGEFAIL.
pub fn check(top: &mut Activation, low: i64, high: i64) -> Acted
    requires { IsReady 1 1 top.old }
    ensures does { Does 1 (Check low high) top.old top.new result }
    ensures room { KeepsRoom top.old top.new }
{
    let x = top.one();
    top.settle(1, within_bounds(low, high, x), Exc::Rangefail)
}
