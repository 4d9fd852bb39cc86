// The instructions of powersets.
ghost use Rattle.code_types.specs.declared.instr.Instr.TheVariants.{BitAnd, BitMinus, BitNot, BitOr, BitXor, Card, Has, Least, Most, Span, Within};
ghost use Rattle.machine_frames.specs.Frames.{Does, IsReady, KeepsRoom};

use crate::activation::{Acted, Activation};
use crate::numbers::{
    all_members, common_members, count_members, greatest_member, has_offset_in, includes,
    least_member, members_without, missing_members, offsets_between, single_members, truth_from,
};
use kernel_base::Exc;

/// The members that a powerset of so many hasn't.
pub fn bit_not(top: &mut Activation, count: u32) -> Acted
    requires { IsReady 1 1 top.old }
    ensures does { Does 1 (BitNot count) top.old top.new result }
    ensures room { KeepsRoom top.old top.new }
{
    let x = top.one();
    top.replace(1, missing_members(count, x));
    Acted::GoesOn
}

/// The members of both.
pub fn bit_and(top: &mut Activation) -> Acted
    requires { IsReady 2 1 top.old }
    ensures does { Does 2 BitAnd top.old top.new result }
    ensures room { KeepsRoom top.old top.new }
{
    let (x, y) = top.two();
    top.replace(2, common_members(x, y));
    Acted::GoesOn
}

/// The members of one or both.
pub fn bit_or(top: &mut Activation) -> Acted
    requires { IsReady 2 1 top.old }
    ensures does { Does 2 BitOr top.old top.new result }
    ensures room { KeepsRoom top.old top.new }
{
    let (x, y) = top.two();
    top.replace(2, all_members(x, y));
    Acted::GoesOn
}

/// The members of one of the two alone.
pub fn bit_xor(top: &mut Activation) -> Acted
    requires { IsReady 2 1 top.old }
    ensures does { Does 2 BitXor top.old top.new result }
    ensures room { KeepsRoom top.old top.new }
{
    let (x, y) = top.two();
    top.replace(2, single_members(x, y));
    Acted::GoesOn
}

/// The members of the lower that the upper hasn't.
pub fn bit_minus(top: &mut Activation) -> Acted
    requires { IsReady 2 1 top.old }
    ensures does { Does 2 BitMinus top.old top.new result }
    ensures room { KeepsRoom top.old top.new }
{
    let (x, y) = top.two();
    top.replace(2, members_without(x, y));
    Acted::GoesOn
}

/// Whether the lower powerset is included in the upper.
pub fn within(top: &mut Activation) -> Acted
    requires { IsReady 2 1 top.old }
    ensures does { Does 2 Within top.old top.new result }
    ensures room { KeepsRoom top.old top.new }
{
    let (x, y) = top.two();
    top.replace(2, truth_from(includes(x, y)));
    Acted::GoesOn
}

/// Whether the lower number is the offset of a member of the upper powerset.
pub fn has(top: &mut Activation) -> Acted
    requires { IsReady 2 1 top.old }
    ensures does { Does 2 Has top.old top.new result }
    ensures room { KeepsRoom top.old top.new }
{
    let (x, y) = top.two();
    top.replace(2, truth_from(has_offset_in(x, y)));
    Acted::GoesOn
}

/// The number of members.
pub fn card(top: &mut Activation) -> Acted
    requires { IsReady 1 1 top.old }
    ensures does { Does 1 Card top.old top.new result }
    ensures room { KeepsRoom top.old top.new }
{
    let x = top.one();
    top.replace(1, count_members(x));
    Acted::GoesOn
}

/// The least member's offset, or EMPTY.
pub fn least(top: &mut Activation) -> Acted
    requires { IsReady 1 1 top.old }
    ensures does { Does 1 Least top.old top.new result }
    ensures room { KeepsRoom top.old top.new }
{
    let x = top.one();
    match least_member(x) {
        Some(offset) => {
            top.replace(1, offset as i64);
            Acted::GoesOn
        }
        None => Acted::Raises(Exc::Empty),
    }
}

/// The greatest member's offset, or EMPTY.
pub fn most(top: &mut Activation) -> Acted
    requires { IsReady 1 1 top.old }
    ensures does { Does 1 Most top.old top.new result }
    ensures room { KeepsRoom top.old top.new }
{
    let x = top.one();
    match greatest_member(x) {
        Some(offset) => {
            top.replace(1, offset as i64);
            Acted::GoesOn
        }
        None => Acted::Raises(Exc::Empty),
    }
}

/// The powerset of the offsets from the lower number to the upper.
pub fn span(top: &mut Activation) -> Acted
    requires { IsReady 2 1 top.old }
    ensures does { Does 2 Span top.old top.new result }
    ensures room { KeepsRoom top.old top.new }
{
    let (x, y) = top.two();
    top.replace(2, offsets_between(x, y));
    Acted::GoesOn
}
