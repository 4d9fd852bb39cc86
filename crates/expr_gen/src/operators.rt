// Operators and routines: what stands between and behind their operands.
#![tactic(auto, using(crate::proofs::Appending::keeping))]

ghost use Rattle.std.specs.Prelude.{◌≡◌, ℕ, [], ◌∷◌, length, pos, OnOk, ◌+ℤ◌};
ghost use Rattle.code_types.specs.declared.instr.Instr.TheVariants as code;
ghost use Rattle.checked_program.specs.declared.expr.Binary.TheVariants as binaries;
ghost use Rattle.code_scheme.specs.Pieces.{capped, capped_number, between_code, between_size, behind_code, behind_size, prefix_code, routine_code, member_code, offset_code, member_or_none, swap_code, properly_code, bounds_to_test};
ghost use Rattle.expr_gen.specs.Putting.{Appends, Keeps};
ghost use Rattle.expr_gen.specs.Puts.{PutsAll, PutsSome, PutsBetween, PutsOffset, PutsMember, PutsIsBelow, PutsNoneAbove, PutsUnlessInside, PutsDiffer, PutsBehind};

use crate::bounds::bounds_to_test;
use crate::building::{Draft, uncapped};
use crate::refusal::PartRefusal;
use checked_program::{Binary, Prefix, Routine};
use code_types::Instr;
use modes::Bounds;

/// What stands between two operands, of which the first one lies in its own bounds and the second one's code is so long.
pub fn put_between(
    operator: Binary,
    own: Option<Bounds>,
    second: u32,
    draft: &mut Draft,
) -> Result<(), PartRefusal>
    ensures puts { OnOk result (PutsBetween operator own second draft.old draft.new) }
    ensures keeps { Keeps draft.old.code draft.new.code }
{
    match operator {
        Binary::AndIf => put_and_if(second, draft),
        Binary::OrIf => put_or_if(second, draft),
        Binary::Member(bounds) => put_offset_in(bounds, own, draft),
        _ => Ok(()),
    }
}

// Over the second operand where the first is FALSE.
fn put_and_if(second: u32, draft: &mut Draft) -> Result<(), PartRefusal>
    ensures puts { OnOk result (PutsBetween binaries.AndIf None second draft.old draft.new) }
    ensures keeps { Keeps draft.old.code draft.new.code }
{
    let behind = draft.target_behind(second.saturating_add(3))?;
    draft.put(Instr::Copy(1))?;
    draft.put(Instr::Unless(behind))?;
    draft.put(Instr::Pop(1))
}

// Over the second operand where the first is TRUE.
fn put_or_if(second: u32, draft: &mut Draft) -> Result<(), PartRefusal>
    ensures puts { OnOk result (PutsBetween binaries.OrIf None second draft.old draft.new) }
    ensures keeps { Keeps draft.old.code draft.new.code }
{
    let behind = draft.target_behind(second.saturating_add(4))?;
    let on = draft.target_behind(3)?;
    draft.put(Instr::Copy(1))?;
    draft.put(Instr::Unless(on))?;
    draft.put(Instr::Jump(behind))?;
    draft.put(Instr::Pop(1))
}

// The offset of a member that lies in its own bounds.
fn put_offset_in(bounds: Bounds, own: Option<Bounds>, draft: &mut Draft) -> Result<(), PartRefusal>
    ensures puts { OnOk result (PutsOffset bounds own draft.old draft.new) }
    ensures keeps { Keeps draft.old.code draft.new.code }
{
    put_some_member(bounds_to_test(Some(bounds), own), draft)?;
    put_offset_from(bounds.low, draft)
}

// The number on top, or one without an offset, where there are bounds to test it against.
fn put_some_member(bounds: Option<Bounds>, draft: &mut Draft) -> Result<(), PartRefusal>
    ensures puts { OnOk result (PutsMember bounds draft.old draft.new) }
    ensures keeps { Keeps draft.old.code draft.new.code }
{
    match bounds {
        Some(bounds) => put_member_or_none(bounds, draft),
        None => Ok(()),
    }
}

// The number on top, or 32 above the least member for one outside the bounds: no powerset has that offset. It compares
// before the offset is found, since a difference may lie outside INT.
fn put_member_or_none(bounds: Bounds, draft: &mut Draft) -> Result<(), PartRefusal>
    ensures puts { OnOk result (PutsMember (Some bounds) draft.old draft.new) }
    ensures keeps { Keeps draft.old.code draft.new.code }
{
    let inside = draft.target_behind(12)?;
    let above = plus(bounds.high, 1);
    let none = plus(bounds.low, 32);
    put_is_below(bounds.low, draft)?;
    put_is_none_above(above, draft)?;
    put_unless_inside(inside, none, draft)
}

// Whether the number on top is less than this one.
fn put_is_below(low: i64, draft: &mut Draft) -> Result<(), PartRefusal>
    ensures puts { OnOk result (PutsIsBelow low draft.old draft.new) }
    ensures keeps { Keeps draft.old.code draft.new.code }
{
    draft.put(Instr::Copy(1))?;
    draft.put(Instr::Push(low))?;
    draft.put(Instr::Less(1))
}

// Whether the number below the Boolean on top isn't less than this one.
fn put_is_none_above(above: i64, draft: &mut Draft) -> Result<(), PartRefusal>
    ensures puts { OnOk result (PutsNoneAbove above draft.old draft.new) }
    ensures keeps { Keeps draft.old.code draft.new.code }
{
    draft.put(Instr::Copy(2))?;
    draft.put(Instr::Pop(1))?;
    draft.put(Instr::Push(above))?;
    draft.put(Instr::Less(1))?;
    draft.put(Instr::Not)
}

// Where one of two Booleans is TRUE, another number in place of the one below them.
fn put_unless_inside(inside: u32, none: i64, draft: &mut Draft) -> Result<(), PartRefusal>
    ensures puts { OnOk result (PutsUnlessInside inside none draft.old draft.new) }
    ensures keeps { Keeps draft.old.code draft.new.code }
{
    draft.put(Instr::Or)?;
    draft.put(Instr::Unless(inside))?;
    draft.put(Instr::Pop(1))?;
    draft.put(Instr::Push(none))
}

// The sum of a bound and a number, which fits where the bounds are those of members.
fn plus(bound: i64, number: u32) -> i64
    ensures { result ≡ capped_number (bound +ℤ pos number) }
{
    bound.saturating_add(i64::from(number))
}

// The offset of the number on top from the least member.
fn put_offset_from(low: i64, draft: &mut Draft) -> Result<(), PartRefusal>
    ensures puts { OnOk result (PutsAll (offset_code low) draft.old draft.new) }
    ensures keeps { Keeps draft.old.code draft.new.code }
{
    if low == 0 {
        return Ok(());
    }
    draft.put(Instr::Push(low))?;
    draft.put(Instr::Sub)
}

/// How many instructions stand between two operands, of which the first one lies in its own bounds.
pub fn size_between(operator: Binary, own: Option<Bounds>) -> u32
    ensures { result ≡ between_size operator own }
{
    match operator {
        Binary::AndIf => 3,
        Binary::OrIf => 4,
        Binary::Member(bounds) => match bounds_to_test(Some(bounds), own) {
            Some(_) => member_size(bounds.low).saturating_add(12),
            None => member_size(bounds.low),
        },
        _ => 0,
    }
}

/// How many instructions find the member of an offset, or its offset, where the least member is this number.
pub fn member_size(low: i64) -> u32
    ensures { result ≡ length (member_code low) }
{
    if low == 0 { 0 } else { 2 }
}

/// What stands behind two operands of so many scalars each.
pub fn put_behind(operator: Binary, count: u32, draft: &mut Draft) -> Result<(), PartRefusal>
    ensures puts { OnOk result (PutsBehind operator count draft.old draft.new) }
    ensures keeps { Keeps draft.old.code draft.new.code }
{
    match operator {
        Binary::Add => draft.put(Instr::Add),
        Binary::Subtract => draft.put(Instr::Sub),
        Binary::Multiply => draft.put(Instr::Mul),
        Binary::Divide => draft.put(Instr::Div),
        Binary::Modulo => draft.put(Instr::Mod),
        Binary::Remainder => draft.put(Instr::Rem),
        Binary::And => draft.put(Instr::And),
        Binary::Or => draft.put(Instr::Or),
        Binary::Xor => draft.put(Instr::Xor),
        Binary::AndIf | Binary::OrIf => Ok(()),
        Binary::Union => draft.put(Instr::BitOr),
        Binary::Intersection => draft.put(Instr::BitAnd),
        Binary::SymmetricDifference => draft.put(Instr::BitXor),
        Binary::Difference => draft.put(Instr::BitMinus),
        Binary::Member(_) => draft.put(Instr::Has),
        Binary::Equal => draft.put(Instr::Same(count)),
        Binary::NotEqual => put_not_same(count, draft),
        Binary::Less => draft.put(Instr::Less(count)),
        Binary::GreaterOrEqual => put_not_less(count, draft),
        Binary::Greater => put_greater(count, draft),
        Binary::LessOrEqual => put_not_greater(count, draft),
        Binary::Included => draft.put(Instr::Within),
        Binary::ProperlyIncluded => put_properly_included(draft),
        Binary::Includes => put_includes(draft),
        Binary::ProperlyIncludes => put_properly_includes(draft),
    }
}

// Whether two values differ.
fn put_not_same(count: u32, draft: &mut Draft) -> Result<(), PartRefusal>
    ensures puts { OnOk result (PutsBehind binaries.NotEqual count draft.old draft.new) }
    ensures keeps { Keeps draft.old.code draft.new.code }
{
    draft.put(Instr::Same(count))?;
    draft.put(Instr::Not)
}

// Whether the lower value doesn't come before the upper.
fn put_not_less(count: u32, draft: &mut Draft) -> Result<(), PartRefusal>
    ensures puts { OnOk result (PutsBehind binaries.GreaterOrEqual count draft.old draft.new) }
    ensures keeps { Keeps draft.old.code draft.new.code }
{
    draft.put(Instr::Less(count))?;
    draft.put(Instr::Not)
}

// Whether the upper value comes before the lower.
fn put_greater(count: u32, draft: &mut Draft) -> Result<(), PartRefusal>
    ensures puts { OnOk result (PutsBehind binaries.Greater count draft.old draft.new) }
    ensures keeps { Keeps draft.old.code draft.new.code }
{
    put_swap(count, draft)?;
    draft.put(Instr::Less(count))
}

// Whether the upper value doesn't come before the lower.
fn put_not_greater(count: u32, draft: &mut Draft) -> Result<(), PartRefusal>
    ensures puts { OnOk result (PutsBehind binaries.LessOrEqual count draft.old draft.new) }
    ensures keeps { Keeps draft.old.code draft.new.code }
{
    put_greater(count, draft)?;
    draft.put(Instr::Not)
}

// Whether the upper powerset is included in the lower.
fn put_includes(draft: &mut Draft) -> Result<(), PartRefusal>
    ensures puts { OnOk result (PutsBehind binaries.Includes 0 draft.old draft.new) }
    ensures keeps { Keeps draft.old.code draft.new.code }
{
    put_swap(1, draft)?;
    draft.put(Instr::Within)
}

// Whether the upper powerset is included in the lower and differs from it.
fn put_properly_includes(draft: &mut Draft) -> Result<(), PartRefusal>
    ensures puts { OnOk result (PutsBehind binaries.ProperlyIncludes 0 draft.old draft.new) }
    ensures keeps { Keeps draft.old.code draft.new.code }
{
    put_swap(1, draft)?;
    put_properly_included(draft)
}

// Two values of so many scalars change places.
fn put_swap(count: u32, draft: &mut Draft) -> Result<(), PartRefusal>
    ensures puts { OnOk result (PutsSome (swap_code count) 2 draft.old draft.new) }
    ensures keeps { Keeps draft.old.code draft.new.code }
{
    let both = uncapped(count.saturating_mul(2))?;
    let twice = uncapped(count.saturating_mul(4))?;
    draft.put(Instr::Copy(both))?;
    draft.put(Instr::Part(count, both, twice))
}

// Whether the lower powerset is included in the upper and differs from it.
fn put_properly_included(draft: &mut Draft) -> Result<(), PartRefusal>
    ensures puts { OnOk result (PutsSome properly_code 7 draft.old draft.new) }
    ensures keeps { Keeps draft.old.code draft.new.code }
{
    draft.put(Instr::Copy(2))?;
    draft.put(Instr::Within)?;
    put_differ(draft)?;
    draft.put(Instr::And)
}

// Whether two powersets below the Boolean on top differ.
fn put_differ(draft: &mut Draft) -> Result<(), PartRefusal>
    ensures puts { OnOk result (PutsDiffer draft.old draft.new) }
    ensures keeps { Keeps draft.old.code draft.new.code }
{
    draft.put(Instr::Copy(3))?;
    draft.put(Instr::Part(2, 3, 6))?;
    draft.put(Instr::Same(1))?;
    draft.put(Instr::Not)
}

/// How many instructions stand behind two operands.
pub fn size_behind(operator: Binary) -> u32
    ensures { result ≡ behind_size operator }
{
    match operator {
        Binary::AndIf | Binary::OrIf => 0,
        Binary::NotEqual | Binary::GreaterOrEqual => 2,
        Binary::Greater | Binary::Includes => 3,
        Binary::LessOrEqual => 4,
        Binary::ProperlyIncluded => 7,
        Binary::ProperlyIncludes => 9,
        _ => 1,
    }
}

/// What stands behind the operand of an operator before it.
pub fn put_prefix(operator: Prefix, draft: &mut Draft) -> Result<(), PartRefusal>
    ensures puts { OnOk result (PutsSome (prefix_code operator) 1 draft.old draft.new) }
    ensures keeps { Keeps draft.old.code draft.new.code }
{
    match operator {
        Prefix::Minus => draft.put(Instr::Neg),
        Prefix::Not => draft.put(Instr::Not),
        Prefix::Complement { members } => draft.put(Instr::BitNot(members)),
    }
}

/// What stands behind the argument of a routine.
pub fn put_routine(routine: Routine, draft: &mut Draft) -> Result<(), PartRefusal>
    ensures puts { OnOk result (PutsAll (routine_code routine) draft.old draft.new) }
    ensures keeps { Keeps draft.old.code draft.new.code }
{
    match routine {
        Routine::Number => Ok(()),
        Routine::Absolute => draft.put(Instr::Abs),
        Routine::Cardinality => draft.put(Instr::Card),
        Routine::Successor { high } => draft.put(Instr::Succ(high)),
        Routine::Predecessor { low } => draft.put(Instr::Pred(low)),
        Routine::Least { low } => {
            draft.put(Instr::Least)?;
            put_member(low, draft)
        }
        Routine::Greatest { low } => {
            draft.put(Instr::Most)?;
            put_member(low, draft)
        }
    }
}

/// The member of the offset on top, where the least one is this number.
pub fn put_member(low: i64, draft: &mut Draft) -> Result<(), PartRefusal>
    ensures puts { OnOk result (PutsAll (member_code low) draft.old draft.new) }
    ensures keeps { Keeps draft.old.code draft.new.code }
{
    if low == 0 {
        return Ok(());
    }
    draft.put(Instr::Push(low))?;
    draft.put(Instr::Add)
}

/// How many instructions stand behind the argument of a routine.
pub fn routine_size(routine: Routine) -> u32
    ensures { result ≡ length (routine_code routine) }
{
    match routine {
        Routine::Number => 0,
        Routine::Absolute | Routine::Cardinality => 1,
        Routine::Successor { .. } | Routine::Predecessor { .. } => 1,
        Routine::Least { low } => member_size(low).saturating_add(1),
        Routine::Greatest { low } => member_size(low).saturating_add(1),
    }
}
