// The lowest value of a mode.
ghost use Rattle.std.specs.Prelude.{◌≡◌, ◌++◌, replicate, OnOk};
ghost use Rattle.modes.specs.ModeTree.{mode_tree, field_tree, field_trees, field_nodes};
ghost use Rattle.modes.specs.Scalars.{Begins, lowest_of, lowest_of_fields};

use crate::scalars::number_of_numbers;
use crate::{Field, Mode, number_of_values};
use chill_base::{Memory, Scalars};

/// Puts the scalars of the lowest value behind those that are there: 0 for INT, INSTANCE, BOOL, CHAR and a SET, the lower
/// bound of a range, the empty powerset, blanks in a text, and part by part in arrays and structures.
#[tactic(auto, using(crate::proofs::LowestLemmas::lowest_steps))]
#[cycle(lowest)]
pub fn add_lowest(mode: &Mode, out: &mut Scalars) -> Result<(), Memory>
    ensures ok { OnOk result (out.new ≡ out.old ++ lowest_of (mode_tree mode.now)) }
    ensures keeps { Begins out.old out.new }
{
    match mode {
        Mode::Int | Mode::Bool | Mode::Char | Mode::Instance | Mode::Set { .. } => out.push(0),
        Mode::Range { low, .. } => out.push(*low),
        Mode::Powerset { member } => add_copies(number_of_numbers(member), 0, out),
        Mode::Chars { length } => add_copies(*length as u64, 32, out),
        Mode::Array { index, element, .. } => {
            for _i in 0..number_of_values(index) {
                add_lowest(element, out)?;
            }
            Ok(())
        }
        Mode::Struct { fields, .. } => add_fields(fields.as_slice(), out),
        Mode::Event { .. } | Mode::Buffer { .. } => Ok(()),
        Mode::Read { of } | Mode::Named { of, .. } => add_lowest(of, out),
    }
}

// Puts the number so many times behind those that are there.
fn add_copies(count: u64, number: i64, out: &mut Scalars) -> Result<(), Memory>
    ensures ok { OnOk result (out.new ≡ out.old ++ replicate count number) }
    ensures keeps { Begins out.old out.new }
{
    for _i in 0..count {
        out.push(number)?;
    }
    Ok(())
}

// The lowest values of the fields.
#[cycle(lowest)]
fn add_fields(fields: &[Field], out: &mut Scalars) -> Result<(), Memory>
    ensures ok { OnOk result (out.new ≡ out.old ++ lowest_of_fields (field_nodes (field_trees fields.now))) }
    ensures keeps { Begins out.old out.new }
{
    for field in fields {
        add_field(field, out)?;
    }
    Ok(())
}

// The lowest value of the field.
#[tactic(auto, using(crate::proofs::ModeViews::mode_built))]
#[cycle(lowest)]
fn add_field(field: &Field, out: &mut Scalars) -> Result<(), Memory>
    ensures ok { OnOk result (out.new ≡ out.old ++ lowest_of (field_tree field.now).mode) }
    ensures keeps { Begins out.old out.new }
{
    add_lowest(&field.mode, out)
}
