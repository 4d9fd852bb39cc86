// The paths of the scalars of a mode.
ghost use Rattle.std.specs.Prelude.{◌≡◌, ◌+◌, ◌++◌, ◌∷◌, [], replicate, OnOk, IfOk};
ghost use Rattle.modes.specs.ModeTree.{mode_tree, field_tree, field_trees, field_nodes};
ghost use Rattle.modes.specs.Bounds.{values_of};
ghost use Rattle.modes.specs.Scalars.{numbers_of};
ghost use Rattle.list_texts.specs.Paths as paths;

use chill_base::{Item, List, Memory, Text};
use modes::{Field, Mode, bounds, number_of_values};
use std::alloc::Global;

/// Puts the path of each scalar of the mode behind those that are there: behind the path of what holds it `.field` or
/// `(index)`. The numbers of a powerset have one path.
#[tactic(auto, using(crate::proofs::PathLemmas::path_steps))]
#[cycle(paths)]
pub(crate) fn push_paths(
    alloc: Global,
    mode: &Mode,
    path: &Text,
    out: &mut List<Text>,
) -> Result<(), Memory>
    ensures { OnOk result (out.new ≡ out.old ++ paths.paths_of (mode_tree mode.now) path.now) }
{
    match mode {
        Mode::Int
        | Mode::Bool
        | Mode::Char
        | Mode::Instance
        | Mode::Set { .. }
        | Mode::Range { .. } => out.push(path.copy()?),
        Mode::Powerset { member } => {
            push_copies(number_of_numbers(number_of_values(member)), path, out)
        }
        Mode::Chars { length } => push_characters(alloc, *length, path, out),
        Mode::Array { index, element, .. } => {
            let low = least_of(index);
            for k in 0..number_of_values(index) {
                let inner = element_path(alloc, path, low as i128 + k as i128)?;
                push_paths(alloc, element, &inner, out)?;
            }
            Ok(())
        }
        Mode::Struct { fields, .. } => push_field_paths(alloc, fields.as_slice(), path, out),
        Mode::Event { .. } | Mode::Buffer { .. } => Ok(()),
        Mode::Read { of } | Mode::Named { of, .. } => push_paths(alloc, of, path, out),
    }
}

#[cycle(paths)]
fn push_field_paths(
    alloc: Global,
    fields: &[Field],
    path: &Text,
    out: &mut List<Text>,
) -> Result<(), Memory>
    ensures { OnOk result (out.new ≡ out.old ++ paths.paths_of_fields (field_nodes (field_trees fields.now)) path.now) }
{
    for field in fields {
        push_paths_of_field(alloc, field, path, out)?;
    }
    Ok(())
}

#[tactic(auto, using(modes::proofs::ModeViews::mode_built))]
#[cycle(paths)]
fn push_paths_of_field(
    alloc: Global,
    field: &Field,
    path: &Text,
    out: &mut List<Text>,
) -> Result<(), Memory>
    ensures { OnOk result (out.new ≡ out.old ++ paths.paths_of (field_tree field.now).mode (paths.field_path path.now (field_tree field.now).name)) }
{
    let inner = field_path(alloc, path, field.name.as_slice())?;
    push_paths(alloc, &field.mode, &inner, out)
}

// The path of a field.
fn field_path(alloc: Global, path: &Text, name: &[u8]) -> Result<Text, Memory>
    ensures { IfOk result (λ made. made ≡ paths.field_path path.now name.now) }
{
    let mut made = Vec::from_slice(alloc, path.as_slice())?;
    made.push(b'.')?;
    made.extend_from_slice(name)?;
    Ok(Text::from_vec(made))
}

// The path of an element.
fn element_path(alloc: Global, path: &Text, index: i128) -> Result<Text, Memory>
    ensures { IfOk result (λ made. made ≡ paths.element_path path.now index) }
{
    let mut made = Vec::from_slice(alloc, path.as_slice())?;
    let index = format!(in alloc; "({index})")?;
    made.extend_from_slice(index.as_bytes())?;
    Ok(Text::from_vec(made))
}

// The paths of so many characters.
fn push_characters(
    alloc: Global,
    length: u32,
    path: &Text,
    out: &mut List<Text>,
) -> Result<(), Memory>
    ensures { OnOk result (out.new ≡ out.old ++ paths.characters length path.now) }
{
    for k in 0..length {
        out.push(element_path(alloc, path, k as i128)?)?;
    }
    Ok(())
}

// The path so many times.
fn push_copies(count: u64, path: &Text, out: &mut List<Text>) -> Result<(), Memory>
    ensures { OnOk result (out.new ≡ out.old ++ replicate count path.now) }
{
    for _k in 0..count {
        out.push(path.copy()?)?;
    }
    Ok(())
}

// How many numbers tell so many members of a powerset.
fn number_of_numbers(members: u64) -> u64
    ensures { result ≡ numbers_of members }
{
    members.div_ceil(32)
}

// The least index of an array.
fn least_of(index: &Mode) -> i64
    ensures { result ≡ paths.least_of (mode_tree index.now) }
{
    match bounds(index) {
        Some(bounds) => bounds.low,
        None => 0,
    }
}
