// The root and the novelty of a mode, and whether it is READ.
ghost use Rattle.std.specs.Prelude.{◌≡◌, IfOk};
ghost use Rattle.modes.specs.ModeTree.{mode_tree, field_nodes, field_tree, field_trees};
ghost use Rattle.modes.specs.Roots.{root_of, novelty_of, read_is, holds_read, hold_read};

use crate::{Field, Mode};
use chill_base::Memory;
use std::alloc::Global;
use std::rc::Rc;

/// The root: READ, SYNMODE names and ranges are dropped, a NEWMODE name stands before the root of its mode.
#[tactic(auto, using(crate::proofs::ModeViews::mode_built))]
pub fn root(alloc: Global, mode: &Rc<Mode>) -> Result<Rc<Mode>, Memory>
    ensures { IfOk result (λ r. mode_tree r.value ≡ root_of (mode_tree mode.now.value)) }
{
    match &**mode {
        Mode::Range { parent, .. } => root(alloc, parent),
        Mode::Read { of } => root(alloc, of),
        Mode::Named {
            definition,
            novel,
            of,
        } => {
            let inner = root(alloc, of)?;
            if !*novel {
                return Ok(inner);
            }
            Ok(Rc::new(
                alloc,
                Mode::Named {
                    definition: *definition,
                    novel: true,
                    of: inner,
                },
            )?)
        }
        Mode::Int
        | Mode::Bool
        | Mode::Char
        | Mode::Instance
        | Mode::Set { .. }
        | Mode::Powerset { .. }
        | Mode::Chars { .. }
        | Mode::Array { .. }
        | Mode::Struct { .. }
        | Mode::Event { .. }
        | Mode::Buffer { .. } => Ok(mode.clone()?),
    }
}

/// The definition of the outermost NEWMODE that the mode names; READ, SYNMODE names and ranges are looked through.
#[tactic(auto, using(crate::proofs::ModeViews::mode_built))]
pub fn novelty(mode: &Mode) -> Option<u32>
    ensures { result ≡ novelty_of (mode_tree mode.now) }
{
    match mode {
        Mode::Range { parent, .. } => novelty(parent),
        Mode::Read { of } => novelty(of),
        Mode::Named {
            definition,
            novel,
            of,
        } => {
            if *novel {
                Some(*definition)
            } else {
                novelty(of)
            }
        }
        Mode::Int
        | Mode::Bool
        | Mode::Char
        | Mode::Instance
        | Mode::Set { .. }
        | Mode::Powerset { .. }
        | Mode::Chars { .. }
        | Mode::Array { .. }
        | Mode::Struct { .. }
        | Mode::Event { .. }
        | Mode::Buffer { .. } => None,
    }
}

/// Whether the mode is READ, or a name of such a mode.
#[tactic(auto, using(crate::proofs::ModeViews::mode_built))]
pub fn is_read(mode: &Mode) -> bool
    ensures { result ≡ read_is (mode_tree mode.now) }
{
    match mode {
        Mode::Read { .. } => true,
        Mode::Named { of, .. } => is_read(of),
        Mode::Int
        | Mode::Bool
        | Mode::Char
        | Mode::Instance
        | Mode::Set { .. }
        | Mode::Range { .. }
        | Mode::Powerset { .. }
        | Mode::Chars { .. }
        | Mode::Array { .. }
        | Mode::Struct { .. }
        | Mode::Event { .. }
        | Mode::Buffer { .. } => false,
    }
}

/// Whether the mode or that of an element or a field in it is READ: a location of the mode is only read.
#[tactic(auto, using(crate::proofs::ModeViews::mode_built))]
#[cycle(holding_read)]
pub fn holds_read(mode: &Mode) -> bool
    ensures { result ≡ holds_read (mode_tree mode.now) }
{
    match mode {
        Mode::Read { .. } => true,
        Mode::Named { of, .. } => holds_read(of),
        Mode::Array { element, .. } => holds_read(element),
        Mode::Struct { fields, .. } => hold_read(fields.as_slice()),
        Mode::Int
        | Mode::Bool
        | Mode::Char
        | Mode::Instance
        | Mode::Set { .. }
        | Mode::Range { .. }
        | Mode::Powerset { .. }
        | Mode::Chars { .. }
        | Mode::Event { .. }
        | Mode::Buffer { .. } => false,
    }
}

// Whether the mode of some field is READ.
#[cycle(holding_read)]
fn hold_read(fields: &[Field]) -> bool
    ensures { result ≡ hold_read (field_nodes (field_trees fields.now)) }
{
    for field in fields {
        if field_holds_read(field) {
            return true;
        }
    }
    false
}

// Whether the mode of the field is READ.
#[tactic(auto, using(crate::proofs::ModeViews::mode_built))]
#[cycle(holding_read)]
fn field_holds_read(field: &Field) -> bool
    ensures { result ≡ holds_read (field_tree field.now).mode }
{
    holds_read(&field.mode)
}
