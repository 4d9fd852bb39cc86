// What a mode is.
ghost use Rattle.std.specs.Prelude.{◌≡◌};
ghost use Rattle.modes.specs.ModeTree.{mode_tree};
ghost use Rattle.modes.specs.Form.{form_of, form_tree};

use crate::{Fields, Mode, Spread};
use std::rc::Rc;

/// What a mode is, with names, READ and ranges looked through.
#[derive(Clone, Copy)]
pub enum Form<'a> {
    Int,
    Bool,
    Char,
    Instance,
    Set {
        definition: u32,
        count: u32,
    },
    /// Sets of values of the mode.
    Powerset(&'a Rc<Mode>),
    /// Texts of so many characters.
    Chars(u32),
    Array {
        index: &'a Rc<Mode>,
        element: &'a Rc<Mode>,
        how: Spread,
    },
    Struct {
        fields: &'a Fields,
        packed: bool,
    },
    /// An event or a buffer, where processes meet.
    Meeting,
}

/// What the mode is, with names, READ and ranges looked through.
#[tactic(auto, using(crate::proofs::ModeViews::mode_built))]
pub fn form_of(mode: &Mode) -> Form<'_>
    ensures { form_tree result ≡ form_of (mode_tree mode.now) }
{
    match mode {
        Mode::Int => Form::Int,
        Mode::Bool => Form::Bool,
        Mode::Char => Form::Char,
        Mode::Instance => Form::Instance,
        Mode::Set { definition, count } => Form::Set {
            definition: *definition,
            count: *count,
        },
        Mode::Powerset { member } => Form::Powerset(member),
        Mode::Chars { length } => Form::Chars(*length),
        Mode::Array {
            index,
            element,
            how,
        } => Form::Array {
            index,
            element,
            how: *how,
        },
        Mode::Struct { fields, packed } => Form::Struct {
            fields,
            packed: *packed,
        },
        Mode::Event { .. } | Mode::Buffer { .. } => Form::Meeting,
        Mode::Range { parent, .. } => form_of(parent),
        Mode::Read { of } | Mode::Named { of, .. } => form_of(of),
    }
}
