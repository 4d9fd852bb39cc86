// The mode and the form of a class, and the fields of a mode.
ghost use Rattle.std.specs.Prelude.{◌≡◌, option_map};
ghost use Rattle.std.specs.Str.{bytes_eq};
ghost use Rattle.modes.specs.ModeTree.{mode_tree, class_tree, field_nodes, field_tree, field_trees};
ghost use Rattle.modes.specs.Form.{form_of, form_tree};
ghost use Rattle.checks_model.specs.Alike.{mode_in};
ghost use Rattle.checks_model.specs.Operations.{form_in, field_in, field_of_form};

use modes::{Class, Field, Form, Mode, form_of};
use std::rc::Rc;

/// The mode of a class, where it has one.
pub fn mode_in(class: &Class) -> Option<&Mode>
    ensures { option_map (λ m. mode_tree m.now) result ≡ mode_in (class_tree class.now) }
{
    match class {
        Class::Value(mode) => Some(&**mode),
        Class::Derived(mode) => Some(&**mode),
        Class::Null | Class::Nothing => None,
    }
}

/// What the mode of a class is, where it has one.
pub fn form_in(class: &Class) -> Option<Form<'_>>
    ensures { option_map form_tree result ≡ form_in (class_tree class.now) }
{
    match class {
        Class::Value(mode) => Some(form_of(mode)),
        Class::Derived(mode) => Some(form_of(mode)),
        Class::Null | Class::Nothing => None,
    }
}

// Whether a field has a name.
#[tactic(auto, using(modes::proofs::ModeViews::mode_built))]
fn has_name(field: &Field, name: &[u8]) -> bool
    ensures { result ≡ bytes_eq (field_tree field.now).name name.now }
{
    field.name.as_slice() == name
}

// The mode of a field.
#[tactic(auto, using(modes::proofs::ModeViews::mode_built))]
fn mode_of(field: &Field) -> &Rc<Mode>
    ensures { mode_tree result.now.value ≡ (field_tree field.now).mode }
{
    &field.mode
}

// The mode of the field of that name.
fn field_named<'k>(fields: &'k [Field], name: &[u8]) -> Option<&'k Rc<Mode>>
    ensures { option_map (λ m. mode_tree m.now.value) result ≡ field_in name.now (field_nodes (field_trees fields.now)) }
{
    for field in fields {
        if has_name(field, name) {
            return Some(mode_of(field));
        }
    }
    None
}

/// The mode of the field of that name of a structure.
pub fn field_in<'k>(of: &'k Mode, name: &[u8]) -> Option<&'k Rc<Mode>>
    ensures { option_map (λ m. mode_tree m.now.value) result ≡ field_of_form name.now (form_of (mode_tree of.now)) }
{
    match form_of(of) {
        Form::Struct { fields, .. } => field_named(fields.as_slice(), name),
        Form::Int
        | Form::Bool
        | Form::Char
        | Form::Instance
        | Form::Set { .. }
        | Form::Powerset(_)
        | Form::Chars(_)
        | Form::Array { .. }
        | Form::Meeting => None,
    }
}
