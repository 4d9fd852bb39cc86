// What the values of a class are: powersets, values with parts, or numbers.
ghost use Rattle.std.specs.Prelude.{◌≡◌, option_map};
ghost use Rattle.modes.specs.ModeTree.{mode_tree, class_tree};
ghost use Rattle.checks_model.specs.Operations.{form_in};
ghost use Rattle.constant_values.specs.Operands.{member_mode, have_parts, is_in_operator};

use chill_tree::tree::Operator;
use class_operators::form_in;
use modes::{Class, Form, Mode};

/// The mode of the members of a class of powersets.
pub fn member_in(class: &Class) -> Option<&Mode>
    ensures { option_map (λ m. mode_tree m.now) result ≡ member_mode (form_in (class_tree class.now)) }
{
    match form_in(class) {
        Some(Form::Powerset(member)) => Some(&**member),
        Some(Form::Int)
        | Some(Form::Bool)
        | Some(Form::Char)
        | Some(Form::Instance)
        | Some(Form::Set { .. })
        | Some(Form::Chars(_))
        | Some(Form::Array { .. })
        | Some(Form::Struct { .. })
        | Some(Form::Meeting)
        | None => None,
    }
}

/// Whether the values of a class are texts, arrays or structures, or there are none.
pub fn has_parts(class: &Class) -> bool
    ensures { result ≡ have_parts (form_in (class_tree class.now)) }
{
    matches!(
        form_in(class),
        Some(Form::Chars(_))
            | Some(Form::Array { .. })
            | Some(Form::Struct { .. })
            | Some(Form::Meeting)
    )
}

/// Whether an operator is IN.
pub fn is_membership(operator: Operator) -> bool
    ensures { result ≡ is_in_operator operator }
{
    matches!(operator, Operator::In)
}
