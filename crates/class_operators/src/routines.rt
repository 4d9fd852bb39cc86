// Which predefined names are routines, how many arguments they have, and what they give.
ghost use Rattle.std.specs.Prelude.{◌≡◌};
ghost use Rattle.modes.specs.ModeTree.{class_tree};
ghost use Rattle.checks_model.specs.Alike.{class_is, is_int, is_chars};
ghost use Rattle.checks_model.specs.Operations.{is_measuring, gives_no_value, is_routine, arguments_of};
ghost use Rattle.checks_model.specs.Constants.{is_value_routine};
ghost use Rattle.class_operators.specs.Predefined.{predefined_tree, cannot_be_put};

use crate::parts::form_in;
use crate::predefined::Predefined;
use modes::{Class, Form};

/// Whether a routine measures a mode.
pub fn is_measuring(own: Predefined) -> bool
    ensures { result ≡ is_measuring (predefined_tree own) }
{
    matches!(
        own,
        Predefined::Upper | Predefined::Lower | Predefined::Size
    )
}

/// Whether a routine gives a value of its arguments alone, or of their modes.
pub fn is_value_routine(own: Predefined) -> bool
    ensures { result ≡ is_value_routine (predefined_tree own) }
{
    match own {
        Predefined::Num
        | Predefined::Succ
        | Predefined::Pred
        | Predefined::Abs
        | Predefined::Card
        | Predefined::Min
        | Predefined::Max
        | Predefined::Upper
        | Predefined::Lower
        | Predefined::Size => true,
        Predefined::Int
        | Predefined::Bool
        | Predefined::Char
        | Predefined::Instance
        | Predefined::True
        | Predefined::False
        | Predefined::Null
        | Predefined::PutInt
        | Predefined::PutText
        | Predefined::PutLine
        | Predefined::GetInt => false,
    }
}

/// Whether a predefined name is one of a routine.
pub fn is_routine(own: Predefined) -> bool
    ensures { result ≡ is_routine (predefined_tree own) }
{
    is_value_routine(own) || gives_no_value(own) || own == Predefined::GetInt
}

/// Whether a routine gives no value.
pub fn gives_no_value(own: Predefined) -> bool
    ensures { result ≡ gives_no_value (predefined_tree own) }
{
    matches!(
        own,
        Predefined::PutInt | Predefined::PutText | Predefined::PutLine
    )
}

/// How many arguments a routine has. What is no routine isn't called.
pub fn number_of_arguments(own: Predefined) -> usize
    ensures { result ≡ arguments_of (predefined_tree own) }
{
    match own {
        Predefined::PutLine | Predefined::GetInt => 0,
        Predefined::Num
        | Predefined::Succ
        | Predefined::Pred
        | Predefined::Abs
        | Predefined::Card
        | Predefined::Min
        | Predefined::Max
        | Predefined::Upper
        | Predefined::Lower
        | Predefined::Size
        | Predefined::PutInt
        | Predefined::PutText
        | Predefined::Int
        | Predefined::Bool
        | Predefined::Char
        | Predefined::Instance
        | Predefined::True
        | Predefined::False
        | Predefined::Null => 1,
    }
}

/// Whether the argument of PUT_INT or PUT_TEXT is of another class than these take: root INT and root CHARS.
pub fn cannot_be_put(own: Predefined, argument: &Class) -> bool
    ensures { result ≡ cannot_be_put own (class_tree argument.now) }
{
    match own {
        Predefined::PutInt => !matches!(form_in(argument), Some(Form::Int)),
        Predefined::PutText => !matches!(form_in(argument), Some(Form::Chars(_))),
        Predefined::Int
        | Predefined::Bool
        | Predefined::Char
        | Predefined::Instance
        | Predefined::True
        | Predefined::False
        | Predefined::Null
        | Predefined::Num
        | Predefined::Succ
        | Predefined::Pred
        | Predefined::Abs
        | Predefined::Card
        | Predefined::Min
        | Predefined::Max
        | Predefined::Upper
        | Predefined::Lower
        | Predefined::Size
        | Predefined::PutLine
        | Predefined::GetInt => false,
    }
}
