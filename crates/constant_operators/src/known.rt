// What is known of an expression.
ghost use Rattle.std.specs.Prelude.{◌≡◌, ◌&&◌, not, int_le, true, false, Option, Some, None, slice_get, option_map, option_and_then};
ghost use Rattle.modes.specs.ModeTree.{ClassTree, mode_tree, class_tree, nothing};
ghost use Rattle.modes.specs.Bounds.{bounds_of, values_of};
ghost use Rattle.checks_model.specs.ValueTrees.{ValueTree};
ghost use Rattle.checks_model.specs.Told.{holds_of};
ghost use Rattle.checks_model.specs.Alike.{goes_with};
ghost use Rattle.checks_model.specs.ConstantRules.{is_outside};
ghost use Rattle.constant_operators.specs.Known.{Holds, IsVarying, IsTold, IsKnown};

use checks_model::tests_law;
use chill_base::Scalars;
use class_operators::goes;
use modes::{Bounds, Class, Mode, bounds, number_of_values};

/// What is known of an expression of the phase of modes and constants: its class and, where it is a constant, its value.
/// Each is none where there is none, or where something that the expression uses is broken.
pub struct Known {
    pub class: Option<Class>,
    pub value: Option<Scalars>,
    /// Whether it has the form of a constant.
    pub is_constant: bool,
    /// Whether nothing is told in it or at it.
    pub is_clean: bool,
}

// Dropped by hand, so that whoever drops one makes one call.
impl Drop for Known {
    fn drop(self) {
        let Known {
            class,
            value,
            is_constant: _,
            is_clean: _,
        } = self;
        drop(class);
        drop(value);
    }
}

impl Known {
    /// What isn't constant, of a class.
    pub fn of_class(class: Class) -> Known
        ensures { IsVarying (Some (class_tree class)) true result }
    {
        Known {
            class: Some(class),
            value: None,
            is_constant: false,
            is_clean: true,
        }
    }

    /// What doesn't have the form of a constant, and isn't asked for its class.
    pub fn varying(is_clean: bool) -> Known
        ensures { IsVarying None is_clean result }
    {
        Known {
            class: None,
            value: None,
            is_constant: false,
            is_clean,
        }
    }

    /// That at which or in which something is told.
    pub fn told(is_constant: bool) -> Known
        ensures { IsTold is_constant result }
    {
        Known {
            class: None,
            value: None,
            is_constant,
            is_clean: false,
        }
    }

    /// What has the form of a constant, and uses what isn't known.
    pub fn unknown_constant() -> Known
        ensures { Holds None None result }
    {
        Known {
            class: None,
            value: None,
            is_constant: true,
            is_clean: true,
        }
    }

    /// That of which nothing is known: a rule is broken at it or in it, or what it uses isn't known.
    pub fn unknown() -> Known
        ensures { IsVarying None true result }
    {
        Known {
            class: None,
            value: None,
            is_constant: false,
            is_clean: true,
        }
    }

    /// What gives no value.
    pub fn no_value() -> Known
        ensures { IsVarying (Some nothing) true result }
    {
        Known::of_class(Class::Nothing)
    }

    /// A constant of a class, whose value isn't known.
    pub fn constant_of_class(class: Class) -> Known
        ensures { Holds (Some (class_tree class)) None result }
    {
        Known {
            class: Some(class),
            value: None,
            is_constant: true,
            is_clean: true,
        }
    }

    /// A constant.
    pub fn constant(class: Class, value: Scalars) -> Known
        ensures { Holds (Some (class_tree class)) (Some value) result }
    {
        Known {
            class: Some(class),
            value: Some(value),
            is_constant: true,
            is_clean: true,
        }
    }

    /// Its class and its value.
    pub fn into_parts(self) -> (Option<Class>, Option<Scalars>)
        ensures { (result.0 ≡ self.class) × (result.1 ≡ self.value) }
    {
        let Known {
            class,
            value,
            is_constant: _,
            is_clean: _,
        } = self;
        (class, value)
    }

    /// The value of a constant of a discrete mode.
    pub fn number(&self) -> Option<i64>
        ensures { result ≡ option_and_then (λ flat. slice_get flat 0) self.now.value }
    {
        match &self.value {
            None => None,
            Some(value) => value.as_slice().first().copied(),
        }
    }

    /// Whether its class is there and doesn't go with a mode.
    pub fn goes_not_with(&self, mode: &Mode) -> bool
        ensures { result ≡ holds_of (λ c. not (goes_with c (mode_tree mode.now))) (option_map class_tree self.now.class) }
    {
        match &self.class {
            None => false,
            Some(class) => !goes(class, mode),
        }
    }

    /// Whether its value is there and lies outside a discrete mode.
    #[tactic(auto, using(crate::proofs::Outside::outside, crate::proofs::Outside::no_number, crate::proofs::Outside::no_bounds))]
    pub fn lies_outside(&self, mode: &Mode) -> bool
        ensures { (c : Option ClassTree) (v : Option ValueTree) → IsKnown c v self.now → holds_of (λ c. not (goes_with c (mode_tree mode.now))) c ≡ false →
            result ≡ holds_of (is_outside (bounds_of (mode_tree mode.now))) v }
    {
        tests_law();
        let Some(number) = self.number() else {
            return false;
        };
        let Some(bounds) = bounds(mode) else {
            return false;
        };
        !is_within(number, bounds)
    }
}

// Whether a number lies within bounds.
fn is_within(number: i64, bounds: Bounds) -> bool
    ensures { result ≡ (int_le bounds.low number && int_le number bounds.high) }
{
    bounds.low <= number && number <= bounds.high
}

/// How many members a powerset of a mode's values may have.
pub fn member_count(member: &Mode) -> u64
    ensures { result ≡ values_of (mode_tree member.now) }
{
    number_of_values(member)
}
