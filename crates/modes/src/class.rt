// Which classes go with which modes, and with each other (Z.200, chapter on modes and classes).
ghost use Rattle.std.specs.Prelude.{◌≡◌, ◌↔◌, IsTrue};
ghost use Rattle.modes.specs.ModeTree.{mode_tree, class_tree};
ghost use Rattle.modes.specs.Form.{form_of, of_instance};
ghost use Rattle.modes.specs.Classes.{GoesWith, Compatible};

use crate::{Class, Form, Mode, form_of, similar, v_equivalent};

// Whether the mode's root is INSTANCE.
#[tactic(auto, using(crate::proofs::ClassLemmas::instances))]
fn is_instance(mode: &Mode) -> bool
    ensures { IsTrue result ↔ (form_of (mode_tree mode.now) ≡ of_instance) }
{
    matches!(form_of(mode), Form::Instance)
}

/// Whether a value of the class goes with the mode: one of a mode where the modes are v-equivalent, a derived one where they
/// are similar, and NULL with INSTANCE.
pub fn goes_with(class: &Class, mode: &Mode) -> bool
    ensures { IsTrue result ↔ GoesWith (class_tree class.now) (mode_tree mode.now) }
{
    match class {
        Class::Value(own) => v_equivalent(own, mode),
        Class::Derived(own) => similar(own, mode),
        Class::Null => is_instance(mode),
        Class::Nothing => false,
    }
}

/// Whether the classes are compatible: both of modes that are v-equivalent, or similar where one is derived; NULL with NULL
/// and with INSTANCE.
pub fn compatible(a: &Class, b: &Class) -> bool
    ensures { IsTrue result ↔ Compatible (class_tree a.now) (class_tree b.now) }
{
    match (a, b) {
        (Class::Value(m), Class::Value(n)) => v_equivalent(m, n),
        (Class::Value(m), Class::Derived(n))
        | (Class::Derived(m), Class::Value(n))
        | (Class::Derived(m), Class::Derived(n)) => similar(m, n),
        (Class::Value(m), Class::Null) | (Class::Derived(m), Class::Null) => is_instance(m),
        (Class::Null, Class::Value(n)) | (Class::Null, Class::Derived(n)) => is_instance(n),
        (Class::Null, Class::Null) => true,
        (Class::Nothing, Class::Value(_))
        | (Class::Nothing, Class::Derived(_))
        | (Class::Nothing, Class::Null)
        | (Class::Nothing, Class::Nothing)
        | (Class::Value(_), Class::Nothing)
        | (Class::Derived(_), Class::Nothing)
        | (Class::Null, Class::Nothing) => false,
    }
}
