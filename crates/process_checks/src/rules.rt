// The rules on priorities and on locations to be set, each in one function that is given what the rule speaks of (Z.200,
// chapter on concurrent execution; the limits of priorities are our own choice).
ghost use Rattle.std.specs.Prelude.{◌≡◌, not, Option};
ghost use Rattle.modes.specs.ModeTree.{ClassTree, mode_tree};
ghost use Rattle.modes.specs.ModeTree as trees;
ghost use Rattle.modes.specs.Form as forms;
ghost use Rattle.checks_model.specs.Alike.{is_instance};
ghost use Rattle.checks_model.specs.Told.{holds_of};
ghost use Rattle.checks_model.specs.ValueTrees.{ValueTree};
ghost use Rattle.checks_model.specs.ProcessRules.{takes_instance};
ghost use Rattle.constant_operators.specs.Known.{IsKnown};
ghost use Rattle.expr_rules.specs.Views.{own_mode, located_tree};
ghost use Rattle.process_checks.specs.Waiting.{misfits_as_priority, is_outside_limits};

use checks_model::tests_law;
use constant_operators::Known;
use expr_rules::{Access, Located};
use modes::{Form, Mode, form_of};
use std::rc::Rc;

// A greater number is a higher priority.
const HIGHEST: i64 = 1_000_000;

/// Rule P6: a priority isn't one of INT, or is outside its limits.
#[tactic(auto, using(crate::proofs::Limits::limits))]
pub fn is_priority_out_of_limits(priority: &Known, int: &Mode) -> bool
    ensures { mode_tree int.now ≡ trees.int → (c : Option ClassTree) (v : Option ValueTree) → IsKnown c v priority.now → result ≡ misfits_as_priority c v }
{
    tests_law();
    priority.goes_not_with(int) || is_outside_limits(priority.number())
}

fn is_outside_limits(number: Option<i64>) -> bool
    ensures { result ≡ is_outside_limits number }
{
    match number {
        None => false,
        Some(number) => !(0 <= number && number <= HIGHEST),
    }
}

/// Rule P7: what is to be set is no location of an instance, or none that can be written.
pub fn is_no_instance_location(set: &Located) -> bool
    ensures { result ≡ not (takes_instance (located_tree set.now)) }
{
    !is_of_instances(&set.mode) || set.access != Access::Free
}

fn is_of_instances(mode: &Option<Rc<Mode>>) -> bool
    ensures { result ≡ holds_of (λ m. is_instance (forms.form_of m)) (own_mode mode.now) }
{
    match mode {
        None => false,
        Some(mode) => matches!(form_of(mode), Form::Instance),
    }
}
