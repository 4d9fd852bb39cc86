// The modes of counters: of what a loop goes through.
ghost use Rattle.std.specs.Prelude.{◌≡◌, ℕ, List as Numbers, IfOk, OnOk, length, option_and_then, set};
ghost use Rattle.chill_tree.specs.ItemTree.{ProgramTree};
ghost use Rattle.chill_tree.specs.SimpleTree.{control_tree};
ghost use Rattle.modes.specs.ModeTree.{class_tree};
ghost use Rattle.checks_model.specs.Alike.{are_compatible};
ghost use Rattle.checks_model.specs.Operations as table;
ghost use Rattle.checks_model.specs.ActionRules.{counter_mode, counter_of_both, member_in};
ghost use Rattle.checks_model.specs.Table.{of_mode_alone, IsGroundOf, IsStatementGroundOf};
ghost use Rattle.checks_model.specs.Diagnoses.{HasNames};
ghost use Rattle.constant_operators.specs.Grounds.{ground_of, entry_tree, HasGround};
ghost use Rattle.order_laws.specs.Counted.{counted, counted_at};
ghost use Rattle.expr_rules.specs.Views.{own_mode, own_class};
ghost use Rattle.expr_rules.specs.Counted.{IsSet, IsCounted};

use crate::receiving::Receiver;
use crate::surroundings::Walk;
use checks_model::tests_law;
use chill_base::{List, Memory};
use chill_tree::tree::Control;
use class_operators::{form_in, is_of_discrete, their_class};
use constant_operators::{Entry, Evaluation};
use definition_origins::{Origin, Told};
use modes::{Class, Form, Mode, compatible};
use std::alloc::Global;
use std::rc::Rc;

/// Adds the modes of counters to what is known of a program that breaks no rule on modes and constants. They are values'
/// modes, so the phase of modes has none of them. An outer loop comes before those in it, whose bounds may use its counter.
/// It answers `Memory` also where no `u32` numbers all definitions.
pub fn add_local_modes(evaluation: &mut Evaluation<'_>) -> Result<(), Memory>
    ensures counted { HasGround evaluation.old → OnOk result (IsCounted evaluation.old evaluation.new (counted (ground_of evaluation.old) 0 (length evaluation.old.origins))) }
    ensures ground { (text : Numbers ℕ) (t : ProgramTree) → HasNames text t → HasGround evaluation.old → IsGroundOf t (ground_of evaluation.old) → OnOk result (IsStatementGroundOf t (ground_of evaluation.new)) }
{
    add_modes(evaluation)
}

// Adds the modes of all counters, one after the other.
fn add_modes(evaluation: &mut Evaluation<'_>) -> Result<(), Memory>
    ensures { HasGround evaluation.old → OnOk result (IsCounted evaluation.old evaluation.new (counted (ground_of evaluation.old) 0 (length evaluation.old.origins))) }
{
    let Ok(count) = u32::try_from(evaluation.origins.len()) else {
        return Err(Memory);
    };
    for number in 0..count {
        add_mode(evaluation, number)?;
    }
    Ok(())
}

// Adds the mode of a definition, where it is a counter.
#[tactic(auto, using(crate::proofs::Counting::counting))]
fn add_mode(evaluation: &mut Evaluation<'_>, number: u32) -> Result<(), Memory>
    ensures { HasGround evaluation.old → OnOk result (IsCounted evaluation.old evaluation.new (counted_at (ground_of evaluation.old) number)) }
{
    match evaluation.origin(number) {
        Some(Origin::Counter(control)) => {
            let mode = mode_of_counter(evaluation, control)?;
            let entry = entry_of(evaluation.alloc, mode);
            set_entry(evaluation, number, entry);
            Ok(())
        }
        Some(Origin::Synonym { .. })
        | Some(Origin::SynMode(_))
        | Some(Origin::NewMode(_))
        | Some(Origin::Element(_))
        | Some(Origin::Location { .. })
        | Some(Origin::Parameter { .. })
        | Some(Origin::Received { .. })
        | Some(Origin::Procedure(_))
        | Some(Origin::Process(_))
        | Some(Origin::Signal(_))
        | Some(Origin::Modulion(_))
        | Some(Origin::Predefined(_))
        | None => Ok(()),
    }
}

// What is known of a counter of a mode.
fn entry_of(alloc: Global, mode: Option<Rc<Mode>>) -> Entry
    ensures { entry_tree result ≡ of_mode_alone (own_mode mode) }
{
    Entry {
        mode,
        class: None,
        value: None,
        parts: List::new(alloc),
    }
}

// Puts what is known of a definition into the table.
fn set_entry(evaluation: &mut Evaluation<'_>, number: u32, entry: Entry)
    ensures { IsSet evaluation.old number entry evaluation.new }
{
    put(&mut evaluation.entries, number as usize, entry);
}

// Puts an entry in the place of another, where there is one.
fn put(entries: &mut Vec<Entry>, at: usize, entry: Entry)
    ensures { entries.new.items ≡ set entries.old.items at entry }
{
    if let Some(own) = entries.get_mut(at) {
        *own = entry;
    }
}

// The mode of the counter of a loop. What is told here is told again where the loop stands.
#[tactic(auto, using(statement_laws::proofs::Arguments::alike))]
fn mode_of_counter(
    evaluation: &Evaluation<'_>,
    control: &Control,
) -> Result<Option<Rc<Mode>>, Memory>
    ensures { HasGround evaluation.now → IfOk result (λ m. own_mode m ≡ counter_mode (ground_of evaluation.now) (control_tree control.now)) }
{
    let walk = Walk { evaluation };
    let mut told = Told::new(evaluation.alloc);
    match control {
        Control::While { .. } | Control::Forever { .. } => Ok(None),
        Control::Members { set, .. } => {
            let set = walk.value(set, Receiver::Members, &mut told)?;
            mode_of_members(&set.class)
        }
        Control::Steps { start, end, .. } => {
            let first = walk.value(start, Receiver::Bound, &mut told)?;
            let last = walk.value(end, Receiver::Bound, &mut told)?;
            walk.mode_of_steps(&first.class, &last.class)
        }
    }
}

// The mode of a counter that goes through a powerset: the member mode.
fn mode_of_members(set: &Option<Class>) -> Result<Option<Rc<Mode>>, Memory>
    ensures { IfOk result (λ m. own_mode m ≡ option_and_then member_in (option_and_then table.form_in (own_class set.now))) }
{
    let Some(class) = set else {
        return Ok(None);
    };
    match form_in(class) {
        Some(Form::Powerset(member)) => Ok(Some(member.clone()?)),
        Some(Form::Int)
        | Some(Form::Bool)
        | Some(Form::Char)
        | Some(Form::Instance)
        | Some(Form::Set { .. })
        | Some(Form::Chars(_))
        | Some(Form::Array { .. })
        | Some(Form::Struct { .. })
        | Some(Form::Meeting)
        | None => Ok(None),
    }
}

impl<'a, 'b> Walk<'a, 'b> {
    /// The mode of a counter from a start to an end, which have to be discrete and compatible: the root of both.
    pub fn mode_of_steps(
        &self,
        start: &Option<Class>,
        end: &Option<Class>,
    ) -> Result<Option<Rc<Mode>>, Memory>
        ensures { IfOk result (λ m. own_mode m ≡ counter_of_both (own_class start.now) (own_class end.now)) }
    {
        let (Some(one), Some(other)) = (start, end) else {
            return Ok(None);
        };
        if !is_of_discrete(one) || !is_of_discrete(other) || !are_compatible(one, other) {
            return Ok(None);
        }
        match their_class(self.evaluation.alloc, one, other)? {
            Some(Class::Value(mode)) | Some(Class::Derived(mode)) => Ok(Some(mode)),
            Some(Class::Null) | Some(Class::Nothing) | None => Ok(None),
        }
    }
}

// Whether two classes are compatible.
fn are_compatible(one: &Class, other: &Class) -> bool
    ensures { result ≡ are_compatible (class_tree one.now) (class_tree other.now) }
{
    tests_law();
    compatible(one, other)
}
