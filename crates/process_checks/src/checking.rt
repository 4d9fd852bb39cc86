// The phase of processes.
ghost use Rattle.std.specs.Prelude.{◌≡◌, ℕ, List as Row, ◌++◌, IfOk, flat_map};
ghost use Rattle.std.specs.List.Sorted.{IsStrictlySortedBy};
ghost use Rattle.chill_tree.specs.ItemTree.{program_tree};
ghost use Rattle.diagnostics.specs.Order.{diagnostic_cmp};
ghost use Rattle.checks_model.specs.Ground.{Ground};
ghost use Rattle.checks_model.specs.Table.{IsStatementGroundOf};
ghost use Rattle.checks_model.specs.Phases.{broken_processes};
ghost use Rattle.checks_model.specs.Diagnoses.{HasModes};
ghost use Rattle.wait_exprs.specs.Waits.{waits_of};
ghost use Rattle.wait_exprs.specs.Split.{told_wait};
ghost use Rattle.constant_operators.specs.Grounds.{ground_of, HasGround};
ghost use Rattle.process_names.specs.Walk.{over_program};
ghost use Rattle.definition_origins.specs.CheckRules.{AreOfChecks};
ghost use Rattle.process_checks.specs.Answers.{TellsInOrder, AnswersList, Answers};
ghost use Rattle.process_checks.specs.ByNames.{IsEvaluationOn, TellsByNames};
ghost use Rattle.process_checks.specs.MetByNumber.{facts_of};
ghost use Rattle.process_checks.specs.Waiting.{AreNeeded};
ghost use Rattle.process_checks.specs.Telling.{could_be_told, IsToldMore};

use crate::meeting::{declared_meetings, used_meetings};
use crate::waiting::Waiting;
use chill_base::Memory;
use chill_tree::tree::Tree;
use constant_operators::Evaluation;
use definition_origins::Told;
use diagnostics::Diagnostics;
use met_names::Meetings;
use process_names::tell_in_program;
use visibility::Refusal;
use wait_exprs::waits_of;

/// The rules P1 to P8, all that a program breaks, in order and each once. It is asked of programs that break no rule on
/// names, modes, constants or statements, and whose definitions are evaluated.
pub fn check_processes(evaluation: &Evaluation<'_>, tree: &Tree) -> Result<(), Refusal>
    ensures order { TellsInOrder result }
    ensures exact { (text : Row ℕ) (g : Ground) → HasModes text (program_tree tree.now) g → IsStatementGroundOf (program_tree tree.now) (ground_of evaluation.now) → HasGround evaluation.now → Answers (broken_processes (ground_of evaluation.now) (program_tree tree.now)) result }
    ensures by_names { (g : Ground) → IsEvaluationOn g evaluation.now → TellsByNames g (program_tree tree.now) result }
{
    let told = told_of_processes(evaluation, tree)?;
    answer(told.into_list())
}

// What is told of a program: by names, and of priorities and locations to be set.
fn told_of_processes(evaluation: &Evaluation<'_>, tree: &Tree) -> Result<Told, Memory>
    ensures exact { HasGround evaluation.now → AreNeeded (ground_of evaluation.now) (waits_of (program_tree tree.now)) → IfOk result (λ told. told ≡ over_program (facts_of evaluation.now) (program_tree tree.now) ++ flat_map (told_wait (ground_of evaluation.now)) (waits_of (program_tree tree.now))) }
    ensures more { IfOk result (λ told. let f = facts_of evaluation.now in let t = program_tree tree.now in IsToldMore (flat_map (could_be_told f) (waits_of t)) (over_program f t) told) }
{
    let used = used_meetings(evaluation)?;
    let declared = declared_meetings(evaluation)?;
    let meetings = Meetings::new(
        evaluation.alloc,
        evaluation.names.uses.as_slice(),
        evaluation.defined.as_slice(),
        used.as_slice(),
        declared.as_slice(),
    );
    let waiting = Waiting {
        evaluation,
        meetings: &meetings,
    };
    let waits = waits_of(evaluation.alloc, tree)?;
    let mut told = Told::new(evaluation.alloc);
    tell_in_program(&meetings, tree, &mut told)?;
    waiting.tell_waits(waits.as_slice(), &mut told)?;
    Ok(told)
}

// No rule is broken where the list is empty.
fn answer(list: Diagnostics) -> Result<(), Refusal>
    requires sorted { IsStrictlySortedBy diagnostic_cmp list }
    requires checks { AreOfChecks list }
    ensures order { TellsInOrder result }
    ensures list { AnswersList list result }
{
    if list.is_empty() {
        return Ok(());
    }
    Err(Refusal::Broken(list))
}
