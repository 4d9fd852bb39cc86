// The phase of modes and constants: what all modes and expressions of a program break (Z.200, chapters on modes and on
// values).
ghost use Rattle.std.specs.Prelude.{◌≡◌, ℕ, List as Row, IfOk};
ghost use Rattle.std.specs.List.Sorted.{IsStrictlySortedBy};
ghost use Rattle.diagnostics.specs.Order.{diagnostic_cmp};
ghost use Rattle.chill_tree.specs.ItemTree.{program_tree};
ghost use Rattle.names_model.specs.Resolving.{names_of, level_of};
ghost use Rattle.checks_model.specs.Ground.{Ground};
ghost use Rattle.checks_model.specs.Table.{IsGroundOf};
ghost use Rattle.checks_model.specs.Diagnoses.{HasNames};
ghost use Rattle.checks_model.specs.Phases.{told_of_modes, broken_modes};
ghost use Rattle.constant_operators.specs.Grounds.{ground_of};
ghost use Rattle.definition_origins.specs.CheckRules.{AreOfChecks};
ghost use Rattle.mode_rules.specs.Ready.{IsReady};

use crate::items::tell_in_modulions;
use crate::too_many::tell_too_many_shared;
use chill_base::Memory;
use chill_tree::tree::Tree;
use constant_operators::Evaluation;
use definition_origins::Told;
use definition_table::evaluate;
use diagnostics::Diagnostics;
use names_model::Names;
use std::alloc::Global;

/// All rules on modes and constants that a program breaks, in order, each once: those of the phase, of a text whose names these
/// are and that breaks no rule on names.
pub fn told_of_modes(alloc: Global, tree: &Tree, names: &Names) -> Result<Diagnostics, Memory>
    ensures exact { (text : Row ℕ) (g : Ground) → HasNames text (program_tree tree.now) → names.now ≡ names_of (level_of (program_tree tree.now)) → IsGroundOf (program_tree tree.now) g →
        IfOk result (λ list. list ≡ broken_modes g (program_tree tree.now)) }
    ensures sorted { IfOk result (λ list. IsStrictlySortedBy diagnostic_cmp list) }
    ensures checks { IfOk result AreOfChecks }
{
    let evaluation = evaluate(alloc, tree, names)?;
    let told = told_of_program(&evaluation, tree)?;
    Ok(told.into_list())
}

/// All rules on modes and constants that a program breaks: rule L7, and those of its modes and expressions.
pub fn told_of_program(ground: &Evaluation<'_>, tree: &Tree) -> Result<Told, Memory>
    ensures { IsReady ground.now → IfOk result (λ told. told ≡ told_of_modes (ground_of ground.now) (program_tree tree.now)) }
{
    let mut told = Told::new(ground.alloc);
    tell_too_many_shared(ground, tree.modulions.as_slice(), &mut told)?;
    tell_in_modulions(ground, tree.modulions.as_slice(), &mut told)?;
    Ok(told)
}
