// The code of a program that breaks no rule on names, modes, statements and processes.
ghost use Rattle.std.specs.Prelude.{◌≡◌, ◌<◌, IfErr, IfOk, IsErrOf};
ghost use Rattle.chill_tree.specs.ItemTree.{program_tree};
ghost use Rattle.code_types.specs.Agreement.{Agrees};
ghost use Rattle.program_ranges.specs.ProgramRanges.{AreInRange};
ghost use Rattle.text_to_code.specs.Building.{IsBuiltOf, IsCompiled, IsGivenUp};

use checked_program::Checked;
use chill_tree::tree::Tree;
use code_gen::{CodeRefusal, compile};
use code_guard::{GuardRefusal, Guarded, guard};
use code_types::Code;
use elaborate::{ElaborationRefusal, Program, elaborate};
use std::alloc::Global;
use text_checks::Evaluation;

/// A program and its code.
#[derive(Drop)]
pub struct Built {
    pub program: Program,
    pub code: Guarded,
}

/// Why a program has no code.
#[derive(Drop)]
pub(crate) enum BuildRefusal {
    /// It isn't elaborated or compiled, or the guard doesn't take its code. No program that breaks no rule should come to this.
    NotBuilt,
    /// No memory was to be had.
    Memory,
}

/// The code of a program, whose size was tested.
pub(crate) fn build(
    alloc: Global,
    tree: &Tree,
    evaluation: &Evaluation<'_>,
) -> Result<Built, BuildRefusal>
    ensures built { IfOk result (λ b. IsBuiltOf (program_tree tree.now) b.program.checked.value b.code) }
    ensures refused { IfErr result (IsGivenUp (program_tree tree.now)) }
{
    let program = elaborated(evaluation, tree)?;
    let code = compiled(alloc, program.checked())?;
    let code = guarded(alloc, code)?;
    Ok(Built { program, code })
}

fn elaborated(evaluation: &Evaluation<'_>, tree: &Tree) -> Result<Program, BuildRefusal>
    ensures { IfOk result (λ p. AreInRange p.checked.value) }
{
    match elaborate(evaluation, tree) {
        Ok(program) => Ok(program),
        Err(ElaborationRefusal::Memory) => Err(BuildRefusal::Memory),
        Err(ElaborationRefusal::Unsound) => Err(BuildRefusal::NotBuilt),
    }
}

fn compiled(alloc: Global, program: &Checked) -> Result<Code, BuildRefusal>
    ensures made { IfOk result (IsCompiled program.now) }
    ensures too_long { IsErrOf result BuildRefusal.NotBuilt → 65536 < program.now.size }
{
    match compile(alloc, program) {
        Ok(code) => Ok(code),
        Err(CodeRefusal::CodeTooLong) => Err(BuildRefusal::NotBuilt),
        Err(CodeRefusal::Memory) => Err(BuildRefusal::Memory),
    }
}

fn guarded(alloc: Global, code: Code) -> Result<Guarded, BuildRefusal>
    ensures guarded { IfOk result (λ guarded. (guarded ≡ code) × Agrees code) }
    ensures refused { IsErrOf result BuildRefusal.NotBuilt → Agrees code → ⊥ }
{
    match guard(alloc, code) {
        Ok(code) => Ok(code),
        Err(GuardRefusal::Disagrees(_)) => Err(BuildRefusal::NotBuilt),
        Err(GuardRefusal::Memory) => Err(BuildRefusal::Memory),
    }
}
