// The elaborated program.
ghost use Rattle.std.specs.Prelude.{IfOk};
ghost use Rattle.program_ranges.specs.ProgramRanges.{AreInRange};

use crate::bodies::fill_bodies;
use crate::elaboration::Elaboration;
use crate::program::Program;
use checked_program::Checked;
use chill_tree::tree::Tree;
use expr_rules::Walk;
use program_ranges::are_in_range;
use value_elaboration::{ElaborationRefusal, Evaluation, Numbering, Values};

/// The elaborated program of a text that breaks no rule, of its tree and its evaluated definitions, counters and received
/// names among them: all its numbers are in range. `Unsound` comes of no such text.
pub fn elaborate(evaluation: &Evaluation<'_>, tree: &Tree) -> Result<Program, ElaborationRefusal>
    ensures in_range { IfOk result (λ p. AreInRange p.checked.value) }
{
    in_range(elaborated(evaluation, tree)?)
}

// The program, whose numbers have to be in range.
fn in_range(program: Box<Checked>) -> Result<Program, ElaborationRefusal>
    ensures { IfOk result (λ p. AreInRange p.checked.value) }
{
    if !are_in_range(&program) {
        return Err(ElaborationRefusal::Unsound);
    }
    Ok(Program { checked: program })
}

// The elaborated program of evaluated definitions.
fn elaborated(
    evaluation: &Evaluation<'_>,
    tree: &Tree,
) -> Result<Box<Checked>, ElaborationRefusal> {
    let walk = Walk { evaluation };
    let numbering = Numbering::of(&walk, tree)?;
    let elaboration = Elaboration {
        values: Values {
            walk: &walk,
            numbering: &numbering,
        },
    };
    let insides = elaboration.insides(tree)?;
    let mut program = numbering.into_rows();
    fill_bodies(&mut program, insides)?;
    Ok(program)
}
