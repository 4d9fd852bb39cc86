// The code of a program.
ghost use Rattle.std.specs.Prelude.{◌≡◌, ◌<◌, ◌↔◌, [], length, IfOk, IsErrOf};
ghost use Rattle.program_trees.specs.ProgramTree.{checked_tree};
ghost use Rattle.code_scheme.specs.BodyCode.{code_of};
ghost use Rattle.scheme_heights.specs.Things.{AreGiven};
ghost use Rattle.code_gen.specs.Compiled.{AgreesFor, TalksFor, StandsFor};

use crate::bodies::put_bodies;
use crate::refusal::{CodeRefusal, refusal_of};
use checked_program::Checked;
use code_types::Code;
use expr_gen::Draft;
use std::alloc::Global;

/// The greatest size of a text that has a code.
const GREATEST_SIZE: u32 = 65_536;

/// The code of a program. `CodeTooLong` comes exactly where the size of the text is above 65,536. Each place in a code is a
/// number of 32 bits, as is the one behind it. The code is that of the scheme. So it names what its waits are for by Thing alone;
/// and where the program may be compiled, it agrees, and has the text's talks for arguments and answers that fit.
pub fn compile(alloc: Global, program: &Checked) -> Result<Code, CodeRefusal>
    ensures too_long { IsErrOf result CodeRefusal.CodeTooLong ↔ 65536 < program.now.size }
    ensures places { IfOk result (λ code. length code.instrs < 4294967295) }
    ensures scheme { IfOk result (λ code. code ≡ code_of (checked_tree program.now)) }
    ensures things { IfOk result (λ code. AreGiven [] code.instrs) }
    ensures agrees { IfOk result (λ code. AgreesFor program.now code) }
    ensures talks { IfOk result (λ code. TalksFor program.now code) }
    ensures stands { IfOk result (λ code. StandsFor program.now code) }
{
    if program.size > GREATEST_SIZE {
        return Err(CodeRefusal::CodeTooLong);
    }
    let mut draft = Draft::new(alloc);
    match put_bodies(program, &mut draft) {
        Ok(()) => Ok(draft.code),
        Err(refusal) => Err(refusal_of(refusal)),
    }
}
