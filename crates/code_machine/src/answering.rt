// Processes that run on their code have room for each answer that they take.
ghost use Rattle.std.specs.Prelude.{◌≡◌, IsTrue, ◌∷◌, []};
ghost use Rattle.code_types.specs.declared.code.Code.{Code};
ghost use Rattle.code_types.specs.Talk.{Leads};
ghost use Rattle.machine_steps.specs.Answering.{takes_answer};
ghost use Rattle.machine_steps.specs.Taking.{after_answer};
ghost use Rattle.machine_steps.specs.Views.{state_of};
ghost use Rattle.code_machine.specs.Running.{GoesOnBehind, RunsOn, RunsOnSome};

use kernel_base::Answer;
use machine_steps::Process;

/// Takes an answer that fits the request that waits.
pub fn take_answer(process: &mut Process, answer: Answer)
    requires runs { RunsOnSome process.old }
    requires can { IsTrue (takes_answer (state_of process.old).mode answer) }
    ensures state { state_of process.new ≡ after_answer (state_of process.old) answer }
    ensures leads { (code : Code) → Leads code (state_of process.old) (answer ∷ []) [] (state_of process.new) }
    ensures going { GoesOnBehind (state_of process.old).mode (state_of process.new).mode }
    ensures runs { (code : Code) → RunsOn code process.old → RunsOn code process.new }
{
    process.answer(answer);
}
