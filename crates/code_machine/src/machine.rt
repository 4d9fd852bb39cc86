// The machine.
ghost use Rattle.std.specs.Prelude.{◌≡◌, ◌↔◌, ◌≤◌, ◌∷◌, [], IfOk, IsSomeAnd, IsTrue, OnErr, Some, length, slice_get};
ghost use Rattle.code_types.specs.declared.code.Code.{Code};
ghost use Rattle.code_types.specs.Talk.{Leads, start_of};
ghost use Rattle.machine_steps.specs.Answering.{takes_answer};
ghost use Rattle.machine_steps.specs.Taking.{after_answer};
ghost use Rattle.machine_steps.specs.Views.{state_of};
ghost use Rattle.code_machine.specs.Running.{Bursts, GoesOnBehind, IsUp, RunsOn};

use crate::answering::take_answer;
use crate::burst::{Stop, burst_of};
use crate::starting::start_running;
use chill_base::{Memory, Scalars};
use code_guard::Guarded;
use kernel_base::Answer;
use machine_steps::{Doing, Process};
use std::alloc::Global;
use std::marker::Model;

/// A process of a code that was guarded, with the memory of all its frames. Contracts see it as its process.
#[derive(Drop)]
pub struct Machine {
    process: Process,
}

impl Model for Machine {
    ghost use Rattle.machine_steps.specs.declared.process.Process.{Process};
    ghost use Rattle.code_machine.specs.Running.{RunsOnSome};

    ghost Value = { Process };

    ghost view = { λ m. m.process };

    ghost invariant = { λ m. RunsOnSome m.process };
}

impl Machine {
    /// Whether the process is a body of the code that has as many parameters as there are scalars.
    pub fn can_start(guarded: &Guarded, process: u32, scalars: &Scalars) -> bool
        ensures { IsTrue result ↔ IsSomeAnd (slice_get guarded.now.bodies process) (λ row. row.params ≡ length scalars.now) }
    {
        Process::can_start(guarded, process, scalars)
    }

    /// A machine at the first instruction of a body of the code. It takes the memory of all its frames; there may be none.
    pub fn start(
        alloc: Global,
        guarded: &Guarded,
        instance: u32,
        process: u32,
        scalars: Scalars,
    ) -> Result<Machine, Memory>
        requires { IsSomeAnd (slice_get guarded.now.bodies process) (λ row. row.params ≡ length scalars) }
        ensures starts { IfOk result (λ m. start_of guarded.now instance process scalars ≡ Some (state_of m)) }
        ensures runs { IfOk result (RunsOn guarded.now) }
    {
        let process = start_running(alloc, guarded, instance, process, scalars)?;
        Ok(Machine { process })
    }

    /// Whether no request waits and the machine hasn't ended.
    pub fn can_burst(&self) -> bool
        ensures { IsTrue result ↔ IsUp (state_of self.now).mode }
    {
        match self.process.doing {
            Doing::Running | Doing::Called | Doing::Raising(_) => true,
            Doing::Asking { .. } | Doing::Ended => false,
        }
    }

    /// Runs up to a request, or up to `most` ticks where no request comes before them. It takes its memory first; where there
    /// is none the machine is as it was.
    pub fn burst(&mut self, guarded: &Guarded, most: u32) -> Result<Stop, Memory>
        requires runs { RunsOn guarded.now self.old }
        requires up { IsUp (state_of self.old).mode }
        requires most { 1 ≤ most }
        ensures bursts { IfOk result (Bursts guarded.now most (state_of self.old) (state_of self.new)) }
        ensures kept { OnErr result (state_of self.new ≡ state_of self.old) }
        ensures runs { RunsOn guarded.now self.new }
    {
        burst_of(&mut self.process, guarded.code(), most)
    }

    /// Whether a request waits for which the answer can come, and the answer has as many scalars as the waiting instruction
    /// takes.
    pub fn can_answer(&self, answer: &Answer) -> bool
        ensures { result ≡ takes_answer (state_of self.now).mode answer.now }
    {
        self.process.can_answer(answer)
    }

    /// Takes an answer for which `can_answer` is true. It takes no memory. The answer to a request to end ends the machine,
    /// which then gives up its frames.
    pub fn answer(&mut self, answer: Answer)
        requires { IsTrue (takes_answer (state_of self.old).mode answer) }
        ensures state { state_of self.new ≡ after_answer (state_of self.old) answer }
        ensures leads { (code : Code) → Leads code (state_of self.old) (answer ∷ []) [] (state_of self.new) }
        ensures going { GoesOnBehind (state_of self.old).mode (state_of self.new).mode }
        ensures runs { (code : Code) → RunsOn code self.old → RunsOn code self.new }
    {
        take_answer(&mut self.process, answer)
    }
}
