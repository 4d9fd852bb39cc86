// Instances with the machines that run them.
ghost use Rattle.std.specs.Prelude.{◌≡◌, IfOk, IfSome, IsSomeAnd, OnErr, OnOk, slice_get};
ghost use Rattle.code_types.specs.declared.code.Code.{Code};
ghost use Rattle.machine_steps.specs.Views.{state_of};
ghost use Rattle.code_machine.specs.Running.{IsUp};
ghost use Rattle.serial_run.specs.Standing.{Stands, AllStand, FetchedBy, KeepsJournal, HaveFetched};
ghost use Rattle.serial_run.specs.Suiting.{CannotTake, IsUnsuited, RestFrom};

use crate::Misfit;
use chill_base::List;
use code_machine::Machine;
use kernel_core::Kernel;

/// An instance, and the machine that runs it.
#[derive(Drop)]
pub struct Runner {
    pub instance: u32,
    pub machine: Machine,
}

/// The machines of a run, in the order of their instances.
pub type Machines = List<Runner>;

impl Runner {
    /// Fetches the answer for which the machine waits, where it has come, and hands it over. It takes no memory.
    pub fn fetch(&mut self, kernel: &mut Kernel) -> Result<(), Misfit>
        ensures instance { self.new.instance ≡ self.old.instance }
        ensures fetched { FetchedBy kernel.old kernel.new self.old.instance }
        ensures stands { OnOk result ((code : Code) → Stands code kernel.old self.old → Stands code kernel.new self.new) }
        ensures misfit { OnErr result (CannotTake kernel.old self.old) }
    {
        match kernel.fetch(self.instance) {
            Some(answer) => {
                if !self.machine.can_answer(&answer) {
                    return Err(Misfit);
                }
                self.machine.answer(answer);
                Ok(())
            }
            None => Ok(()),
        }
    }
}

/// Fetches each answer that has come. It takes no memory.
pub fn fetch_all(kernel: &mut Kernel, runners: &mut [Runner]) -> Result<(), Misfit>
    ensures journal { KeepsJournal kernel.old kernel.new }
    ensures stand { OnOk result ((code : Code) → AllStand code kernel.old runners.old → AllStand code kernel.new runners.new) }
    ensures fetched { OnOk result (HaveFetched kernel.new runners.new) }
    ensures misfit { OnErr result (IsUnsuited kernel.old runners.old) }
{
    for k in 0..runners.len() {
        runners[k].fetch(kernel)?;
    }
    Ok(())
}

/// The place of the first machine from a place on that can make a burst; it and those before it fetch their answers first. It
/// takes no memory.
pub fn next_from(
    kernel: &mut Kernel,
    runners: &mut [Runner],
    from: usize,
) -> Result<Option<usize>, Misfit>
    ensures journal { KeepsJournal kernel.old kernel.new }
    ensures stand { IfOk result (λ place. (code : Code) → AllStand code kernel.old runners.old → AllStand code kernel.new runners.new) }
    ensures found { IfOk result (λ place. IfSome place (λ k. IsSomeAnd (slice_get runners.new k) (λ r. IsUp (state_of r.machine).mode))) }
    ensures rest { IfOk result (RestFrom kernel.new runners.new from) }
    ensures misfit { OnErr result (IsUnsuited kernel.old runners.old) }
{
    for k in from..runners.len() {
        runners[k].fetch(kernel)?;
        if runners[k].machine.can_burst() {
            return Ok(Some(k));
        }
    }
    Ok(None)
}

/// The same among the machines at places that are listed, rising. Where none is found it says nothing of the others. It takes
/// no memory.
pub fn next_listed(
    kernel: &mut Kernel,
    runners: &mut [Runner],
    places: &[usize],
) -> Result<Option<usize>, Misfit>
    ensures journal { KeepsJournal kernel.old kernel.new }
    ensures stand { IfOk result (λ place. (code : Code) → AllStand code kernel.old runners.old → AllStand code kernel.new runners.new) }
    ensures found { IfOk result (λ place. IfSome place (λ k. IsSomeAnd (slice_get runners.new k) (λ r. IsUp (state_of r.machine).mode))) }
    ensures misfit { OnErr result (IsUnsuited kernel.old runners.old) }
{
    for place in places {
        let k = *place;
        if k >= runners.len() {
            continue;
        }
        runners[k].fetch(kernel)?;
        if runners[k].machine.can_burst() {
            return Ok(Some(k));
        }
    }
    Ok(None)
}
