// Whether logs agree with a journal. Each event is looked at twice, however many logs there are.
ghost use Rattle.std.specs.Prelude.{◌↔◌, IfOk, IsTrue};
ghost use Rattle.worker_pool.specs.Gather.{Agrees};

use crate::log::Log;
use crate::log_births::have_births;
use crate::log_events::have_events;
use crate::log_places::places_of;
use chill_base::Memory;
use kernel_base::Event;
use std::alloc::Global;

/// Whether the logs agree with the journal: no instance has two, each with an event has one, and each has all events of its
/// instance and was born as it says.
pub fn agree(alloc: Global, logs: &[Log], journal: &[Event]) -> Result<bool, Memory>
    ensures { IfOk result (λ b. IsTrue b ↔ Agrees journal.now logs.now) }
{
    match places_of(alloc, logs)? {
        Some(places) => {
            if !have_events(alloc, logs, &places, journal)? {
                return Ok(false);
            }
            have_births(alloc, logs, &places, journal)
        }
        None => Ok(false),
    }
}
