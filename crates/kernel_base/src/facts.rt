// What a program's run rests on: its shared locations, its counts, its input and its budget.
ghost use Rattle.std.specs.Prelude.{◌≡◌, ◌↔◌, IfOk, IsTrue};

use crate::Values;
use chill_base::{Item, Layouts, Lengths, Memory, Text};

/// The facts of a program, an input and a budget, from which a run starts.
#[derive(Drop)]
pub struct Facts {
    /// The lowest value of each shared location.
    pub store: Values,
    /// The layout of each shared location.
    pub layouts: Layouts,
    /// The number of regions.
    pub regions: u32,
    /// The length of each event.
    pub events: Lengths,
    /// The length of each buffer.
    pub buffers: Lengths,
    /// The number of processes, the outermost one included. Some of these numbers may be a procedure's.
    pub processes: u32,
    /// For each signal the process whose instances may receive it, where its definition names one.
    pub signals: Lengths,
    /// The bytes that GET_INT reads.
    pub input: Text,
    /// The budget: the run is over where the units of its events have reached it.
    pub units: u64,
}

impl Item for Facts {
    fn copy(&self) -> Result<Self, Memory> {
        Ok(Facts {
            store: self.store.copy()?,
            layouts: self.layouts.copy()?,
            regions: self.regions,
            events: self.events.copy()?,
            buffers: self.buffers.copy()?,
            processes: self.processes,
            signals: self.signals.copy()?,
            input: self.input.copy()?,
            units: self.units,
        })
    }

    fn equals(&self, other: &Self) -> bool {
        self.store.equals(&other.store)
            && self.layouts.equals(&other.layouts)
            && self.regions == other.regions
            && self.events.equals(&other.events)
            && self.buffers.equals(&other.buffers)
            && self.processes == other.processes
            && self.signals.equals(&other.signals)
            && self.input.equals(&other.input)
            && self.units == other.units
    }
}
