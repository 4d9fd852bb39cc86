// A process of a code, with the memory of its frames.
use kernel_base::{Exc, Request};
use machine_frames::Activation;

/// A region that was entered and not yet left, and the number of the frame that entered it.
#[derive(Clone, Copy)]
pub struct RegionEntry {
    pub region: u32,
    pub frame: usize,
}

/// Where the scalars of an alternative go: into so many locals from one on.
#[derive(Clone, Copy)]
pub struct SlotEntry {
    pub local: usize,
    pub count: usize,
}

/// What the process is about.
#[derive(Drop)]
pub enum Doing {
    /// It makes the next instruction.
    Running,
    /// The call at which it stands has made its tick.
    Called,
    /// Its request waits for an answer; each alternative that it lists has its slot.
    Asking {
        request: Request,
        slots: Vec<SlotEntry>,
    },
    /// An exception has been raised where the innermost frame stands.
    Raising(Exc),
    /// It has had the answer to its last request.
    Ended,
}

/// A process of a code. The innermost frame is `top`; those below it are held with the innermost last, and frames that
/// aren't in use keep their memory.
#[derive(Drop)]
pub struct Process {
    pub instance: u32,
    pub top: Activation,
    pub below: Vec<Activation>,
    pub spare: Vec<Activation>,
    pub regions: Vec<RegionEntry>,
    pub doing: Doing,
}

/// What came of a step.
#[derive(Drop)]
pub enum Stepped {
    /// The process goes on.
    GoesOn,
    /// It has made a tick.
    Ticks,
    /// It asks a request.
    Asks(Request),
    /// It stands at an instruction that asks more than its frame, and hasn't made it.
    Wants,
}
