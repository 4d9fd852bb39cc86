// How often an instance has passed a gate, and its hold there.
use std::sync::atomic::{AtomicU64, Ordering};

// How often a hold looks before it gives up.
const LOOKS: u32 = 200_000_000;

/// How often an instance has passed, and whether it gave up a hold.
#[derive(Drop)]
pub(crate) struct Passes {
    count: AtomicU64,
    gave_up: AtomicU64,
}

impl Passes {
    pub(crate) fn new() -> Passes {
        Passes {
            count: AtomicU64::new(0),
            gave_up: AtomicU64::new(0),
        }
    }

    /// How often the instance has passed.
    pub(crate) fn times(&self) -> u64 {
        self.count.load(Ordering::SeqCst)
    }

    /// Whether a hold of the instance gave up.
    pub(crate) fn has_given_up(&self) -> bool {
        self.gave_up.load(Ordering::SeqCst) != 0
    }

    /// The instance passes: is it for the first time?
    pub(crate) fn is_first(&self) -> bool {
        self.count.fetch_add(1, Ordering::SeqCst) == 0
    }

    /// Holds the instance until the other has passed so many times.
    pub(crate) fn hold(&self, other: &Passes, times: u64) {
        for _ in 0..LOOKS {
            if other.times() >= times {
                return;
            }
        }
        self.gave_up.store(1, Ordering::SeqCst);
    }
}
