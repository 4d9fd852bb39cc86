// One instance that stays behind another.
use crate::passes::Passes;
use outside_ports::Gate;

/// It holds the first pass of one instance until the second pass of another has come.
#[derive(Drop)]
pub struct Behind {
    held: u32,
    ahead: u32,
    held_passes: Passes,
    ahead_passes: Passes,
}

impl Behind {
    /// A gate that holds one instance behind another.
    pub fn new(held: u32, ahead: u32) -> Behind {
        Behind {
            held,
            ahead,
            held_passes: Passes::new(),
            ahead_passes: Passes::new(),
        }
    }

    /// Whether the hold gave up before the other had come twice.
    pub fn has_given_up(&self) -> bool {
        self.held_passes.has_given_up()
    }
}

impl Gate for Behind {
    fn pass(&self, _worker: u32, instance: u32) {
        if instance == self.ahead {
            self.ahead_passes.is_first();
        } else if instance == self.held && self.held_passes.is_first() {
            self.held_passes.hold(&self.ahead_passes, 2);
        }
    }
}
