// Two instances that wait for each other.
use crate::passes::Passes;
use outside_ports::Gate;

/// It holds the first pass of instance 2 and that of instance 3, each until the other has come. Where one thread does the work
/// of all, the first of them never sees the other come.
#[derive(Drop)]
pub struct Meeting {
    second: Passes,
    third: Passes,
}

impl Meeting {
    pub fn new() -> Meeting {
        Meeting {
            second: Passes::new(),
            third: Passes::new(),
        }
    }

    /// Whether both have come, and neither gave up its hold.
    pub fn has_met(&self) -> bool {
        let both_came = self.second.times() > 0 && self.third.times() > 0;
        both_came && !self.second.has_given_up() && !self.third.has_given_up()
    }
}

impl Gate for Meeting {
    fn pass(&self, _worker: u32, instance: u32) {
        match instance {
            2 => {
                if self.second.is_first() {
                    self.second.hold(&self.third, 1);
                }
            }
            3 => {
                if self.third.is_first() {
                    self.third.hold(&self.second, 1);
                }
            }
            _ => {}
        }
    }
}
