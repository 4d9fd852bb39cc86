// How far an instance has come (Z.200, chapter on concurrent execution).
ghost use Rattle.std.specs.Prelude.{◌≡◌};
ghost use Rattle.instance_table.specs.Phase.{is_live_in, is_active_in};

use kernel_base::How;

/// How far an instance has come, as far as the table knows it.
#[derive(Clone, Copy)]
pub enum Phase {
    /// It may ask.
    Active,
    /// It waits for anything but a region.
    Waiting,
    /// Its answer has come, and it waits to lock a region.
    Suspended,
    /// It has ended.
    Ended(How),
}

impl Phase {
    /// Whether the instance has not ended.
    pub fn is_live(self) -> bool
        ensures { result ≡ is_live_in self }
    {
        match self {
            Phase::Ended(_) => false,
            _ => true,
        }
    }

    /// Whether the instance may ask.
    pub fn is_active(self) -> bool
        ensures { result ≡ is_active_in self }
    {
        match self {
            Phase::Active => true,
            _ => false,
        }
    }
}
