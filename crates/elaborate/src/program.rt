// The elaborated program as callers hold it.
ghost use Rattle.std.specs.Prelude.{◌≡◌};

use checked_program::Checked;

/// An elaborated program in memory of its own.
pub struct Program {
    pub checked: Box<Checked>,
}

// Dropped by hand, so that whoever drops a program makes one call, and has none of its parts.
impl Drop for Program {
    fn drop(self) {
        let Program { checked } = self;
        drop(checked);
    }
}

impl Program {
    /// What the program has.
    pub fn checked(&self) -> &Checked
        ensures { result.now ≡ self.now.checked.value }
    {
        &self.checked
    }
}
