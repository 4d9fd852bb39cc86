// Definitions of names.
use crate::identifier::Identifier;
use crate::kind::Kind;

/// Where a definition stands. A modulion, a procedure and a process are known by the numbers of their own definitions.
#[derive(Clone, Copy, Debug, PartialEq, Eq)]
pub enum Inside {
    /// At the outermost level.
    Outermost,
    /// Directly in a modulion.
    Modulion(u32),
    /// Directly in the body of a procedure or process: a parameter or a local.
    Body(u32),
    /// In a further block of the innermost modulion or body.
    Block(u32),
}

/// A name that is defined, what it stands for, and where. The elements of the SETs that a mode's definition writes have
/// the numbers behind the mode's own.
#[derive(Debug)]
pub struct Definition {
    pub name: Identifier,
    pub kind: Kind,
    pub inside: Inside,
    /// How many elements go with the name of a mode.
    pub elements: u32,
}

// Dropped by hand, so that whoever drops one makes one call.
impl Drop for Definition {
    fn drop(self) {
        let Definition {
            name,
            kind: _,
            inside: _,
            elements: _,
        } = self;
        drop(name);
    }
}
