// What a definition is in the elaborated program.

/// What a definition is in the elaborated program: in which list it stands, and as which of it.
#[derive(Clone, Copy, PartialEq, Eq)]
pub enum Thing {
    /// A shared location.
    Shared(u32),
    /// A local of a body: a parameter, a declared name, a counter or a received name.
    Local { body: u32, number: u32 },
    /// A procedure or a process.
    Body(u32),
    Event(u32),
    Buffer(u32),
    Signal(u32),
    Region(u32),
    /// Nothing: a module, a mode, a synonym, an element or what is predefined.
    Nothing,
}
