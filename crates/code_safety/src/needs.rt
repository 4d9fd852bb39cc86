// What a process that stands well has for its next step. Each is a fact about the definitions.
ghost use Rattle.code_safety.specs.Needs.{EnterLaw, HoldLaw, LandLaw, MakeLaw, PlacedLaw, ReturnLaw};

/// The innermost frame is in a body and at an instruction.
pub fn placed_law()
    ensures { PlacedLaw }
{}

/// A process that runs has what the instruction at its place asks.
pub fn make_law()
    ensures { MakeLaw }
{}

/// A process that has made the tick of a call has what its body asks.
pub fn enter_law()
    ensures { EnterLaw }
{}

/// A caller has room for the results of the body that it called.
pub fn return_law()
    ensures { ReturnLaw }
{}

/// A process that raises an exception has the height of the handler that takes it.
pub fn land_law()
    ensures { LandLaw }
{}

/// A process that waits has room for each answer that fits, unless it asks to end.
pub fn hold_law()
    ensures { HoldLaw }
{}
