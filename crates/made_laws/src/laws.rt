// Laws of bodies and numbers. Each is a fact about the definitions, which a caller learns by calling the function.
ghost use Rattle.made_laws.specs.Made.{LayoutsInTextLaw, FewInTextLaw, PlacedInTextLaw, InRangeLaw, FitsTextLaw};

/// The places that the modes of its shared locations have are possible, and share no bit.
pub fn layouts_law()
    ensures { LayoutsInTextLaw }
{}

/// The elaborated program of a text that breaks no rule and isn't too large has few things and few alternatives; the exceptions
/// that its statements name are there, the locals that get what comes have numbers one behind the other, and modules and
/// regions stand among the items of a body alone.
pub fn bodies_law()
    ensures few { FewInTextLaw }
    ensures placed { PlacedInTextLaw }
{}

/// Where it is typed its numbers are in range, as trees and for its code.
pub fn numbers_law()
    ensures in_range { InRangeLaw }
    ensures fits { FitsTextLaw }
{}
