// Laws of classes. Each is a fact about the definitions, which a caller learns by calling the function.
ghost use Rattle.class_laws.specs.Known.{CleanLaw, ReceiveLaw};

/// An expression in which nothing is told has its class, where what it names is known: an unnamed tuple, where what receives it
/// isn't a place of unknown mode.
pub fn class_law()
    ensures { CleanLaw }
{}

/// A RECEIVE from a location of known mode has its class, where P3 isn't told of it.
pub fn receive_law()
    ensures { ReceiveLaw }
{}
