// Laws of what a machine does. Each is a fact about the definitions, which a caller learns by calling the function.
ghost use Rattle.follow_laws.specs.Laws.{InstructionLaw, RequestLaw, ContentsLaw, AssignLaw, CheckLaw, IndexLaw};
ghost use Rattle.follow_laws.specs.Parts.{TurnsLaw, LabelledLaw, HandledLaw};

/// An instruction that finds its operands does with them what it does.
pub fn instruction_law()
    ensures { InstructionLaw }
{}

/// The machine takes the answers to a request that the meaning takes.
pub fn request_law()
    ensures { RequestLaw }
{}

/// The contents of a part of a location, at an offset or not.
pub fn contents_law()
    ensures { ContentsLaw }
{}

/// The assignment to a part of a location, at an offset or not.
pub fn assign_law()
    ensures { AssignLaw }
{}

/// The test of a number.
pub fn check_law()
    ensures { CheckLaw }
{}

/// The offset of an index.
pub fn index_law()
    ensures { IndexLaw }
{}

/// The instructions of a loop follow its turns, where those of its test and of its actions follow theirs.
pub fn turns_law()
    ensures { TurnsLaw }
{}

/// So do those of a labelled statement, where those of what it holds do.
pub fn labelled_law()
    ensures { LabelledLaw }
{}

/// So do those of a statement with a handler.
pub fn handled_law()
    ensures { HandledLaw }
{}
