// The phase of processes in two.
ghost use Rattle.wait_exprs.specs.Split.{SplitLaw};

/// What the phase of processes tells is what names decide, and what is told of priorities and of locations that take an instance.
pub fn split_law()
    ensures { SplitLaw }
{}
