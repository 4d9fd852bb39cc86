// What the walk tells, beside the definitions of the rules.
ghost use Rattle.process_names.specs.Phase.{NamesLaw};

/// What names decide are the lines of the phase of processes, without P6 of a priority and P7 of a location to be set.
pub fn names_law()
    ensures { NamesLaw }
{}
