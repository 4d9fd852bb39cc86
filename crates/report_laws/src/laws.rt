// Laws of the report. Each is a fact about the definitions, which a caller learns by calling the function.
ghost use Rattle.report_laws.specs.Laws.{ReportLaw, StatesLaw};

/// What the events tell of each instance is the phase that it has in the world that they leave.
pub fn states_law()
    ensures { StatesLaw }
{}

/// The report of a journal that is allowed is that of the world that it leaves.
pub fn report_law()
    ensures { ReportLaw }
{}
