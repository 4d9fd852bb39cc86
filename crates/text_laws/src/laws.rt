// Laws of the runs of a text. Each is a fact about the definitions, which a caller learns by calling the function.
ghost use Rattle.text_laws.specs.Laws.{AsksFitLaw, FactsAreSoundLaw, RunFitsLaw, SuitsLaw, TalkGrowsLaw, TextRunsLaw, WorldKeepsLaw};

/// The facts of a typed program are sound.
pub fn facts_are_sound_law()
    ensures { FactsAreSoundLaw }
{}

/// What a process of a typed program asks fits the text, and the facts of the program, as far as its answers fit.
pub fn asks_fit_law()
    ensures { AsksFitLaw }
{}

/// With more answers behind and with more ticks a talk goes on where it stopped.
pub fn talk_grows_law()
    ensures { TalkGrowsLaw }
{}

/// In an allowed journal whose requests fit the text, values stay of their modes.
pub fn world_keeps_law()
    ensures { WorldKeepsLaw }
{}

/// In a run of a typed program values stay of their modes, and the arguments and answers of each instance fit.
pub fn run_fits_law()
    ensures { RunFitsLaw }
{}

/// The runs of a code with the text's talks where answers fit are those of the text.
pub fn same_runs_law()
    ensures { TextRunsLaw }
{}

/// A code with the text's talks where answers fit suits the facts of the text.
pub fn suits_law()
    ensures { SuitsLaw }
{}
