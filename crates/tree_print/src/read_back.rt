// The laws of what is written and read again.
ghost use Rattle.tree_print.specs.ReadBack.{ReadBackLaw, WrittenAgainLaw};

/// What is written of the tokens of any text is read as tokens of the same kinds, one for one, at places of their own.
/// The text that is written may be longer than a text of the language may be.
pub fn read_back_law()
    ensures { ReadBackLaw }
{}

/// What was written is written again as it is: a canonical text is its own canonical text.
pub fn written_again_law()
    ensures { WrittenAgainLaw }
{}
