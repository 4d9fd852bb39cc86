// The laws of the places of uses and of definitions.
ghost use Rattle.names_laws.specs.Rising.{RisingTokensLaw, RisingUsesLaw, RisingDefinitionsLaw};

/// The places of the tokens of a text rise strictly, by line and then by column, and so do those of the uses in a program
/// whose tokens' places rise, and those of its definitions.
pub fn rising_places_law()
    ensures tokens { RisingTokensLaw }
    ensures uses { RisingUsesLaw }
    ensures definitions { RisingDefinitionsLaw }
{}
