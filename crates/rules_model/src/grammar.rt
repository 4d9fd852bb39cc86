// The law of the grammar.
ghost use Rattle.std.specs.Prelude.{List};
ghost use Rattle.chill_tree.specs.declared.token.Token.{Token};
ghost use Rattle.rules_model.specs.ItemGrammar.{HasOneTree};

/// A list of tokens has at most one tree.
pub fn one_tree()
    ensures { (tokens : List Token) → HasOneTree tokens }
{}
