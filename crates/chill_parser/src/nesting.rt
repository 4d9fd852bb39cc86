// The nesting at a token, against the levels that are left.
ghost use Rattle.std.specs.Prelude.{◌≡◌, List, Some, None};
ghost use Rattle.chill_base.specs.declared.pos.Pos.{Pos};
ghost use Rattle.chill_tree.specs.declared.token.Token.{Token};
ghost use Rattle.rules_model.specs.Nesting.{first_deep};
ghost use Rattle.chill_parser.specs.Nested.{ReachesFirst, NeverReaches};

/// A token that is too deep is the first at which the nesting is 65.
pub fn too_deep_law()
    ensures { (tokens : List Token) (at : Pos) → first_deep 65 tokens ≡ Some at → ReachesFirst 65 tokens at }
{}

/// Where no token is too deep, the nesting is 65 at none.
pub fn none_too_deep_law()
    ensures { (tokens : List Token) → first_deep 65 tokens ≡ None → NeverReaches 65 tokens }
{}
