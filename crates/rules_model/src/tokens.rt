// The laws of the tokens of a text.
ghost use Rattle.std.specs.Prelude.{◌≡◌, ◌≤◌, ℕ, List, ◌++◌, length, ◌⊎◌};
ghost use Rattle.chill_base.specs.declared.pos.Pos.{Pos};
ghost use Rattle.chill_tree.specs.declared.token.Token.{Token};
ghost use Rattle.rules_model.specs.TokensShapes.{Shape, Spells, Piece};
ghost use Rattle.rules_model.specs.TokensCut.{IsPieceAt, joined, AreTokensOf, BeginsNone, IsBadAt};

/// The pieces of a text, joined, are the text; up to a bad place they are what stands before it.
pub fn pieces_joined()
    ensures tokens { (text : List ℕ) (tokens : List Token) (cut : AreTokensOf text tokens)
        → joined cut.cuts ≡ text }
    ensures bad { (text : List ℕ) (at : Pos) (cut : IsBadAt text at)
        → joined cut.cuts ++ cut.bad ≡ text }
{}

/// At a piece's place no longer shape begins, and no other piece.
pub fn longest_piece()
    ensures longest { (piece : Piece) (front rest : List ℕ) → IsPieceAt piece front rest
        → (shape : Shape) (longer less : List ℕ) → Spells shape longer
        → longer ++ less ≡ front ++ rest → length longer ≤ length front }
    ensures only { (piece other : Piece) (front rest longer less : List ℕ)
        → IsPieceAt piece front rest → IsPieceAt other longer less
        → longer ++ less ≡ front ++ rest → (longer ≡ front) × (less ≡ rest) × (other ≡ piece) }
{}

/// At a bad place no piece begins.
pub fn nothing_begins()
    ensures { (text : List ℕ) (at : Pos) (cut : IsBadAt text at) → BeginsNone cut.bad }
{}

/// Each text has its tokens or a bad place, not both, and only one list or place.
pub fn one_reading()
    ensures some { (text : List ℕ)
        → ((tokens : List Token) × AreTokensOf text tokens) ⊎ ((at : Pos) × IsBadAt text at) }
    ensures tokens { (text : List ℕ) (tokens others : List Token)
        → AreTokensOf text tokens → AreTokensOf text others → tokens ≡ others }
    ensures bad { (text : List ℕ) (at other : Pos)
        → IsBadAt text at → IsBadAt text other → at ≡ other }
    ensures apart { (text : List ℕ) (tokens : List Token) (at : Pos)
        → AreTokensOf text tokens → IsBadAt text at → ⊥ }
{}
