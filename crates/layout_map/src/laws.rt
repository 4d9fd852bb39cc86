// What holds of the spots of a mode, and of numbers in the bits of words.
ghost use Rattle.std.specs.Prelude.{◌≡◌, ◌<◌, ◌≤◌, ◌^◌, ℕ, ℤ, List, All, AllPairs};
ghost use Rattle.std.specs.Int.{bit_at};
ghost use Rattle.chill_base.specs.declared.layout.Bits.{Bits};
ghost use Rattle.modes.specs.ModeTree.{ModeTree};
ghost use Rattle.modes.specs.Language.{IsOfLanguage};
ghost use Rattle.layout_map.specs.Scalar.{digits_of};
ghost use Rattle.layout_map.specs.Words.{IsInWord, IsWithinBits, number_in, put_in};
ghost use Rattle.layout_map.specs.Apart.{ShareNoBit};
ghost use Rattle.layout_map.specs.Outcome.{outcome_of, spots};

/// What was put into bits is got, and each other bit of the word is as before.
#[tactic(auto, using(crate::proofs::NumberLemmas::word_laws))]
pub fn word_law()
    ensures got { (word : ℕ) (b : Bits) (value : ℤ) → IsWithinBits b value → number_in (put_in word b value) b ≡ value }
    ensures below { (word : ℕ) (b : Bits) (value : ℤ) (k : ℕ) → k < b.start → bit_at (put_in word b value) k ≡ bit_at word k }
    ensures above { (word : ℕ) (b : Bits) (value : ℤ) (k : ℕ) → IsWithinBits b value → b.end < k → bit_at (put_in word b value) k ≡ bit_at word k }
{}

/// The digits that a scalar's bits are counted by: the least k with the number below 2^k.
#[tactic(auto, using(crate::proofs::Narrow::width_laws))]
pub fn width_law()
    ensures enough { (x : ℕ) → x < 2 ^ 64 → x < 2 ^ digits_of x }
    ensures least { (x k : ℕ) → k ≤ 63 → x < 2 ^ k → digits_of x ≤ k }
{}

/// No two spots of a mode that a text can give share a bit, and each lies in its word.
#[tactic(auto, using(crate::proofs::ModeRuns::spot_laws))]
pub fn spot_law()
    ensures apart { (m : ModeTree) (bs : List Bits) → IsOfLanguage m → outcome_of m ≡ spots bs → AllPairs ShareNoBit bs }
    ensures in_words { (m : ModeTree) (bs : List Bits) → IsOfLanguage m → outcome_of m ≡ spots bs → All IsInWord bs }
{}
