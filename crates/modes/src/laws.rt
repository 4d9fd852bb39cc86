// What holds of similar and equivalent modes.
ghost use Rattle.std.specs.Prelude.{◌≡◌, ◌↔◌};
ghost use Rattle.modes.specs.ModeTree.{ModeTree, ClassTree};
ghost use Rattle.modes.specs.Language.{IsOfLanguage};
ghost use Rattle.modes.specs.Similar.{Similar, VEquivalent, Equivalent};
ghost use Rattle.modes.specs.Classes.{GoesWith};

/// On the modes that a text can give to a location, similar is an equivalence: each is similar to itself, and what is
/// similar to something is so both ways and onwards.
#[tactic(auto, using(crate::proofs::SimilarLaws::similar_laws))]
pub fn similar_law()
    ensures reflexive { (a : ModeTree) → IsOfLanguage a → Similar a a }
    ensures symmetric { (a b : ModeTree) → Similar a b → Similar b a }
    ensures transitive { (a b c : ModeTree) → Similar a b → Similar b c → Similar a c }
{}

/// Equivalent is an equivalence as well, and equivalent modes are similar.
#[tactic(auto, using(crate::proofs::SimilarLaws::equivalent_laws))]
pub fn equivalent_law()
    ensures reflexive { (a : ModeTree) → IsOfLanguage a → Equivalent a a }
    ensures symmetric { (a b : ModeTree) → Equivalent a b → Equivalent b a }
    ensures transitive { (a b c : ModeTree) → Equivalent a b → Equivalent b c → Equivalent a c }
    ensures similar { (a b : ModeTree) → Equivalent a b → Similar a b }
{}

/// What goes with a mode goes with each that is equivalent.
#[tactic(auto, using(crate::proofs::SimilarLaws::class_laws))]
pub fn class_law()
    ensures { (class : ClassTree) (a b : ModeTree) → Equivalent a b → (GoesWith class a ↔ GoesWith class b) }
{}
