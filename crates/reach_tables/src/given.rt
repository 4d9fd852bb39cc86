// What is kept of modulions to make what they give, made once for each and lent to whoever opens a reach.
ghost use Rattle.std.specs.Prelude.{◌≡◌, ◌++◌, ◌∷◌, [], ℕ, List};
ghost use Rattle.names_model.specs.declared.definition.Definition.{Definition};
ghost use Rattle.names_model.specs.Parts.{part_tree};
ghost use Rattle.reach_tables.specs.Givens.{GivenTree, IsGiver, given_of, given_trees, inner_lent};

use crate::passing::Giver;
use crate::source::Source;
use crate::table::Table;
use chill_base::{List, Numbers};
use names_model::Part;

/// A modulion: whether it is a region, what it has from itself and from its modulions, what is defined directly in it, and the
/// same of the modulions directly in it, in their order.
#[derive(Drop)]
pub struct Given {
    pub region: bool,
    pub has: Table,
    pub own: Numbers,
    pub inner: List<Given>,
}

// The first, if there is one, and those behind it.
fn split_one(given: &[Given]) -> (&[Given], &[Given])
    ensures { (first : GivenTree) (rest : List GivenTree) → given_trees given.now ≡ first ∷ rest → (given_trees result.0.now ≡ first ∷ []) × (given_trees result.1.now ≡ rest) }
{
    if given.is_empty() {
        return (given, given);
    }
    given.split_at(1)
}

/// What a part is lent, if it is a modulion, and what is left for the parts behind it.
#[tactic(auto, using(names_model::proofs::PartViews::part_built))]
pub fn split_given<'a>(part: &Part, given: &'a [Given]) -> (&'a [Given], &'a [Given])
    ensures { (all : List Definition) (from : ℕ) (rest : List GivenTree) → given_trees given.now ≡ given_of all from (part_tree part.now) ++ rest → (given_trees result.0.now ≡ given_of all from (part_tree part.now)) × (given_trees result.1.now ≡ rest) }
{
    match part {
        Part::Modulion { .. } => split_one(given),
        Part::Define(_)
        | Part::Mention(_)
        | Part::Seize(_)
        | Part::SeizeAll(_)
        | Part::Grant(_)
        | Part::GrantAll(_)
        | Part::Stray(_)
        | Part::Routine { .. }
        | Part::Block { .. } => given.split_at(0),
    }
}

/// The modulion that is lent to a part, as it is seen from around.
pub fn lent_giver(own: &[Given]) -> Option<Giver<'_>>
    ensures { IsGiver (given_trees own.now) result }
{
    match own.first() {
        Some(given) => Some(Giver {
            region: given.region,
            has: Source::Table(&given.has),
            own: given.own.as_slice(),
        }),
        None => None,
    }
}

/// What is lent to the modulions directly in a part.
pub fn lent_inner(own: &[Given]) -> &[Given]
    ensures { given_trees result.now ≡ inner_lent (given_trees own.now) }
{
    match own.first() {
        Some(given) => given.inner.as_slice(),
        None => &[],
    }
}
