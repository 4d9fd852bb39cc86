// How many nodes the expressions in a mode have.
ghost use Rattle.std.specs.Prelude.{◌≡◌, option_map};
ghost use Rattle.chill_tree.specs.ModeTree.{mode_tree, base_tree, field_tree, field_trees, field_nodes, discrete_tree, index_tree, spread_tree, place_tree};
ghost use Rattle.text_size.specs.ModeNodes as counts;
ghost use Rattle.text_size.specs.Nodes.{capped};

use crate::nodes::{nodes_in, nodes_in_some};
use chill_tree::tree::{Base, Discrete, Field, Index, Mode, Place, Spread};

/// The nodes of the expressions in a mode: bounds, lengths and places.
pub fn nodes_in_mode(mode: &Mode) -> u32
    ensures { result ≡ capped (counts.nodes_in_mode (mode_tree mode.now)) }
{
    match mode {
        Mode::Base(base) => nodes_in_base(base),
        Mode::Read { base, .. } => nodes_in_base(base),
        Mode::Event { length, .. } => nodes_in_some(length),
        Mode::Buffer {
            length,
            element,
            ..
        } => nodes_in_some(length).saturating_add(nodes_in_base(element)),
    }
}

/// The nodes of the expressions in a mode, where there is one.
pub fn nodes_in_some_mode(mode: &Option<Mode>) -> u32
    ensures { result ≡ capped (counts.nodes_in_some_mode (option_map mode_tree mode.now)) }
{
    match mode {
        None => 0,
        Some(mode) => nodes_in_mode(mode),
    }
}

#[tactic(auto, using(crate::proofs::ModeLemmas::mode_views))]
#[cycle(base)]
fn nodes_in_base(base: &Base) -> u32
    ensures { result ≡ capped (counts.nodes_in_base (base_tree base.now)) }
{
    match base {
        Base::Discrete(own) => nodes_in_discrete(own),
        Base::Powerset { member, .. } => nodes_in_discrete(member),
        Base::Chars { length, .. } => nodes_in(length),
        Base::Struct { fields, .. } => nodes_in_fields(fields.as_slice()),
        Base::Array {
            index,
            element,
            spread,
            ..
        } => {
            let outside = nodes_in_index(index).saturating_add(nodes_in_spread(spread));
            outside.saturating_add(nodes_in_base(element))
        }
    }
}

#[cycle(base)]
fn nodes_in_fields(fields: &[Field]) -> u32
    ensures { result ≡ capped (counts.nodes_in_fields (field_nodes (field_trees fields.now))) }
{
    let mut count = 0_u32;
    for field in fields {
        count = count.saturating_add(nodes_in_field(field));
    }
    count
}

#[tactic(auto, using(crate::proofs::ModeLemmas::mode_views))]
#[cycle(base)]
fn nodes_in_field(field: &Field) -> u32
    ensures { result ≡ capped (counts.nodes_in_field (field_tree field.now)) }
{
    let base = nodes_in_base(&field.base);
    base.saturating_add(nodes_in_some_place(&field.place))
}

fn nodes_in_some_place(place: &Option<Place>) -> u32
    ensures { result ≡ capped (counts.nodes_in_some_place (option_map place_tree place.now)) }
{
    match place {
        None => 0,
        Some(place) => nodes_in_place(place),
    }
}

fn nodes_in_discrete(own: &Discrete) -> u32
    ensures { result ≡ capped (counts.nodes_in_discrete (discrete_tree own.now)) }
{
    match own {
        Discrete::Named(_) | Discrete::Set { .. } => 0,
        Discrete::Range { low, high, .. } => nodes_in(low).saturating_add(nodes_in(high)),
    }
}

fn nodes_in_index(index: &Index) -> u32
    ensures { result ≡ capped (counts.nodes_in_index (index_tree index.now)) }
{
    match index {
        Index::Named(_) => 0,
        Index::Range { low, high } => nodes_in(low).saturating_add(nodes_in(high)),
    }
}

fn nodes_in_spread(spread: &Option<Spread>) -> u32
    ensures { result ≡ capped (counts.nodes_in_spread (option_map spread_tree spread.now)) }
{
    match spread {
        None | Some(Spread::Packing(_)) => 0,
        Some(Spread::Step(step)) => {
            nodes_in_place(&step.place).saturating_add(nodes_in(&step.distance))
        }
    }
}

fn nodes_in_place(place: &Place) -> u32
    ensures { result ≡ capped (counts.nodes_in_place (place_tree place.now)) }
{
    let start = nodes_in(&place.word).saturating_add(nodes_in(&place.start));
    start.saturating_add(nodes_in(&place.bound))
}
