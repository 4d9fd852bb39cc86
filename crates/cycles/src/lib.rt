//! What depends on itself, exactly and in linear time: in a graph, and where groups of nodes depend on groups, each node on
//! each.
//!
//! `on_cycles` tells it of the edges of a graph, and `selves` of groups, as all the names that one text defines depend on all
//! that it uses; both meet `Depends` of `specs/Depends.antt`. It stands on `chill_base`, and below the definitions of names.
#![tactic(auto)]

mod closure;
mod edge;
mod group;
mod groups;
mod law;
mod marks;
mod on_graph;
mod search;
mod stars;

pub use edge::Edge;
pub use group::Group;
pub use groups::selves;
pub use law::testing_law;
pub use on_graph::on_cycles;

#[cfg(test)]
mod tests;
