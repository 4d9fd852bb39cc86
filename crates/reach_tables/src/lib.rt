//! The definitions of a program by their numbers, and what each of its reaches has and shows under each name.
//!
//! `Book::of` has all definitions of a program, `givens_of` makes once what each modulion has from itself and from its
//! modulions, and `enter_parts` enters what a reach has, place by place, with N1 of it. `sees` and `seen_around` lend what the
//! tables around a place show. It meets the definitions of `names_model`, and stands below `reach_walk`, which goes over all
//! parts with these tables.
#![tactic(auto)]

mod among;
mod book;
mod collect;
mod definitions;
mod entries;
mod founds;
mod given;
mod giving;
mod granted;
mod marked;
mod opening;
mod passages;
mod passing;
mod place;
mod predefined;
mod reached;
mod scope;
mod source;
mod table;
mod twice;

pub use book::Book;
pub use entries::{enter_params, push_all};
pub use given::{Given, lent_inner, split_given};
pub use giving::givens_of;
pub use opening::Opening;
pub use place::Place;
pub use predefined::COUNT as PREDEFINED_COUNT;
pub use reached::{enter_parts, enter_places, seizes_all};
pub use scope::{Scope, seen_around, sees};
pub use source::Source;
pub use table::Table;
