//! Tests of elaborated and compiled programs: the sizes of texts, elaborated programs as texts, and the turns of their
//! processes, by hand.
//!
//! It proves nothing of its own. Tests stand in a crate at the top because a crate with tests is proved twice.
#![tactic(auto)]

#[cfg(test)]
mod elaborated;
#[cfg(test)]
mod number_rows;
#[cfg(test)]
mod page;
#[cfg(test)]
mod played;
#[cfg(test)]
mod print_actions;
#[cfg(test)]
mod print_controls;
#[cfg(test)]
mod print_modes;
#[cfg(test)]
mod print_operators;
#[cfg(test)]
mod print_rows;
#[cfg(test)]
mod print_statements;
#[cfg(test)]
mod print_values;
#[cfg(test)]
mod printed;
#[cfg(test)]
mod size_rows;
#[cfg(test)]
mod sizes;
#[cfg(test)]
mod statement_rows;
#[cfg(test)]
mod value_rows;
