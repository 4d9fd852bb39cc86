//! Tests of modes and layouts: tables with results by hand, from the rules of the language.
#![tactic(auto)]

#[cfg(test)]
mod build;
#[cfg(test)]
mod layouts;
#[cfg(test)]
mod pairs;
#[cfg(test)]
mod single;
