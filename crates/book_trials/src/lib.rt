//! The tests of the frames, the trees and the book through their public calls, a module for each crate tested; and
//! commands whose steps and nodes are worked out by the rules.
#![tactic(auto)]

#[cfg(test)]
mod book;
#[cfg(test)]
mod events;
#[cfg(test)]
mod table;
#[cfg(test)]
mod trees;
mod worked;

pub use worked::{nodes_of_a_page, nodes_of_dups, steps_of_leaving, steps_of_visits};
