//! The worked journals: what the definitions of the book answer and show, command by command. Each is a law, with
//! nothing to run.
#![tactic(auto)]

pub mod edges;
pub mod flags;
pub mod frames;
pub mod kernel;
pub mod knobs;
pub mod merging;
pub mod passes;
pub mod places;
pub mod refusals;
pub mod untouched;
pub mod zero_pages;
