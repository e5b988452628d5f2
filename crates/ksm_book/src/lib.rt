//! The book of page sharing: which pages there are, which of them are merged, and on which frames they lie.
#![tactic(auto)]

mod book;
mod due;
mod due_pass;
mod frame_keeper;
mod frames;
mod knobs;
mod mounting;
mod moving;
mod scan;
mod stale;
mod state;
mod unmerging;
mod visiting;

pub use book::Book;
pub use ksm_journal::Journal;
