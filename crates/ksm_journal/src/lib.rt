//! The journal of a book: every command with its answer, most of them in nine bytes, or their number alone.
#![tactic(auto)]

mod code;
mod history;
mod journal;
mod kept;

pub use journal::Journal;
