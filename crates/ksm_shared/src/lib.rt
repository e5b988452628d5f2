//! One book that several callers command: the merge lock, and what each caller's share tells of the one journal.
#![tactic(auto)]

mod answer;
mod beginning;
mod ksm;
mod merge;
mod naming;
mod opening;
mod parts;
mod publisher;
mod reader;
mod row;
mod rows;
mod seen;
mod share;
mod tally;
mod writing;

pub use answer::Answer;
pub use ksm::Ksm;
pub use merge::Merge;
pub use naming::Naming;
pub use parts::Parts;
pub use reader::CounterReader;
pub use row::Row;
pub use seen::{Caller, Entry, OneJournal, Owned, View};
pub use share::Share;
pub use tally::{GatherFault, Tally, gather};
