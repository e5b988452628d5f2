//! The program over any host: its words tell the shape of a table, a script comes in, and replies go out.
#![tactic(auto)]

mod answering;
mod retrying;
mod running;
mod said;
mod start;
mod status;
mod telling;
mod version;

pub use retrying::Retrying;
pub use running::{Ended, played, run_on};
pub use start::{told, words};
pub use status::{Outcome, Status};
