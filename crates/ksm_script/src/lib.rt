//! Scripts: lines in, reply lines out. A line is a command of the book, or a lookup by one of the passes.
#![tactic(auto)]

mod hears;
mod input;
mod lane;
mod line_text;
mod output;
mod pass_state;
mod passes;
mod refusal;
mod replies;
mod reply;
mod script;
mod session;
mod worked;

pub use hears::{Hears, Unheard};
pub use input::LONGEST_LINE;
pub use lane::{Blocks, Lane, Sends};
pub use pass_state::PassState;
pub use refusal::Refusal;
pub use reply::{LineReply, write_reply};
pub use script::{End, RunFault, run, run_heard};
pub use session::Session;
pub use worked::{command_lines, lookup_lines, reading_lines};
