//! The frame table that threads share: its words, a seat for the keeper, and one for each pass.
//!
//! Each call is a few atomic steps of one seat. Between any two steps of any threads the words and what the seats know
//! are a state of the frame core that keeps its rule (own).
#![tactic(auto)]

mod closed;
mod equal;
mod held;
mod keeper;
mod keeper_steps;
mod laws;
mod moments;
mod pass;
mod permit;
mod reader_steps;
mod seats;
mod table;
mod view;
mod worked;

pub use closed::ClosedTable;
pub use equal::FoundEqual;
pub use held::Held;
pub use keeper::Keeper;
pub use laws::{
    a_log_cannot_lie, a_replaced_place_is_never_empty, frame_words_lie_apart, steps_are_the_cores,
    the_running_table_is_safe,
};
pub use pass::{Found, Pass, Why};
pub use table::FrameTable;
pub use view::{FrameRule, Tally, View};
