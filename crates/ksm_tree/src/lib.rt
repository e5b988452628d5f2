//! The stable trees of the book: groups of dups with their items. Beside them waiting pages, which stand alone.
#![tactic(auto)]

mod bits;
mod content;
mod dup;
mod dups;
mod groups;
mod guesses;
mod item_counts;
mod number_set;
mod places;
mod room;
mod shelf;
mod slots;
mod totals;
mod waiting;

pub use content::{Content, same_bytes};
pub use dup::{Best, Choice};
pub use dups::{Dups, NO_PLACE};
pub use groups::NO_NUMBER;
pub use guesses::Guesses;
pub use number_set::NumberSet;
pub use room::reserve_one;
pub use waiting::Waiting;
