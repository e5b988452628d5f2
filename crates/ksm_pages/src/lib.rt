//! The pages of the book: their order, with rank, and the rows.
#![tactic(auto)]

mod ahead;
mod changes;
mod dups;
mod left;
mod named;
mod order;
mod pages;
mod reads;
mod restless;
pub mod row;
mod rows;
mod slot;
mod tally;
mod unstable;
mod visited;

pub use ahead::Ahead;
pub use named::Named;
pub use order::{Order, ShortOrder};
pub use pages::{Find, Glance, Held, Look, Pages};
pub use restless::Restless;
pub use row::Spot;
pub use rows::Rows;
pub use tally::Tally;
