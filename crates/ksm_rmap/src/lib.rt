//! The reverse map of a merged page: which guest pages are mapped to it. They are kept by their keys.
#![tactic(auto)]

mod items;
mod key;

pub use items::Items;
pub use key::{key_of, page_of};
