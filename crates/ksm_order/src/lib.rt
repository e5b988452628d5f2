//! The place of a key in a list whose keys do not fall. And items in the order of their keys, each marked or not, with
//! rank: how many marked items stand before a key, and which is the one at a place. A tree whose height is its type.
#![tactic(auto)]

mod item;
mod leaf;
mod node;
mod part;
mod place;
mod vector;

pub use item::Item;
pub use leaf::Leaf;
pub use node::Node;
pub use part::Part;
pub use place::{Keyed, is_place, place_near_end, place_near_start, place_of, stands_at};
pub use vector::{insert_at, move_down, move_last};
