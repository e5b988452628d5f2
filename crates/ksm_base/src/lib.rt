//! The values of the page-sharing book: pages, rows, commands, replies, faults, knobs, counters and the shape of a
//! table.
#![tactic(auto)]

mod command;
mod counters;
mod fault;
mod knobs;
pub mod laws;
mod limits;
mod page;
mod reply;
mod row;
mod shape;
mod sound;

pub use command::Command;
pub use counters::Counters;
pub use fault::Fault;
pub use knobs::{Knob, Knobs};
pub use limits::{
    COUNT_SPAN, FRAME_WORDS, MOST_COUNT, MOST_FRAMES, MOST_FRAMES_PER_NODE, MOST_LIVES, MOST_NODES,
    MOST_PASSES, MOST_REFERENCES, MOST_TRIES, PLACE_SPAN,
};
pub use page::{GuestPage, PAGE_WORDS, PageBytes};
pub use reply::Reply;
pub use row::{DupRow, PageState, Row};
pub use shape::Shape;
pub use sound::{
    each_page_has_what_was_stored_last, every_step_keeps_it_sound, items_agree_with_their_dup,
};
