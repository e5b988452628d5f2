//! What the keeper knows.
use crate::frame::Kind;
use crate::seat::Life;
use ksm_base::PAGE_WORDS;
use std::collections::LinkedList;

/// What the keeper knows of a frame: all but its count, which readers change too.
#[derive(Clone, Copy, Debug)]
pub struct Note {
    pub kind: Kind,
    /// The keeper's own references.
    pub base: u64,
    /// How many times the frame was given.
    pub generation: u64,
    pub content: [u64; PAGE_WORDS],
}

/// What the keeper knows: a note of each frame, and what each place names. Contracts speak of it; no value
/// of it is made.
pub struct Ledger {
    pub frames: LinkedList<Note>,
    pub places: LinkedList<Option<Life>>,
}
