//! The limits of a table, each by its name. No other file says one as a number: code, definitions and proofs take it
//! from here, and what follows from them is proved from the names, so a build of another size changes this file alone.

/// How many NUMA nodes a table has at most (own).
pub const MOST_NODES: u32 = 4;

/// How many frames a node has at most (own).
pub const MOST_FRAMES_PER_NODE: u32 = 256;

/// How many passes a table has at most, by which readers look frames up (own).
pub const MOST_PASSES: u32 = 16;

/// How many references on one frame are the keeper's at most, and so how many pages are mapped to one merged frame
/// (own; in admin-guide/mm/ksm `max_page_sharing` has no upper bound).
pub const MOST_REFERENCES: u64 = 1024;

/// How many exchanges a lookup makes at most (own).
pub const MOST_TRIES: u32 = 64;

/// How many times a frame is given at most (own).
pub const MOST_LIVES: u64 = 1 << 40;

/// How many frame numbers the word of a place has room for: it is `generation * PLACE_SPAN + frame` (own).
pub const PLACE_SPAN: u64 = 1024;

/// How many counts the word of a frame has room for: it is `generation * COUNT_SPAN + count` (own).
pub const COUNT_SPAN: u64 = 65536;

// What follows from them.

/// How many frames there are on all nodes together at most, and as many places.
pub const MOST_FRAMES: u32 = MOST_NODES * MOST_FRAMES_PER_NODE;

/// How many references there are on one frame at most: the keeper's, and one of each pass.
pub const MOST_COUNT: u64 = MOST_REFERENCES + MOST_PASSES as u64;

/// The word of a frame is below this.
pub const FRAME_WORDS: u64 = (MOST_LIVES + 1) * COUNT_SPAN;

// The number of each frame has room in the word of a place, each count in that of a frame, also with one more, and
// both words in 64 bits, with room for a number of 32 bits and for one more life.
const _: () = prove!(MOST_FRAMES as u64 <= PLACE_SPAN);

const _: () = prove!(MOST_COUNT + 1 < COUNT_SPAN);

const _: () = prove!(MOST_LIVES <= (1 << 63) / PLACE_SPAN - 1);

const _: () = prove!(MOST_LIVES + 2 <= (1 << 63) / COUNT_SPAN);
