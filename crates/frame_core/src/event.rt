//! The steps of the seats, and the answer to one.
/// One atomic step of one seat, on one word of the table.
#[derive(Clone, Copy, Debug, PartialEq, Eq)]
pub enum Event {
    /// A step of the reader that has this seat, from 0.
    Reader(u32, ReaderStep),
    /// A step of the keeper.
    Keeper(KeeperStep),
}

/// A step of a reader. A lookup makes the first three in this order; then words are loaded, and the reference is given
/// back last.
#[derive(Clone, Copy, Debug, PartialEq, Eq)]
pub enum ReaderStep {
    /// Loads the word of this place.
    LoadPlace(u32),
    /// Loads the frame word of the frame that the place named: its count, and the life that it is in.
    LoadFrame,
    /// Exchanges the frame word that was loaded for one more: takes a reference in the life that the place
    /// named, unless count or life are others by now.
    Exchange,
    /// Subtracts 1 from the frame word: gives the reference back.
    Leave,
    /// Loads this content word of the frame that is held.
    LoadWord(usize),
}

/// A step of the keeper, who alone gives frames and names them at places.
#[derive(Clone, Copy, Debug, PartialEq, Eq)]
pub enum KeeperStep {
    /// Loads the frame word of this dying frame: at count 0 it is free again, or retired.
    Reap(u32),
    /// Stores this value to a content word of a frame that nobody else can see.
    Put { frame: u32, word: usize, value: u64 },
    /// Adds `COUNT_SPAN` to the frame word of this free frame, 1 to its generation: its next life begins.
    Raise(u32),
    /// Adds 1 to the frame word of this frame: from now on it has a reference, the keeper's.
    Open(u32),
    /// Adds 1 to the frame word of this frame: one more reference of the keeper.
    Add(u32),
    /// Subtracts 1 from the frame word of this frame: one reference of the keeper less.
    Sub(u32),
    /// Stores the frame and its generation to the place: lookups find it there from now on.
    Publish { place: u32, frame: u32 },
    /// Stores the frame and its generation to a place that names another: lookups find the new frame there from now on,
    /// and never nothing.
    Replace { place: u32, frame: u32 },
    /// Stores 0 to this place: it names nothing.
    Withdraw(u32),
    /// Exchanges the frame word of this frame for one with count 0, unless a reader counts on it.
    Freeze(u32),
    /// Loads a content word of the frame.
    Word { frame: u32, word: usize },
}

/// The answer to an event.
#[derive(Clone, Copy, Debug, PartialEq, Eq)]
pub enum Step {
    /// The step was made. The word is the one that it found: for a change the word before it, for a plain
    /// store 0.
    Done(u64),
    /// The state allows no such step, or it names no seat, frame, place or word of the shape. Nothing
    /// changed.
    NotAllowed,
}
