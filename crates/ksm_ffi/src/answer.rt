//! The numbers that calls answer, which the header names.
ghost use Rattle.std.specs.Prelude.{◌≡◌};
ghost use Rattle.ksm_ffi.specs.Answers.{number_of};

/// What a call answers. Below 10 it did what it was called for; from 10 on it was refused. A refusal changes nothing,
/// but that a command which a book refused, other than for memory, has its entry in the journal, and may have reaped
/// frames.
#[derive(Clone, Copy, Debug, PartialEq, Eq)]
pub enum Answer {
    /// Done; of a lookup: a frame is held.
    Done = 0,
    /// The place was empty.
    Vacant = 1,
    /// The frame that the place named had no reference.
    Zero = 2,
    /// The frame was in another life than the place named.
    Life = 3,
    /// As many exchanges as `tries` were lost to others.
    Busy = 4,
    /// A frame is held, and a word of it is not the page's.
    Differs = 5,
    /// A reader has a reference on the frame.
    Used = 6,
    /// There is no such page, or no dup for it, so nothing is told.
    Nothing = 7,
    /// The handle is not open.
    Closed = 10,
    /// The handle stands for something else.
    Kind = 11,
    /// The handle that is to be opened is open.
    Open = 12,
    /// A size of the shape is out of its range.
    Shape = 13,
    /// There is no memory.
    Memory = 14,
    /// There is no such frame, place or word, or no room for what is told.
    Range = 15,
    /// The frame or the place is in a state that does not allow the call.
    State = 16,
    /// The pass holds a frame.
    Holding = 17,
    /// The pass holds nothing.
    Idle = 18,
    /// All passes of the table are out.
    NoPass = 19,
    /// Passes of the table are open.
    PassesOut = 20,
    /// The pass is another table's, or none of this table is out.
    Other = 21,
    /// There is no command of this kind.
    Command = 22,
    /// The page, or the guest, is not registered.
    UnknownPage = 32,
    /// The page is registered.
    AlreadyRegistered = 33,
    /// No frame of the node is free.
    NoFrame = 34,
    /// A scan while `run` is not 1.
    NotRunning = 35,
    /// The knob does not change while pages are shared.
    SharedPages = 36,
    /// The value is out of its knob's range.
    BadValue = 37,
    /// Somebody holds the frame of the dup.
    InUse = 38,
    /// The dup was to move to another node, while pages are not merged across nodes.
    CrossesNodes = 39,
    /// No dup with items stands at the place.
    UnknownPlace = 40,
    /// There is no such node.
    BadNode = 41,
}

impl Answer {
    /// The number that C sees.
    pub fn number(self) -> u32
        ensures { result ≡ number_of self }
    {
        self as u32
    }
}
