//! What is read of a table that was closed.
ghost use Rattle.std.specs.Prelude.{◌≡◌, ◌<◌, slice_index};
ghost use Rattle.ksm_base.specs.Values.{frames_of};
ghost use Rattle.frame_core.specs.State.{count_in, life_in};
ghost use Rattle.frame_core.specs.Words.{frame_word_at};

use atomic_table::Closed;
use frame_core::{FrameWord, LINE_WORDS};
use ksm_base::Shape;
use std::alloc::Global;
use std::marker::Model;

/// A table that no thread shares any more. Contracts see its shape and its words.
pub struct ClosedTable {
    pub(crate) closed: Closed<(), Global>,
    pub(crate) shape: Shape,
}

impl Model for ClosedTable {
    ghost use Rattle.std.specs.Prelude.{◌≡◌};
    ghost use Rattle.std.specs.Mem.Slots.{slots_items, slots_len, IsFull};
    ghost use Rattle.frame_core.specs.Words.{words_for};
    ghost use Rattle.ksm_base.specs.Values.{IsShape, frames_of};
    ghost use Rattle.frame_table.specs.Named.{ClosedView};

    ghost Value = { ClosedView };

    ghost view = { λ c. record { shape = c.shape; words = slots_items c.closed.words } };

    ghost invariant = { λ c. (slots_len c.closed.words ≡ words_for (frames_of c.shape)) × IsFull c.closed.words × (slots_len c.closed.slots ≡ 0) × IsShape c.shape };
}

impl Drop for ClosedTable {
    fn drop(self) {
        let Self { closed, shape: _ } = self;
        closed.free();
    }
}

#[tactic(auto, using(crate::proofs::Looked::found_at))]
impl ClosedTable {
    fn frame_word(&self, frame: u32) -> u64
        requires { frame < frames_of self.now.shape }
        ensures { result ≡ slice_index self.now.words (frame_word_at (frames_of self.now.shape) frame) }
    {
        self.closed
            .word(self.shape.frames() as usize + frame as usize * LINE_WORDS)
    }

    /// References on a frame.
    pub fn count(&self, frame: u32) -> u64
        requires { frame < frames_of self.now.shape }
        ensures { result ≡ count_in (slice_index self.now.words (frame_word_at (frames_of self.now.shape) frame)) }
    {
        FrameWord::unpack(self.frame_word(frame)).count
    }

    /// How many times a frame was given.
    pub fn generation(&self, frame: u32) -> u64
        requires { frame < frames_of self.now.shape }
        ensures { result ≡ life_in (slice_index self.now.words (frame_word_at (frames_of self.now.shape) frame)) }
    {
        FrameWord::unpack(self.frame_word(frame)).generation
    }

    /// The word of a place: 0 where it is empty, else `generation * PLACE_SPAN + frame`.
    pub fn place(&self, place: u32) -> u64
        requires { place < frames_of self.now.shape }
        ensures { result ≡ slice_index self.now.words place }
    {
        self.closed.word(place as usize)
    }
}
