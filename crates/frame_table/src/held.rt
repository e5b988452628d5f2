//! A hold, which is a lookup that succeeded. It keeps where its frame word and its page stand, so neither a read nor
//! the leave looks for them again. It must be spent, so no reference is lost.
ghost use Rattle.std.specs.Prelude.{◌≡◌, ◌<◌};
ghost use Rattle.ksm_base.specs.declared.page.TheConstants.{PAGE_WORDS as words_of_page};
ghost use Rattle.frame_core.specs.declared.seat.Phase.TheVariants.{Held as held};
ghost use Rattle.frame_core.specs.Seat.{aim_at};
ghost use Rattle.frame_table.specs.Lookup.{ReadsWord, Leaves};
ghost use Rattle.frame_table.specs.Views.{IsIn, log_in};

use crate::pass::Pass;
use crate::table::FrameTable;
use crate::view::View;
use atomic_table::Seat;
use std::marker::Model;

/// A reader's seat with a reference on a frame, in the life that its place named. While it stands, that life does not
/// end.
///
/// It must be spent, by `leave`.
pub struct Held {
    pub(crate) seat: Seat<(), View>,
    pub(crate) place: u32,
    pub(crate) frame: u32,
    // Where the frame word stands, for the leave, and where the page begins, for each read.
    pub(crate) word: usize,
    pub(crate) page: usize,
    pub(crate) generation: u64,
}

impl Model for Held {
    ghost use Rattle.std.specs.Prelude.{◌≡◌, ◌+◌, ◌<◌, ◌≤◌, length};
    ghost use Rattle.ksm_base.specs.declared.page.TheConstants.{PAGE_WORDS as words_of_page};
    ghost use Rattle.ksm_base.specs.Values.{frames_of};
    ghost use Rattle.frame_core.specs.declared.seat.Phase.TheVariants.{Held as held};
    ghost use Rattle.frame_core.specs.Words.{frame_word_at, page_at};
    ghost use Rattle.frame_table.specs.Named.{HeldView};
    ghost use Rattle.frame_core.specs.Seat.{aim_at};
    ghost use Rattle.frame_table.specs.Views.{IsIn, log_in, shape_in, known_in};

    ghost Value = { HeldView };

    ghost view = { λ h. record { table = record { id = h.seat.table_id; shape = shape_in h.seat.me }; log = log_in h.seat.me; place = h.place; frame = h.frame; generation = h.generation; known = known_in h.seat.me } };

    ghost invariant = { λ h. record {
      seat : IsIn (shape_in h.seat.me) (held (aim_at h.place h.frame h.generation) (known_in h.seat.me)) h.seat.me;
      frame : h.frame < frames_of (shape_in h.seat.me);
      known : length (known_in h.seat.me) ≡ words_of_page;
      word : h.word ≡ frame_word_at (frames_of (shape_in h.seat.me)) h.frame;
      word_within : h.word < h.seat.table_id.words;
      page : h.page ≡ page_at (frames_of (shape_in h.seat.me)) h.frame;
      page_within : h.page + words_of_page ≤ h.seat.table_id.words;
    } };
}

impl Held {
    /// The place that was looked up.
    pub fn place(&self) -> u32
        ensures { result ≡ self.now.place }
    {
        self.place
    }

    /// The frame that the place named.
    pub fn frame(&self) -> u32
        ensures { result ≡ self.now.frame }
    {
        self.frame
    }

    /// The life of it that the place named.
    pub fn generation(&self) -> u64
        ensures { result ≡ self.now.generation }
    {
        self.generation
    }

    /// The seat of the pass that holds. It is of the hold's table, and its view, which is among the views of that
    /// table's rule, has this hold and its log.
    pub fn seat(&self) -> &Seat<(), View>
        ensures own { result.now.table_id ≡ self.now.table.id }
        ensures view { IsIn self.now.table.shape (held (aim_at self.now.place self.now.frame self.now.generation) self.now.known) result.now.me × (log_in result.now.me ≡ self.now.log) }
    {
        &self.seat
    }

    /// Loads the word `i` of the page. For one `i` it answers one value for the whole hold.
    pub fn word(&mut self, table: &FrameTable, i: usize) -> u64
        requires own { self.old.table ≡ table.now }
        requires inside { i < words_of_page }
        ensures { ReadsWord self.old i result self.new }
    {
        let page = self.page;
        table.load_word(&mut self.seat, page, i)
    }

    /// Gives the reference back.
    pub fn leave(self, table: &FrameTable) -> Pass
        requires own { self.table ≡ table.now }
        ensures { Leaves self result }
    {
        let Held {
            mut seat,
            place: _,
            frame: _,
            word,
            page: _,
            generation: _,
        } = self;
        table.give_back(&mut seat, word);
        Pass { seat }
    }
}
