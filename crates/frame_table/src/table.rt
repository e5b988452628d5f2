//! The table and its words. Nothing else of the crate reaches the words: each step of a seat is one function here, of
//! one operation on a word.
ghost use Rattle.std.specs.Prelude.{◌≡◌, ℕ, ◌+◌, ◌-◌, ◌%◌, ◌^◌, ◌<◌, ◌≤◌, List, Option, Some, IfOk, IfErr, vec_len, All, ◌↔◌};
ghost use Rattle.ksm_base.specs.declared.fault.Fault.TheVariants as fault_of;
ghost use Rattle.ksm_base.specs.declared.limits.TheConstants.{FRAME_WORDS as frame_words, MOST_FRAMES as most_frames};
ghost use Rattle.ksm_base.specs.declared.page.TheConstants.{PAGE_WORDS as words_of_page};
ghost use Rattle.ksm_base.specs.Values.{IsShape, frames_of};
ghost use Rattle.frame_core.specs.declared.event.KeeperStep.TheVariants as keeper;
ghost use Rattle.frame_core.specs.declared.event.ReaderStep.TheVariants as reader;
ghost use Rattle.frame_core.specs.declared.seat.Aim.{Aim};
ghost use Rattle.frame_core.specs.declared.seat.Phase.TheVariants.{Idle, Placed, Counted, Held};
ghost use Rattle.frame_core.specs.Ledger.{frame_at};
ghost use Rattle.frame_core.specs.State.{frame_word};
ghost use Rattle.frame_core.specs.Words.{frame_word_at, page_at, words_for};
ghost use Rattle.frame_table.specs.Keeping.{Keeps, MayKeep, word_of_frame};
ghost use Rattle.frame_table.specs.Reading.{IsHolder, StepsNow};
ghost use Rattle.frame_table.specs.Rule.{Holds};
ghost use Rattle.frame_table.specs.Seats.{Opened, Ends, new_pass};
ghost use Rattle.frame_table.specs.Truth.{Moment};
ghost use Rattle.frame_table.specs.Views.{IsIn, IsKeeper, keeps_ledger, ledger_in, keeper_log, order_in, tally_in, tally_of};

use crate::closed::ClosedTable;
use crate::keeper::{Keeper, Use};
use crate::keeper_steps::{
    Add, Freeze, Open, Publish, Put, Raise, Reap, Replace, Sub, Withdraw, Word,
};
use crate::pass::Pass;
use crate::permit::{Permit, Permits};
use crate::reader_steps::{Exchange, Leave, LoadFrame, LoadPlace, LoadWord};
use crate::seats::{GiveBack, NewPass};
use crate::view::{FrameRule, View};
use atomic_table::{Seat, Shared, Table, TableRule};
use frame_core::{Kind, LINE_WORDS};
use ksm_base::{COUNT_SPAN, Fault, PAGE_WORDS, Shape};
use std::alloc::Global;
use std::marker::Model;

// How many words a table of so many places has.
pub(crate) fn word_count(places: usize) -> usize
    requires { places ≤ most_frames }
    ensures { result ≡ words_for places }
{
    places + (places + 1) * LINE_WORDS + places * PAGE_WORDS
}

/// The table, which threads share by reference. Contracts see which one it is, and its shape.
#[derive(Drop)]
pub struct FrameTable {
    table: Table<(), View, Shape, FrameRule, Global>,
    pub(crate) shape: Shape,
    // How many places there are, for the words behind them.
    pub(crate) places: u32,
    // Where the pages begin.
    pub(crate) pages: usize,
}

impl Model for FrameTable {
    ghost use Rattle.std.specs.Prelude.{◌≡◌, ◌≤◌};
    ghost use Rattle.frame_core.specs.Words.{words_for, page_at};
    ghost use Rattle.ksm_base.specs.Values.{IsShape, frames_of};
    ghost use Rattle.ksm_base.specs.declared.limits.TheConstants.{MOST_FRAMES as most_frames};
    ghost use Rattle.frame_table.specs.Named.{TableName};

    ghost Value = { TableName };

    ghost view = { λ t. record { id = t.table.shared.table_id; shape = t.shape } };

    ghost invariant = { λ t. record {
      key : t.table.shared.key ≡ t.shape;
      words : t.table.shared.table_id.words ≡ words_for (frames_of t.shape);
      slots : t.table.shared.table_id.slots ≡ 0;
      shape : IsShape t.shape;
      places : t.places ≡ frames_of t.shape;
      few : t.places ≤ most_frames;
      pages : t.pages ≡ page_at (frames_of t.shape) 0;
    } };
}

impl FrameTable {
    /// How many places there are, and as many frames.
    pub fn places(&self) -> u32
        ensures { result ≡ frames_of self.now.shape }
    {
        self.places
    }

    /// The words that threads share, under the rule that their type names: it holds of them and of the views of all
    /// seats between any two steps. Nobody can step on them without a seat.
    pub fn ruled(&self) -> &Shared<(), View, Shape, FrameRule>
        ensures own { (result.now.table_id ≡ self.now.id) × (result.now.key ≡ self.now.shape) }
        // the rule that the type names is the one that the laws speak of
        ensures rule { (sh : Shape) (t : Moment) → ⟦<FrameRule as TableRule<(), View, Shape>>⟧.holds sh t ↔ Holds sh t }
    {
        &self.table.shared
    }

    pub(crate) fn tries(&self) -> u32
        ensures { (result ≡ self.now.shape.tries) × (1 ≤ result) }
    {
        self.shape.tries
    }

    // As many permits for exchanges as a lookup has.
    pub(crate) fn permits(&self) -> Permits
        ensures { result ≡ self.now.shape.tries }
    {
        Permits::new(self.shape.tries)
    }

    // Where the word of a frame stands: the words of the places come before the lines of the frames.
    pub(crate) fn frame_word(&self, frame: u32) -> usize
        requires inside { frame < frames_of self.now.shape }
        ensures at { result ≡ frame_word_at (frames_of self.now.shape) frame }
        ensures within { result < self.now.id.words }
    {
        self.places as usize + frame as usize * LINE_WORDS
    }

    /// Where the page of a frame begins, behind the lines of all frames and one that is unused. Who takes one word of it
    /// after another asks once.
    pub fn page(&self, frame: u32) -> usize
        requires inside { frame < frames_of self.now.shape }
        ensures at { result ≡ page_at (frames_of self.now.shape) frame }
        ensures within { result + words_of_page ≤ self.now.id.words }
        ensures small { result < 2 ^ 32 }
    {
        self.pages + frame as usize * PAGE_WORDS
    }
}

// Opening and closing.

impl FrameTable {
    #[tactic(auto, using(crate::proofs::Seatings::may_make))]
    fn make_pass(&self, seat: &mut Seat<(), View>) -> Pass
        requires own { seat.old.table_id ≡ self.now.id }
        requires keeper { IsKeeper self.now.shape seat.old.me }
        requires unmade { 0 < (tally_in seat.old.me).unmade }
        ensures seat { (seat.new.table_id ≡ seat.old.table_id) × (seat.new.id ≡ seat.old.id) }
        ensures one_more { seat.new.me ≡ keeps_ledger self.now.shape (ledger_in seat.old.me) (tally_of ((tally_in seat.old.me).unmade - 1) ((tally_in seat.old.me).out + 1)) (keeper_log seat.old.me) (order_in seat.old.me) }
        ensures new { result ≡ new_pass self.now }
    {
        Pass {
            seat: self.table.shared.split_seat::<NewPass>(seat),
        }
    }

    /// A table with all frames free and all places empty, its keeper, and a pass for each of the shape's `passes`. The
    /// only refusal is `Memory`; then nothing is kept.
    #[tactic(auto, using(crate::proofs::Opening::map_replicate, crate::proofs::Opening::may_begin))]
    pub fn open(alloc: Global, shape: Shape) -> Result<(FrameTable, Keeper, Vec<Pass>), Fault>
        requires { IsShape shape }
        ensures opened { IfOk result (λ t. Opened shape t.0 t.1 t.2.items) }
        ensures memory { IfErr result (λ fault. fault ≡ Fault.Memory) }
    {
        let places = shape.frames();
        let count = places as usize;
        let unused = Use {
            kind: Kind::Free,
            base: 0,
        };
        let words = vec![in alloc; 0u64; word_count(count)]?;
        let uses = vec![in alloc; unused; count]?;
        let generations = vec![in alloc; 0; count]?;
        let mut passes = Vec::with_capacity(alloc, shape.passes as usize)?;
        let Ok((table, mut seat)) = Table::of_words(alloc, words.as_slice(), &shape) else {
            passes.destroy_empty();
            return Err(Fault::Memory);
        };
        let table = FrameTable {
            table,
            shape,
            places,
            pages: count + (count + 1) * LINE_WORDS,
        };
        'seats: for i in 0..shape.passes {
            passes.push_reserved(table.make_pass(&mut seat));
        }
        let keeper = Keeper {
            seat,
            uses,
            generations,
        };
        Ok((table, keeper, passes))
    }

    #[tactic(auto, using(crate::proofs::Seatings::may_give))]
    fn take_back(&self, seat: &mut Seat<(), View>, pass: Pass)
        requires own { seat.old.table_id ≡ self.now.id }
        requires keeper { IsKeeper self.now.shape seat.old.me }
        requires out { 0 < (tally_in seat.old.me).out }
        requires pass { pass.table ≡ self.now }
        ensures seat { (seat.new.table_id ≡ seat.old.table_id) × (seat.new.id ≡ seat.old.id) }
        ensures one_less { seat.new.me ≡ keeps_ledger self.now.shape (ledger_in seat.old.me) (tally_of (tally_in seat.old.me).unmade ((tally_in seat.old.me).out - 1)) (keeper_log seat.old.me) (order_in seat.new.me) }
    {
        let Pass { seat: other } = pass;
        self.table.shared.join_seat::<GiveBack>(seat, other);
    }

    /// Ends the table, with its keeper and all its passes. Nobody holds a frame then: each count is the keeper's own
    /// references.
    pub fn close(self, keeper: Keeper, mut passes: Vec<Pass>) -> ClosedTable
        requires own { keeper.table ≡ self }
        requires all { vec_len passes ≡ self.shape.passes }
        requires passes { All (λ p. p.table ≡ self) passes.items }
        ensures shape { result.shape ≡ self.shape }
        ensures ends { Ends keeper.ledger result }
    {
        let Keeper {
            mut seat,
            uses,
            generations,
        } = keeper;
        drop(uses);
        drop(generations);
        'seats: while let Some(pass) = passes.pop() {
            self.take_back(&mut seat, pass);
        }
        passes.destroy_empty();
        let FrameTable {
            table,
            shape,
            places: _,
            pages: _,
        } = self;
        ClosedTable {
            closed: table.close_with(seat),
            shape,
        }
    }
}

// The steps of a reader.

impl FrameTable {
    pub(crate) fn load_place(&self, seat: &mut Seat<(), View>, place: u32) -> u64
        requires own { seat.old.table_id ≡ self.now.id }
        requires inside { place < frames_of self.now.shape }
        requires phase { IsIn self.now.shape Idle seat.old.me }
        ensures seat { (seat.new.table_id ≡ seat.old.table_id) × (seat.new.id ≡ seat.old.id) }
        ensures step { StepsNow (reader.LoadPlace place) seat.old.me result seat.new.me }
    {
        self.table.shared.load::<LoadPlace>(seat, place as usize)
    }

    // A frame is told here by where its word or its page stands, which a lookup finds once.

    pub(crate) fn load_frame(&self, seat: &mut Seat<(), View>, word: usize) -> u64
        requires own { seat.old.table_id ≡ self.now.id }
        requires inside { word < self.now.id.words }
        requires phase { (aim : Aim) × (failures : ℕ) × (frame_word_at (frames_of self.now.shape) aim.life.frame ≡ word) × IsIn self.now.shape (Placed aim failures) seat.old.me }
        ensures seat { (seat.new.table_id ≡ seat.old.table_id) × (seat.new.id ≡ seat.old.id) }
        ensures step { StepsNow reader.LoadFrame seat.old.me result seat.new.me }
    {
        self.table.shared.load::<LoadFrame>(seat, word)
    }

    // Raises the frame word by one, if it is still the one that was loaded. Answers the word found. It spends the
    // permit.
    pub(crate) fn exchange(
        &self,
        seat: &mut Seat<(), View>,
        word: usize,
        loaded: u64,
        _permit: Permit,
    ) -> u64
        requires own { seat.old.table_id ≡ self.now.id }
        requires inside { (word < self.now.id.words) × (loaded < frame_words) }
        requires phase { (aim : Aim) × (failures count : ℕ) × (frame_word_at (frames_of self.now.shape) aim.life.frame ≡ word) × (loaded ≡ frame_word aim.life.generation count) × IsIn self.now.shape (Counted aim failures count) seat.old.me }
        ensures seat { (seat.new.table_id ≡ seat.old.table_id) × (seat.new.id ≡ seat.old.id) }
        ensures step { StepsNow reader.Exchange seat.old.me result seat.new.me }
    {
        self.table
            .shared
            .compare_exchange::<Exchange>(seat, word, loaded, loaded + 1)
    }

    // Gives the reference back. Answers the frame word before.
    pub(crate) fn give_back(&self, seat: &mut Seat<(), View>, word: usize) -> u64
        requires own { seat.old.table_id ≡ self.now.id }
        requires inside { word < self.now.id.words }
        requires phase { IsHolder self.now.shape frame_word_at word seat.old.me }
        ensures seat { (seat.new.table_id ≡ seat.old.table_id) × (seat.new.id ≡ seat.old.id) }
        ensures step { StepsNow reader.Leave seat.old.me result seat.new.me }
    {
        self.table.shared.fetch_sub::<Leave>(seat, word, 1)
    }

    pub(crate) fn load_word(&self, seat: &mut Seat<(), View>, page: usize, i: usize) -> u64
        requires own { seat.old.table_id ≡ self.now.id }
        requires inside { (page + words_of_page ≤ self.now.id.words) × (i < words_of_page) }
        requires phase { IsHolder self.now.shape page_at page seat.old.me }
        ensures seat { (seat.new.table_id ≡ seat.old.table_id) × (seat.new.id ≡ seat.old.id) }
        ensures step { StepsNow (reader.LoadWord i) seat.old.me result seat.new.me }
    {
        self.table.shared.load::<LoadWord>(seat, page + i)
    }
}

// The steps of the keeper.

impl FrameTable {
    pub(crate) fn reap_at(&self, seat: &mut Seat<(), View>, frame: u32) -> u64
        requires { MayKeep self.now seat.old.table_id seat.old.me (keeper.Reap frame) }
        ensures seat { (seat.new.table_id ≡ seat.old.table_id) × (seat.new.id ≡ seat.old.id) }
        ensures step { Keeps (keeper.Reap frame) seat.old.me result seat.new.me }
    {
        self.table.shared.load::<Reap>(seat, self.frame_word(frame))
    }

    pub(crate) fn put_at(
        &self,
        seat: &mut Seat<(), View>,
        frame: u32,
        page: usize,
        i: usize,
        content: u64,
    )
        requires asks { MayKeep self.now seat.old.table_id seat.old.me (keeper.Put frame i content) }
        requires page { page ≡ page_at (frames_of self.now.shape) frame }
        ensures seat { (seat.new.table_id ≡ seat.old.table_id) × (seat.new.id ≡ seat.old.id) }
        ensures step { Keeps (keeper.Put frame i content) seat.old.me 0 seat.new.me }
    {
        self.table.shared.store::<Put>(seat, page + i, content);
    }

    pub(crate) fn raise_at(&self, seat: &mut Seat<(), View>, frame: u32) -> u64
        requires { MayKeep self.now seat.old.table_id seat.old.me (keeper.Raise frame) }
        ensures seat { (seat.new.table_id ≡ seat.old.table_id) × (seat.new.id ≡ seat.old.id) }
        ensures step { Keeps (keeper.Raise frame) seat.old.me result seat.new.me }
    {
        self.table
            .shared
            .fetch_add::<Raise>(seat, self.frame_word(frame), COUNT_SPAN)
    }

    pub(crate) fn open_at(&self, seat: &mut Seat<(), View>, frame: u32) -> u64
        requires { MayKeep self.now seat.old.table_id seat.old.me (keeper.Open frame) }
        ensures seat { (seat.new.table_id ≡ seat.old.table_id) × (seat.new.id ≡ seat.old.id) }
        ensures step { Keeps (keeper.Open frame) seat.old.me result seat.new.me }
    {
        self.table
            .shared
            .fetch_add::<Open>(seat, self.frame_word(frame), 1)
    }

    pub(crate) fn add_at(&self, seat: &mut Seat<(), View>, frame: u32) -> u64
        requires { MayKeep self.now seat.old.table_id seat.old.me (keeper.Add frame) }
        ensures seat { (seat.new.table_id ≡ seat.old.table_id) × (seat.new.id ≡ seat.old.id) }
        ensures step { Keeps (keeper.Add frame) seat.old.me result seat.new.me }
    {
        self.table
            .shared
            .fetch_add::<Add>(seat, self.frame_word(frame), 1)
    }

    pub(crate) fn sub_at(&self, seat: &mut Seat<(), View>, frame: u32) -> u64
        requires { MayKeep self.now seat.old.table_id seat.old.me (keeper.Sub frame) }
        ensures seat { (seat.new.table_id ≡ seat.old.table_id) × (seat.new.id ≡ seat.old.id) }
        ensures step { Keeps (keeper.Sub frame) seat.old.me result seat.new.me }
    {
        self.table
            .shared
            .fetch_sub::<Sub>(seat, self.frame_word(frame), 1)
    }

    pub(crate) fn publish_at(&self, seat: &mut Seat<(), View>, place: u32, frame: u32, name: u64)
        requires asks { MayKeep self.now seat.old.table_id seat.old.me (keeper.Publish place frame) }
        requires name { name ≡ word_of_frame (ledger_in seat.old.me) frame % 2 ^ 64 }
        ensures seat { (seat.new.table_id ≡ seat.old.table_id) × (seat.new.id ≡ seat.old.id) }
        ensures step { Keeps (keeper.Publish place frame) seat.old.me 0 seat.new.me }
    {
        self.table
            .shared
            .store::<Publish>(seat, place as usize, name);
    }

    pub(crate) fn replace_at(&self, seat: &mut Seat<(), View>, place: u32, frame: u32, name: u64)
        requires asks { MayKeep self.now seat.old.table_id seat.old.me (keeper.Replace place frame) }
        requires name { name ≡ word_of_frame (ledger_in seat.old.me) frame % 2 ^ 64 }
        ensures seat { (seat.new.table_id ≡ seat.old.table_id) × (seat.new.id ≡ seat.old.id) }
        ensures step { Keeps (keeper.Replace place frame) seat.old.me 0 seat.new.me }
    {
        self.table
            .shared
            .store::<Replace>(seat, place as usize, name);
    }

    pub(crate) fn withdraw_at(&self, seat: &mut Seat<(), View>, place: u32)
        requires { MayKeep self.now seat.old.table_id seat.old.me (keeper.Withdraw place) }
        ensures seat { (seat.new.table_id ≡ seat.old.table_id) × (seat.new.id ≡ seat.old.id) }
        ensures step { Keeps (keeper.Withdraw place) seat.old.me 0 seat.new.me }
    {
        self.table.shared.store::<Withdraw>(seat, place as usize, 0);
    }

    // Exchanges the frame word for one without a reference, if it is the one with the keeper's alone.
    pub(crate) fn freeze_at(
        &self,
        seat: &mut Seat<(), View>,
        frame: u32,
        alone: u64,
        none: u64,
    ) -> u64
        requires asks { MayKeep self.now seat.old.table_id seat.old.me (keeper.Freeze frame) }
        requires alone { alone ≡ frame_word (frame_at (ledger_in seat.old.me) frame).generation (frame_at (ledger_in seat.old.me) frame).base % 2 ^ 64 }
        requires none { none ≡ frame_word (frame_at (ledger_in seat.old.me) frame).generation 0 % 2 ^ 64 }
        ensures seat { (seat.new.table_id ≡ seat.old.table_id) × (seat.new.id ≡ seat.old.id) }
        ensures step { Keeps (keeper.Freeze frame) seat.old.me result seat.new.me }
    {
        self.table
            .shared
            .compare_exchange::<Freeze>(seat, self.frame_word(frame), alone, none)
    }

    pub(crate) fn word_at(
        &self,
        seat: &mut Seat<(), View>,
        frame: u32,
        page: usize,
        i: usize,
    ) -> u64
        requires asks { MayKeep self.now seat.old.table_id seat.old.me (keeper.Word frame i) }
        requires page { page ≡ page_at (frames_of self.now.shape) frame }
        ensures seat { (seat.new.table_id ≡ seat.old.table_id) × (seat.new.id ≡ seat.old.id) }
        ensures step { Keeps (keeper.Word frame i) seat.old.me result seat.new.me }
    {
        self.table.shared.load::<Word>(seat, page + i)
    }
}
