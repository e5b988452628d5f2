//! The keeper gives frames, names them at places, and takes them back. Each call that changes something is one atomic
//! step (own).
ghost use Rattle.std.specs.Prelude.{◌≡◌, ◌<◌, ℕ, ◌↔◌, IsTrue, List, length, map, slice_index, slice_index_or, slice_set};
ghost use Rattle.frame_core.specs.declared.event.KeeperStep.TheVariants.{Reap, Put, Raise, Open, Add, Sub, Publish, Replace, Withdraw, Freeze, Word};
ghost use Rattle.frame_core.specs.Ledger.{blank, frame_at};
ghost use Rattle.frame_core.specs.State.{frame_word, count_in};
ghost use Rattle.frame_core.specs.Words.{page_at};
ghost use Rattle.ksm_base.specs.Values.{frames_of};
ghost use Rattle.frame_core.specs.declared.ledger.Note.{Note};
ghost use Rattle.frame_table.specs.Kept.{May, did, Did};
ghost use Rattle.frame_table.specs.Notes.{generation_of, kept_of, use_of};
ghost use Rattle.frame_table.specs.Views.{IsKeeper, ledger_in, keeper_log};

use crate::table::FrameTable;
use crate::view::View;
use atomic_table::Seat;
use frame_core::{FrameWord, Kind, Life};
use std::marker::Model;
use std::mem::ManuallyDrop;

/// The note of a frame without its content, which stands in the words of the table.
#[derive(Clone, Copy)]
pub(crate) struct Kept {
    pub(crate) kind: Kind,
    pub(crate) base: u16,
    pub(crate) generation: u64,
}

/// The part of a note that lies apart from the generation, so that both take twelve bytes a frame.
#[derive(Clone, Copy)]
pub(crate) struct Use {
    pub(crate) kind: Kind,
    pub(crate) base: u16,
}

/// The keeper's seat, with what it knows of each frame. Contracts see which table it is of, the ledger and the log.
///
/// It must be spent, by closing the table.
pub struct Keeper {
    pub(crate) seat: Seat<(), View>,
    pub(crate) uses: Vec<Use>,
    pub(crate) generations: Vec<u64>,
}

impl Model for Keeper {
    ghost use Rattle.std.specs.Prelude.{◌≡◌, length, map};
    ghost use Rattle.ksm_base.specs.Values.{frames_of};
    ghost use Rattle.frame_table.specs.Named.{KeeperView};
    ghost use Rattle.frame_table.specs.Notes.{generation_of, use_of};
    ghost use Rattle.frame_table.specs.Views.{keeps_ledger, shape_in, ledger_in, keeper_log, order_in, tally_of};

    ghost Value = { KeeperView };

    ghost view = { λ q. record { table = record { id = q.seat.table_id; shape = shape_in q.seat.me }; ledger = ledger_in q.seat.me; log = keeper_log q.seat.me } };

    ghost invariant = { λ q. record {
      seat : q.seat.me ≡ keeps_ledger (shape_in q.seat.me) (ledger_in q.seat.me) (tally_of 0 (shape_in q.seat.me).passes) (keeper_log q.seat.me) (order_in q.seat.me);
      uses : q.uses.items ≡ map use_of (ledger_in q.seat.me).frames;
      generations : q.generations.items ≡ map generation_of (ledger_in q.seat.me).frames;
      long : length q.uses.items ≡ frames_of (shape_in q.seat.me);
      as_long : length q.generations.items ≡ frames_of (shape_in q.seat.me);
    } };
}

// What is kept of a frame.
#[tactic(auto, using(crate::proofs::Notes::uses_get, crate::proofs::Notes::generations_get))]
fn note(uses: &Vec<Use>, generations: &Vec<u64>, frame: u32) -> Kept
    requires uses { frame < length uses.now.items }
    requires generations { frame < length generations.now.items }
    ensures { (notes : List Note) → uses.now.items ≡ map use_of notes → generations.now.items ≡ map generation_of notes
        → result ≡ kept_of (slice_index_or notes frame blank) }
{
    let Use { kind, base } = uses[frame as usize];
    Kept {
        kind,
        base,
        generation: generations[frame as usize],
    }
}

// Writes down what is known of a frame from now on: field by field, so that the bytes between them are not moved too,
// and the generation first, so that what stays as it was read is not stored.
#[tactic(auto, using(crate::proofs::Notes::uses_set, crate::proofs::Notes::generations_set))]
fn write_down(uses: &mut Vec<Use>, generations: &mut Vec<u64>, frame: u32, note: Kept)
    requires uses { frame < length uses.old.items }
    requires generations { frame < length generations.old.items }
    ensures uses { (notes : List Note) (x : Note) → uses.old.items ≡ map use_of notes → kept_of x ≡ note → uses.new.items ≡ map use_of (slice_set notes frame x) }
    ensures generations { (notes : List Note) (x : Note) → generations.old.items ≡ map generation_of notes → kept_of x ≡ note → generations.new.items ≡ map generation_of (slice_set notes frame x) }
{
    generations[frame as usize] = note.generation;
    let kept = &mut uses[frame as usize];
    kept.kind = note.kind;
    kept.base = note.base;
}

// Writes down that a frame is filled from now on, in a life. What it has of references stays, and is not stored.
#[tactic(auto, using(crate::proofs::Notes::uses_get, crate::proofs::Notes::uses_set, crate::proofs::Notes::generations_set))]
fn fill(uses: &mut Vec<Use>, generations: &mut Vec<u64>, frame: u32, generation: u64)
    requires uses { frame < length uses.old.items }
    requires generations { frame < length generations.old.items }
    ensures uses { (notes : List Note) (x : Note) → uses.old.items ≡ map use_of notes
        → use_of x ≡ record (use_of (slice_index_or notes frame blank)) { kind = Kind.Filling }
        → uses.new.items ≡ map use_of (slice_set notes frame x) }
    ensures generations { (notes : List Note) (x : Note) → generations.old.items ≡ map generation_of notes
        → generation_of x ≡ generation → generations.new.items ≡ map generation_of (slice_set notes frame x) }
{
    generations[frame as usize] = generation;
    uses[frame as usize].kind = Kind::Filling;
}

impl Keeper {
    /// The keeper's seat. It is of the keeper's table, and its view, which is among the views of that table's rule, has
    /// the ledger and the log.
    pub fn seat(&self) -> &Seat<(), View>
        ensures own { result.now.table_id ≡ self.now.table.id }
        ensures view { IsKeeper self.now.table.shape result.now.me × (ledger_in result.now.me ≡ self.now.ledger) × (keeper_log result.now.me ≡ self.now.log) }
    {
        &self.seat
    }

    /// What the keeper uses a frame for.
    pub fn kind(&self, frame: u32) -> Kind
        requires { frame < frames_of self.now.table.shape }
        ensures { result ≡ (frame_at self.now.ledger frame).kind }
    {
        self.uses[frame as usize].kind
    }

    /// How many references on a frame are the keeper's own: 0 to `MOST_REFERENCES`.
    pub fn base(&self, frame: u32) -> u64
        requires { frame < frames_of self.now.table.shape }
        ensures { result ≡ (frame_at self.now.ledger frame).base }
    {
        u64::from(self.uses[frame as usize].base)
    }

    /// How many times a frame was given: the life that it is in, or was in last.
    pub fn generation(&self, frame: u32) -> u64
        requires { frame < frames_of self.now.table.shape }
        ensures { result ≡ (frame_at self.now.ledger frame).generation }
    {
        self.generations[frame as usize]
    }

    // The life that a frame is in.
    fn life(&self, frame: u32) -> Life
        requires { frame < frames_of self.now.table.shape }
        ensures frame { result.frame ≡ frame }
        ensures generation { result.generation ≡ (frame_at self.now.ledger frame).generation }
    {
        Life {
            frame,
            generation: self.generation(frame),
        }
    }

    /// Takes one reference more on a frame on which the keeper has 1 to `MOST_REFERENCES - 1`.
    pub fn add(&mut self, table: &FrameTable, frame: u32)
        requires own { self.old.table ≡ table.now }
        requires may { May self.old (Add frame) }
        ensures { Did self.old (Add frame) self.new }
    {
        table.add_at(&mut self.seat, frame);
        let mut note = note(&self.uses, &self.generations, frame);
        note.base += 1;
        write_down(&mut self.uses, &mut self.generations, frame, note);
    }

    /// Gives one of its references back. With the last one the frame is Dying.
    pub fn sub(&mut self, table: &FrameTable, frame: u32)
        requires own { self.old.table ≡ table.now }
        requires may { May self.old (Sub frame) }
        ensures { Did self.old (Sub frame) self.new }
    {
        table.sub_at(&mut self.seat, frame);
        let mut note = note(&self.uses, &self.generations, frame);
        if note.base == 1 {
            note.kind = Kind::Dying;
        }
        note.base -= 1;
        write_down(&mut self.uses, &mut self.generations, frame, note);
    }

    /// Loads the frame word of a dying frame, and answers whether its count was 0. If so, the frame is Free, or Retired
    /// after its last life; else it stays Dying, since a reader still has a reference.
    pub fn reap(&mut self, table: &FrameTable, frame: u32) -> bool
        requires own { self.old.table ≡ table.now }
        requires may { May self.old (Reap frame) }
        ensures { (found : ℕ) × (self.new ≡ did self.old (Reap frame) found) × (IsTrue result ↔ count_in found ≡ 0) }
    {
        if FrameWord::unpack(table.reap_at(&mut self.seat, frame)).count != 0 {
            return false;
        }
        let mut note = note(&self.uses, &self.generations, frame);
        note.base = 0;
        note.kind = if note.generation == table.shape.last_generation {
            Kind::Retired
        } else {
            Kind::Free
        };
        write_down(&mut self.uses, &mut self.generations, frame, note);
        true
    }

    /// Gives a free frame its next life. It is Filling then, and its words may be stored.
    pub fn raise(&mut self, table: &FrameTable, frame: u32)
        requires own { self.old.table ≡ table.now }
        requires may { May self.old (Raise frame) }
        ensures step { Did self.old (Raise frame) self.new }
        ensures filling { (frame_at self.new.ledger frame).kind ≡ Kind.Filling }
    {
        let before = FrameWord::unpack(table.raise_at(&mut self.seat, frame));
        fill(
            &mut self.uses,
            &mut self.generations,
            frame,
            before.generation + 1,
        );
    }

    /// Stores the word `i` of a frame that is Filling or Private.
    pub fn put(&mut self, table: &FrameTable, frame: u32, i: usize, word: u64)
        requires own { self.old.table ≡ table.now }
        requires may { May self.old (Put frame i word) }
        ensures { self.new ≡ did self.old (Put frame i word) 0 }
    {
        self.put_on(table, frame, table.page(frame), i, word);
    }

    /// The same, where it is known where the frame's page begins (`FrameTable::page`).
    pub fn put_on(&mut self, table: &FrameTable, frame: u32, page: usize, i: usize, word: u64)
        requires own { self.old.table ≡ table.now }
        requires may { May self.old (Put frame i word) }
        requires page { page ≡ page_at (frames_of table.now.shape) frame }
        ensures { self.new ≡ did self.old (Put frame i word) 0 }
    {
        table.put_at(&mut self.seat, frame, page, i, word);
    }

    /// Opens a frame that was filled: it is Private, with one reference of the keeper.
    pub fn open(&mut self, table: &FrameTable, frame: u32)
        requires own { self.old.table ≡ table.now }
        requires may { May self.old (Open frame) }
        ensures { self.new ≡ did self.old (Open frame) (frame_word (frame_at self.old.ledger frame).generation 0) }
    {
        table.open_at(&mut self.seat, frame);
        let mut note = note(&self.uses, &self.generations, frame);
        note.kind = Kind::Private;
        note.base = 1;
        write_down(&mut self.uses, &mut self.generations, frame, note);
    }

    /// Names a private frame, in its life, at a place that is empty or names a frame that is not Stable in the life
    /// named. The frame is Stable then: lookups of the place may hold it, and its words stay as they are until its life
    /// ends.
    pub fn publish(&mut self, table: &FrameTable, place: u32, frame: u32)
        requires own { self.old.table ≡ table.now }
        requires may { May self.old (Publish place frame) }
        ensures { self.new ≡ did self.old (Publish place frame) 0 }
    {
        let name = self.life(frame);
        table.publish_at(&mut self.seat, place, frame, name.word());
        let mut note = note(&self.uses, &self.generations, frame);
        note.kind = Kind::Stable;
        write_down(&mut self.uses, &mut self.generations, frame, note);
    }

    /// Names a private frame, in its life, at a place that names another which is Stable in the life named: by one
    /// store, so a lookup of the place finds the one or the other, never nothing. The new frame is Stable then. The old
    /// one stays Stable, with the references that the keeper has on it, and is named there no more.
    pub fn replace(&mut self, table: &FrameTable, place: u32, frame: u32)
        requires own { self.old.table ≡ table.now }
        requires may { May self.old (Replace place frame) }
        ensures { self.new ≡ did self.old (Replace place frame) 0 }
    {
        let name = self.life(frame);
        table.replace_at(&mut self.seat, place, frame, name.word());
        let mut note = note(&self.uses, &self.generations, frame);
        note.kind = Kind::Stable;
        write_down(&mut self.uses, &mut self.generations, frame, note);
    }

    /// Empties a place that is empty or names a frame that is not Stable in the life named.
    pub fn withdraw(&mut self, table: &FrameTable, place: u32)
        requires own { self.old.table ≡ table.now }
        requires may { May self.old (Withdraw place) }
        ensures { self.new ≡ did self.old (Withdraw place) 0 }
    {
        table.withdraw_at(&mut self.seat, place);
    }

    /// Takes all of the keeper's references on a stable frame back, if nobody else has one, and answers whether it did.
    /// If so, the frame is Dying; else nothing has changed.
    pub fn freeze(&mut self, table: &FrameTable, frame: u32) -> bool
        requires own { self.old.table ≡ table.now }
        requires may { May self.old (Freeze frame) }
        ensures { (found : ℕ) × (self.new ≡ did self.old (Freeze frame) found) × (IsTrue result ↔ count_in found ≡ (frame_at self.old.ledger frame).base) }
    {
        let generation = self.generation(frame);
        let count = self.base(frame);
        let alone = FrameWord { generation, count }.pack();
        let none = FrameWord {
            generation,
            count: 0,
        }
        .pack();
        if table.freeze_at(&mut self.seat, frame, alone, none) != alone {
            return false;
        }
        let mut note = note(&self.uses, &self.generations, frame);
        note.kind = Kind::Dying;
        note.base = 0;
        write_down(&mut self.uses, &mut self.generations, frame, note);
        true
    }

    /// Loads the word `i` of a frame that is Private, Stable or Dying.
    pub fn word(&mut self, table: &FrameTable, frame: u32, i: usize) -> u64
        requires own { self.old.table ≡ table.now }
        requires may { May self.old (Word frame i) }
        ensures step { self.new ≡ did self.old (Word frame i) result }
        ensures content { result ≡ slice_index (frame_at self.old.ledger frame).content i }
    {
        self.word_on(table, frame, table.page(frame), i)
    }

    /// The same, where it is known where the frame's page begins (`FrameTable::page`).
    pub fn word_on(&mut self, table: &FrameTable, frame: u32, page: usize, i: usize) -> u64
        requires own { self.old.table ≡ table.now }
        requires may { May self.old (Word frame i) }
        requires page { page ≡ page_at (frames_of table.now.shape) frame }
        ensures step { self.new ≡ did self.old (Word frame i) result }
        ensures content { result ≡ slice_index (frame_at self.old.ledger frame).content i }
    {
        table.word_at(&mut self.seat, frame, page, i)
    }

    /// Ends the keeper where its table is not closed, as where passes are in other hands for good: its notes are freed,
    /// and no step of a keeper is made any more. The table and its words stay as they are.
    pub fn retire(self) {
        let Keeper {
            seat,
            uses,
            generations,
        } = self;
        drop(uses);
        drop(generations);
        let _kept_for_good = unsafe { ManuallyDrop::new_unchecked(seat) };
    }
}
