//! The keeper with the sets of its free and of its dying frames, so that neither is looked for frame by frame.

ghost use Rattle.std.specs.Prelude.{◌≡◌, ◌<◌, ◌≤◌, ℕ, ◌↔◌, IfErr, IfOk, IsTrue, MatchOption, slice_index};
ghost use Rattle.ksm_book.specs.Terms.{Add, count_in, Did, did, first_ledger, frame_at, frame_word, frames_of, Freeze, IsShape, May, Memory, Open, page_at, Publish, Put, Raise, Reap, Sub, Withdraw, Word};
ghost use Rattle.ksm_book.specs.Keeping.{MayLeave};
ghost use Rattle.ksm_book.specs.Steps.{NoneOf, IsFirstOf, free_kind, dying_kind};

use frame_core::Kind;
use frame_table::{FrameTable, Keeper};
use ksm_base::Fault;
use ksm_tree::NumberSet;
use std::alloc::Global;
use std::marker::Model;

/// The keeper of the frames, with the sets of those that are free and of those that are dying. Contracts see the
/// keeper.
///
/// It must be spent, by taking the keeper out.
pub struct FrameKeeper {
    keeper: Keeper,
    free: NumberSet,
    dying: NumberSet,
}

impl Model for FrameKeeper {
    ghost use Rattle.ksm_book.specs.Terms.{KeeperView};
    ghost use Rattle.ksm_book.specs.Keeping.{AreSets};

    ghost Value = { KeeperView };

    ghost view = { λ k. k.keeper };

    ghost invariant = { λ k. AreSets k.keeper k.free k.dying };
}

impl FrameKeeper {
    /// Begins with a keeper that has made no step: all frames are free, none is dying. Refused for memory alone, it
    /// gives the keeper back.
    #[tactic(auto, using(crate::proofs::Laying::first_note))]
    pub fn new(alloc: Global, keeper: Keeper, frames: u32) -> Result<FrameKeeper, (Keeper, Fault)>
        requires checked { IsShape keeper.table.shape }
        requires all { frames ≡ frames_of keeper.table.shape }
        requires new { keeper.ledger ≡ first_ledger keeper.table.shape }
        ensures begun { IfOk result (λ k. k ≡ keeper) }
        ensures refused { IfErr result (λ e. (e.0 ≡ keeper) × (e.1 ≡ Memory)) }
    {
        let free = match NumberSet::full(alloc, frames) {
            Ok(free) => free,
            Err(fault) => return Err((keeper, fault)),
        };
        match NumberSet::empty(alloc, frames) {
            Ok(dying) => Ok(FrameKeeper {
                keeper,
                free,
                dying,
            }),
            Err(fault) => Err((keeper, fault)),
        }
    }

    /// Gives the keeper back, as it is.
    pub fn close(self) -> Keeper
        ensures { result ≡ self }
    {
        let FrameKeeper {
            keeper,
            free: _free,
            dying: _dying,
        } = self;
        keeper
    }

    /// The first dying one of the frames from `from` on and below `end`.
    pub fn next_dying(&self, from: u32, end: u32) -> Option<u32>
        requires { end ≤ frames_of self.now.table.shape }
        ensures { MatchOption result
            (NoneOf dying_kind self.now.ledger from end)
            (IsFirstOf dying_kind self.now.ledger from end) }
    {
        self.dying.least(from, end)
    }

    /// The first free one of the frames from `from` on and below `end`.
    pub fn next_free(&self, from: u32, end: u32) -> Option<u32>
        requires { end ≤ frames_of self.now.table.shape }
        ensures { MatchOption result
            (NoneOf free_kind self.now.ledger from end)
            (IsFirstOf free_kind self.now.ledger from end) }
    {
        self.free.least(from, end)
    }

    /// How many references on a frame are the keeper's own: 0 to `MOST_REFERENCES`.
    pub fn base(&self, frame: u32) -> u64
        requires { frame < frames_of self.now.table.shape }
        ensures { result ≡ (frame_at self.now.ledger frame).base }
    {
        self.keeper.base(frame)
    }

    // The calls that follow hand a step to the keeper. Where that may turn the kind of the frame, it is marked in the
    // sets that it may have left or entered.

    /// One reference more on a frame.
    pub fn add(&mut self, table: &FrameTable, frame: u32)
        requires own { self.old.table ≡ table.now }
        requires may { May self.old (Add frame) }
        ensures { Did self.old (Add frame) self.new }
    {
        self.keeper.add(table, frame);
    }

    /// One reference less on a frame. With the last it is dying.
    #[tactic(auto, using(crate::proofs::Made::put_there, crate::proofs::Made::other_if))]
    pub fn sub(&mut self, table: &FrameTable, frame: u32)
        requires own { self.old.table ≡ table.now }
        requires may { MayLeave self.old frame }
        ensures { Did self.old (Sub frame) self.new }
    {
        self.keeper.sub(table, frame);
        // With a reference left, it is of the kind that it was.
        if self.keeper.base(frame) == 0 {
            self.dying.add(frame);
        }
    }

    /// Looks whether readers still hold a dying frame: where none does it is free, or retired after its last life. Says
    /// whether none did.
    #[inline(always)]
    pub fn reap(&mut self, table: &FrameTable, frame: u32) -> bool
        requires own { self.old.table ≡ table.now }
        requires may { May self.old (Reap frame) }
        ensures { (found : ℕ) × (self.new ≡ did self.old (Reap frame) found) × (IsTrue result ↔ count_in found ≡ 0) }
    {
        let alone = self.keeper.reap(table, frame);
        if alone {
            self.dying.remove(frame);
            self.free
                .mark(frame, matches!(self.keeper.kind(frame), Kind::Free));
        }
        alone
    }

    /// Takes a free frame into its next life, to be filled.
    #[tactic(auto, using(crate::proofs::Made::put_there))]
    pub fn raise(&mut self, table: &FrameTable, frame: u32)
        requires own { self.old.table ≡ table.now }
        requires may { May self.old (Raise frame) }
        ensures { Did self.old (Raise frame) self.new }
    {
        self.keeper.raise(table, frame);
        // It was free, and not dying.
        self.free.remove(frame);
    }

    /// Stores a word of a frame, whose page begins there.
    pub fn put(&mut self, table: &FrameTable, frame: u32, page: usize, i: usize, word: u64)
        requires own { self.old.table ≡ table.now }
        requires may { May self.old (Put frame i word) }
        requires page { page ≡ page_at (frames_of table.now.shape) frame }
        ensures { self.new ≡ did self.old (Put frame i word) 0 }
    {
        self.keeper.put_on(table, frame, page, i, word);
    }

    /// Makes a frame that was filled the page's own, with one reference.
    pub fn open(&mut self, table: &FrameTable, frame: u32)
        requires own { self.old.table ≡ table.now }
        requires may { May self.old (Open frame) }
        ensures { self.new ≡ did self.old (Open frame) (frame_word (frame_at self.old.ledger frame).generation 0) }
    {
        self.keeper.open(table, frame);
    }

    /// A place names the frame from now on, in its life.
    pub fn publish(&mut self, table: &FrameTable, place: u32, frame: u32)
        requires own { self.old.table ≡ table.now }
        requires may { May self.old (Publish place frame) }
        ensures { self.new ≡ did self.old (Publish place frame) 0 }
    {
        self.keeper.publish(table, place, frame);
    }

    /// A place names no frame any more.
    pub fn withdraw(&mut self, table: &FrameTable, place: u32)
        requires own { self.old.table ≡ table.now }
        requires may { May self.old (Withdraw place) }
        ensures { self.new ≡ did self.old (Withdraw place) 0 }
    {
        self.keeper.withdraw(table, place);
    }

    /// Tries to take all references from a shown frame, which is dying then. Says whether no reader held it; where one
    /// did, nothing changes.
    #[tactic(auto, using(crate::proofs::Made::put_there, crate::proofs::Made::other_if))]
    pub fn freeze(&mut self, table: &FrameTable, frame: u32) -> bool
        requires own { self.old.table ≡ table.now }
        requires may { May self.old (Freeze frame) }
        ensures { (found : ℕ) × (self.new ≡ did self.old (Freeze frame) found)
            × (IsTrue result ↔ count_in found ≡ (frame_at self.old.ledger frame).base) }
    {
        let alone = self.keeper.freeze(table, frame);
        if alone {
            self.dying.add(frame);
        }
        alone
    }

    /// Loads a word of a frame, whose page begins there.
    pub fn word(&mut self, table: &FrameTable, frame: u32, page: usize, i: usize) -> u64
        requires own { self.old.table ≡ table.now }
        requires may { May self.old (Word frame i) }
        requires page { page ≡ page_at (frames_of table.now.shape) frame }
        ensures step { self.new ≡ did self.old (Word frame i) result }
        ensures content { result ≡ slice_index (frame_at self.old.ledger frame).content i }
    {
        self.keeper.word_on(table, frame, page, i)
    }
}
