//! The state of the book, and the commands on single pages, with `prune` and `mergeable`. Each tests its refusals in
//! the order of the definitions, and then changes the pages and their frames.

ghost use Rattle.std.specs.Prelude.{◌≡◌, ◌≤◌, ◌||◌, ℕ, List, true, None, Some, IfOk, IfErr};
ghost use Rattle.ksm_book.specs.Terms.{bytes_of, change_row, counters_of, first_ledger, has_item, IsAlone, IsKnown, IsShape, IsSound, Memory, nowhere, opening, page_beside, row_at, stored};
ghost use Rattle.ksm_book.specs.Carried.{CarriesOut};
ghost use Rattle.ksm_book.specs.Whole.{view_of};
ghost use Rattle.ksm_book.specs.Keeping.{spent};
ghost use Rattle.ksm_book.specs.Laid.{LoadsIf};
ghost use Rattle.ksm_book.specs.Due.{CountsLater, names, so_far, TellsDue};
ghost use Rattle.ksm_book.specs.Promised.{FindsPlace, LieOn, NumbersAreSmall};

use crate::due::{Due, Reach};
use crate::frame_keeper::FrameKeeper;
use crate::frames::{is_used_up, load, release_if, take_frame, write};
use crate::stale::drop_stale;
use frame_table::{FrameTable, Keeper};
use ksm_base::{Command, Counters, Fault, GuestPage, PageBytes, Reply, Shape};
use ksm_pages::{Look, Pages, Spot};
use std::alloc::Global;
use std::marker::Model;

/// The rows and dups in their frames, the page visited last in this pass, a guess of how many visits led to it, and how
/// many passes have ended.
pub struct State {
    pub(crate) pages: Pages,
    pub(crate) keeper: FrameKeeper,
    pub(crate) cursor: Option<GuestPage>,
    pub(crate) visits: usize,
    pub(crate) passes: u64,
}

impl Model for State {
    ghost use Rattle.ksm_book.specs.Terms.{IsSound, seen};
    ghost use Rattle.ksm_book.specs.Whole.{BookValue};
    ghost use Rattle.ksm_book.specs.Laid.{IsLaid, state_of};

    ghost Value = { BookValue };

    ghost view = { λ s. record {
      state = state_of (seen s.pages) s.cursor s.passes;
      lodgings = s.pages.lodgings;
      keeper = s.keeper;
    } };

    ghost invariant = { λ s. IsSound (state_of (seen s.pages) s.cursor s.passes) × IsLaid (seen s.pages) s.keeper };
}

impl State {
    /// The opening state, in the frames of a keeper that has made no step. Refused for memory alone, it gives the
    /// keeper back.
    pub fn open(alloc: Global, keeper: Keeper, shape: Shape) -> Result<State, (Keeper, Fault)>
        requires shape { IsShape shape }
        requires same { keeper.table.shape ≡ shape }
        requires new { keeper.ledger ≡ first_ledger shape }
        ensures opened { IfOk result (λ s. view_of s ≡ record {
          state = opening shape;
          frame = nowhere;
          keeper = keeper;
        }) }
        ensures refused { IfErr result (λ e. (e.0 ≡ keeper) × (e.1 ≡ Memory)) }
    {
        let keeper = FrameKeeper::new(alloc, keeper, shape.frames())?;
        match Pages::open(alloc, shape) {
            Ok(pages) => Ok(State {
                pages,
                keeper,
                cursor: None,
                visits: 0,
                passes: 0,
            }),
            Err(fault) => Err((keeper.close(), fault)),
        }
    }

    /// Gives the keeper back, as it is.
    pub fn close(self) -> Keeper
        ensures { result ≡ self.keeper }
    {
        let State {
            pages: _pages,
            keeper,
            cursor: _,
            visits: _,
            passes: _,
        } = self;
        keeper.close()
    }

    /// A law: the facts of the book state, and how its rows and dups lie in the frames.
    pub fn lies_lawfully(&self)
        ensures sound { IsSound self.now.state }
        ensures lives { self.now.state.next ≤ spent self.now.keeper.ledger }
    {
        self.pages.lie_in_order();
    }

    /// A law: the same of the state as it is where a pass over what is due has gone so far.
    pub fn lies_so_far(&self, reach: Reach)
        ensures sound { IsSound (so_far reach self.now.state) }
        ensures placed { LieOn (so_far reach self.now.state) (view_of self.now).frame self.now.keeper.ledger }
        ensures place { FindsPlace (so_far reach self.now.state) }
        ensures numbers { NumbersAreSmall self.now.state }
    {
        let _ = reach;
        self.pages.lie_in_order();
    }

    /// The bytes of a page, loaded from the words of its frame, if it has one.
    #[tactic(auto, using(crate::proofs::Carried::part_did, crate::proofs::Carried::quiet_loads))]
    pub fn read(&mut self, table: &FrameTable, page: GuestPage) -> Option<PageBytes>
        requires own { self.old.keeper.table ≡ table.now }
        ensures own { self.new.keeper.table ≡ self.old.keeper.table }
        ensures bytes { result ≡ bytes_of page self.old.state }
        ensures state { self.new.state ≡ self.old.state }
        ensures frame { (view_of self.new).frame ≡ (view_of self.old).frame }
        ensures loads { LoadsIf ((view_of self.old).frame page) result self.old.keeper self.new.keeper }
    {
        let (spot, frame) = self.pages.located(page)?;
        match frame {
            Some(frame) => Some(load(&mut self.keeper, table, frame)),
            None => Some(*self.pages.bytes(spot)),
        }
    }

    /// Registers a page: its row is added, on a frame of the node.
    pub fn register(
        &mut self,
        table: &FrameTable,
        page: GuestPage,
        node: u32,
        bytes: &PageBytes,
    ) -> Result<Reply, Fault>
        requires own { self.old.keeper.table ≡ table.now }
        ensures { CarriesOut self.old self.new (Command.Register page node bytes.now) result }
    {
        let shape = self.pages.shape();
        if node >= shape.nodes {
            return Err(Fault::BadNode);
        }
        if is_used_up(&self.keeper, shape, node) {
            if self.pages.has(page) {
                return Err(Fault::AlreadyRegistered);
            }
            return Err(Fault::NoFrame(node));
        }
        let spot = self.pages.insert(page, node, bytes)?;
        let Some(frame) = take_frame(&mut self.keeper, table, shape, node, bytes) else {
            self.pages.remove(spot);
            return Err(Fault::NoFrame(node));
        };
        self.pages.lay(spot, frame);
        Ok(Reply::Done)
    }

    /// Stores bytes to a page: in place where it has a frame of its own, else in a copy on its home. A page that waited
    /// is due then, and so is one that was merged or Zero, with what may join its dup then.
    pub fn store(
        &mut self,
        table: &FrameTable,
        due: &mut Due,
        page: GuestPage,
        bytes: &PageBytes,
    ) -> Result<Reply, Fault>
        requires own { self.old.keeper.table ≡ table.now }
        requires due { TellsDue due.old self.old.state }
        requires later { CountsLater due.old self.old.state }
        ensures carried { CarriesOut self.old self.new (Command.Store page bytes.now) result }
        ensures due { TellsDue due.new self.new.state }
        ensures later { CountsLater due.new self.new.state }
        ensures reach { due.new.reach ≡ due.old.reach }
    {
        let held = match self.pages.look(page) {
            Some(Look::Private(spot, frame)) => {
                self.pages.store(spot, bytes);
                write(&mut self.keeper, table, frame, bytes);
                return Ok(Reply::Done);
            }
            Some(Look::Other(held)) => held,
            None => return Err(Fault::UnknownPage),
        };
        if held.shared {
            self.note_break(due, held.spot);
            let shape = self.pages.shape();
            let Some(frame) = take_frame(&mut self.keeper, table, shape, held.home, bytes) else {
                return Err(Fault::NoFrame(held.home));
            };
            let left = self.pages.store_on(held.spot, frame, bytes);
            release_if(&mut self.keeper, table, left);
            return Ok(Reply::Done);
        }
        self.note_store(due, held.spot);
        let Some(frame) = held.own else {
            unreachable!()
        };
        write(&mut self.keeper, table, frame, bytes);
        self.pages.store(held.spot, bytes);
        Ok(Reply::Done)
    }

    // Bytes are about to be stored to a page with a frame of its own. If it waits, it is due from now on.
    #[inline(always)]
    fn note_store(&self, due: &mut Due, spot: Spot)
        requires own { IsAlone spot.page self.now.state.rows }
        requires due { TellsDue due.old self.now.state }
        requires later { CountsLater due.old self.now.state }
        ensures reach { due.new.reach ≡ due.old.reach }
        ensures due { (bytes : List ℕ) → TellsDue due.new (record self.now.state {
          rows = change_row spot.page (stored bytes) self.now.state.rows;
        }) }
        ensures later { (bytes : List ℕ) → CountsLater due.new (record self.now.state {
          rows = change_row spot.page (stored bytes) self.now.state.rows;
        }) }
    {
        if self.pages.waits(spot) {
            due.add(spot);
            due.lose_waiting(spot.page);
        }
    }

    // Bytes are about to be stored to a page that is merged or Zero. It is due from now on, with what may join its dup.
    #[inline(always)]
    fn note_break(&self, due: &mut Due, spot: Spot)
        requires known { IsKnown spot.page self.now.state.rows }
        requires due { TellsDue due.old self.now.state }
        ensures rest { (due.new.reach ≡ due.old.reach) × (due.new.later ≡ due.old.later) }
        ensures kept { TellsDue due.new self.now.state }
        ensures broken { (bytes : List ℕ) → TellsDue due.new (record self.now.state {
          rows = change_row spot.page (stored bytes) self.now.state.rows;
        }) }
    {
        if !due.is_known() {
            return;
        }
        self.lies_lawfully();
        self.note_leaving(due, spot);
        due.add(spot);
    }

    // A page is about to leave its dup, if it is merged. What waits with its bytes, one page at most, may join that dup
    // then, where it was full, and is due from now on.
    pub(crate) fn note_leaving(&self, due: &mut Due, spot: Spot)
        ensures rest { (due.new.reach ≡ due.old.reach) × (due.new.later ≡ due.old.later) }
        ensures left { due.new.known ≡ true → (due.old.known ≡ true) × ((page : GuestPage)
            → let state = self.now.state in has_item page due.new.pages
            ≡ (names page (page_beside state.knobs state.rows (row_at spot.page state.rows))
            || has_item page due.old.pages)) }
    {
        if !due.is_known() {
            return;
        }
        match self.pages.waiting_beside(spot) {
            Some(waiting) => due.add(waiting),
            None => {}
        }
    }

    /// Drops a page: its row goes, and so does its reference on a frame.
    pub fn drop_page(&mut self, table: &FrameTable, page: GuestPage) -> Result<Reply, Fault>
        requires own { self.old.keeper.table ≡ table.now }
        ensures { CarriesOut self.old self.new (Command.Drop page) result }
    {
        let Some(held) = self.pages.held(page) else {
            return Err(Fault::UnknownPage);
        };
        let left = self.pages.remove(held.spot);
        release_if(&mut self.keeper, table, left);
        Ok(Reply::Done)
    }

    /// The counters.
    pub fn counters(&self) -> Counters
        ensures { result ≡ counters_of self.now.state }
    {
        self.pages.counters(self.passes)
    }

    /// The counters as they are where a pass over what is due has gone so far.
    pub fn counters_so_far(&self, due: &Due) -> Counters
        requires { CountsLater due.now self.now.state }
        ensures { result ≡ counters_of (so_far due.now.reach self.now.state) }
    {
        self.lies_lawfully();
        // Called for its contract alone: the number of mergeable pages fits 64 bits.
        let _ = self.pages.mergeable();
        let later = due.later() as u64;
        let counters = self.counters();
        Counters {
            unshared: counters.unshared.saturating_sub(later),
            volatile: counters.volatile.saturating_add(later),
            ..counters
        }
    }

    /// All stale dups go.
    pub fn prune(&mut self, table: &FrameTable) -> Result<Reply, Fault>
        requires own { self.old.keeper.table ≡ table.now }
        ensures { CarriesOut self.old self.new Command.Prune result }
    {
        let count = drop_stale(&mut self.pages, &mut self.keeper, table);
        Ok(Reply::Pruned(count))
    }

    /// Moves a page to a node.
    pub fn move_page(
        &mut self,
        table: &FrameTable,
        page: GuestPage,
        node: u32,
    ) -> Result<Reply, Fault>
        requires own { self.old.keeper.table ≡ table.now }
        ensures { CarriesOut self.old self.new (Command.MovePage page node) result }
    {
        if node >= self.pages.shape().nodes {
            return Err(Fault::BadNode);
        }
        let Some(held) = self.pages.held(page) else {
            return Err(Fault::UnknownPage);
        };
        if held.home == node {
            return Ok(Reply::Done);
        }
        let bytes = self.pages.bytes(held.spot);
        let shape = self.pages.shape();
        let Some(frame) = take_frame(&mut self.keeper, table, shape, node, bytes) else {
            return Err(Fault::NoFrame(node));
        };
        let left = self.pages.move_on(held.spot, frame, node);
        release_if(&mut self.keeper, table, left);
        Ok(Reply::Done)
    }
}
