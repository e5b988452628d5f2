//! The rows: each in a slab under a key, with the order of their pages, those that a visit of the scan may change, and
//! how many there are of each state.
//!
//! A key is told as a guess, or comes from a table of guesses by slots of pages (`slot.rt`). Where it is right no
//! search is made; where it is wrong the page is searched for in the order. `settle_all` writes no row. `unshare_all`
//! and `set_by_node` walk over all.

ghost use Rattle.std.specs.Prelude.{◌≡◌, ◌⊎◌, ◌≤◌, ◌<◌, ◌^◌, true, false, [], None, Some, All, IfErr, IfOk, IfSome, MatchOption, OnErr, OnOk, ◌==◌, count_by, find, is_some, length, map, not};
ghost use Rattle.std.specs.Prelude.{option_and_then, option_map};
ghost use Rattle.std.specs.Fn.{FnOnceReturnsAtMut};
ghost use Rattle.ksm_pages.specs.Terms.{after_cursor, fresh_row, GuestPage, InPageOrder, Merged, MOST_FRAMES, settled, shared_state, stored, Waiting, Zero};
ghost use Rattle.ksm_pages.specs.Ahead.{EndsAt, FindsNext, last_of, mergeable_pages, pages_behind, pages_between};
ghost use Rattle.ksm_pages.specs.Filed.{AreFiled, AreListed, IsMade, IsTally, IsUnder, KeepsPage, WasKept, key_in};
ghost use Rattle.ksm_pages.specs.Held.{AreInTree, AreWaitersLed, IsFree, altered, held_at, held_of, is_in, on_row, out_of_tree, in_tree_by, page_in_tree, rows_of, shares};
ghost use Rattle.ksm_pages.specs.Held.{waiting_in, with_held, without_held, written};
ghost use Rattle.ksm_pages.specs.Ordered.{AreAscending};
ghost use Rattle.ksm_pages.specs.Unstable.{AreLed, IsFreeAt, LeadsAt};
ghost use Rattle.slab.specs.Slab.{get};

use crate::ahead::Ahead;
use crate::order::Order;
use crate::restless::Restless;
use crate::row::{Entry, InTree, Kind, Spot};
use crate::slot::Keys;
use crate::tally::Tally;
use crate::unstable::{GONE, UnstableTree, is_in_tree, tree_by};
use ksm_base::{Fault, GuestPage, PageBytes, PageState};
use ksm_tree::{NO_NUMBER, reserve_one};
use slab::Slab;
use std::alloc::Global;
use std::marker::Model;

/// The rows, each with the frame of its own.
#[derive(Drop)]
pub struct Rows {
    alloc: Global,
    entries: Slab<Entry>,
    order: Order,
    keys: Keys,
    restless: Restless,
    tally: Tally,
    /// One more whenever no row waits any longer.
    pass: u64,
    unstable: UnstableTree,
    /// Whether each node has an unstable tree of its own.
    by_node: bool,
}

impl Model for Rows {
    ghost use Rattle.ksm_pages.specs.Filed.{IsRows, held_in};
    ghost use Rattle.ksm_pages.specs.Held.{RowsView};
    ghost use Rattle.ksm_pages.specs.Unstable.{AreLed};

    ghost Value = { RowsView };

    ghost view = { λ r. record { held = held_in r.pass r.entries r.order; pass = r.pass; by_node = r.by_node } };

    ghost invariant = { λ r. IsRows r.entries r.order r.restless r.tally r.pass
        × AreLed r.by_node r.entries r.unstable };
}

/// The key of a page's row. The guess is tried first.
#[tactic(auto, using(crate::proofs::Filing::under))]
#[inline(always)]
fn key_of(entries: &Slab<Entry>, order: &Order, spot: Spot) -> Option<usize>
    requires { AreFiled entries.now order.now }
    ensures told { result ≡ key_in order.now spot.page }
    ensures there { IfSome result (λ key. IsUnder entries.now spot.page key) }
    ensures few { length order.now < 2 ^ 64 }
{
    // Called for its contract alone: the number of pages fits 64 bits.
    let _ = order.len();
    if let Some(entry) = entries.get(spot.key) {
        if entry.page == spot.page {
            return Some(spot.key);
        }
    }
    search(order, spot.page)
}

/// The same, without a guess.
#[inline(never)]
fn search(order: &Order, page: GuestPage) -> Option<usize>
    ensures { result ≡ key_in order.now page }
{
    Some(order.find(page)?.key as usize)
}

/// Lists anew all pages that a visit may change, by a walk over all.
#[inline(never)]
fn gather(entries: &Slab<Entry>, order: &Order, restless: &mut Restless)
    requires filed { AreFiled entries.now order.now }
    requires ascending { AreAscending order.now }
    ensures { restless.new.known ≡ true → AreListed entries.now restless.new.pages }
{
    restless.clear();
    let mut last = None;
    while let Some(named) = order.after(last) {
        if entries[named.key as usize].is_restless() {
            let spot = Spot {
                page: named.page,
                key: named.key as usize,
            };
            restless.add(spot, order.len());
        }
        last = Some(named.page);
    }
}

/// How a row comes to stand in the unstable tree, where there is a group of dups of its content, or none.
fn in_tree_by(group: Option<u32>) -> InTree
    ensures { result ≡ in_tree_by group }
{
    match group {
        Some(_) => InTree::Beside,
        None => InTree::Alone,
    }
}

/// The unstable tree leads to the entry under a key, which is about to say so, if it does not say so yet. The one
/// fault is `Memory`, and then the tree leads where it did.
#[inline(always)]
fn lead_to(
    unstable: &mut UnstableTree,
    entries: &Slab<Entry>,
    by_node: bool,
    key: usize,
) -> Result<(), Fault>
    requires stands { is_some (get entries.now key) ≡ true }
    requires led { AreLed by_node entries.now unstable.old }
    requires free { IsFreeAt by_node entries.now key }
    ensures leads { OnOk result (LeadsAt by_node entries.now unstable.new key) }
    ensures kept { AreLed by_node entries.now unstable.new }
    ensures memory { IfErr result (λ fault. fault ≡ Fault.Memory) }
{
    let entry = &entries[key];
    if entry.in_tree.is_in() {
        return Ok(());
    }
    let number = u32::try_from(key).unwrap_or(GONE);
    if number >= GONE {
        return Err(Fault::Memory);
    }
    let tree = tree_by(by_node, entry.home);
    unstable.lead(entries, tree, &entry.bytes, number)
}

impl Rows {
    /// No rows, in a table with so many frames.
    pub fn new(alloc: Global, frames: u32) -> Rows
        requires { frames ≤ MOST_FRAMES }
        ensures held { result.held ≡ [] }
        ensures by_node { result.by_node ≡ false }
    {
        Rows {
            alloc,
            entries: Slab::new(alloc),
            order: Order::new(alloc),
            keys: Keys::new(alloc, frames),
            restless: Restless::new(alloc),
            tally: Tally::NONE,
            pass: 1,
            unstable: UnstableTree::new(alloc, 0),
            by_node: false,
        }
    }

    // ------------------------------------------------------------ what is read

    /// A law: the rows are in the order of their pages, those with frames of their own have them, and the unstable tree
    /// leads to those that wait, and from each tree and bytes to one row at most.
    #[tactic(auto, using(crate::proofs::Filing::rows_rise, crate::proofs::Spots::rows_framed, crate::proofs::Leading::rows_led, crate::proofs::Leading::rows_found))]
    pub fn are_lawful(&self)
        ensures rise { InPageOrder (rows_of self.now.held) }
        ensures framed { All (λ h. is_some h.frame ≡ not (shared_state h.row.state)) self.now.held }
        ensures led { AreWaitersLed self.now.held }
        ensures found { AreInTree self.now }
    {
        // A law is told of the fields where one of them is read.
        let _ = self.order.len();
    }

    /// What is kept of the row of a page, where it lies where that was guessed. Else nothing is told.
    #[inline(always)]
    pub fn at(&self, spot: Spot) -> Option<&Entry>
        ensures { IfSome result (λ entry. held_at spot.page self.now.held ≡ Some (held_of self.now.pass entry.now)) }
    {
        match self.entries.get(spot.key) {
            Some(entry) if entry.page == spot.page => Some(entry),
            _ => None,
        }
    }

    /// What is kept of the row of a page, if it has one.
    #[inline(always)]
    pub fn find(&self, spot: Spot) -> Option<&Entry>
        ensures { MatchOption result (held_at spot.page self.now.held ≡ None)
            (λ entry. held_at spot.page self.now.held ≡ Some (held_of self.now.pass entry.now)) }
    {
        Some(self.look_up(spot)?.1)
    }

    /// The same, with a guess of the row's key.
    #[inline(always)]
    pub fn look_up(&self, spot: Spot) -> Option<(Spot, &Entry)>
        ensures { MatchOption result (held_at spot.page self.now.held ≡ None) (λ found.
            (found.0.page ≡ spot.page)
            × (held_at spot.page self.now.held ≡ Some (held_of self.now.pass found.1.now))) }
    {
        match self.at(spot) {
            Some(entry) => Some((spot, entry)),
            None => self.look_up_anew(spot.page),
        }
    }

    /// The same, without a guess.
    #[tactic(auto, using(crate::proofs::Filing::held_nowhere))]
    #[inline(never)]
    pub fn look_up_anew(&self, page: GuestPage) -> Option<(Spot, &Entry)>
        ensures { MatchOption result (held_at page self.now.held ≡ None) (λ found.
            (found.0.page ≡ page) × (held_at page self.now.held ≡ Some (held_of self.now.pass found.1.now))) }
    {
        let key = search(&self.order, page)?;
        Some((Spot { page, key }, &self.entries[key]))
    }

    /// A page with a guess of the key of its row.
    #[inline(always)]
    pub fn guess(&self, page: GuestPage) -> Spot
        ensures { result.page ≡ page }
    {
        let key = self.keys.guess(page);
        Spot { page, key }
    }

    /// The number of the pass: a row waits exactly where its number is this one, and it has a frame of its own.
    #[inline(always)]
    pub fn pass(&self) -> u64
        ensures { result ≡ self.now.pass }
    {
        self.pass
    }

    /// The row to which the unstable tree leads from a tree and bytes: the one that waits, or did last.
    #[inline(always)]
    pub fn in_tree(&self, tree: u32, bytes: &PageBytes) -> Option<Spot>
        ensures { option_map (λ s. s.page) result ≡ page_in_tree self.now tree bytes.now }
    {
        let unstable = &self.unstable;
        let key = unstable.find(&self.entries, self.by_node, tree, bytes)? as usize;
        let page = self.entries[key].page;
        Some(Spot { page, key })
    }

    /// How many rows there are.
    pub fn len(&self) -> usize
        ensures { result ≡ length self.now.held }
    {
        self.order.len()
    }

    /// How many rows a scan visits.
    #[tactic(auto, using(crate::proofs::Filing::flags_counted))]
    pub fn mergeable(&self) -> usize
        ensures { result ≡ count_by (λ r. r.mergeable) (rows_of self.now.held) }
    {
        self.order.mergeable()
    }

    /// How many rows are merged, wait, and are on the zero page.
    pub fn tally(&self) -> Tally
        ensures { IsTally (rows_of self.now.held) result }
    {
        self.tally
    }

    /// The first page behind a cursor.
    pub fn after(&self, cursor: Option<GuestPage>) -> Option<Spot>
        ensures { option_map (λ s. s.page) result
            ≡ option_map (λ r. r.page) (find (λ r. after_cursor cursor r.page) (rows_of self.now.held)) }
    {
        let named = self.order.after(cursor)?;
        Some(Spot {
            page: named.page,
            key: named.key as usize,
        })
    }

    /// What so many visits behind the cursor come to. How many visits of the pass led to the cursor is a guess.
    #[tactic(auto, using(crate::proofs::Filing::pages_by))]
    pub fn ahead(&self, cursor: Option<GuestPage>, guess: usize, visits: u64) -> Ahead
        requires { 1 ≤ visits }
        ensures { EndsAt (pages_behind cursor (mergeable_pages (rows_of self.now.held))) visits result }
    {
        self.order.ahead(cursor, guess, visits)
    }

    /// How many pages behind the cursor and before a page a scan visits, and the last of them, or else the cursor.
    #[tactic(auto, using(crate::proofs::Filing::pages_by))]
    pub fn between(&self, cursor: Option<GuestPage>, page: GuestPage) -> (u64, Option<GuestPage>)
        ensures many { result.0 ≡ length (pages_between cursor page (mergeable_pages (rows_of self.now.held))) }
        ensures last { result.1 ≡ last_of cursor (pages_between cursor page (mergeable_pages (rows_of self.now.held))) }
    {
        self.order.between(cursor, page)
    }

    // ------------------------------------------------------------ rows that come and go

    /// Adds the row of a page, on a frame. Where it has one, or memory is refused, nothing changes.
    #[tactic(auto, using(crate::proofs::Writing::roomy, crate::proofs::Filing::held_found, crate::proofs::Options::some_mapped))]
    pub fn insert(
        &mut self,
        page: GuestPage,
        home: u32,
        bytes: PageBytes,
        frame: u32,
    ) -> Result<Spot, Fault>
        ensures added { OnOk result ((held_at page self.old.held ≡ None) × (self.new ≡ record self.old {
          held = with_held (record { row = fresh_row page home bytes; frame = Some frame; in_tree = InTree.Not }) self.old.held;
        })) }
        ensures spot { IfOk result (λ spot. spot.page ≡ page) }
        ensures kept { OnErr result (self.new ≡ self.old) }
        ensures fault { IfErr result (λ fault. (fault ≡ Fault.Memory)
            ⊎ ((fault ≡ Fault.AlreadyRegistered) × (is_some (held_at page self.old.held) ≡ true))) }
    {
        reserve_one(&mut self.entries)?;
        let Ok(key) = u32::try_from(self.entries.vacant_key()) else {
            return Err(Fault::Memory);
        };
        self.order.insert(page, key)?;
        let _ = self.entries.insert_reserved(Entry {
            page,
            bytes,
            number: 0,
            at: frame,
            home,
            group: NO_NUMBER,
            kind: Kind::Own,
            in_tree: InTree::Not,
            mergeable: true,
            unchanged: false,
        });
        self.keys.remember(self.alloc, &self.entries, page, key);
        let key = key as usize;
        let spot = Spot { page, key };
        self.restless.add(spot, self.order.len());
        Ok(spot)
    }

    /// The row of a page goes, if it has one. Gives what was kept of it.
    #[tactic(auto, using(crate::proofs::Options::some_mapped, crate::proofs::Writing::nothing_gone, crate::proofs::Writing::viewed_gone, crate::proofs::Writing::row_there, crate::proofs::Filing::held_nowhere))]
    pub fn remove(&mut self, spot: Spot) -> Option<Entry>
        ensures before { WasKept self.old spot.page result }
        ensures gone { self.new ≡ record self.old { held = without_held spot.page self.old.held } }
    {
        let Some(key) = key_of(&self.entries, &self.order, spot) else {
            return None;
        };
        let gone = self.entries.remove(key);
        self.tally.change(gone.state(self.pass), PageState::Private);
        self.order.remove(spot.page);
        self.restless.lose_row();
        self.forget(key, &gone);
        Some(gone)
    }

    // ------------------------------------------------------------ rows that change

    /// The entry of a page becomes what is made of it, if it has one. Gives what it was before.
    #[tactic(auto, using(crate::proofs::Writing::nothing, crate::proofs::Writing::row_there, crate::proofs::Filing::held_nowhere))]
    #[inline(always)]
    pub fn change<F: FnOnce(&mut Entry)>(&mut self, spot: Spot, make: F) -> Option<Entry>
        requires callable { F.IsAlwaysCallable make }
        requires kept { KeepsPage self.old.pass (λ old new. FnOnceReturnsAtMut F.FnOnce make old tt new) }
        ensures made { IsMade (λ old new. FnOnceReturnsAtMut F.FnOnce make old tt new) spot.page self.old self.new }
        ensures before { WasKept self.old spot.page result }
    {
        let Some(key) = key_of(&self.entries, &self.order, spot) else {
            return None;
        };
        let entry = &mut self.entries[key];
        let was = *entry;
        make(entry);
        let is = *entry;
        // A row that a visit might change before is listed already.
        let alike = (is.kind == was.kind) & (is.mergeable == was.mergeable);
        let listed = alike | was.is_restless() | !is.is_restless();
        self.tally.follow(&was, &is, self.pass);
        if is.mergeable != was.mergeable {
            self.order.mark(spot.page, is.mergeable);
        }
        let rows = self.order.len();
        if !listed {
            self.restless.add(Spot { key, ..spot }, rows);
        }
        Some(was)
    }

    /// A row with a frame of its own has this one from now on.
    #[tactic(auto, using(crate::proofs::Writing::nothing))]
    #[inline(always)]
    pub fn lay(&mut self, spot: Spot, frame: u32)
        requires { IfSome (held_at spot.page self.old.held) (λ h. shared_state h.row.state ≡ false) }
        ensures { self.new ≡ altered spot.page (λ h. record h { frame = Some frame }) self.old }
    {
        let Some(key) = key_of(&self.entries, &self.order, spot) else {
            return;
        };
        self.entries[key].at = frame;
    }

    /// The row has these bytes, and waits no more. Where its bytes were others, it is not unchanged.
    #[tactic(auto, using(crate::proofs::Writing::nothing))]
    #[inline(always)]
    pub fn store(&mut self, spot: Spot, bytes: &PageBytes)
        ensures { self.new ≡ altered spot.page (written bytes.now) self.old }
    {
        let Some(key) = key_of(&self.entries, &self.order, spot) else {
            return;
        };
        if self.entries[key].in_tree.is_in() {
            self.store_waiting(Spot { key, ..spot }, bytes);
        } else {
            self.entries[key].take_bytes(bytes);
        }
    }

    // The same where the unstable tree led to the row.
    #[inline(never)]
    fn store_waiting(&mut self, spot: Spot, bytes: &PageBytes)
        ensures { self.new ≡ altered spot.page (written bytes.now) self.old }
    {
        let _ = self.change_out_of_tree(spot, |entry| {
            entry.in_tree = InTree::Not;
            entry.take_bytes(bytes);
        });
    }

    /// The unstable tree does not lead to the row, so that waits no more.
    pub fn leave_tree(&mut self, spot: Spot)
        ensures { self.new ≡ altered spot.page out_of_tree self.old }
    {
        let _ = self.change_out_of_tree(spot, |entry| entry.in_tree = InTree::Not);
    }

    /// The same as `change`, where the unstable tree does not lead to what is made.
    #[inline(always)]
    pub fn change_out_of_tree<F: FnOnce(&mut Entry)>(
        &mut self,
        spot: Spot,
        make: F,
    ) -> Option<Entry>
        requires callable { F.IsAlwaysCallable make }
        requires kept { KeepsPage self.old.pass (λ old new. FnOnceReturnsAtMut F.FnOnce make old tt new) }
        ensures made { IsMade (λ old new. FnOnceReturnsAtMut F.FnOnce make old tt new) spot.page self.old self.new }
        ensures before { WasKept self.old spot.page result }
    {
        let was = self.change(spot, make)?;
        if was.in_tree.is_in() {
            self.forget_row(spot, was);
        }
        Some(was)
    }

    // ------------------------------------------------------------ the unstable tree

    /// The unstable tree forgets the row of a page, if it was in it and is not any more.
    #[inline(never)]
    pub fn forget_row(&mut self, spot: Spot, was: Entry)
        ensures { self.new ≡ self.old }
    {
        if let Some(key) = key_of(&self.entries, &self.order, spot) {
            self.forget(key, &was);
        }
    }

    // The unstable tree forgets the key of a row that was in it, and is not any more.
    fn forget(&mut self, key: usize, was: &Entry)
        ensures { self.new ≡ self.old }
    {
        let number = u32::try_from(key).unwrap_or(GONE);
        if was.in_tree.is_in() && !is_in_tree(&self.entries, number) {
            let tree = tree_by(self.by_node, was.home);
            self.unstable
                .forget(&self.entries, tree, &was.bytes, number);
        }
    }

    /// A row with a frame of its own waits, and the unstable tree leads to it, where it leads to no other row of the
    /// tree and bytes. The row remembers the number of its group of dups, or that there is no dup of its content. The
    /// one fault is `Memory`, and then nothing changes.
    #[tactic(auto, using(crate::proofs::Writing::nothing, crate::proofs::Writing::own_there))]
    #[inline(always)]
    pub fn enter(&mut self, spot: Spot, group: Option<u32>) -> Result<(), Fault>
        requires own { IfSome (held_at spot.page self.old.held) (λ h. shared_state h.row.state ≡ false) }
        requires free { IfSome (held_at spot.page self.old.held) (λ h. IsFree self.old spot.page h) }
        ensures waits { OnOk result (self.new ≡ altered spot.page (waiting_in (in_tree_by group)) self.old) }
        ensures kept { OnErr result (self.new ≡ self.old) }
        ensures memory { IfErr result (λ fault. fault ≡ Fault.Memory) }
    {
        let Some(key) = key_of(&self.entries, &self.order, spot) else {
            return Ok(());
        };
        lead_to(&mut self.unstable, &self.entries, self.by_node, key)?;
        let entry = &mut self.entries[key];
        let old = entry.state_alone(self.pass);
        entry.in_tree = in_tree_by(group);
        entry.group = group.unwrap_or(NO_NUMBER);
        entry.number = self.pass;
        self.tally.change(old, PageState::Waiting);
        Ok(())
    }

    /// A row with a frame of its own, to which the unstable tree leads, waits.
    #[tactic(auto, using(crate::proofs::Writing::nothing, crate::proofs::Writing::own_there))]
    #[inline(always)]
    pub fn wait(&mut self, spot: Spot)
        requires own { IfSome (held_at spot.page self.old.held) (λ h. shared_state h.row.state ≡ false) }
        requires led { IfSome (held_at spot.page self.old.held) (λ h. is_in h.in_tree ≡ true) }
        ensures { self.new ≡ altered spot.page (on_row (λ r. record r { state = Waiting })) self.old }
    {
        let Some(key) = key_of(&self.entries, &self.order, spot) else {
            return;
        };
        let entry = &mut self.entries[key];
        let old = entry.state_alone(self.pass);
        entry.number = self.pass;
        self.tally.change(old, PageState::Waiting);
    }

    /// A row with a frame of its own is unchanged from now on, and waits no more. It remembers a guess of the number of
    /// its group of dups.
    #[tactic(auto, using(crate::proofs::Writing::nothing, crate::proofs::Writing::own_there))]
    #[inline(always)]
    pub fn note_unchanged(&mut self, spot: Spot, group: u32)
        requires { IfSome (held_at spot.page self.old.held) (λ h. shared_state h.row.state ≡ false) }
        ensures { self.new ≡ altered spot.page (on_row (λ r. record (settled r) { unchanged = true })) self.old }
    {
        let Some(key) = key_of(&self.entries, &self.order, spot) else {
            return;
        };
        let entry = &mut self.entries[key];
        let old = entry.state_alone(self.pass);
        entry.unchanged = true;
        entry.group = group;
        entry.number = 0;
        self.tally.change(old, PageState::Private);
    }

    /// Each node has an unstable tree of its own, or all have one; where that is another than before, the tree leads
    /// to no row.
    pub fn set_by_node(&mut self, by_node: bool)
        ensures { ((by_node ≡ self.old.by_node) × (self.new ≡ self.old))
            ⊎ ((by_node ≡ not self.old.by_node) × (self.new ≡ record self.old {
              held = map out_of_tree self.old.held;
              by_node = by_node;
            })) }
    {
        if by_node != self.by_node {
            self.clear_tree(by_node);
        }
    }

    /// Each node has an unstable tree of its own, or all have one, and the tree leads to the rows to which it did, if
    /// then too no two of them have the same tree and bytes. Says whether it does; else nothing changes.
    pub fn regroup(&mut self, by_node: bool) -> bool
        ensures kept { result ≡ false → self.new ≡ self.old }
        ensures set { result ≡ true → self.new ≡ record self.old { by_node = by_node } }
    {
        if by_node != self.by_node && !self.unstable.fits(&self.entries, by_node) {
            return false;
        }
        self.by_node = by_node;
        true
    }

    // ------------------------------------------------------------ how a page is mapped

    /// The page of a row is mapped from the frame of the dup with a number. The dup's place and its group are guesses.
    /// Gives the frame that the row had of its own.
    #[inline(always)]
    pub fn merge(&mut self, spot: Spot, number: u64, place: u32, group: u32) -> Option<u32>
        ensures left { result ≡ option_and_then (λ h. h.frame) (held_at spot.page self.old.held) }
        ensures merged { self.new ≡ altered spot.page (shares (Merged number)) self.old }
    {
        let was = self.change(spot, |entry| {
            entry.kind = Kind::Merged;
            entry.number = number;
            entry.at = place;
            entry.group = group;
            entry.in_tree = entry.in_tree.beside();
        })?;
        self.restless.let_be();
        was.own_frame()
    }

    /// The page of a row is mapped from the zero page. Gives the frame that it had of its own.
    pub fn become_zero(&mut self, spot: Spot) -> Option<u32>
        ensures left { result ≡ option_and_then (λ h. h.frame) (held_at spot.page self.old.held) }
        ensures zero { self.new ≡ altered spot.page (shares Zero) self.old }
    {
        let was = self.change(spot, |entry| {
            entry.kind = Kind::Zero;
            entry.in_tree = entry.in_tree.beside();
        })?;
        self.restless.let_be();
        was.own_frame()
    }

    /// Where the unstable tree has too little room for the rows with frames of their own, it gets more, and leads to no
    /// row.
    pub fn make_room(&mut self)
        ensures { (self.new ≡ self.old) ⊎ (self.new ≡ record self.old { held = map out_of_tree self.old.held }) }
    {
        let alone = self.count_alone();
        if !self.unstable.has_room(alone) {
            self.clear_tree(self.by_node);
        }
    }

    // How many rows have frames of their own.
    fn count_alone(&self) -> usize
        ensures { result ≡ 0 → All (λ r. shared_state r.state ≡ true) (rows_of self.now.held) }
    {
        self.order
            .len()
            .saturating_sub(self.tally.merged)
            .saturating_sub(self.tally.zero)
    }

    // The unstable tree leads to no row, and has room for all with frames of their own.
    fn clear_tree(&mut self, by_node: bool)
        ensures { self.new ≡ record self.old { held = map out_of_tree self.old.held; by_node = by_node } }
    {
        let alone = self.count_alone();
        self.tally.waiting = 0;
        self.entries.retain(|_, entry| {
            entry.in_tree = InTree::Not;
            true
        });
        self.unstable = UnstableTree::new(self.alloc, alone);
        self.by_node = by_node;
    }

    // ------------------------------------------------------------ what else a row says

    /// The row waits no more, is not unchanged, and no scan visits it.
    pub fn let_go(&mut self, spot: Spot)
        ensures { self.new ≡ altered spot.page
            (on_row (λ r. record (settled r) { mergeable = false; unchanged = false })) self.old }
    {
        let before = self.change(spot, |entry| {
            entry.mergeable = false;
            entry.unchanged = false;
            entry.forget_pass();
        });
        if before.is_some_and(|was| was.is_restless()) {
            self.restless.let_be();
        }
    }

    // ------------------------------------------------------------ changes of all rows

    /// No row waits any more: those that did are Private.
    pub fn settle_all(&mut self)
        ensures { self.new ≡ record self.old { held = map (on_row settled) self.old.held; pass = self.new.pass } }
    {
        self.tally.waiting = 0;
        match self.pass.checked_add(1) {
            Some(pass) => self.pass = pass,
            None => {
                // Numbers of passes have come to their end, so each row forgets its own, and they begin anew.
                self.entries.retain(|_, entry| {
                    entry.forget_pass();
                    true
                });
                self.pass = 1;
            }
        }
    }

    /// No row waits any more, and none is unchanged.
    pub fn unshare_all(&mut self)
        ensures { self.new ≡ record self.old {
          held = map (on_row (λ r. record (settled r) { unchanged = false })) self.old.held;
          pass = self.new.pass;
        } }
    {
        self.entries.retain(|_, entry| {
            entry.unchanged = false;
            true
        });
        self.settle_all();
    }

    // ------------------------------------------------------------ rows that a visit may change

    /// Lists all rows that a visit may change, unless memory for that is refused.
    pub fn list_restless(&mut self)
        ensures { self.new ≡ self.old }
    {
        if !self.restless.is_known() {
            gather(&self.entries, &self.order, &mut self.restless);
        }
        self.restless.put_in_order();
    }

    /// The first page behind a cursor that a visit may change, or a page before it. Where not all of them are listed in
    /// order, it is the first page behind the cursor.
    #[tactic(auto, using(crate::proofs::Filing::rows_rise, crate::proofs::Spots::found_next))]
    #[inline(always)]
    pub fn next_restless(&mut self, cursor: Option<GuestPage>) -> Option<Spot>
        ensures kept { self.new ≡ self.old }
        ensures next { FindsNext cursor (rows_of self.old.held) (option_map (λ s. s.page) result) }
    {
        if self.restless.is_ready() {
            self.restless.after(cursor)
        } else {
            self.after(cursor)
        }
    }

    /// Of the listed pages those that no visit may change are listed no more, once they may be many, or all.
    pub fn sweep_restless(&mut self)
        ensures { self.new ≡ self.old }
    {
        if self.count_alone() == 0 {
            self.restless.clear();
        } else {
            self.restless.sweep(&self.entries, &self.order);
        }
    }
}
