//! The dups with their items, as visits, stores and the counters ask for them (mm/ksm: the stable trees).
//!
//! `Slots` has the dups by place, `Groups` lead from a content to the places. Each call changes both, and the invariant
//! says that they agree: callers see one list, of the dups in the order of their places.
//!
//! A caller may remember the number of the group of a page, and the place of a dup. Both are guesses, compared before
//! they are believed, so no call promises less where they are wrong.
//!
//! A page that looks for a dup to join walks along its chain, which mostly has one dup. Of a long chain most dups are
//! full. So while there is a long one in a small table, the open places of all contents are kept, and such a page walks
//! along these if they are fewer.
ghost use Rattle.std.specs.Prelude.{[], All, count_by, false, find, IfNone, IfOk, if◌then◌else◌, is_some, IsTrue, length, List, None, OnErr, OnOk, option_copied, option_map, slice_get, Some, true, ℕ};
ghost use Rattle.std.specs.Prelude.{◌&&◌, ◌+◌, ◌<◌, ◌^◌, ◌∷◌, ◌≡◌, ◌≤◌};
ghost use Rattle.ksm_tree.specs.Terms.{FailsForMemory, has_item, in_chain, leads_group, MOST_FRAMES, MOST_REFERENCES, MOST_SPARE, same_page, with_item, without_item};
ghost use Rattle.ksm_tree.specs.Chains.{AreChained, group_places, in_group, is_in_use};
ghost use Rattle.ksm_tree.specs.Choosing.{ArePlacesToJoin, best_of, candidate_of, choice_of, found_at};
ghost use Rattle.ksm_tree.specs.Dups.{AreDups, change_items, dup_at, dup_of, is_live, is_stale, items_in, items_of, MayBecomeDup, place_of, rows_of, stands_at, with_new, without_place};
ghost use Rattle.ksm_tree.specs.Groups.{HasRoomAt, IsCounted, SameNumbers};
ghost use Rattle.ksm_tree.specs.Numbered.{IsUnused, KeepsReserve, number_of};
ghost use Rattle.ksm_tree.specs.Slots.{HaveDups};

use crate::content::same_bytes;
use crate::dup::{Best, Choice, Dup};
use crate::groups::{Groups, NO_NUMBER};
use crate::item_counts::none_open;
use crate::slots::Slots;
use ksm_base::{DupRow, Fault, GuestPage, Knobs, PageBytes};
use ksm_rmap::Items;
use std::alloc::{AllocError, Global};
use std::marker::Model;

/// Where the caller remembers no place.
pub const NO_PLACE: u32 = u32::MAX;

// A chain of no more dups than this is walked along as a whole.
const SHORT_CHAIN: usize = 16;

/// In a table of more places than this each chain is walked along as a whole: the open places are a list, in which a
/// place that opens or closes moves those behind it.
pub const FEW_PLACES: usize = 1_024;

/// The dups with their items, by place, by number, and by tree and bytes (mm/ksm, stable nodes and their chains).
///
/// A look-up by number costs a comparison where the place is guessed right, and else a walk over the places. A dup
/// keeps its place as long as it is there, so whoever remembers the place guesses right. A look-up by content costs a
/// comparison where the number of its group is remembered by the caller, and for `group` and `group_of` two where it is
/// remembered here alone; else a search among the contents that are known, in a number of steps in the order of the
/// logarithm of how many there are. `best` and `best_of` also walk along the chain, or, where a chain is long, along
/// the dups of all contents that are not full, if these are fewer. The counts are kept, so nothing is counted when they
/// are read. A group, a new dup and a new item may want memory.
#[derive(Drop)]
pub struct Dups {
    alloc: Global,
    slots: Slots,
    groups: Groups,
    next: u64,
    limit: u32,
}

impl Model for Dups {
    ghost use Rattle.ksm_tree.specs.Dups.{DupsState};
    ghost use Rattle.ksm_tree.specs.Chains.{AreChained, dups_seen};

    ghost Value = { DupsState };

    ghost view = { λ d. dups_seen d.slots d.next d.groups };

    ghost invariant = { λ d. AreChained d.slots d.next d.groups };
}

impl Dups {
    /// No dups, with room for one at each of so many places. The one fault is `Memory`.
    pub fn open(alloc: Global, places: u32) -> Result<Dups, Fault>
        requires least { 1 ≤ places }
        requires most { places ≤ MOST_FRAMES }
        ensures opened { IfOk result (λ dups. dups ≡ record {
          places = places;
          dups = [];
          next = 0;
          numbers = [];
          most = dups.most;
        }) }
        ensures room { IfOk result (λ dups. dups.most ≤ MOST_SPARE) }
        ensures memory { FailsForMemory result }
    {
        Ok(Dups {
            alloc,
            slots: Slots::open(alloc, places)?,
            groups: Groups::new(alloc, places),
            next: 0,
            limit: Knobs::DEFAULT.max_page_sharing,
        })
    }

    /// The dup that a page of a tree and these bytes joins: of those with an item and fewer than the limit the one with
    /// the most items, ties to the lowest number.
    pub fn best(&self, tree: u32, bytes: &PageBytes, limit: u32) -> Option<u64>
        ensures best { result ≡ option_map (λ d. d.row.number) (best_of tree bytes.now limit self.now.dups) }
        ensures lawful { AreDups self.now }
    {
        let group = self.groups.number(NO_NUMBER, tree, bytes)?;
        self.best_of(group, limit).map(|best| best.number)
    }

    /// The number of the group of a tree and bytes, if it has one. The guess is tried first, then the one that was
    /// found last in its slot. Nothing changes that is seen.
    #[inline(always)]
    pub fn group_of(&mut self, guess: u32, tree: u32, bytes: &PageBytes) -> Option<u32>
        ensures numbered { result ≡ number_of tree bytes.now self.old.numbers }
        ensures none { IfNone result (All (λ d. in_group tree bytes.now d.row ≡ false) self.old.dups) }
        ensures kept { self.new ≡ self.old }
        ensures lawful { AreDups self.old }
    {
        self.groups.known(guess, tree, bytes)
    }

    /// The number of the group of a tree and bytes, which it gets if it has none: then groups in which no dup stands
    /// may lose theirs. The guess is tried first. The one fault is `Memory`, and then it gets none.
    #[inline(always)]
    pub fn group(&mut self, guess: u32, tree: u32, bytes: &PageBytes) -> Result<u32, Fault>
        ensures numbered { IfOk result (λ number. number_of tree bytes.now self.new.numbers ≡ Some number) }
        ensures kept { self.new ≡ record self.old { numbers = self.new.numbers; most = self.new.most } }
        ensures reserve { KeepsReserve (is_in_use self.new) tree bytes.now self.old.numbers self.new.numbers
            self.old.most self.new.most }
        ensures memory { FailsForMemory result }
        ensures lawful { AreDups self.old }
    {
        self.groups.numbered(self.alloc, guess, tree, bytes)
    }

    /// The dup that a page of the group with a number joins: that which `best` tells for its tree and bytes. None where
    /// no group has the number.
    #[tactic(auto, using(crate::proofs::Standing::stands_under))]
    #[inline(always)]
    pub fn best_of(&self, group: u32, limit: u32) -> Option<Best>
        ensures best { (tree : ℕ) (bytes : List ℕ) → number_of tree bytes self.now.numbers ≡ Some group
            → result ≡ option_map found_at (best_of tree bytes limit self.now.dups) }
        ensures none { IsUnused group self.now.numbers → result ≡ None }
    {
        let found = self.groups.at(group)?;
        let chain = found.places.list.as_slice();
        if chain.is_empty() {
            return None;
        }
        // Where all pages were unshared, each dup is stale, and a chain long.
        if chain.len() > 1 && self.slots.count_live() == 0 {
            return None;
        }
        self.best_in(found.content.tree, &found.content.bytes, chain, limit)
    }

    // The dup that a page of a tree and these bytes joins, where the places of their dups are known.
    #[inline(always)]
    fn best_in(&self, tree: u32, bytes: &PageBytes, chain: &[u32], limit: u32) -> Option<Best>
        requires { chain.now ≡ group_places tree bytes.now (rows_of self.now.dups) }
        ensures { result ≡ option_map found_at (best_of tree bytes.now limit self.now.dups) }
    {
        let mut best: Option<&Dup> = None;
        // A better dup has at least `least` items, and fewer than `room` more.
        let mut least = 1;
        let mut room = limit.saturating_sub(least);
        let counts = self.slots.counts();
        let (places, is_chain) = self.places_to_join(chain, limit);
        for place in places {
            let items = counts[*place as usize];
            // Fewer items than `least` wrap round to more than `room`, so one comparison tells both.
            if items.wrapping_sub(least) < room {
                let ties = items == least;
                if let Some(dup) = self.candidate(*place, best, ties, is_chain, tree, bytes) {
                    best = Some(dup);
                    least = items;
                    room = limit - items;
                }
            }
        }
        best.map(|dup| Best {
            number: dup.row.number,
            place: dup.row.place,
        })
    }

    /// Whether the group with a number is that of a tree and bytes, and none of its dups may be joined.
    #[inline(always)]
    pub fn is_closed_group(&self, group: u32, tree: u32, bytes: &PageBytes, limit: u32) -> bool
        ensures numbered { IsTrue result → number_of tree bytes.now self.now.numbers ≡ Some group }
        ensures best { IsTrue result → (t : ℕ) (b : List ℕ) → number_of t b self.now.numbers ≡ Some group
            → best_of t b limit self.now.dups ≡ None }
    {
        self.groups.is_of(group, tree, bytes) && self.is_closed(group, limit)
    }

    // Whether no dup of the group with a number may be joined, as far as a short chain tells: which one is best is not
    // asked, so counts are enough. A long chain is walked along once, where a page looks for a dup to join.
    #[inline(never)]
    fn is_closed(&self, group: u32, limit: u32) -> bool
        ensures { IsTrue result → (t : ℕ) (b : List ℕ) → number_of t b self.now.numbers ≡ Some group
            → best_of t b limit self.now.dups ≡ None }
    {
        let Some(found) = self.groups.at(group) else {
            return false;
        };
        let chain = found.places.list.as_slice();
        chain.len() <= SHORT_CHAIN && none_open(limit, self.slots.counts(), chain)
    }

    /// Where a new dup goes: the least empty place, or where there is none that of the first stale dup.
    pub fn choose_place(&self) -> Choice
        requires { is_some (choice_of self.now) ≡ true }
        ensures { choice_of self.now ≡ Some result }
    {
        if let Some(place) = self.slots.first_empty() {
            return Choice::Empty(place);
        }
        match self.slots.first_stale() {
            Some(place) => Choice::Stale(place),
            None => unreachable!(),
        }
    }

    /// A new dup of two pages at a place; a stale dup that stood there goes. Its number is the next one. The one fault
    /// is `Memory`, and then nothing changes.
    pub fn new_dup(
        &mut self,
        place: u32,
        tree: u32,
        bytes: &PageBytes,
        first: GuestPage,
        second: GuestPage,
    ) -> Result<u64, Fault>
        requires { MayBecomeDup self.old place first second }
        ensures number { IfOk result (λ number. number ≡ self.old.next) }
        ensures made { OnOk result (self.new ≡ record self.old {
          dups = with_new (record {
            row = record { number = self.old.next; place = place; tree = tree; bytes = bytes.now };
            items = with_item second (first ∷ []);
          }) self.old.dups;
          next = self.old.next + 1;
          numbers = self.new.numbers;
          most = self.new.most;
        }) }
        ensures kept { OnErr result (self.new ≡ record self.old { numbers = self.new.numbers; most = self.new.most }) }
        ensures memory { FailsForMemory result }
    {
        let group = self.group(NO_NUMBER, tree, bytes)?;
        self.found(group, place, tree, bytes, first, second)
    }

    /// The same, where the number of the group of the tree and bytes is known.
    #[tactic(auto, using(crate::proofs::Chained::none_left))]
    pub fn found(
        &mut self,
        group: u32,
        place: u32,
        tree: u32,
        bytes: &PageBytes,
        first: GuestPage,
        second: GuestPage,
    ) -> Result<u64, Fault>
        requires known { number_of tree bytes.now self.old.numbers ≡ Some group }
        requires may { MayBecomeDup self.old place first second }
        ensures number { IfOk result (λ number. number ≡ self.old.next) }
        ensures made { OnOk result (self.new ≡ record self.old {
          dups = with_new (record {
            row = record { number = self.old.next; place = place; tree = tree; bytes = bytes.now };
            items = with_item second (first ∷ []);
          }) self.old.dups;
          next = self.old.next + 1;
        }) }
        ensures kept { OnErr result (self.new ≡ self.old) }
        ensures memory { FailsForMemory result }
        ensures lawful { AreDups self.old }
    {
        let number = self.next;
        let mut items = Items::new(self.alloc);
        items.add(first)?;
        items.add(second)?;
        self.slots.reserve()?;
        self.groups.reserve(group)?;
        vacate(&mut self.slots, &mut self.groups, place);
        self.groups.add(group, place);
        let row = DupRow {
            number,
            place,
            tree,
            bytes: *bytes,
        };
        self.slots.put(Dup { row, items }, group);
        self.next += 1;
        self.keep_open();
        Ok(number)
    }

    /// A page becomes an item of a dup. Gives the place of the dup. The one fault is `Memory`, and then nothing
    /// changes.
    pub fn join(&mut self, dup: u64, page: GuestPage) -> Result<u32, Fault>
        requires known { is_some (dup_of dup self.old.dups) ≡ true }
        requires fewer { length (items_of dup self.old.dups) < MOST_REFERENCES }
        requires absent { has_item page (items_of dup self.old.dups) ≡ false }
        ensures place { IfOk result (λ place. Some place ≡ place_of (dup_of dup self.old.dups)) }
        ensures joined { OnOk result (self.new ≡ record self.old {
          dups = change_items dup (with_item page) self.old.dups;
        }) }
        ensures kept { OnErr result (self.new ≡ self.old) }
        ensures memory { FailsForMemory result }
    {
        self.join_at(NO_PLACE, dup, page)
    }

    /// The same, where the place of the dup is guessed.
    #[inline(always)]
    pub fn join_at(&mut self, guess: u32, dup: u64, page: GuestPage) -> Result<u32, Fault>
        requires known { is_some (dup_of dup self.old.dups) ≡ true }
        requires fewer { length (items_of dup self.old.dups) < MOST_REFERENCES }
        requires absent { has_item page (items_of dup self.old.dups) ≡ false }
        ensures place { IfOk result (λ place. Some place ≡ place_of (dup_of dup self.old.dups)) }
        ensures joined { OnOk result (self.new ≡ record self.old {
          dups = change_items dup (with_item page) self.old.dups;
        }) }
        ensures kept { OnErr result (self.new ≡ self.old) }
        ensures memory { FailsForMemory result }
    {
        let Some(place) = self.place_by(guess, dup) else {
            unreachable!()
        };
        self.slots.add_item(place, page)?;
        Ok(place)
    }

    /// A page is no item of a dup any more. Where there is no such dup or item, nothing changes. Gives the place of the
    /// dup.
    pub fn leave(&mut self, dup: u64, page: GuestPage) -> Option<u32>
        ensures place { result ≡ place_of (dup_of dup self.old.dups) }
        ensures left { self.new ≡ record self.old { dups = change_items dup (without_item page) self.old.dups } }
    {
        self.leave_at(NO_PLACE, dup, page)
    }

    /// The same, where the place of the dup is guessed.
    #[inline(always)]
    pub fn leave_at(&mut self, guess: u32, dup: u64, page: GuestPage) -> Option<u32>
        ensures place { result ≡ place_of (dup_of dup self.old.dups) }
        ensures left { self.new ≡ record self.old { dups = change_items dup (without_item page) self.old.dups } }
    {
        let place = self.place_by(guess, dup)?;
        self.slots.remove_item(place, page);
        Some(place)
    }

    /// A guess of the number of the group of the dup at a place. Nothing is promised of it.
    #[inline(always)]
    pub fn group_at(&self, place: u32) -> u32 {
        self.slots.group_at(place)
    }

    /// The number of the dup at a place.
    pub fn at(&self, place: u32) -> Option<u64>
        ensures number { result ≡ option_map (λ d. d.row.number) (dup_at place self.now.dups) }
        ensures lawful { AreDups self.now }
    {
        self.slots.at(place).map(|dup| dup.row.number)
    }

    /// The row of the dup with items at a place.
    pub fn live_at(&self, place: u32) -> Option<DupRow>
        ensures { result ≡ option_map (λ d. d.row) (find (λ d. stands_at place d && is_live d) self.now.dups) }
    {
        let dup = self.slots.at(place)?;
        (dup.items.len() > 0).then_some(dup.row)
    }

    /// The row of a dup.
    pub fn row(&self, dup: u64) -> Option<DupRow>
        ensures { result ≡ option_map (λ d. d.row) (dup_of dup self.now.dups) }
    {
        self.slots.numbered(dup).map(|dup| dup.row)
    }

    /// The place of a dup.
    pub fn place(&self, dup: u64) -> Option<u32>
        ensures place { result ≡ place_of (dup_of dup self.now.dups) }
        ensures lawful { AreDups self.now }
    {
        self.slots.numbered(dup).map(|dup| dup.row.place)
    }

    /// The same, where the place is guessed: the dup that stands there is looked at first.
    #[tactic(auto, using(crate::proofs::Chained::stands_numbered))]
    #[inline(always)]
    pub fn place_by(&self, guess: u32, dup: u64) -> Option<u32>
        ensures { result ≡ place_of (dup_of dup self.now.dups) }
    {
        match self.slots.at(guess) {
            Some(found) if found.row.number == dup => Some(guess),
            _ => self.place(dup),
        }
    }

    /// The items of the dup at a place, in ascending order, in a vector of their own: none where no dup stands there.
    /// Fails for memory alone.
    pub fn items_at(&self, alloc: Global, place: u32) -> Result<Vec<GuestPage>, AllocError>
        ensures { IfOk result (λ pages. pages.items ≡ items_in (dup_at place self.now.dups)) }
    {
        match self.slots.at(place) {
            Some(dup) => dup.items.pages(alloc),
            None => Ok(Vec::new(alloc)),
        }
    }

    /// How many items a dup has: 0 where there is no such dup.
    pub fn items(&self, dup: u64) -> u32
        ensures { result ≡ length (items_of dup self.now.dups) }
    {
        self.slots
            .numbered(dup)
            .map_or(0, |dup| dup.items.len() as u32)
    }

    /// The item of a dup at `i`, in ascending order from 0 on.
    pub fn item(&self, dup: u64, i: u32) -> GuestPage
        requires { i < length (items_of dup self.now.dups) }
        ensures { slice_get (items_of dup self.now.dups) i ≡ Some result }
    {
        match self.slots.numbered(dup) {
            Some(dup) => dup.items.at(i as usize),
            None => unreachable!(),
        }
    }

    /// The least place of a stale dup.
    pub fn stale(&self) -> Option<u32>
        ensures place { result ≡ place_of (find is_stale self.now.dups) }
        ensures lawful { AreDups self.now }
    {
        self.slots.first_stale()
    }

    /// The stale dup at a place goes.
    pub fn drop_stale(&mut self, place: u32)
        requires { is_some (find (λ d. stands_at place d && is_stale d) self.old.dups) ≡ true }
        ensures { self.new ≡ record self.old { dups = without_place place self.old.dups } }
    {
        vacate(&mut self.slots, &mut self.groups, place);
        self.keep_open();
    }

    /// How many dups have an item.
    pub fn count_shared(&self) -> usize
        ensures { result ≡ count_by is_live self.now.dups }
    {
        self.slots.count_live()
    }

    /// How many dups are stale.
    pub fn count_stale(&self) -> usize
        ensures { result ≡ count_by is_stale self.now.dups }
    {
        self.slots.count_stale()
    }

    /// How many dups are in a group of two or more.
    pub fn count_grouped(&self) -> usize
        ensures { result ≡ count_by (in_chain (rows_of self.now.dups)) (rows_of self.now.dups) }
    {
        self.groups.totals.dups
    }

    /// How many groups have two dups or more.
    pub fn count_chains(&self) -> usize
        ensures { let rows = rows_of self.now.dups in
            result ≡ count_by (λ d. in_chain rows d && leads_group rows d) rows }
    {
        self.groups.totals.chains
    }

    /// Says with which limit `best` is going to be asked: by that limit it passes over the full dups of a long chain.
    pub fn set_limit(&mut self, limit: u32)
        ensures { self.new ≡ self.old }
    {
        self.limit = limit;
        self.keep_open();
    }

    // Keeps the open places while a chain is long, and drops them once none is: nobody asks for them then.
    fn keep_open(&mut self)
        ensures { self.new ≡ self.old }
    {
        let is_long = self.groups.totals.longest > SHORT_CHAIN;
        self.slots.keep_open(if is_long { self.limit } else { 0 });
    }

    // The places among which a dup to join is looked for, and whether they are those of the chain. Of a long chain the
    // open ones are enough, so all open ones are taken where these are fewer.
    fn places_to_join<'a>(&'a self, chain: &'a [u32], limit: u32) -> (&'a [u32], bool)
        ensures { ArePlacesToJoin chain.now limit self.now.dups result.0.now result.1 }
    {
        if chain.len() <= SHORT_CHAIN {
            return (chain, true);
        }
        match self.slots.open_places(limit) {
            Some(open) if open.len() < chain.len() => (open, false),
            _ => (chain, true),
        }
    }

    // The dup at a place, if it does not stand behind the best one so far where they tie, and is of that tree and these
    // bytes, as each in the chain is. The best is asked first, since a number is less to compare than the bytes of a
    // page.
    fn candidate(
        &self,
        place: u32,
        best: Option<&Dup>,
        ties: bool,
        is_chain: bool,
        tree: u32,
        bytes: &PageBytes,
    ) -> Option<&Dup>
        ensures { let rival = if ties then option_copied best.entry else None in
            option_copied result ≡ candidate_of tree bytes.now rival is_chain (dup_at place self.now.dups) }
    {
        let dup = self.slots.at(place)?;
        if ties && best.is_some_and(|best| best.row.number <= dup.row.number) {
            return None;
        }
        (is_chain || (dup.row.tree == tree && same_bytes(&dup.row.bytes, bytes))).then_some(dup)
    }
}

/// The dup at a place goes, if there is one, and its place goes from its group.
fn vacate(slots: &mut Slots, groups: &mut Groups, place: u32)
    requires { (tree : ℕ) (bytes : List ℕ) → IsCounted tree bytes groups.old }
    ensures chained { (next : ℕ) → AreChained slots.old next groups.old → AreChained slots.new next groups.new }
    ensures gone { HaveDups (without_place place slots.old.dups) slots.old slots.new }
    ensures ready { slots.old.ready ≡ true → slots.new.ready ≡ true }
    ensures numbers { SameNumbers groups.old groups.new }
    ensures room { (number : ℕ) → HasRoomAt number groups.old → HasRoomAt number groups.new }
{
    if let Some(dup) = slots.at(place) {
        let guess = slots.group_at(place);
        groups.remove(guess, dup.row.tree, &dup.row.bytes, place);
        slots.clear(place);
    }
}
