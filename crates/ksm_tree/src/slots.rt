//! The dups by their places, a slot for each: a place leads to its dup in two steps, and an empty one takes few bytes.
#![tactic(auto, using(crate::proofs::OneSlot::steps))]

ghost use Rattle.std.specs.Prelude.{[], count_by, false, find, IfOk, IfSome, is_some, length, None, OnErr, OnOk, option_copied, slice_index_or, Some, true, ℕ, ◌<◌, ◌≡◌, ◌≤◌};
ghost use Rattle.ksm_tree.specs.Terms.{FailsForMemory, has_item, MOST_FRAMES, MOST_REFERENCES, with_item, without_item};
ghost use Rattle.ksm_tree.specs.Choosing.{empty_place};
ghost use Rattle.ksm_tree.specs.Dups.{dup_at, dup_of, is_live, is_stale, items_in, place_of, places_open, rows_of, with_new, without_place};
ghost use Rattle.ksm_tree.specs.Slots.{change_at, HaveDups};

use crate::dup::Dup;
use crate::item_counts::Counts;
use crate::number_set::{CountedSet, NumberSet};
use crate::shelf::Shelf;
use ksm_base::{Fault, GuestPage};
use std::alloc::Global;
use std::marker::Model;

/// The dups by place, with how many items each has, the places that no dup has and those of the stale dups.
#[derive(Drop)]
pub struct Slots {
    dups: Shelf,
    counts: Counts,
    empty: CountedSet,
    stale: CountedSet,
}

impl Model for Slots {
    ghost use Rattle.ksm_tree.specs.Slots.{AreSlots, slots_seen, SlotsState};

    ghost Value = { SlotsState };

    ghost view = { λ s. slots_seen s.dups };

    ghost invariant = { λ s. AreSlots s.dups.slots s.counts s.empty s.stale };
}

impl Slots {
    /// So many empty places. The one fault is `Memory`.
    pub fn open(alloc: Global, places: u32) -> Result<Slots, Fault>
        requires { places ≤ MOST_FRAMES }
        ensures opened { IfOk result (λ slots. slots ≡ record { places = places; dups = []; ready = slots.ready }) }
        ensures memory { FailsForMemory result }
    {
        Ok(Slots {
            dups: Shelf::open(alloc, places)?,
            counts: Counts::open(alloc, places)?,
            empty: CountedSet {
                set: NumberSet::full(alloc, places)?,
                count: places as usize,
            },
            stale: CountedSet {
                set: NumberSet::empty(alloc, places)?,
                count: 0,
            },
        })
    }

    /// The dup at a place.
    pub fn at(&self, place: u32) -> Option<&Dup>
        ensures { option_copied result ≡ dup_at place self.now.dups }
    {
        self.dups.at(place)
    }

    /// The dup with a number. It is sought place by place.
    pub fn numbered(&self, number: u64) -> Option<&Dup>
        ensures { option_copied result ≡ dup_of number self.now.dups }
    {
        self.dups.numbered(number)
    }

    /// A guess of the number of the group of the dup at a place. Nothing is promised of it.
    pub fn group_at(&self, place: u32) -> u32 {
        self.dups.group_at(place)
    }

    /// How many items the dup at each place has: 0 where no dup stands.
    pub fn counts(&self) -> &[u32]
        ensures places { length result.now ≡ self.now.places }
        ensures each { (place : ℕ)
            → slice_index_or result.now place 0 ≡ length (items_in (dup_at place self.now.dups)) }
    {
        self.counts.each()
    }

    /// The places of the open dups, those with an item and fewer than the limit, where they are known for this limit.
    pub fn open_places(&self, limit: u32) -> Option<&[u32]>
        ensures { IfSome result (λ found. found.now ≡ places_open limit self.now.dups) }
    {
        self.counts.open_places(limit)
    }

    /// The open places are kept from now on by this limit; by the limit 0 nothing has to be kept.
    pub fn keep_open(&mut self, limit: u32)
        ensures { self.new ≡ self.old }
    {
        self.counts.keep_open(limit);
    }

    /// The least place that no dup has.
    pub fn first_empty(&self) -> Option<u32>
        ensures { result ≡ empty_place self.now.places (rows_of self.now.dups) }
    {
        self.empty.set.least(0, self.dups.len() as u32)
    }

    /// The least place of a stale dup.
    pub fn first_stale(&self) -> Option<u32>
        ensures { result ≡ place_of (find is_stale self.now.dups) }
    {
        self.stale.set.least(0, self.dups.len() as u32)
    }

    /// How many dups have an item.
    pub fn count_live(&self) -> usize
        ensures { result ≡ count_by is_live self.now.dups }
    {
        self.dups.len() - self.empty.count - self.stale.count
    }

    /// How many dups are stale.
    pub fn count_stale(&self) -> usize
        ensures { result ≡ count_by is_stale self.now.dups }
    {
        self.stale.count
    }

    /// Takes room for one more dup. The one fault is `Memory`, and then nothing changes.
    pub fn reserve(&mut self) -> Result<(), Fault>
        ensures kept { self.new ≡ record self.old { ready = self.new.ready } }
        ensures ready { OnOk result (self.new.ready ≡ true) }
        ensures memory { FailsForMemory result }
    {
        self.dups.reserve()
    }

    /// A dup with items takes its place, which is empty, with a guess of its group's number. Room for it is taken.
    pub fn put(&mut self, dup: Dup, group: u32)
        requires place { dup.row.place < self.old.places }
        requires vacant { dup_at dup.row.place self.old.dups ≡ None }
        requires live { is_live dup ≡ true }
        requires ready { self.old.ready ≡ true }
        ensures { HaveDups (with_new dup self.old.dups) self.old self.new }
    {
        let place = dup.row.place;
        self.counts.set(place, dup.items.len() as u32);
        self.dups.put(dup, group);
        self.empty.mark(place, false);
    }

    /// The dup at a place goes.
    pub fn clear(&mut self, place: u32)
        requires { is_some (dup_at place self.old.dups) ≡ true }
        ensures gone { HaveDups (without_place place self.old.dups) self.old self.new }
        ensures ready { self.old.ready ≡ true → self.new.ready ≡ true }
    {
        self.counts.set(place, 0);
        self.dups.clear(place);
        self.stale.mark(place, false);
        self.empty.mark(place, true);
    }

    /// A page becomes an item of the dup at a place. The one fault is `Memory`, and then nothing changes.
    pub fn add_item(&mut self, place: u32, page: GuestPage) -> Result<(), Fault>
        requires known { is_some (dup_at place self.old.dups) ≡ true }
        requires fewer { length (items_in (dup_at place self.old.dups)) < MOST_REFERENCES }
        requires absent { has_item page (items_in (dup_at place self.old.dups)) ≡ false }
        ensures added { OnOk result (HaveDups (change_at place (with_item page) self.old.dups) self.old self.new) }
        ensures kept { OnErr result (self.new ≡ record self.old { ready = self.new.ready }) }
        ensures memory { FailsForMemory result }
    {
        let count = self.dups.add_item(place, page)?;
        self.counts.set(place, count);
        if count == 1 {
            self.stale.mark(place, false);
        }
        Ok(())
    }

    /// A page is no item of the dup at a place any more.
    #[inline(always)]
    pub fn remove_item(&mut self, place: u32, page: GuestPage)
        requires { is_some (dup_at place self.old.dups) ≡ true }
        ensures { HaveDups (change_at place (without_item page) self.old.dups) self.old self.new }
    {
        if let Some(left) = self.dups.remove_item(place, page) {
            self.counts.set(place, left);
            if left == 0 {
                self.stale.mark(place, true);
            }
        }
    }
}
