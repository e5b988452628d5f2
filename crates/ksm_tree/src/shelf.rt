//! The dups by place, in a table as small as it may be: a key for each place, and under the keys the dups that there
//! are. An empty place takes four bytes.
//!
//! A key is compared before it is believed: a dup is at a place if it stands there by its row. So nothing has to be
//! written where no dup is, and a key that leads to a dup of another place leads nowhere.
#![tactic(auto, using(crate::proofs::Shelved::steps))]

ghost use Rattle.std.specs.Prelude.{false, IfOk, if◌then◌else◌, is_some, length, None, OnErr, OnOk, option_copied, replicate, slice_index_or, slice_set, Some, true, ◌<◌, ◌≡◌, ◌≤◌};
ghost use Rattle.ksm_tree.specs.Terms.{FailsForMemory, has_item, MOST_FRAMES, MOST_REFERENCES, with_item, without_item};
ghost use Rattle.ksm_tree.specs.Dups.{dup_of, items_in};
ghost use Rattle.ksm_tree.specs.Slots.{change_slot, present};

use crate::dup::Dup;
use crate::groups::NO_NUMBER;
use ksm_base::{Fault, GuestPage};
use slab::Slab;
use std::alloc::Global;
use std::marker::Model;

/// A dup as it lies under its key, with the number of its group as it was when the dup came: a guess.
#[derive(Drop)]
pub struct Kept {
    pub dup: Dup,
    pub group: u32,
}

/// The dups, each at the place that its row tells.
pub struct Shelf {
    keys: Vec<u32>,
    dups: Slab<Kept>,
}

// Written out, it is one call for whoever drops what holds a shelf.
impl Drop for Shelf {
    fn drop(self) {
        let Shelf { keys, dups } = self;
        drop(keys);
        drop(dups);
    }
}

impl Model for Shelf {
    ghost use Rattle.ksm_tree.specs.Slots.{has_room, ShelfState, slots_by};

    ghost Value = { ShelfState };

    ghost view = { λ s. record { slots = slots_by s.keys.items s.dups; ready = has_room s.dups } };
}

impl Shelf {
    /// So many empty places. The one fault is `Memory`.
    pub fn open(alloc: Global, places: u32) -> Result<Shelf, Fault>
        ensures empty { IfOk result (λ shelf. shelf.slots ≡ replicate places None) }
        ensures memory { FailsForMemory result }
    {
        Ok(Shelf {
            keys: vec![in alloc; 0; places as usize]?,
            dups: Slab::new(alloc),
        })
    }

    /// How many places there are.
    #[inline(always)]
    pub fn len(&self) -> usize
        ensures { result ≡ length self.now.slots }
    {
        self.keys.len()
    }

    /// The dup at a place.
    #[inline(always)]
    pub fn at(&self, place: u32) -> Option<&Dup>
        ensures { option_copied result ≡ slice_index_or self.now.slots place None }
    {
        let key = *self.keys.get(place as usize)?;
        let kept = self.dups.get(key as usize)?;
        (kept.dup.row.place == place).then_some(&kept.dup)
    }

    /// The dup with a number. It is sought place by place.
    #[tactic(auto, using(crate::proofs::OneSlot::first_found))]
    #[inline(never)]
    pub fn numbered(&self, number: u64) -> Option<&Dup>
        requires { length self.now.slots ≤ MOST_FRAMES }
        ensures { option_copied result ≡ dup_of number (present self.now.slots) }
    {
        for place in 0..self.len() as u32 {
            if let Some(dup) = self.at(place) {
                if dup.row.number == number {
                    return Some(dup);
                }
            }
        }
        None
    }

    /// A guess of the number of the group of the dup at a place. Nothing is promised of it.
    pub fn group_at(&self, place: u32) -> u32 {
        let key = self.keys.get(place as usize);
        let kept = key.and_then(|key| self.dups.get(*key as usize));
        kept.map_or(NO_NUMBER, |kept| kept.group)
    }

    /// Takes room for one more dup. The one fault is `Memory`, and then nothing changes.
    pub fn reserve(&mut self) -> Result<(), Fault>
        ensures slots { self.new.slots ≡ self.old.slots }
        ensures ready { OnOk result (self.new.ready ≡ true) }
        ensures memory { FailsForMemory result }
    {
        self.dups.reserve(1)?;
        if self.dups.vacant_key() > u32::MAX as usize {
            return Err(Fault::Memory);
        }
        Ok(())
    }

    /// A dup takes its place, which is empty, with a guess of its group's number.
    pub fn put(&mut self, dup: Dup, group: u32)
        requires place { dup.row.place < length self.old.slots }
        requires vacant { slice_index_or self.old.slots dup.row.place None ≡ None }
        requires ready { self.old.ready ≡ true }
        ensures { self.new.slots ≡ slice_set self.old.slots dup.row.place (Some dup) }
    {
        let place = dup.row.place;
        let key = self.dups.insert_reserved(Kept { dup, group });
        self.keys[place as usize] = key as u32;
    }

    /// The dup at a place goes, if there is one.
    pub fn clear(&mut self, place: u32)
        ensures slots { self.new.slots ≡ slice_set self.old.slots place None }
        ensures ready { self.old.ready ≡ true → self.new.ready ≡ true }
    {
        if self.at(place).is_some() {
            let key = self.keys[place as usize];
            drop(self.dups.try_remove(key as usize));
        }
    }

    /// A page becomes an item of the dup at a place. Gives how many items that has then. The one fault is `Memory`, and
    /// then nothing changes.
    #[inline(always)]
    pub fn add_item(&mut self, place: u32, page: GuestPage) -> Result<u32, Fault>
        requires known { is_some (slice_index_or self.old.slots place None) ≡ true }
        requires fewer { length (items_in (slice_index_or self.old.slots place None)) < MOST_REFERENCES }
        requires absent { has_item page (items_in (slice_index_or self.old.slots place None)) ≡ false }
        ensures added { OnOk result (self.new.slots ≡ change_slot place (with_item page) self.old.slots) }
        ensures kept { OnErr result (self.new.slots ≡ self.old.slots) }
        ensures count { IfOk result (λ count.
            count ≡ length (with_item page (items_in (slice_index_or self.old.slots place None)))) }
        ensures memory { FailsForMemory result }
    {
        let key = self.keys[place as usize];
        let Some(kept) = self.dups.get_mut(key as usize) else {
            unreachable!()
        };
        kept.dup.items.add(page)?;
        Ok(kept.dup.items.len() as u32)
    }

    /// A page is no item of the dup at a place any more. Gives how many items are left, if it was one.
    #[inline(always)]
    pub fn remove_item(&mut self, place: u32, page: GuestPage) -> Option<u32>
        requires { is_some (slice_index_or self.old.slots place None) ≡ true }
        ensures removed { self.new.slots ≡ change_slot place (without_item page) self.old.slots }
        ensures count { let items = items_in (slice_index_or self.old.slots place None) in
            result ≡ (if has_item page items then Some (length (without_item page items)) else None) }
    {
        let key = self.keys[place as usize];
        let Some(kept) = self.dups.get_mut(key as usize) else {
            unreachable!()
        };
        let was_one = kept.dup.items.remove(page);
        was_one.then_some(kept.dup.items.len() as u32)
    }
}
