//! Guesses of the keys of rows, each in the slot of its page. The table has at least twice as many slots as frames, and
//! as rows: where more rows come, it gets twice as many slots, so a page of a large host is found in a step too.
ghost use Rattle.std.specs.Prelude.{◌≤◌};
ghost use Rattle.ksm_pages.specs.Terms.{MOST_FRAMES};

use crate::row::Entry;
use ksm_base::GuestPage;
use ksm_tree::{Guesses, NO_NUMBER};
use slab::Slab;
use std::alloc::Global;

// How many slots a table has at least, a power of two.
const FEWEST: u32 = 2_048;

// How many slots a table has at most, a power of two.
const MOST: u32 = 1 << 31;

/// A guess of the key of each page's row: the key of the row that came last of the pages with its slot. Nothing is
/// promised of it.
#[derive(Drop)]
pub struct Keys {
    keys: Guesses,
    last_slot: u32,
    /// How far the slots of a page lie apart in two guests that follow each other: by the golden section of all, so
    /// that the first pages of few guests do not meet.
    stride: u32,
}

impl Keys {
    /// No guesses, in a table with so many frames.
    pub fn new(alloc: Global, frames: u32) -> Keys
        requires { frames ≤ MOST_FRAMES }
    {
        let most = (2 * frames).checked_next_power_of_two();
        Keys::with_slots(alloc, most.unwrap_or(FEWEST).max(FEWEST))
    }

    // No guesses, with so many slots.
    fn with_slots(alloc: Global, slots: u32) -> Keys {
        Keys {
            keys: Guesses::new(alloc, slots as usize),
            last_slot: slots.wrapping_sub(1),
            stride: (u64::from(slots) * 618_034 / 1_000_000) as u32,
        }
    }

    // The slot of a page. Pages that follow each other in a guest have slots of their own.
    #[inline(always)]
    fn slot_of(&self, page: GuestPage) -> usize {
        let number = page
            .page
            .wrapping_add(u32::from(page.guest).wrapping_mul(self.stride));
        (number & self.last_slot) as usize
    }

    /// A guess of the key of a page's row.
    #[inline(always)]
    pub fn guess(&self, page: GuestPage) -> usize {
        self.keys.at(self.slot_of(page)) as usize
    }

    /// The row of a page was added under a key to the entries. Where these are many for the slots, the table gets twice
    /// as many slots.
    pub fn remember(&mut self, alloc: Global, entries: &Slab<Entry>, page: GuestPage, key: u32) {
        let many = entries.len() > self.last_slot as usize / 2 + 1;
        if many && self.last_slot < MOST / 2 {
            self.widen(alloc, entries);
        }
        self.put(page, key);
    }

    // The row of a page is kept under a key.
    fn put(&mut self, page: GuestPage, key: u32) {
        let slot = self.slot_of(page);
        self.keys.set(slot, key);
    }

    // The table gets twice as many slots, with the keys of all entries. Where memory is refused, nothing is guessed
    // until a row is added.
    #[inline(never)]
    fn widen(&mut self, alloc: Global, entries: &Slab<Entry>) {
        let slots = self.last_slot.saturating_mul(2).saturating_add(2);
        *self = Keys::with_slots(alloc, slots);
        for (key, entry) in entries.iter() {
            self.put(entry.page, u32::try_from(key).unwrap_or(NO_NUMBER));
        }
    }
}
