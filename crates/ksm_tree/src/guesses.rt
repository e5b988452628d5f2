//! Numbers as guesses, each in a slot that is told by what it belongs to: the keys of pages' rows, as they came last,
//! and the numbers of groups, as they were searched for last.
//!
//! Many things have one slot, and a number may go to another thing: whoever takes one compares before it is believed.
//! So whoever picks things of one slot gains that each is searched for, as it would be without this table.
ghost use Rattle.std.specs.Prelude.{[], ◌≡◌};
ghost use Rattle.ksm_tree.specs.Guesses.{guess_at, IsBegun, IsPut};

use crate::groups::NO_NUMBER;
use std::alloc::Global;

/// A number for each of so many slots. The first number that is put in takes the memory of all; where that is refused
/// nothing is remembered.
#[derive(Drop)]
pub struct Guesses {
    slots: usize,
    numbers: Vec<u32>,
}

impl Guesses {
    /// No numbers.
    pub fn new(alloc: Global, slots: usize) -> Guesses
        ensures slots { result.slots ≡ slots }
        ensures none { result.numbers.items ≡ [] }
    {
        Guesses {
            slots,
            numbers: Vec::new(alloc),
        }
    }

    /// The number in a slot, or `NO_NUMBER`.
    #[inline(always)]
    pub fn at(&self, slot: usize) -> u32
        ensures { result ≡ guess_at self.now.numbers.items slot }
    {
        self.numbers.get(slot).copied().unwrap_or(NO_NUMBER)
    }

    /// Puts a number into a slot.
    #[inline(always)]
    pub fn set(&mut self, slot: usize, number: u32)
        ensures slots { self.new.slots ≡ self.old.slots }
        ensures put { IsPut self.old.slots slot number self.old.numbers.items self.new.numbers.items }
    {
        if slot < self.numbers.len() {
            self.numbers[slot] = number;
        } else if self.numbers.is_empty() {
            self.begin(slot, number);
        }
    }

    // Takes the memory of all slots, and puts the first number into one.
    #[inline(never)]
    fn begin(&mut self, slot: usize, number: u32)
        requires empty { self.old.numbers.items ≡ [] }
        ensures slots { self.new.slots ≡ self.old.slots }
        ensures begun { IsBegun self.old.slots slot number self.new.numbers.items }
    {
        let taken = self.numbers.resize(self.slots, NO_NUMBER);
        if taken.is_ok() && slot < self.numbers.len() {
            self.numbers[slot] = number;
        }
    }
}
