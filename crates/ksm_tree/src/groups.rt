//! The groups by number: each tree and bytes once, with the places of its dups.
//!
//! A group is found by its number in one step, where the caller remembers it, or `Guesses` do; else by a search in the
//! order of the contents, so nobody can pick contents that are dear to find. What is remembered is a guess: it is
//! compared before it is believed.
//!
//! A group keeps its number when no dup stands in it any more, until there are 4,096 groups more than there were after
//! the last sweep, in a large table four for each place: then all such groups go, so a sweep costs each new group a few
//! steps. How many groups are chains is kept beside them, so the counters of chains are read.
#![tactic(auto, using(crate::proofs::Standing::steps))]

ghost use Rattle.std.specs.Prelude.{[], false, IfOk, IfSome, is_some, IsTrue, length, List, OnOk, option_copied, Some, true, ℕ, ◌+◌, ◌≡◌, ◌≢◌, ◌≤◌, ◌⊎◌};
ghost use Rattle.ksm_tree.specs.Terms.{FailsForMemory, get, MOST_FRAMES as most_frames, MOST_SPARE as most_spare};
ghost use Rattle.ksm_tree.specs.Numbered.{AreGroups, has_place, places_in};
ghost use Rattle.ksm_tree.specs.Places.{with_place, without};

use crate::content::{Content, SLOTS, same_bytes, slot_of};
use crate::guesses::Guesses;
use crate::places::Places;
use crate::room::reserve_one;
use crate::totals::Totals;
use ksm_base::{Fault, MOST_FRAMES, PageBytes};
use slab::Slab;
use std::alloc::Global;
use std::collections::BTreeMap;
use std::collections::btree_map::Entry;

/// Where the caller remembers no number.
pub const NO_NUMBER: u32 = u32::MAX;

/// So many groups may come until those in which no dup stands are dropped, or four for each place if these are more.
pub const SPARE: usize = 4_096;

/// So many at most.
pub const MOST_SPARE: usize = SPARE + 4 * MOST_FRAMES as usize;

/// A group: the places of its dups, in ascending order.
#[derive(Drop)]
pub struct Group {
    pub content: Content,
    pub places: Places,
}

/// The groups, and how many of them are chains.
#[derive(Drop)]
pub struct Groups {
    numbers: BTreeMap<Content, u32>,
    groups: Slab<Group>,
    pub totals: Totals,
    // So many groups there may be: before one more comes those go in which no dup stands. And how many more than are
    // left then.
    most: usize,
    spare: usize,
    recent: Guesses,
    ghost lawful: { AreGroups numbers.entries groups },
    ghost bounded: { spare ≤ most_spare },
}

impl Groups {
    ghost use Rattle.ksm_tree.specs.Groups.{chain_in, GroupsKeepReserve, HasRoomAt, IsCounted, IsCountedAnew, IsMoved, IsSwept, number_in, SameChains, SameNumbers};

    /// No groups, in a table with so many places.
    pub fn new(alloc: Global, places: u32) -> Groups
        requires { places ≤ most_frames }
        ensures chains { (t : ℕ) (b : List ℕ) → chain_in t b result ≡ [] }
        ensures totals { result.totals ≡ record { chains = 0; dups = 0; longest = 0 } }
        ensures numbers { result.numbers.entries ≡ [] }
        ensures most { result.most ≤ most_spare }
    {
        let spare = SPARE.max(4 * places as usize);
        Groups {
            numbers: BTreeMap::new(alloc),
            groups: Slab::new(alloc),
            totals: Totals {
                chains: 0,
                dups: 0,
                longest: 0,
            },
            most: spare,
            spare,
            recent: Guesses::new(alloc, SLOTS),
        }
    }

    /// The number of a group, if it has one. The guess is tried first.
    #[inline(always)]
    pub fn number(&self, guess: u32, tree: u32, bytes: &PageBytes) -> Option<u32>
        ensures { result ≡ number_in tree bytes.now self.now }
    {
        if self.is_of(guess, tree, bytes) {
            return Some(guess);
        }
        self.search(tree, bytes)
    }

    /// Whether the group with a number is that of a tree and bytes.
    #[inline(always)]
    pub fn is_of(&self, number: u32, tree: u32, bytes: &PageBytes) -> bool
        ensures { IsTrue result → number_in tree bytes.now self.now ≡ Some number }
    {
        match self.groups.get(number as usize) {
            Some(group) => group.content.tree == tree && same_bytes(&group.content.bytes, bytes),
            None => false,
        }
    }

    // The same, where nothing is guessed.
    #[inline(never)]
    fn search(&self, tree: u32, bytes: &PageBytes) -> Option<u32>
        ensures { result ≡ number_in tree bytes.now self.now }
    {
        self.numbers.get(&Content::of(tree, bytes)).copied()
    }

    /// The group with a number.
    #[inline(always)]
    pub fn at(&self, number: u32) -> Option<&Group>
        ensures { option_copied result ≡ get self.now.groups number }
    {
        self.groups.get(number as usize)
    }

    /// The number of a group, if it has one. The guess is tried first, then the one that is kept here, which is set
    /// where a search finds the group.
    #[inline(always)]
    pub fn known(&mut self, guess: u32, tree: u32, bytes: &PageBytes) -> Option<u32>
        ensures number { result ≡ number_in tree bytes.now self.old }
        ensures chains { SameChains self.old self.new }
        ensures numbers { SameNumbers self.old self.new }
    {
        let guessed = self.guessed(guess, tree, bytes);
        if guessed.is_some() {
            return guessed;
        }
        let number = self.search(tree, bytes)?;
        self.recent.set(slot_of(tree, bytes), number);
        Some(number)
    }

    // The number of a group, where it is the guess or the one that is kept here.
    #[inline(always)]
    fn guessed(&self, guess: u32, tree: u32, bytes: &PageBytes) -> Option<u32>
        ensures { IfSome result (λ number. number_in tree bytes.now self.now ≡ Some number) }
    {
        if self.is_of(guess, tree, bytes) {
            return Some(guess);
        }
        let recent = self.recent.at(slot_of(tree, bytes));
        self.is_of(recent, tree, bytes).then_some(recent)
    }

    /// The number of a group, which it gets if it has none: then groups in which no dup stands may lose theirs. The
    /// guess is tried first, then the one that is kept here. The one fault is `Memory`, and then none gets one.
    #[inline(always)]
    pub fn numbered(
        &mut self,
        alloc: Global,
        guess: u32,
        tree: u32,
        bytes: &PageBytes,
    ) -> Result<u32, Fault>
        ensures numbered { IfOk result (λ number. number_in tree bytes.now self.new ≡ Some number) }
        ensures chains { SameChains self.old self.new }
        ensures reserve { GroupsKeepReserve tree bytes.now self.old self.new }
        ensures memory { FailsForMemory result }
    {
        if let Some(number) = self.guessed(guess, tree, bytes) {
            return Ok(number);
        }
        let number = self.search_or_enter(alloc, tree, bytes)?;
        self.recent.set(slot_of(tree, bytes), number);
        Ok(number)
    }

    // The same, where nothing is guessed. One search finds the group, or the place for it.
    #[inline(never)]
    fn search_or_enter(&mut self, alloc: Global, tree: u32, bytes: &PageBytes) -> Result<u32, Fault>
        ensures numbered { IfOk result (λ number. number_in tree bytes.now self.new ≡ Some number) }
        ensures chains { SameChains self.old self.new }
        ensures reserve { GroupsKeepReserve tree bytes.now self.old self.new }
        ensures memory { FailsForMemory result }
    {
        self.make_room();
        let content = Content {
            tree,
            bytes: *bytes,
        };
        let full = self.numbers.len() >= self.most;
        match self.numbers.entry(content)? {
            Entry::Occupied(entry) => Ok(*entry.get()),
            Entry::Vacant(entry) => {
                if full {
                    return Err(Fault::Memory);
                }
                reserve_one(&mut self.groups)?;
                let Ok(number) = u32::try_from(self.groups.vacant_key()) else {
                    return Err(Fault::Memory);
                };
                let number = *entry.insert(number);
                let _ = self.groups.insert_reserved(Group {
                    content,
                    places: Places::new(alloc),
                });
                Ok(number)
            }
        }
    }

    // Where there are as many groups as may be, those go in which no dup stands.
    #[tactic(auto, using(crate::proofs::Standing::all_used, std::proofs::lemmas::List::get_or_past))]
    fn make_room(&mut self)
        ensures chains { SameChains self.old self.new }
        ensures room { IsSwept self.new ⊎ SameNumbers self.old self.new }
    {
        if self.numbers.len() < self.most {
            return;
        }
        for number in 0..self.groups.capacity() {
            self.drop_idle(number);
        }
        self.most = self.numbers.len().saturating_add(self.spare);
    }

    // The group with a number goes, if there is one and no dup stands in it.
    fn drop_idle(&mut self, number: usize)
        ensures chains { SameChains self.old self.new }
        ensures occupied { is_some (get self.new.groups number) ≡ true
            → has_place (get self.new.groups number) ≡ true }
        ensures others { (other : ℕ) → other ≢ number → get self.new.groups other ≡ get self.old.groups other }
        ensures slots { length self.new.groups.slots ≡ length self.old.groups.slots }
    {
        let group = self.groups.get(number);
        if !group.is_some_and(|group| group.places.list.is_empty()) {
            return;
        }
        if let Some(group) = self.groups.try_remove(number) {
            self.numbers.remove(&group.content);
        }
    }

    /// Takes room for one more place in the group with a number. The one fault is `Memory`, and then nothing changes.
    pub fn reserve(&mut self, number: u32) -> Result<(), Fault>
        ensures room { OnOk result (HasRoomAt number self.new) }
        ensures chains { SameChains self.old self.new }
        ensures numbers { SameNumbers self.old self.new }
        ensures memory { FailsForMemory result }
    {
        match self.groups.get_mut(number as usize) {
            Some(group) => group.places.reserve(),
            None => Ok(()),
        }
    }

    /// A place joins the group with a number, where room is taken for it.
    pub fn add(&mut self, number: u32, place: u32)
        requires room { HasRoomAt number self.old }
        requires counted { (t : ℕ) (b : List ℕ) → IsCounted t b self.old }
        ensures added { (t : ℕ) (b : List ℕ) → number_in t b self.old ≡ Some number
            → IsMoved t b (with_place place) self.old self.new }
        ensures totals { (t : ℕ) (b : List ℕ) → number_in t b self.old ≡ Some number
            → IsCountedAnew t b self.old self.new }
        ensures numbers { SameNumbers self.old self.new }
    {
        if let Some(group) = self.groups.get_mut(number as usize) {
            let before = group.places.list.len();
            group.places.insert(place);
            self.totals = self.totals.regrouped(before, group.places.list.len());
        }
    }

    /// A place leaves the group of a tree and bytes. The guess is tried first.
    pub fn remove(&mut self, guess: u32, tree: u32, bytes: &PageBytes, place: u32)
        requires { IsCounted tree bytes.now self.old }
        ensures removed { IsMoved tree bytes.now (without place) self.old self.new }
        ensures totals { IsCountedAnew tree bytes.now self.old self.new }
        ensures numbers { SameNumbers self.old self.new }
        ensures room { (number : ℕ) → HasRoomAt number self.old → HasRoomAt number self.new }
    {
        let Some(number) = self.number(guess, tree, bytes) else {
            return;
        };
        if let Some(group) = self.groups.get_mut(number as usize) {
            let before = group.places.list.len();
            group.places.remove(place);
            self.totals = self.totals.regrouped(before, group.places.list.len());
        }
    }
}
