//! The unstable tree (mm/ksm): it leads from a tree and bytes to the row that waits with these, or did last.
//!
//! A table has the keys of rows, a few in each place. The place is told by a digest of the bytes, and a row is compared
//! before it is believed. The place hangs on no tree, so it stays where all nodes come to have one, or each its own;
//! rows with the same bytes in the trees of several nodes share it. Where the place is full the key stands in a map of
//! contents. So nobody can pick contents that are dear to find, and a page that waits takes some twenty bytes here.

ghost use Rattle.std.specs.List.{list_any};
ghost use Rattle.std.specs.Prelude.{◌≡◌, ◌==◌, ◌<◌, ℕ, All, Bool, List, [], None, Some, IfErr, IfSome, MatchOption, OnErr, OnOk, true, false, find, length, not, slice_index_or};
ghost use Rattle.ksm_pages.specs.Held.{tree_by as tree_of_home};
ghost use Rattle.ksm_pages.specs.Unstable.{AreApart, AreLed, Keeps, KeepsOthers, holder, if_passes, is_led, meets, other_holder, place, stands_under, turned as halves_turned};
ghost use Rattle.ksm_pages.specs.Terms.{number_of, Row, tree_of};
ghost use Rattle.slab.specs.Slab.{get};

use crate::row::Entry;
use ksm_base::{Fault, Knobs, PageBytes};
use ksm_tree::{Content, same_bytes};
use slab::Slab;
use std::alloc::Global;
use std::collections::BTreeMap;

// 2 to the 64 over the golden ratio. The high bits of a product by it hang on all bits of what is multiplied.
const SPREAD: u64 = 0x9e37_79b9_7f4a_7c15;

// How many keys stand in a place.
const WIDE: usize = 4;

/// No key, and none was there before.
const NO_KEY: u32 = u32::MAX;

/// No key any more. All keys are below.
pub const GONE: u32 = u32::MAX - 1;

/// The unstable tree.
#[derive(Drop)]
pub struct UnstableTree {
    places: Vec<[u32; WIDE]>,
    others: BTreeMap<Content, u32>,
}

/// The tree of a row with a home, where each node may have its own.
#[inline(always)]
pub fn tree_by(by_node: bool, home: u32) -> u32
    ensures { result ≡ tree_of_home by_node home }
{
    if by_node { home } else { 0 }
}

/// The tree of a row with a home, under knobs.
#[inline(always)]
pub fn tree_in(knobs: &Knobs, home: u32) -> u32
    ensures { (row : Row) → row.home ≡ home → result ≡ tree_of knobs.now row }
{
    tree_by(knobs.merge_across_nodes != 1, home)
}

// A number with its halves in each other's place, so that what hangs on its high bits alone comes to hang on all.
#[inline(always)]
fn turned(number: u64) -> u64
    ensures { result ≡ halves_turned number }
{
    (number << 32).wrapping_add(number >> 32)
}

/// The number of the place of bytes, in a table of so many.
#[tactic(auto, using(crate::proofs::Names::drop_more, crate::proofs::Names::drop_all))]
#[inline(always)]
fn place_of(places: usize, bytes: &PageBytes) -> usize
    ensures { result ≡ place places bytes.now }
{
    let mut digest = 0;
    for word in bytes {
        digest = turned(digest).wrapping_add(*word).wrapping_mul(SPREAD);
    }
    digest = turned(digest).wrapping_mul(SPREAD);
    ((digest >> 32).wrapping_mul(places as u64) >> 32) as usize
}

/// The entry under a key, if the tree leads to it.
#[inline(always)]
fn led(entries: &Slab<Entry>, key: u32) -> Option<&Entry>
    ensures { MatchOption result (is_led entries.now key ≡ false) (λ entry.
        (is_led entries.now key ≡ true) × (get entries.now key ≡ Some entry.now)) }
{
    if key >= GONE {
        return None;
    }
    match entries.get(key as usize) {
        Some(entry) if entry.in_tree.is_in() => Some(entry),
        _ => None,
    }
}

/// Whether the tree leads to the entry under a key, and that has this tree and these bytes.
#[inline(always)]
fn stands(entries: &Slab<Entry>, by_node: bool, key: u32, tree: u32, bytes: &PageBytes) -> bool
    ensures { result ≡ stands_under by_node entries.now tree bytes.now key }
{
    match led(entries, key) {
        Some(entry) => tree_by(by_node, entry.home) == tree && same_bytes(&entry.bytes, bytes),
        None => false,
    }
}

/// Whether the tree leads to the entry under a key.
#[inline(always)]
pub fn is_in_tree(entries: &Slab<Entry>, key: u32) -> bool
    ensures { result ≡ is_led entries.now key }
{
    led(entries, key).is_some()
}

// The first of some keys under which a row with a tree and bytes stands.
#[inline(always)]
fn standing_in(
    keys: &[u32],
    entries: &Slab<Entry>,
    by_node: bool,
    tree: u32,
    bytes: &PageBytes,
) -> Option<u32>
    ensures { result ≡ find (stands_under by_node entries.now tree bytes.now) keys.now }
{
    for key in keys {
        if stands(entries, by_node, *key, tree, bytes) {
            return Some(*key);
        }
    }
    None
}

// Where in a place a key stands that leads to no row.
#[inline(always)]
fn free_in(keys: &[u32; WIDE], entries: &Slab<Entry>) -> Option<usize>
    ensures some { IfSome result (λ at.
        (at < WIDE) × (is_led entries.now (slice_index_or keys.now at 0) ≡ false)) }
    ensures none { result ≡ None → list_any (λ key. not (is_led entries.now key)) keys.now ≡ false }
{
    for at in 0..WIDE {
        if !is_in_tree(entries, keys[at]) {
            return Some(at);
        }
    }
    None
}

// Where in a place a key stands.
#[inline(always)]
fn index_in(keys: &[u32; WIDE], key: u32) -> Option<usize>
    ensures { IfSome result (λ at. (at < WIDE) × (slice_index_or keys.now at 0 ≡ key)) }
{
    for at in 0..WIDE {
        if keys[at] == key {
            return Some(at);
        }
    }
    None
}

// Whether no two keys of a place lead to rows of the same bytes. Mostly at most its first leads to a row.
#[inline(always)]
fn are_apart(keys: &[u32; WIDE], entries: &Slab<Entry>) -> bool
    ensures { result ≡ true → AreApart entries.now keys.now (length keys.now) }
{
    if keys[1] == NO_KEY && keys[2] == NO_KEY && keys[3] == NO_KEY {
        return true;
    }
    for at in 1..WIDE {
        if let Some(entry) = led(entries, keys[at]) {
            if standing_in(&keys[..at], entries, false, 0, &entry.bytes).is_some() {
                return false;
            }
        }
    }
    true
}

impl UnstableTree {
    /// A tree that leads to no row, with room for so many keys; less where memory is refused.
    pub fn new(alloc: Global, keys: usize) -> UnstableTree {
        UnstableTree {
            places: vec![in alloc; [NO_KEY; WIDE]; keys].unwrap_or(Vec::new(alloc)),
            others: BTreeMap::new(alloc),
        }
    }

    /// Whether there is room for so many keys, so that few places are full.
    pub fn has_room(&self, keys: usize) -> bool {
        keys / 4 * 3 <= self.places.len()
    }

    /// The key of the row to which the tree leads from a tree and bytes.
    #[inline(always)]
    pub fn find(
        &self,
        entries: &Slab<Entry>,
        by_node: bool,
        tree: u32,
        bytes: &PageBytes,
    ) -> Option<u32>
        ensures { result ≡ holder by_node entries.now self.now tree bytes.now }
    {
        let at = place_of(self.places.len(), bytes);
        if let Some(keys) = self.places.get(at) {
            let found = standing_in(keys, entries, by_node, tree, bytes);
            if found.is_some() || keys.contains(&NO_KEY) {
                return found;
            }
        }
        self.find_other(entries, by_node, tree, bytes)
    }

    // The same where the place is full.
    #[inline(never)]
    fn find_other(
        &self,
        entries: &Slab<Entry>,
        by_node: bool,
        tree: u32,
        bytes: &PageBytes,
    ) -> Option<u32>
        ensures { result ≡ other_holder by_node entries.now self.now tree bytes.now }
    {
        let content = Content::of(tree, bytes);
        let key = self.others.get(&content).copied()?;
        stands(entries, by_node, key, tree, bytes).then_some(key)
    }

    /// A search from a tree and bytes that no row in the tree has comes to a key, to which the tree did not lead. The
    /// one fault is `Memory`, and then the tree leads where it did.
    #[inline(always)]
    pub fn lead(
        &mut self,
        entries: &Slab<Entry>,
        tree: u32,
        bytes: &PageBytes,
        key: u32,
    ) -> Result<(), Fault>
        requires below { key < GONE }
        requires fresh { is_led entries.now key ≡ false }
        ensures leads { OnOk result (meets self.new tree bytes.now key ≡ true) }
        ensures kept { (by_node : Bool)
            → ((k : ℕ) → stands_under by_node entries.now tree bytes.now k ≡ false)
            → Keeps by_node entries.now self.old self.new }
        ensures memory { IfErr result (λ fault. fault ≡ Fault.Memory) }
    {
        let at = place_of(self.places.len(), bytes);
        if let Some(keys) = self.places.get_mut(at) {
            if let Some(free) = free_in(keys, entries) {
                keys[free] = key;
                return Ok(());
            }
        }
        self.lead_beside(tree, bytes, key)
    }

    // The same where the place is full.
    #[tactic(auto, using(crate::proofs::Leading::other_numbers))]
    #[inline(never)]
    fn lead_beside(&mut self, tree: u32, bytes: &PageBytes, key: u32) -> Result<(), Fault>
        ensures places { self.new.places.items ≡ self.old.places.items }
        ensures here { OnOk result (number_of tree bytes.now self.new.others.entries ≡ Some key) }
        ensures others { KeepsOthers tree bytes.now self.old self.new }
        ensures kept { OnErr result (self.new.others.entries ≡ self.old.others.entries) }
        ensures memory { IfErr result (λ fault. fault ≡ Fault.Memory) }
    {
        let content = Content {
            tree,
            bytes: *bytes,
        };
        self.others.insert(content, key)?;
        Ok(())
    }

    /// The key of a row to which the tree does not lead any more goes from the place of the tree and bytes that it had.
    pub fn forget(&mut self, entries: &Slab<Entry>, tree: u32, bytes: &PageBytes, key: u32)
        requires gone { is_led entries.now key ≡ false }
        ensures { (by_node : Bool) → Keeps by_node entries.now self.old self.new }
    {
        let at = place_of(self.places.len(), bytes);
        if let Some(keys) = self.places.get_mut(at) {
            if let Some(here) = index_in(keys, key) {
                keys[here] = GONE;
                return;
            }
        }
        self.forget_beside(tree, bytes, key);
    }

    // The same where it does not stand in that place.
    #[tactic(auto, using(crate::proofs::Leading::other_numbers))]
    #[inline(never)]
    fn forget_beside(&mut self, tree: u32, bytes: &PageBytes, key: u32)
        ensures places { self.new.places.items ≡ self.old.places.items }
        ensures here { number_of tree bytes.now self.new.others.entries
            ≡ if_passes (λ k. not (k == key)) (number_of tree bytes.now self.old.others.entries) }
        ensures others { KeepsOthers tree bytes.now self.old self.new }
    {
        let content = Content::of(tree, bytes);
        if self.others.get(&content).copied() == Some(key) {
            self.others.remove(&content);
        }
    }

    /// Whether the tree, in which each node has one of its own, or else all have one, is right in the other case too.
    pub fn fits(&self, entries: &Slab<Entry>, by_node: bool) -> bool
        requires { AreLed (not by_node) entries.now self.now }
        ensures { result ≡ true → AreLed by_node entries.now self.now }
    {
        if !self.others.is_empty() {
            return false;
        }
        if by_node {
            return true;
        }
        for keys in &self.places {
            if !are_apart(keys, entries) {
                return false;
            }
        }
        true
    }
}
