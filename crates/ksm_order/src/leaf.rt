//! The lowest height: items side by side.
#![tactic(auto, using(crate::proofs::Parts::leaf_steps))]

ghost use Rattle.std.specs.Prelude.{◌≡◌, ◌≤◌, ◌<◌, None, IfNone, IfSome, IsTrue, OnErr, OnOk, find, length};
ghost use Rattle.ksm_order.specs.Listed.{AreAscending, IsAmong, begins_behind, is_at, key_at, many, marked, up_to, with_item};
ghost use Rattle.ksm_order.specs.Places.{IsHere, IsPlace};

use crate::item::Item;
use crate::part::Part;
use crate::place::{is_place, place_of, stands_at};
use crate::vector::insert_at;
use std::alloc::{AllocError, Global};
use std::marker::Model;

/// Items in order, with how many of them are marked.
#[derive(Drop)]
pub struct Leaf {
    items: Vec<Item>,
    count: usize,
    /// A guess: the place of the key that is asked for next.
    next: usize,
}

impl Model for Leaf {
    ghost use Rattle.std.specs.Prelude.{List};
    ghost use Rattle.ksm_order.specs.declared.item.Item.{Item};
    ghost use Rattle.ksm_order.specs.Listed.{IsCounted};

    ghost Value = { List Item };

    ghost view = { λ l. l.items.items };

    ghost invariant = { λ l. IsCounted l.items.items l.count };
}

/// How many items come before a key. The guess is tried first.
#[inline(always)]
fn place_by(items: &[Item], guess: usize, key: u64) -> usize
    requires { AreAscending items.now }
    ensures { IsPlace (λ x. x.key) key items.now result }
{
    if is_place(items, guess, key) {
        return guess;
    }
    // Keys mostly follow one another: from the first on none is left out.
    if let Some(first) = items.first() {
        let at = key.saturating_sub(first.key) as usize;
        if is_place(items, at, key) {
            return at;
        }
    }
    place_of(items, key)
}

/// Where the item of a key stands.
#[tactic(auto, using(crate::proofs::Ordered::none_found))]
#[inline(always)]
fn position(items: &[Item], guess: usize, key: u64) -> Option<usize>
    requires { AreAscending items.now }
    ensures here { IfSome result (IsHere (λ x. x.key) key items.now) }
    ensures missing { IfNone result (find (is_at key) items.now ≡ None) }
{
    let at = place_by(items, guess, key);
    if stands_at(items, at, key) {
        Some(at)
    } else {
        None
    }
}

/// Whether a key comes between the item in front of an index and the one there. Where there is none, it is told whether
/// the key comes behind all items in front, or before all behind.
#[inline(always)]
fn fits(items: &[Item], at: usize, key: u64, ahead: bool, behind: bool) -> bool
    requires order { AreAscending items.now }
    requires within { at ≤ length items.now }
    ensures { IsTrue result → IsPlace (λ x. x.key) key items.now at × (find (is_at key) items.now ≡ None)
        × IsAmong key ahead behind items.now }
{
    let over = if at > 0 {
        items[at - 1].key < key
    } else {
        ahead
    };
    let under = if at < items.len() {
        key < items[at].key
    } else {
        behind
    };
    over & under
}

/// How many items are marked.
fn count_marked(items: &[Item]) -> usize
    ensures { result ≡ many items.now }
{
    items.iter().filter(|item| item.marked).count()
}

// A leaf of so many items is cut in two before one more comes in.
const LONGEST: usize = 64;

impl Leaf {
    // Puts in an item whose key is not there at its place.
    #[inline(always)]
    fn put(&mut self, at: usize, item: Item) -> Result<(), AllocError>
        requires place { IsPlace (λ x. x.key) item.key self.old at }
        requires absent { find (is_at item.key) self.old ≡ None }
        ensures added { OnOk result (self.new ≡ with_item item self.old) }
        ensures kept { OnErr result (self.new ≡ self.old) }
    {
        insert_at(&mut self.items, at, item)?;
        self.next = at + 1;
        self.count += usize::from(item.marked);
        Ok(())
    }
}

impl Part for Leaf {
    ghost items = { λ l. l };

    fn single(alloc: Global, item: Item) -> Result<Leaf, AllocError> {
        let mut items = Vec::new(alloc);
        items.push(item)?;
        Ok(Leaf {
            items,
            count: usize::from(item.marked),
            next: 1,
        })
    }

    fn insert(&mut self, item: Item) -> Result<(), AllocError> {
        let at = place_by(self.items.as_slice(), self.next, item.key);
        self.put(at, item)
    }

    fn insert_next(&mut self, item: Item, ahead: bool, behind: bool) -> bool {
        let items = self.items.as_slice();
        let mut at = self.next;
        if at > items.len() || items.len() >= LONGEST {
            return false;
        }
        if at > 0 && item.key < items[at - 1].key {
            at -= 1;
        }
        fits(items, at, item.key, ahead, behind) && self.put(at, item).is_ok()
    }

    fn remove(&mut self, key: u64) {
        if let Some(at) = position(self.items.as_slice(), self.next, key) {
            let gone = self.items.remove(at);
            self.next = at;
            self.count -= usize::from(gone.marked);
        }
    }

    fn set_mark(&mut self, key: u64, mark: bool) {
        if let Some(at) = position(self.items.as_slice(), self.next, key) {
            self.next = at + 1;
            let was = self.items[at].marked;
            self.items[at].marked = mark;
            self.count = self.count - usize::from(was) + usize::from(mark);
        }
    }

    fn mark_next(&mut self, key: u64, mark: bool) -> Option<bool> {
        let at = self.next;
        if at >= self.items.len() || self.items[at].key != key {
            return None;
        }
        self.next = at + 1;
        let was = self.items[at].marked;
        self.items[at].marked = mark;
        self.count = self.count - usize::from(was) + usize::from(mark);
        Some(was)
    }

    fn is_empty(&self) -> bool {
        self.items.is_empty()
    }

    fn is_full(&self) -> bool {
        self.items.len() >= LONGEST
    }

    fn spill(&mut self, key: u64) -> Result<Option<Leaf>, AllocError> {
        let len = self.items.len();
        if len < LONGEST {
            return Ok(None);
        }
        let at = if self.items[len - 1].key < key {
            len - 1
        } else {
            len / 2
        };
        let items = self.items.split_off(at)?;
        let count = count_marked(items.as_slice());
        self.count -= count;
        Ok(Some(Leaf {
            items,
            count,
            next: 0,
        }))
    }

    fn count(&self) -> usize {
        self.count
    }

    fn begins_behind(&self, key: u64) -> bool {
        let items = self.items.as_slice();
        !items.is_empty() && key < items[0].key
    }

    fn find(&self, key: u64) -> Option<Item> {
        let items = self.items.as_slice();
        match position(items, self.next, key) {
            Some(at) => Some(items[at]),
            None => None,
        }
    }

    fn first_from(&self, key: u64) -> Option<Item> {
        let items = self.items.as_slice();
        let at = place_by(items, self.next, key);
        if at < items.len() {
            Some(items[at])
        } else {
            None
        }
    }

    fn up_to(&self, key: u64) -> usize {
        let items = self.items.as_slice();
        let at = place_by(items, self.next, key);
        // Mostly all are marked.
        if self.count == items.len() {
            return at;
        }
        count_marked(&items[..at])
    }

    fn nth(&self, place: usize) -> Option<u64> {
        let items = self.items.as_slice();
        if self.count < items.len() {
            let mut marked = items.iter().filter(|item| item.marked);
            return marked.nth(place).map(|item| item.key);
        }
        items.get(place).map(|item| item.key)
    }
}
