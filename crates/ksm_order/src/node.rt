//! The heights above: parts side by side, each a tree of the height below.
#![tactic(auto, using(crate::proofs::Parts::steps))]

ghost use Rattle.std.specs.Prelude.{◌≡◌, ◌+◌, ◌^◌, ◌<◌, ◌≤◌, [], None, IfOk, IsTrue, OnErr, OnOk, drop, find};
ghost use Rattle.std.specs.Prelude.{Ok, false, flat_map, is_some, length, nat_lt, take, true, ◌||◌, ◌≢◌};
ghost use Rattle.std.specs.List.{list_any};
ghost use Rattle.ksm_order.specs.Listed.{AreBefore, AreBehind, AreParts, IsPartOf, is_at, key_at, many, marked, up_to};
ghost use Rattle.ksm_order.specs.Listed.{with_item, with_mark, without};

use crate::item::Item;
use crate::part::Part;
use std::alloc::{AllocError, Global};
use std::marker::Model;

/// Parts in order, none empty, with how many items of them are marked.
#[derive(Drop)]
pub struct Node<P: Part> {
    alloc: Global,
    parts: Vec<P>,
    count: usize,
    /// A guess: the part that was changed last.
    last: usize,
}

impl<P: Part> Model for Node<P> {
    ghost use Rattle.std.specs.Prelude.{List, flat_map};
    ghost use Rattle.ksm_order.specs.declared.item.Item.{Item};
    ghost use Rattle.ksm_order.specs.Listed.{AreParts, IsCounted};

    ghost Value = { List Item };

    ghost view = { λ n. flat_map P.items n.parts.items };

    ghost invariant = { λ n. AreParts P.items n.parts.items × IsCounted (flat_map P.items n.parts.items) n.count };
}

impl<P: Part> Node<P> {
    /// No items.
    pub fn new(alloc: Global) -> Node<P>
        ensures { result ≡ [] }
    {
        Node {
            alloc,
            parts: Vec::new(alloc),
            count: 0,
            last: 0,
        }
    }

    /// Puts in an item, where its key is not there. Says whether it was not.
    pub fn add(&mut self, item: Item) -> Result<bool, AllocError>
        requires few { length self.old + 1 < 2 ^ 64 }
        ensures added { result ≡ Ok true
            → (find (is_at item.key) self.old ≡ None) × (self.new ≡ with_item item self.old) }
        ensures there { result ≡ Ok false → is_some (find (is_at item.key) self.old) ≡ true }
        ensures kept { result ≢ Ok true → self.new ≡ self.old }
    {
        // Pages mostly come one behind the other, and nothing stands beside all of them.
        if self.insert_next(item, true, true) {
            return Ok(true);
        }
        if self.find(item.key).is_some() {
            return Ok(false);
        }
        self.insert(item)?;
        Ok(true)
    }
}

/// Whether it is known that no part in front of one has items of a key or behind it.
#[inline(always)]
#[tactic(auto, using(crate::proofs::Parts::ahead_of))]
fn reaches_back<P: Part>(parts: &[P], at: usize, key: u64) -> bool
    requires parts { AreParts P.items parts.now }
    requires within { at < length parts.now }
    ensures { IsTrue result → AreBefore key (flat_map P.items (take at parts.now)) }
{
    at == 0 || !parts[at].begins_behind(key)
}

/// Whether it is known that no part behind one has items of a key or before it. Where there is none, it is told.
#[inline(always)]
#[tactic(auto, using(crate::proofs::Parts::behind_of))]
fn reaches_on<P: Part>(parts: &[P], at: usize, key: u64, behind: bool) -> bool
    requires parts { AreParts P.items parts.now }
    requires within { at < length parts.now }
    ensures behind { IsTrue result → AreBehind key (flat_map P.items (drop (at + 1) parts.now)) }
    ensures told { IsTrue result → behind || list_any (λ x. nat_lt key x.key) (flat_map P.items parts.now) ≡ true }
{
    if at + 1 < parts.len() {
        return parts[at + 1].begins_behind(key);
    }
    behind
}

/// The part in which a key is, or would be. The guess is tried first.
#[inline(always)]
fn part_of<P: Part>(parts: &[P], guess: usize, key: u64) -> usize
    requires parts { AreParts P.items parts.now }
    requires some { 0 < length parts.now }
    ensures { IsPartOf P.items key parts.now result }
{
    if guess < parts.len()
        && reaches_back(parts, guess, key)
        && reaches_on(parts, guess, key, true)
    {
        return guess;
    }
    search(parts, key)
}

/// The same, by halves.
fn search<P: Part>(parts: &[P], key: u64) -> usize
    requires parts { AreParts P.items parts.now }
    requires some { 0 < length parts.now }
    ensures { IsPartOf P.items key parts.now result }
{
    // Keys mostly come behind all others.
    let last = parts.len() - 1;
    if reaches_back(parts, last, key) {
        return last;
    }
    let mut low = 0;
    let mut high = parts.len();
    while low < high {
        let mid = low + (high - low) / 2;
        if parts[mid].begins_behind(key) {
            high = mid;
        } else {
            low = mid + 1;
        }
    }
    low.saturating_sub(1)
}

/// How many items of the parts are marked.
fn count_marked<P: Part>(parts: &[P]) -> usize
    requires { many (flat_map P.items parts.now) < 2 ^ 64 }
    ensures { result ≡ many (flat_map P.items parts.now) }
{
    let mut count = 0;
    for part in parts {
        count += part.count();
    }
    count
}

/// How many marked items come before a key, of parts with so many marked items.
fn up_to_in<P: Part>(parts: &[P], guess: usize, count: usize, key: u64) -> usize
    requires parts { AreParts P.items parts.now }
    requires counted { count ≡ many (flat_map P.items parts.now) }
    ensures { result ≡ up_to key (flat_map P.items parts.now) }
{
    if parts.is_empty() {
        return 0;
    }
    let at = part_of(parts, guess, key);
    count_marked(&parts[..at]) + parts[at].up_to(key)
}

/// Cuts the part of a key in two where it is full, and answers which part is the key's then.
fn make_room<P: Part>(parts: &mut Vec<P>, at: usize, key: u64) -> Result<usize, AllocError>
    requires parts { AreParts P.items parts.old.items }
    requires place { IsPartOf P.items key parts.old.items at }
    ensures parts { AreParts P.items parts.new.items }
    ensures items { flat_map P.items parts.new.items ≡ flat_map P.items parts.old.items }
    ensures place { IfOk result (λ into. IsPartOf P.items key parts.new.items into) }
{
    if !parts[at].is_full() {
        return Ok(at);
    }
    parts.reserve(1)?;
    let more = match parts[at].spill(key)? {
        Some(more) => more,
        None => return Ok(at),
    };
    let behind = more.begins_behind(key);
    parts.insert(at + 1, more)?;
    Ok(if behind { at } else { at + 1 })
}

/// Puts an item whose key is not there at its place.
fn put<P: Part>(
    parts: &mut Vec<P>,
    last: &mut usize,
    alloc: Global,
    item: Item,
) -> Result<(), AllocError>
    requires parts { AreParts P.items parts.old.items }
    requires absent { find (is_at item.key) (flat_map P.items parts.old.items) ≡ None }
    ensures parts { AreParts P.items parts.new.items }
    ensures added { OnOk result (flat_map P.items parts.new.items ≡ with_item item (flat_map P.items parts.old.items)) }
    ensures kept { OnErr result (flat_map P.items parts.new.items ≡ flat_map P.items parts.old.items) }
{
    if parts.is_empty() {
        parts.push(P::single(alloc, item)?)?;
        return Ok(());
    }
    let at = part_of(parts.as_slice(), *last, item.key);
    let into = make_room(parts, at, item.key)?;
    *last = into;
    parts[into].insert(item)?;
    Ok(())
}

/// Takes the item of a key out of a part, and answers how many items fewer are marked.
#[tactic(auto, using(ksm_base::proofs::Edits::count_filter_le))]
fn remove_from<P: Part>(part: &mut P, key: u64) -> usize
    ensures removed { P.items part.new ≡ without key (P.items part.old) }
    ensures fewer { result + many (P.items part.new) ≡ many (P.items part.old) }
{
    let before = part.count();
    part.remove(key);
    before - part.count()
}

/// Takes the item of a key out of the part of its key, and the part where it has no other. Answers how many items fewer
/// are marked.
fn take_out<P: Part>(parts: &mut Vec<P>, last: &mut usize, key: u64) -> usize
    requires { AreParts P.items parts.old.items }
    ensures parts { AreParts P.items parts.new.items }
    ensures removed { flat_map P.items parts.new.items ≡ without key (flat_map P.items parts.old.items) }
    ensures fewer { result + many (flat_map P.items parts.new.items) ≡ many (flat_map P.items parts.old.items) }
{
    if parts.is_empty() {
        return 0;
    }
    let at = part_of(parts.as_slice(), *last, key);
    *last = at;
    let fewer = remove_from(&mut parts[at], key);
    if !parts[at].is_empty() {
        return fewer;
    }
    parts.remove(at);
    fewer
}

/// Marks the item of a key in its part, or takes its mark away. Answers how many of that part were marked, and are.
#[inline(never)]
fn mark_in<P: Part>(parts: &mut Vec<P>, last: &mut usize, key: u64, mark: bool) -> (usize, usize)
    requires parts { AreParts P.items parts.old.items }
    requires few { length (flat_map P.items parts.old.items) < 2 ^ 64 }
    ensures parts { AreParts P.items parts.new.items }
    ensures marked { flat_map P.items parts.new.items ≡ with_mark key mark (flat_map P.items parts.old.items) }
    ensures changed { many (flat_map P.items parts.new.items) + result.0
        ≡ many (flat_map P.items parts.old.items) + result.1 }
    ensures some { result.0 ≤ many (flat_map P.items parts.old.items) }
{
    if parts.is_empty() {
        return (0, 0);
    }
    let at = part_of(parts.as_slice(), *last, key);
    *last = at;
    let was = parts[at].count();
    parts[at].set_mark(key, mark);
    (was, parts[at].count())
}

// A node of so many parts is cut in two before one more comes in.
const WIDEST: usize = 32;

impl<P: Part> Part for Node<P> {
    ghost items = { λ n. n };

    fn single(alloc: Global, item: Item) -> Result<Node<P>, AllocError> {
        let mut node = Node::new(alloc);
        node.insert(item)?;
        Ok(node)
    }

    #[tactic(auto, using(crate::proofs::Parts::many_with, crate::proofs::Changes::byte_of))]
    fn insert(&mut self, item: Item) -> Result<(), AllocError> {
        // No memory holds more items than can be counted.
        let Some(count) = self.count.checked_add(usize::from(item.marked)) else {
            return Err(AllocError);
        };
        put(&mut self.parts, &mut self.last, self.alloc, item)?;
        self.count = count;
        Ok(())
    }

    fn insert_next(&mut self, item: Item, ahead: bool, behind: bool) -> bool {
        let at = self.last;
        if at >= self.parts.len() {
            return false;
        }
        let behind = reaches_on(self.parts.as_slice(), at, item.key, behind);
        if !self.parts[at].insert_next(item, ahead & (at == 0), behind) {
            return false;
        }
        self.count += usize::from(item.marked);
        true
    }

    fn remove(&mut self, key: u64) {
        let fewer = take_out(&mut self.parts, &mut self.last, key);
        self.count -= fewer;
    }

    #[inline(always)]
    fn set_mark(&mut self, key: u64, mark: bool) {
        // Pages are mostly marked in order.
        if self.mark_next(key, mark).is_none() {
            let (was, is) = mark_in(&mut self.parts, &mut self.last, key, mark);
            self.count = self.count - was + is;
        }
    }

    fn mark_next(&mut self, key: u64, mark: bool) -> Option<bool> {
        let at = self.last;
        if at >= self.parts.len() {
            return None;
        }
        let was = self.parts[at].mark_next(key, mark)?;
        self.count = self.count - usize::from(was) + usize::from(mark);
        Some(was)
    }

    #[tactic(auto, using(crate::proofs::Changes::nothing_of_parts))]
    fn is_empty(&self) -> bool {
        self.parts.is_empty()
    }

    fn is_full(&self) -> bool {
        self.parts.len() >= WIDEST
    }

    fn spill(&mut self, key: u64) -> Result<Option<Node<P>>, AllocError> {
        let len = self.parts.len();
        if len < WIDEST {
            return Ok(None);
        }
        let at = if self.parts[len - 1].begins_behind(key) {
            len / 2
        } else {
            len - 1
        };
        let parts = self.parts.split_off(at)?;
        let count = count_marked(parts.as_slice());
        self.count -= count;
        Ok(Some(Node {
            alloc: self.alloc,
            parts,
            count,
            last: 0,
        }))
    }

    fn count(&self) -> usize {
        self.count
    }

    fn begins_behind(&self, key: u64) -> bool {
        let parts = self.parts.as_slice();
        !parts.is_empty() && parts[0].begins_behind(key)
    }

    fn find(&self, key: u64) -> Option<Item> {
        let parts = self.parts.as_slice();
        if parts.is_empty() {
            return None;
        }
        let at = part_of(parts, self.last, key);
        parts[at].find(key)
    }

    fn first_from(&self, key: u64) -> Option<Item> {
        let parts = self.parts.as_slice();
        if parts.is_empty() {
            return None;
        }
        let at = part_of(parts, self.last, key);
        match parts[at].first_from(key) {
            Some(item) => Some(item),
            None if at + 1 < parts.len() => parts[at + 1].first_from(key),
            None => None,
        }
    }

    fn up_to(&self, key: u64) -> usize {
        up_to_in(self.parts.as_slice(), self.last, self.count, key)
    }

    #[tactic(auto, using(crate::proofs::Parts::nth_cut, std::proofs::lemmas::Bool::Decides::nat_tests))]
    fn nth(&self, place: usize) -> Option<u64> {
        let parts = self.parts.as_slice();
        let mut left = place;
        for part in parts {
            let here = part.count();
            if left < here {
                return part.nth(left);
            }
            left -= here;
        }
        None
    }
}
