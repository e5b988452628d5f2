//! What each height of the tree promises.
ghost use Rattle.std.specs.Prelude.{◌≡◌, ◌==◌, ◌<◌, ◌^◌, List, [], ◌∷◌, None, IfNone, IfOk, IfSome, IsTrue, OnErr, OnOk, ◌+◌, ◌≤◌, false, find, is_some, true};
ghost use Rattle.std.specs.Prelude.{length};
ghost use Rattle.std.specs.Int.{from_bool};
ghost use Rattle.ksm_order.specs.Listed.{IsAmong, IsCut, begins_behind, is_at, is_from, key_at};
ghost use Rattle.ksm_order.specs.Listed.{many, marked, up_to, with_item, with_mark, without};
ghost use Rattle.ksm_order.specs.declared.item.Item.{Item as TheItem};

use crate::item::Item;
use std::alloc::{AllocError, Global};

/// Items in the order of their keys.
pub trait Part: Drop {
    ghost items: { Self → List TheItem };

    /// One item alone.
    fn single(alloc: Global, item: Item) -> Result<Self, AllocError>
        ensures { IfOk result (λ part. items part ≡ item ∷ []) };

    /// Puts in an item whose key is not there.
    fn insert(&mut self, item: Item) -> Result<(), AllocError>
        requires absent { find (is_at item.key) (items self.old) ≡ None }
        ensures added { OnOk result (items self.new ≡ with_item item (items self.old)) }
        ensures kept { OnErr result (items self.new ≡ items self.old) };

    /// The same where the item is known to come right behind that which was put in last, or right before it, and there is
    /// room. It is told whether all parts ahead of this one come before the key, and those behind it behind the key.
    fn insert_next(&mut self, item: Item, ahead: bool, behind: bool) -> bool
        requires few { length (items self.old) + 1 < 2 ^ 64 }
        ensures added { IsTrue result → (find (is_at item.key) (items self.old) ≡ None)
            × (items self.new ≡ with_item item (items self.old)) × IsAmong item.key ahead behind (items self.old) }
        ensures kept { result ≡ false → self.new ≡ self.old };

    /// Takes the item of a key away, if it is there.
    fn remove(&mut self, key: u64)
        ensures { items self.new ≡ without key (items self.old) };

    /// Marks the item of a key, or takes its mark away, if it is there.
    fn set_mark(&mut self, key: u64, mark: bool)
        requires few { length (items self.old) < 2 ^ 64 }
        ensures { items self.new ≡ with_mark key mark (items self.old) };

    /// The same where the item is known to be the one behind that which was changed last. Gives its mark then.
    fn mark_next(&mut self, key: u64, mark: bool) -> Option<bool>
        requires few { length (items self.old) < 2 ^ 64 }
        ensures there { IfSome result (λ _. is_some (find (is_at key) (items self.old)) ≡ true) }
        ensures marked { IfSome result (λ _. items self.new ≡ with_mark key mark (items self.old)) }
        ensures counted { IfSome result (λ was. (from_bool was ≤ many (items self.old))
            × (many (items self.new) + from_bool was ≡ many (items self.old) + from_bool mark)) }
        ensures kept { IfNone result (self.new ≡ self.old) };

    /// Whether there is no item.
    fn is_empty(&self) -> bool
        ensures { result ≡ (length (items self.now) == 0) };

    /// Whether it is to be cut in two before one more comes in.
    fn is_full(&self) -> bool;

    /// Hands out its second half, where it is full: only what is last, where a key comes behind all, so that keys that
    /// ascend leave full parts behind.
    fn spill(&mut self, key: u64) -> Result<Option<Self>, AllocError>
        ensures cut { IfOk result (λ half. IfSome half (λ more. IsCut (items self.old) (items self.new) (items more))) }
        ensures kept { IfOk result (λ half. IfNone half (items self.new ≡ items self.old)) }
        ensures failed { OnErr result (items self.new ≡ items self.old) };

    /// How many items are marked.
    fn count(&self) -> usize
        ensures { result ≡ many (items self.now) };

    /// Whether the first item comes behind a key.
    fn begins_behind(&self, key: u64) -> bool
        ensures { result ≡ begins_behind key (items self.now) };

    /// The item of a key.
    fn find(&self, key: u64) -> Option<Item>
        ensures { result ≡ find (is_at key) (items self.now) };

    /// The first item whose key is not below a key.
    fn first_from(&self, key: u64) -> Option<Item>
        ensures { result ≡ find (is_from key) (items self.now) };

    /// How many marked items come before a key.
    fn up_to(&self, key: u64) -> usize
        ensures { result ≡ up_to key (items self.now) };

    /// The key of the marked item at a place among the marked.
    fn nth(&self, place: usize) -> Option<u64>
        ensures { result ≡ key_at (marked (items self.now)) place };
}
