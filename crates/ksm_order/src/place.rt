//! Where a key stands among elements whose keys do not fall.
ghost use Rattle.std.specs.Prelude.{◌≡◌, ◌==◌, ℕ, IsTrue, nat_lt, true};
ghost use Rattle.std.specs.List.{list_any};
ghost use Rattle.ksm_order.specs.Places.{AreInOrder, IsHere, IsPlace};

use crate::item::Item;

/// What has a key of one number.
pub trait Keyed: Copy {
    ghost key_of: { Self → ℕ };

    /// The key.
    fn key(self) -> u64
        ensures { result ≡ key_of self };
}

impl Keyed for u64 {
    ghost key_of = { λ number. number };

    fn key(self) -> u64 {
        self
    }
}

impl Keyed for Item {
    ghost key_of = { λ item. item.key };

    fn key(self) -> u64 {
        self.key
    }
}

impl Keyed for u32 {
    ghost key_of = { λ number. number };

    fn key(self) -> u64 {
        u64::from(self)
    }
}

/// Whether the first element from a key on stands at an index, or would.
#[inline(always)]
pub fn is_place<T: Keyed>(items: &[T], at: usize, key: u64) -> bool
    requires { AreInOrder T.key_of items.now }
    ensures place { IsTrue result → IsPlace T.key_of key items.now at }
    ensures told { IsPlace T.key_of key items.now at → result ≡ true }
{
    if at > items.len() {
        return false;
    }
    if at > 0 && items[at - 1].key() >= key {
        return false;
    }
    at == items.len() || items[at].key() >= key
}

/// How many elements come before a key: the index at which the first one from the key on stands, or would.
pub fn place_of<T: Keyed>(items: &[T], key: u64) -> usize
    requires { AreInOrder T.key_of items.now }
    ensures { IsPlace T.key_of key items.now result }
{
    let mut at = 0;
    let mut left = items.len();
    while left > 0 {
        let half = left / 2;
        if items[at + half].key() < key {
            at += left - half;
        }
        left = half;
    }
    at
}

/// The same, where that is mostly the end, or the last element.
#[inline(always)]
pub fn place_near_end<T: Keyed>(items: &[T], key: u64) -> usize
    requires { AreInOrder T.key_of items.now }
    ensures { IsPlace T.key_of key items.now result }
{
    let end = items.len();
    if is_place(items, end, key) {
        return end;
    }
    if is_place(items, end.wrapping_sub(1), key) {
        return end.wrapping_sub(1);
    }
    place_of(items, key)
}

/// The same, where that is mostly the first element.
#[inline(always)]
pub fn place_near_start<T: Keyed>(items: &[T], key: u64) -> usize
    requires { AreInOrder T.key_of items.now }
    ensures { IsPlace T.key_of key items.now result }
{
    if is_place(items, 0, key) {
        return 0;
    }
    place_of(items, key)
}

/// Whether an element of a key stands at the index where it would.
#[inline(always)]
pub fn stands_at<T: Keyed>(items: &[T], at: usize, key: u64) -> bool
    requires order { AreInOrder T.key_of items.now }
    requires place { IsPlace T.key_of key items.now at }
    ensures found { result ≡ list_any (λ x. T.key_of x == key) items.now }
    ensures here { IsTrue result → IsHere T.key_of key items.now at }
{
    at < items.len() && items[at].key() == key
}
