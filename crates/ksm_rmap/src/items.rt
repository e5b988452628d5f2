//! The reverse map of one dup: a sorted list of pages, since most dups have few. Eight lie in the list itself. Of each
//! page its key is kept, since a search then compares one number a step.
ghost use Rattle.std.specs.Prelude.{◌≡◌, ◌<◌, ◌≤◌, ◌^◌, [], All, false, length, Some, map, slice_get, IfErr, IfOk, OnErr, OnOk};
ghost use Rattle.ksm_base.specs.declared.limits.TheConstants.{MOST_REFERENCES};
ghost use Rattle.ksm_base.specs.declared.page.GuestPage.{GuestPage};
ghost use Rattle.ksm_rmap.specs.Items.{AreAscending, has_item, with_item, without_item};
ghost use Rattle.ksm_rmap.specs.Keys.{page_of};

use crate::key::{key_of, page_of};
use ksm_base::{Fault, GuestPage};
use ksm_order::{move_down, move_last, place_near_end, place_near_start, place_of, stands_at};
use smallvec::SmallVec;
use std::alloc::{AllocError, Global};
use std::marker::Model;

/// The pages that are mapped to one merged page, in ascending order, each once and at most `MOST_REFERENCES` (mm/ksm,
/// the reverse map).
///
/// `add` and `remove` cost the logarithm of the number of pages, and a move of those behind.
#[derive(Drop)]
pub struct Items {
    keys: SmallVec<u64, 8>,
}

impl Model for Items {
    ghost use Rattle.std.specs.Prelude.{List, map};
    ghost use Rattle.ksm_base.specs.declared.page.GuestPage.{GuestPage};
    ghost use Rattle.ksm_rmap.specs.Keys.{AreKeys, page_of};

    ghost Value = { List GuestPage };

    ghost view = { λ i. map page_of i.keys.items };

    ghost invariant = { λ i. AreKeys i.keys.items };
}

impl Items {
    /// A dup without pages.
    pub fn new(alloc: Global) -> Items
        ensures { result ≡ [] }
    {
        Items {
            keys: SmallVec::new(alloc),
        }
    }

    /// Adds a page that is not there. The one fault is `Memory`, and then the pages stay as they were.
    #[inline(always)]
    pub fn add(&mut self, page: GuestPage) -> Result<(), Fault>
        requires fewer { length self.old < MOST_REFERENCES }
        requires absent { has_item page self.old ≡ false }
        ensures added { OnOk result (self.new ≡ with_item page self.old) }
        ensures kept { OnErr result (self.new ≡ self.old) }
        ensures memory { IfErr result (λ fault. fault ≡ Fault.Memory) }
    {
        let key = key_of(page);
        let at = place_near_end(self.keys.as_slice(), key);
        self.keys.push(key)?;
        move_last(self.keys.as_mut_slice(), at);
        Ok(())
    }

    /// Removes a page, and answers whether it was there.
    #[tactic(auto, using(crate::proofs::Keys::has_by_key))]
    #[inline(always)]
    pub fn remove(&mut self, page: GuestPage) -> bool
        ensures found { result ≡ has_item page self.old }
        ensures removed { self.new ≡ without_item page self.old }
    {
        let key = key_of(page);
        let keys = self.keys.as_mut_slice();
        let at = place_near_start(keys, key);
        let found = stands_at(keys, at, key);
        if found {
            let left = keys.len() - 1;
            move_down(keys, at);
            self.keys.truncate(left);
        }
        found
    }

    /// Whether a page is there.
    #[tactic(auto, using(crate::proofs::Keys::has_by_key))]
    pub fn contains(&self, page: GuestPage) -> bool
        ensures { result ≡ has_item page self.now }
    {
        let keys = self.keys.as_slice();
        let key = key_of(page);
        stands_at(keys, place_of(keys, key), key)
    }

    /// How many pages there are.
    #[tactic(auto, using(crate::proofs::Keys::pages_rise))]
    pub fn len(&self) -> usize
        ensures count { result ≡ length self.now }
        ensures few { result ≤ MOST_REFERENCES }
        ensures ascending { AreAscending self.now }
    {
        self.keys.len()
    }

    /// The pages, ascending, in a vector of their own. Fails for memory alone.
    pub fn pages(&self, alloc: Global) -> Result<Vec<GuestPage>, AllocError>
        ensures { IfOk result (λ pages. pages.items ≡ self.now) }
    {
        pages_of(alloc, self.keys.as_slice())
    }

    /// The page at `i`, in ascending order from 0 on.
    pub fn at(&self, i: usize) -> GuestPage
        requires { i < length self.now }
        ensures { slice_get self.now i ≡ Some result }
    {
        page_of(self.keys.as_slice()[i])
    }
}

/// The pages of keys, each in the place of its key.
fn pages_of(alloc: Global, keys: &[u64]) -> Result<Vec<GuestPage>, AllocError>
    requires { All (λ k. k < 2 ^ 48) keys.now }
    ensures { IfOk result (λ pages. pages.items ≡ map page_of keys.now) }
{
    keys.iter().map(|key| page_of(*key)).collect(alloc)
}
