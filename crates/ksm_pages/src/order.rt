//! All pages in order, with rank: a page is found by a search, and the visits of a scan are counted, not walked.
ghost use Rattle.std.specs.Prelude.{◌≡◌, ◌⊎◌, ℕ, ◌+◌, ◌≤◌, ◌<◌, ◌^◌, [], true, None, Some, IfErr, IfSome, IsTrue, OnErr, OnOk, count_by, drop, find, is_some, length, nat_lt, not, option_map};
ghost use Rattle.ksm_pages.specs.Terms.{after_cursor, GuestPage, page_of};
ghost use Rattle.ksm_pages.specs.Ahead.{EndsAt, last_of, pages_behind, pages_between};
ghost use Rattle.ksm_pages.specs.Ordered.{is_of, marked, named_by, visited, with_named, without_named};

use crate::ahead::Ahead;
use crate::named::Named;
use ksm_base::{Fault, GuestPage};
use ksm_order::{Item, Leaf, Node, Part};
use ksm_rmap::{key_of, page_of};
use std::alloc::Global;
use std::marker::Model;

/// Pages in order, each with the key of its row, and whether a scan visits it: parts of some height side by side.
///
/// Where the parts are as high as they are for all pages, no call costs more than the logarithm of the number of pages,
/// in whatever order they came, and of however many guests they are. Over lower parts a call passes through fewer
/// heights, and a part that is cut in two moves more of the others.
#[derive(Drop)]
pub struct Order<P: Part = Node<Node<Leaf>>> {
    pages: Node<P>,
    len: usize,
}

/// Pages of which there are few, and whose rank nobody asks for.
pub type ShortOrder = Order<Leaf>;

impl<P: Part> Model for Order<P> {
    ghost use Rattle.std.specs.Prelude.{List, map};
    ghost use Rattle.ksm_pages.specs.declared.named.Named.{Named};
    ghost use Rattle.ksm_pages.specs.Ordered.{IsOrder, named_by};

    ghost Value = { List Named };

    ghost view = { λ o. map named_by o.pages };

    ghost invariant = { λ o. IsOrder o.pages o.len };
}

/// The least key behind a cursor.
#[inline(always)]
pub fn from_of(cursor: Option<GuestPage>) -> u64
    ensures { (key : ℕ) → after_cursor cursor (page_of key) ≡ not (nat_lt key result) }
{
    match cursor {
        Some(page) => key_of(page) + 1,
        None => 0,
    }
}

/// An item as it is seen, if there is one.
fn named_by(item: Option<Item>) -> Option<Named>
    requires { IfSome item (λ x. x.key < 2 ^ 48) }
    ensures { result ≡ option_map named_by item }
{
    let item = item?;
    Some(Named {
        page: page_of(item.key),
        key: item.value,
        mergeable: item.marked,
    })
}

impl<P: Part> Order<P> {
    /// No pages.
    pub fn new(alloc: Global) -> Order<P>
        ensures { result ≡ [] }
    {
        Order {
            pages: Node::new(alloc),
            len: 0,
        }
    }

    /// How many pages there are.
    pub fn len(&self) -> usize
        ensures { result ≡ length self.now }
    {
        self.len
    }

    /// How many of them a scan visits.
    pub fn mergeable(&self) -> usize
        ensures { result ≡ count_by (λ n. n.mergeable) self.now }
    {
        self.pages.count()
    }

    /// What stands in the order for a page.
    #[tactic(auto, using(crate::proofs::Ranked::found_small, crate::proofs::Ranked::found_by))]
    pub fn find(&self, page: GuestPage) -> Option<Named>
        ensures { result ≡ find (is_of page) self.now }
    {
        named_by(self.pages.find(key_of(page)))
    }

    /// The first page behind a cursor.
    #[tactic(auto, using(crate::proofs::Ranked::found_small, crate::proofs::Names::find_mapped))]
    pub fn after(&self, cursor: Option<GuestPage>) -> Option<Named>
        ensures { result ≡ find (λ n. after_cursor cursor n.page) self.now }
    {
        named_by(self.pages.first_from(from_of(cursor)))
    }

    /// Adds a page, for a scan to visit. Where it is there already, or memory is refused, nothing changes.
    #[tactic(auto, using(crate::proofs::Ranked::found_by, crate::proofs::Ranked::put_its))]
    pub fn insert(&mut self, page: GuestPage, key: u32) -> Result<(), Fault>
        ensures absent { OnOk result (find (is_of page) self.old ≡ None) }
        ensures added { OnOk result
            (self.new ≡ with_named (record { page = page; key = key; mergeable = true }) self.old) }
        ensures kept { OnErr result (self.new ≡ self.old) }
        ensures fault { IfErr result (λ fault. (fault ≡ Fault.Memory)
            ⊎ ((fault ≡ Fault.AlreadyRegistered) × (is_some (find (is_of page) self.old) ≡ true))) }
    {
        // No memory holds more pages than can be counted.
        let Some(len) = self.len.checked_add(1) else {
            return Err(Fault::Memory);
        };
        let is_new = self.pages.add(Item {
            key: key_of(page),
            value: key,
            marked: true,
        })?;
        if !is_new {
            return Err(Fault::AlreadyRegistered);
        }
        self.len = len;
        Ok(())
    }

    /// Takes away a page that is there.
    #[tactic(auto, using(crate::proofs::Names::filter_mapped, crate::proofs::Ranked::is_its))]
    pub fn remove(&mut self, page: GuestPage)
        requires there { is_some (find (is_of page) self.old) ≡ true }
        ensures { self.new ≡ without_named page self.old }
    {
        self.pages.remove(key_of(page));
        self.len -= 1;
    }

    /// A scan visits the page from now on, or does not, if it is there.
    #[tactic(auto, using(crate::proofs::Ranked::marked_by))]
    #[inline(never)]
    pub fn mark(&mut self, page: GuestPage, mergeable: bool)
        ensures { self.new ≡ marked page mergeable self.old }
    {
        self.pages.set_mark(key_of(page), mergeable);
    }

    /// Whether a page is known to be the one at a place among those that a scan visits. Then those behind that place
    /// come behind it.
    #[inline(always)]
    fn is_at(&self, page: GuestPage, place: usize) -> bool
        ensures within { IsTrue result → place < length (visited self.now) }
        ensures behind { IsTrue result
            → pages_behind (Some page) (visited self.now) ≡ drop (place + 1) (visited self.now) }
    {
        match self.pages.nth(place) {
            Some(key) => key == key_of(page),
            None => false,
        }
    }

    /// How many of the pages that a scan visits do not come behind a cursor. The guess is tried first.
    #[tactic(auto, using(crate::proofs::Names::filter_all))]
    fn passed(&self, cursor: Option<GuestPage>, guess: usize) -> usize
        ensures ahead { pages_behind cursor (visited self.now) ≡ drop result (visited self.now) }
        ensures within { result ≤ length (visited self.now) }
    {
        let Some(page) = cursor else {
            return 0;
        };
        if guess > 0 && self.is_at(page, guess - 1) {
            return guess;
        }
        self.pages.up_to(from_of(cursor))
    }

    /// What so many visits behind the cursor come to, one at least. How many visits of the pass led to the cursor is a
    /// guess, and spares a search where it is right.
    #[tactic(auto, using(crate::proofs::Ranked::ranks))]
    pub fn ahead(&self, cursor: Option<GuestPage>, guess: usize, visits: u64) -> Ahead
        requires { 1 ≤ visits }
        ensures { EndsAt (pages_behind cursor (visited self.now)) visits result }
    {
        let passed = self.passed(cursor, guess);
        let left = (self.pages.count() - passed) as u64;
        if left <= visits {
            return Ahead::End(left);
        }
        match self.pages.nth(passed + (visits - 1) as usize) {
            Some(key) => Ahead::At(page_of(key)),
            None => Ahead::End(left),
        }
    }

    /// How many pages behind the cursor and before a page a scan visits, and the last of them, or else the cursor.
    #[tactic(auto, using(crate::proofs::Ranked::passed_many, crate::proofs::Ranked::small_at))]
    pub fn between(&self, cursor: Option<GuestPage>, page: GuestPage) -> (u64, Option<GuestPage>)
        ensures count { result.0 ≡ length (pages_between cursor page (visited self.now)) }
        ensures last { result.1 ≡ last_of cursor (pages_between cursor page (visited self.now)) }
    {
        let passed = self.passed(cursor, 0);
        let before = self.pages.up_to(key_of(page));
        if before <= passed {
            return (0, cursor);
        }
        match self.pages.nth(before - 1) {
            Some(key) => ((before - passed) as u64, Some(page_of(key))),
            None => (0, cursor),
        }
    }
}
