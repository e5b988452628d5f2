//! The pages that are due: those that the next pass has to visit, where it goes through all pages at once.
//!
//! What waits would mostly wait again in the next pass, so such a pass may leave it as it is. That is so until a dup
//! comes to have room, the page is stored to, or a knob is set; so a command that may do so says which page is due by
//! that, or that it is no longer known which pages are due. Then the next pass visits all pages. A page that leaves a
//! dup with room for one more page opens none: what waits could join that dup already.
//!
//! A pass may go on so in parts, each over what is due there. Rows further on still say that they wait, from the last
//! pass on; they do so once the pass has gone by them (`Reach`).

ghost use Rattle.std.specs.Prelude.{◌≡◌, ◌==◌, ◌⊎◌, ◌-◌, None, true, false, [], ◌||◌, ◌&&◌, not, IfErr, OnErr, OnOk, length, option_map, if◌then◌else◌};
ghost use Rattle.ksm_book.specs.Terms.{GuestPage, has_item, same_page};
ghost use Rattle.ksm_book.specs.Due.{FindsFirst, FindsFirstUpTo, has_gone_by as is_gone_by, reach_at, reach_to};

use ksm_base::{Fault, GuestPage};
use ksm_pages::{ShortOrder, Spot};
use std::alloc::Global;
use std::marker::Model;
use std::mem::replace;

/// Which pages a pass that visits only what is due has gone by: of the rows that say that they wait only those do.
#[derive(Clone, Copy, Debug)]
pub enum Reach {
    /// None yet.
    Nowhere,
    /// Those up to a page.
    UpTo(GuestPage),
    /// Those before a page.
    Before(GuestPage),
    /// All: no such pass goes on.
    Everywhere,
}

impl Reach {
    /// Of a pass that goes to the last one, or to the end.
    pub fn to(last: Option<GuestPage>) -> Reach
        ensures { result ≡ reach_to last }
    {
        match last {
            None => Reach::Everywhere,
            Some(page) => Reach::UpTo(page),
        }
    }

    /// Whether the pass has gone by a page.
    #[inline(always)]
    pub fn has_gone_by(self, page: GuestPage) -> bool
        ensures { result ≡ is_gone_by self page }
    {
        match self {
            Reach::Nowhere => false,
            Reach::UpTo(last) => !last.comes_before(page),
            Reach::Before(next) => page.comes_before(next),
            Reach::Everywhere => true,
        }
    }
}

/// The pages that are due, if they are known, each with a guess of the key of its row; and how many they may become.
/// How far a pass over them has gone, and how many rows that say that they wait it has not gone by.
///
/// To add a page costs a step. Before a pass those added are put in order: then a call costs the logarithm of the
/// number of pages that are due, at most.
#[derive(Drop)]
pub struct Due {
    alloc: Global,
    order: ShortOrder,
    added: Vec<Spot>,
    known: bool,
    room: usize,
    reach: Reach,
    later: usize,
}

impl Model for Due {
    ghost use Rattle.std.specs.Prelude.{◌++◌, ◌&&◌, ◌==◌, length, map};
    ghost use Rattle.ksm_pages.specs.Ordered.{AreAscending};
    ghost use Rattle.ksm_book.specs.Due.{DueView, pages_of};

    ghost Value = { DueView };

    ghost view = { λ d. record {
      pages = map (λ n. n.page) d.order ++ pages_of d.added.items;
      known = d.known;
      ready = d.known && length d.added.items == 0;
      reach = d.reach;
      later = d.later;
    } };

    ghost invariant = { λ d. AreAscending d.order };
}

impl Due {
    /// It is not known which pages are due.
    pub fn new(alloc: Global) -> Due
        ensures known { result.known ≡ false }
        ensures reach { (result.reach ≡ Reach.Everywhere) × (result.later ≡ 0) }
    {
        Due {
            alloc,
            order: ShortOrder::new(alloc),
            added: Vec::new(alloc),
            known: false,
            room: 0,
            reach: Reach::Everywhere,
            later: 0,
        }
    }

    /// How far the pass has gone.
    #[inline(always)]
    pub fn reach(&self) -> Reach
        ensures { result ≡ self.now.reach }
    {
        self.reach
    }

    /// How many rows that say that they wait the pass has not gone by.
    #[inline(always)]
    pub fn later(&self) -> usize
        ensures { result ≡ self.now.later }
    {
        self.later
    }

    /// The pass goes so far, and does not go by so many rows that say that they wait.
    pub fn go_to(&mut self, reach: Reach, later: usize)
        ensures { self.new ≡ record self.old { reach = reach; later = later } }
    {
        self.reach = reach;
        self.later = later;
    }

    /// Whether the pass has gone by the pages up to a cursor, or by none where there is no page at it.
    pub fn goes_on_from(&self, cursor: Option<GuestPage>) -> bool
        ensures right { result ≡ true → (cursor ≡ None) ⊎ (self.now.reach ≡ reach_at cursor) }
        ensures start { cursor ≡ None → result ≡ true }
        ensures all { self.now.reach ≡ reach_at cursor → result ≡ true }
    {
        match (cursor, self.reach) {
            (None, _) => true,
            (Some(page), Reach::UpTo(last)) => page == last,
            _ => false,
        }
    }

    /// The row of a page says no longer that it waits.
    #[inline(always)]
    pub fn lose_waiting(&mut self, page: GuestPage)
        ensures { self.new ≡ record self.old { later = self.old.later - (if is_gone_by self.old.reach page then 0 else 1) } }
    {
        if !self.reach.has_gone_by(page) {
            self.later = self.later.saturating_sub(1);
        }
    }

    /// Whether it is known which pages are due.
    #[inline(always)]
    pub fn is_known(&self) -> bool
        ensures { result ≡ self.now.known }
    {
        self.known
    }

    /// Whether no page is due, where it is known.
    pub fn is_empty(&self) -> bool
        ensures { result ≡ (length self.now.pages == 0) }
    {
        self.order.len() == 0 && self.added.is_empty()
    }

    /// It is no longer known which pages are due.
    #[inline(always)]
    pub fn forget(&mut self)
        ensures { self.new ≡ record self.old { known = false; ready = false } }
    {
        self.known = false;
    }

    /// No page is due yet. So many may become so: where there are more, a pass may as well visit all pages.
    pub fn begin(&mut self, room: usize)
        ensures { self.new ≡ record self.old { pages = []; known = true; ready = true } }
    {
        self.order = ShortOrder::new(self.alloc);
        self.added.clear();
        self.known = true;
        self.room = room;
    }

    /// The page of a spot is due. Where there are too many, or memory is refused, it is no longer known which are.
    pub fn add(&mut self, spot: Spot)
        ensures added { self.new.known ≡ true → (self.old.known ≡ true) × ((page : GuestPage)
            → has_item page self.new.pages ≡ (same_page spot.page page || has_item page self.old.pages)) }
        ensures rest { (self.new.reach ≡ self.old.reach) × (self.new.later ≡ self.old.later) }
    {
        if !self.known {
            return;
        }
        let len = self.order.len().saturating_add(self.added.len());
        if len >= self.room || self.added.push(spot).is_err() {
            self.known = false;
        }
    }

    /// Puts the pages in order that were added. Says whether it is known then which are due: where memory is refused,
    /// it is not.
    pub fn put_in_order(&mut self) -> bool
        ensures ready { result ≡ self.new.ready }
        ensures known { self.new.known ≡ self.new.ready }
        ensures same { self.new.known ≡ true → (self.old.known ≡ true) × ((page : GuestPage)
            → has_item page self.new.pages ≡ has_item page self.old.pages) }
        ensures rest { (self.new.reach ≡ self.old.reach) × (self.new.later ≡ self.old.later) }
    {
        let mut added = replace(&mut self.added, Vec::new(self.alloc));
        'added: while let Some(spot) = added.pop() {
            if self.insert(spot).is_err() {
                self.known = false;
            }
        }
        self.added = added;
        self.known
    }

    /// The page of a spot is due, and stands in order. Refused for memory alone, it changes nothing.
    pub fn insert(&mut self, spot: Spot) -> Result<(), Fault>
        ensures rest { self.new ≡ record self.old { pages = self.new.pages } }
        ensures added { OnOk result ((page : GuestPage)
            → has_item page self.new.pages ≡ (same_page spot.page page || has_item page self.old.pages)) }
        ensures kept { OnErr result (self.new ≡ self.old) }
        ensures memory { IfErr result (λ fault. fault ≡ Fault.Memory) }
    {
        if self.order.find(spot.page).is_some() {
            return Ok(());
        }
        let key = u32::try_from(spot.key).unwrap_or(u32::MAX);
        self.order.insert(spot.page, key)?;
        Ok(())
    }

    /// A page is due no longer, while a pass goes on.
    pub fn remove(&mut self, page: GuestPage)
        requires ready { self.old.ready ≡ true }
        requires due { has_item page self.old.pages ≡ true }
        ensures rest { self.new ≡ record self.old { pages = self.new.pages } }
        ensures gone { (other : GuestPage)
            → has_item other self.new.pages ≡ (has_item other self.old.pages && not (same_page page other)) }
    {
        self.order.remove(page);
    }

    /// The first page behind a cursor that is due, while a pass goes on.
    pub fn after(&self, cursor: Option<GuestPage>) -> Option<Spot>
        requires { self.now.ready ≡ true }
        ensures { FindsFirst cursor self.now.pages (option_map (λ s. s.page) result) }
    {
        match self.order.after(cursor) {
            Some(named) => Some(Spot {
                page: named.page,
                key: named.key as usize,
            }),
            None => None,
        }
    }

    /// The same, up to the last page, or to the end.
    #[inline(always)]
    pub fn next_up_to(&self, last: Option<GuestPage>, cursor: Option<GuestPage>) -> Option<Spot>
        requires { self.now.ready ≡ true }
        ensures { FindsFirstUpTo last cursor self.now.pages (option_map (λ s. s.page) result) }
    {
        let spot = self.after(cursor)?;
        match last {
            Some(last) if last.comes_before(spot.page) => None,
            _ => Some(spot),
        }
    }
}
