//! The pages that a visit of the scan may change: those of mergeable rows with frames of their own, so there are never
//! more of these than frames.
//!
//! Some other pages may be listed too, and a page twice: whoever visits a page looks at its row anyhow. So a page stays
//! listed in vain once it is merged, its row is gone, or no scan visits it any more, until many may be so. Where memory
//! for a page is refused, the list is no longer known to have all, and the next scan makes it anew, or goes through all
//! rows where memory is refused again: so no command is refused for it, and no contract speaks of the list. So it is
//! where more than half of the list is there in vain.

ghost use Rattle.std.specs.List.Sorted.{IsPermutation};
ghost use Rattle.std.specs.Prelude.{◌≡◌, ◌≤◌, ◌||◌, ◌++◌, ◌∷◌, [], true, false, length, All, OnErr, OnOk, IfNone, IfSome, IsTrue};
ghost use Rattle.ksm_pages.specs.Terms.{after_cursor, comes_before, GuestPage, has_item, IsPlace, same_page};
ghost use Rattle.ksm_pages.specs.Filed.{IsInVain, is_useless as is_of_no_use};
ghost use Rattle.ksm_pages.specs.Held.{AreInOrder, AreSmall, HasGap, IsAddedTo, IsPutAmong, low_spot};
ghost use Rattle.slab.specs.Slab.{get};

use crate::order::{Order, from_of};
use crate::row::{Entry, Spot};
use ksm_base::GuestPage;
use ksm_order::{Keyed, insert_at, is_place, place_of};
use ksm_rmap::{key_of, page_of};
use slab::Slab;
use std::alloc::{AllocError, Global};
use std::marker::Model;

/// Room for so many pages that were added is kept once they are in order.
const MANY: usize = 16_384;

/// So many pages or fewer are put in one by one. A sort costs a step for each listed page, and so does each move of
/// those behind a page, though a cheaper one: so it does not matter how many are listed.
const FEW: usize = 12;

/// A visit of a page without a row searches for it, so it weighs as much as so many whose row is found.
const WEIGHT_OF_A_SEARCH: usize = 4;

/// A page that is listed, by its key, below 2^48; and a guess of the key of its row.
#[derive(Clone, Copy, Debug)]
pub struct Listed {
    page: u64,
    row: usize,
}

impl Keyed for Listed {
    ghost key_of = { λ listed. listed.page };

    fn key(self) -> u64 {
        self.page
    }
}

/// Pages, each with a guess of the key of its row, and whether all that a visit may change are among them.
///
/// To add a page costs a step. Those that did not come in order are put in order when a scan begins. Where they fit
/// between two others, or are few, that costs a move of those behind; else a sort of all. Once more than two pages for
/// each row want more room, the next scan makes the list anew by a walk over all rows.
#[derive(Drop)]
pub struct Restless {
    alloc: Global,
    /// In order.
    listed: Vec<Listed>,
    /// Those that came since and are not in order yet.
    added: Vec<Listed>,
    known: bool,
    /// All are known, and in order.
    ready: bool,
    /// How many pages have come to be listed in vain since `sweep` looked, by their weight.
    useless: usize,
    /// A guess of the index of the next page that a scan asks for.
    told: usize,
}

impl Model for Restless {
    ghost use Rattle.std.specs.Prelude.{◌++◌};
    ghost use Rattle.ksm_pages.specs.Held.{AreInOrder, AreSmall, IsReady, Listing, pages_of};

    ghost Value = { Listing };

    ghost view = { λ r. record {
      pages = pages_of r.listed.items ++ pages_of r.added.items;
      known = r.known;
      ready = r.ready;
    } };

    ghost invariant = { λ r. AreInOrder r.listed.items × AreSmall r.listed.items × AreSmall r.added.items
        × IsReady r.added.items r.known r.ready };
}

/// The index of the first page from a key on. A guess is tried first, and then the one before, which is right where the
/// page that was told last was not visited.
#[inline(always)]
fn place_by(listed: &[Listed], guess: usize, from: u64) -> usize
    requires { AreInOrder listed.now }
    ensures { IsPlace (λ l. l.page) from listed.now result }
{
    if is_place(listed, guess, from) {
        return guess;
    }
    search(listed, guess.wrapping_sub(1), from)
}

// The same, where the first guess was wrong.
fn search(listed: &[Listed], guess: usize, from: u64) -> usize
    requires { AreInOrder listed.now }
    ensures { IsPlace (λ l. l.page) from listed.now result }
{
    if from == 0 {
        return 0;
    }
    if is_place(listed, guess, from) {
        return guess;
    }
    place_of(listed, from)
}

/// The index in front of which all that were added are in order, where there is one, and they are in order themselves.
fn gap_for(listed: &[Listed], added: &[Listed]) -> Option<usize>
    requires { AreInOrder listed.now }
    ensures { IfSome result (HasGap listed.now added.now) }
{
    let first = added.first()?;
    let last = added.last()?;
    let at = place_of(listed, first.page);
    if is_place(listed, at, last.page) && added.is_sorted_by(|one, next| one.page <= next.page) {
        Some(at)
    } else {
        None
    }
}

/// Puts each page that was added in its place among others. A guess of an index stays right.
fn put_each(listed: &mut Vec<Listed>, guess: &mut usize, added: &[Listed]) -> Result<(), AllocError>
    requires order { AreInOrder listed.old.items }
    requires small { AreSmall listed.old.items × AreSmall added.now }
    ensures { OnOk result (IsPutAmong listed.old.items added.now listed.new.items) }
{
    for one in added {
        let at = place_of(listed.as_slice(), one.page);
        insert_at(listed, at, *one)?;
        if at < *guess {
            *guess = guess.saturating_add(1);
        }
    }
    Ok(())
}

/// Puts a page behind others, where there are so many rows. Where there is room for it, that is no call; more room is
/// refused to more than two pages for each row.
#[inline(always)]
fn push_to(listed: &mut Vec<Listed>, one: Listed, rows: usize) -> Result<(), AllocError>
    ensures added { OnOk result (listed.new.items ≡ listed.old.items ++ one ∷ []) }
    ensures kept { OnErr result (listed.new.items ≡ listed.old.items) }
{
    if listed.len() == listed.capacity() {
        if listed.len() / 2 > rows {
            return Err(AllocError);
        }
        listed.reserve(1)?;
    }
    listed.push_reserved(one);
    Ok(())
}

/// Turns pages that stand in falling order.
fn turn_falling(added: &mut [Listed])
    ensures { IsPermutation added.old added.new }
{
    if added.is_sorted_by(|one, next| one.page >= next.page) {
        added.reverse();
    }
}

/// Sorts pages, where many of them are in order already by a sort that keeps runs.
fn sort(listed: &mut Vec<Listed>, in_runs: bool) -> Result<(), AllocError>
    ensures same { OnOk result (IsPermutation listed.old.items listed.new.items) }
    ensures order { OnOk result (AreInOrder listed.new.items) }
{
    if in_runs {
        listed.sort_by_key(|one: &Listed| one.page)?;
    } else {
        listed.sort_unstable_by_key(|one: &Listed| one.page);
    }
    Ok(())
}

/// Puts pages that were added in order among others. Many that fit between none are sorted together with these.
fn put_all(
    listed: &mut Vec<Listed>,
    guess: &mut usize,
    added: &mut [Listed],
) -> Result<(), AllocError>
    requires order { AreInOrder listed.old.items }
    requires small { AreSmall listed.old.items × AreSmall added.old }
    ensures { OnOk result (IsPutAmong listed.old.items added.old listed.new.items) }
{
    if added.len() <= FEW {
        return put_each(listed, guess, added);
    }
    turn_falling(added);
    if let Some(at) = gap_for(listed.as_slice(), added) {
        let behind = listed.split_off(at)?;
        listed.extend_from_slice(added)?;
        listed.extend_from_slice(behind.as_slice())?;
        return Ok(());
    }
    let in_runs = listed.len() / 8 > added.len();
    listed.extend_from_slice(added)?;
    sort(listed, in_runs)?;
    Ok(())
}

/// Whether it is certain that a page is listed in vain.
fn is_useless(entries: &Slab<Entry>, order: &Order, listed: &Listed) -> bool
    ensures { result ≡ is_of_no_use order.now (low_spot listed.now) (get entries.now listed.now.row) }
{
    let page = page_of(listed.page % (1 << 48));
    match entries.get(listed.row) {
        Some(entry) if entry.page == page => !entry.is_restless(),
        _ => order.find(page).is_none(),
    }
}

impl Restless {
    /// No pages, and none that is missing.
    pub fn new(alloc: Global) -> Restless
        ensures { result ≡ record { pages = []; known = true; ready = true } }
    {
        Restless {
            alloc,
            listed: Vec::new(alloc),
            added: Vec::new(alloc),
            known: true,
            ready: true,
            useless: 0,
            told: 0,
        }
    }

    /// Whether all pages that a visit may change are listed.
    pub fn is_known(&self) -> bool
        ensures { result ≡ self.now.known }
    {
        self.known
    }

    /// Whether that is so, and all pages are in order.
    #[inline(always)]
    pub fn is_ready(&self) -> bool
        ensures ready { result ≡ self.now.ready }
        ensures known { IsTrue result → self.now.known ≡ true }
    {
        self.ready
    }

    /// No page is listed any more, and all are about to be.
    pub fn clear(&mut self)
        ensures { self.new ≡ record { pages = []; known = true; ready = true } }
    {
        self.listed.clear();
        self.added.clear();
        self.known = true;
        self.ready = true;
        self.useless = 0;
    }

    /// The first listed page behind a cursor. A guess of its index is the one behind the page that was told last.
    #[inline(always)]
    pub fn after(&mut self, cursor: Option<GuestPage>) -> Option<Spot>
        requires { self.old.ready ≡ true }
        ensures kept { self.new ≡ self.old }
        ensures none { IfNone result (All (λ p. after_cursor cursor p ≡ false) self.old.pages) }
        ensures next { IfSome result (λ spot. (after_cursor cursor spot.page ≡ true)
            × All (λ p. after_cursor cursor p ≡ true → comes_before p spot.page ≡ false) self.old.pages) }
    {
        let at = place_by(self.listed.as_slice(), self.told, from_of(cursor));
        self.told = at + 1;
        if at >= self.listed.len() {
            return None;
        }
        let next = self.listed[at];
        Some(Spot {
            page: page_of(next.page),
            key: next.row,
        })
    }

    /// The page of a spot is listed, where there are so many rows. Where memory for it is refused, or the list is long
    /// for so few rows, it is no longer known.
    #[inline(always)]
    pub fn add(&mut self, spot: Spot, rows: usize)
        ensures { IsAddedTo spot.page self.old self.new }
    {
        if !self.known {
            return;
        }
        if self.push(spot, rows).is_err() {
            self.known = false;
            self.ready = false;
        }
    }

    // The same where all is known. Pages mostly come in order.
    #[inline(always)]
    fn push(&mut self, spot: Spot, rows: usize) -> Result<(), AllocError>
        ensures known { self.new.known ≡ self.old.known }
        ensures added { OnOk result ((page : GuestPage)
            → has_item page self.new.pages ≡ (same_page spot.page page || has_item page self.old.pages)) }
    {
        let listed = Listed {
            page: key_of(spot.page),
            row: spot.key,
        };
        if self.ready && is_place(self.listed.as_slice(), self.listed.len(), listed.page + 1) {
            push_to(&mut self.listed, listed, rows)?;
        } else {
            self.ready = false;
            push_to(&mut self.added, listed, rows)?;
        }
        Ok(())
    }

    /// Puts the pages in order that were added. Where memory for that is refused, no page is listed any more, and the
    /// list is no longer known.
    pub fn put_in_order(&mut self)
        ensures ready { self.new.ready ≡ self.new.known }
        ensures kept { self.new.known ≡ true → (self.old.known ≡ true) × ((page : GuestPage)
            → has_item page self.new.pages ≡ has_item page self.old.pages) }
    {
        if self.ready {
            return;
        }
        if put_all(&mut self.listed, &mut self.told, self.added.as_mut_slice()).is_err() {
            self.listed.clear();
            self.known = false;
        }
        self.added.clear();
        self.ready = self.known;
        if self.added.capacity() > MANY {
            self.added = Vec::new(self.alloc);
        }
    }

    /// A listed page has become one that no visit changes.
    #[inline(always)]
    pub fn let_be(&mut self)
        ensures { self.new ≡ self.old }
    {
        self.useless = self.useless.saturating_add(1);
    }

    /// A page that may be listed has no row any more.
    pub fn lose_row(&mut self)
        ensures { self.new ≡ self.old }
    {
        self.useless = self.useless.saturating_add(WEIGHT_OF_A_SEARCH);
    }

    /// Once many pages may be listed in vain, those are not listed any more.
    pub fn sweep(&mut self, entries: &Slab<Entry>, order: &Order)
        ensures known { self.new.known ≡ self.old.known }
        ensures fewer { length self.new.pages ≤ length self.old.pages }
        ensures kept { (page : GuestPage) → has_item page self.old.pages ≡ true → has_item page self.new.pages ≡ false
            → IsInVain entries.now order.now page }
    {
        if self.useless > self.listed.len() / 2 {
            self.listed
                .retain(|listed| !is_useless(entries, order, listed));
            self.useless = 0;
        }
    }
}
