//! What is read of pages: where they lie, what they hold, which comes next, and how many there are of each kind.

ghost use Rattle.std.specs.Prelude.{◌≡◌, ◌≤◌, ◌==◌, true, false, None, Some, All, find, is_some, length, option_map, option_and_then, MatchOption, IfSome};
ghost use Rattle.ksm_pages.specs.Terms.{after_cursor, comes_before, counters_from, mergeable_count, place_of, private_state, Row, row_at, waiting_state};
ghost use Rattle.ksm_pages.specs.Paged.{IsHeld, IsKnown, LooksSo, TellsNext, is_next, of_guest, page_beside, seen, told_by};

use crate::left::frame_of;
use crate::pages::{Held, Look, Pages};
use crate::row::{Entry, Kind, Spot};
use crate::unstable::tree_in;
use ksm_base::{Counters, GuestPage, PageBytes, PageState};

/// The cursor behind which the rows of a guest begin, or go on.
fn start_of(guest: Option<u16>, cursor: Option<GuestPage>) -> Option<GuestPage>
    ensures same { (row : Row) → of_guest guest row ≡ true
        → after_cursor result row.page ≡ after_cursor cursor row.page }
    ensures begun { (page : GuestPage) → page.page ≤ 4294967295 → after_cursor result page ≡ true
        → IfSome guest (λ g. g ≤ page.guest) }
{
    let before = match guest {
        Some(guest) if guest > 0 => GuestPage {
            guest: guest - 1,
            page: u32::MAX,
        },
        _ => return cursor,
    };
    match cursor {
        Some(page) if before < page => cursor,
        _ => Some(before),
    }
}

/// The least page after the cursor, of the guest where one is given. None where the cursor is at another guest, or at
/// the last number.
#[inline(always)]
fn least_next(guest: Option<u16>, cursor: Option<GuestPage>) -> Option<GuestPage>
    ensures next { IfSome result (λ page. (row : Row) → row.page ≡ page → is_next guest cursor row ≡ true) }
    ensures least { IfSome result (λ page. (row : Row) → comes_before row.page page ≡ true
        → is_next guest cursor row ≡ false) }
{
    let page = match cursor {
        Some(last) => GuestPage {
            guest: last.guest,
            page: last.page.checked_add(1)?,
        },
        None => GuestPage {
            guest: guest.unwrap_or(0),
            page: 0,
        },
    };
    match guest {
        Some(guest) if page.guest != guest => None,
        _ => Some(page),
    }
}

/// How the page of a row lies, by what is kept of it.
#[inline(always)]
fn held_by(spot: Spot, entry: &Entry) -> Held
    ensures { result ≡ told_by spot entry.now }
{
    Held {
        spot,
        home: entry.home,
        shared: entry.own_frame().is_none(),
        own: entry.own_frame(),
    }
}

impl Pages {
    /// Whether a page has a row.
    #[tactic(auto, using(crate::proofs::Options::some_mapped, crate::proofs::Changing::row_found))]
    pub fn has(&self, page: GuestPage) -> bool
        ensures { result ≡ is_some (row_at page self.now.rows) }
    {
        self.rows.find(self.rows.guess(page)).is_some()
    }

    /// How a page lies, and where it is at home; none where it has no row.
    #[inline(always)]
    pub fn held(&self, page: GuestPage) -> Option<Held>
        ensures { MatchOption result (row_at page self.now.rows ≡ None) (IsHeld (seen self.now) page) }
    {
        self.told(self.rows.guess(page))
    }

    /// How a page lies that is about to change; none where it has no row. Most have a frame of their own, and wait for
    /// nothing: that is told apart where the row lies where it is guessed, so that a change of it needs no second look.
    #[tactic(auto, using(crate::proofs::Leaving::row_seen, crate::proofs::Leaving::held_so))]
    #[inline(always)]
    pub fn look(&self, page: GuestPage) -> Option<Look>
        ensures { MatchOption result (row_at page self.now.rows ≡ None) (LooksSo (seen self.now) page) }
    {
        let spot = self.rows.guess(page);
        if let Some(entry) = self.rows.at(spot) {
            if matches!(entry.kind, Kind::Own) && !entry.in_tree.is_in() {
                return Some(Look::Private(spot, entry.at));
            }
            return Some(Look::Other(held_by(spot, entry)));
        }
        let (spot, entry) = self.rows.look_up_anew(page)?;
        Some(Look::Other(held_by(spot, entry)))
    }

    /// The frame on which a page lies, if it does on one, with its spot; none where it has no row.
    #[tactic(auto, using(crate::proofs::Leaving::row_seen))]
    #[inline(always)]
    pub fn located(&self, page: GuestPage) -> Option<(Spot, Option<u32>)>
        ensures { MatchOption result (row_at page self.now.rows ≡ None) (λ at. (at.0.page ≡ page)
            × IsKnown page self.now.rows × (at.1 ≡ (seen self.now).frame page)) }
    {
        let (spot, entry) = self.rows.look_up(self.rows.guess(page))?;
        let frame = frame_of(&self.dups, &self.frames, entry, self.rows.pass());
        Some((spot, frame))
    }

    /// The bytes of a page that has a row.
    #[tactic(auto, using(crate::proofs::Leaving::row_seen, crate::proofs::Leaving::known_there))]
    #[inline(always)]
    pub fn bytes(&self, spot: Spot) -> &PageBytes
        requires { IsKnown spot.page self.now.rows }
        ensures { option_map (λ r. r.bytes) (row_at spot.page self.now.rows) ≡ Some result.now }
    {
        match self.rows.find(spot) {
            Some(entry) => &entry.bytes,
            None => unreachable!(),
        }
    }

    /// Whether a page waits.
    #[tactic(auto, using(crate::proofs::Leaving::row_seen))]
    #[inline(always)]
    pub fn waits(&self, spot: Spot) -> bool
        ensures { MatchOption (row_at spot.page self.now.rows) (result ≡ false) (λ r. result ≡ waiting_state r.state) }
    {
        let Some(entry) = self.rows.find(spot) else {
            return false;
        };
        matches!(entry.state(self.rows.pass()), PageState::Waiting)
    }

    /// The page that waits in the tree of a merged page with its bytes, if one does.
    #[tactic(auto, using(crate::proofs::Leaving::row_seen, crate::proofs::Visiting::partner_by))]
    pub fn waiting_beside(&self, spot: Spot) -> Option<Spot>
        ensures { option_map (λ s. s.page) result
            ≡ page_beside self.now.knobs self.now.rows (row_at spot.page self.now.rows) }
    {
        let entry = self.rows.find(spot)?;
        match entry.kind {
            Kind::Merged => {
                // Called for its contract alone: the tree leads to each row that waits.
                self.rows.are_lawful();
                let tree = tree_in(&self.knobs, entry.home);
                let other = self.rows.in_tree(tree, &entry.bytes)?;
                self.waits(other).then_some(other)
            }
            _ => None,
        }
    }

    /// The place of the dup into which a page is merged; none where it is not merged.
    #[tactic(auto, using(crate::proofs::Leaving::row_seen, crate::proofs::Paging::place_numbered))]
    pub fn ticket(&self, page: GuestPage) -> Option<u32>
        ensures { result ≡ option_and_then (λ r. place_of r.state self.now.dups) (row_at page self.now.rows) }
    {
        let entry = self.rows.find(self.rows.guess(page))?;
        match entry.kind {
            Kind::Merged => self.dups.place_by(entry.at, entry.number),
            _ => None,
        }
    }

    /// The first page after the cursor, of the guest where one is given: how it lies, and where it is at home.
    #[inline(always)]
    pub fn next(&self, guest: Option<u16>, cursor: Option<GuestPage>) -> Option<Held>
        ensures { TellsNext (seen self.now) guest cursor result }
    {
        self.lie_in_order();
        // Mostly no number is left out.
        match self.following(guest, cursor) {
            Some(spot) => self.told(spot),
            None => self.search_next(guest, cursor),
        }
    }

    // The same, where no key is guessed.
    #[inline(never)]
    fn search_next(&self, guest: Option<u16>, cursor: Option<GuestPage>) -> Option<Held>
        ensures { TellsNext (seen self.now) guest cursor result }
    {
        self.lie_in_order();
        let spot = self.rows.after(start_of(guest, cursor))?;
        match guest {
            Some(guest) if spot.page.guest != guest => None,
            _ => self.told(spot),
        }
    }

    /// The least page that may come next, if its row lies where it is guessed.
    #[inline(always)]
    fn following(&self, guest: Option<u16>, cursor: Option<GuestPage>) -> Option<Spot>
        ensures { IfSome result (λ s.
            option_map (λ r. r.page) (find (is_next guest cursor) self.now.rows) ≡ Some s.page) }
    {
        self.lie_in_order();
        let spot = self.rows.guess(least_next(guest, cursor)?);
        self.rows.at(spot)?;
        Some(spot)
    }

    /// What is counted, where so many passes have ended, and each row that waits, is merged or is Zero is mergeable.
    pub fn counters(&self, passes: u64) -> Counters
        requires { All (λ r. private_state r.state ≡ false → r.mergeable ≡ true) self.now.rows }
        ensures { result ≡ counters_from self.now.rows self.now.dups passes }
    {
        let tally = self.rows.tally();
        let shared = self.dups.count_shared();
        let volatile = self
            .rows
            .mergeable()
            .saturating_sub(tally.merged)
            .saturating_sub(tally.waiting)
            .saturating_sub(tally.zero);
        Counters {
            shared: shared as u64,
            sharing: tally.merged.saturating_sub(shared) as u64,
            unshared: tally.waiting as u64,
            volatile: volatile as u64,
            zero: tally.zero as u64,
            chains: self.dups.count_chains() as u64,
            dups: self.dups.count_grouped() as u64,
            full_scans: passes,
        }
    }

    /// How many pages a scan visits.
    pub fn mergeable(&self) -> usize
        ensures { result ≡ mergeable_count self.now.rows }
    {
        self.rows.mergeable()
    }

    /// Whether a scan visits all pages.
    #[inline(always)]
    pub fn all_mergeable(&self) -> bool
        ensures { result ≡ (mergeable_count self.now.rows == length self.now.rows) }
    {
        self.rows.mergeable() == self.rows.len()
    }

    // How the page of a spot lies, and where it is at home.
    #[tactic(auto, using(crate::proofs::Leaving::row_seen, crate::proofs::Leaving::held_so))]
    #[inline(always)]
    fn told(&self, spot: Spot) -> Option<Held>
        ensures { MatchOption result (row_at spot.page self.now.rows ≡ None) (IsHeld (seen self.now) spot.page) }
    {
        let (spot, entry) = self.rows.look_up(spot)?;
        Some(held_by(spot, entry))
    }
}
