//! How many items the dup at each place has, and which places are open: where a dup has an item and fewer than the
//! limit.
//!
//! The counts stand by themselves, four bytes each, so a walk along a chain reads no dup but one that may be joined.
//! The open places are kept only while they are asked for: a store to a merged page may open or close one, and where
//! all chains are short that costs more than it saves.
#![tactic(auto, using(crate::proofs::Where::steps))]

ghost use Rattle.std.specs.Prelude.{All, IfOk, IfSome, length, not, replicate, slice_index, slice_set, ℕ, ◌<◌, ◌≡◌, ◌≤◌};
ghost use Rattle.ksm_tree.specs.Terms.{FailsForMemory, list_all, MOST_FRAMES};
ghost use Rattle.ksm_tree.specs.Places.{is_open as is_open_count, places_where};

use crate::dups::FEW_PLACES;
use crate::places::Places;
use ksm_base::Fault;
use std::alloc::Global;
use std::marker::Model;

/// How many items the dup at each place has: 0 where no dup stands. Beside that the places of the open ones, those with
/// an item and fewer than the limit, in ascending order: of a long chain most dups are full, and a page that looks for
/// one to join passes over them.
#[derive(Drop)]
pub struct Counts {
    each: Vec<u32>,
    limit: u32,
    open_at: Places,
}

impl Model for Counts {
    ghost use Rattle.std.specs.Prelude.{List, ℕ};
    ghost use Rattle.ksm_tree.specs.Places.{AreCounts};

    ghost Value = { List ℕ };

    ghost view = { λ c. c.each.items };

    ghost invariant = { λ c. AreCounts c.limit c.each.items c.open_at.list };
}

impl Counts {
    /// No items at so many places, with room for each of them among the open ones if they are few. The one fault is
    /// `Memory`.
    pub fn open(alloc: Global, places: u32) -> Result<Counts, Fault>
        ensures none { IfOk result (λ counts. counts ≡ replicate places 0) }
        ensures memory { FailsForMemory result }
    {
        let room = places as usize;
        Ok(Counts {
            each: vec![in alloc; 0; room]?,
            limit: 0,
            open_at: Places::with_room(alloc, if room <= FEW_PLACES { room } else { 0 })?,
        })
    }

    /// How many items there are at each place.
    pub fn each(&self) -> &[u32]
        ensures { result.now ≡ self.now }
    {
        self.each.as_slice()
    }

    /// The open places, where they are known for this limit.
    pub fn open_places(&self, limit: u32) -> Option<&[u32]>
        ensures { IfSome result (λ found. found.now ≡ places_where (is_open_count limit) 0 self.now) }
    {
        (limit == self.limit).then_some(self.open_at.list.as_slice())
    }

    /// The open places are kept from now on by this limit, if there is room for all. By the limit 0 no place is open,
    /// and nothing has to be kept.
    pub fn keep_open(&mut self, limit: u32)
        requires { length self.old ≤ MOST_FRAMES }
        ensures { self.new ≡ self.old }
    {
        if limit == self.limit {
            return;
        }
        if limit == 0 {
            self.limit = 0;
            self.open_at.list.clear();
        } else if self.each.len() <= self.open_at.list.capacity() {
            self.limit = limit;
            self.open_at.list.clear();
            for place in 0..self.each.len() as u32 {
                if is_open(limit, self.each[place as usize]) {
                    self.open_at.insert(place);
                }
            }
        }
    }

    /// Sets how many items there are at a place.
    #[inline(always)]
    pub fn set(&mut self, place: u32, count: u32)
        requires { place < length self.old }
        ensures { self.new ≡ slice_set self.old place count }
    {
        // By the limit 0 no place is open before or after, as it is where all chains are short.
        if self.limit == 0 {
            self.each[place as usize] = count;
            return;
        }
        let was_open = is_open(self.limit, self.each[place as usize]);
        let opens = is_open(self.limit, count);
        self.each[place as usize] = count;
        if opens == was_open {
            return;
        }
        if opens {
            self.open_at.insert(place);
        } else {
            self.open_at.remove(place);
        }
    }
}

/// Whether a dup with so many items takes one more.
fn is_open(limit: u32, count: u32) -> bool
    ensures { result ≡ is_open_count limit count }
{
    1 <= count && count < limit
}

/// Whether none of the places is open by a limit.
#[tactic(auto, using(std::proofs::lemmas::List::Folds::list_all_more))]
#[inline(always)]
pub fn none_open(limit: u32, counts: &[u32], places: &[u32]) -> bool
    requires { All (λ p. p < length counts.now) places.now }
    ensures { result ≡ list_all (λ p. not (is_open_count limit (slice_index counts.now p))) places.now }
{
    // A count of 0 wraps round to more than any room, so one comparison tells both.
    let room = limit.saturating_sub(1);
    for place in places {
        if counts[*place as usize].wrapping_sub(1) < room {
            return false;
        }
    }
    true
}
