//! The dups by their places: which stand there, with which pages and on which frame, and where a new one goes.

ghost use Rattle.std.specs.Prelude.{◌≡◌, ◌<◌, true, All, filter, find, ◌==◌, option_map, IfErr, IfOk, IsSome};
ghost use Rattle.std.specs.List.{list_any};
ghost use Rattle.ksm_pages.specs.Terms.{a_new_place, is_stale, items_of, place_count, shared_count};
ghost use Rattle.ksm_pages.specs.Paged.{IsVacant, ItemsLieOn, elsewhere, items_on, live_at, seen};

use crate::left::frame_at;
use crate::pages::Pages;
use ksm_base::{DupRow, GuestPage};
use ksm_tree::Choice;
use std::alloc::{AllocError, Global};

impl Pages {
    /// The dup with items at a place.
    pub fn live_at(&self, place: u32) -> Option<DupRow>
        ensures { result ≡ live_at place self.now.rows self.now.dups }
    {
        self.dups.live_at(place)
    }

    /// Whether a dup stands at the place.
    #[tactic(auto, using(crate::proofs::Paging::any_at))]
    pub fn has_dup(&self, place: u32) -> bool
        ensures { result ≡ list_any (λ d. d.place == place) self.now.dups }
    {
        self.dups.at(place).is_some()
    }

    /// The pages merged into the dup at a place, ascending, in a vector of their own; none where no dup with items
    /// stands there. Fails for memory alone, and only where such a dup stands there.
    #[tactic(auto, using(crate::proofs::Paging::items_none, crate::proofs::Paging::items_there, crate::proofs::Options::some_mapped))]
    pub fn items_at(&self, alloc: Global, place: u32) -> Result<Option<Vec<GuestPage>>, AllocError>
        ensures items { let live = live_at place self.now.rows self.now.dups in
            IfOk result (λ pages. option_map (λ v. v.items) pages ≡ option_map (items_of self.now.rows) live) }
        ensures refused { IfErr result (λ _. IsSome (live_at place self.now.rows self.now.dups)) }
    {
        // Called for its contract alone: one dup stands at a place.
        let _ = self.dups.at(place);
        match self.dups.live_at(place) {
            Some(_) => Ok(Some(self.dups.items_at(alloc, place)?)),
            None => Ok(None),
        }
    }

    /// How many dups have an item.
    pub fn count_shared(&self) -> usize
        ensures { result ≡ shared_count self.now.rows self.now.dups }
    {
        self.dups.count_shared()
    }

    /// The least place of a stale dup.
    #[tactic(auto, using(crate::proofs::Paging::stale_at))]
    pub fn stale_place(&self) -> Option<u32>
        ensures { result ≡ option_map (λ d. d.place) (find (is_stale self.now.rows) self.now.dups) }
    {
        self.dups.stale()
    }

    /// Where a new dup goes.
    pub fn new_place(&self) -> u32
        requires room { a_new_place (place_count self.now.shape) self.now.rows self.now.dups
            < place_count self.now.shape }
        ensures { result ≡ a_new_place (place_count self.now.shape) self.now.rows self.now.dups }
    {
        match self.dups.choose_place() {
            Choice::Empty(place) => place,
            Choice::Stale(place) => place,
        }
    }

    /// The frame on which the items of the dup at a place lie.
    pub fn dup_frame(&self, place: u32) -> u32
        ensures { All (λ d. d.place ≡ place → ItemsLieOn d.number result (seen self.now)) self.now.dups }
    {
        // Called for its contract alone: a dup is told by its number, and by its place.
        let _ = self.dups.at(place);
        frame_at(&self.frames, Some(place)).unwrap_or(0)
    }

    /// The items of the dup at a place go to another frame.
    pub fn set_dup_frame(&mut self, place: u32, frame: u32)
        requires { list_any (λ d. d.place == place) self.old.dups ≡ true }
        ensures { All (λ d. d.place ≡ place → seen self.new ≡ record (seen self.old) {
          frame = items_on d.number frame self.old.rows (seen self.old).frame;
        }) self.old.dups }
    {
        // Called for its contract alone: one dup stands at a place, and has a frame there.
        let _ = self.dups.at(place);
        self.frames[place as usize] = frame;
    }

    /// The stale dup at a place goes, if there is one.
    #[tactic(auto, using(crate::proofs::Paging::any_at, crate::proofs::Dropping::all_elsewhere))]
    pub fn drop_stale(&mut self, place: u32)
        requires { IsVacant place self.old.rows self.old.dups }
        ensures { seen self.new ≡ record (seen self.old) { dups = filter (elsewhere place) self.old.dups } }
    {
        if self.dups.at(place).is_some() {
            self.dups.drop_stale(place);
        }
    }
}
