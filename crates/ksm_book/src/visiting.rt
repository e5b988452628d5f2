//! The visit of a page: it joins a dup, becomes Zero, makes a dup with the page that waits for it, waits, or changes.

ghost use Rattle.std.specs.Prelude.{◌≡◌, true, OnOk, OnErr, IfOk};
ghost use Rattle.ksm_book.specs.Folded.{page_visited, restless_at};
ghost use Rattle.ksm_book.specs.Scanned.{Comes, FindsStill, HasVisited, VisitsPage, is_quiet};
ghost use Rattle.ksm_book.specs.Whole.{view_of};

use crate::frames::{clear, release_if};
use crate::state::State;
use frame_table::FrameTable;
use ksm_base::{Fault, GuestPage};
use ksm_pages::{Find, Glance, Spot};
use ksm_tree::Best;

/// What became of a page that was visited.
#[derive(Clone, Copy, Debug)]
pub enum Visited {
    /// All rows are as they were, but for which of them wait.
    Same,
    /// The row may be another one. The next pass visits it too.
    Changed,
    /// The row shares a frame now: later visits leave it as it is.
    Shared,
    /// The row is none that a visit may change.
    Gone,
}

impl State {
    /// Visits a page, if its row is one that a visit may change. Where memory is refused, nothing changes.
    ///
    /// Of a page that waited in the last pass, or is merged by now, mostly a glance tells all. Any other is visited in
    /// a function of its own, so that what it needs is not laid out before.
    #[inline(always)]
    pub fn visit(&mut self, table: &FrameTable, spot: Spot) -> Result<Visited, Fault>
        requires own { self.old.keeper.table ≡ table.now }
        ensures own { self.new.keeper.table ≡ self.old.keeper.table }
        ensures visited { IfOk result (λ visited. HasVisited self.old self.new
            (λ s. page_visited s spot.page) (is_quiet visited)) }
        ensures refused { OnErr result (Comes self.old self.new (λ s. s)) }
        ensures refused_row { OnErr result (restless_at spot.page self.new.state.rows ≡ true) }
    {
        match self.pages.glance(spot) {
            Glance::Gone => Ok(Visited::Gone),
            Glance::Waits => Ok(Visited::Same),
            Glance::Changed => Ok(Visited::Changed),
            Glance::Nothing => self.visit_any(table, spot),
        }
    }

    // The same for any page.
    #[inline(never)]
    fn visit_any(&mut self, table: &FrameTable, spot: Spot) -> Result<Visited, Fault>
        requires own { self.old.keeper.table ≡ table.now }
        ensures own { self.new.keeper.table ≡ self.old.keeper.table }
        ensures visited { IfOk result (λ visited. HasVisited self.old self.new
            (λ s. page_visited s spot.page) (is_quiet visited)) }
        ensures refused { OnErr result (Comes self.old self.new (λ s. s)) }
        ensures refused_row { OnErr result (restless_at spot.page self.new.state.rows ≡ true) }
    {
        let found = self.pages.visit(spot)?;
        self.lies_lawfully();
        match found {
            Find::Gone => Ok(Visited::Gone),
            Find::Waits => Ok(Visited::Same),
            Find::Changed => Ok(Visited::Changed),
            Find::Dup(best) => {
                self.join(table, spot, best)?;
                Ok(Visited::Shared)
            }
            Find::Zero => {
                self.become_zero(table, spot);
                Ok(Visited::Shared)
            }
            Find::Partner(other) => {
                self.pair(table, other, spot)?;
                Ok(Visited::Shared)
            }
        }
    }

    // A page joins the best dup that it may join.
    pub(crate) fn join(&mut self, table: &FrameTable, spot: Spot, best: Best) -> Result<(), Fault>
        requires own { self.old.keeper.table ≡ table.now }
        requires found { FindsStill (view_of self.old) spot.page (Find.Dup best) }
        ensures own { self.new.keeper.table ≡ self.old.keeper.table }
        ensures visited { OnOk result (VisitsPage (view_of self.old) (view_of self.new) spot.page) }
        ensures refused { OnErr result (self.new ≡ self.old) }
    {
        let frame = self.pages.dup_frame(best.place);
        let lone = self.pages.join(spot, best)?;
        self.keeper.add(table, frame);
        self.keeper.sub(table, lone);
        Ok(())
    }

    // A page of zeroes becomes Zero.
    pub(crate) fn become_zero(&mut self, table: &FrameTable, spot: Spot)
        requires own { self.old.keeper.table ≡ table.now }
        requires found { FindsStill (view_of self.old) spot.page Find.Zero }
        ensures own { self.new.keeper.table ≡ self.old.keeper.table }
        ensures visited { VisitsPage (view_of self.old) (view_of self.new) spot.page }
    {
        let lone = self.pages.become_zero(spot);
        release_if(&mut self.keeper, table, lone);
    }

    // A page makes a dup with the one that waits for it.
    pub(crate) fn pair(
        &mut self,
        table: &FrameTable,
        other: GuestPage,
        spot: Spot,
    ) -> Result<(), Fault>
        requires own { self.old.keeper.table ≡ table.now }
        requires found { FindsStill (view_of self.old) spot.page (Find.Partner other) }
        ensures own { self.new.keeper.table ≡ self.old.keeper.table }
        ensures visited { OnOk result (VisitsPage (view_of self.old) (view_of self.new) spot.page) }
        ensures refused { OnErr result (self.new ≡ self.old) }
    {
        let Some(held) = self.pages.held(other) else {
            unreachable!()
        };
        let place = self.pages.new_place();
        let taken = self.pages.has_dup(place);
        let (frame, lone) = self.pages.pair(place, held.spot, spot)?;
        clear(&mut self.keeper, table, place, taken);
        self.keeper.publish(table, place, frame);
        self.keeper.add(table, frame);
        self.keeper.sub(table, lone);
        Ok(())
    }
}
