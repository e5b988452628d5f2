//! A pass, or a part of one, that visits only the pages that are due. What waits from the last pass on, and would wait
//! again, waits on.
//!
//! While such a pass goes on, rows further on still say that they wait, which the definitions have Private until the
//! pass comes to them. So a page with which one of these would make a dup waits in its stead, and that one is due. Where
//! memory stops the pass, or a command needs the rows as they are, those that it has not come to say so no more.

ghost use Rattle.std.specs.Prelude.{◌≡◌, [], count_by, true, false, None, IfErr, IfOk, IfSome, MatchOption, OnErr, OnOk};
ghost use Rattle.ksm_book.specs.Terms.{change_row, has_item, IsAlone, row_at, settled};
ghost use Rattle.ksm_book.specs.Due.{AreDue, CountsLater, due_visited, has_gone_by, MayGoOn, part_before, part_visited, reach_at, reach_to, shown, so_far, StaysBefore, TakesOver, TellsDue, waits_later as is_waiting_later, with_rows};
ghost use Rattle.ksm_book.specs.Folded.{pages_ahead, restless_at};
ghost use Rattle.ksm_book.specs.Scanned.{Comes, HasVisited, Stops};
ghost use Rattle.ksm_book.specs.Whole.{view_of};

use crate::due::{Due, Reach};
use crate::state::State;
use frame_table::FrameTable;
use ksm_base::{Fault, GuestPage};
use ksm_pages::{Find, Spot};

impl State {
    /// Visits what is due of the pages ahead up to the last one, or of all, where a pass begins or goes on. Says whether
    /// that was a whole pass with nothing due, which changed nothing but which rows wait. Where memory is refused, tells
    /// the page that was not visited.
    #[tactic(auto, using(crate::proofs::Folded::comes_own, crate::proofs::Walked::less_room))]
    pub fn part_over_due(
        &mut self,
        table: &FrameTable,
        due: &mut Due,
        last: Option<GuestPage>,
    ) -> Result<bool, GuestPage>
        requires own { self.old.keeper.table ≡ table.now }
        requires ready { due.old.ready ≡ true }
        requires due { AreDue self.old.state due.old.pages }
        requires later { CountsLater due.old self.old.state }
        requires start { MayGoOn due.old self.old.state }
        requires ahead { IfSome last (λ page. has_item page (pages_ahead self.old.state) ≡ true) }
        ensures visited { IfOk result (λ quiet. HasVisited (shown due.old self.old) (shown due.new self.new) (part_visited last) quiet) }
        ensures due { TellsDue due.new self.new.state }
        ensures later { CountsLater due.new self.new.state }
        ensures stopped { IfErr result (λ page.
            Stops (shown due.old self.old) (shown due.new self.new) last page (part_before page)) }
    {
        self.lies_lawfully();
        let quiet = self.repeats(due, last);
        self.lead(due, last);
        let mut reached = self.cursor();
        while let Some(spot) = due.next_up_to(last, reached) {
            match self.visit_due(table, due, spot) {
                Ok(()) => reached = Some(spot.page),
                Err(_) => {
                    self.settle_ahead(due, Reach::Before(spot.page));
                    return Err(spot.page);
                }
            }
        }
        Ok(quiet)
    }

    // Whether the pages ahead up to the last one, or all of them, are those of a whole pass, and none is due.
    fn repeats(&self, due: &Due, last: Option<GuestPage>) -> bool
        ensures { result ≡ true → (due.now.pages ≡ []) × (self.now.state.cursor ≡ None) × (last ≡ None) }
    {
        due.is_empty() && self.is_whole(last)
    }

    // A pass over what is due is to go to the last page, or to the end. Counts the rows behind that say that they wait.
    #[tactic(auto, using(crate::proofs::Walked::less_room))]
    fn lead(&mut self, due: &mut Due, last: Option<GuestPage>)
        requires later { CountsLater due.old self.old.state }
        requires start { MayGoOn due.old self.old.state }
        requires ahead { IfSome last (λ page. has_item page (pages_ahead self.old.state) ≡ true) }
        ensures kept { self.new ≡ self.old }
        ensures due { due.new ≡ record due.old { reach = reach_to last; later = due.new.later } }
        ensures later { CountsLater due.new self.old.state }
    {
        self.lies_lawfully();
        let Some(page) = last else {
            due.go_to(Reach::Everywhere, 0);
            return;
        };
        let mut later = self.count_ahead(due);
        let mut reached = self.cursor();
        while let Some(spot) = self.next_up_to(last, reached) {
            if self.pages.waits(spot) {
                later = later.saturating_sub(1);
            }
            reached = Some(spot.page);
        }
        due.go_to(Reach::UpTo(page), later);
    }

    // How many rows ahead say that they wait, where a pass may go on over what is due.
    fn count_ahead(&self, due: &Due) -> usize
        requires later { CountsLater due.now self.now.state }
        requires start { MayGoOn due.now self.now.state }
        ensures { result ≡ count_by (is_waiting_later (reach_at self.now.state.cursor)) self.now.state.rows }
    {
        match self.cursor() {
            None => self.counters().unshared as usize,
            Some(_) => due.later(),
        }
    }

    /// No pass over what is due goes on any longer.
    #[inline(always)]
    pub fn end_pass_over_due(&mut self, due: &mut Due)
        requires due { TellsDue due.old self.old.state }
        requires later { CountsLater due.old self.old.state }
        ensures state { view_of self.new ≡ view_of (shown due.old self.old) }
        ensures due { TellsDue due.new self.new.state }
        ensures reach { (due.new.reach ≡ Reach.Everywhere) × (due.new.later ≡ 0) }
    {
        if due.later() == 0 {
            due.go_to(Reach::Everywhere, 0);
        } else {
            self.settle_ahead(due, due.reach());
        }
    }

    /// The rows that a pass has not gone by no longer say that they wait, and it is not known what is due.
    #[tactic(auto, using(crate::proofs::Walked::less_room))]
    pub fn settle_ahead(&mut self, due: &mut Due, reach: Reach)
        ensures state { view_of self.new ≡ record (view_of self.old) { state = so_far reach self.old.state } }
        ensures due { due.new ≡ record due.old { known = false; ready = false; reach = Reach.Everywhere; later = 0 } }
    {
        self.lies_lawfully();
        self.pages.list_restless();
        let mut reached = None;
        while let Some(spot) = self.next_up_to(None, reached) {
            if self.waits_later(reach, spot) {
                self.stop_waiting(spot);
            }
            reached = Some(spot.page);
        }
        due.forget();
        due.go_to(Reach::Everywhere, 0);
    }

    // Whether the row of a page says that it waits, and the pass has not gone by it.
    fn waits_later(&self, reach: Reach, spot: Spot) -> bool
        ensures { MatchOption (row_at spot.page self.now.state.rows) (result ≡ false)
            (λ r. result ≡ is_waiting_later reach r) }
    {
        !reach.has_gone_by(spot.page) && self.pages.waits(spot)
    }

    // Visits a page that is due. Then it is so no longer, but where the next pass has to visit it too. Where memory is
    // refused, nothing changes but that a row further on may wait no more.
    fn visit_due(&mut self, table: &FrameTable, due: &mut Due, spot: Spot) -> Result<(), Fault>
        requires own { self.old.keeper.table ≡ table.now }
        requires ready { due.old.ready ≡ true }
        requires is_due { has_item spot.page due.old.pages ≡ true }
        requires due { AreDue self.old.state due.old.pages }
        requires later { CountsLater due.old self.old.state }
        requires gone { has_gone_by due.old.reach spot.page ≡ true }
        ensures ready { due.new.ready ≡ true }
        ensures comes { OnOk result (Comes self.old self.new (λ s. due_visited s spot.page)) }
        ensures due { OnOk result (AreDue self.new.state due.new.pages) }
        ensures later { OnOk result (CountsLater due.new self.new.state) }
        ensures reach { due.new.reach ≡ due.old.reach }
        ensures refused { OnErr result (StaysBefore spot.page self.old self.new) }
        ensures refused_row { OnErr result (restless_at spot.page self.old.state.rows ≡ true) }
    {
        let found = self.pages.visit(spot)?;
        self.lies_lawfully();
        match found {
            Find::Gone | Find::Waits => {}
            Find::Changed => return Ok(()),
            Find::Dup(best) => self.join(table, spot, best)?,
            Find::Zero => self.become_zero(table, spot),
            Find::Partner(other) if other.comes_before(spot.page) => {
                self.pair(table, other, spot)?;
            }
            Find::Partner(other) => {
                self.take_over(table, due, spot, other)?;
                return Ok(());
            }
        }
        due.remove(spot.page);
        Ok(())
    }

    // A page waits in the stead of one further on, which is due from now on. Where memory is refused, nothing changes
    // but that the one further on may wait no more.
    fn take_over(
        &mut self,
        table: &FrameTable,
        due: &mut Due,
        spot: Spot,
        other: GuestPage,
    ) -> Result<(), Fault>
        requires own { self.old.keeper.table ≡ table.now }
        requires ready { due.old.ready ≡ true }
        requires is_due { has_item spot.page due.old.pages ≡ true }
        requires due { AreDue self.old.state due.old.pages }
        requires later { CountsLater due.old self.old.state }
        requires gone { has_gone_by due.old.reach spot.page ≡ true }
        requires takes { TakesOver self.old.state spot.page other }
        ensures ready { due.new.ready ≡ true }
        ensures comes { OnOk result (Comes self.old self.new (λ s. due_visited s spot.page)) }
        ensures due { OnOk result (AreDue self.new.state due.new.pages) }
        ensures later { OnOk result (CountsLater due.new self.new.state) }
        ensures reach { due.new.reach ≡ due.old.reach }
        ensures refused { OnErr result (StaysBefore spot.page self.old self.new) }
    {
        self.lies_lawfully();
        let Some(held) = self.pages.held(other) else {
            unreachable!()
        };
        due.insert(held.spot)?;
        self.stop_waiting(held.spot);
        due.lose_waiting(other);
        self.visit(table, spot)?;
        due.remove(spot.page);
        Ok(())
    }

    // A page with a frame of its own waits no more.
    fn stop_waiting(&mut self, spot: Spot)
        requires { IsAlone spot.page self.old.state.rows }
        ensures { view_of self.new ≡ with_rows (view_of self.old) (change_row spot.page settled self.old.state.rows) }
    {
        self.pages.stop_waiting(spot);
    }
}
