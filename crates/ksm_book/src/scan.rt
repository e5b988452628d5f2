//! The scan: visits of mergeable pages, in the order of their pages, pass after pass.
//!
//! Only restless pages are visited: those that a visit may change. Where the visits end is asked first (`ahead`), so
//! those in between need no look. And where a whole pass changed nothing but which rows wait, the passes that would
//! repeat it are counted and not made; from then on only what is due is visited (`due_pass.rt`).

ghost use Rattle.std.specs.Prelude.{◌≡◌, ◌&&◌, ◌≤◌, [], true, None, Some, IfOk, IfErr, IfSome, length, option_map};
ghost use Rattle.ksm_book.specs.Terms.{EndsAt, has_item, mergeable_pages, pass_begun, pass_ended_at_last};
ghost use Rattle.ksm_book.specs.Carried.{CarriesOut};
ghost use Rattle.ksm_book.specs.Due.{AreDue, CountsLater, TellsDue, part_before, part_visited, shown};
ghost use Rattle.ksm_book.specs.Folded.{pages_ahead, pages_visited};
ghost use Rattle.ksm_book.specs.Whole.{view_of};
ghost use Rattle.ksm_book.specs.Scanned.{Comes, FindsUpTo, GoesOn, HasVisited, Stops, StopsShort, ahead_before, ahead_up_to, is_nowhere, is_quiet, last_visited, passes_ended};

use crate::due::Due;
use crate::state::State;
use crate::visiting::Visited;
use frame_table::FrameTable;
use ksm_base::{Command, Fault, GuestPage, Reply};
use ksm_pages::{Ahead, Spot};

// What visits came to.
#[derive(Clone, Copy)]
struct Made {
    // All rows are as they were, but for which of them wait.
    quiet: bool,
    // Some of the pages need no visit from now on.
    over: bool,
}

// Whether no visits are ahead.
fn is_none(ahead: Ahead) -> bool
    ensures { result ≡ is_nowhere ahead }
{
    matches!(ahead, Ahead::End(0))
}

// The page of the last visit, where the pass does not end with it.
fn last(ahead: Ahead) -> Option<GuestPage>
    ensures { result ≡ last_visited ahead }
{
    match ahead {
        Ahead::At(page) => Some(page),
        Ahead::End(_) => None,
    }
}

impl Made {
    // With one visit more.
    #[inline(always)]
    fn and(self, visited: Visited) -> Made
        ensures { result.quiet ≡ (self.quiet && is_quiet visited) }
    {
        match visited {
            Visited::Same => self,
            Visited::Gone => Made { over: true, ..self },
            Visited::Changed => Made {
                quiet: false,
                ..self
            },
            Visited::Shared => Made {
                quiet: false,
                over: true,
            },
        }
    }
}

impl State {
    // So many visits lead on to a page.
    fn set_cursor(&mut self, cursor: Option<GuestPage>, visits: u64)
        ensures { view_of self.new ≡ record (view_of self.old) { state = record self.old.state { cursor = cursor } } }
    {
        self.cursor = cursor;
        self.visits = self.visits.wrapping_add(visits as usize);
    }

    // So many passes have ended.
    fn end_passes(&mut self, count: u64)
        ensures { view_of self.new ≡ record (view_of self.old) { state = passes_ended count self.old.state } }
    {
        self.passes = self.passes.saturating_add(count);
        self.cursor = None;
        self.visits = 0;
    }

    // The first page behind one, up to the last one, that a visit may change, or a page before it.
    #[inline(always)]
    pub(crate) fn next_up_to(
        &mut self,
        last: Option<GuestPage>,
        cursor: Option<GuestPage>,
    ) -> Option<Spot>
        ensures kept { self.new ≡ self.old }
        ensures next { FindsUpTo last cursor self.old.state.rows (option_map (λ s. s.page) result) }
    {
        let spot = self.pages.next_restless(cursor)?;
        match last {
            Some(last) if last.comes_before(spot.page) => None,
            _ => Some(spot),
        }
    }

    // Of the listed pages those go that need no visit from now on, if there are some.
    fn drop_over(&mut self, over: bool)
        ensures { self.new ≡ self.old }
    {
        if over {
            self.pages.sweep_restless();
        }
    }

    pub(crate) fn cursor(&self) -> Option<GuestPage>
        ensures { result ≡ self.now.state.cursor }
    {
        self.cursor
    }

    // Visits the pages ahead up to the last one, or all of them, and says whether that changed nothing but which rows
    // wait. Where memory is refused, tells the page that was not visited.
    #[tactic(auto, using(crate::proofs::Folded::comes_own, crate::proofs::Walked::less_room))]
    fn visit_up_to(
        &mut self,
        table: &FrameTable,
        last: Option<GuestPage>,
    ) -> Result<bool, GuestPage>
        requires own { self.old.keeper.table ≡ table.now }
        ensures visited { IfOk result (λ quiet. HasVisited self.old self.new
            (λ s. pages_visited s (ahead_up_to last s.0)) quiet) }
        ensures due { IfOk result (λ quiet. quiet ≡ true → self.old.state.cursor ≡ None → last ≡ None
            → AreDue self.new.state []) }
        ensures stopped { IfErr result (λ page. Stops self.old self.new last page
            (λ s. pages_visited s (ahead_before page s.0))) }
    {
        self.lies_lawfully();
        let mut made = Made {
            quiet: true,
            over: false,
        };
        let mut reached = self.cursor();
        while let Some(spot) = self.next_up_to(last, reached) {
            match self.visit(table, spot) {
                Ok(visited) => made = made.and(visited),
                Err(_) => return Err(spot.page),
            }
            reached = Some(spot.page);
        }
        self.drop_over(made.over);
        Ok(made.quiet)
    }

    // Ends the pass if it has gone through all pages. Says where so many visits end.
    fn close_pass(&mut self, most: u64) -> Ahead
        requires { 1 ≤ most }
        ensures closed { view_of self.new ≡ record (view_of self.old) { state = pass_ended_at_last self.old.state } }
        ensures ahead { EndsAt (pages_ahead self.new.state) most result }
    {
        let ahead = self.pages.ahead(self.cursor, self.visits, most);
        let nowhere = is_none(ahead);
        let under_way = self.cursor().is_some();
        if nowhere && under_way {
            self.end_passes(1);
            return self.pages.ahead(self.cursor, self.visits, most);
        }
        ahead
    }

    // As a pass begins, no row waits any more.
    fn begin_pass(&mut self)
        ensures { Comes self.old self.new (λ s. (pass_begun s.0, s.1)) }
    {
        if self.cursor().is_none() {
            self.pages.settle_all();
        }
    }

    // Whether the pages ahead up to the last one, or all of them, are those of a whole pass.
    pub(crate) fn is_whole(&self, last: Option<GuestPage>) -> bool
        ensures { result ≡ true → (self.now.state.cursor ≡ None) × (last ≡ None) }
    {
        self.cursor().is_none() && last.is_none()
    }

    // Visits the pages ahead up to the last one, or all of them, where a pass begins or goes on: only what is due, where
    // that is known. Where a whole pass changed nothing but which rows wait, nothing is due. Says whether that was so.
    // Where memory is refused, tells the page that was not visited.
    #[tactic(auto, using(crate::proofs::Folded::comes_own))]
    fn visit_part(
        &mut self,
        table: &FrameTable,
        due: &mut Due,
        last: Option<GuestPage>,
    ) -> Result<bool, GuestPage>
        requires own { self.old.keeper.table ≡ table.now }
        requires due { TellsDue due.old self.old.state }
        requires later { CountsLater due.old self.old.state }
        requires ahead { IfSome last (λ page. has_item page (pages_ahead self.old.state) ≡ true) }
        ensures visited { IfOk result (λ quiet. HasVisited (shown due.old self.old) (shown due.new self.new) (part_visited last) quiet) }
        ensures due { TellsDue due.new self.new.state }
        ensures later { CountsLater due.new self.new.state }
        ensures stopped { IfErr result (λ page.
            Stops (shown due.old self.old) (shown due.new self.new) last page (part_before page)) }
    {
        if due.is_known() && due.goes_on_from(self.cursor) && due.put_in_order() {
            return self.part_over_due(table, due, last);
        }
        self.end_pass_over_due(due);
        due.forget();
        let whole = self.is_whole(last);
        self.begin_pass();
        let quiet = self.visit_up_to(table, last)?;
        if whole && quiet {
            due.begin(self.counters().unshared as usize / 8);
        }
        Ok(quiet)
    }

    // Makes at least one visit, and `most` at most, all of one pass. Where that is a whole pass that changed nothing
    // but which rows wait, those that would repeat it are counted too. Where memory is refused, tells how many visits
    // were made.
    #[tactic(auto, using(crate::proofs::Folded::comes_to, crate::proofs::Folded::comes_own))]
    fn go_on(&mut self, table: &FrameTable, due: &mut Due, most: u64) -> Result<u64, u64>
        requires own { self.old.keeper.table ≡ table.now }
        requires most { 1 ≤ most }
        requires some { 1 ≤ length (mergeable_pages self.old.state.rows) }
        requires due { TellsDue due.old self.old.state }
        requires later { CountsLater due.old self.old.state }
        ensures due { TellsDue due.new self.new.state }
        ensures later { CountsLater due.new self.new.state }
        ensures made { IfOk result (λ made. GoesOn (shown due.old self.old) (shown due.new self.new) most made) }
        ensures stopped { IfErr result (λ made. StopsShort (shown due.old self.old) (shown due.new self.new) most made) }
    {
        self.lies_lawfully();
        let ahead = self.close_pass(most);
        let whole = self.cursor().is_none();
        match self.visit_part(table, due, last(ahead)) {
            Ok(quiet) => match ahead {
                Ahead::At(page) => {
                    self.set_cursor(Some(page), most);
                    Ok(most)
                }
                Ahead::End(made) => {
                    let times = if whole && quiet { most / made } else { 1 };
                    self.end_passes(times);
                    Ok(times * made)
                }
            },
            Err(page) => {
                let (made, last) = self.pages.between(self.cursor, page);
                self.set_cursor(last, made);
                Err(made)
            }
        }
    }

    /// Makes visits. Where memory is refused, no more is done than what the reply tells.
    #[inline(never)]
    #[tactic(auto, using(crate::proofs::Folded::comes_own))]
    pub fn scan(&mut self, table: &FrameTable, due: &mut Due, count: u64) -> Result<Reply, Fault>
        requires own { self.old.keeper.table ≡ table.now }
        requires due { TellsDue due.old self.old.state }
        requires later { CountsLater due.old self.old.state }
        ensures carried { CarriesOut (shown due.old self.old) (shown due.new self.new) (Command.Scan count) result }
        ensures due { TellsDue due.new self.new.state }
        ensures later { CountsLater due.new self.new.state }
    {
        if self.pages.knobs().run != 1 {
            return Err(Fault::NotRunning);
        }
        if self.pages.mergeable() == 0 {
            return Ok(Reply::Scanned {
                visits: 0,
                stop: None,
            });
        }
        self.pages.list_restless();
        let mut done = 0;
        while done < count {
            match self.go_on(table, due, count - done) {
                Ok(visits) => done += visits,
                Err(made) => {
                    return Ok(Reply::Scanned {
                        visits: done + made,
                        stop: Some(Fault::Memory),
                    });
                }
            }
        }
        Ok(Reply::Scanned {
            visits: count,
            stop: None,
        })
    }
}
