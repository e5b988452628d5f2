//! What a scan has ahead.

ghost use Rattle.std.specs.Prelude.{◌≡◌, ◌≤◌, length, option_map};
ghost use Rattle.ksm_pages.specs.Ahead.{EndsAt, FindsNext, last_of, mergeable_pages, pages_behind, pages_between};

use crate::pages::Pages;
use crate::row::Spot;
use ksm_base::GuestPage;

/// What the next visits of a scan come to.
#[derive(Clone, Copy, Debug)]
pub enum Ahead {
    /// The page of the last visit, behind which the pass goes on.
    At(GuestPage),
    /// The pass ends with so many visits.
    End(u64),
}

impl Pages {
    /// Where so many visits behind the cursor end. How many visits of the pass led to the cursor is a guess.
    pub fn ahead(&self, cursor: Option<GuestPage>, guess: usize, visits: u64) -> Ahead
        requires { 1 ≤ visits }
        ensures { EndsAt (pages_behind cursor (mergeable_pages self.now.rows)) visits result }
    {
        self.rows.ahead(cursor, guess, visits)
    }

    /// How many visits behind the cursor come before a page, and the page of the last of them; the cursor where there
    /// is none.
    pub fn between(&self, cursor: Option<GuestPage>, page: GuestPage) -> (u64, Option<GuestPage>)
        ensures many { result.0 ≡ length (pages_between cursor page (mergeable_pages self.now.rows)) }
        ensures last { result.1 ≡ last_of cursor (pages_between cursor page (mergeable_pages self.now.rows)) }
    {
        self.rows.between(cursor, page)
    }

    /// Lists all rows that a visit may change, unless memory for that is refused.
    pub fn list_restless(&mut self)
        ensures { self.new ≡ self.old }
    {
        self.rows.list_restless();
    }

    /// The first page behind a cursor that a visit may change, or a page before it.
    #[inline(always)]
    pub fn next_restless(&mut self, cursor: Option<GuestPage>) -> Option<Spot>
        ensures kept { self.new ≡ self.old }
        ensures next { FindsNext cursor self.old.rows (option_map (λ s. s.page) result) }
    {
        self.rows.next_restless(cursor)
    }

    /// Of the listed pages those that no visit may change are listed no more, once they may be many.
    pub fn sweep_restless(&mut self)
        ensures { self.new ≡ self.old }
    {
        self.rows.sweep_restless();
    }
}
