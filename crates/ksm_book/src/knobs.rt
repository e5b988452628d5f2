//! The commands that set a knob: each tests the range first, then what the knob must wait for.

ghost use Rattle.std.specs.Prelude.{◌≡◌, ◌≢◌, [], All, None, Some, false, true};
ghost use Rattle.ksm_book.specs.Terms.{partner, seen, setting, setting_refusal, traits, waiting_state};
ghost use Rattle.ksm_book.specs.Carried.{CarriesOut};
ghost use Rattle.ksm_book.specs.Due.{CountsLater, shown, TellsDue};

use crate::due::{Due, Reach};
use crate::stale::drop_stale;
use crate::state::State;
use frame_table::FrameTable;
use ksm_base::{Command, Fault, GuestPage, Knob, Knobs, Reply};
use ksm_pages::Pages;

// Sets the knobs where it is known what is due and no pass goes on, and leaves the rows that wait as they are, if no two
// of them would meet in the trees as they are then. Says whether it did; else nothing changes.
fn keeps_waiting(pages: &mut Pages, due: &Due, cursor: Option<GuestPage>, knobs: Knobs) -> bool
    requires { pages.old.dups ≡ [] }
    ensures kept { result ≡ false → pages.new ≡ pages.old }
    ensures set { result ≡ true → seen pages.new ≡ record (seen pages.old) { knobs = knobs } }
    ensures alone { result ≡ true
        → All (λ r. waiting_state r.state ≡ true → partner knobs pages.new.rows r ≡ None) pages.new.rows }
    ensures start { result ≡ true → (due.now.known ≡ true) × (cursor ≡ None) }
{
    due.is_known() && cursor.is_none() && pages.regroup(knobs)
}

impl State {
    // Why a knob does not get a value, if it does not.
    fn refusal(&self, knob: Knob, value: u32) -> Option<Fault>
        ensures { result ≡ setting_refusal self.now.state (Some (knob, value)) }
    {
        if !knob.takes(value) {
            return Some(Fault::BadValue);
        }
        let changes = knob.value_in(&self.pages.knobs()) != value;
        if knob.is_fixed_while_shared() && changes && self.pages.count_shared() > 0 {
            return Some(Fault::SharedPages);
        }
        None
    }

    /// Sets a knob that may change at any time. No page, dup or frame changes.
    pub fn set(&mut self, knob: Knob, value: u32) -> Result<Reply, Fault>
        requires free { (traits knob).fixed_while_shared ≡ false }
        requires stays { setting knob value ≢ Command.SetRun 2 }
        ensures { CarriesOut self.old self.new (setting knob value) result }
    {
        if let Some(fault) = self.refusal(knob, value) {
            return Err(fault);
        }
        let knobs = self.pages.knobs();
        self.pages.set_knobs(knobs.with(knob, value));
        Ok(Reply::Done)
    }

    /// Sets whether pages of different nodes may be merged. Where it is known what is due, no pass goes on, and those
    /// that wait would not meet in the trees as they are then, they wait again once the next pass has gone by them.
    pub fn set_across(
        &mut self,
        table: &FrameTable,
        due: &mut Due,
        across: u32,
    ) -> Result<Reply, Fault>
        requires own { self.old.keeper.table ≡ table.now }
        requires due { TellsDue due.old self.old.state }
        requires reach { (due.old.reach ≡ Reach.Everywhere) × (due.old.later ≡ 0) }
        ensures carried { CarriesOut self.old (shown due.new self.new) (Command.SetAcross across) result }
        ensures due { TellsDue due.new self.new.state }
        ensures later { CountsLater due.new self.new.state }
    {
        if let Some(fault) = self.refusal(Knob::MergeAcrossNodes, across) {
            return Err(fault);
        }
        let knobs = self.pages.knobs();
        if across == knobs.merge_across_nodes {
            return Ok(Reply::Done);
        }
        drop_stale(&mut self.pages, &mut self.keeper, table);
        let knobs = knobs.with(Knob::MergeAcrossNodes, across);
        if keeps_waiting(&mut self.pages, due, self.cursor, knobs) {
            due.go_to(Reach::Nowhere, self.counters().unshared as usize);
            return Ok(Reply::Done);
        }
        due.forget();
        self.pages.settle_all();
        self.pages.set_knobs(knobs);
        Ok(Reply::Done)
    }

    /// Sets how many items a dup may have.
    pub fn set_limit(&mut self, table: &FrameTable, limit: u32) -> Result<Reply, Fault>
        requires own { self.old.keeper.table ≡ table.now }
        ensures { CarriesOut self.old self.new (Command.SetLimit limit) result }
    {
        if let Some(fault) = self.refusal(Knob::MaxPageSharing, limit) {
            return Err(fault);
        }
        let knobs = self.pages.knobs();
        if limit == knobs.max_page_sharing {
            return Ok(Reply::Done);
        }
        drop_stale(&mut self.pages, &mut self.keeper, table);
        self.pages
            .set_knobs(knobs.with(Knob::MaxPageSharing, limit));
        Ok(Reply::Done)
    }

    /// Sets whether the scan stands (0) or runs (1), or unmerges all pages (2).
    pub fn set_run(&mut self, table: &FrameTable, run: u32) -> Result<Reply, Fault>
        requires own { self.old.keeper.table ≡ table.now }
        ensures { CarriesOut self.old self.new (Command.SetRun run) result }
    {
        match run {
            2 => self.unshare(table),
            _ => self.set(Knob::Run, run),
        }
    }
}
