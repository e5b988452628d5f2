//! Worked scripts of passes: the cursor, the pages that wait, and how many passes have ended.

ghost use Rattle.ksm_base.specs.State.{opening};
ghost use Rattle.ksm_worked.specs.Scripts.{Plays, shape};
ghost use Rattle.ksm_worked.specs.Passes;
ghost use Rattle.std.specs.Prelude.{◌-◌, ◌^◌};

/// A pass goes on where it was after other knobs and after an unmerging.
pub fn pass_goes_on_behind_knobs()
    ensures { Plays (opening (shape 2 4)) Passes.pass_goes_on_behind_knobs }
{}

/// A pass goes on behind the page visited last, where that was dropped.
pub fn pass_goes_on_behind_a_dropped_page()
    ensures { Plays (opening (shape 1 4)) Passes.pass_goes_on_behind_a_dropped_page }
{}

/// A pass visits the pages behind its cursor alone, also those that came late.
pub fn pages_that_come_late()
    ensures { Plays (opening (shape 1 4)) Passes.pages_that_come_late }
{}

/// A pass that ends before a visit ends the waiting too.
pub fn pass_that_ends_early_ends_the_waiting()
    ensures { Plays (opening (shape 1 4)) Passes.pass_that_ends_early_ends_the_waiting }
{}

/// Another limit, a run of 0 and the unmerging of another guest leave the waiting pages.
pub fn knobs_leave_the_waiting()
    ensures { Plays (opening (shape 1 4)) Passes.knobs_leave_the_waiting }
{}

/// A run of 2 that stops keeps the cursor, the flags and the pages that wait; the pages that it took are not unchanged.
pub fn stopped_run_of_two_keeps_the_cursor()
    ensures { Plays (opening (shape 1 4)) Passes.stopped_run_of_two_keeps_the_cursor }
{}

/// How many passes have ended is counted up to the greatest number of 64 bits, and stays there.
pub fn passes_stay_at_the_greatest_number()
    ensures { Plays (record (opening (shape 1 4)) { passes = 2 ^ 64 - 2 }) Passes.passes_stay_at_the_greatest_number }
{}

/// Where no page is mergeable a scan makes no visit: the pass doesn't end, and pages that are registered later are
/// visited in it.
pub fn scan_of_nothing_ends_no_pass()
    ensures { Plays (opening (shape 1 4)) Passes.scan_of_nothing_ends_no_pass }
{}

/// A visit changes its own page alone: one waits, and one joins a dup.
pub fn visits_change_their_pages_alone()
    ensures { Plays (opening (shape 2 8)) Passes.visits_change_their_pages_alone }
{}

/// The visit that makes a dup changes its two pages alone.
pub fn new_dup_takes_two_pages_alone()
    ensures { Plays (opening (shape 2 8)) Passes.new_dup_takes_two_pages_alone }
{}

/// A scan that stops for memory has ended the waiting where a pass begins, and changed nothing else.
pub fn stopped_scan_changes_nothing_else()
    ensures { Plays (opening (shape 2 8)) Passes.stopped_scan_changes_nothing_else }
{}

/// An unmerging leaves dups, settings and cursor; another limit then drops the stale dups, and nothing else.
pub fn unmerging_leaves_the_dups()
    ensures { Plays (opening (shape 2 8)) Passes.unmerging_leaves_the_dups }
{}

/// A run of 2 leaves dups and other settings, and the next dups have the next numbers.
pub fn run_of_two_leaves_the_dups()
    ensures { Plays (opening (shape 2 8)) Passes.run_of_two_leaves_the_dups }
{}

/// A run of 2 that stops has taken the pages before, set run to 0, and changed nothing else.
pub fn stopped_run_of_two_changes_nothing_else()
    ensures { Plays (opening (shape 2 8)) Passes.stopped_run_of_two_changes_nothing_else }
{}

/// Settings, a move to a page's home, a move of a dup, and a guest made mergeable that was so change nothing else.
pub fn settings_change_nothing_else()
    ensures { Plays (opening (shape 2 8)) Passes.settings_change_nothing_else }
{}

/// What is done to one page changes no other page, no dup, no setting, and not the pass.
pub fn other_pages_stay()
    ensures { Plays (opening (shape 2 8)) Passes.other_pages_stay }
{}

/// Pruning drops the stale dups alone; the pass goes on, and the next dup has the next number.
pub fn pruning_drops_stale_dups_alone()
    ensures { Plays (opening (shape 2 8)) Passes.pruning_drops_stale_dups_alone }
{}
