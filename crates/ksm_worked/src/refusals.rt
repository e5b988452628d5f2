//! Worked scripts of refusals: which comes first, where a range ends, and what is refused for nothing.

ghost use Rattle.ksm_base.specs.State.{opening};
ghost use Rattle.ksm_worked.specs.Scripts.{Plays, shape};
ghost use Rattle.ksm_worked.specs.Refusals;

/// The settings at the start.
pub fn settings_at_opening()
    ensures { Plays (opening (shape 1 4)) Refusals.settings_at_opening }
{}

/// Of two refusals that a command meets the first in order is given.
pub fn the_first_of_two_refusals()
    ensures { Plays (opening (shape 1 4)) Refusals.the_first_of_two_refusals }
{}

/// Each setting may have the least and the greatest value of its range, and none beside it.
pub fn ranges_have_both_ends()
    ensures { Plays (opening (shape 1 4)) Refusals.ranges_have_both_ends }
{}

/// Neither knob of sharing changes while pages are shared, whether the scan runs or not, to a higher or a lower value.
pub fn shared_pages_hold_both_knobs()
    ensures { Plays (opening (shape 1 4)) Refusals.shared_pages_hold_both_knobs }
{}

/// A page that has no row, and a guest that has none, are refused beside others that have some.
pub fn pages_and_guests_without_rows()
    ensures { Plays (opening (shape 1 4)) Refusals.pages_and_guests_without_rows }
{}

/// No scan runs with run 0, and none with run 2.
pub fn no_scan_but_with_run_one()
    ensures { Plays (opening (shape 1 4)) Refusals.no_scan_but_with_run_one }
{}

/// All but the scan is done whether it runs or not.
pub fn all_but_the_scan_goes_on()
    ensures { Plays (opening (shape 1 4)) Refusals.all_but_the_scan_goes_on }
{}

/// A run of 0 or 1 is done, and answers nothing else; a run of 2 that lets no page go tells so.
pub fn answers_of_a_run()
    ensures { Plays (opening (shape 1 4)) Refusals.answers_of_a_run }
{}
