//! Worked scripts of what a command leaves as it is: every row, the settings, the pass.

ghost use Rattle.ksm_base.specs.State.{opening};
ghost use Rattle.ksm_worked.specs.Scripts.{Plays, shape};
ghost use Rattle.ksm_worked.specs.Untouched;

/// A page that moves changes no other page, no setting and not the pass; the next dup has the next number and place.
pub fn move_changes_nothing_else()
    ensures { Plays (opening (shape 2 8)) Untouched.move_changes_nothing_else }
{}

/// A dup that moves changes no page, no setting and not the pass.
pub fn dup_move_changes_nothing_else()
    ensures { Plays (opening (shape 2 8)) Untouched.dup_move_changes_nothing_else }
{}

/// Another `pages_to_scan` changes no page, no other setting and not the pass.
pub fn pages_to_scan_changes_nothing_else()
    ensures { Plays (opening (shape 2 8)) Untouched.pages_to_scan_changes_nothing_else }
{}

/// Pruning where no dup is stale, and a page dropped and registered again, change no other page, no setting and not the
/// pass.
pub fn prune_changes_nothing_else()
    ensures { Plays (opening (shape 2 8)) Untouched.prune_changes_nothing_else }
{}

/// The knob of the zero page drops no stale dup, and changes no other setting and no page until its next visit.
pub fn zero_knob_changes_nothing_else()
    ensures { Plays (opening (shape 2 8)) Untouched.zero_knob_changes_nothing_else }
{}
