//! Worked scripts of knobs, refusals and unmerging.

ghost use Rattle.ksm_base.specs.State.{opening};
ghost use Rattle.ksm_worked.specs.Scripts.{Plays, shape};
ghost use Rattle.ksm_worked.specs.Knobs;

/// With merge_across_nodes 0 each node has trees of its own.
pub fn nodes_kept_apart()
    ensures { Plays (opening (shape 2 2)) Knobs.nodes_kept_apart }
{}

/// The knob merge_across_nodes changes only while no page is shared.
pub fn knob_waits_for_unmerging()
    ensures { Plays (opening (shape 1 4)) Knobs.knob_waits_for_unmerging }
{}

/// Commands that are refused, one refusal after the other.
pub fn refusals_of_commands()
    ensures { Plays (opening (shape 1 4)) Knobs.refusals_of_commands }
{}

/// An unmerged guest isn't scanned until it is mergeable again.
pub fn mergeable_again()
    ensures { Plays (opening (shape 1 4)) Knobs.mergeable_again }
{}

/// A scan of pages_to_scan visits.
pub fn scan_of_pages_to_scan()
    ensures { Plays (opening (shape 1 4)) Knobs.scan_of_pages_to_scan }
{}
