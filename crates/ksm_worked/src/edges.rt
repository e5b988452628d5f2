//! Worked scripts at the edges of the rules, one for each clause that the others leave untried.

ghost use Rattle.ksm_base.specs.State.{opening};
ghost use Rattle.ksm_worked.specs.Scripts.{Plays, shape};
ghost use Rattle.ksm_worked.specs.Edges;

/// Of two dups with as many items a page joins the one made first, wherever it stands.
pub fn tie_goes_to_the_dup_made_first()
    ensures { Plays (opening (shape 1 8)) Edges.tie_goes_to_the_dup_made_first }
{}

/// Waiting ends as a pass begins.
pub fn waiting_ends_as_a_pass_begins()
    ensures { Plays (opening (shape 1 4)) Edges.waiting_ends_as_a_pass_begins }
{}

/// A pass ends before the next visit where the pages that it had left are gone.
pub fn pass_ends_where_the_rest_is_gone()
    ensures { Plays (opening (shape 1 4)) Edges.pass_ends_where_the_rest_is_gone }
{}

/// A scan that is refused memory for a visit has begun it, and no more.
pub fn scan_stops_for_memory()
    ensures { Plays (opening (shape 1 4)) Edges.scan_stops_for_memory }
{}

/// Pages are ordered by guest, then by page.
pub fn guests_come_first()
    ensures { Plays (opening (shape 1 4)) Edges.guests_come_first }
{}

/// A page that moves stays unchanged, so one pass more merges it.
pub fn move_keeps_unchanged()
    ensures { Plays (opening (shape 2 4)) Edges.move_keeps_unchanged }
{}

/// A page that moves merges with pages of its new home.
pub fn moved_page_merges_at_its_new_home()
    ensures { Plays (opening (shape 2 4)) Edges.moved_page_merges_at_its_new_home }
{}

/// A merged page that moves to its home stays merged.
pub fn move_to_its_home_changes_nothing()
    ensures { Plays (opening (shape 1 4)) Edges.move_to_its_home_changes_nothing }
{}

/// A store of other bytes clears unchanged, so the page needs a pass more.
pub fn store_clears_unchanged()
    ensures { Plays (opening (shape 1 4)) Edges.store_clears_unchanged }
{}

/// A run of 2 clears unchanged, and starts the scan at the first page without counting a pass.
pub fn run_of_two_starts_the_scan_anew()
    ensures { Plays (opening (shape 1 4)) Edges.run_of_two_starts_the_scan_anew }
{}

/// A run of 2 that finds no frame has taken the merged pages before, and leaves all others, those that wait too.
pub fn run_of_two_stops_part_way()
    ensures { Plays (opening (shape 1 4)) Edges.run_of_two_stops_part_way }
{}

/// Unmerging takes one guest, whose pages the scan leaves out from then on; making it mergeable again takes that guest
/// alone.
pub fn unmerging_takes_one_guest()
    ensures { Plays (opening (shape 1 4)) Edges.unmerging_takes_one_guest }
{}

/// Pages that were unmerged are not unchanged, so they need two passes more.
pub fn unmerged_pages_start_anew()
    ensures { Plays (opening (shape 1 4)) Edges.unmerged_pages_start_anew }
{}

/// Another value of merge_across_nodes ends all waiting, and pages of two nodes may merge from then on.
pub fn other_trees_end_the_waiting()
    ensures { Plays (opening (shape 2 4)) Edges.other_trees_end_the_waiting }
{}

/// A page whose bytes are merged on another node waits, with merge_across_nodes 0.
pub fn page_of_another_node_waits()
    ensures { Plays (opening (shape 2 4)) Edges.page_of_another_node_waits }
{}

/// Another value of either knob drops the stale dups.
pub fn other_values_drop_stale_dups()
    ensures { Plays (opening (shape 1 4)) Edges.other_values_drop_stale_dups }
{}

/// A knob may be set to the value that it has while pages are shared, and then drops no stale dup.
pub fn own_values_change_nothing()
    ensures { Plays (opening (shape 1 4)) Edges.own_values_change_nothing }
{}

/// Answers that never come: a frame missed where none is needed, or on another node; visits left out; a wrong count.
pub fn answers_that_never_come()
    ensures { Plays (opening (shape 2 4)) Edges.answers_that_never_come }
{}
