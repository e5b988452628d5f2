//! Worked scripts of dups: their numbers, places, trees and chains.

ghost use Rattle.ksm_base.specs.State.{opening};
ghost use Rattle.ksm_worked.specs.Scripts.{Plays, shape};
ghost use Rattle.ksm_worked.specs.Places;

/// Dups are numbered as they are made, and a new one takes the least empty place; the others stay, and each page joins
/// its own.
pub fn places_and_numbers_part()
    ensures { Plays (opening (shape 1 8)) Places.places_and_numbers_part }
{}

/// Where every place is taken, the stale dup at the least place goes, whatever its number, and those with items stay.
pub fn least_stale_place_is_taken()
    ensures { Plays (opening (shape 1 4)) Places.least_stale_place_is_taken }
{}

/// Two contents make two chains, each counted once, in whatever order its dups were made.
pub fn two_chains()
    ensures { Plays (opening (shape 1 12)) Places.two_chains }
{}

/// With merge_across_nodes 0 equal dups of two nodes make no chain.
pub fn each_node_has_chains_of_its_own()
    ensures { Plays (opening (shape 2 4)) Places.each_node_has_chains_of_its_own }
{}

/// A dup of a node's tree stays on that node, and a page of a lower node doesn't join it.
pub fn dup_of_a_higher_node()
    ensures { Plays (opening (shape 2 8)) Places.dup_of_a_higher_node }
{}

/// With merge_across_nodes 0 a page doesn't merge with one that waits on a higher node.
pub fn page_of_a_higher_node_waits_alone()
    ensures { Plays (opening (shape 2 4)) Places.page_of_a_higher_node_waits_alone }
{}

/// A stale dup has no items to show and does not move, and a run of 2 leaves it.
pub fn stale_dup_is_at_no_place()
    ensures { Plays (opening (shape 1 4)) Places.stale_dup_is_at_no_place }
{}

/// A dup keeps its row where it moves, and where its items leave it.
pub fn dup_keeps_its_row()
    ensures { Plays (opening (shape 2 4)) Places.dup_keeps_its_row }
{}

/// There are as many places as frames of all nodes together, so a third dup finds one where a node has two frames.
pub fn places_of_all_nodes()
    ensures { Plays (opening (shape 2 2)) Places.places_of_all_nodes }
{}
