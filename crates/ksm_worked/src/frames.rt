//! Worked scripts of commands that need frames: moves, copies, and what is answered where no frame is free.

ghost use Rattle.ksm_base.specs.State.{opening};
ghost use Rattle.ksm_worked.specs.Scripts.{Plays, shape};
ghost use Rattle.ksm_worked.specs.Frames;

/// A page that moves to another node gets a frame there and leaves its dup.
pub fn moved_page_leaves_its_dup()
    ensures { Plays (opening (shape 2 4)) Frames.moved_page_leaves_its_dup }
{}

/// A frame is given so many times and never again.
pub fn frame_retires()
    ensures { Plays (opening (record (shape 1 1) { last_generation = 2 })) Frames.frame_retires }
{}

/// Unmerging stops where no frame is free.
pub fn unmerging_runs_out_of_frames()
    ensures { Plays (opening (shape 1 3)) Frames.unmerging_runs_out_of_frames }
{}

/// A dup moves once nobody holds its frame.
pub fn held_dup_cannot_move()
    ensures { Plays (opening (shape 2 4)) Frames.held_dup_cannot_move }
{}

/// A dup that moves keeps its place, its items and its bytes; with merge_across_nodes 0 it stays on its node.
pub fn dup_moves_within_its_node()
    ensures { Plays (opening (shape 2 4)) Frames.dup_moves_within_its_node }
{}

/// A refused move changes nothing.
pub fn refused_moves_spend_no_life()
    ensures { Plays (opening (record (shape 1 2) { last_generation = 2 })) Frames.refused_moves_spend_no_life }
{}

/// A dying frame that is held isn't given, so the copies leave no frame for a new page until it is left.
pub fn stale_place_three_answers()
    ensures { Plays (opening (shape 1 4)) Frames.stale_place_three_answers }
{}

/// A frame without pages stays while it is held.
pub fn held_dying_frame_is_not_given()
    ensures { Plays (opening (shape 1 2)) Frames.held_dying_frame_is_not_given }
{}

/// Every command that needs a frame meets no free one.
pub fn no_frame_everywhere()
    ensures { Plays (opening (shape 2 2)) Frames.no_frame_everywhere }
{}

/// A copy wants a frame of its page's home, wherever the dup lies; a move wants one of the node it goes to.
pub fn frame_is_missed_where_it_is_wanted()
    ensures { Plays (opening (shape 2 2)) Frames.frame_is_missed_where_it_is_wanted }
{}

/// A page moves to a lower node as it moves to a higher one.
pub fn page_moves_to_a_lower_node()
    ensures { Plays (opening (shape 2 1)) Frames.page_moves_to_a_lower_node }
{}

/// A page registered on the second node misses a frame of that node, and of no other.
pub fn registering_misses_a_frame_of_its_node()
    ensures { Plays (opening (shape 2 1)) Frames.registering_misses_a_frame_of_its_node }
{}
