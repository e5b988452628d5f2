//! Worked scripts of what is kept of a row: home, bytes, mergeable, unchanged and state.

ghost use Rattle.ksm_base.specs.State.{opening};
ghost use Rattle.ksm_worked.specs.Scripts.{Plays, shape};
ghost use Rattle.ksm_worked.specs.Flags;

/// Pages of two guests are two pages, though they have one number.
pub fn pages_of_two_guests()
    ensures { Plays (opening (shape 1 4)) Flags.pages_of_two_guests }
{}

/// What a row has from its registering to its unmerging.
pub fn life_of_a_row()
    ensures { Plays (opening (shape 2 4)) Flags.life_of_a_row }
{}

/// A store to a waiting page ends its waiting, and it keeps unchanged exactly where the bytes are equal.
pub fn store_ends_the_waiting()
    ensures { Plays (opening (shape 1 4)) Flags.store_ends_the_waiting }
{}

/// A page that moves leaves its dup or ends its waiting, and keeps both flags; a move to its home changes nothing.
pub fn move_keeps_both_flags()
    ensures { Plays (opening (shape 2 4)) Flags.move_keeps_both_flags }
{}

/// A page that was left out of the scan is not taken in again by a store, a move or a run of 2; unmerging takes pages
/// that are not merged too.
pub fn unmerged_page_stays_left_out()
    ensures { Plays (opening (shape 2 4)) Flags.unmerged_page_stays_left_out }
{}

/// A store of equal bytes makes no page unchanged.
pub fn equal_store_makes_no_page_unchanged()
    ensures { Plays (opening (shape 1 4)) Flags.equal_store_makes_no_page_unchanged }
{}

/// A page that joins a dup is not unchanged by that.
pub fn joined_page_keeps_its_flag()
    ensures { Plays (opening (shape 1 4)) Flags.joined_page_keeps_its_flag }
{}

/// A guest that is made mergeable keeps what is unchanged.
pub fn mergeable_keeps_unchanged()
    ensures { Plays (opening (shape 1 4)) Flags.mergeable_keeps_unchanged }
{}

/// Other knobs of sharing keep both flags, homes and bytes.
pub fn knobs_keep_both_flags()
    ensures { Plays (opening (shape 2 4)) Flags.knobs_keep_both_flags }
{}

/// A run of 2 clears unchanged, of merged pages and of others, and keeps mergeable, homes and bytes.
pub fn run_of_two_keeps_mergeable()
    ensures { Plays (opening (shape 2 4)) Flags.run_of_two_keeps_mergeable }
{}
