//! Worked scripts of registering, storing, scanning and pruning.

ghost use Rattle.ksm_base.specs.State.{opening};
ghost use Rattle.ksm_worked.specs.Scripts.{Plays, shape};
ghost use Rattle.ksm_worked.specs.Merging;

/// All counters start at zero.
pub fn counters_at_opening()
    ensures { Plays (opening (shape 1 4)) Merging.counters_at_opening }
{}

/// A page is registered, stored to, read and counted.
pub fn first_run()
    ensures { Plays (opening (shape 1 4)) Merging.first_run }
{}

/// The first pass only marks pages unchanged.
pub fn one_pass_merges_nothing()
    ensures { Plays (opening (shape 1 4)) Merging.one_pass_merges_nothing }
{}

/// The second pass merges two equal pages, and both still read their bytes.
pub fn two_equal_pages_merge()
    ensures { Plays (opening (shape 1 4)) Merging.two_equal_pages_merge }
{}

/// Four equal pages at limit two make a chain of two full dups.
pub fn limit_boundary()
    ensures { Plays (opening (shape 1 4)) Merging.limit_boundary }
{}

/// A new dup needs two pages, so a fifth page waits.
pub fn fifth_page_waits()
    ensures { Plays (opening (shape 1 8)) Merging.fifth_page_waits }
{}

/// A stale dup stays in its chain until it is pruned.
pub fn chain_after_two_writes()
    ensures { Plays (opening (shape 1 4)) Merging.chain_after_two_writes }
{}

/// A store of equal bytes leaves the dup and keeps unchanged, so one pass merges again, beside the stale dup.
pub fn equal_store_still_copies()
    ensures { Plays (opening (shape 1 4)) Merging.equal_store_still_copies }
{}

/// A page joins the dup with the most items below the limit.
pub fn fullest_dup_is_joined()
    ensures { Plays (opening (shape 1 8)) Merging.fullest_dup_is_joined }
{}

/// Where every place is taken, a new dup takes that of the stale dup at the lowest place.
pub fn stale_dup_makes_room()
    ensures { Plays (opening (shape 1 3)) Merging.stale_dup_makes_room }
{}

/// Pages are compared in all their words.
pub fn pages_differ_in_the_last_byte()
    ensures { Plays (opening (shape 1 4)) Merging.pages_differ_in_the_last_byte }
{}
