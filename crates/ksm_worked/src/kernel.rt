//! What the kernel's own tests of this feature check (tools/testing/selftests/mm, ksm_tests and ksm_functional_tests),
//! as scripts.

ghost use Rattle.ksm_base.specs.State.{opening};
ghost use Rattle.ksm_worked.specs.Scripts.{Plays, shape};
ghost use Rattle.ksm_worked.specs.Selftests;

/// Ten equal pages make one dup below the limit.
pub fn ten_pages_make_one_dup()
    ensures { Plays (opening (shape 1 10)) Selftests.ten_pages_make_one_dup }
{}

/// Ten equal pages at limit three make three full dups, and one page waits.
pub fn ten_pages_at_limit_three()
    ensures { Plays (opening (shape 1 10)) Selftests.ten_pages_at_limit_three }
{}

/// Ten equal pages at limit four make two full dups and one of two.
pub fn ten_pages_at_limit_four()
    ensures { Plays (opening (shape 1 10)) Selftests.ten_pages_at_limit_four }
{}

/// Two merged pages, each written with other bytes, share nothing.
pub fn written_pages_share_nothing()
    ensures { Plays (opening (shape 1 4)) Selftests.written_pages_share_nothing }
{}

/// Equal pages of two nodes merge with merge_across_nodes 1.
pub fn two_nodes_merge()
    ensures { Plays (opening (shape 2 2)) Selftests.two_nodes_merge }
{}

/// Equal pages of two nodes do not merge with merge_across_nodes 0.
pub fn two_nodes_stay_apart()
    ensures { Plays (opening (shape 2 2)) Selftests.two_nodes_stay_apart }
{}

/// Unmerging leaves no page merged.
pub fn unmerging_leaves_none_merged()
    ensures { Plays (opening (shape 1 5)) Selftests.unmerging_leaves_none_merged }
{}

/// Unmerging takes the pages of a guest that are left after some were dropped.
pub fn unmerging_after_discarding()
    ensures { Plays (opening (shape 1 5)) Selftests.unmerging_after_discarding }
{}
