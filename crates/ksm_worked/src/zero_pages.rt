//! Worked scripts of pages that are mapped from the zero page: when they become so, and what leaves it.

ghost use Rattle.ksm_base.specs.State.{opening};
ghost use Rattle.ksm_worked.specs.Scripts.{Plays, shape};
ghost use Rattle.ksm_worked.specs.ZeroPages;

/// Empty pages become Zero; a store of zeroes takes one away until the next pass.
pub fn empty_pages_become_zero()
    ensures { Plays (opening (shape 1 4)) ZeroPages.empty_pages_become_zero }
{}

/// The frames of pages that became Zero are given again, and then none is left for a copy.
pub fn zero_pages_and_no_frame()
    ensures { Plays (opening (shape 1 2)) ZeroPages.zero_pages_and_no_frame }
{}

/// A page of zeroes joins an open dup of zeroes rather than the zero page.
pub fn open_dup_before_zero_page()
    ensures { Plays (opening (shape 1 4)) ZeroPages.open_dup_before_zero_page }
{}

/// A page becomes Zero only once it was found unchanged.
pub fn unchanged_before_zero()
    ensures { Plays (opening (shape 2 4)) ZeroPages.unchanged_before_zero }
{}

/// With the knob at 0 empty pages merge with each other.
pub fn empty_pages_merge_at_zero()
    ensures { Plays (opening (shape 1 4)) ZeroPages.empty_pages_merge_at_zero }
{}

/// A page with one byte that is not zero is no empty one.
pub fn last_byte_counts()
    ensures { Plays (opening (shape 1 4)) ZeroPages.last_byte_counts }
{}

/// A page of zeroes becomes Zero, though another one waits for it.
pub fn zero_page_before_a_waiting_one()
    ensures { Plays (opening (shape 1 4)) ZeroPages.zero_page_before_a_waiting_one }
{}

/// A page that finds the dup of zeroes full becomes Zero.
pub fn full_dup_of_zeroes()
    ensures { Plays (opening (shape 1 4)) ZeroPages.full_dup_of_zeroes }
{}

/// A Zero page stays as it is in a visit.
pub fn zero_page_stays()
    ensures { Plays (opening (shape 1 4)) ZeroPages.zero_page_stays }
{}

/// A store to a Zero page changes that page alone.
pub fn store_to_a_zero_page()
    ensures { Plays (opening (shape 1 4)) ZeroPages.store_to_a_zero_page }
{}

/// A Zero page that goes needs no frame.
pub fn zero_page_is_dropped()
    ensures { Plays (opening (shape 1 4)) ZeroPages.zero_page_is_dropped }
{}

/// A Zero page that moves to another node needs a frame there.
pub fn move_of_a_zero_page()
    ensures { Plays (opening (shape 2 4)) ZeroPages.move_of_a_zero_page }
{}

/// Unmerging takes Zero pages as merged ones, and counts them.
pub fn unmerging_takes_zero_pages()
    ensures { Plays (opening (shape 1 8)) ZeroPages.unmerging_takes_zero_pages }
{}

/// An unmerging that stops at a Zero page has let go those before it.
pub fn unmerging_stops_at_a_zero_page()
    ensures { Plays (opening (shape 1 4)) ZeroPages.unmerging_stops_at_a_zero_page }
{}

/// A run of 2 takes Zero pages as merged ones, and counts them.
pub fn run_of_two_takes_zero_pages()
    ensures { Plays (opening (shape 1 4)) ZeroPages.run_of_two_takes_zero_pages }
{}

/// A run of 2 may stop at a Zero page.
pub fn run_of_two_stops_at_a_zero_page()
    ensures { Plays (opening (shape 1 4)) ZeroPages.run_of_two_stops_at_a_zero_page }
{}

/// Other knobs change no Zero page, and are not held by one.
pub fn knobs_leave_zero_pages()
    ensures { Plays (opening (shape 1 4)) ZeroPages.knobs_leave_zero_pages }
{}

/// The knob takes 0 and 1 at any time, and changes no row.
pub fn zero_knob_at_any_time()
    ensures { Plays (opening (shape 1 4)) ZeroPages.zero_knob_at_any_time }
{}
