//! Worked lookups: logs that are a lookup of the place 1, which names the frame 0 in its life 3, and logs that are
//! none.
ghost use Rattle.std.specs.Prelude.{◌≡◌, ℕ, true, false, List, [], ◌∷◌, replicate, None, Some};
ghost use Rattle.ksm_base.specs.declared.page.TheConstants.{PAGE_WORDS};
ghost use Rattle.frame_core.specs.declared.event.KeeperStep.TheVariants.{Raise};
ghost use Rattle.frame_core.specs.declared.event.ReaderStep.TheVariants.{LoadPlace};
ghost use Rattle.frame_table.specs.declared.pass.Found.{Found};
ghost use Rattle.frame_table.specs.declared.pass.Found.TheVariants.{Held, Gone};
ghost use Rattle.frame_table.specs.declared.pass.Why.TheVariants.{Vacant, Zero, Generation};
ghost use Rattle.frame_table.specs.Named.{TableName, KeeperView, PassView, HeldView};
ghost use Rattle.frame_table.specs.Equal.{Compares};
ghost use Rattle.frame_table.specs.Lookup.{IsVacant, IsZero, IsOld, IsBusy, IsFound, LooksUp, ReadsWord, Leaves};
ghost use Rattle.frame_table.specs.Seats.{Opened, Ends, new_keeper};
ghost use Rattle.frame_table.specs.Worked.{two_tries, table_of, life_word, named, loads, finds, pass_of, ended, closed};
ghost use Rattle.frame_core.specs.State.{frame_word};

/// An empty place.
pub fn lookups_of_an_empty_place()
    ensures empty { IsVacant 1 ((LoadPlace 1, 0) ∷ []) }
    ensures another_place { ¬ IsVacant 1 ((LoadPlace 0, 0) ∷ []) }
    ensures named_place { ¬ IsVacant 1 (named ∷ []) }
    ensures goes_on { ¬ IsVacant 1 ((LoadPlace 1, 0) ∷ loads 3 0 ∷ []) }
    ensures no_load { ¬ IsVacant 1 [] }
{}

/// A frame without a reference.
pub fn lookups_of_an_unreferenced_frame()
    ensures at_once { IsZero two_tries 1 (named ∷ loads 3 0 ∷ []) }
    ensures in_any_life { IsZero two_tries 1 (named ∷ loads 4 0 ∷ []) }
    ensures after_a_loss { IsZero two_tries 1 (named ∷ loads 3 2 ∷ finds 3 1 ∷ loads 3 0 ∷ []) }
    ensures after_all_tries { ¬ IsZero two_tries 1 (named ∷ loads 3 2 ∷ finds 3 1 ∷ loads 3 1 ∷ finds 3 2 ∷ loads 3 0 ∷ []) }
    ensures after_no_loss { ¬ IsZero two_tries 1 (named ∷ loads 3 2 ∷ finds 3 2 ∷ loads 3 0 ∷ []) }
    ensures referenced { ¬ IsZero two_tries 1 (named ∷ loads 3 1 ∷ []) }
    ensures unread { ¬ IsZero two_tries 1 (named ∷ []) }
{}

/// A frame in another life than the place named.
pub fn lookups_of_an_old_life()
    ensures at_once { IsOld two_tries 1 (named ∷ loads 4 2 ∷ []) }
    ensures after_a_loss { IsOld two_tries 1 (named ∷ loads 3 2 ∷ finds 4 2 ∷ loads 4 2 ∷ []) }
    ensures same_life { ¬ IsOld two_tries 1 (named ∷ loads 3 2 ∷ []) }
    ensures unreferenced { ¬ IsOld two_tries 1 (named ∷ loads 4 0 ∷ []) }
    ensures exchanged { ¬ IsOld two_tries 1 (named ∷ loads 4 2 ∷ finds 4 2 ∷ []) }
    ensures tried_there { ¬ IsOld two_tries 1 (named ∷ loads 4 2 ∷ finds 4 1 ∷ loads 4 1 ∷ []) }
{}

/// All tries lost.
pub fn lookups_that_are_busy()
    ensures all_tries { IsBusy two_tries 1 (named ∷ loads 3 2 ∷ finds 3 1 ∷ loads 3 1 ∷ finds 4 1 ∷ []) }
    ensures one_try { ¬ IsBusy two_tries 1 (named ∷ loads 3 2 ∷ finds 3 1 ∷ []) }
    ensures three_tries { ¬ IsBusy two_tries 1 (named ∷ loads 3 2 ∷ finds 3 1 ∷ loads 3 1 ∷ finds 3 2 ∷ loads 3 2 ∷ finds 3 1 ∷ []) }
    ensures no_loss { ¬ IsBusy two_tries 1 (named ∷ loads 3 2 ∷ finds 3 1 ∷ loads 3 1 ∷ finds 3 1 ∷ []) }
    ensures from_zero { ¬ IsBusy two_tries 1 (named ∷ loads 3 0 ∷ finds 3 1 ∷ loads 3 1 ∷ finds 3 2 ∷ []) }
{}

/// A hold of the frame 0 in its life 3.
pub fn lookups_that_hold()
    ensures at_once { IsFound two_tries 1 0 3 (named ∷ loads 3 2 ∷ finds 3 2 ∷ []) }
    ensures after_a_loss { IsFound two_tries 1 0 3 (named ∷ loads 3 2 ∷ finds 3 1 ∷ loads 3 1 ∷ finds 3 1 ∷ []) }
    ensures another_life { ¬ IsFound two_tries 1 0 4 (named ∷ loads 4 2 ∷ finds 4 2 ∷ []) }
    ensures another_frame { ¬ IsFound two_tries 1 1 3 (named ∷ loads 3 2 ∷ finds 3 2 ∷ []) }
    ensures another_place { ¬ IsFound two_tries 0 0 3 (named ∷ loads 3 2 ∷ finds 3 2 ∷ []) }
    ensures uncompared { ¬ IsFound two_tries 1 0 3 (named ∷ loads 4 2 ∷ finds 4 2 ∷ []) }
    ensures lost { ¬ IsFound two_tries 1 0 3 (named ∷ loads 3 2 ∷ finds 3 1 ∷ []) }
    ensures from_zero { ¬ IsFound two_tries 1 0 3 (named ∷ loads 3 0 ∷ finds 3 0 ∷ []) }
    ensures after_all_tries { ¬ IsFound two_tries 1 0 3 (named ∷ loads 3 2 ∷ finds 3 1 ∷ loads 3 1 ∷ finds 3 2 ∷ loads 3 2 ∷ finds 3 2 ∷ []) }
    ensures not_exchanged { ¬ IsFound two_tries 1 0 3 (named ∷ loads 3 2 ∷ []) }
{}

/// Each reason is told of its own lookups.
pub fn lookups_told_why()
    ensures zero { (t : TableName) → t.shape ≡ two_tries → LooksUp (pass_of t []) 1 (Gone (pass_of t (named ∷ loads 3 0 ∷ [])) Zero) }
    ensures old { (t : TableName) → t.shape ≡ two_tries → LooksUp (pass_of t []) 1 (Gone (pass_of t (named ∷ loads 4 2 ∷ [])) Generation) }
    ensures own { (v : PassView) (place : ℕ) (found : Found) → LooksUp v place found → table_of found ≡ v.table }
    ensures vacant { (t : TableName) → LooksUp (pass_of t []) 1 (Gone (pass_of t ((LoadPlace 1, 0) ∷ [])) Vacant) }
{}

/// A hold begins with no word known, and one that was read is read so again. It is left by one step more.
pub fn words_of_a_hold()
    ensures known { (v : PassView) (h : HeldView) → h.known ≡ replicate PAGE_WORDS (Some 8) → ¬ LooksUp v 1 (Held h) }
    ensures another_word { (v w : HeldView) → v.known ≡ None ∷ Some 8 ∷ [] → ¬ ReadsWord v 1 9 w }
    ensures left_here { (v : HeldView) (p : PassView) → Leaves v p → p.table ≡ v.table }
    ensures left_without_a_step { (v : HeldView) (p : PassView) → p.log ≡ v.log → ¬ Leaves v p }
{}

/// Comparisons with a page of words 8.
pub fn comparisons_of_a_hold()
    ensures unread { (v w : HeldView) → w.known ≡ replicate PAGE_WORDS None → ¬ Compares (replicate PAGE_WORDS 8) v true w }
    ensures another { (v w : HeldView) → w.known ≡ replicate PAGE_WORDS (Some 9) → ¬ Compares (replicate PAGE_WORDS 8) v true w }
    ensures equal { (v w : HeldView) → w.known ≡ replicate PAGE_WORDS (Some 8) → ¬ Compares (replicate PAGE_WORDS 8) v false w }
{}

/// A table for one pass.
pub fn tables_that_were_opened()
    ensures one_pass { (t : TableName) → t.shape ≡ two_tries → Opened two_tries t (new_keeper t) (pass_of t [] ∷ []) }
    ensures no_pass { (t : TableName) (k : KeeperView) → ¬ Opened two_tries t k [] }
    ensures two_passes { (t : TableName) (k : KeeperView) → ¬ Opened two_tries t k (pass_of t [] ∷ pass_of t [] ∷ []) }
    ensures a_step { (t : TableName) (k : KeeperView) → ¬ Opened two_tries t k (pass_of t (named ∷ []) ∷ []) }
    ensures another_shape { (t : TableName) (k : KeeperView) (ps : List PassView) → t.shape.passes ≡ 2 → ¬ Opened two_tries t k ps }
    ensures keepers_step { (t : TableName) (k : KeeperView) (ps : List PassView) → k.log ≡ (Raise 0, 0) ∷ [] → ¬ Opened two_tries t k ps }
{}

/// A table closed with one reference on its frame, the keeper's.
pub fn tables_that_were_closed()
    ensures end { Ends ended (closed (life_word 1) (frame_word 1 1)) }
    ensures held { ¬ Ends ended (closed (life_word 1) (frame_word 1 2)) }
    ensures another_life { ¬ Ends ended (closed (life_word 1) (frame_word 2 1)) }
    ensures another_place { ¬ Ends ended (closed 0 (frame_word 1 1)) }
{}
