//! Worked moments of a table of one frame, one place and one pass: lawful ones, ones that are not safe, each by one
//! clause, and entries that lie.
ghost use Rattle.std.specs.Prelude.{ℕ, [], ◌∷◌, take};
ghost use Rattle.frame_core.specs.Trace.{run_of};
ghost use Rattle.frame_core.specs.Safe.{IsSafe, GivenUnheld};
ghost use Rattle.frame_table.specs.Terms.{Shape, Idle, LoadPlace, Exchange};
ghost use Rattle.frame_table.specs.declared.view.View.TheVariants.{Reader, Spent};
ghost use Rattle.frame_table.specs.Moments.{one, opening, opening_with, first_keeper, first_pass, load, loaded, holder, filler, held_phase, given_back, named, words_with, state_after, kept};
ghost use Rattle.frame_table.specs.Live.{IsFoundAt, IsLiveNow};
ghost use Rattle.frame_core.specs.declared.event.Event.TheVariants as event;
ghost use Rattle.frame_core.specs.declared.event.KeeperStep.TheVariants as keeper;
ghost use Rattle.frame_table.specs.Rule.{Holds};
ghost use Rattle.frame_table.specs.Running.{RunsSafely};
ghost use Rattle.frame_table.specs.Truth.{Moment, IsOpen, IsTrueEntry, IsStep};

/// The moment of the opening keeps the rule and is open; so is the moment at which the pass has loaded its place, and
/// tells what it found there.
pub fn moments_that_are_lawful()
    ensures opened { Holds one opening }
    ensures loaded { Holds one (loaded 0) }
    ensures open { IsOpen 0 opening × IsOpen 1 opening }
    ensures given_back { IsOpen 1 (opening_with (first_keeper ∷ Spent ∷ [])) × ¬ IsOpen 0 (opening_with (first_keeper ∷ Spent ∷ [])) }
    ensures lies { ¬ Holds one (loaded 5) }
{}

/// What is not safe of words, shapes and seats.
pub fn moments_with_other_words_or_seats()
    ensures words { ¬ RunsSafely one record { words = []; homes = []; views = first_keeper ∷ first_pass ∷ [] } }
    ensures shape { (t : Moment) → ¬ RunsSafely (record one { tries = 0 }) t }
    ensures keepers { ¬ RunsSafely one (opening_with (first_pass ∷ [])) }
    ensures ledger { ¬ RunsSafely one (opening_with (filler ∷ first_pass ∷ [])) }
    ensures log { ¬ RunsSafely one (opening_with (first_keeper ∷ Reader one Idle ((LoadPlace 0, 0) ∷ []) [] ∷ [])) }
    ensures order { ¬ RunsSafely one (opening_with (first_keeper ∷ Reader one Idle [] (load ∷ []) ∷ [])) }
    ensures given_back { ¬ RunsSafely one given_back }
    ensures unseen { ¬ RunsSafely one (opening_with []) }
{}

/// What is not safe of holds.
pub fn moments_with_other_holds()
    ensures held { ¬ RunsSafely one (opening_with (first_keeper ∷ holder ∷ [])) }
    ensures writable { ¬ RunsSafely one (opening_with (filler ∷ holder ∷ [])) }
    ensures given { (sh : Shape) (t : Moment) (safe : RunsSafely sh t) → GivenUnheld sh.passes (run_of sh safe.events).trace }
    ensures safe { (sh : Shape) (t : Moment) (safe : RunsSafely sh t) → (n : ℕ) → IsSafe sh (run_of sh (take n safe.events)) }
{}

/// An entry that is true between two moments, and entries that are not.
pub fn entries_that_lie()
    ensures true_entry { IsTrueEntry one opening (loaded 0) Idle Idle (LoadPlace 0) 0 }
    ensures another_word { ¬ IsTrueEntry one opening (loaded 5) Idle Idle (LoadPlace 0) 5 }
    ensures not_allowed { ¬ IsTrueEntry one opening (loaded 0) Idle Idle Exchange 0 }
    ensures another_change { ¬ IsTrueEntry one opening record { words = []; homes = []; views = [] } Idle Idle (LoadPlace 0) 0 }
    ensures another_phase { ¬ IsTrueEntry one opening (loaded 0) Idle held_phase (LoadPlace 0) 0 }
    ensures true_step { IsStep one opening (kept (keeper.Raise 0)) (event.Keeper (keeper.Raise 0)) 0 (state_after []) (state_after (event.Keeper (keeper.Raise 0) ∷ [])) }
    ensures another_find { ¬ IsStep one opening (kept (keeper.Raise 0)) (event.Keeper (keeper.Raise 0)) 5 (state_after []) (state_after (event.Keeper (keeper.Raise 0) ∷ [])) }
    ensures nothing_left { ¬ IsStep one opening opening (event.Keeper (keeper.Raise 0)) 0 (state_after []) (state_after (event.Keeper (keeper.Raise 0) ∷ [])) }
{}

/// A place that is found, one for each way in which a place is not, and a moment at which one is live.
pub fn places_that_are_not_found()
    ensures found { IsFoundAt one (words_with 0 1 1 1) 0 }
    ensures empty { ¬ IsFoundAt one (words_with 0 0 0 1) 0 }
    ensures outside { ¬ IsFoundAt one (words_with 1 1 1 1) 0 }
    ensures unreferenced { ¬ IsFoundAt one (words_with 0 1 1 0) 0 }
    ensures another_life { ¬ IsFoundAt one (words_with 0 1 2 1) 0 }
    ensures live { Holds one named × IsLiveNow one named 0 × ¬ IsLiveNow one opening 0 }
{}
