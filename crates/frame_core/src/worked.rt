//! Worked runs: what the trace of a run tells of holders, named words and words read.
ghost use Rattle.std.specs.Prelude.{◌≡◌, ◌+◌, ◌*◌, true, false, [], ◌∷◌, ◌++◌, Some, None};
ghost use Rattle.ksm_base.specs.declared.limits.TheConstants.{COUNT_SPAN, PLACE_SPAN};
ghost use Rattle.ksm_base.specs.declared.page.TheConstants.{PAGE_WORDS};
ghost use Rattle.frame_core.specs.declared.event.Event.TheVariants.{Reader, Keeper};
ghost use Rattle.frame_core.specs.declared.event.KeeperStep.TheVariants.{Reap, Put, Raise, Open, Add, Sub, Publish, Replace, Withdraw, Freeze, Word};
ghost use Rattle.frame_core.specs.declared.event.ReaderStep.TheVariants.{LoadPlace, LoadFrame, Exchange, Leave, LoadWord};
ghost use Rattle.frame_core.specs.declared.frame.Kind.TheVariants.{Stable};
ghost use Rattle.frame_core.specs.Ledger.{frame_at, named_at};
ghost use Rattle.frame_core.specs.Live.{GivesUp, LiveAt, LivePlacesAreFound, found_gone};
ghost use Rattle.frame_core.specs.Safe.{IsSafe, GivenUnheld};
ghost use Rattle.frame_core.specs.Seat.{aim_at};
ghost use Rattle.frame_core.specs.Steps.{step};
ghost use Rattle.frame_core.specs.Trace.{run_of, life_of, holders, named_word, place_loaded, words_read, given_since, HoldsRightly};
ghost use Rattle.frame_core.specs.Worked.{least, trace_of, IsRefused, IsRefusedOfTwo, opened, dying, published, begins, two_lives, held, taken, and_then, taken_and_writable, two_frames, named_and_private, given_up_and_private, replaced, with_two, loads, live_with, found_unreferenced};

/// Two lives in one word: the exchange fails though the count is the one that was loaded, so nobody holds the frame in
/// its second life, which was named nowhere.
pub fn two_lives_in_one_word()
    ensures life { life_of 0 (trace_of two_lives) ≡ 2 }
    ensures holders { holders 1 0 (trace_of two_lives) ≡ [] }
    ensures given { given_since 0 0 (trace_of two_lives) ≡ true }
    ensures named { named_word 0 1 1 (trace_of two_lives) ≡ Some 8 }
    ensures unnamed { named_word 0 2 1 (trace_of two_lives) ≡ None }
    ensures unread { words_read 0 (trace_of two_lives) ≡ [] }
{}

/// A frame that is held is not given again: the raise finds a holder and is not allowed, and the word that the holder
/// read is the one named.
pub fn a_held_frame_is_not_given()
    ensures before { holders 1 0 (trace_of published) ≡ [] }
    ensures life { life_of 0 (trace_of held) ≡ 1 }
    ensures holders { holders 1 0 (trace_of held) ≡ 0 ∷ [] }
    ensures ungiven { given_since 0 0 (trace_of held) ≡ false }
    ensures named { named_word 0 1 0 (trace_of held) ≡ Some 7 }
    ensures read { words_read 0 (trace_of held) ≡ (1, 8) ∷ [] }
    ensures left { holders 1 0 (trace_of (held ++ Reader 0 Leave ∷ [])) ≡ [] }
{}

/// A rightful hold, and what is none though it lacks one part of it alone.
pub fn a_hold_that_is_not_rightful()
    ensures rightful { HoldsRightly 0 (aim_at 0 0 1) (and_then (Reader 0 (LoadWord 1)) 8) }
    ensures another_place { ¬ HoldsRightly 0 (aim_at 1 0 1) (trace_of taken) }
    ensures frame_of_no_word { ¬ HoldsRightly 0 (aim_at 0 PLACE_SPAN 0) (trace_of taken) }
    ensures another_life { ¬ HoldsRightly 0 (aim_at 0 0 1) (and_then (Keeper (Raise 0)) 0) }
    ensures given_since { ¬ HoldsRightly 0 (aim_at 0 0 1) (and_then (Keeper (Open 0)) 0) }
    ensures another_word { ¬ HoldsRightly 0 (aim_at 0 0 1) (and_then (Reader 0 (LoadWord 1)) 9) }
{}

/// What is not safe: to raise, to open or to write a frame that is held.
pub fn a_held_frame_that_is_given_or_written()
    ensures safe { GivenUnheld 1 (trace_of taken) }
    ensures raised { ¬ GivenUnheld 1 (and_then (Keeper (Raise 0)) 0) }
    ensures opened { ¬ GivenUnheld 1 (and_then (Keeper (Open 0)) 0) }
    ensures written { ¬ IsSafe least taken_and_writable }
{}

/// What the keeper may not do with a frame: each step where the frame is used for something else.
pub fn frames_that_refuse_the_keeper()
    ensures reap { IsRefused opened (Keeper (Reap 0)) }
    ensures put { IsRefused [] (Keeper (Put 0 0 7)) × IsRefused published (Keeper (Put 0 0 7)) }
    ensures raise { IsRefused opened (Keeper (Raise 0)) × IsRefused dying (Keeper (Raise 0)) }
    ensures open { IsRefused [] (Keeper (Open 0)) × IsRefused opened (Keeper (Open 0)) }
    ensures add { IsRefused [] (Keeper (Add 0)) × IsRefused dying (Keeper (Add 0)) }
    ensures sub { IsRefused [] (Keeper (Sub 0)) × IsRefused dying (Keeper (Sub 0)) }
    ensures freeze { IsRefused opened (Keeper (Freeze 0)) × IsRefused dying (Keeper (Freeze 0)) }
    ensures word { IsRefused [] (Keeper (Word 0 0)) × IsRefused (Keeper (Raise 0) ∷ []) (Keeper (Word 0 0)) }
{}

/// What the keeper may not do at a place: name a frame that is not private, or change one that names a stable frame in
/// its present life.
pub fn places_that_refuse_the_keeper()
    ensures unopened { IsRefused [] (Keeper (Publish 0 0)) × IsRefused (Keeper (Raise 0) ∷ []) (Keeper (Publish 0 0)) }
    ensures dying { IsRefused dying (Keeper (Publish 0 0)) }
    ensures live { IsRefused published (Keeper (Publish 0 0)) × IsRefused published (Keeper (Withdraw 0)) }
    ensures live_beside { IsRefusedOfTwo named_and_private (Keeper (Publish 0 1)) }
    ensures empty_beside { ¬ IsRefusedOfTwo named_and_private (Keeper (Publish 1 1)) }
{}

/// What the keeper may not replace: a place or a frame outside the table, by a frame that is not private, at a place
/// that names nothing or a frame that was given up. A place that is live it may.
pub fn places_that_are_not_replaced()
    ensures place { IsRefusedOfTwo named_and_private (Keeper (Replace 2 1)) }
    ensures frame { IsRefusedOfTwo named_and_private (Keeper (Replace 0 2)) }
    ensures stable { IsRefusedOfTwo named_and_private (Keeper (Replace 0 0)) }
    ensures unopened { IsRefusedOfTwo published (Keeper (Replace 0 1)) × IsRefusedOfTwo (published ++ Keeper (Raise 1) ∷ []) (Keeper (Replace 0 1)) }
    ensures empty { IsRefusedOfTwo named_and_private (Keeper (Replace 1 1)) }
    ensures given_up { IsRefusedOfTwo given_up_and_private (Keeper (Replace 0 1)) × ¬ IsRefusedOfTwo given_up_and_private (Keeper (Publish 0 1)) }
    ensures live { ¬ IsRefusedOfTwo named_and_private (Keeper (Replace 0 1)) }
{}

/// A place that is replaced names the new frame, which is stable with the words stored to it; the old frame stays as it
/// was, and is named no more.
pub fn a_place_that_is_replaced()
    ensures named { named_at (with_two replaced).state.ledger 0 ≡ Some record { frame = 1; generation = 1 } }
    ensures stable { (frame_at (with_two replaced).state.ledger 1).kind ≡ Stable }
    ensures old { frame_at (with_two replaced).state.ledger 0 ≡ frame_at (with_two published).state.ledger 0 }
    ensures words { (named_word 1 1 0 (with_two replaced).trace ≡ Some 9) × (named_word 1 1 0 (with_two named_and_private).trace ≡ None) }
    ensures found { place_loaded 0 (with_two (replaced ++ Reader 0 (LoadPlace 0) ∷ [])).trace ≡ Some (0, PLACE_SPAN + 1) }
{}

/// What lies outside the table: a frame, a place, a word or a seat that it does not have.
pub fn steps_outside_the_table()
    ensures frames { IsRefused [] (Keeper (Raise 1)) × IsRefused [] (Keeper (Reap 1)) × IsRefused [] (Keeper (Open 1)) × IsRefused [] (Keeper (Freeze 1)) }
    ensures references { IsRefused opened (Keeper (Add 1)) × IsRefused opened (Keeper (Sub 1)) }
    ensures words { IsRefused opened (Keeper (Put 0 PAGE_WORDS 7)) × IsRefused opened (Keeper (Word 0 PAGE_WORDS)) × IsRefused opened (Keeper (Put 1 0 7)) }
    ensures places { IsRefused opened (Keeper (Publish 1 0)) × IsRefused opened (Keeper (Publish 0 1)) × IsRefused [] (Keeper (Withdraw 1)) }
    ensures lookups { IsRefused [] (Reader 0 (LoadPlace 1)) × IsRefused [] (Reader 1 (LoadPlace 0)) }
    ensures loads { IsRefused taken (Reader 0 (LoadWord PAGE_WORDS)) }
{}

/// What a reader may not do, as far as its lookup has come.
pub fn readers_that_are_refused()
    ensures idle { IsRefused published (Reader 0 LoadFrame) × IsRefused published (Reader 0 Exchange) × IsRefused published (Reader 0 Leave) × IsRefused published (Reader 0 (LoadWord 0)) }
    ensures placed { IsRefused (published ++ Reader 0 (LoadPlace 0) ∷ []) (Reader 0 (LoadPlace 0)) × IsRefused (published ++ Reader 0 (LoadPlace 0) ∷ []) (Reader 0 Exchange) }
    ensures placed_not_held { IsRefused (published ++ Reader 0 (LoadPlace 0) ∷ []) (Reader 0 Leave) × IsRefused (published ++ Reader 0 (LoadPlace 0) ∷ []) (Reader 0 (LoadWord 0)) }
    ensures counted { IsRefused (published ++ begins) (Reader 0 (LoadPlace 0)) × IsRefused (published ++ begins) (Reader 0 LoadFrame) × IsRefused (published ++ begins) (Reader 0 Leave) }
    ensures counted_not_held { IsRefused (published ++ begins) (Reader 0 (LoadWord 0)) }
    ensures held { IsRefused taken (Reader 0 (LoadPlace 0)) × IsRefused taken (Reader 0 LoadFrame) × IsRefused taken (Reader 0 Exchange) }
{}

/// Which steps give up what a place names: the last reference on its frame, or all at once; not one of two, and not
/// those on another frame.
pub fn steps_that_give_a_place_up()
    ensures live { LiveAt (with_two named_and_private).state.ledger 0 × ¬ LiveAt (with_two named_and_private).state.ledger 1 × ¬ LiveAt (with_two given_up_and_private).state.ledger 0 }
    ensures replaced { LiveAt (with_two replaced).state.ledger 0 }
    ensures last { GivesUp (with_two (replaced ++ Keeper (Sub 0) ∷ [])).state.ledger 0 (Sub 1) }
    ensures not_last { ¬ GivesUp (with_two named_and_private).state.ledger 0 (Sub 0) }
    ensures at_once { GivesUp (with_two named_and_private).state.ledger 0 (Freeze 0) × ¬ GivesUp (with_two named_and_private).state.ledger 1 (Freeze 0) }
    ensures another { ¬ GivesUp (with_two replaced).state.ledger 0 (Freeze 0) }
{}

/// What a log tells of lives found gone: those whose frame had no reference, or was in another life.
pub fn lives_found_gone()
    ensures counted { found_gone (loads (COUNT_SPAN + 2)) ≡ [] }
    ensures unreferenced { found_gone (loads COUNT_SPAN) ≡ PLACE_SPAN ∷ [] }
    ensures another_life { found_gone (loads (2 * COUNT_SPAN + 2)) ≡ PLACE_SPAN ∷ [] }
    ensures only_loaded { found_gone ((LoadPlace 0, PLACE_SPAN) ∷ []) ≡ [] }
    ensures later { found_gone (loads COUNT_SPAN ++ (LoadPlace 0, 2 * PLACE_SPAN) ∷ (LoadFrame, COUNT_SPAN) ∷ []) ≡ 2 * PLACE_SPAN ∷ PLACE_SPAN ∷ [] }
{}

/// What would not be found at a live place: a word that is 0, a frame without a reference, a life that a lookup found
/// gone.
pub fn live_places_that_are_not_found()
    ensures empty { ¬ LivePlacesAreFound (live_with 0 2 []) }
    ensures unreferenced { ¬ LivePlacesAreFound (live_with 1 0 []) }
    ensures gone { ¬ LivePlacesAreFound (live_with 1 2 found_unreferenced) }
{}
