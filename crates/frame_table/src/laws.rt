//! What holds of the table at every moment, and of its steps.
ghost use Rattle.std.specs.Prelude.{ℕ, ◌≢◌, ◌+◌, ◌/◌, ◌<◌};
ghost use Rattle.frame_core.specs.declared.frame.TheConstants.{LINE_WORDS as words_of_line};
ghost use Rattle.frame_core.specs.Words.{frame_word_at, content_at};
ghost use Rattle.frame_core.specs.Live.{PublishMakesLive, LiveUntilGivenUp};
ghost use Rattle.frame_table.specs.Live.{LivePlacesAreFound, LoadsFindLives, GoneIsOvertaken, AnswersAreNoted};
ghost use Rattle.frame_table.specs.Running.{TheTableRunsSafely};
ghost use Rattle.frame_table.specs.Steps.{ReadersStepAsTheCore, KeeperStepsAsTheCore};
ghost use Rattle.frame_table.specs.Truth.{ReadersLogIsTrue, KeepersLogIsTrue};

/// Between any two steps of any threads the table runs safely. There is one order of the steps made so far: each seat
/// has seen a beginning of it, with all of its own steps, and its log is its part of them. The words are those of the
/// core after them, which keeps its rule; each pass has come as far as the core's seat, and the keeper's ledger is what
/// the words say. No frame was raised or opened while a seat held it, none that may be written is held, each hold is of
/// the life that its place named, which is the present one, and of the words that it was published with, and each count
/// is the keeper's references and the holders together.
#[tactic(auto, using(crate::proofs::Running::runs_safely))]
pub fn the_running_table_is_safe()
    ensures { TheTableRunsSafely }
{}

/// A step of a seat is the core's step of the same name, in each state that keeps the core's rule: it finds and leaves
/// the words of the states before and after it, and the seat knows what the state after it says.
#[tactic(auto, using(crate::proofs::ReaderWords::reader_step_is, crate::proofs::KeeperMay::keeper_step_is))]
pub fn steps_are_the_cores()
    ensures readers { ReadersStepAsTheCore }
    ensures keeper { KeeperStepsAsTheCore }
{}

/// A log cannot lie, whoever writes it. Take two moments of one table, at both of which its rule holds, and let one
/// seat alone have gone on between them, by one entry of its log. Then the entry is a step of the present: what it
/// tells is the word that stands there at the first moment, and at the second that word alone is another, and the seat
/// has come as far, as the core's step of the same name says. Of the keeper's entries that is said by the core's states
/// before and after. It holds while no other pass has been given back, which is done as the table is closed.
pub fn a_log_cannot_lie()
    ensures readers { ReadersLogIsTrue }
    ensures keeper { KeepersLogIsTrue }
{}

/// A place that is replaced is never found empty. A publish makes its place live, and each step of the keeper leaves it
/// so, a replacement too, unless it gives up the frame named: by the last `sub`, or by a `freeze`. At every moment a
/// live place is not empty, its frame is in the life named, with a reference, and no lookup of a pass in hand has found
/// that life gone.
///
/// So a load of a live place finds a life, the one named last. A lookup that finds that life gone after all was
/// overtaken: by then the place names another. And a lookup that answers `Zero` or `Generation` notes that life, so
/// whoever asks anew at a live place finds another one: it looks again only where a whole replacement came between.
pub fn a_replaced_place_is_never_empty()
    ensures begins { PublishMakesLive }
    ensures lasts { LiveUntilGivenUp }
    ensures found { LivePlacesAreFound }
    ensures loaded { LoadsFindLives }
    ensures overtaken { GoneIsOvertaken }
    ensures noted { AnswersAreNoted }
{}

/// Wherever the table begins, no two frame words lie in one line of eight words, and none in a line with a word of a
/// page.
pub fn frame_words_lie_apart()
    ensures frames { (begin places f g : ℕ) → f ≢ g → (begin + frame_word_at places f) / words_of_line ≢ (begin + frame_word_at places g) / words_of_line }
    ensures pages { (begin places f g i : ℕ) → f < places → (begin + frame_word_at places f) / words_of_line ≢ (begin + content_at places g i) / words_of_line }
{}
