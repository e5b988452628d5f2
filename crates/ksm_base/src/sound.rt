//! What is true of every state of the book, as laws over the definitions of its steps. (own)

ghost use Rattle.std.specs.Prelude.{◌≡◌, ℕ, List, Some, All, true};
ghost use Rattle.ksm_base.specs.declared.page.GuestPage.{GuestPage};
ghost use Rattle.ksm_base.specs.declared.command.Command.{Command};
ghost use Rattle.ksm_base.specs.declared.shape.Shape.{Shape};
ghost use Rattle.ksm_base.specs.Values.{IsShape};
ghost use Rattle.ksm_base.specs.Rows.{merged_into};
ghost use Rattle.ksm_base.specs.State.{BookState, opening};
ghost use Rattle.ksm_base.specs.Answers.{Answer};
ghost use Rattle.ksm_base.specs.Apply.{IsAnswerOrMemory, after};
ghost use Rattle.ksm_base.specs.Journal.{Entry, AreAnswers, replay, last_stored, ReadsLastStored};
ghost use Rattle.ksm_base.specs.Reading.{bytes_of};
ghost use Rattle.ksm_base.specs.Sound.{IsSound};

/// The opening state is sound, each command with each answer that it may have leads from a sound state to a sound one,
/// and so every journal of such answers ends in a sound state.
pub fn every_step_keeps_it_sound()
    ensures opening { (shape : Shape) → IsShape shape → IsSound (opening shape) }
    ensures step { (b : BookState) (c : Command) (a : Answer) → IsSound b → IsAnswerOrMemory b c a → IsSound (after b c a) }
    ensures journal { (shape : Shape) (journal : List Entry) → IsShape shape → AreAnswers (opening shape) journal → IsSound (replay (opening shape) journal) }
{}

/// In a sound state each item of a dup has the dup's bytes, and where each node has trees of its own it has the dup's
/// tree for its home.
pub fn items_agree_with_their_dup()
    ensures bytes { (b : BookState) → IsSound b → All (λ d. All (λ r. merged_into d.number r.state ≡ true → r.bytes ≡ d.bytes) b.rows) b.dups }
    ensures home { (b : BookState) → IsSound b → b.knobs.merge_across_nodes ≡ 0
        → All (λ d. All (λ r. merged_into d.number r.state ≡ true → r.home ≡ d.tree) b.rows) b.dups }
{}

/// After each journal each page has the bytes that an accepted registering or store gave it last, whatever was answered
/// in between: so it is for each row, and so for each page that is read.
pub fn each_page_has_what_was_stored_last()
    ensures rows { (shape : Shape) (journal : List Entry) → ReadsLastStored journal (replay (opening shape) journal).rows }
    ensures read { (shape : Shape) (journal : List Entry) (page : GuestPage) (bytes : List ℕ)
        → bytes_of page (replay (opening shape) journal) ≡ Some bytes → last_stored page journal ≡ Some bytes }
{}
