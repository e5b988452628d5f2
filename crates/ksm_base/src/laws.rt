//! Laws of the definitions: what follows from them in every state.

ghost use Rattle.std.specs.Prelude.{◌≡◌, ◌↔◌, ℕ, List, ◌++◌, map, take};
ghost use Rattle.ksm_base.specs.declared.command.Command.{Command};
ghost use Rattle.ksm_base.specs.declared.fault.Fault.{Fault};
ghost use Rattle.ksm_base.specs.declared.reply.Reply.{Reply};
ghost use Rattle.ksm_base.specs.declared.shape.Shape.{Shape};
ghost use Rattle.ksm_base.specs.Values.{IsShape};
ghost use Rattle.ksm_base.specs.Counting.{counters_of, mergeable_count, pages_told};
ghost use Rattle.ksm_base.specs.Journal.{Entry, replay, AreAnswers, IsLegal, published};
ghost use Rattle.ksm_base.specs.State.{BookState, opening};
ghost use Rattle.ksm_base.specs.Answers.{Answer, IsAnswer};
ghost use Rattle.ksm_base.specs.Apply.{after};
ghost use Rattle.ksm_base.specs.Changes.{Changes};
ghost use Rattle.ksm_base.specs.Reasons.{HasReason};
ghost use Rattle.ksm_base.specs.Visit.{visits};

use crate::knobs::Knobs;

/// A refused command keeps the state.
pub fn a_refusal_keeps_the_state()
    ensures { (b : BookState) (command : Command) (fault : Fault) → after b command (Err fault) ≡ b }
{}

/// A refusal for memory is no answer that the definitions allow, so no legal journal has a command that was refused so.
/// (A scan that memory stopped between two visits has made the first of them, and is an entry.)
pub fn memory_is_no_answer()
    ensures { (b : BookState) (command : Command) → IsAnswer b command (Err Fault.Memory) → ⊥ }
{}

/// Visits change no page's mergeable flag: so a scan makes all its visits, or none where it has no page to visit.
pub fn visits_keep_what_is_mergeable()
    ensures { (n : ℕ) (b : BookState) → map (λ r. r.mergeable) (visits n b).rows ≡ map (λ r. r.mergeable) b.rows }
{}

/// A journal in two parts is replayed part by part, and its answers are those of both parts. So each beginning of a
/// legal journal is legal, and a legal journal goes on by answers that are legal where it ends.
pub fn a_journal_goes_on()
    ensures state { (b : BookState) (first later : List Entry) → replay b (first ++ later) ≡ replay (replay b first) later }
    ensures answers { (b : BookState) (first later : List Entry) → AreAnswers b (first ++ later) ↔ (AreAnswers b first × AreAnswers (replay b first) later) }
{}

/// After each legal journal, and after each beginning of it, the counters of pages add up to the mergeable pages.
pub fn the_counters_of_pages_add_up()
    ensures state { (shape : Shape) (journal : List Entry) (b : BookState) → IsShape shape → IsLegal shape journal b
        → pages_told (counters_of b) ≡ mergeable_count b.rows }
    ensures published { (shape : Shape) (journal : List Entry) (n : ℕ) → IsShape shape → AreAnswers (opening shape) journal
        → pages_told (published shape journal n) ≡ mergeable_count (replay (opening shape) (take n journal)).rows }
{}

/// A book opens with the settings of `Knobs::DEFAULT`.
pub fn a_book_opens_with_the_default_knobs()
    ensures { (shape : Shape) → (opening shape).knobs ≡ Knobs.DEFAULT }
{}

/// Each answer that a command may have has its reason, and what has a reason may be answered: a refusal of the state, a
/// frame that is missing on the node of which the command needs one, a dup to move whose frame is in use, or the
/// command's own reply; and nothing else.
pub fn each_answer_has_its_reason()
    ensures { (b : BookState) (command : Command) (answer : Answer)
        → IsAnswer b command answer ↔ HasReason b command answer }
{}

/// A command that is answered with a reply changes what `Changes` says of it, row by row and field by field, and
/// nothing else. Not told: what a scan makes of a row's state and flag, of the dups, the cursor and the counts; and of
/// an unmerging that stops, which of the rows that it may let go it has let go.
pub fn each_command_changes_this_alone()
    ensures { (b : BookState) (command : Command) (reply : Reply) → IsAnswer b command (Ok reply)
        → Changes command reply b (after b command (Ok reply)) }
{}
