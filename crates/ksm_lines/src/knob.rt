//! The knobs by their names.
ghost use Rattle.std.specs.Prelude.{◌≡◌, ◌≢◌, ◌++◌, ℕ, List, IfSome, IfNone};
ghost use Rattle.ksm_base.specs.declared.knobs.Knob as knobs;
ghost use Rattle.ksm_lines.specs.declared.knob.Shown as showns;
ghost use Rattle.ksm_lines.specs.Knobs.{knob_name, knob_of, shown_name, shown_of};
ghost use Rattle.ksm_lines.specs.Reading.{Gives};

use crate::field::behind;
use crate::line::LineFault;
use ksm_base::Knob;

/// What a line shows, by its name in the language (admin-guide/mm/ksm).
#[derive(Clone, Copy, Debug, PartialEq, Eq)]
pub enum Shown {
    /// A knob.
    Knob(Knob),
    /// `ksm_zero_pages`, a counter that no line sets.
    ZeroPages,
}

/// The knob whose name begins a text, and what is behind the name. No name of a knob begins another's.
#[inline(always)]
pub fn knob_at(text: &[u8]) -> Option<(Knob, &[u8])>
    ensures some { IfSome result (λ r. text.now ≡ knob_name r.0 ++ r.1.now) }
    ensures none { IfNone result ((knob : knobs.Knob) → (left : List ℕ) → text.now ≢ knob_name knob ++ left) }
{
    for knob in &Knob::ALL {
        if let Some(left) = behind(text, knob.name()) {
            return Some((*knob, left));
        }
    }
    None
}

/// What is shown by the name that begins a text, and what is behind the name.
#[inline(always)]
pub fn shown_at(text: &[u8]) -> Option<(Shown, &[u8])>
    ensures some { IfSome result (λ r. text.now ≡ shown_name r.0 ++ r.1.now) }
    ensures none { IfNone result ((shown : showns.Shown) → (left : List ℕ) → text.now ≢ shown_name shown ++ left) }
{
    if let Some((knob, left)) = knob_at(text) {
        return Some((Shown::Knob(knob), left));
    }
    let left = behind(text, b"ksm_zero_pages")?;
    Some((Shown::ZeroPages, left))
}

/// The knob of a name.
#[tactic(auto, using(crate::proofs::Lines::no_knob))]
pub fn knob_named(word: &[u8]) -> Result<Knob, LineFault>
    ensures { Gives result (knob_of word.now) }
{
    match knob_at(word) {
        Some((knob, [])) => Ok(knob),
        _ => Err(LineFault::Bad),
    }
}

/// What is shown under a name: a knob's, or a counter's.
#[tactic(auto, using(crate::proofs::Lines::no_shown))]
pub fn shown_named(word: &[u8]) -> Result<Shown, LineFault>
    ensures { Gives result (shown_of word.now) }
{
    match shown_at(word) {
        Some((shown, [])) => Ok(shown),
        _ => Err(LineFault::Bad),
    }
}
