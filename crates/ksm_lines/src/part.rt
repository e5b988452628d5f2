//! What the words of a line stand for.
ghost use Rattle.std.specs.Prelude.{◌≡◌};
ghost use Rattle.std.specs.Option.{is_some};
ghost use Rattle.ksm_lines.specs.Grammar.{kind_of};
ghost use Rattle.ksm_lines.specs.Reading.{read};

use self::Part::{Content, Guest, Knob, Shown};
use crate::field::{content_in, guest_in, number_in};
use crate::knob::{knob_named, shown_named};

/// What a word behind the name of a line stands for.
#[derive(Clone, Copy)]
pub enum Part {
    /// `G`, a number of 0 to 65535. All others are 0 to 4294967295.
    Guest,
    /// `P`, a number.
    Page,
    /// `NODE`, a number.
    Node,
    /// `PLACE`, a number.
    Place,
    /// `K`, a number.
    Pass,
    /// `N`, a number: how many visits a scan makes. It may be left out.
    Visits,
    /// `V`, a number.
    Value,
    /// `HEX`, the content of a page.
    Content,
    /// `KNOB`, where a knob is set.
    Knob,
    /// `KNOB`, where a knob or a counter is shown.
    Shown,
}

/// Whether a word is read as this part.
#[tactic(auto, using(crate::proofs::Words::is_number))]
pub fn is_read(part: Part, word: &[u8]) -> bool
    ensures { result ≡ is_some (read (kind_of part) word.now) }
{
    match part {
        Guest => guest_in(word).is_ok(),
        Content => content_in(word).is_ok(),
        Knob => knob_named(word).is_ok(),
        Shown => shown_named(word).is_ok(),
        _ => number_in(word).is_ok(),
    }
}
