//! Why a word can't stand where it stands.
ghost use Rattle.std.specs.Prelude.{◌≡◌, ◌+◌, ◌<◌, ◌≤◌, not, length, position, IfSome};
ghost use Rattle.std.specs.Char.{is_ascii_digit, is_ascii_graphic, is_ascii_hexdigit};
ghost use Rattle.std.specs.List.{list_all};
ghost use Rattle.ksm_lines.specs.declared.part.Part.TheVariants.{Content as content};
ghost use Rattle.ksm_causes.specs.Troubles.{are_digits, is_signed, has_leading_zero, strange_cause, lowered};
ghost use Rattle.ksm_causes.specs.Troubles.{strange_trouble, number_cause, knob_cause, shown_cause, part_trouble};
ghost use Rattle.ksm_causes.specs.Troubles.{word_trouble, name_cause};

use crate::cause::{Cause, Trouble};
use ksm_lines::{Part, is_read, parts_of};
use ksm_script::LONGEST_LINE;

/// The first byte of a word that stands in no word of any line.
pub(crate) fn strange_byte(column: usize, word: &[u8]) -> Option<Trouble>
    requires { column + length word.now ≤ LONGEST_LINE + 1 }
    ensures { result ≡ strange_trouble column word.now }
{
    let at = first_strange(word)?;
    Some(Trouble::new(column + at, strange_cause(word[at])))
}

fn first_strange(word: &[u8]) -> Option<usize>
    ensures place { result ≡ position (λ byte. not (is_ascii_graphic byte)) word.now }
    ensures within { IfSome result (λ at. at < length word.now) }
{
    word.iter().position(|byte| !byte.is_ascii_graphic())
}

fn strange_cause(byte: u8) -> Cause
    ensures { result ≡ strange_cause byte }
{
    match byte {
        b'\t' => Cause::Tab,
        b'\r' => Cause::CarriageReturn,
        _ => Cause::OtherByte,
    }
}

/// Why a word is not this part. A byte that no line has comes first, so what follows is said of printable bytes.
pub(crate) fn word_trouble(part: Part, column: usize, word: &[u8]) -> Option<Trouble>
    requires fits { column + length word.now ≤ LONGEST_LINE + 1 }
    requires short { length word.now ≤ LONGEST_LINE }
    ensures { result ≡ word_trouble part column word.now }
{
    if is_read(part, word) {
        return None;
    }
    strange_byte(column, word).or(Some(part_trouble(part, column, word)))
}

fn part_trouble(part: Part, column: usize, word: &[u8]) -> Trouble
    requires fits { column + length word.now ≤ LONGEST_LINE + 1 }
    requires short { length word.now ≤ LONGEST_LINE }
    ensures { result ≡ part_trouble part column word.now }
{
    match part {
        Part::Content => content_trouble(column, word),
        Part::Knob => Trouble::new(column, knob_cause(word)),
        Part::Shown => Trouble::new(column, shown_cause(word)),
        _ => Trouble::new(column, number_cause(part, word)),
    }
}

fn number_cause(part: Part, word: &[u8]) -> Cause
    ensures { result ≡ number_cause part word.now }
{
    if is_signed(word) {
        return Cause::Sign;
    }
    if !are_digits(word) {
        return Cause::NotANumber(part);
    }
    if has_leading_zero(word) {
        return Cause::LeadingZero;
    }
    Cause::TooLarge(part)
}

fn is_signed(word: &[u8]) -> bool
    ensures { result ≡ is_signed word.now }
{
    match word {
        [b'+' | b'-', digits @ ..] => are_digits(digits),
        _ => false,
    }
}

fn are_digits(word: &[u8]) -> bool
    ensures { result ≡ are_digits word.now }
{
    has_digits_alone(word) && !word.is_empty()
}

fn has_digits_alone(word: &[u8]) -> bool
    ensures { result ≡ list_all is_ascii_digit word.now }
{
    word.iter().all(|byte| byte.is_ascii_digit())
}

fn has_leading_zero(word: &[u8]) -> bool
    ensures { result ≡ has_leading_zero word.now }
{
    word.len() > 1 && word[0] == b'0'
}

fn content_trouble(column: usize, word: &[u8]) -> Trouble
    requires { column + length word.now ≤ LONGEST_LINE + 1 }
    ensures { result ≡ part_trouble content column word.now }
{
    match first_not_hexadecimal(word) {
        Some(at) => Trouble::new(column + at, Cause::NotHexadecimal),
        None => Trouble::new(column, Cause::ContentLength),
    }
}

fn first_not_hexadecimal(word: &[u8]) -> Option<usize>
    ensures place { result ≡ position (λ byte. not (is_ascii_hexdigit byte)) word.now }
    ensures within { IfSome result (λ at. at < length word.now) }
{
    word.iter().position(|byte| !byte.is_ascii_hexdigit())
}

fn knob_cause(word: &[u8]) -> Cause
    requires { length word.now ≤ LONGEST_LINE }
    ensures { result ≡ knob_cause word.now }
{
    if is_read(Part::Shown, word) {
        return Cause::CounterSet;
    }
    let mut room = [0; LONGEST_LINE];
    if is_read(Part::Knob, lowered(word, &mut room)) {
        return Cause::Capital;
    }
    Cause::UnknownKnob
}

fn shown_cause(word: &[u8]) -> Cause
    requires { length word.now ≤ LONGEST_LINE }
    ensures { result ≡ shown_cause word.now }
{
    let mut room = [0; LONGEST_LINE];
    if is_read(Part::Shown, lowered(word, &mut room)) {
        return Cause::Capital;
    }
    Cause::UnknownShown
}

/// Why a first word of printable bytes is none that a line begins with.
pub(crate) fn name_cause(name: &[u8]) -> Cause
    requires { length name.now ≤ LONGEST_LINE }
    ensures { result ≡ name_cause name.now }
{
    if let [b'#', ..] = name {
        return Cause::Comment;
    }
    let mut room = [0; LONGEST_LINE];
    if parts_of(lowered(name, &mut room)).is_some() {
        return Cause::Capital;
    }
    Cause::UnknownName
}

/// A word in small letters, which are written to the room.
fn lowered<'a>(word: &[u8], room: &'a mut [u8]) -> &'a [u8]
    requires { length word.now ≤ length room.old }
    ensures { result.now ≡ lowered word.now }
{
    let letters = &mut room[..word.len()];
    letters.copy_from_slice(word);
    letters.make_ascii_lowercase();
    letters
}
