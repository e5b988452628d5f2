//! Why a line is bad.
ghost use Rattle.std.specs.Prelude.{◌≡◌, ◌+◌, ◌≤◌, ◌↔◌, None, length};
ghost use Rattle.std.specs.List.{list_all};
ghost use Rattle.ksm_lines.specs.Grammar.{words_of};
ghost use Rattle.ksm_lines.specs.Reading.{left_length, words_left, parts_in};
ghost use Rattle.ksm_causes.specs.Troubles.{IsGood, is_empty, missing_trouble, space_trouble, parts_trouble};
ghost use Rattle.ksm_causes.specs.Troubles.{named_trouble, words_trouble, trouble_of};

use crate::cause::{Cause, Trouble};
use crate::word::{name_cause, strange_byte, word_trouble};
use ksm_lines::{Part, cut, ended, parts_of, read_line};
use ksm_script::LONGEST_LINE;

/// Why a line, without its newline, is bad; none where it is good.
pub fn cause_of(line: &[u8]) -> Option<Trouble>
    ensures cause { result ≡ trouble_of line.now }
    ensures bad { (result ≡ None) ↔ IsGood line.now }
{
    if line.len() > LONGEST_LINE {
        return Some(Trouble::new(LONGEST_LINE + 1, Cause::LongLine));
    }
    match read_line(line) {
        Ok(_) => None,
        Err(_) => words_trouble(line),
    }
}

/// What is wrong with the words of a line that is not too long.
fn words_trouble(line: &[u8]) -> Option<Trouble>
    requires { length line.now ≤ LONGEST_LINE }
    ensures { result ≡ words_trouble (words_of line.now) }
{
    let (name, left) = cut(line);
    if !name.is_empty() {
        return named_trouble(name, left);
    }
    match ended(left) {
        Ok(()) => None,
        Err(_) => Some(Trouble::new(1, Cause::SpaceBefore)),
    }
}

/// What is wrong with a line whose first word has bytes.
fn named_trouble(name: &[u8], left: Option<&[u8]>) -> Option<Trouble>
    requires { length name.now + left_length left ≤ LONGEST_LINE }
    ensures { result ≡ named_trouble (parts_in name.now) name.now (words_left left.entry) }
{
    match parts_of(name) {
        Some(parts) => parts_trouble(name.len() + 1, parts, left),
        None => strange_byte(1, name).or(Some(Trouble::new(1, name_cause(name)))),
    }
}

/// What is wrong with words that should be these parts, behind the column `end`.
fn parts_trouble(end: usize, parts: &[Part], words: Option<&[u8]>) -> Option<Trouble>
    requires { end + left_length words ≤ LONGEST_LINE + 1 }
    ensures { result ≡ parts_trouble end parts.now (words_left words.entry) }
{
    let Some(text) = words else {
        return missing_trouble(end, parts);
    };
    let (word, behind) = cut(text);
    if word.is_empty() {
        return Some(space_trouble(end, behind));
    }
    let [part, others @ ..] = parts else {
        return strange_byte(end + 1, word).or(Some(Trouble::new(end + 1, Cause::OneWordMore)));
    };
    match word_trouble(*part, end + 1, word) {
        None => parts_trouble(end + 1 + word.len(), others, behind),
        trouble => trouble,
    }
}

/// What is wrong where the line ends before these parts.
fn missing_trouble(end: usize, parts: &[Part]) -> Option<Trouble>
    ensures { result ≡ missing_trouble end parts.now }
{
    match parts {
        [] | [Part::Visits] => None,
        [part, ..] => Some(Trouble::new(end, Cause::Missing(*part))),
    }
}

/// What is wrong where a word should begin and a space stands.
fn space_trouble(end: usize, behind: Option<&[u8]>) -> Trouble
    requires { end ≤ LONGEST_LINE }
    ensures { result ≡ space_trouble end (words_left behind.entry) }
{
    if are_spaces(behind) {
        Trouble::new(end, Cause::SpaceAfter)
    } else {
        Trouble::new(end + 1, Cause::TwoSpaces)
    }
}

/// Whether there are no more bytes but spaces.
fn are_spaces(left: Option<&[u8]>) -> bool
    ensures { result ≡ list_all is_empty (words_left left.entry) }
{
    let Some(text) = left else {
        return true;
    };
    let (word, behind) = cut(text);
    word.is_empty() && are_spaces(behind)
}
