//! What is said of a bad line.
ghost use Rattle.std.specs.Prelude.{◌≡◌, ◌-◌, IfSome, IfNone, Some, drop, take, slice_index};
ghost use Rattle.ksm_lines.specs.Grammar.{words_of};
ghost use Rattle.ksm_causes.specs.Sentences.{bad_line_text, first_word, hexadecimal, most, part_noun, quote_of};
ghost use Rattle.ksm_causes.specs.Sentences.{quoted_word, sentence_of, shortened, text_in};
ghost use Rattle.ksm_causes.specs.Troubles.{IsGood, trouble_of};

use crate::cause::{Cause, Trouble};
use crate::line::cause_of;
use ksm_lines::{PAGE_DIGITS, Part, cut};
use std::fmt::{self, Display, Formatter, Write};

/// A word that is quoted is cut behind so many bytes.
const LONGEST_QUOTE: usize = 32;

/// A bad line, with its number. Its text is one line, which says where and why:
/// `line 7, column 5: a number with a leading zero: 00`.
#[derive(Drop)]
pub struct BadLine<'a> {
    number: u64,
    line: &'a [u8],
    trouble: Trouble,
}

impl<'a> BadLine<'a> {
    /// The line of this number, if it is bad.
    pub fn of(number: u64, line: &'a [u8]) -> Option<BadLine<'a>>
        ensures bad { IfSome result
            (λ bad. (bad.number ≡ number) × (bad.line.now ≡ line.now) × (trouble_of line.now ≡ Some bad.trouble)) }
        ensures good { IfNone result (IsGood line.now) }
    {
        let trouble = cause_of(line)?;
        Some(BadLine {
            number,
            line,
            trouble,
        })
    }
}

impl Display for BadLine<'_> {
    ghost output = { λ bad. Some (bad_line_text bad.number bad.line.now bad.trouble) };

    fn fmt<W: Write>(&self, f: &mut Formatter<W>) -> fmt::Result {
        let number = self.number;
        let Trouble { column, cause } = self.trouble;
        let quote = Quote {
            cause,
            rest: from_column(self.line, column),
        };
        write!(f, "line {number}, column {column}: {cause}{quote}\n")
    }
}

/// A line from a column on.
fn from_column(line: &[u8], column: usize) -> &[u8]
    ensures { result.now ≡ drop (column - 1) line.now }
{
    let at = column.saturating_sub(1);
    if at > line.len() {
        return &[];
    }
    &line[at..]
}

impl Display for Cause {
    ghost output = { λ cause. Some (sentence_of cause) };

    fn fmt<W: Write>(&self, f: &mut Formatter<W>) -> fmt::Result {
        f.write_str(match *self {
            Cause::Missing(part) => return write!(f, "the {} is missing", noun(part)),
            Cause::NotANumber(part) => {
                return write!(f, "a {} that is not a decimal number", noun(part));
            }
            Cause::TooLarge(part) => return write!(f, "a {} above {}", noun(part), most(part)),
            Cause::ContentLength => {
                return write!(f, "content of neither 2 digits nor {PAGE_DIGITS}");
            }
            Cause::LongLine => "the line is longer than 256 bytes",
            Cause::SpaceBefore => "a space before the first word",
            Cause::TwoSpaces => "two spaces between words",
            Cause::SpaceAfter => "a space after the last word",
            Cause::Tab => "a tab, where words are separated by one space",
            Cause::CarriageReturn => "a carriage return, where a line ends at a newline alone",
            Cause::OtherByte => "a byte that no line has",
            Cause::Comment => "a comment, which the language does not have",
            Cause::Capital => "a capital letter in a name",
            Cause::UnknownName => "no line begins with this word",
            Cause::OneWordMore => "a word more than the line has",
            Cause::Sign => "a number with a sign",
            Cause::LeadingZero => "a number with a leading zero",
            Cause::NotHexadecimal => "a byte of the content that is not a hexadecimal digit",
            Cause::UnknownKnob => "no knob has this name",
            Cause::UnknownShown => "no knob or counter is shown by this name",
            Cause::CounterSet => "a counter, which is shown and never set",
        })
    }
}

/// What a part is called.
fn noun(part: Part) -> &'static str
    ensures { result.now ≡ part_noun part }
{
    match part {
        Part::Guest => "guest",
        Part::Page => "page",
        Part::Node => "node",
        Part::Place => "place",
        Part::Pass => "pass",
        Part::Visits => "number of visits",
        Part::Value => "value",
        Part::Content => "content",
        Part::Knob | Part::Shown => "knob",
    }
}

/// The largest number that may stand there.
fn most(part: Part) -> u32
    ensures { result ≡ most part }
{
    match part {
        Part::Guest => 65535,
        _ => u32::MAX,
    }
}

/// What is quoted behind a sentence, of the line from the column on.
#[derive(Drop)]
struct Quote<'a> {
    cause: Cause,
    rest: &'a [u8],
}

impl Display for Quote<'_> {
    ghost output = { λ quote. Some (quote_of quote.cause quote.rest.now) };

    fn fmt<W: Write>(&self, f: &mut Formatter<W>) -> fmt::Result {
        let rest = self.rest;
        match self.cause {
            Cause::OtherByte => write!(f, ": {}", Hexadecimal(first_byte(rest))),
            Cause::NotHexadecimal => write!(f, ": {}", text_in(front(rest, 1))),
            Cause::LongLine
            | Cause::SpaceBefore
            | Cause::TwoSpaces
            | Cause::SpaceAfter
            | Cause::Tab
            | Cause::CarriageReturn
            | Cause::Comment
            | Cause::Missing(_) => Ok(()),
            _ => write!(f, ": {}", Word(cut(rest).0)),
        }
    }
}

/// A word, cut where it is long.
#[derive(Drop)]
pub(crate) struct Word<'a>(pub(crate) &'a [u8]);

impl Display for Word<'_> {
    ghost output = { λ word. Some (shortened word.0.now) };

    fn fmt<W: Write>(&self, f: &mut Formatter<W>) -> fmt::Result {
        let word = self.0;
        if word.len() > LONGEST_QUOTE {
            let text = text_in(front(word, LONGEST_QUOTE));
            return write!(f, "{text}..");
        }
        f.write_str(text_in(word))
    }
}

/// A byte in two hexadecimal digits.
#[derive(Drop)]
struct Hexadecimal(u8);

impl Display for Hexadecimal {
    ghost output = { λ byte. Some (hexadecimal byte.0) };

    #[tactic(auto, using(std::proofs::lemmas::Fmt::hex_byte))]
    fn fmt<W: Write>(&self, f: &mut Formatter<W>) -> fmt::Result {
        let byte = self.0;
        write!(f, "0x{byte:02x}")
    }
}

fn first_byte(bytes: &[u8]) -> u8
    ensures { result ≡ slice_index bytes.now 0 }
{
    if bytes.is_empty() {
        return 0;
    }
    bytes[0]
}

/// At most so many bytes.
fn front(bytes: &[u8], most: usize) -> &[u8]
    ensures { result.now ≡ take most bytes.now }
{
    if bytes.len() <= most {
        return bytes;
    }
    &bytes[..most]
}

/// Bytes as a text, if they are one.
fn text_in(bytes: &[u8]) -> &str
    ensures { result.now ≡ text_in bytes.now }
{
    match str::from_utf8(bytes) {
        Ok(text) => text,
        Err(_) => "",
    }
}
