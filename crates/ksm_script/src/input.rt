//! Lines from a reader.
ghost use Rattle.std.specs.Prelude.{◌≡◌, ◌≢◌, ◌+◌, ◌≤◌, ◌++◌, ◌<◌, [], ℕ, List, None, Some, Ok, true, false};
ghost use Rattle.std.specs.Prelude.{length, take, IfOk, IfErr, IfNone, IfSome, IsTrue, ◌↔◌};
ghost use Rattle.std.specs.Io.KnownBytes.{Consumes, Keeps, IsAtEnd};
ghost use Rattle.ksm_lines.specs.declared.line.Line.TheVariants as lines;
ghost use Rattle.ksm_script.specs.Dialogue.{BreaksOff, Dialogue, IsWithin};
ghost use Rattle.ksm_script.specs.Takes.{Came, Extends, Takes, TakesForm, Took};
ghost use Rattle.ksm_script.specs.Input.{EndsAs, IsPlain};

use crate::lane::Lane;
use crate::script::RunFault;
use ksm_base::PageBytes;
use ksm_lines::{
    PageLine, RareLine, ShortLine, leading_page_line, leading_rare_line, leading_short_line,
};
use memchr::memchr;
use std::io::Write;
use std::marker::Model;

/// How many bytes a line has at most.
pub const LONGEST_LINE: usize = 256;

/// How many bytes are read of a line: one more than the longest has.
const LINE_ROOM: usize = LONGEST_LINE + 1;

/// What ended a line.
#[derive(Clone, Copy, Debug, PartialEq, Eq)]
pub enum LineEnd {
    /// A newline, which is no part of the line.
    Newline,
    /// The end of the input.
    Input,
    /// More bytes than a line may have.
    TooLong,
}

/// The bytes of a line as far as they are read.
#[derive(Drop)]
pub struct LineBuffer {
    bytes: [u8; LINE_ROOM],
    len: usize,
}

impl Model for LineBuffer {
    ghost use Rattle.std.specs.Prelude.{◌≤◌, ℕ, List, take};
    ghost use Rattle.ksm_script.specs.declared.input.TheConstants.{LINE_ROOM};

    ghost Value = { List ℕ };

    ghost view = { λ b. take b.len b.bytes };

    ghost invariant = { λ b. b.len ≤ LINE_ROOM };
}

impl LineBuffer {
    /// The line of no bytes.
    pub fn new() -> LineBuffer
        ensures { result ≡ [] }
    {
        LineBuffer {
            bytes: [0; LINE_ROOM],
            len: 0,
        }
    }

    /// Drops the bytes.
    pub fn clear(&mut self)
        ensures { self.new ≡ [] }
    {
        self.len = 0;
    }

    /// Whether the line is too long.
    pub fn is_too_long(&self) -> bool
        ensures full { IsTrue result ↔ (length self.now ≡ LINE_ROOM) }
        ensures room { length self.now ≤ LINE_ROOM }
    {
        self.len == LINE_ROOM
    }

    /// How many bytes more it can have.
    pub fn room(&self) -> usize
        ensures { result + length self.now ≡ LINE_ROOM }
    {
        LINE_ROOM - self.len
    }

    /// Adds some bytes, where there is room.
    pub fn extend(&mut self, bytes: &[u8])
        requires { length self.old + length bytes.now ≤ LINE_ROOM }
        ensures { self.new ≡ self.old ++ bytes.now }
    {
        let end = self.len + bytes.len();
        self.bytes[self.len..end].copy_from_slice(bytes);
        self.len = end;
    }

    /// Adds bytes up to a newline, or as many as it has room for. Tells how many it took, a newline with them, and how
    /// the line ended with them, if it has.
    pub fn add(&mut self, bytes: &[u8]) -> (usize, Option<LineEnd>)
        requires plain { IsPlain self.old }
        requires room { length self.old ≤ LONGEST_LINE }
        ensures taken { Extends result.1 self.old self.new (take result.0 bytes.now) }
        ensures within { result.0 ≤ length bytes.now }
        ensures some { length bytes.now ≢ 0 → 0 < result.0 }
        ensures plain { IsPlain self.new }
        ensures end { result.1 ≢ Some LineEnd.Input }
    {
        let block = &bytes[..bytes.len().min(self.room())];
        match memchr(b'\n', block) {
            Some(at) => {
                self.extend(&block[..at]);
                (at + 1, Some(LineEnd::Newline))
            }
            None => {
                self.extend(block);
                (block.len(), self.is_too_long().then_some(LineEnd::TooLong))
            }
        }
    }

    /// The bytes.
    pub fn as_slice(&self) -> &[u8]
        ensures value { result.now ≡ self.now }
        ensures fits { length result.now ≤ LINE_ROOM }
    {
        &self.bytes[..self.len]
    }
}

/// Takes the newline of a line of no bytes, if that is next at hand; tells whether it did. Else nothing is taken.
#[inline(always)]
pub(crate) fn take_empty<M: Lane<R, W>, R, W: Write>(reader: &mut R) -> bool
    ensures taken { result ≡ true → TakesForm lines.Empty (Took M.remaining M.takes reader.old reader.new) }
    ensures none { result ≡ false → reader.new ≡ reader.old }
{
    let [b'\n', ..] = M::at_hand(reader) else {
        return false;
    };
    M::consume(reader, 1);
    true
}

/// Takes the short line that is next at hand, read where it lies, if it is one. Else nothing is taken, which may be of
/// any line.
#[inline(always)]
pub(crate) fn take_short<M: Lane<R, W>, R, W: Write>(reader: &mut R) -> Option<ShortLine>
    ensures taken { IfSome result
        (λ line. TakesForm (lines.Short line) (Took M.remaining M.takes reader.old reader.new)) }
    ensures none { IfNone result (reader.new ≡ reader.old) }
{
    let bytes = M::at_hand(reader);
    let block = &bytes[..bytes.len().min(LINE_ROOM)];
    let Some((line, left)) = leading_short_line(block) else {
        return None;
    };
    let taken = block.len() - left.len();
    M::consume(reader, taken);
    Some(line)
}

/// Takes the line with a content that is next at hand, read where it lies, if it is one. Else nothing is taken, which
/// may be of any line.
#[inline(always)]
pub(crate) fn take_page<M: Lane<R, W>, R, W: Write>(reader: &mut R) -> Option<(PageLine, PageBytes)>
    ensures taken { IfSome result
        (λ r. TakesForm (lines.Page r.0 r.1) (Took M.remaining M.takes reader.old reader.new)) }
    ensures none { IfNone result (reader.new ≡ reader.old) }
{
    let bytes = M::at_hand(reader);
    let block = &bytes[..bytes.len().min(LINE_ROOM)];
    let (line, content, left) = leading_page_line(block)?;
    let taken = block.len() - left.len();
    M::consume(reader, taken);
    Some((line, content))
}

/// Takes the line that is next at hand, read where it lies, if it is one without a content that comes seldom. Else
/// nothing is taken, which may be of any line.
pub(crate) fn take_rare<M: Lane<R, W>, R, W: Write>(reader: &mut R) -> Option<RareLine>
    ensures taken { IfSome result
        (λ line. TakesForm (lines.Rare line) (Took M.remaining M.takes reader.old reader.new)) }
    ensures none { IfNone result (reader.new ≡ reader.old) }
{
    let bytes = M::at_hand(reader);
    let block = &bytes[..bytes.len().min(LINE_ROOM)];
    let Some((line, left)) = leading_rare_line(block) else {
        return None;
    };
    let taken = block.len() - left.len();
    M::consume(reader, taken);
    Some(line)
}

/// Reads a line up to its newline, to the end of the input, or until it is too long. At a fault the line has what was
/// read of it. Whenever the reader may wait, all replies are sent.
pub(crate) fn next_line<M: Lane<R, W>, R, W: Write>(
    reader: &mut R,
    writer: &mut W,
    line: &mut LineBuffer,
) -> Result<LineEnd, RunFault>
    ensures read { IfOk result (λ end. (bytes : List ℕ) × EndsAs end line.new bytes
        × Consumes (M.remaining reader.old) (M.remaining reader.new) bytes
        × Dialogue M.takes M.waits (IsWithin M.is_sent W.contents writer.old) reader.old reader.new bytes) }
    ensures breaks { IfErr result (BreaksOff M.takes M.waits M.fails (IsWithin M.is_sent W.contents writer.old)
        reader.old reader.new writer.new) }
    ensures plain { IsPlain line.new }
    ensures end { result ≡ Ok LineEnd.Input → IsAtEnd (M.remaining reader.new) }
    ensures fault { IfErr result (λ e. (e ≡ RunFault.Read) × (length line.new ≤ LONGEST_LINE)
        × Consumes (M.remaining reader.old) (M.remaining reader.new) line.new) }
    ensures kept { Keeps (W.contents writer.old) (W.contents writer.new) }
    ensures waited { result ≡ Ok LineEnd.Input → M.is_sent writer.new }
{
    line.clear();
    'turns: for turn in 0..LINE_ROOM {
        if let Some(end) = take_block::<M, R, W>(reader, line) {
            return Ok(end);
        }
        if !M::send(writer) {
            return Err(RunFault::Read);
        }
        if let Some(end) = take_byte::<M, R, W>(reader, writer, line)? {
            return Ok(end);
        }
    }
    unreachable!()
}

/// Adds the bytes at hand to a line, and tells how it ended with them, if it has.
fn take_block<M: Lane<R, W>, R, W: Write>(reader: &mut R, line: &mut LineBuffer) -> Option<LineEnd>
    requires plain { IsPlain line.old }
    requires room { length line.old ≤ LONGEST_LINE }
    ensures taken { Takes result line.old line.new (Took M.remaining M.takes reader.old reader.new) }
    ensures plain { IsPlain line.new }
    ensures end { result ≢ Some LineEnd.Input }
{
    let (taken, end) = line.add(M::at_hand(reader));
    M::consume(reader, taken);
    end
}

/// Waits for the next byte, and adds it to a line; tells how the line ended with it, if it has.
fn take_byte<M: Lane<R, W>, R, W: Write>(
    reader: &mut R,
    writer: &W,
    line: &mut LineBuffer,
) -> Result<Option<LineEnd>, RunFault>
    requires sent { M.is_sent writer.now }
    requires plain { IsPlain line.old }
    requires room { length line.old ≤ LONGEST_LINE }
    ensures taken { IfOk result
        (λ end. Takes end line.old line.new (Came M.remaining M.waits writer.now reader.old reader.new)) }
    ensures grows { result ≡ Ok None → length line.old < length line.new }
    ensures plain { IsPlain line.new }
    ensures end { result ≡ Ok (Some LineEnd.Input) → IsAtEnd (M.remaining reader.new) }
    ensures fault { IfErr result (λ e. (e ≡ RunFault.Read) × (line.new ≡ line.old)
        × Keeps (M.remaining reader.old) (M.remaining reader.new) × M.waits writer.now reader.old reader.new None) }
{
    let Some(byte) = M::wait(reader, writer)? else {
        return Ok(Some(LineEnd::Input));
    };
    let (_, end) = line.add(&[byte]);
    Ok(end)
}
