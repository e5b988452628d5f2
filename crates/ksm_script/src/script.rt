//! Runs of a session over a reader and a writer.
ghost use Rattle.std.specs.Prelude.{◌≡◌, ◌⊎◌, ℕ, All, List, Ok, Option, Some, OnOk, IfErr};
ghost use Rattle.std.specs.Io.KnownBytes.{Appends};
ghost use Rattle.ksm_script.specs.declared.reply.LineReply.{LineReply};
ghost use Rattle.ksm_script.specs.Answering.{reply_text};
ghost use Rattle.ksm_script.specs.Dialogue.{BreaksOff, Dialogue, IsWithin, RunTalks};
ghost use Rattle.ksm_script.specs.Going.{AtOnce, GoesOn, IsReplied, IsSoFar};
ghost use Rattle.ksm_script.specs.State.{ScriptState};
ghost use Rattle.ksm_script.specs.Replies.{text_of};
ghost use Rattle.ksm_script.specs.Lookups.{IsIdle};
ghost use Rattle.ksm_script.specs.LastLine.{EndsBad, EndsOpen};
ghost use Rattle.ksm_script.specs.Script.{Goes, IsReadAs, Runs, streams};
ghost use Rattle.ksm_script.specs.Texts.{AppendsPart};

use crate::hears::{Hears, Unheard};
use crate::input::{LineEnd, take_empty, take_page, take_rare, take_short};
use crate::lane::{Bytes, Lane, Sends};
use crate::replies::{Returned, Written};
use crate::reply::{LineReply, put_reply};
use crate::session::Session;
use ksm_lines::{Line, LineFault, names_content, read_line};
use ksm_shared::Naming;
use std::io::{Read, Write};
use std::sync::Wait;
use std::thread::Threads;
use thiserror::Error;

/// Why a run broke off.
#[derive(Clone, Copy, Debug, PartialEq, Eq, Error)]
pub enum RunFault {
    /// The reader failed, or in [`run_heard`] the sending of replies before the reader waits for more input.
    #[error("the input cannot be read, or the replies before it cannot be sent")]
    Read,
    /// The writer failed, or took no byte.
    #[error("the output cannot be written")]
    Write,
}

/// Whether a reply was handed over.
pub(crate) type Told = Result<(), RunFault>;

/// How a run ended.
#[derive(Clone, Copy, Debug, PartialEq, Eq)]
pub enum End {
    /// All lines were read and answered.
    AllRead,
    /// The line of this number is bad, and no line behind it was answered. A buffered reader may have read ahead.
    BadLine(u64),
}

/// Answers each line of the reader, up to the end of the input or to a bad line.
///
/// Lines are numbered from 1; those of no bytes count, and have no reply. Each fault of a read or a write ends the run,
/// an interrupted one too. At `RunFault::Read` the replies to the whole lines read are written. At `RunFault::Write` a
/// beginning of the last line's reply is written behind whole replies to the lines before, and no further line is read.
/// At each end all holds are given back. At a bad line the session keeps it ([`Session::line`]).
pub fn run<N: Naming, T: Threads + Wait + Sync, R: Read, W: Write>(
    rt: &T,
    reader: &mut R,
    writer: &mut W,
    session: &mut Session<N>,
) -> Result<End, RunFault>
    ensures ran { Runs (streams (R.remaining reader.old) (R.remaining reader.new) (W.contents writer.old)
        (W.contents writer.new)) session.old.state session.new.state result }
    ensures line { EndsBad (R.remaining reader.old) (R.remaining reader.new) session.new.line result }
    ensures idle { All IsIdle session.new.state.passes }
{
    run_heard::<Bytes, Unheard, N, T, R, W>(rt, reader, writer, session, &mut Unheard)
}

/// Answers each line as [`run`] does, over this lane, and has each reply heard.
///
/// Whenever the reader may wait for more input, the replies to all whole lines that it gave are sent; where the sending
/// fails, it is a failed read. A fault is told only where a wait, or the last call on the writer, failed, or after
/// 2^64 - 2 lines. So at the end of the input all are sent, but that to a last line without a newline. At another end
/// nothing is sent.
pub fn run_heard<M: Lane<R, W>, H: Hears<M, W>, N: Naming, T: Threads + Wait + Sync, R, W: Write>(
    rt: &T,
    reader: &mut R,
    writer: &mut W,
    session: &mut Session<N>,
    hears: &mut H,
) -> Result<End, RunFault>
    ensures ran { Runs (streams (M.remaining reader.old) (M.remaining reader.new) (W.contents writer.old)
        (W.contents writer.new)) session.old.state session.new.state result }
    ensures line { EndsBad (M.remaining reader.old) (M.remaining reader.new) session.new.line result }
    ensures idle { All IsIdle session.new.state.passes }
    ensures talks { RunTalks M.takes M.waits M.fails M.is_sent W.contents session.old.state reader.old reader.new
        writer.old writer.new result }
    ensures sent { result ≡ Ok End.AllRead
        → M.is_sent writer.new ⊎ EndsOpen (M.remaining reader.old) (M.remaining reader.new) }
{
    let ended = run_lines::<M, H, N, T, R, W>(rt, reader, writer, session, hears);
    session.give_back();
    ended
}

/// Answers each line, and has each reply heard. No hold is given back.
fn run_lines<M: Lane<R, W>, H: Hears<M, W>, N: Naming, T: Threads + Wait + Sync, R, W: Write>(
    rt: &T,
    reader: &mut R,
    writer: &mut W,
    session: &mut Session<N>,
    hears: &mut H,
) -> Result<End, RunFault>
    ensures { Goes (streams (M.remaining reader.old) (M.remaining reader.new) (W.contents writer.old)
        (W.contents writer.new)) session.old.state session.new.state result
        × EndsBad (M.remaining reader.old) (M.remaining reader.new) session.new.line result
        × RunTalks M.takes M.waits M.fails M.is_sent W.contents session.old.state reader.old reader.new
        writer.old writer.new result × (result ≡ Ok End.AllRead
        → M.is_sent writer.new ⊎ EndsOpen (M.remaining reader.old) (M.remaining reader.new)) }
{
    'lines: for number in 1..u64::MAX {
        if take_empty::<M, R, W>(reader) {
            continue;
        }
        if answer_at_hand::<M, N, T, R, W>(rt, reader, writer, session, hears.listens())? {
            continue;
        }
        let ended = answer_next::<M, H, N, T, R, W>(rt, reader, writer, session, hears, number)?;
        if let Some(end) = ended {
            return Ok(end);
        }
    }
    Err(RunFault::Read)
}

/// Answers the next line at once, if it can be read where it lies, and nobody hears the reply; tells whether it did.
/// Else nothing is read.
#[inline(always)]
fn answer_at_hand<M: Lane<R, W>, N: Naming, T: Threads + Wait + Sync, R, W: Write>(
    rt: &T,
    reader: &mut R,
    writer: &mut W,
    session: &mut Session<N>,
    is_heard: bool,
) -> Result<bool, RunFault>
    ensures { AtOnce M.remaining M.takes W.contents M.fails (reader.old, writer.old, session.old)
        (reader.new, writer.new, session.new) result }
{
    if is_heard {
        return Ok(false);
    }
    if let Some(line) = take_short::<M, R, W>(reader) {
        let told = session.answer_short::<Written<M>, T, W>(rt, line, writer);
        return told.and(Ok(true));
    }
    if names_content(M::at_hand(reader)) {
        return answer_page::<M, N, T, R, W>(rt, reader, writer, session);
    }
    answer_rare::<M, N, T, R, W>(rt, reader, writer, session)
}

/// Answers the next line at once, first tried as one with a content.
///
/// It stands apart, so that a page is cleared before no short line.
#[inline(never)]
fn answer_page<M: Lane<R, W>, N: Naming, T: Threads + Wait + Sync, R, W: Write>(
    rt: &T,
    reader: &mut R,
    writer: &mut W,
    session: &mut Session<N>,
) -> Result<bool, RunFault>
    ensures { AtOnce M.remaining M.takes W.contents M.fails (reader.old, writer.old, session.old)
        (reader.new, writer.new, session.new) result }
{
    let Some(taken) = take_page::<M, R, W>(reader) else {
        return Ok(false);
    };
    let (line, bytes) = taken;
    let told = session.answer_page::<Written<M>, T, W>(rt, line, bytes, writer);
    told.and(Ok(true))
}

/// Answers the next line at once, tried as one that comes seldom.
///
/// It stands apart, so that nothing of its own is cleared before a line that comes by the million.
#[inline(never)]
fn answer_rare<M: Lane<R, W>, N: Naming, T: Threads + Wait + Sync, R, W: Write>(
    rt: &T,
    reader: &mut R,
    writer: &mut W,
    session: &mut Session<N>,
) -> Result<bool, RunFault>
    ensures { AtOnce M.remaining M.takes W.contents M.fails (reader.old, writer.old, session.old)
        (reader.new, writer.new, session.new) result }
{
    let Some(line) = take_rare::<M, R, W>(reader) else {
        return Ok(false);
    };
    let told = session.answer_rare::<Written<M>, T, W>(rt, line, writer);
    told.and(Ok(true))
}

/// Reads the next line into the session, and answers it; tells how the run ends with it, if it does.
///
/// It stands apart, so that no value of its own is cleared before a line that is answered at once.
#[inline(never)]
fn answer_next<M: Lane<R, W>, H: Hears<M, W>, N: Naming, T: Threads + Wait + Sync, R, W: Write>(
    rt: &T,
    reader: &mut R,
    writer: &mut W,
    session: &mut Session<N>,
    hears: &mut H,
    number: u64,
) -> Result<Option<End>, RunFault>
    ensures on { (lines : List ℕ) → (first begun : Option (List ℕ)) → (from : ScriptState)
        → IsSoFar lines first (M.remaining reader.old) begun (W.contents writer.old) from session.old.state number
        → GoesOn (Dialogue M.takes M.waits (IsWithin M.is_sent W.contents writer.old) reader.old reader.new)
        lines first (M.remaining reader.new) begun (W.contents writer.new) from session.new number result }
    ensures breaks { IfErr result (BreaksOff M.takes M.waits M.fails (IsWithin M.is_sent W.contents writer.old)
        reader.old reader.new writer.new) }
    ensures sent { result ≡ Ok (Some End.AllRead)
        → M.is_sent writer.new ⊎ EndsOpen (M.remaining reader.old) (M.remaining reader.new) }
{
    let end = session.read_next::<M, R, W>(reader, writer)?;
    if end == LineEnd::Input && session.line().is_empty() {
        return Ok(Some(End::AllRead));
    }
    let (reply, ended) = reply_to_line(rt, session, end, number);
    write_answer::<M, H, W>(writer, hears, number, session.line(), reply)?;
    Ok(ended)
}

/// What the line that was read last, of this number, is answered; and how the run ends with it, if it does.
#[inline(always)]
fn reply_to_line<N: Naming, T: Threads + Wait + Sync>(
    rt: &T,
    session: &mut Session<N>,
    end: LineEnd,
    number: u64,
) -> (Option<LineReply>, Option<End>)
    ensures { IsReplied end number session.old session.new result.0 result.1 }
{
    let Ok(line) = line_of(session, end) else {
        return (Some(LineReply::BadLine(number)), Some(End::BadLine(number)));
    };
    let mut reply = None;
    let _ = session.answer::<Returned, T, Option<LineReply>>(rt, line, &mut reply);
    let ended = match end {
        LineEnd::Input => Some(End::AllRead),
        _ => None,
    };
    (reply, ended)
}

/// The line that was read last, if it is not too long and one of the forms.
fn line_of<N: Naming>(session: &Session<N>, end: LineEnd) -> Result<Line, LineFault>
    ensures { IsReadAs result end session.now.line }
{
    if end == LineEnd::TooLong {
        return Err(LineFault::Bad);
    }
    read_line(session.line())
}

/// Writes the reply to a line, if it has one, and has it heard.
fn write_answer<M: Sends<W>, H: Hears<M, W>, W: Write>(
    writer: &mut W,
    hears: &mut H,
    number: u64,
    line: &[u8],
    reply: Option<LineReply>,
) -> Told
    ensures whole { OnOk result (Appends (W.contents writer.old) (W.contents writer.new) (reply_text reply)) }
    ensures fault { IfErr result (λ e. (e ≡ RunFault.Write) × M.fails writer.new × (told : LineReply)
        × (reply ≡ Some told) × AppendsPart (W.contents writer.old) (W.contents writer.new) (text_of told)) }
{
    match reply {
        None => Ok(()),
        Some(reply) => {
            put_reply::<M, W>(writer, &reply)?;
            hears.hear(writer, number, line, &reply)
        }
    }
}
