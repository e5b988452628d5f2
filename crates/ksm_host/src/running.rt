//! From the program's words, input and output to its end.
ghost use Rattle.std.specs.Prelude.{◌≡◌, None, map, string_bytes};
ghost use Rattle.std.specs.Io.Buffered.{writer_buffer, writer_contents, writer_inner};
ghost use Rattle.ksm_host.specs.Ends.{Empties, EndsBy, EndsOn, HasTalked};
ghost use Rattle.ksm_script.specs.Script.{streams};

use crate::answering::served;
use crate::retrying::Retrying;
use crate::said::say_end;
use crate::start::{opened, words};
use crate::status::{Outcome, Status};
use crate::telling::tells_refusals;
use crate::version::{asks_version, tell_version};
use frame_table::ClosedTable;
use ksm_script::{Blocks, Lane, Session};
use ksm_shared::{Naming, Parts};
use std::io::{self, BufReader, BufWriter, IsTerminal, Printer, Write};
use std::marker::Brand;
use std::rt::Env;
use std::sync::Wait;
use std::thread::Threads;

/// How many bytes are read at once, at most. The reader fills its buffer with zeroes first, and a line that lies across
/// its end is read by parts: a larger buffer costs more at the start, a smaller one more for each such line.
const READ_BLOCK: usize = 8192;

/// How many bytes are sent at once, at most.
const WRITE_BLOCK: usize = 65536;

/// How the program ended, and what is left of it.
#[derive(Drop)]
pub struct Ended<O> {
    /// What the program tells by its exit status.
    pub status: Status,
    /// The table of its session, closed. There is none where the program ended before its first line.
    pub table: Option<ClosedTable>,
    /// The output, with what was sent to it. What could not be sent is let go.
    pub output: O,
}

/// The program on a host: it reads the words and the input there, and prints the replies, or the version where the
/// words ask for that. Audits run in the threads. Refusals are told in words too where the variable `KSMBOOK_EXPLAIN`
/// is 1, or where it is not 0 and standard error, `errors`, is a terminal. At each status but 0 standard error says
/// why.
pub fn run_on<
    R: Env + Input + Print + Eprint + AllocGlobal,
    T: Threads + Wait + Sync,
    E: IsTerminal,
>(rt: &R, threads: &T, errors: &E) -> Outcome {
    let status = match words(rt) {
        Err(status) => status,
        Ok(words) if asks_version(words.as_slice()) => tell_version(rt),
        Ok(words) => ended_on(rt, threads, errors, words.as_slice()),
    };
    say_end(rt, status);
    Outcome::new(status)
}

/// How the program ends over the host's input and output.
fn ended_on<R: Env + Input + Print + Eprint + AllocGlobal, T: Threads + Wait + Sync, E: IsTerminal>(
    rt: &R,
    threads: &T,
    errors: &E,
    words: &[String],
) -> Status {
    let input = Retrying::new(rt.reader());
    let reader = BufReader::with_capacity(rt.alloc(), READ_BLOCK, input);
    let writer = BufWriter::with_capacity(rt.alloc(), WRITE_BLOCK, io::writer(rt));
    let (Ok(mut reader), Ok(writer)) = (reader, writer) else {
        return Status::NoMemory;
    };
    let tells = tells_refusals(rt, errors);
    let ended = played::<Blocks, R, T, BufReader<Retrying<R::Reader>>, Printer<'_, R>>(
        rt,
        threads,
        words,
        tells,
        &mut reader,
        writer,
    );
    ended.status
}

/// The program over its words, its input and its output: it opens the book that the words tell, answers the script, and
/// closes the book. Where it `tells` refusals, each is told in words on standard error too.
///
/// Without a table in what is left, no line was read and nothing was sent: memory was refused, or the words tell no
/// shape. Whenever the reader may wait, the replies to all whole lines that it gave are sent. The end is told as broken
/// only where a wait or a call on the writer failed, or after 2^64 - 2 lines.
pub fn played<
    M: Lane<I, BufWriter<O>>,
    R: Eprint + AllocGlobal,
    T: Threads + Wait + Sync,
    I,
    O: Write + Drop,
>(
    rt: &R,
    threads: &T,
    words: &[String],
    tells: bool,
    reader: &mut I,
    writer: BufWriter<O>,
) -> Ended<O>
    requires empties { Empties M.is_sent writer_buffer }
    ensures ends { EndsBy (map string_bytes words.now)
        (streams (M.remaining reader.old) (M.remaining reader.new) (writer_contents O.contents writer)
        (O.contents result.output)) (HasTalked M.takes M.waits M.fails M.is_sent (writer_contents O.contents)
        reader.old reader.new writer) result.status result.table }
    ensures untouched { result.table ≡ None → (result.output ≡ writer_inner writer) × (reader.new ≡ reader.old) }
{
    match opened(rt, words) {
        Ok(parts) => in_session::<M, Brand, R, T, I, O>(rt, threads, parts, tells, reader, writer),
        Err(status) => unopened(status, writer),
    }
}

/// Opens a session on the parts, which get their name here, answers the script, and closes it.
fn in_session<
    M: Lane<I, BufWriter<O>>,
    N: Naming,
    R: Eprint + AllocGlobal,
    T: Threads + Wait + Sync,
    I,
    O: Write + Drop,
>(rt: &R, threads: &T, parts: Parts, tells: bool, reader: &mut I, writer: BufWriter<O>) -> Ended<O>
    requires name { parts ≡ N.parts }
    requires alone { parts.callers ≡ 1 }
    requires empties { Empties M.is_sent writer_buffer }
    ensures ends { EndsOn N.parts
        (streams (M.remaining reader.old) (M.remaining reader.new) (writer_contents O.contents writer)
        (O.contents result.output)) (HasTalked M.takes M.waits M.fails M.is_sent (writer_contents O.contents)
        reader.old reader.new writer) result.status result.table }
    ensures untouched { result.table ≡ None → (result.output ≡ writer_inner writer) × (reader.new ≡ reader.old) }
{
    let Ok(mut session) = Session::<N>::open(rt.alloc(), parts) else {
        return unopened(Status::NoMemory, writer);
    };
    let (status, output) = served::<M, N, R, T, I, O>(
        rt,
        threads,
        tells,
        reader,
        writer,
        &mut session,
    );
    Ended {
        status,
        table: Some(session.close(threads)),
        output,
    }
}

/// The end before the first line.
fn unopened<O: Write + Drop>(status: Status, writer: BufWriter<O>) -> Ended<O>
    ensures status { result.status ≡ status }
    ensures table { result.table ≡ None }
    ensures output { result.output ≡ writer_inner writer }
{
    let (output, _) = writer.into_parts();
    Ended {
        status,
        table: None,
        output,
    }
}
