//! Where a run has its lines from, and where its replies go.
ghost use Rattle.std.specs.Prelude.{◌≡◌, ◌≤◌, ⊤, [], ℕ, List, Option, true, false, length, take, IfOk, IfErr, IfNone};
ghost use Rattle.std.specs.Prelude.{option_to_list};
ghost use Rattle.std.specs.Io.Buffered.{reader_buffer, reader_remaining, writer_buffer};
ghost use Rattle.std.specs.Io.KnownBytes.{Consumes, Keeps, IsAtEnd};
ghost use Rattle.ksm_script.specs.Dialogue.{given, Gives};
ghost use Rattle.ksm_script.specs.Said.{Puts};

use crate::script::RunFault;
use std::io::{BufRead, BufReader, BufWriter, Read, Write};

/// How replies are given to a writer, and sent. Only these two calls tell that a call on the writer failed: what is
/// written over any marker can't make that up.
pub trait Sends<W: Write> {
    /// All that the writer was given is sent.
    ghost is_sent: { W → Type 0 };

    /// The last call on the writer failed, or took no byte of some.
    ghost fails: { W → Type 0 };

    /// Gives the writer a text, and tells how many bytes of it it took.
    fn put(writer: &mut W, text: &[u8]) -> Result<usize, RunFault>
        ensures { Puts W.contents fails writer.old writer.new text.now result };

    /// Sends all that the writer was given; tells whether it could.
    fn send(writer: &mut W) -> bool
        ensures kept { Keeps (W.contents writer.old) (W.contents writer.new) }
        ensures sent { result ≡ true → is_sent writer.new }
        ensures failed { result ≡ false → fails writer.new };
}

/// How a run takes bytes from a reader, while a writer has the replies. Only [`Lane::wait`] may wait for the reader,
/// and it has to be shown a writer that has nothing unsent.
pub trait Lane<R, W: Write>: Sends<W> {
    /// The bytes that the reader still gives, where they are known.
    ghost remaining: { R → Option (List ℕ) };

    /// The bytes that can be taken at once.
    ghost near: { R → List ℕ };

    /// What a call that took bytes at hand did to the reader.
    ghost takes: { R → R → List ℕ → Type 0 };

    /// What a wait did to the reader, by the writer that it was shown and the bytes that it gave; none where it failed.
    ghost waits: { W → R → R → Option (List ℕ) → Type 0 };

    /// The bytes that can be taken at once.
    fn at_hand(reader: &R) -> &[u8]
        ensures { result.now ≡ near reader.now };

    /// Takes so many of them.
    fn consume(reader: &mut R, count: usize)
        requires { count ≤ length (near reader.old) }
        ensures bytes { Consumes (remaining reader.old) (remaining reader.new) (take count (near reader.old)) }
        ensures took { takes reader.old reader.new (take count (near reader.old)) };

    /// Waits for the next byte, and takes it; none at the end of the input.
    fn wait(reader: &mut R, writer: &W) -> Result<Option<u8>, RunFault>
        requires sent { Self.is_sent writer.now }
        ensures waited { waits writer.now reader.old reader.new (given result) }
        ensures read { IfOk result (λ r. Consumes (remaining reader.old) (remaining reader.new) (option_to_list r)) }
        ensures end { IfOk result (λ r. IfNone r (IsAtEnd (remaining reader.new))) }
        ensures fault { IfErr result (λ e. (e ≡ RunFault.Read) × Keeps (remaining reader.old) (remaining reader.new)) };
}

/// Reads one byte; none at the end of the input.
fn next_byte<R: Read>(reader: &mut R) -> Result<Option<u8>, RunFault>
    ensures read { IfOk result (λ r. Consumes (R.remaining reader.old) (R.remaining reader.new) (option_to_list r)) }
    ensures end { IfOk result (λ r. IfNone r (IsAtEnd (R.remaining reader.new))) }
    ensures fault { IfErr result (λ e. (e ≡ RunFault.Read) × Keeps (R.remaining reader.old) (R.remaining reader.new)) }
{
    let mut buffer = [0u8; 1];
    match reader.read(&mut buffer) {
        Ok(0) => Ok(None),
        Ok(_) => Ok(Some(buffer[0])),
        Err(_) => Err(RunFault::Read),
    }
}

/// Writes what the writer takes at once of a text.
#[inline(always)]
fn write_once<W: Write>(writer: &mut W, text: &[u8]) -> Result<usize, RunFault>
    ensures { Puts W.contents (λ _. ⊤) writer.old writer.new text.now result }
{
    match writer.write(text) {
        Ok(count) => Ok(count),
        Err(_) => Err(RunFault::Write),
    }
}

/// Byte by byte, from any reader, and nothing is sent: so what the run does not want is left in the reader.
pub(crate) struct Bytes;

impl<W: Write> Sends<W> for Bytes {
    ghost is_sent = { λ _. ⊤ };

    ghost fails = { λ _. ⊤ };

    #[inline(always)]
    fn put(writer: &mut W, text: &[u8]) -> Result<usize, RunFault> {
        write_once(writer, text)
    }

    fn send(_writer: &mut W) -> bool {
        true
    }
}

impl<R: Read, W: Write> Lane<R, W> for Bytes {
    ghost remaining = { R.remaining };

    ghost near = { λ _. [] };

    ghost takes = { λ old new bytes. bytes ≡ [] };

    ghost waits = { λ writer old new given. Gives (R.remaining old) (R.remaining new) given };

    fn at_hand(_reader: &R) -> &[u8] {
        &[]
    }

    fn consume(_reader: &mut R, _count: usize) {}

    fn wait(reader: &mut R, _writer: &W) -> Result<Option<u8>, RunFault> {
        next_byte(reader)
    }
}

/// Out of a reader's buffer, a whole line where it lies there; and out of a writer's, before the reader waits.
pub struct Blocks;

impl<W: Write + Drop> Sends<BufWriter<W>> for Blocks {
    ghost is_sent = { λ writer. writer_buffer writer ≡ [] };

    ghost fails = { λ _. ⊤ };

    #[inline(always)]
    fn put(writer: &mut BufWriter<W>, text: &[u8]) -> Result<usize, RunFault> {
        write_once(writer, text)
    }

    fn send(writer: &mut BufWriter<W>) -> bool {
        writer.flush().is_ok()
    }
}

impl<R: Read, W: Write + Drop> Lane<BufReader<R>, BufWriter<W>> for Blocks {
    ghost remaining = { reader_remaining R.remaining };

    ghost near = { reader_buffer };

    ghost takes = { λ old new bytes. Consumes (reader_remaining R.remaining old) (reader_remaining R.remaining new) bytes };

    ghost waits = { λ writer old new given. Gives (reader_remaining R.remaining old) (reader_remaining R.remaining new) given };

    #[inline(always)]
    fn at_hand(reader: &BufReader<R>) -> &[u8] {
        reader.buffer()
    }

    #[inline(always)]
    fn consume(reader: &mut BufReader<R>, count: usize) {
        reader.consume(count);
    }

    fn wait(reader: &mut BufReader<R>, _writer: &BufWriter<W>) -> Result<Option<u8>, RunFault> {
        next_byte(reader)
    }
}
