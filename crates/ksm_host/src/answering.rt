//! The answers to a script, sent to their end.
ghost use Rattle.std.specs.Prelude.{◌≡◌, true, false, OnOk};
ghost use Rattle.std.specs.Io.Buffered.{writer_buffer, writer_contents, writer_inner};
ghost use Rattle.std.specs.Io.KnownBytes.{Keeps};
ghost use Rattle.ksm_script.specs.Script.{streams};
ghost use Rattle.ksm_host.specs.Ends.{Empties, HasTalked, Serves};

use crate::said::say_why;
use crate::status::Status;
use crate::telling::Telling;
use ksm_script::{End, Lane, RunFault, Sends, Session, run_heard};
use ksm_shared::Naming;
use std::io::{BufWriter, Write};
use std::sync::Wait;
use std::thread::Threads;

/// Answers the script that the reader holds, and sends the replies. The writer is taken apart, so that what could not
/// be sent is let go, and not tried again. Behind `bad line` it is said why.
pub(crate) fn served<
    M: Lane<I, BufWriter<O>>,
    N: Naming,
    R: Eprint,
    T: Threads + Wait + Sync,
    I,
    O: Write + Drop,
>(
    rt: &R,
    threads: &T,
    tells: bool,
    reader: &mut I,
    mut writer: BufWriter<O>,
    session: &mut Session<N>,
) -> (Status, O)
    requires empties { Empties M.is_sent writer_buffer }
    ensures serves { Serves (streams (M.remaining reader.old) (M.remaining reader.new)
        (writer_contents O.contents writer) (O.contents result.1)) session.old.state result.0 }
    ensures talks { HasTalked M.takes M.waits M.fails M.is_sent (writer_contents O.contents) reader.old reader.new
        writer result.0 session.old.state }
{
    let mut telling = Telling {
        rt,
        is_asked: tells,
    };
    let ended = run_heard::<M, Telling<R>, N, T, I, BufWriter<O>>(
        threads,
        reader,
        &mut writer,
        session,
        &mut telling,
    );
    let are_sent = sent::<M, O>(ended, &mut writer);
    let (output, _) = writer.into_parts();
    if let (Ok(End::BadLine(number)), true) = (ended, are_sent) {
        say_why(rt, number, session.line());
    }
    (Status::after(ended, are_sent), output)
}

/// Sends what waits in the writer behind a run that no fault ended, and tells whether nothing waits there any more.
#[tactic(auto, using(crate::proofs::Sent::kept_where_sent))]
fn sent<M: Sends<BufWriter<O>>, O: Write + Drop>(
    ended: Result<End, RunFault>,
    writer: &mut BufWriter<O>,
) -> bool
    requires empties { Empties M.is_sent writer_buffer }
    ensures kept { Keeps (writer_contents O.contents writer.old) (writer_contents O.contents writer.new) }
    ensures sent { result ≡ true
        → Keeps (writer_contents O.contents writer.old) (O.contents (writer_inner writer.new)) }
    ensures failed { OnOk ended (result ≡ false → M.fails writer.new) }
{
    match ended {
        Err(_) => false,
        Ok(_) => M::send(writer),
    }
}
