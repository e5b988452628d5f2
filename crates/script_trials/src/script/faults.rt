//! What a run does after a fault: nothing more.
use super::*;

/// A reader that gives some bytes, one a call, then fails or ends once, and would give more after that. It counts the
/// calls.
#[derive(Drop)]
struct Interrupted<'a> {
    first: &'a [u8],
    fails: bool,
    calls: usize,
}

impl Read for Interrupted<'_> {
    fn read(&mut self, buffer: &mut [u8]) -> io::Result<usize> {
        let at = self.calls;
        self.calls = self.calls.saturating_add(1);
        if buffer.is_empty() {
            return Ok(0);
        }
        if at == self.first.len() {
            if self.fails {
                return Err(io::Error::from(io::ErrorKind::Interrupted));
            }
            return Ok(0);
        }
        buffer[0] = if at < self.first.len() {
            self.first[at]
        } else {
            b'\n'
        };
        Ok(1)
    }
}

/// Neither a failed read nor the end of the input is asked for twice, and the session goes on in a second run.
#[test]
fn the_reader_is_not_asked_again(rt: HostRuntime) -> Result<(), Fail> {
    let first = "reg 0 0 0 aa\nget 0 0".as_bytes();
    let cases = [
        (true, Err(RunFault::Read), "ok\n"),
        (false, Ok(End::AllRead), "ok\n[aa]\n"),
    ];
    for (fails, end, output) in cases {
        let mut reader = Interrupted {
            first,
            fails,
            calls: 0,
        };
        let mut rest = "get 0 0\n".as_bytes();
        let row = Row { output, end, ..ROW };
        let then = (Ok(End::AllRead), "[aa]\n");
        assert!(rt; goes_so(&rt, rt.alloc(), row, &mut reader, &mut rest, then)?);
        assert!(rt; reader.calls == first.len() + 1);
    }
    Ok(())
}

/// A writer that takes `room` bytes, then fails once, and would take all after that.
#[derive(Drop)]
struct FailsOnce {
    taken: Vec<u8>,
    room: Option<usize>,
}

impl Write for FailsOnce {
    fn write(&mut self, bytes: &[u8]) -> io::Result<usize> {
        let count = match self.room {
            None => bytes.len(),
            Some(0) => {
                self.room = None;
                return Err(io::Error::from(io::ErrorKind::Interrupted));
            }
            Some(room) => {
                let count = room.min(bytes.len());
                self.room = Some(room - count);
                count
            }
        };
        self.taken.extend_from_slice(&bytes[..count])?;
        Ok(count)
    }

    fn flush(&mut self) -> io::Result<()> {
        Ok(())
    }
}

/// What is left to read of three lines once a write has failed after so many bytes: the lines after the one whose reply
/// broke. Their replies have 3, `read` less 3, and 3 bytes.
fn left_after(room: usize, read: usize) -> usize {
    if room < 3 {
        17
    } else if room < read {
        9
    } else {
        0
    }
}

/// Whether, once a write has failed after so many bytes, just these were written, and no line after the one whose reply
/// broke was read.
fn stops_after<T: Threads + Wait + Sync>(rt: &T, alloc: Global, room: usize) -> Result<bool, Fail> {
    let whole = with_pages(alloc, "ok\n[aa]\nok\n")?;
    let read = with_pages(alloc, "ok\n[aa]\n")?.len();
    let mut reader = "reg 0 0 0 aa\nget 0 0\ndrop 0 0\n".as_bytes();
    let mut writer = FailsOnce {
        taken: Vec::new(alloc),
        room: Some(room),
    };
    let mut nothing = "".as_bytes();
    let ended = play_twice(rt, alloc, ROW, &mut reader, &mut writer, &mut nothing)?;
    let taken = writer.taken.as_slice();
    Ok(
        ended.0 == Err(RunFault::Write)
            && taken.len() == room
            && whole.as_bytes().starts_with(taken)
            && reader.len() == left_after(room, read),
    )
}

/// After a failed write nothing more is written and no further line is read.
#[test]
fn nothing_is_written_after_a_fault(rt: HostRuntime) -> Result<(), Fail> {
    let whole = with_pages(rt.alloc(), "ok\n[aa]\nok\n")?.len();
    for room in 0..whole {
        assert!(rt; stops_after(&rt, rt.alloc(), room)?, "{room}");
    }
    Ok(())
}
