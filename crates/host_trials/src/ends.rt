//! The program over memory: what its words tell, how it ends, and what a fault leaves.
use crate::host::{Ending, Host, ended, taken};
use crate::lines::Lines;
use clap::Error;
use ksm_base::{MOST_FRAMES_PER_NODE, MOST_LIVES, MOST_NODES, Shape};
use ksm_host::{Ended, Retrying, Status, played, told};
use ksm_options::options;
use ksm_script::Blocks;
use std::alloc::{AllocError, Global};
use std::io::{self, BufReader, BufWriter, ErrorKind, Read, Write};
use std::process::ExitCode;
use std::sync::Wait;
use std::test::Fail;
use std::thread::Threads;

/// How the program ends at these words and this input, over an output that takes all.
fn ended_at<T: Threads + Wait + Sync>(
    threads: &T,
    alloc: Global,
    words: &str,
    input: &str,
) -> Ending {
    ended(threads, Host::new(alloc, words, input, None))
}

/// Each option is read: two nodes, of three frames each, numbered node by node; a third pass; and a frame that is
/// retired after two lives.
#[test]
fn words_tell_the_table(rt: HostRuntime) -> Result<(), Fail> {
    const WORDS: &str = "ksmbook --nodes 2 --frames 3 --passes 3 --tries 1 --last-generation 2";
    let mut lines = Lines::new(rt.alloc());
    lines.add_all(&[
        "reg 0 0 1 aa|ok",
        "reg 0 1 1 aa|ok",
        "reg 0 2 1 bb|ok",
        "reg 0 3 1 cc|refused 4",
        "reg 0 3 2 cc|refused 11",
        "set run 1|ok",
        "scan 6|scanned 6",
        "find 2 0|held 3 1",
        "find 3 0|refused 12",
        "reg 0 3 1 cc|ok",
        "drop 0 3|ok",
        "reg 0 3 1 cc|refused 4",
    ])?;
    let ending = ended_at(&rt, rt.alloc(), WORDS, lines.script.as_str());
    assert!(rt; ending.is(Status::Done, lines.replies.as_str(), ""));
    Ok(())
}

/// The shape that a line of words tells, if it tells one.
fn shape_of(alloc: Global, line: &str) -> Result<Option<Shape>, AllocError> {
    let mut words = Vec::new(alloc);
    for word in line.split(' ') {
        words.push(String::from_str(alloc, word)?)?;
    }
    Ok(options(alloc, words.as_slice()).ok())
}

/// What is not told has its default, and settings may come in any order.
#[test]
fn defaults_and_settings(rt: HostRuntime) -> Result<(), Fail> {
    let least = Shape {
        nodes: 1,
        frames_per_node: 8,
        passes: 2,
        last_generation: MOST_LIVES,
        tries: 8,
    };
    let most = Shape {
        nodes: 4,
        frames_per_node: 256,
        passes: 16,
        last_generation: 3,
        tries: 64,
    };
    let cases = [
        ("ksmbook --nodes 1 --frames 8", least),
        (
            "ksmbook --tries 64 --frames=256 --last-generation 3 --nodes +4 --passes 016 --",
            most,
        ),
    ];
    for (line, shape) in cases {
        assert!(rt; shape_of(rt.alloc(), line)? == Some(shape), "{line}");
    }
    Ok(())
}

/// The number of each status.
#[test]
fn numbers_of_statuses(rt: HostRuntime) {
    let numbers = [
        (Status::Done, 0),
        (Status::NotUnderstood, 2),
        (Status::Broken, 3),
        (Status::NoMemory, 4),
    ];
    for (status, number) in numbers {
        assert!(rt; ExitCode::from(status) == ExitCode::from(number));
    }
}

/// Whether these words end the program before its first line, and it says why, with no control byte but newlines.
fn are_wrong<T: Threads + Wait + Sync>(threads: &T, alloc: Global, words: &str) -> bool {
    let ending = ended_at(threads, alloc, words, "stat\n");
    let mut said = ending.said.chars();
    ending.status == Status::NotUnderstood
        && ending.printed.is_empty()
        && !ending.said.is_empty()
        && said.all(|c| c == '\n' || !c.is_control())
}

/// Words that are no options have their status. The version is printed where it alone is asked for.
#[test]
fn wrong_words_have_their_status(rt: HostRuntime) -> Result<(), Fail> {
    let nodes = format!(in rt.alloc(); "ksmbook --nodes {} --frames 4", MOST_NODES + 1)?;
    let frames = format!(in rt.alloc(); "ksmbook --nodes 1 --frames {}", MOST_FRAMES_PER_NODE + 1)?;
    let lines = [
        "ksmbook",
        "ksmbook --help",
        "ksmbook --nodes 1",
        nodes.as_str(),
        "ksmbook --nodes 0 --frames 4",
        frames.as_str(),
        "ksmbook --nodes 1 --frames 4 more",
        "ksmbook --nodes 1 --frames 4 --passes 2 --tries 8 --last-generation 4 more",
        "ksmbook --nodes 1 --frames 4 --nodes 1",
        "ksmbook --nodes 1 --frames \u{1b}[31m",
        "ksmbook --nodes --frames 4",
        "ksmbook --nodes 1 --frames !",
        "ksmbook --version more",
        "ksmbook --nodes 1 --frames 4 --version",
    ];
    for words in lines {
        assert!(rt; are_wrong(&rt, rt.alloc(), words), "{words}");
    }
    Ok(())
}

/// A call for help has a text that names each option, and no error.
#[test]
fn help_names_each_option(rt: HostRuntime) {
    let ending = ended_at(&rt, rt.alloc(), "ksmbook --help", "stat\n");
    assert!(rt; !ending.said.contains("error"));
    for option in [
        "Usage: ksmbook ",
        "--nodes ",
        "--frames ",
        "--passes ",
        "--tries ",
        "--last-generation ",
    ] {
        assert!(rt; ending.said.contains(option), "{option}");
    }
}

/// The version is printed where it is asked for.
#[test]
fn the_version_is_printed(rt: HostRuntime) {
    let ending = ended_at(&rt, rt.alloc(), "ksmbook --version", "stat\n");
    let printed = ending.printed.as_slice();
    assert!(rt; printed.starts_with("ksmbook ".as_bytes()) && printed.ends_with("\n".as_bytes()));
    assert!(rt; ending.status == Status::Done && ending.said.is_empty());
}

/// Where memory is refused for the words, they are not at fault.
#[test]
fn words_are_not_at_fault_for_memory(rt: HostRuntime) {
    let host = Host::new(rt.alloc(), "ksmbook", "", None);
    let read = told(&host, Err(Error::from(AllocError)));
    let (printed, said) = host.told();
    assert!(rt; read == Err(Status::NoMemory) && printed.is_empty() && said.is_empty());
}

const FOUR: &str = "ksmbook --nodes 1 --frames 4";

const BROKEN: &str = "ksmbook: a read or a write failed\n";

/// A script, what it is answered, its end, and what is said.
type End<'a> = (&'a str, &'a str, Status, &'a str);

/// Whether a script ends so where the output has this room.
fn ends_so<T: Threads + Wait + Sync>(threads: &T, alloc: Global, end: End, room: usize) -> bool {
    let (script, wanted, status, why) = end;
    let ending = ended(threads, Host::new(alloc, FOUR, script, Some(room)));
    let (status, said) = if room == wanted.len() {
        (status, why)
    } else {
        (Status::Broken, BROKEN)
    };
    let printed = ending.printed.as_slice();
    printed.len() == room
        && wanted.as_bytes().starts_with(printed)
        && ending.status == status
        && ending.said.as_str() == said
}

/// Each end of a script. Where the output fails, it has what it took before that, nothing more is sent, and it is said.
#[test]
fn each_end_has_its_status(rt: HostRuntime) -> Result<(), Fail> {
    let cases = [
        ("", "", Status::Done, ""),
        (
            "reg 0 0 0 aa\n\nget 1 0",
            "ok\nrefused 2\n",
            Status::Done,
            "",
        ),
        (
            "reg 0 0 0 aa\nfoo\nget 1 0\n",
            "ok\nbad line 2\n",
            Status::NotUnderstood,
            "line 2, column 1: no line begins with this word: foo\n",
        ),
    ];
    for case in cases {
        for room in 0..=case.1.len() {
            assert!(rt; ends_so(&rt, rt.alloc(), case, room), "{} {room}", case.1);
        }
    }
    Ok(())
}

/// What an input answers to one call.
#[derive(Clone, Copy)]
enum Turn<'a> {
    /// Some bytes, or none: the end of the input.
    Bytes(&'a str),
    Fault,
    Interruption,
}

/// Input that answers each call with the next turn, and counts the calls.
#[derive(Drop)]
struct Turns<'a> {
    turns: &'a [Turn<'a>],
    calls: usize,
}

impl Read for Turns<'_> {
    fn read(&mut self, buffer: &mut [u8]) -> io::Result<usize> {
        let turn = self.turns.get(self.calls);
        self.calls = self.calls.saturating_add(1);
        match turn {
            Some(Turn::Bytes(text)) => {
                let mut rest = text.as_bytes();
                rest.read(buffer)
            }
            Some(Turn::Fault) => Err(io::Error::from(ErrorKind::BrokenPipe)),
            Some(Turn::Interruption) => Err(io::Error::from(ErrorKind::Interrupted)),
            None => Ok(0),
        }
    }
}

/// Output that takes `room` bytes, then fails once, and would take all after that.
#[derive(Drop)]
struct FailsOnce {
    taken: Vec<u8>,
    room: Option<usize>,
}

impl Write for FailsOnce {
    fn write(&mut self, bytes: &[u8]) -> io::Result<usize> {
        let count = taken(&mut self.room, bytes.len())?.min(bytes.len());
        self.taken.extend_from_slice(&bytes[..count])?;
        Ok(count)
    }

    fn flush(&mut self) -> io::Result<()> {
        Ok(())
    }
}

/// How the program ends over this input and this room for output, in blocks of so many bytes; what it sent; and what is
/// left to read.
fn played_by<T: Threads + Wait + Sync, I: Read + Drop>(
    threads: &T,
    alloc: Global,
    block: usize,
    input: I,
    room: Option<usize>,
) -> Result<(Status, Vec<u8>, I), Fail> {
    let host = Host::new(alloc, "", "", None);
    let mut words = Vec::new(alloc);
    for word in FOUR.split(' ') {
        words.push(String::from_str(alloc, word)?)?;
    }
    let output = FailsOnce {
        taken: Vec::new(alloc),
        room,
    };
    let mut reader = BufReader::with_capacity(alloc, block, input)?;
    let writer = BufWriter::with_capacity(alloc, block, output)?;
    let Ended { status, output, .. } = played::<Blocks, Host<'_>, T, BufReader<I>, FailsOnce>(
        &host,
        threads,
        words.as_slice(),
        false,
        &mut reader,
        writer,
    );
    Ok((status, output.taken, reader.into_inner()))
}

/// Neither a failed read nor the end of the input is asked for twice, and the replies were sent before the input was
/// waited for.
#[test]
fn the_input_is_not_asked_again(rt: HostRuntime) -> Result<(), Fail> {
    let cases = [
        (Turn::Fault, "ok\n", Status::Broken),
        (Turn::Bytes(""), "ok\nbad line 2\n", Status::NotUnderstood),
    ];
    for (second, wanted, end) in cases {
        let turns = [
            Turn::Bytes("reg 0 0 0 aa\nget 0"),
            second,
            Turn::Bytes(" 0\nget 0 0\n"),
        ];
        let input = Turns {
            turns: &turns,
            calls: 0,
        };
        let run = played_by(&rt, rt.alloc(), 64, input, None)?;
        assert!(rt; run.0 == end && run.1.as_slice() == wanted.as_bytes() && run.2.calls == 2);
    }
    Ok(())
}

/// Whether, in blocks of this size, an output that fails once after so many bytes has just these.
fn stops_in_blocks<T: Threads + Wait + Sync>(
    threads: &T,
    alloc: Global,
    block: usize,
    room: usize,
) -> Result<bool, Fail> {
    let script = "reg 0 0 0 aa\nget 1 0\nleave 0\nget 1 0\n";
    let run = played_by(threads, alloc, block, script.as_bytes(), Some(room))?;
    let sent = run.1.as_slice();
    Ok(run.0 == Status::Broken && sent.len() == room && FOUR_REPLIES.as_bytes().starts_with(sent))
}

const FOUR_REPLIES: &str = "ok\nrefused 2\nrefused 14\nrefused 2\n";

/// In small blocks, an output that fails once after any number of bytes has just these.
#[test]
fn nothing_is_sent_after_a_failed_write(rt: HostRuntime) -> Result<(), Fail> {
    for room in 0..FOUR_REPLIES.len() {
        assert!(rt; stops_in_blocks(&rt, rt.alloc(), 1, room)?, "{room}");
        assert!(rt; stops_in_blocks(&rt, rt.alloc(), 8, room)?, "{room}");
    }
    Ok(())
}

/// A read that is interrupted is tried again, also within a line.
#[test]
fn interrupted_reads_are_tried_again(rt: HostRuntime) -> Result<(), Fail> {
    let turns = [
        Turn::Interruption,
        Turn::Bytes("reg 0 0 0 aa\nget 1"),
        Turn::Interruption,
        Turn::Interruption,
        Turn::Bytes(" 0\n"),
        Turn::Interruption,
    ];
    let input = Turns {
        turns: &turns,
        calls: 0,
    };
    let run = played_by(&rt, rt.alloc(), 64, Retrying::new(input), None)?;
    assert!(rt; run.0 == Status::Done && run.1.as_slice() == "ok\nrefused 2\n".as_bytes());
    Ok(())
}

/// A line that comes byte by byte is one line, up to the longest; and one byte more makes it bad.
#[test]
fn a_line_in_many_pieces(rt: HostRuntime) -> Result<(), Fail> {
    let digits = "ab".repeat(rt.alloc(), 64)?;
    let long = "a".repeat(rt.alloc(), 257)?;
    let script = format!(in rt.alloc();
        "reg 65535 4294967295 0 {digits}\nget 65535 4294967295\n{long}\n"
    )?;
    let wanted = format!(in rt.alloc(); "ok\n{digits}\nbad line 3\n")?;
    let run = played_by(&rt, rt.alloc(), 1, script.as_str().as_bytes(), None)?;
    assert!(rt; run.0 == Status::NotUnderstood && run.1.as_slice() == wanted.as_bytes());
    Ok(())
}
