//! What is said of refusals, and when.
use crate::host::{Host, ended};
use crate::lines::Lines;
use ksm_base::Fault;
use ksm_causes::Refused;
use ksm_host::Status;
use ksm_script::{LineReply, Refusal};
use std::alloc::Global;
use std::sync::Wait;
use std::test::Fail;
use std::thread::Threads;

const WORDS: &str = "ksmbook --nodes 2 --frames 2 --passes 1";

/// Lines with their replies, and why those that are refused are. They have each refusal but that of memory.
const ROWS: &str = "set merge_across_nodes 0|ok|
get 0 0|refused 2|there is no such page, or no page of the guest
reg 0 0 0 aa|ok|
reg 0 0 0 aa|refused 3|the page is registered already
reg 0 1 0 aa|ok|
reg 0 2 0 bb|refused 4|no frame of node 0 is free
reg 0 2 2 bb|refused 11|there is no such node
scan 4|refused 5|no scan runs while run is not 1
set run 3|refused 7|the value is out of the knob's range
set run 1|ok|
scan 4|scanned 4|
set max_page_sharing 2|refused 6|the knob stays as it is while pages are shared
rmap 1|refused 10|no dup with pages stands at the place, or there is no such place
movedup 0 1|refused 9|the dup would cross nodes while merge_across_nodes is 0
find 0 0|held 0 1|
find 0 0|refused 13|the pass holds a frame, or at an audit each pass does
audit|refused 13|the pass holds a frame, or at an audit each pass does
movedup 0 0|refused 8|a pass holds the frame
leave 0|ok|
leave 0|refused 14|the pass holds no frame
look 1|refused 12|there is no such pass
reg 0 2 0 bb|ok|
reg 1 0 1 cc|ok|
reg 1 1 1 dd|ok|
unmerge 0|unmerged 0 refused 4|no frame of node 0 is free
move 0 0 1|refused 4|no frame of node 1 is free";

/// What is said of a line, if it is refused.
fn add_sentence(said: &mut String, number: u32, row: Row) -> Result<(), Fail> {
    if let Some((_, refusal)) = row.reply.split_once("refused ") {
        let Row { line, why, .. } = row;
        write!(said, "line {number}, refused {refusal}: {why}: {line}\n")?;
    }
    Ok(())
}

/// A row's line, its reply and why it is refused.
#[derive(Clone, Copy)]
struct Row<'a> {
    line: &'a str,
    reply: &'a str,
    why: &'a str,
}

fn row_of(text: &str) -> Option<Row<'_>> {
    let (line, told) = text.split_once('|')?;
    let (reply, why) = told.split_once('|')?;
    Some(Row { line, reply, why })
}

/// Each refusal is said behind its reply, with the number of its line and the line; and what is printed is the same
/// where none is said.
#[test]
fn each_refusal_is_said(rt: HostRuntime) -> Result<(), Fail> {
    let mut lines = Lines::new(rt.alloc());
    let mut sentences = String::new(rt.alloc());
    let mut number = 0u32;
    for text in ROWS.split('\n') {
        let Some(row) = row_of(text) else {
            return Err(Fail::from("a row"));
        };
        number = number.saturating_add(1);
        lines.add(row.line, row.reply)?;
        add_sentence(&mut sentences, number, row)?;
    }
    for (value, wanted) in [("1", sentences.as_str()), ("0", "")] {
        let host = Host::new(rt.alloc(), WORDS, lines.script.as_str(), None);
        let ending = ended(&rt, host.explaining(Some(value), true));
        assert!(rt; ending.is(Status::Done, lines.replies.as_str(), wanted));
    }
    Ok(())
}

/// The refusal that no test here can have the program give. A long line is cut.
#[test]
fn a_refusal_for_memory_is_said(rt: HostRuntime) -> Result<(), Fail> {
    let reply = LineReply::Refused(Refusal::Book(Fault::Memory));
    let line = "put 0 0 00000000111111112222222233333333".as_bytes();
    let Some(refused) = Refused::of(7, line, &reply) else {
        return Err(Fail::from("a refusal"));
    };
    assert!(rt;
        format!(in rt.alloc(); "{refused}")?.as_str()
            == "line 7, refused 1: memory was refused, and the line may be sent again: put 0 0 000000001111111122222222..\n"
    );
    Ok(())
}

/// Whether a refusal is said with this value of the variable, and with a terminal or none.
fn is_said<T: Threads + Wait + Sync>(
    threads: &T,
    alloc: Global,
    value: Option<&str>,
    is_terminal: bool,
) -> Option<bool> {
    let host = Host::new(alloc, WORDS, "look 1", None).explaining(value, is_terminal);
    let ending = ended(threads, host);
    (ending.status == Status::Done).then_some(!ending.said.is_empty())
}

/// The variable decides where it is 0 or 1, else the terminal does.
#[test]
fn who_asks_for_words(rt: HostRuntime) {
    let cases = [
        (None, false, false),
        (None, true, true),
        (Some("1"), false, true),
        (Some("0"), true, false),
        (Some(""), false, false),
        (Some("11"), false, false),
        (Some("yes"), true, true),
    ];
    for (value, is_terminal, are_told) in cases {
        let said = is_said(&rt, rt.alloc(), value, is_terminal);
        assert!(rt; said == Some(are_told), "{value:?} {is_terminal}");
    }
}

/// Whether the program, whose output has this room, ends, prints and says so.
fn stops_so<T: Threads + Wait + Sync>(
    threads: &T,
    alloc: Global,
    room: usize,
    wanted: (Status, &str, &str),
) -> bool {
    let host = Host::new(alloc, WORDS, "look 1\nlook 0\n", Some(room));
    let ending = ended(threads, host.explaining(Some("1"), false));
    let printed = ending.printed.as_slice();
    printed.len() == room
        && "refused 12\nrefused 14\n".as_bytes().starts_with(printed)
        && ending.status == wanted.0
        && ending.said.as_str().strip_prefix(wanted.1) == Some(wanted.2)
}

/// A refusal is said once its reply is sent, and where that fails nothing more is sent or said.
#[test]
fn words_stand_behind_a_reply_that_is_sent(rt: HostRuntime) {
    let first = "line 1, refused 12: there is no such pass: look 1\n";
    let both =
        "line 1, refused 12: there is no such pass: look 1\nline 2, refused 14: the pass holds no frame: look 0\n";
    let broken = "ksmbook: a read or a write failed\n";
    for room in 0..23 {
        let wanted = match room {
            0..=10 => (Status::Broken, "", broken),
            11..=21 => (Status::Broken, first, broken),
            _ => (Status::Done, both, ""),
        };
        assert!(rt; stops_so(&rt, rt.alloc(), room, wanted), "{room}");
    }
}
