//! Runs over memory, by worked scripts.
ghost use Rattle.std.specs.Prelude.{◌≡◌, IfOk};

mod faults;
mod lookups;
mod selftests;

use ksm_base::{Fault, MOST_LIVES, PAGE_WORDS, Shape};
use ksm_lines::read_line;
use ksm_script::{End, RunFault, Session, run};
use ksm_shared::{Naming, Parts};
use std::alloc::{AllocError, Global};
use std::io::{self, Read, Write};
use std::marker::Brand;
use std::process::Abort;
use std::sync::Wait;
use std::test::Fail;
use std::thread::Threads;

/// A script, the sizes of its table, what it writes and how it ends. In a script and in what it writes, a page that is
/// full of one byte stands as that byte in brackets; with a minus sign, its last byte is left out. A page of the bytes
/// from 0 on stands as `[in order]`, and its first quarter as `[quarter]`.
#[derive(Clone, Copy)]
struct Row<'a> {
    name: &'a str,
    nodes: u32,
    frames: u32,
    passes: u32,
    last_generation: u64,
    input: &'a str,
    output: &'a str,
    end: Result<End, RunFault>,
}

/// One node of four frames, which live long, and two passes.
const ROW: Row = Row {
    name: "",
    nodes: 1,
    frames: 4,
    passes: 2,
    last_generation: MOST_LIVES,
    input: "",
    output: "",
    end: Ok(End::AllRead),
};

/// What a session of the row's sizes is made of.
fn parts(alloc: Global, row: Row) -> Result<Parts, Fault>
    ensures { IfOk result (λ parts. parts.callers ≡ 1) }
{
    let shape = Shape {
        nodes: row.nodes,
        frames_per_node: row.frames,
        passes: row.passes,
        last_generation: row.last_generation,
        tries: 8,
    };
    if !shape.check() {
        return Err(Fault::BadValue);
    }
    Parts::open(alloc, shape, 1)
}

/// How two runs of one session end, and what the second writes.
type Ended = (Result<End, RunFault>, Result<End, RunFault>, Vec<u8>);

/// A run of a new session over a reader and a writer, and then a run over more lines.
fn runs<N: Naming, T: Threads + Wait + Sync, R: Read, W: Write>(
    rt: &T,
    alloc: Global,
    parts: Parts,
    reader: &mut R,
    writer: &mut W,
    more: &mut &[u8],
) -> Result<Ended, Fault>
    requires name { parts ≡ N.parts }
    requires alone { parts.callers ≡ 1 }
{
    let mut session = Session::<N>::open(alloc, parts)?;
    let mut written = Vec::new(alloc);
    let first = run(rt, reader, writer, &mut session);
    let second = run(rt, more, &mut written, &mut session);
    drop(session.close(rt));
    Ok((first, second, written))
}

/// The same in a session of the row's sizes.
fn play_twice<T: Threads + Wait + Sync, R: Read, W: Write>(
    rt: &T,
    alloc: Global,
    row: Row,
    reader: &mut R,
    writer: &mut W,
    more: &mut &[u8],
) -> Result<Ended, Fault> {
    let parts = parts(alloc, row)?;
    runs::<Brand, T, R, W>(rt, alloc, parts, reader, writer, more)
}

/// The digits of as many bytes, one after the other in order from 0.
fn in_order(alloc: Global, bytes: usize) -> Result<String, AllocError> {
    let mut digits = String::new(alloc);
    for byte in 0..bytes {
        digits.push_str(format!(in alloc; "{byte:02x}")?.as_str())?;
    }
    Ok(digits)
}

/// The digits that stand in brackets as this word.
fn digits_of(alloc: Global, word: &str) -> Result<String, AllocError> {
    match word {
        "in order" => in_order(alloc, 8 * PAGE_WORDS),
        "quarter" => in_order(alloc, 2 * PAGE_WORDS),
        _ => match word.strip_suffix('-') {
            Some(byte) => byte.repeat(alloc, 8 * PAGE_WORDS - 1),
            None => word.repeat(alloc, 8 * PAGE_WORDS),
        },
    }
}

/// A text with all digits of each page that stands in it in brackets.
fn with_pages(alloc: Global, text: &str) -> Result<String, AllocError> {
    let mut written = String::new(alloc);
    for part in text.split('[') {
        match part.split_once(']') {
            Some((word, rest)) => {
                written.push_str(digits_of(alloc, word)?.as_str())?;
                written.push_str(rest)?;
            }
            None => written.push_str(part)?,
        }
    }
    Ok(written)
}

/// Whether a new session over this reader ends and writes as the row says, and then, over more lines, as is said too.
fn goes_so<T: Threads + Wait + Sync, R: Read>(
    rt: &T,
    alloc: Global,
    row: Row,
    reader: &mut R,
    more: &mut &[u8],
    then: (Result<End, RunFault>, &str),
) -> Result<bool, Fail> {
    let mut written = Vec::new(alloc);
    let ended = play_twice(rt, alloc, row, reader, &mut written, more)?;
    let output = with_pages(alloc, row.output)?;
    let second = with_pages(alloc, then.1)?;
    Ok(
        (ended.0, ended.1) == (row.end, then.0)
            && written.as_slice() == output.as_bytes()
            && ended.2.as_slice() == second.as_bytes(),
    )
}

/// Whether the script writes what its row says, and ends so.
fn plays<T: Threads + Wait + Sync>(rt: &T, alloc: Global, row: Row) -> Result<bool, Fail> {
    let input = with_pages(alloc, row.input)?;
    let mut reader = input.as_bytes();
    let mut nothing = "".as_bytes();
    goes_so(
        rt,
        alloc,
        row,
        &mut reader,
        &mut nothing,
        (Ok(End::AllRead), ""),
    )
}

/// Each script writes what its row says, and ends so.
fn play_all<T: Abort + Threads + Wait + Sync>(
    rt: &T,
    alloc: Global,
    rows: &[Row],
) -> Result<(), Fail> {
    for row in rows.iter() {
        assert!(rt; plays(rt, alloc, *row)?, "{}", row.name);
    }
    Ok(())
}

/// The worked scripts.
const ROWS: [Row<'static>; 30] = [
    // Register, store, read and count.
    Row {
        name: "first_run",
        input: "reg 0 0 0 aa\nput 0 0 bb\nget 0 0\nstat\n",
        output: "ok\nok\n[bb]\nstat shared=0 sharing=0 unshared=0 volatile=1 chains=0 dups=0 full_scans=0\n",
        ..ROW
    },
    Row {
        name: "empty_input",
        input: "",
        output: "",
        ..ROW
    },
    Row {
        name: "counters_at_opening",
        input: "stat\n",
        output: "stat shared=0 sharing=0 unshared=0 volatile=0 chains=0 dups=0 full_scans=0\n",
        ..ROW
    },
    Row {
        name: "greatest_guest_and_page",
        input: "reg 65535 4294967295 0 aa\nget 65535 4294967295\nreg 65535 4294967295 0 aa\n",
        output: "ok\n[aa]\nrefused 3\n",
        ..ROW
    },
    Row {
        name: "bad_line_without_newline",
        input: "reg 0 0 0 aa\nput 0 0 b",
        output: "ok\nbad line 2\n",
        end: Ok(End::BadLine(2)),
        ..ROW
    },
    // The digits of a page are its bytes in order, and a quarter of them is no page.
    Row {
        name: "byte_order_of_sixty_four",
        input: "reg 0 0 0 [in order]\nget 0 0\n",
        output: "ok\n[in order]\n",
        ..ROW
    },
    Row {
        name: "thirty_two_digits_are_bad",
        input: "reg 0 0 0 [quarter]\n",
        output: "bad line 1\n",
        end: Ok(End::BadLine(1)),
        ..ROW
    },
    // A page is compared to its last byte, by the scan and by a lookup.
    Row {
        name: "pages_differ_in_the_last_byte",
        input: "reg 0 0 0 00\nreg 0 1 0 [00-]01\nset run 1\nscan 4\nstat\nreg 0 2 0 [00-]01\nscan 6\nequal 0 0 00\nstat\n",
        output: "ok\nok\nok\nscanned 4\nstat shared=0 sharing=0 unshared=2 volatile=0 chains=0 dups=0 full_scans=2\nok\nscanned 6\ndiffers 1 1\nstat shared=1 sharing=1 unshared=1 volatile=0 chains=0 dups=0 full_scans=4\n",
        ..ROW
    },
    // Scans merge equal pages.
    Row {
        name: "one_pass_merges_nothing",
        input: "reg 0 0 0 aa\nreg 0 1 0 aa\nset run 1\nscan 2\nstat\n",
        output: "ok\nok\nok\nscanned 2\nstat shared=0 sharing=0 unshared=0 volatile=2 chains=0 dups=0 full_scans=1\n",
        ..ROW
    },
    Row {
        name: "two_equal_pages_merge",
        input: "reg 0 0 0 aa\nreg 0 1 0 aa\nset run 1\nscan 2\nstat\nscan 2\nstat\nget 0 1\n",
        output: "ok\nok\nok\nscanned 2\nstat shared=0 sharing=0 unshared=0 volatile=2 chains=0 dups=0 full_scans=1\nscanned 2\nstat shared=1 sharing=1 unshared=0 volatile=0 chains=0 dups=0 full_scans=2\n[aa]\n",
        ..ROW
    },
    Row {
        name: "equal_store_still_copies",
        input: "reg 0 0 0 aa\nreg 0 1 0 aa\nset run 1\nscan 4\nput 0 0 aa\nput 0 1 aa\nstat\nscan 2\nstat\nticket 0 0\n",
        output: "ok\nok\nok\nscanned 4\nok\nok\nstat shared=0 sharing=0 unshared=0 volatile=2 chains=0 dups=0 full_scans=2\nscanned 2\nstat shared=1 sharing=1 unshared=0 volatile=0 chains=1 dups=2 full_scans=3\nplace 1\n",
        ..ROW
    },
    Row {
        name: "frame_retires",
        frames: 1,
        last_generation: 2,
        input: "reg 0 0 0 aa\ndrop 0 0\nreg 0 0 0 aa\ndrop 0 0\nreg 0 0 0 aa\n",
        output: "ok\nok\nok\nok\nrefused 4\n",
        ..ROW
    },
    Row {
        name: "stale_dup_makes_room",
        frames: 3,
        input: "reg 0 0 0 aa\nreg 0 1 0 aa\nset run 1\nscan 4\nput 0 0 a1\nput 0 1 a1\nscan 4\nput 0 0 a2\nput 0 1 a2\nscan 4\nput 0 0 a3\nput 0 1 a3\nscan 4\nstat\n",
        output: "ok\nok\nok\nscanned 4\nok\nok\nscanned 4\nok\nok\nscanned 4\nok\nok\nscanned 4\nstat shared=1 sharing=1 unshared=0 volatile=0 chains=0 dups=0 full_scans=8\n",
        ..ROW
    },
    // The limit, chains and the reverse map.
    Row {
        name: "limit_boundary",
        input: "set max_page_sharing 2\nreg 0 0 0 aa\nreg 0 1 0 aa\nreg 0 2 0 aa\nreg 0 3 0 aa\nset run 1\nscan 8\nstat\n",
        output: "ok\nok\nok\nok\nok\nok\nscanned 8\nstat shared=2 sharing=2 unshared=0 volatile=0 chains=1 dups=2 full_scans=2\n",
        ..ROW
    },
    Row {
        name: "fifth_page_waits",
        frames: 8,
        input: "set max_page_sharing 2\nreg 0 0 0 aa\nreg 0 1 0 aa\nreg 0 2 0 aa\nreg 0 3 0 aa\nreg 0 4 0 aa\nset run 1\nscan 10\nstat\n",
        output: "ok\nok\nok\nok\nok\nok\nok\nscanned 10\nstat shared=2 sharing=2 unshared=1 volatile=0 chains=1 dups=2 full_scans=2\n",
        ..ROW
    },
    Row {
        name: "chain_after_two_writes",
        input: "set max_page_sharing 2\nreg 0 0 0 aa\nreg 0 1 0 aa\nreg 0 2 0 aa\nreg 0 3 0 aa\nset run 1\nscan 8\nstat\nput 0 0 bb\nput 0 1 cc\nstat\nprune\nstat\n",
        output: "ok\nok\nok\nok\nok\nok\nscanned 8\nstat shared=2 sharing=2 unshared=0 volatile=0 chains=1 dups=2 full_scans=2\nok\nok\nstat shared=1 sharing=1 unshared=0 volatile=2 chains=1 dups=2 full_scans=2\npruned 1\nstat shared=1 sharing=1 unshared=0 volatile=2 chains=0 dups=0 full_scans=2\n",
        ..ROW
    },
    Row {
        name: "fullest_dup_is_joined",
        frames: 8,
        input: "set max_page_sharing 3\nreg 0 0 0 aa\nreg 0 1 0 aa\nreg 0 2 0 aa\nreg 0 3 0 aa\nreg 0 4 0 aa\nreg 0 5 0 aa\nset run 1\nscan 12\ndrop 0 0\ndrop 0 1\ndrop 0 3\nreg 0 9 0 aa\nscan 4\nticket 0 9\nstat\nrmap 0\nrmap 1\nrmap 2\n",
        output: "ok\nok\nok\nok\nok\nok\nok\nok\nscanned 12\nok\nok\nok\nok\nscanned 4\nplace 1\nstat shared=2 sharing=2 unshared=0 volatile=0 chains=1 dups=2 full_scans=3\nrmap 0:2\nrmap 0:4 0:5 0:9\nrefused 10\n",
        ..ROW
    },
    // Knobs, and trees by node.
    Row {
        name: "nodes_kept_apart",
        nodes: 2,
        frames: 2,
        input: "set merge_across_nodes 0\nreg 0 0 0 aa\nreg 1 0 1 aa\nset run 1\nscan 4\nstat\n",
        output: "ok\nok\nok\nok\nscanned 4\nstat shared=0 sharing=0 unshared=2 volatile=0 chains=0 dups=0 full_scans=2\n",
        ..ROW
    },
    Row {
        name: "knob_waits_for_unmerging",
        input: "reg 0 0 0 aa\nreg 0 1 0 aa\nset run 1\nscan 4\nset merge_across_nodes 0\nset run 2\nset merge_across_nodes 0\nshow merge_across_nodes\nstat\n",
        output: "ok\nok\nok\nscanned 4\nrefused 6\nunmerged 2\nok\n0\nstat shared=0 sharing=0 unshared=0 volatile=2 chains=0 dups=0 full_scans=2\n",
        ..ROW
    },
    Row {
        name: "refusals_of_commands",
        input: "set max_page_sharing 1\nscan 1\nput 5 5 aa\nreg 0 0 1 aa\nreg 0 0 0 aa\nreg 0 0 0 bb\n",
        output: "refused 7\nrefused 5\nrefused 2\nrefused 11\nok\nrefused 3\n",
        ..ROW
    },
    Row {
        name: "scan_of_pages_to_scan",
        input: "reg 0 0 0 aa\nreg 0 1 0 aa\nset run 1\nscan 4\nset pages_to_scan 0\nset pages_to_scan 3\nscan\nshow pages_to_scan\nstat\n",
        output: "ok\nok\nok\nscanned 4\nrefused 7\nok\nscanned 3\n3\nstat shared=1 sharing=1 unshared=0 volatile=0 chains=0 dups=0 full_scans=3\n",
        ..ROW
    },
    // Empty pages are mapped from the zero page, where the knob says so.
    Row {
        name: "empty_pages_become_zero",
        input: "set use_zero_pages 1\nreg 0 0 0 00\nreg 0 1 0 00\nreg 0 2 0 00\nset run 1\nscan 6\nstat\nshow ksm_zero_pages\nput 0 1 00\nshow ksm_zero_pages\nscan 3\nshow ksm_zero_pages\n",
        output: "ok\nok\nok\nok\nok\nscanned 6\nstat shared=0 sharing=0 unshared=0 volatile=0 chains=0 dups=0 full_scans=2\n3\nok\n2\nscanned 3\n3\n",
        ..ROW
    },
    Row {
        name: "zero_pages_and_no_frame",
        nodes: 1,
        frames: 2,
        input: "set use_zero_pages 1\nreg 0 0 0 00\nreg 0 1 0 00\nset run 1\nscan 4\nreg 0 2 0 11\nreg 0 3 0 22\nput 0 0 05\nget 0 0\nunmerge 0\nset run 2\nshow run\nset use_zero_pages 2\n",
        output: "ok\nok\nok\nok\nscanned 4\nok\nok\nrefused 4\n[00]\nunmerged 0 refused 4\nunmerged 0 refused 4\n0\nrefused 7\n",
        ..ROW
    },
    Row {
        name: "open_dup_before_zero_page",
        input: "reg 0 0 0 00\nreg 0 1 0 00\nset run 1\nscan 4\nset use_zero_pages 1\nreg 0 2 0 00\nscan 3\nstat\nshow ksm_zero_pages\n",
        output: "ok\nok\nok\nscanned 4\nok\nok\nscanned 3\nstat shared=1 sharing=2 unshared=0 volatile=0 chains=0 dups=0 full_scans=3\n0\n",
        ..ROW
    },
    Row {
        name: "zero_pages_are_shown_and_not_set",
        input: "show use_zero_pages\nshow ksm_zero_pages\nset use_zero_pages 1\nshow use_zero_pages\n",
        output: "0\n0\nok\n1\n",
        ..ROW
    },
    // Pages are unmerged, and are mergeable again.
    Row {
        name: "unmerging_runs_out_of_frames",
        frames: 3,
        input: "reg 0 0 0 aa\nreg 0 1 0 aa\nreg 0 2 0 aa\nset run 1\nscan 6\nreg 0 3 0 bb\nunmerge 0\nstat\nset run 2\nshow run\n",
        output: "ok\nok\nok\nok\nscanned 6\nok\nunmerged 1 refused 4\nstat shared=1 sharing=1 unshared=0 volatile=1 chains=0 dups=0 full_scans=2\nunmerged 0 refused 4\n0\n",
        ..ROW
    },
    Row {
        name: "mergeable_again",
        input: "reg 0 0 0 aa\nreg 0 1 0 aa\nset run 1\nscan 4\nunmerge 0\nscan 2\nmergeable 0\nscan 4\nstat\nmergeable 7\nunmerge 7\n",
        output: "ok\nok\nok\nscanned 4\nunmerged 2\nscanned 0\nok\nscanned 4\nstat shared=1 sharing=1 unshared=0 volatile=0 chains=1 dups=2 full_scans=4\nrefused 2\nrefused 2\n",
        ..ROW
    },
    // Pages and dups move.
    Row {
        name: "moved_page_leaves_its_dup",
        nodes: 2,
        input: "reg 0 0 0 aa\nreg 0 1 0 aa\nset run 1\nscan 4\nmove 0 0 1\nticket 0 0\nticket 0 1\nstat\nget 0 0\n",
        output: "ok\nok\nok\nscanned 4\nok\nprivate\nplace 0\nstat shared=1 sharing=0 unshared=0 volatile=1 chains=0 dups=0 full_scans=2\n[aa]\n",
        ..ROW
    },
    Row {
        name: "dup_moves_within_its_node",
        nodes: 2,
        input: "set merge_across_nodes 0\nreg 0 0 0 aa\nreg 0 1 0 aa\nset run 1\nscan 4\nmovedup 0 1\nmovedup 0 0\nget 0 0\nmovedup 3 0\nmovedup 0 9\n",
        output: "ok\nok\nok\nok\nscanned 4\nrefused 9\nok\n[aa]\nrefused 10\nrefused 11\n",
        ..ROW
    },
    Row {
        name: "no_frame_everywhere",
        nodes: 2,
        frames: 2,
        input: "reg 0 0 0 aa\nreg 0 1 0 aa\nset run 1\nscan 4\nreg 0 2 0 bb\nput 0 0 cc\nreg 0 3 0 dd\nmovedup 0 0\nunmerge 0\nreg 1 0 1 ee\nreg 1 1 1 ee\nmove 0 2 1\nset run 2\nstat\nscan 1\nget 0 0\n",
        output: "ok\nok\nok\nscanned 4\nok\nrefused 4\nrefused 4\nrefused 4\nunmerged 0 refused 4\nok\nok\nrefused 4\nunmerged 0 refused 4\nstat shared=1 sharing=1 unshared=0 volatile=3 chains=0 dups=0 full_scans=2\nrefused 5\n[aa]\n",
        ..ROW
    },
];

/// Each script writes what its row says, and ends so.
#[test]
fn each_script(rt: HostRuntime) -> Result<(), Fail> {
    play_all(&rt, rt.alloc(), &ROWS)
}

/// None of these is a line of the language.
const BAD_LINES: [&str; 55] = [
    "reg 0 0 0",
    "reg 00 0 0 aa",
    "reg 0 01 0 aa",
    "reg 65536 0 0 aa",
    "reg 0 4294967296 0 aa",
    "reg 0 0 4294967296 aa",
    "reg 0 0 0 aaa",
    "reg 0 0 0 a",
    "reg 0 0 0 ag",
    "reg 0 0 0 0x",
    "reg 0 0 0 aa aa",
    "reg 0 0 aa",
    "reg\t0 0 0 aa",
    "reg 0 0 0\taa",
    " stat",
    "stat ",
    "get  0 0",
    "get 0 0 ",
    "get 0 +0",
    "get 0 -1",
    "get 0 0x1",
    "get 0",
    "get 0 0 0",
    "STAT",
    "stat\r",
    "stats",
    "sta",
    " ",
    "put 0 0",
    "put 0 b",
    "scan -1",
    "scan 1 2",
    "scan 01",
    "set foo 1",
    "set ksm_zero_pages 1",
    "set run",
    "set run 1 1",
    "show",
    "show run 1",
    "find",
    "find 0",
    "find 0 0 0",
    "find 00 0",
    "find 0 4294967296",
    "equal 0 0",
    "equal 0 0 b",
    "equal 0 0 aa aa",
    "look",
    "look 0 0",
    "look -1",
    "leave",
    "leave 0 0",
    "audit 0",
    "audit ",
    "Audit",
];

/// Whether these bytes are none of the lines of the language.
fn is_bad(line: &[u8]) -> bool {
    read_line(line).is_err()
}

/// Each of the bad lines is bad, and no reply comes before.
#[test]
fn every_bad_line(rt: HostRuntime) -> Result<(), Fail> {
    for line in BAD_LINES {
        let row = Row {
            input: line,
            output: "bad line 1\n",
            end: Ok(End::BadLine(1)),
            ..ROW
        };
        assert!(rt;
            is_bad(line.as_bytes()) && plays(&rt, rt.alloc(), row)?,
            "{line:?}"
        );
    }
    Ok(())
}

/// Whether a store of so many digits is a bad line.
fn is_bad_store(alloc: Global, digits: usize) -> Result<bool, AllocError> {
    let mut line = String::from_str(alloc, "put 0 0 ")?;
    line.push_str("1".repeat(alloc, digits)?.as_str())?;
    Ok(is_bad(line.as_bytes()))
}

/// A page is written in two digits or in all, and in no other number of them.
#[test]
fn digits_of_another_length_are_bad(rt: HostRuntime) -> Result<(), Fail> {
    let whole = 16 * PAGE_WORDS;
    for count in 0..whole + 4 {
        let is_page = count == 2 || count == whole;
        assert!(rt; is_bad_store(rt.alloc(), count)? != is_page, "{count}");
    }
    Ok(())
}

/// Empty lines count and have no reply, and nothing behind the newline of a bad line is read.
#[test]
fn lines_are_counted(rt: HostRuntime) -> Result<(), Fail> {
    let mut reader = "\n\nreg 0 0 0 AA\nget 0 0\n\nSTAT\nget 0 0\n".as_bytes();
    let mut more = "get 0 0\n".as_bytes();
    let row = Row {
        output: "ok\n[aa]\nbad line 6\n",
        end: Ok(End::BadLine(6)),
        ..ROW
    };
    let then = (Ok(End::AllRead), "[aa]\n");
    assert!(rt; goes_so(&rt, rt.alloc(), row, &mut reader, &mut more, then)?);
    assert!(rt; reader == "get 0 0\n".as_bytes());
    Ok(())
}

/// Of a line that is too long, 257 bytes are read, and lines are numbered anew in the next run.
#[test]
fn long_lines_are_bad(rt: HostRuntime) -> Result<(), Fail> {
    let long = [b'a'; 300];
    let mut reader = "\n".as_bytes();
    let mut more: &[u8] = &long;
    let then = (Ok(End::BadLine(1)), "bad line 1\n");
    assert!(rt; goes_so(&rt, rt.alloc(), ROW, &mut reader, &mut more, then)?);
    assert!(rt; more.len() == 43);
    Ok(())
}

/// A writer that takes `left` bytes, one a call, and then fails or takes none.
#[derive(Drop)]
struct Narrow {
    taken: Vec<u8>,
    left: usize,
    fails: bool,
}

impl Write for Narrow {
    fn write(&mut self, buf: &[u8]) -> io::Result<usize> {
        if self.left == 0 || buf.is_empty() {
            if self.fails {
                return Err(io::Error::from(io::ErrorKind::Interrupted));
            }
            return Ok(0);
        }
        self.taken.push(buf[0])?;
        self.left -= 1;
        Ok(1)
    }

    fn flush(&mut self) -> io::Result<()> {
        Ok(())
    }
}

/// A reader that gives `left` bytes, one a call, and then fails.
#[derive(Drop)]
struct Broken<'a> {
    bytes: &'a [u8],
    left: usize,
}

impl Read for Broken<'_> {
    fn read(&mut self, buf: &mut [u8]) -> io::Result<usize> {
        if self.left == 0 || self.bytes.is_empty() || buf.is_empty() {
            return Err(io::Error::from(io::ErrorKind::Interrupted));
        }
        buf[0] = self.bytes[0];
        self.bytes = &self.bytes[1..];
        self.left -= 1;
        Ok(1)
    }
}

const LINES: &str = "reg 0 0 0 aa\nreg 0 1 0 aa\nset run 1\nscan 4\nfind 0 0\nlook 0\n";

const REPLIES: &str = "ok\nok\nok\nscanned 4\nheld 0 1\n[aa]\n";

/// Whether a write that fails after so many bytes, or takes none then, has just these, the line was carried out, and no
/// hold is left.
fn writes_until<T: Threads + Wait + Sync>(
    rt: &T,
    alloc: Global,
    left: usize,
    fails: bool,
) -> Result<bool, Fail> {
    let replies = with_pages(alloc, REPLIES)?;
    let mut reader = LINES.as_bytes();
    let mut writer = Narrow {
        taken: Vec::new(alloc),
        left,
        fails,
    };
    let mut again = "leave 0\nreg 0 0 0 aa\n".as_bytes();
    let ended = play_twice(rt, alloc, ROW, &mut reader, &mut writer, &mut again)?;
    let taken = writer.taken.as_slice();
    Ok(
        (ended.0, ended.1) == (Err(RunFault::Write), Ok(End::AllRead))
            && taken.len() == left
            && replies.as_bytes().starts_with(taken)
            && ended.2.as_slice() == "refused 14\nrefused 3\n".as_bytes(),
    )
}

/// At each byte at which a write fails, just the bytes before it stand.
#[test]
fn a_writer_that_fails_at_each_byte(rt: HostRuntime) -> Result<(), Fail> {
    let whole = with_pages(rt.alloc(), REPLIES)?.len();
    for left in 0..whole {
        assert!(rt; writes_until(&rt, rt.alloc(), left, false)?, "{left}");
        assert!(rt; writes_until(&rt, rt.alloc(), left, true)?, "{left}");
    }
    Ok(())
}

/// How many newlines there are.
fn count_lines(bytes: &[u8]) -> usize {
    bytes.iter().filter(|byte| **byte == b'\n').count()
}

/// Whether, where a read fails after so many bytes, just the replies to the whole lines before it stand.
fn reads_until<T: Threads + Wait + Sync>(rt: &T, alloc: Global, left: usize) -> Result<bool, Fail> {
    let replies = with_pages(alloc, REPLIES)?;
    let lines = LINES.as_bytes();
    let mut reader = Broken { bytes: lines, left };
    let mut written = Vec::new(alloc);
    let mut nothing = "".as_bytes();
    let ended = play_twice(rt, alloc, ROW, &mut reader, &mut written, &mut nothing)?;
    let read = lines.len().min(left);
    Ok(
        ended.0 == Err(RunFault::Read)
            && count_lines(written.as_slice()) == count_lines(&lines[..read])
            && replies.as_bytes().starts_with(written.as_slice())
            && (written.is_empty() || written.last() == Some(&b'\n')),
    )
}

/// At each byte at which a read fails, the replies to the whole lines before it stand.
#[test]
fn a_reader_that_fails_at_each_byte(rt: HostRuntime) -> Result<(), Fail> {
    for left in 0..LINES.len() {
        assert!(rt; reads_until(&rt, rt.alloc(), left)?, "{left}");
    }
    Ok(())
}
