//! What is said of bad lines.
use crate::host::{Host, ended};
use ksm_host::Status;
use std::alloc::{AllocError, Global};
use std::sync::Wait;
use std::test::Fail;
use std::thread::Threads;

/// A bad line of each cause but one, and what is said of it, from its column on.
const CAUSES: &str = " stat|1: a space before the first word
look  0|6: two spaces between words
stat |5: a space after the last word
get 0\t0|6: a tab, where words are separated by one space
stat\r|5: a carriage return, where a line ends at a newline alone
staté|5: a byte that no line has: 0xc3
# two pages|1: a comment, which the language does not have
STAT|1: a capital letter in a name: STAT
stats|1: no line begins with this word: stats
get|4: the guest is missing
get 0|6: the page is missing
movedup 0|10: the node is missing
find 0|7: the place is missing
look|5: the pass is missing
set run|8: the value is missing
put 0 0|8: the content is missing
show|5: the knob is missing
stat 0|6: a word more than the line has: 0
get 0 +1|7: a number with a sign: +1
get 00 0|5: a number with a leading zero: 00
get x 0|5: a guest that is not a decimal number: x
get 0 x|7: a page that is not a decimal number: x
move 0 0 x|10: a node that is not a decimal number: x
rmap x|6: a place that is not a decimal number: x
leave x|7: a pass that is not a decimal number: x
scan x|6: a number of visits that is not a decimal number: x
set run x|9: a value that is not a decimal number: x
get 65536 0|5: a guest above 65535: 65536
get 0 4294967296|7: a page above 4294967295: 4294967296
move 0 0 4294967296|10: a node above 4294967295: 4294967296
rmap 4294967296|6: a place above 4294967295: 4294967296
leave 4294967296|7: a pass above 4294967295: 4294967296
scan 4294967296|6: a number of visits above 4294967295: 4294967296
set run 4294967296|9: a value above 4294967295: 4294967296
put 0 0 ag|10: a byte of the content that is not a hexadecimal digit: g
put 0 0 aaa|9: content of neither 2 digits nor 128: aaa
set foo 1|5: no knob has this name: foo
show foo|6: no knob or counter is shown by this name: foo
set ksm_zero_pages 1|5: a counter, which is shown and never set: ksm_zero_pages";

const WORDS: &str = "ksmbook --nodes 1 --frames 1";

/// Whether this is said of the line, with its column, behind the reply.
fn says<T: Threads + Wait + Sync>(
    threads: &T,
    alloc: Global,
    line: &str,
    why: &str,
) -> Result<bool, AllocError> {
    let mut wanted = String::from_str(alloc, "line 1, column ")?;
    wanted.push_str(why)?;
    wanted.push_str("\n")?;
    let ending = ended(threads, Host::new(alloc, WORDS, line, None));
    Ok(ending.is(Status::NotUnderstood, "bad line 1\n", wanted.as_str()))
}

/// Each cause is said.
#[test]
fn each_cause_is_said(rt: HostRuntime) -> Result<(), Fail> {
    for row in CAUSES.split('\n') {
        let Some((line, why)) = row.split_once('|') else {
            return Err(Fail::from("a row"));
        };
        assert!(rt; says(&rt, rt.alloc(), line, why)?, "{line:?}");
    }
    Ok(())
}

/// How many bytes a line has at most.
const LONGEST_LINE: usize = 256;

/// The fortieth cause, which comes before what else is wrong with the line: here each of its bytes is a space too many.
#[test]
fn a_long_line_is_said(rt: HostRuntime) -> Result<(), Fail> {
    let line = " ".repeat(rt.alloc(), 2 * LONGEST_LINE)?;
    let why = "257: the line is longer than 256 bytes";
    assert!(rt; says(&rt, rt.alloc(), line.as_str(), why)?);
    Ok(())
}
