//! Rows of counters, as readers are shown them with no lock: after each command, for long, by each of sixteen readers,
//! while a caller stores.
use crate::books::{Trial, in_book};
use crate::commands::{DONE, SHAPE, TWO_MERGED, all_done, register, said, store};
use ksm_base::{Command, Fault, Shape};
use ksm_shared::{Answer, CounterReader, Ksm, Naming, Parts, Row, Share};
use std::sync::Wait;
use std::test::Fail;
use std::thread::{Threads, join};

// How many pages the counters of a row tell of.
fn pages_of(row: Row) -> u64 {
    let counted = row.counters;
    let merged = counted.shared.saturating_add(counted.sharing);
    let others = counted.unshared.saturating_add(counted.volatile);
    merged.saturating_add(others).saturating_add(counted.zero)
}

// The row that a reader is shown.
fn shown<N: Naming>(ksm: &Ksm<N>, reader: &mut CounterReader<N>) -> Option<Row> {
    ksm.counters_now(reader)
}

// Merges two pages by four commands. Answers what the second and the fourth told, if each told of one command more.
fn two_told<N: Naming>(
    rt: &impl Wait,
    ksm: &Ksm<N>,
    share: &mut Share<N>,
) -> Option<(Answer<N>, Answer<N>)> {
    let first = said(rt, ksm, share, register(0, 0, 0xaa));
    let second = said(rt, ksm, share, register(0, 1, 0xaa));
    let third = said(rt, ksm, share, Command::SetRun(1));
    let fourth = said(rt, ksm, share, Command::Scan { visits: 4 });
    let rows = [first.row(), second.row(), third.row(), fourth.row()];
    (rows == [1, 2, 3, 4]).then_some((second, fourth))
}

// The row of so many entries once two pages are merged.
fn row_of(number: u64) -> Option<Row> {
    Some(Row {
        number,
        counters: TWO_MERGED,
    })
}

/// What callers learn of five commands: whether the reader is shown the rows that they tell of.
pub fn learns<N: Naming>(
    rt: &impl Wait,
    ksm: &Ksm<N>,
    share: &mut Share<N>,
    readers: &mut [CounterReader<N>],
) -> bool {
    let Some(reader) = readers.first_mut() else {
        return false;
    };
    let Some((second, fourth)) = two_told(rt, ksm, share) else {
        return false;
    };
    reader.learn(fourth);
    let merged = shown(ksm, reader);
    let fifth = said(rt, ksm, share, register(0, 0, 0xaa));
    let refused = fifth.row() == 5 && fifth.result() == Err(Fault::AlreadyRegistered);
    reader.learn(fifth);
    reader.learn(second);
    refused && merged == row_of(4) && shown(ksm, reader) == row_of(5)
}

// Each answer tells of one command more, and a row is not older than an answer that was learnt.
#[test]
fn answers_tell_the_newest_row(rt: HostRuntime) -> Result<(), Fail> {
    let shape = Shape {
        frames_per_node: 4,
        ..SHAPE
    };
    let parts = Parts::open(rt.alloc(), shape, 1)?;
    assert!(rt; in_book(&rt, rt.alloc(), parts, Trial::Learns)?.right);
    Ok(())
}

const MANY: u64 = 5_000;

/// After each of so many stores a reader that learnt nothing should be shown the journal's row. Whether it always was.
pub fn goes_on<N: Naming>(
    rt: &impl Wait,
    ksm: &Ksm<N>,
    share: &mut Share<N>,
    readers: &mut [CounterReader<N>],
) -> bool {
    let Some(reader) = readers.first_mut() else {
        return false;
    };
    let mut behind = 0u64;
    for entries in 1..MANY {
        let byte = (entries % 250) as u8;
        said(rt, ksm, share, store(0, 0, byte));
        let number = shown(ksm, reader).map(|row| row.number);
        if number != Some(entries) {
            behind = behind.saturating_add(1);
        }
    }
    behind == 0
}

// Each of many commands is published by itself, however long the journal is. Every store here is refused, as its page
// is not there.
#[test]
fn rows_go_on(rt: HostRuntime) -> Result<(), Fail> {
    let parts = Parts::open(rt.alloc(), SHAPE, 1)?;
    assert!(rt; in_book(&rt, rt.alloc(), parts, Trial::GoesOn)?.right);
    Ok(())
}

// Whether each reader is shown the row of so many entries and pages.
fn all_see<N: Naming>(ksm: &Ksm<N>, readers: &mut [CounterReader<N>], count: u64) -> bool {
    let mut all = true;
    for reader in readers {
        all &= match shown(ksm, reader) {
            Some(row) => row.number == count && pages_of(row) == count,
            None => false,
        };
    }
    all
}

/// Each of sixteen callers registers a page, and each of as many readers sees it.
pub fn sixteen_see<N: Naming>(
    rt: &impl Wait,
    ksm: &Ksm<N>,
    shares: Vec<Share<N>>,
    readers: &mut [CounterReader<N>],
) -> bool {
    let mut count = 0u32;
    let mut all = readers.len() == 16;
    for mut share in shares {
        all &= all_see(ksm, readers, u64::from(count));
        all &= said(rt, ksm, &mut share, register(0, count, 1)).result() == DONE;
        count = count.saturating_add(1);
    }
    all & (count == 16) & all_see(ksm, readers, u64::from(count))
}

// In a book of sixteen callers each reader is shown each row.
#[test]
fn sixteen_readers_see_each_row(rt: HostRuntime) -> Result<(), Fail> {
    let shape = Shape {
        frames_per_node: 16,
        ..SHAPE
    };
    let parts = Parts::open(rt.alloc(), shape, 16)?;
    assert!(rt; in_book(&rt, rt.alloc(), parts, Trial::Sixteen)?.right);
    Ok(())
}

/// Whether there are no readers, and answers tell the newest row all the same.
pub fn unread<N: Naming>(
    rt: &impl Wait,
    ksm: &Ksm<N>,
    share: &mut Share<N>,
    readers: &mut [CounterReader<N>],
) -> bool {
    let first = said(rt, ksm, share, register(0, 0, 0xaa)).row();
    let second = said(rt, ksm, share, store(0, 0, 1)).row();
    (readers.len(), first, second) == (0, 1, 2)
}

// A book with no readers publishes nothing, and its answers tell the newest row all the same.
#[test]
fn a_book_without_readers_counts_on(rt: HostRuntime) -> Result<(), Fail> {
    let parts = Parts::open(rt.alloc(), SHAPE, 1)?.unread();
    assert!(rt; in_book(&rt, rt.alloc(), parts, Trial::Unread)?.right);
    Ok(())
}

// Registers and merges three pages.
fn merge_three<N: Naming>(rt: &impl Wait, ksm: &Ksm<N>, share: &mut Share<N>) -> bool {
    let scan = Command::Scan { visits: 6 };
    let commands = [
        register(0, 0, 7),
        register(0, 1, 7),
        register(0, 2, 7),
        Command::SetRun(1),
        scan,
    ];
    all_done(rt, ksm, share, &commands)
}

// 200 stores, to three pages in turn. The last answer tells the newest row.
fn store_on<N: Naming>(rt: &impl Wait, ksm: &Ksm<N>, share: &mut Share<N>) -> u64 {
    let mut newest = 0;
    for j in 0..200u32 {
        newest = said(rt, ksm, share, store(0, j % 3, (j % 250) as u8)).row();
    }
    newest
}

// Asks 200 times. Answers whether there was a row each time, no number fell, and each row told of all three pages.
fn ask_on<N: Naming>(ksm: &Ksm<N>, reader: &mut CounterReader<N>) -> bool {
    let mut last = 5;
    for _ in 0..200 {
        let Some(row) = shown(ksm, reader) else {
            return false;
        };
        if row.number < last || pages_of(row) != 3 {
            return false;
        }
        last = row.number;
    }
    true
}

/// One thread stores while another asks; then both readers, which learnt nothing, are shown the whole journal's row.
pub fn watches<N: Naming + Send + Sync, R: Threads + Wait + Sync>(
    rt: &R,
    ksm: &Ksm<N>,
    share: &mut Share<N>,
    readers: &mut [CounterReader<N>],
) -> bool {
    let [one, two] = readers else {
        return false;
    };
    if !merge_three(rt, ksm, share) {
        return false;
    }
    let (newest, right) = join(rt, || store_on(rt, ksm, share), || ask_on(ksm, one));
    let first = shown(ksm, one).map(|row| row.number);
    let second = shown(ksm, two).map(|row| row.number);
    right && (newest, first, second) == (205, Some(205), Some(205))
}

// Rows are whole and never go back while another thread commands, and the newest is shown once its command has
// returned.
#[test]
fn rows_are_shown_with_no_lock(rt: HostRuntime) -> Result<(), Fail> {
    let parts = Parts::open(rt.alloc(), SHAPE, 2)?;
    assert!(rt; in_book(&rt, rt.alloc(), parts, Trial::Watches)?.right);
    Ok(())
}
