//! Two callers with one book, each in a thread of its own: an example for programs in Rattle (the crate's README).
//!
//! Each registers eight pages, all of which read the same. One of them then has them merged, looks the merged frame up,
//! and asks for the counters; neither of these two takes the lock. What it prints is the same in every schedule.
#![tactic(auto)]

ghost use Rattle.std.specs.Prelude.{◌≡◌, ◌<◌, All, vec_len};
ghost use Rattle.ksm_base.specs.Values.{frames_of};

use frame_table::{Found, Pass};
use ksm_base::{Command, Fault, GuestPage, MOST_LIVES, PAGE_WORDS, Shape};
use ksm_shared::{CounterReader, Ksm, Naming, Parts, Row, Share};
use std::io;
use std::marker::Brand;
use std::sync::Wait;
use std::thread::{Threads, join};

const FRAMES: u32 = 16;

const SHAPE: Shape = Shape {
    nodes: 1,
    frames_per_node: FRAMES,
    passes: 2,
    last_generation: MOST_LIVES,
    tries: 64,
};

/// What the program prints: the first word of the merged page, and a row of counters.
#[derive(Clone, Copy)]
struct Told {
    word: Option<u64>,
    row: Option<Row>,
}

// A caller registers eight pages of its guest.
fn register<N: Naming>(rt: &impl Wait, ksm: &Ksm<N>, mut share: Share<N>, guest: u16) -> Share<N> {
    for page in 0..8 {
        let command = Command::Register {
            page: GuestPage { guest, page },
            node: 0,
            bytes: [7; PAGE_WORDS],
        };
        let _ = ksm.carry_out(rt, &mut share, &command);
    }
    share
}

// The first word of the frame that a place names. It takes no lock.
fn first_word<N: Naming>(ksm: &Ksm<N>, pass: Pass, place: u32) -> (Option<u64>, Pass)
    requires own { pass.table ≡ N.parts.frames }
    requires inside { place < frames_of N.parts.frames.shape }
    ensures own { result.1.table ≡ N.parts.frames }
{
    let table = ksm.table();
    match ksm.find(pass, place) {
        Found::Held(mut held) => {
            let word = held.word(table, 0);
            (Some(word), held.leave(table))
        }
        Found::Gone(pass, _) => (None, pass),
        Found::Busy(pass) => (None, pass),
    }
}

// The same by the last of the passes, which comes back.
fn look_up<N: Naming>(ksm: &Ksm<N>, passes: &mut Vec<Pass>, place: u32) -> Option<u64>
    requires own { All (λ p. p.table ≡ N.parts.frames) passes.old.items }
    requires inside { place < frames_of N.parts.frames.shape }
    ensures own { All (λ p. p.table ≡ N.parts.frames) passes.new.items }
    ensures count { vec_len passes.new ≡ vec_len passes.old }
{
    let pass = passes.pop()?;
    let (word, pass) = first_word(ksm, pass, place);
    passes.push_reserved(pass);
    word
}

// Merges the pages, looks the merged frame up, and asks for the counters.
fn merge<N: Naming>(
    rt: &impl Wait,
    ksm: &Ksm<N>,
    passes: &mut Vec<Pass>,
    mut share: Share<N>,
    mut reader: CounterReader<N>,
) -> Told
    requires shape { frames_of N.parts.frames.shape ≡ 16 }
    requires own { All (λ p. p.table ≡ N.parts.frames) passes.old.items }
    ensures own { All (λ p. p.table ≡ N.parts.frames) passes.new.items }
    ensures count { vec_len passes.new ≡ vec_len passes.old }
{
    let _ = ksm.carry_out(rt, &mut share, &Command::SetRun(1));
    let answer = ksm.command(rt, &mut share, &Command::Scan { visits: 64 });
    reader.learn(answer);
    let page = GuestPage { guest: 1, page: 0 };
    let word = match ksm.ticket(rt, &mut share, page) {
        Some(place) if place < FRAMES => look_up(ksm, passes, place),
        _ => None,
    };
    let row = ksm.counters_now(&mut reader);
    Told { word, row }
}

// Two callers register their pages, each in a thread of its own; then one of them has the pages merged.
fn work<N: Naming + Send + Sync, R: Threads + Wait + Sync>(
    rt: &R,
    ksm: &Ksm<N>,
    passes: &mut Vec<Pass>,
    mut shares: Vec<Share<N>>,
    mut readers: Vec<CounterReader<N>>,
) -> Told
    requires shape { frames_of N.parts.frames.shape ≡ 16 }
    requires own { All (λ p. p.table ≡ N.parts.frames) passes.old.items }
    ensures own { All (λ p. p.table ≡ N.parts.frames) passes.new.items }
    ensures count { vec_len passes.new ≡ vec_len passes.old }
{
    let (Some(one), Some(two), Some(reader)) = (shares.pop(), shares.pop(), readers.pop()) else {
        return Told {
            word: None,
            row: None,
        };
    };
    let (share, _) = join(
        rt,
        || register(rt, ksm, one, 1),
        || register(rt, ksm, two, 2),
    );
    merge(rt, ksm, passes, share, reader)
}

// Opens the book, lets the callers at it, and closes it.
fn run<N: Naming + Send + Sync, R: Threads + Wait + Sync>(
    rt: &R,
    parts: Parts,
) -> Result<Told, Fault>
    requires name { parts ≡ N.parts }
    requires shape { parts.frames.shape ≡ SHAPE }
{
    let (ksm, mut passes, shares, readers) = Ksm::<N>::open(parts)?;
    let told = work(rt, &ksm, &mut passes, shares, readers);
    drop(ksm.close(rt, passes));
    Ok(told)
}

fn main(rt: HostRuntime) -> io::Result<()> {
    let Ok(parts) = Parts::open(rt.alloc(), SHAPE, 2) else {
        return println!(rt; "refused");
    };
    match run::<Brand, _>(&rt, parts) {
        Ok(
            Told {
                word: Some(word),
                row: Some(row),
            },
        ) => {
            let Row { number, counters } = row;
            println!(rt; "the merged page begins with {word}")?;
            println!(rt;
                "after {number} commands: {} shared, {} sharing",
                counters.shared, counters.sharing
            )
        }
        _ => println!(rt; "refused"),
    }
}
