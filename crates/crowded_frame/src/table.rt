//! One frame and one place, at which sixteen passes and a keeper meet.

ghost use Rattle.std.specs.Prelude.{◌≡◌, ◌+◌, ◌≤◌, All, IsSomeAnd, length, vec_len, vec_capacity};
ghost use Rattle.std.specs.Thread.{IsSync};
ghost use Rattle.ksm_base.specs.Values.{frames_of};
ghost use Rattle.frame_table.specs.Seats.{new_keeper};

use crate::keeper::keep;
use crate::reader::{Reader, read};
use frame_table::{FrameTable, Keeper, Pass};
use ksm_base::{Fault, MOST_LIVES, Shape};
use std::alloc::Global;
use std::thread::{Threads, for_each_mut, join_mut};

const CROWDED: Shape = Shape {
    nodes: 1,
    frames_per_node: 1,
    passes: 16,
    last_generation: MOST_LIVES,
    tries: 1,
};

const PATIENT: Shape = Shape {
    tries: 64,
    ..CROWDED
};

/// What came of the lookups, and the lives that the frame had.
#[derive(Clone, Copy)]
pub struct Seen {
    pub held: u64,
    pub wrong: u64,
    pub lives: u64,
}

// Each reader in a thread of its own.
fn read_all<R: Threads + Sync>(rt: &R, table: &FrameTable, readers: &mut [Reader])
    requires own { All (λ w. IsSomeAnd w.pass (λ p. p.table ≡ table.now)) readers.old }
    requires shape { frames_of table.now.shape ≡ 1 }
    ensures own { All (λ w. IsSomeAnd w.pass (λ p. p.table ≡ table.now)) readers.new }
    ensures count { length readers.new ≡ length readers.old }
{
    for_each_mut(rt, readers, 16, &|_, reader| read(table, reader));
}

// The keeper in one thread more. Tells how many lives the frame had.
fn run_all<R: Threads + Sync>(
    rt: &R,
    table: &FrameTable,
    keeper: &mut Keeper,
    readers: &mut [Reader],
    rounds: u64,
) -> u64
    requires keeper { keeper.old ≡ new_keeper table.now }
    requires own { All (λ w. IsSomeAnd w.pass (λ p. p.table ≡ table.now)) readers.old }
    requires shape { frames_of table.now.shape ≡ 1 }
    ensures keeper { keeper.new.table ≡ table.now }
    ensures own { All (λ w. IsSomeAnd w.pass (λ p. p.table ≡ table.now)) readers.new }
    ensures count { length readers.new ≡ length readers.old }
{
    let (lives, ()) = join_mut(
        rt,
        &mut || keep(table, keeper, rounds),
        &mut || -> ()
            requires { IsSync R.row × All (λ w. IsSomeAnd w.pass (λ p. p.table ≡ table.now)) readers.now × (frames_of table.now.shape ≡ 1) }
            ensures own { All (λ w. IsSomeAnd w.pass (λ p. p.table ≡ table.entry.now)) readers.exit.now }
            ensures count { length readers.exit.now ≡ length readers.entry.now }
        { read_all(rt, table, readers) },
    );
    lives
}

// Takes the passes back, and tells how many lookups were held and how many holds were wrong.
fn take_back(table: &FrameTable, mut readers: Vec<Reader>, passes: &mut Vec<Pass>) -> (u64, u64)
    requires readers { All (λ w. IsSomeAnd w.pass (λ p. p.table ≡ table.now)) readers.items }
    requires passes { All (λ p. p.table ≡ table.now) passes.old.items }
    requires room { vec_len passes.old + vec_len readers ≤ vec_capacity passes.old }
    ensures passes { All (λ p. p.table ≡ table.now) passes.new.items }
    ensures all { vec_len passes.new ≡ vec_len passes.old + vec_len readers }
{
    let mut holds = 0u64;
    let mut wrongs = 0u64;
    while let Some(reader) = readers.pop() {
        let Reader {
            pass,
            lookups: _,
            held,
            wrong,
        } = reader;
        let Some(pass) = pass else { unreachable!() };
        holds = holds.wrapping_add(held);
        wrongs = wrongs.wrapping_add(wrong);
        passes.push_reserved(pass);
    }
    readers.destroy_empty();
    (holds, wrongs)
}

/// So many lookups by each of sixteen passes, and as many rounds of the keeper as all of them together make.
pub fn run<R: Threads + Sync>(
    rt: &R,
    alloc: Global,
    tries: u32,
    lookups: u64,
) -> Result<Seen, Fault> {
    let mut readers = Vec::with_capacity(alloc, 16)?;
    let shape = if tries == 1 { CROWDED } else { PATIENT };
    let (table, mut keeper, mut passes) = match FrameTable::open(alloc, shape) {
        Ok(opened) => opened,
        Err(fault) => {
            readers.destroy_empty();
            return Err(fault);
        }
    };
    while let Some(pass) = passes.pop() {
        readers.push_reserved(Reader {
            pass: Some(pass),
            lookups,
            held: 0,
            wrong: 0,
        });
    }
    let rounds = lookups.saturating_mul(16);
    let lives = run_all(rt, &table, &mut keeper, readers.as_mut_slice(), rounds);
    let (held, wrong) = take_back(&table, readers, &mut passes);
    let _closed = table.close(keeper, passes);
    Ok(Seen { held, wrong, lives })
}
