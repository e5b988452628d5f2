//! Audits of a shared book: their rows while a frame is named, dying and given again, a held worker, and a gate that
//! refuses.
ghost use Rattle.std.specs.Prelude.{◌≡◌, ◌<◌, All, vec_len};

use crate::books::{Trial, in_book};
use crate::commands::all_done;
use frame_table::{Pass, Why};
use ksm_audit::{AuditFault, Gate, OpenGate, PlacePermit, Report, Row, audit};
use ksm_base::{Command, GuestPage, PAGE_WORDS, PageBytes, Shape};
use ksm_shared::{Ksm, Naming, Parts, Share};
use std::alloc::Global;
use std::sync::Wait;
use std::sync::atomic::{AtomicU64, Ordering};
use std::test::Fail;
use std::thread::{Threads, yield_now};

// One node with four frames, and two passes.
const SHAPE: Shape = Shape {
    nodes: 1,
    frames_per_node: 4,
    passes: 2,
    last_generation: 5,
    tries: 8,
};

// A page of guest 0.
fn at(page: u32) -> GuestPage {
    GuestPage { guest: 0, page }
}

// A page whose first word is 7, and each further word one more.
fn page() -> PageBytes {
    let mut page = [0; PAGE_WORDS];
    for (i, word) in page.iter_mut().enumerate() {
        *word = (i as u64).wrapping_add(7);
    }
    page
}

fn register(number: u32, bytes: PageBytes) -> Command {
    Command::Register {
        page: at(number),
        node: 0,
        bytes,
    }
}

fn store(number: u32, word: u64) -> Command {
    Command::Store {
        page: at(number),
        bytes: [word; PAGE_WORDS],
    }
}

// Two pages are merged at the place 0, on the frame 0.
fn first_book<N: Naming>(rt: &impl Wait, ksm: &Ksm<N>, share: &mut Share<N>) -> bool {
    let scan = Command::Scan { visits: 4 };
    let commands = [
        register(0, page()),
        register(1, page()),
        Command::SetRun(1),
        scan,
    ];
    all_done(rt, ksm, share, &commands)
}

// Both pages are written, so the frame 0 dies.
fn second_book<N: Naming>(rt: &impl Wait, ksm: &Ksm<N>, share: &mut Share<N>) -> bool {
    all_done(rt, ksm, share, &[store(0, 1), store(1, 2)])
}

// The frame 0 is given again, to a further page.
fn third_book<N: Naming>(rt: &impl Wait, ksm: &Ksm<N>, share: &mut Share<N>) -> bool {
    all_done(rt, ksm, share, &[register(2, [3; PAGE_WORDS])])
}

// How an audit ended.
#[derive(Drop)]
pub enum Ending {
    Rows(Report),
    Memory,
    Gate(u32),
}

impl Ending {
    pub fn has(&self, rows: &[Row]) -> bool {
        match self {
            Ending::Rows(report) => report.rows() == rows,
            Ending::Memory => false,
            Ending::Gate(_) => false,
        }
    }

    fn refused(&self, place: u32) -> bool {
        match self {
            Ending::Rows(_) => false,
            Ending::Memory => false,
            Ending::Gate(at) => *at == place,
        }
    }
}

pub fn audit_once<N: Naming, R: Threads + Sync, G: Gate + Sync>(
    rt: &R,
    alloc: Global,
    ksm: &Ksm<N>,
    passes: Vec<Pass>,
    gate: &G,
) -> (Ending, Vec<Pass>)
    requires some { 0 < vec_len passes }
    requires own { All (λ p. p.table ≡ N.parts.frames) passes.items }
    ensures count { vec_len result.1 ≡ vec_len passes }
    ensures own { All (λ p. p.table ≡ N.parts.frames) result.1.items }
{
    match audit(rt, alloc, ksm, passes, gate) {
        Ok((report, passes)) => (Ending::Rows(report), passes),
        Err(AuditFault::Memory(passes)) => (Ending::Memory, passes),
        Err(AuditFault::Gate(passes, place)) => (Ending::Gate(place), passes),
    }
}

// An audit through the open gate, which refuses no place, made again where memory was refused. Whether it shows these
// rows.
fn audit_shows<N: Naming, R: Threads + Sync>(
    rt: &R,
    alloc: Global,
    ksm: &Ksm<N>,
    passes: Vec<Pass>,
    rows: &[Row],
) -> (bool, Vec<Pass>)
    requires some { 0 < vec_len passes }
    requires own { All (λ p. p.table ≡ N.parts.frames) passes.items }
    ensures count { vec_len result.1 ≡ vec_len passes }
    ensures own { All (λ p. p.table ≡ N.parts.frames) result.1.items }
{
    match audit_once(rt, alloc, ksm, passes, &OpenGate) {
        (Ending::Memory, passes) => {
            let (ending, passes) = audit_once(rt, alloc, ksm, passes, &OpenGate);
            (ending.has(rows), passes)
        }
        (ending, passes) => (ending.has(rows), passes),
    }
}

// The row of the first place, and nothing at the others.
fn rows(first: Row) -> [Row; 4] {
    let vacant = Row::Gone(Why::Vacant);
    [first, vacant, vacant, vacant]
}

/// Whether audits show the dup while it is there, its dead frame, and nothing in the frame's next life.
pub fn three_audits<N: Naming, R: Threads + Wait + Sync>(
    rt: &R,
    alloc: Global,
    ksm: &Ksm<N>,
    passes: Vec<Pass>,
    share: &mut Share<N>,
) -> (bool, Vec<Pass>)
    requires some { 0 < vec_len passes }
    requires own { All (λ p. p.table ≡ N.parts.frames) passes.items }
    ensures count { vec_len result.1 ≡ vec_len passes }
    ensures own { All (λ p. p.table ≡ N.parts.frames) result.1.items }
{
    let found = Row::Found {
        generation: 1,
        bytes: page(),
    };
    let first = first_book(rt, ksm, share);
    let (held, passes) = audit_shows(rt, alloc, ksm, passes, &rows(found));
    let second = second_book(rt, ksm, share);
    let (dead, passes) = audit_shows(rt, alloc, ksm, passes, &rows(Row::Gone(Why::Zero)));
    let third = third_book(rt, ksm, share);
    let (reborn, passes) = audit_shows(rt, alloc, ksm, passes, &rows(Row::Gone(Why::Generation)));
    (first && held && second && dead && third && reborn, passes)
}

#[test]
fn rows_of_three_books(rt: HostRuntime) -> Result<(), Fail> {
    let parts = Parts::open(rt.alloc(), SHAPE, 1)?;
    let outcome = in_book(&rt, rt.alloc(), parts, Trial::ThreeAudits)?;
    assert!(rt; outcome.right && outcome.count == 1);
    Ok(())
}

// Holds each lookup of one worker until the other one has answered, for a number of turns.
#[derive(Drop)]
struct Turns {
    held: u32,
    answered: AtomicU64,
}

const TURNS: u32 = 10_000_000;

impl Gate for Turns {
    type Permit = PlacePermit;

    ghost use Rattle.std.specs.Prelude.{ℕ};

    ghost may_refuse = { λ _ _. Unit {0} };

    ghost place_of = { λ permit. permit.place };

    fn before(&self, worker: u32, place: u32) -> Option<PlacePermit> {
        if worker != self.held {
            return Some(PlacePermit { place });
        }
        for _ in 0..TURNS {
            if self.answered.load(Ordering::SeqCst) > 0 {
                return Some(PlacePermit { place });
            }
            yield_now();
        }
        None
    }

    fn after(&self, worker: u32, _place: u32, permit: PlacePermit) {
        let PlacePermit { place: _ } = permit;
        if worker != self.held {
            self.answered.fetch_add(1, Ordering::SeqCst);
        }
    }
}

/// Whether an audit of an opening book by two workers gives its rows where one of them is held.
pub fn held_audit<N: Naming, R: Threads + Sync>(
    rt: &R,
    alloc: Global,
    ksm: &Ksm<N>,
    passes: Vec<Pass>,
    held: u32,
) -> (bool, Vec<Pass>)
    requires some { 0 < vec_len passes }
    requires own { All (λ p. p.table ≡ N.parts.frames) passes.items }
    ensures count { vec_len result.1 ≡ vec_len passes }
    ensures own { All (λ p. p.table ≡ N.parts.frames) result.1.items }
{
    let gate = Turns {
        held,
        answered: AtomicU64::new(0),
    };
    let (ending, passes) = audit_once(rt, alloc, ksm, passes, &gate);
    (ending.has(&rows(Row::Gone(Why::Vacant))), passes)
}

// On one thread a worker would wait for another that has not begun.
#[test]
fn each_worker_answers_while_the_other_is_held(rt: HostRuntime) -> Result<(), Fail> {
    for held in 0..2 {
        let parts = Parts::open(rt.alloc(), SHAPE, 1)?;
        assert!(rt; in_book(&rt, rt.alloc(), parts, Trial::Held(held))?.right);
    }
    Ok(())
}

// Refuses one place, and counts what it is asked and told.
#[derive(Drop)]
struct Refuses {
    place: u32,
    asked: AtomicU64,
    told: AtomicU64,
}

impl Gate for Refuses {
    type Permit = PlacePermit;

    ghost use Rattle.std.specs.Prelude.{◌≡◌, ℕ};

    ghost may_refuse = { λ gate place. place ≡ gate.place };

    ghost place_of = { λ permit. permit.place };

    fn before(&self, _worker: u32, place: u32) -> Option<PlacePermit> {
        self.asked.fetch_add(1, Ordering::SeqCst);
        if place == self.place {
            None
        } else {
            Some(PlacePermit { place })
        }
    }

    fn after(&self, _worker: u32, _place: u32, permit: PlacePermit) {
        let PlacePermit { place: _ } = permit;
        self.told.fetch_add(1, Ordering::SeqCst);
    }
}

/// Whether an audit that the gate refuses the place 2 says so, having asked three times and told twice.
pub fn refused_audit<N: Naming, R: Threads + Sync>(
    rt: &R,
    alloc: Global,
    ksm: &Ksm<N>,
    passes: Vec<Pass>,
) -> (bool, Vec<Pass>)
    requires some { 0 < vec_len passes }
    requires own { All (λ p. p.table ≡ N.parts.frames) passes.items }
    ensures count { vec_len result.1 ≡ vec_len passes }
    ensures own { All (λ p. p.table ≡ N.parts.frames) result.1.items }
{
    let gate = Refuses {
        place: 2,
        asked: AtomicU64::new(0),
        told: AtomicU64::new(0),
    };
    let (ending, passes) = audit_once(rt, alloc, ksm, passes, &gate);
    let asked = gate.asked.load(Ordering::SeqCst);
    let told = gate.told.load(Ordering::SeqCst);
    (ending.refused(2) && asked == 3 && told == 2, passes)
}

// With one pass, places are asked for in order, up to the one refused.
#[test]
fn a_refusal_ends_the_audit(rt: HostRuntime) -> Result<(), Fail> {
    let shape = Shape { passes: 1, ..SHAPE };
    let parts = Parts::open(rt.alloc(), shape, 1)?;
    assert!(rt; in_book(&rt, rt.alloc(), parts, Trial::Refused)?.right);
    Ok(())
}
