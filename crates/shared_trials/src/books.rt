//! A book that a test opens, tries and closes.
ghost use Rattle.std.specs.Prelude.{◌≡◌, ◌<◌, All, vec_len};
ghost use Rattle.ksm_base.specs.Values.{frames_of};

use crate::audits::{held_audit, refused_audit, three_audits};
use crate::callers::{entries_told, four_work, leaves, reads};
use crate::gates::moves;
use crate::lookups::looks;
use crate::rows::{goes_on, learns, sixteen_see, unread, watches};
use frame_table::{ClosedTable, Pass};
use ksm_base::Fault;
use ksm_shared::{CounterReader, Ksm, Naming, Parts, Share, Tally, gather};
use std::alloc::Global;
use std::marker::Brand;
use std::sync::Wait;
use std::thread::Threads;

/// What is tried on a book that was just opened.
#[derive(Clone, Copy)]
pub enum Trial {
    FourWork,
    Reads,
    Entries(bool),
    Leaves,
    Learns,
    GoesOn,
    Sixteen,
    Unread,
    Watches,
    Looks,
    ThreeAudits,
    Held(u32),
    Refused,
    Moves,
}

/// With what a book is closed.
#[derive(Drop)]
enum End<N: Naming> {
    Plain,
    Seen(Share<N>),
    Gathered(Tally<N>),
}

/// Whether all went as it should, how many entries the shares told together, if they were gathered, and what the first
/// place and the first count say once the book is closed.
#[derive(Clone, Copy)]
pub struct Outcome {
    pub right: bool,
    pub entries: u64,
    pub place: u64,
    pub count: u64,
}

// Trials by one caller, with no pass.
fn by_one<N: Naming + Send + Sync, R: Threads + Wait + Sync>(
    rt: &R,
    alloc: Global,
    ksm: &Ksm<N>,
    trial: Trial,
    share: &mut Share<N>,
    readers: &mut [CounterReader<N>],
) -> bool {
    match trial {
        Trial::Reads => reads(rt, alloc, ksm, share),
        Trial::Entries(kept) => entries_told(rt, ksm, share, kept),
        Trial::Leaves => leaves(rt, ksm, share),
        Trial::Learns => learns(rt, ksm, share, readers),
        Trial::GoesOn => goes_on(rt, ksm, share, readers),
        Trial::Unread => unread(rt, ksm, share, readers),
        Trial::Watches => watches(rt, ksm, share, readers),
        _ => false,
    }
}

// The same, and with what the book is closed then.
fn ended_by_one<N: Naming + Send + Sync, R: Threads + Wait + Sync>(
    rt: &R,
    alloc: Global,
    ksm: &Ksm<N>,
    trial: Trial,
    mut share: Share<N>,
    readers: &mut [CounterReader<N>],
) -> (bool, End<N>) {
    let right = by_one(rt, alloc, ksm, trial, &mut share, readers);
    match trial {
        Trial::Reads => (right, gathered(rt, alloc, ksm, share)),
        Trial::Leaves => (right, End::Seen(share)),
        _ => (right, End::Plain),
    }
}

// The end with the entries of the one share.
fn gathered<N: Naming>(rt: &impl Wait, alloc: Global, ksm: &Ksm<N>, share: Share<N>) -> End<N> {
    let mut shares = Vec::new(alloc);
    if shares.push(share).is_err() {
        return End::Plain;
    }
    match gather(rt, ksm, shares) {
        Ok(tally) => End::Gathered(tally),
        Err(_) => End::Plain,
    }
}

// Trials with no pass.
fn by_calls<N: Naming + Send + Sync, R: Threads + Wait + Sync>(
    rt: &R,
    alloc: Global,
    ksm: &Ksm<N>,
    trial: Trial,
    mut shares: Vec<Share<N>>,
    mut readers: Vec<CounterReader<N>>,
) -> (bool, End<N>) {
    let readers = readers.as_mut_slice();
    match trial {
        Trial::FourWork => match four_work(rt, ksm, shares) {
            Some(tally) => (true, End::Gathered(tally)),
            None => (false, End::Plain),
        },
        Trial::Sixteen => (sixteen_see(rt, ksm, shares, readers), End::Plain),
        _ => match shares.pop() {
            Some(share) => ended_by_one(rt, alloc, ksm, trial, share, readers),
            None => (false, End::Plain),
        },
    }
}

// Trials with passes, which it hands back.
fn by_passes<N: Naming + Send + Sync, R: Threads + Wait + Sync>(
    rt: &R,
    alloc: Global,
    ksm: &Ksm<N>,
    trial: Trial,
    mut share: Share<N>,
    passes: Vec<Pass>,
) -> (bool, Vec<Pass>)
    requires passes { All (λ p. p.table ≡ N.parts.frames) passes.items }
    requires some { 0 < vec_len passes }
    requires places { 0 < frames_of N.parts.frames.shape }
    ensures count { vec_len result.1 ≡ vec_len passes }
    ensures own { All (λ p. p.table ≡ N.parts.frames) result.1.items }
{
    match trial {
        Trial::Looks => looks(rt, ksm, passes, &mut share),
        Trial::ThreeAudits => three_audits(rt, alloc, ksm, passes, &mut share),
        Trial::Held(worker) => held_audit(rt, alloc, ksm, passes, worker),
        Trial::Refused => refused_audit(rt, alloc, ksm, passes),
        Trial::Moves => moves(rt, alloc, ksm, passes, share),
        _ => (false, passes),
    }
}

// Each trial, which hands the passes back.
fn goes<N: Naming + Send + Sync, R: Threads + Wait + Sync>(
    rt: &R,
    alloc: Global,
    ksm: &Ksm<N>,
    trial: Trial,
    passes: Vec<Pass>,
    mut shares: Vec<Share<N>>,
    readers: Vec<CounterReader<N>>,
) -> (bool, End<N>, Vec<Pass>)
    requires passes { All (λ p. p.table ≡ N.parts.frames) passes.items }
    requires places { 0 < frames_of N.parts.frames.shape }
    ensures count { vec_len result.2 ≡ vec_len passes }
    ensures own { All (λ p. p.table ≡ N.parts.frames) result.2.items }
{
    match trial {
        Trial::Looks | Trial::ThreeAudits | Trial::Held(_) | Trial::Refused | Trial::Moves => {
            let Some(share) = shares.pop() else {
                return (false, End::Plain, passes);
            };
            if passes.is_empty() {
                return (false, End::Plain, passes);
            }
            let (right, passes) = by_passes(rt, alloc, ksm, trial, share, passes);
            (right, End::Plain, passes)
        }
        _ => {
            let (right, end) = by_calls(rt, alloc, ksm, trial, shares, readers);
            (right, end, passes)
        }
    }
}

// Closes the book. Answers how many entries the shares told together, if they were gathered.
fn closed<N: Naming, R: Wait>(
    rt: &R,
    ksm: Ksm<N>,
    passes: Vec<Pass>,
    end: End<N>,
) -> (ClosedTable, u64)
    requires all { vec_len passes ≡ N.parts.frames.shape.passes }
    requires passes { All (λ p. p.table ≡ N.parts.frames) passes.items }
    ensures { result.0.shape ≡ N.parts.frames.shape }
{
    match end {
        End::Plain => (ksm.close(rt, passes), 0),
        End::Seen(mut share) => (ksm.close_seen(rt, passes, &mut share), 0),
        End::Gathered(tally) => {
            let entries = tally.entries();
            (ksm.close_gathered(rt, passes, tally), entries)
        }
    }
}

// Opens the book of these parts, and closes it after the trial.
fn tried<N: Naming + Send + Sync, R: Threads + Wait + Sync>(
    rt: &R,
    alloc: Global,
    parts: Parts,
    trial: Trial,
) -> Result<Outcome, Fault>
    requires name { parts ≡ N.parts }
    requires places { 0 < frames_of parts.frames.shape }
{
    let (ksm, passes, shares, readers) = Ksm::<N>::open(parts)?;
    let (right, end, passes) = goes(rt, alloc, &ksm, trial, passes, shares, readers);
    let (table, entries) = closed(rt, ksm, passes, end);
    Ok(Outcome {
        right,
        entries,
        place: table.place(0),
        count: table.count(0),
    })
}

/// What a trial comes to on a book of these parts.
pub fn in_book<R: Threads + Wait + Sync>(
    rt: &R,
    alloc: Global,
    parts: Parts,
    trial: Trial,
) -> Result<Outcome, Fault>
    requires { 0 < frames_of parts.frames.shape }
{
    tried::<Brand, _>(rt, alloc, parts, trial)
}
