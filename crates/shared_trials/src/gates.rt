//! A gate is asked before each lookup of an audit and told after it: it moves the dup at the first place both times,
//! which is done only where nobody holds its frame, and the lookup finds the frame of the first move.
ghost use Rattle.std.specs.Prelude.{◌≡◌, ◌<◌, All, vec_len};

use crate::audits::audit_once;
use crate::books::{Trial, in_book};
use crate::commands::{DONE, all_done, filled, merge_two, page, register};
use frame_table::{Pass, Why};
use ksm_audit::{Gate, PlacePermit, Row};
use ksm_base::{Command, Shape};
use ksm_shared::{Ksm, Naming, Parts, Share};
use std::alloc::Global;
use std::sync::atomic::{AtomicU64, Ordering};
use std::sync::{Mutex, MutexGuard, Wait};
use std::test::Fail;
use std::thread::Threads;

// Two nodes with four frames each, and one pass.
const SHAPE: Shape = Shape {
    nodes: 2,
    frames_per_node: 4,
    passes: 1,
    last_generation: 5,
    tries: 8,
};

// Moves the dup at place 0 to node 1 when it is asked, and to node 0 when it is told. It counts the moves that were
// done.
#[derive(Drop)]
struct Mover<'a, N: Naming, R> {
    rt: &'a R,
    ksm: &'a Ksm<N>,
    share: Mutex<Share<N>>,
    moved: AtomicU64,
}

impl<'a, N: Naming, R: Wait> Mover<'a, N, R> {
    fn move_first(&self, place: u32, node: u32) {
        if place > 0 {
            return;
        }
        let mut share = self.share.lock(self.rt);
        let command = Command::MoveDup { place, node };
        if self.ksm.command(self.rt, &mut share, &command).result() == DONE {
            self.moved.fetch_add(1, Ordering::SeqCst);
        }
        MutexGuard::unlock(share);
    }
}

impl<'a, N: Naming, R: Wait> Gate for Mover<'a, N, R> {
    type Permit = PlacePermit;

    ghost use Rattle.std.specs.Prelude.{ℕ};

    ghost may_refuse = { λ _ _. ⊥ };

    ghost place_of = { λ permit. permit.place };

    fn before(&self, _worker: u32, place: u32) -> Option<PlacePermit> {
        self.move_first(place, 1);
        Some(PlacePermit { place })
    }

    fn after(&self, _worker: u32, _place: u32, permit: PlacePermit) {
        let PlacePermit { place } = permit;
        self.move_first(place, 0);
    }
}

// Two pages are merged at the place 0, on the second life of frame 0.
fn second_life<N: Naming>(rt: &impl Wait, ksm: &Ksm<N>, share: &mut Share<N>) -> bool {
    let first_life = [register(0, 9, 1), Command::Drop { page: page(0, 9) }];
    all_done(rt, ksm, share, &first_life) && merge_two(rt, ksm, share)
}

/// Whether the audit's row of place 0 is that of the frame between the two moves, and both moves were done.
pub fn moves<N: Naming + Send + Sync, R: Threads + Wait + Sync>(
    rt: &R,
    alloc: Global,
    ksm: &Ksm<N>,
    passes: Vec<Pass>,
    mut share: Share<N>,
) -> (bool, Vec<Pass>)
    requires some { 0 < vec_len passes }
    requires own { All (λ p. p.table ≡ N.parts.frames) passes.items }
    ensures count { vec_len result.1 ≡ vec_len passes }
    ensures own { All (λ p. p.table ≡ N.parts.frames) result.1.items }
{
    let ready = second_life(rt, ksm, &mut share);
    let gate = Mover {
        rt,
        ksm,
        share: Mutex::new(share),
        moved: AtomicU64::new(0),
    };
    let (ending, passes) = audit_once(rt, alloc, ksm, passes, &gate);
    let moved = gate.moved.load(Ordering::SeqCst);
    let mut rows = [Row::Gone(Why::Vacant); 8];
    rows[0] = Row::Found {
        generation: 1,
        bytes: filled(10),
    };
    (ready && moved == 2 && ending.has(&rows), passes)
}

// Asked after the lookup, the row would be of generation 2; told before it, of generation 3; told in the hold, the
// second move is in use.
#[test]
fn a_gate_is_asked_before_and_told_after(rt: HostRuntime) -> Result<(), Fail> {
    let parts = Parts::open(rt.alloc(), SHAPE, 1)?;
    assert!(rt; in_book(&rt, rt.alloc(), parts, Trial::Moves)?.right);
    Ok(())
}
