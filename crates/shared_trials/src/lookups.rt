//! Lookups of a shared book: they return though the thread that makes them has the merge lock.
ghost use Rattle.std.specs.Prelude.{◌≡◌, ◌<◌, All, vec_len};
ghost use Rattle.ksm_base.specs.Values.{frames_of};

use crate::books::{Trial, in_book};
use crate::commands::{SHAPE, filled, merge_two};
use frame_table::{Found, FoundEqual, Pass};
use ksm_base::PageBytes;
use ksm_shared::{Ksm, Naming, Parts, Share};
use std::sync::{MutexGuard, Wait};
use std::test::Fail;

// What a lookup of the first place answers while the same thread has the merge lock: whether the frame was held, and
// the pass.
fn looks_while_locked<N: Naming>(rt: &impl Wait, ksm: &Ksm<N>, pass: Pass) -> (bool, Pass)
    requires pass { pass.table ≡ N.parts.frames }
    requires places { 0 < frames_of N.parts.frames.shape }
    ensures { result.1.table ≡ N.parts.frames }
{
    let merge = ksm.lock(rt);
    let found = ksm.find(pass, 0);
    MutexGuard::unlock(merge);
    match found {
        Found::Held(held) => (true, held.leave(ksm.table())),
        Found::Gone(pass, _) => (false, pass),
        Found::Busy(pass) => (false, pass),
    }
}

// The same of a lookup that compares. Whether the first place's frame has just these bytes.
fn compares_while_locked<N: Naming>(
    rt: &impl Wait,
    ksm: &Ksm<N>,
    pass: Pass,
    bytes: &PageBytes,
) -> (bool, Pass)
    requires pass { pass.table ≡ N.parts.frames }
    requires places { 0 < frames_of N.parts.frames.shape }
    ensures { result.1.table ≡ N.parts.frames }
{
    let merge = ksm.lock(rt);
    let found = ksm.find_equal(pass, 0, bytes);
    MutexGuard::unlock(merge);
    match found {
        FoundEqual::Held(held) => (true, held.leave(ksm.table())),
        FoundEqual::Differs(held) => (false, held.leave(ksm.table())),
        FoundEqual::Gone(pass, _) => (false, pass),
        FoundEqual::Busy(pass) => (false, pass),
    }
}

/// Whether lookups hold the frame of two merged pages, one of the three being for other bytes. Hands the passes back.
pub fn looks<N: Naming>(
    rt: &impl Wait,
    ksm: &Ksm<N>,
    mut passes: Vec<Pass>,
    share: &mut Share<N>,
) -> (bool, Vec<Pass>)
    requires passes { All (λ p. p.table ≡ N.parts.frames) passes.items }
    requires places { 0 < frames_of N.parts.frames.shape }
    ensures count { vec_len result.1 ≡ vec_len passes }
    ensures own { All (λ p. p.table ≡ N.parts.frames) result.1.items }
{
    let Some(pass) = passes.pop() else {
        return (false, passes);
    };
    let merged = merge_two(rt, ksm, share);
    let (held, pass) = looks_while_locked(rt, ksm, pass);
    let (equal, pass) = compares_while_locked(rt, ksm, pass, &filled(10));
    let (other, pass) = compares_while_locked(rt, ksm, pass, &filled(11));
    passes.push_reserved(pass);
    (merged && held && equal && !other, passes)
}

#[test]
fn lookups_take_no_lock(rt: HostRuntime) -> Result<(), Fail> {
    let parts = Parts::open(rt.alloc(), SHAPE, 1)?;
    assert!(rt; in_book(&rt, rt.alloc(), parts, Trial::Looks)?.right);
    Ok(())
}
