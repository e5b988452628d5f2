//! The audit itself.
ghost use Rattle.std.specs.Prelude.{◌≡◌, ℕ, ◌<◌, IfOk, IfErr, All, length, slice_index_or, vec_len, vec_capacity};
ghost use Rattle.ksm_base.specs.Values.{frames_of};
ghost use Rattle.ksm_audit.specs.declared.job.Job.{Job};
ghost use Rattle.ksm_audit.specs.Working.{IsReady, Works};
ghost use Rattle.ksm_audit.specs.Answered.{Audited, Faulted, passes_of};

use crate::claims::ClaimWord;
use crate::gate::Gate;
use crate::gather::{fill, refusal, unload};
use crate::job::Job;
use crate::report::Report;
use crate::room::{Room, load};
use crate::work::work;
use frame_table::{FrameTable, Pass};
use ksm_shared::{Ksm, Naming};
use std::alloc::Global;
use std::thread::{Threads, for_each_mut};

/// Why there is no report. All passes come back, in the order in which they were handed in, and none of them holds.
pub enum AuditFault {
    /// A growth was refused, and no lookup was made.
    Memory(Vec<Pass>),
    /// The gate refused this place. Some other places, each at most once, were looked up.
    Gate(Vec<Pass>, u32),
}

// Each worker in a thread of its own, or in the caller's where none can be made.
fn work_all<R: Threads + Sync, G: Gate + Sync>(
    rt: &R,
    claims: &ClaimWord,
    table: &FrameTable,
    gate: &G,
    jobs: &mut [Job],
)
    requires words { 0 < claims.now.table_id.words }
    requires deal { claims.now.key.places ≡ frames_of table.now.shape }
    requires some { 0 < length jobs.old }
    requires ready { All (λ j. IsReady claims.now.table_id claims.now.key table.now j) jobs.old }
    ensures { (k : ℕ) (d : Job) → k < length jobs.old → Works claims.now.table_id table.now (G.may_refuse gate.now)
        (slice_index_or jobs.old k d) (slice_index_or jobs.new k d) }
{
    let threads = jobs.len();
    for_each_mut(
        rt,
        jobs,
        threads,
        &|i, job| work(claims, table, gate, i, job),
    );
}

/// Looks every place up once, by one worker for each pass, and says how each lookup ended.
///
/// Workers run in threads of their own; one whose thread can't be started runs in the caller's. The passes come back in
/// the order in which they were handed in, in their vector, and none of them holds. All memory is taken before the
/// first lookup.
pub fn audit<N: Naming, R: Threads + Sync, G: Gate + Sync>(
    rt: &R,
    alloc: Global,
    ksm: &Ksm<N>,
    mut passes: Vec<Pass>,
    gate: &G,
) -> Result<(Report, Vec<Pass>), AuditFault>
    requires some { 0 < vec_len passes }
    requires own { All (λ p. p.table ≡ N.parts.frames) passes.items }
    ensures report { IfOk result (λ r. Audited N.parts.frames.shape passes.items r.0 r.1.items) }
    ensures fault { IfErr result (λ fault. Faulted (G.may_refuse gate.now) N.parts.frames.shape passes.items fault) }
    ensures room { vec_capacity (passes_of result) ≡ vec_capacity passes }
{
    let table = ksm.table();
    let Ok(room) = Room::take(alloc, passes.len(), table.places()) else {
        return Err(AuditFault::Memory(passes));
    };
    let Room {
        claims,
        mut own,
        mut jobs,
        lists,
        mut rows,
    } = room;
    load(
        &claims.shared,
        &mut own,
        &mut passes,
        lists,
        &mut jobs,
        table,
    );
    work_all(rt, &claims.shared, table, gate, jobs.as_mut_slice());
    fill(jobs.as_slice(), rows.as_mut_slice());
    let refused = refusal(jobs.as_slice());
    unload(&claims.shared, &mut own, jobs, &mut passes);
    match refused {
        Some(place) => Err(AuditFault::Gate(passes, place)),
        None => Ok((Report { rows }, passes)),
    }
}
