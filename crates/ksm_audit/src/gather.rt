//! What the workers found, put together.
ghost use Rattle.std.specs.Prelude.{◌≡◌, ℕ, ◌+◌, ◌<◌, ◌≤◌, [], ◌++◌, IsNone, All, Any, Some, length, vec_len};
ghost use Rattle.std.specs.Prelude.{vec_capacity, slice_get};
ghost use Rattle.ksm_audit.specs.declared.report.Row.{Row};
ghost use Rattle.ksm_audit.specs.Claims.{once_below, times};
ghost use Rattle.ksm_audit.specs.Working.{places_of};
ghost use Rattle.ksm_audit.specs.Gathering.{loaded, drawn_total, lines_total, InJobs, Fills, IsThrough, AllBelow};
ghost use Rattle.ksm_audit.specs.Gathering.{AreInside};

use crate::claims::{Back, ClaimSeat, ClaimWord, Draw};
use crate::job::{Job, Line};
use crate::report::Row;
use frame_table::Pass;

// Each line gives its place its row.
fn fill_from(lines: &[Line], rows: &mut [Row])
    requires inside { AreInside (length rows.old) lines.now }
    ensures { Fills lines.now rows.old rows.new }
{
    for line in lines {
        rows[line.place as usize] = line.row;
    }
}

/// Each line of each worker gives its place its row.
pub(crate) fn fill(jobs: &[Job], rows: &mut [Row])
    requires inside { All (λ j. AreInside (length rows.old) j.lines.items) jobs.now }
    ensures { (p : ℕ) (row : Row) → slice_get rows.new p ≡ Some row → 0 < lines_total p jobs.now
        → InJobs p row jobs.now }
{
    for job in jobs {
        fill_from(job.lines.as_slice(), rows);
    }
}

/// A place at which the gate refused a worker, if there is one.
pub(crate) fn refusal(jobs: &[Job]) -> Option<u32>
    ensures none { IsNone result → All (λ j. IsNone j.refused) jobs.now }
    ensures some { (at : ℕ) → result ≡ Some at → Any (λ j. j.refused ≡ Some at) jobs.now }
{
    for job in jobs {
        if job.refused.is_some() {
            return job.refused;
        }
    }
    None
}

/// Takes the workers' seats and passes back, and draws once more: whoever has all seats learns by it that what was
/// drawn are all numbers below this one, each once.
pub(crate) fn unload(
    claims: &ClaimWord,
    own: &mut ClaimSeat,
    mut jobs: Vec<Job>,
    passes: &mut Vec<Pass>,
) -> u64
    requires words { (own.old.table_id ≡ claims.now.table_id) × (0 < claims.now.table_id.words) }
    requires rest { (own.old.me.0.parts + vec_len jobs ≡ own.old.me.0.deal.workers + 1)
        × (own.old.me.0.past < own.old.me.0.parts) × (own.old.me.0.drawn ≡ []) × (own.old.me.1 ≡ []) }
    requires through { All (IsThrough claims.now.table_id) jobs.items }
    requires room { vec_len passes.old + vec_len jobs ≤ vec_capacity passes.old }
    ensures passes { passes.new.items ≡ passes.old.items ++ loaded jobs.items }
    ensures capacity { vec_capacity passes.new ≡ vec_capacity passes.old }
    ensures below { AllBelow result jobs.items }
    ensures drawn { (x : ℕ) → drawn_total x jobs.items ≡ once_below x result }
{
    'jobs: while let Some(job) = jobs.pop() {
        let Job {
            seat,
            pass,
            lines: _,
            refused: _,
        } = job;
        claims.join_seat::<Back>(own, seat);
        let Some(pass) = pass else { unreachable!() };
        passes.push_reserved(pass);
    }
    jobs.destroy_empty();
    claims.fetch_add::<Draw>(own, 0, 1)
}
