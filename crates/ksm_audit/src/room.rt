//! What an audit needs of memory, and how the workers get their passes.
ghost use Rattle.std.specs.Prelude.{◌≡◌, ◌+◌, ◌^◌, ◌<◌, ◌≤◌, [], IfOk, All, length, vec_len, vec_capacity};
ghost use Rattle.ksm_base.specs.Values.{frames_of};
ghost use Rattle.ksm_audit.specs.Claims.{first_hand, remaining};
ghost use Rattle.ksm_audit.specs.Working.{IsReady, IsEmpty};
ghost use Rattle.ksm_audit.specs.Gathering.{loaded};

use crate::claims::{ClaimSeat, ClaimTable, ClaimWord, Deal, Worker};
use crate::job::{Job, Line};
use crate::report::Row;
use frame_table::{FrameTable, Pass};
use std::alloc::{AllocError, Global};

/// All that an audit needs of memory: the claim word, its first seat, an empty list with room for the workers, an empty
/// list of lines for each, and a row for each place.
pub(crate) struct Room {
    pub claims: ClaimTable,
    pub own: ClaimSeat,
    pub jobs: Vec<Job>,
    pub lists: Vec<Vec<Line>>,
    pub rows: Vec<Row>,
}

// An empty list of lines for each worker, with room for every place.
fn empty_lists(alloc: Global, workers: usize, places: usize) -> Result<Vec<Vec<Line>>, AllocError>
    ensures { IfOk result (λ v. (vec_len v ≡ workers) × All (IsEmpty places) v.items) }
{
    let mut lists = Vec::with_capacity(alloc, workers)?;
    for _ in 0..workers {
        lists.push_reserved(Vec::with_capacity(alloc, places)?);
    }
    Ok(lists)
}

impl Room {
    pub(crate) fn take(alloc: Global, workers: usize, places: u32) -> Result<Room, AllocError>
        requires { workers < 2 ^ 63 }
        ensures claims { IfOk result
            (λ r. (r.own.table_id ≡ r.claims.shared.table_id) × (0 < r.claims.shared.table_id.words)) }
        ensures deal { IfOk result
            (λ r. (r.claims.shared.key.places ≡ places) × (r.claims.shared.key.workers ≡ workers)) }
        ensures whole { IfOk result (λ r. r.own.me ≡ (first_hand r.claims.shared.key, [])) }
        ensures jobs { IfOk result (λ r. (r.jobs.items ≡ []) × (workers ≤ vec_capacity r.jobs)) }
        ensures lists { IfOk result (λ r. (vec_len r.lists ≡ workers) × All (IsEmpty places) r.lists.items) }
        ensures rows { IfOk result (λ r. length r.rows.items ≡ places) }
    {
        let rows = vec![in alloc; Row::Busy; places as usize]?;
        let lists = empty_lists(alloc, workers, places as usize)?;
        let deal = Deal { places, workers };
        let (claims, own) = ClaimTable::of_words(alloc, &[0], &deal)?;
        let jobs = Vec::with_capacity(alloc, workers)?;
        Ok(Room {
            claims,
            own,
            jobs,
            lists,
            rows,
        })
    }
}

/// Gives each pass to a worker of its own. The last pass goes to the first worker.
pub(crate) fn load(
    claims: &ClaimWord,
    own: &mut ClaimSeat,
    passes: &mut Vec<Pass>,
    mut lists: Vec<Vec<Line>>,
    jobs: &mut Vec<Job>,
    table: &FrameTable,
)
    requires words { (own.old.table_id ≡ claims.now.table_id) × (0 < claims.now.table_id.words) }
    requires whole { own.old.me ≡ (first_hand claims.now.key, []) }
    requires deal { (claims.now.key.places ≡ frames_of table.now.shape)
        × (claims.now.key.workers ≡ vec_len passes.old) }
    requires passes { All (λ p. p.table ≡ table.now) passes.old.items }
    requires lists { (vec_len lists ≡ vec_len passes.old) × All (IsEmpty (frames_of table.now.shape)) lists.items }
    requires jobs { (jobs.old.items ≡ []) × (vec_len passes.old ≤ vec_capacity jobs.old) }
    ensures own { own.new.table_id ≡ claims.now.table_id }
    ensures rest { own.new.me ≡ remaining claims.now.key (vec_len jobs.new) }
    ensures count { vec_len jobs.new ≡ vec_len passes.old }
    ensures ready { All (λ j. IsReady claims.now.table_id claims.now.key table.now j) jobs.new.items }
    ensures loaded { passes.old.items ≡ loaded jobs.new.items }
    ensures passes { (passes.new.items ≡ []) × (vec_capacity passes.new ≡ vec_capacity passes.old) }
{
    'passes: while let Some(pass) = passes.pop() {
        let Some(lines) = lists.pop() else {
            unreachable!()
        };
        let seat = claims.split_seat::<Worker>(own);
        jobs.push_reserved(Job {
            seat,
            pass: Some(pass),
            lines,
            refused: None,
        });
    }
}
