//! What a worker does.
ghost use Rattle.std.specs.Prelude.{◌≡◌, ◌<◌, ◌≤◌, [], vec_len, vec_capacity};
ghost use Rattle.ksm_base.specs.Values.{frames_of};
ghost use Rattle.frame_table.specs.Named.{PassView};
ghost use Rattle.ksm_audit.specs.declared.report.Row.{Row};
ghost use Rattle.ksm_audit.specs.Lookups.{Visits};
ghost use Rattle.ksm_audit.specs.Working.{MayDraw, Claimed, Answers, IsReady, Works};

use crate::claims::{ClaimSeat, ClaimWord, Draw};
use crate::gate::Gate;
use crate::job::{Job, Line};
use crate::visit::visit;
use frame_table::{FrameTable, Pass};

// The next place that nobody has claimed, if there is one.
fn claim(claims: &ClaimWord, seat: &mut ClaimSeat, places: u32) -> Option<u32>
    requires own { (seat.old.table_id ≡ claims.now.table_id) × (0 < claims.now.table_id.words) }
    requires may { MayDraw seat.old.me }
    ensures own { seat.new.table_id ≡ seat.old.table_id }
    ensures claimed { Claimed places seat.old.me result seat.new.me }
{
    let place = claims.fetch_add::<Draw>(seat, 0, 1);
    if place < u64::from(places) {
        Some(place as u32)
    } else {
        None
    }
}

// Asks the gate, looks the place up and tells the gate. Once the gate has refused, places are claimed and left.
fn answer<G: Gate>(
    table: &FrameTable,
    gate: &G,
    worker: u32,
    place: u32,
    pass: Pass,
    lines: &mut Vec<Line>,
    refused: &mut Option<u32>,
) -> Pass
    requires own { pass.table ≡ table.now }
    requires inside { place < frames_of table.now.shape }
    requires room { vec_len lines.old < vec_capacity lines.old }
    ensures room { vec_capacity lines.new ≡ vec_capacity lines.old }
    ensures answers { Answers (G.may_refuse gate.now) place pass lines.old.items refused.old
        result lines.new.items refused.new }
{
    if refused.is_some() {
        return pass;
    }
    match gate.before(worker, place) {
        Some(permit) => {
            let (row, pass) = visit::<G>(table, &permit, pass, place);
            lines.push_reserved(Line { place, row });
            tell(gate, worker, place, permit, &pass);
            pass
        }
        None => {
            *refused = Some(place);
            pass
        }
    }
}

// Spends the permit for a place. The pass that looked it up is back, so nothing is held, and this lookup is the last
// that it made.
fn tell<G: Gate>(gate: &G, worker: u32, place: u32, permit: G::Permit, pass: &Pass)
    requires permit { G.place_of permit ≡ place }
    requires looked_up { (before : PassView) × (row : Row) × Visits before place row pass.now }
{
    gate.after(worker, place, permit);
}

/// Claims places and looks them up, until none is left.
pub(crate) fn work<G: Gate>(
    claims: &ClaimWord,
    table: &FrameTable,
    gate: &G,
    number: usize,
    job: &mut Job,
)
    requires words { 0 < claims.now.table_id.words }
    requires deal { claims.now.key.places ≡ frames_of table.now.shape }
    requires ready { IsReady claims.now.table_id claims.now.key table.now job.old }
    ensures { Works claims.now.table_id table.now (G.may_refuse gate.now) job.old job.new }
{
    let worker = u32::try_from(number).unwrap_or(u32::MAX);
    let Job {
        seat,
        pass: slot,
        lines,
        refused,
    } = job;
    let Some(first) = slot.take() else {
        unreachable!()
    };
    let mut pass = first;
    'places: while let Some(place) = claim(claims, seat, table.places()) {
        pass = answer(table, gate, worker, place, pass, lines, refused);
    }
    let old = slot.replace(pass);
    let None = old else { unreachable!() };
}
