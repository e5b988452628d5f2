//! What the book has the keeper do with the frames of a dup that moves.

ghost use Rattle.std.specs.Prelude.{◌≡◌, ◌<◌, ◌≤◌, ◌+◌, replicate};
ghost use Rattle.ksm_book.specs.Terms.{Add, did, frame_at, frames_of, KeeperView, MOST_REFERENCES, Publish, with_frame};
ghost use Rattle.ksm_book.specs.Steps.{MakesSteps};
ghost use Rattle.ksm_book.specs.Commands.{mounting};
ghost use Rattle.ksm_book.specs.Keeping.{with_more, MayMount, once_mounted};

use crate::frame_keeper::FrameKeeper;
use crate::frames::{load, write};
use frame_table::FrameTable;

/// Adds so many references to a frame that has one.
fn add_times(keeper: &mut FrameKeeper, table: &FrameTable, frame: u32, count: u64)
    requires own { keeper.old.table ≡ table.now }
    requires inside { frame < frames_of keeper.old.table.shape }
    requires some { 1 ≤ (frame_at keeper.old.ledger frame).base }
    requires few { (frame_at keeper.old.ledger frame).base + count ≤ MOST_REFERENCES }
    ensures made { MakesSteps keeper.old keeper.new (replicate count (Add frame)) }
    ensures ledger { keeper.new.ledger ≡ with_frame keeper.old.ledger frame
        (with_more (frame_at keeper.old.ledger frame) count) }
{
    for done in 0..count {
        keeper.add(table, frame);
    }
}

/// A free frame gets the bytes of a dying one and so many references, and the place names it.
#[tactic(auto, using(crate::proofs::Made::words_kept, crate::proofs::Made::mounts))]
pub fn mount(
    keeper: &mut FrameKeeper,
    table: &FrameTable,
    left: u32,
    frame: u32,
    place: u32,
    count: u64,
)
    requires own { keeper.old.table ≡ table.now }
    requires may { MayMount keeper.old left frame place count }
    ensures made { (before : KeeperView)
        × MakesSteps keeper.old before (mounting left frame count (frame_at keeper.old.ledger left).content)
        × (keeper.new ≡ did before (Publish place frame) 0) }
    ensures ledger { keeper.new.ledger ≡ once_mounted keeper.old.ledger left frame place count }
{
    keeper.raise(table, frame);
    let bytes = load(keeper, table, left);
    write(keeper, table, frame, &bytes);
    keeper.open(table, frame);
    add_times(keeper, table, frame, count - 1);
    keeper.publish(table, place, frame);
}
