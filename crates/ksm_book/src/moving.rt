//! The command that moves a dup to another frame: its refusals, and the move.

ghost use Rattle.std.specs.Prelude.{◌≡◌};
ghost use Rattle.ksm_book.specs.Terms.{seen};
ghost use Rattle.ksm_book.specs.Carried.{CarriesOut};
ghost use Rattle.ksm_book.specs.Laid.{HasRemounted, MayMove};

use crate::frame_keeper::FrameKeeper;
use crate::frames::find_frame;
use crate::mounting::mount;
use crate::state::State;
use frame_table::FrameTable;
use ksm_base::{Command, DupRow, Fault, Reply};
use ksm_pages::Pages;

/// The frame of a dup with items is replaced by another of a node. Refused where none is free, and where a reader holds
/// the old one; rows and dups stay.
#[tactic(auto, using(crate::proofs::Moves::found_in, std::proofs::lemmas::List::Folds::list_any_at))]
fn remount(
    pages: &mut Pages,
    keeper: &mut FrameKeeper,
    table: &FrameTable,
    dup: DupRow,
    node: u32,
) -> Result<Reply, Fault>
    requires own { keeper.old.table ≡ table.now }
    requires may { MayMove (seen pages.old) keeper.old dup node }
    ensures { HasRemounted (seen pages.old) (seen pages.new) keeper.old keeper.new dup node result }
{
    pages.lie_in_order();
    let left = pages.dup_frame(dup.place);
    let shape = pages.shape();
    let Some(frame) = find_frame(keeper, table, shape, node) else {
        return Err(Fault::NoFrame(node));
    };
    let items = keeper.base(left);
    if !keeper.freeze(table, left) {
        return Err(Fault::InUse);
    }
    mount(keeper, table, left, frame, dup.place, items);
    pages.set_dup_frame(dup.place, frame);
    Ok(Reply::Done)
}

impl State {
    /// Moves the dup with items at a place to another frame of a node.
    pub fn move_dup(&mut self, table: &FrameTable, place: u32, node: u32) -> Result<Reply, Fault>
        requires own { self.old.keeper.table ≡ table.now }
        ensures { CarriesOut self.old self.new (Command.MoveDup place node) result }
    {
        if node >= self.pages.shape().nodes {
            return Err(Fault::BadNode);
        }
        let Some(dup) = self.pages.live_at(place) else {
            return Err(Fault::UnknownPlace);
        };
        if self.pages.knobs().merge_across_nodes == 0 && dup.tree != node {
            return Err(Fault::CrossesNodes);
        }
        remount(&mut self.pages, &mut self.keeper, table, dup, node)
    }
}
