//! What the book has the keeper do with frames: find one and fill it, write it and read it, and give it back.

ghost use Rattle.std.specs.Prelude.{◌≡◌, ◌<◌, ◌≤◌, ◌-◌, None, IfSome, IsTrue, MatchOption, [], ◌∷◌, length, map, if◌then◌else◌};
ghost use Rattle.ksm_book.specs.Terms.{frame_at, frames_of, IsReadable, IsShape, IsWritable, May, Reap, with_frame, Withdraw, WORDS};
ghost use Rattle.ksm_book.specs.Placement.{IsLawful};
ghost use Rattle.ksm_book.specs.Keeping.{MayLeave, holding, HasNewFrame};
ghost use Rattle.ksm_book.specs.Steps.{dying_from, loads, puts, stepped, MakesSteps, Finds, FindsNone, Provides};
ghost use Rattle.ksm_book.specs.Commands.{leaving};

use crate::frame_keeper::FrameKeeper;
use frame_table::FrameTable;
use ksm_base::{PAGE_WORDS, PageBytes, Shape};

// Reaps each dying one of the frames from `first` on and below `end`, ascending. Inlined for speed, as `take_frame` is.
#[inline(always)]
fn reap_each(keeper: &mut FrameKeeper, table: &FrameTable, first: u32, end: u32)
    requires own { keeper.old.table ≡ table.now }
    requires low { first ≤ end }
    requires inside { end ≤ frames_of keeper.old.table.shape }
    ensures { MakesSteps keeper.old keeper.new (map Reap (dying_from keeper.old.ledger first (end - first))) }
{
    let mut from = first;
    'dying: while let Some(frame) = keeper.next_dying(from, end) {
        let _ = keeper.reap(table, frame);
        from = frame + 1;
    }
}

/// Reaps the dying frames of a node, and finds its lowest free one.
#[inline(always)]
pub fn find_frame(
    keeper: &mut FrameKeeper,
    table: &FrameTable,
    shape: Shape,
    node: u32,
) -> Option<u32>
    requires own { keeper.old.table ≡ table.now }
    requires shape { shape ≡ keeper.old.table.shape }
    requires checked { IsShape shape }
    requires node { node < shape.nodes }
    ensures { MatchOption result (FindsNone keeper.old keeper.new node) (Finds keeper.old keeper.new node) }
{
    let first = node * shape.frames_per_node;
    let end = first + shape.frames_per_node;
    reap_each(keeper, table, first, end);
    keeper.next_free(first, end)
}

/// Whether no frame of a node is free or dying: then a search for one would make no step, and find none.
#[tactic(auto, using(crate::proofs::Made::in_vain))]
#[inline(always)]
pub fn is_used_up(keeper: &FrameKeeper, shape: Shape, node: u32) -> bool
    requires shape { shape ≡ keeper.now.table.shape }
    requires checked { IsShape shape }
    requires node { node < shape.nodes }
    ensures { IsTrue result → FindsNone keeper.now keeper.now node }
{
    let first = node * shape.frames_per_node;
    let end = first + shape.frames_per_node;
    keeper.next_dying(first, end).is_none() && keeper.next_free(first, end).is_none()
}

/// Stores the bytes to a frame, word by word.
#[inline(always)]
pub fn write(keeper: &mut FrameKeeper, table: &FrameTable, frame: u32, bytes: &PageBytes)
    requires own { keeper.old.table ≡ table.now }
    requires inside { frame < frames_of keeper.old.table.shape }
    requires within { frame < length keeper.old.ledger.frames }
    requires writable { IsWritable (frame_at keeper.old.ledger frame).kind }
    requires wide { length (frame_at keeper.old.ledger frame).content ≡ WORDS }
    ensures wrote { keeper.new ≡ stepped keeper.old (puts frame 0 bytes.now) }
    ensures ledger { keeper.new.ledger ≡ with_frame keeper.old.ledger frame
        (holding (frame_at keeper.old.ledger frame) bytes.now) }
{
    let page = table.page(frame);
    for i in 0..PAGE_WORDS {
        keeper.put(table, frame, page, i, bytes[i]);
    }
}

/// The words of a frame.
#[tactic(auto, using(crate::proofs::Made::along_one, crate::proofs::Made::word_written))]
pub fn load(keeper: &mut FrameKeeper, table: &FrameTable, frame: u32) -> PageBytes
    requires own { keeper.old.table ≡ table.now }
    requires inside { frame < frames_of keeper.old.table.shape }
    requires readable { IsReadable (frame_at keeper.old.ledger frame).kind }
    requires wide { length (frame_at keeper.old.ledger frame).content ≡ WORDS }
    ensures bytes { result ≡ (frame_at keeper.old.ledger frame).content }
    ensures loaded { keeper.new ≡ stepped keeper.old (loads frame 0 result) }
    ensures ledger { keeper.new.ledger ≡ keeper.old.ledger }
{
    let page = table.page(frame);
    let mut bytes = [0; PAGE_WORDS];
    for i in 0..PAGE_WORDS {
        bytes[i] = keeper.word(table, frame, page, i);
    }
    bytes
}

// Inlined for speed, as `find_frame` is: a store to a merged page does all of it in one function.

/// Reaps the dying frames of a node, and fills its lowest free one with these bytes: the caller has it in hand. None
/// where no frame is free.
#[inline(always)]
pub fn take_frame(
    keeper: &mut FrameKeeper,
    table: &FrameTable,
    shape: Shape,
    node: u32,
    bytes: &PageBytes,
) -> Option<u32>
    requires own { keeper.old.table ≡ table.now }
    requires shape { shape ≡ keeper.old.table.shape }
    requires checked { IsShape shape }
    requires node { node < shape.nodes }
    requires lawful { IsLawful keeper.old None }
    ensures provides { MatchOption result
        (FindsNone keeper.old keeper.new node) (Provides keeper.old keeper.new node bytes.now) }
    ensures took { IfSome result (HasNewFrame keeper.old keeper.new node bytes.now) }
{
    let frame = find_frame(keeper, table, shape, node)?;
    keeper.raise(table, frame);
    write(keeper, table, frame, bytes);
    keeper.open(table, frame);
    Some(frame)
}

/// Gives the frame in hand back, if there is one.
pub fn release_if(keeper: &mut FrameKeeper, table: &FrameTable, frame: Option<u32>)
    requires own { keeper.old.table ≡ table.now }
    requires may { IfSome frame (MayLeave keeper.old) }
    ensures { MakesSteps keeper.old keeper.new (leaving frame) }
{
    if let Some(frame) = frame {
        keeper.sub(table, frame);
    }
}

/// What the place names is withdrawn, if a dup stands there.
pub fn clear(keeper: &mut FrameKeeper, table: &FrameTable, place: u32, taken: bool)
    requires own { keeper.old.table ≡ table.now }
    requires may { May keeper.old (Withdraw place) }
    ensures { MakesSteps keeper.old keeper.new (if taken then Withdraw place ∷ [] else []) }
{
    if taken {
        keeper.withdraw(table, place);
    }
}
