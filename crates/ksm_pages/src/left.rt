//! On which frame the page of a row lies, and how it leaves its dup before its row becomes another.

ghost use Rattle.std.specs.Prelude.{◌≡◌, ℕ, ⊤, MatchOption, option_and_then, slice_get};
ghost use Rattle.ksm_pages.specs.Terms.{dup_rows, GuestPage, mapping_of};
ghost use Rattle.ksm_pages.specs.Filed.{WasKept};
ghost use Rattle.ksm_pages.specs.Held.{held_at, held_of, RowsView};
ghost use Rattle.ksm_pages.specs.Paged.{IsLeft, frame_seen, lodging};

use crate::row::{Entry, Kind};
use ksm_tree::Dups;

/// The frame that is kept at a place, if there is one.
pub fn frame_at(frames: &[u32], place: Option<u32>) -> Option<u32>
    ensures { result ≡ option_and_then (slice_get frames.now) place }
{
    frames.get(place? as usize).copied()
}

/// The frame on which the page of a row lies, if it does on one.
#[tactic(auto, using(crate::proofs::Paging::place_numbered))]
#[inline(always)]
pub fn frame_of(dups: &Dups, frames: &[u32], entry: &Entry, pass: u64) -> Option<u32>
    ensures { let held = held_of pass entry.now in
        result ≡ frame_seen (lodging (dup_rows dups.now.dups) frames.now) (mapping_of held.row.state) held.frame }
{
    match entry.kind {
        Kind::Merged => frame_at(frames, dups.place_by(entry.at, entry.number)),
        _ => entry.own_frame(),
    }
}

/// Takes a page out of its dup, if it was merged, by what was kept of its row before that changed, if it had one. Gives
/// the frame on which it lay, if it did on one.
#[tactic(auto, using(crate::proofs::Paging::place_numbered))]
#[inline(always)]
pub fn leave(dups: &mut Dups, frames: &[u32], was: Option<Entry>) -> Option<u32>
    ensures { (rows : RowsView) (page : GuestPage) → WasKept rows page was
        → MatchOption (held_at page rows.held) ⊤ (IsLeft frames.now dups.old dups.new result) }
{
    let was = was?;
    match was.kind {
        Kind::Merged => {
            let place = dups.leave_at(was.at, was.number, was.page);
            frame_at(frames, place)
        }
        _ => was.own_frame(),
    }
}
