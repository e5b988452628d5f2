//! The commands on all pages of a guest, or on all there are: merged pages, and those mapped from the zero page, get
//! frames of their own again, and pages come back into the scan. Each goes along the pages in order.

ghost use Rattle.std.specs.Prelude.{◌≡◌, ◌<◌, All, IfErr, IfOk, true};
ghost use Rattle.ksm_book.specs.Terms.{change_rows, is_of, IsHeld, seen};
ghost use Rattle.ksm_book.specs.Carried.{CarriesOut};
ghost use Rattle.ksm_book.specs.Laid.{IsLaid, HasLeft, MayNotLeave, Unshares};

use crate::frame_keeper::FrameKeeper;
use crate::frames::{release_if, take_frame};
use crate::state::State;
use frame_table::FrameTable;
use ksm_base::{Command, Fault, Knobs, Reply};
use ksm_pages::{Held, Pages};

// A merged or Zero page gets a frame of its own on its home, and is not unchanged. A guest's page leaves the scan. Says
// how many frames were given. Refused where no frame is free, it changes nothing.
fn leave(
    pages: &mut Pages,
    keeper: &mut FrameKeeper,
    table: &FrameTable,
    guest: Option<u16>,
    held: Held,
) -> Result<u64, Fault>
    requires own { keeper.old.table ≡ table.now }
    requires laid { IsLaid (seen pages.old) keeper.old }
    requires held { IsHeld (seen pages.old) held.spot.page held }
    requires home { held.home < pages.old.shape.nodes }
    ensures left { IfOk result (λ count.
        HasLeft (seen pages.old) (seen pages.new) keeper.old keeper.new guest held.spot.page count) }
    ensures turned { IfErr result (λ fault.
        MayNotLeave (seen pages.old) (seen pages.new) keeper.old keeper.new held.spot.page fault) }
{
    pages.lie_in_order();
    if !held.shared {
        if guest.is_some() {
            pages.let_go(held.spot);
        }
        return Ok(0);
    }
    let bytes = pages.bytes(held.spot);
    let shape = pages.shape();
    let Some(frame) = take_frame(keeper, table, shape, held.home, bytes) else {
        return Err(Fault::NoFrame(held.home));
    };
    let left = if guest.is_some() {
        pages.let_go_on(held.spot, frame)
    } else {
        pages.unshare_on(held.spot, frame)
    };
    release_if(keeper, table, left);
    Ok(1)
}

// The pages of a guest, or all, leave in order. Stops where a page finds no frame on its home. Says how many got one.
#[tactic(auto, using(crate::proofs::Along::along_none, crate::proofs::Along::further, crate::proofs::Along::not_far, ksm_base::proofs::Orders::filter_none))]
fn unshare_each(
    pages: &mut Pages,
    keeper: &mut FrameKeeper,
    table: &FrameTable,
    guest: Option<u16>,
) -> (u64, Option<Fault>)
    requires own { keeper.old.table ≡ table.now }
    requires laid { IsLaid (seen pages.old) keeper.old }
    requires homes { All (λ r. r.home < pages.old.shape.nodes) pages.old.rows }
    ensures { Unshares (seen pages.old) (seen pages.new) keeper.old keeper.new guest result.0 result.1 }
{
    pages.lie_in_order();
    let mut count = 0;
    let mut last = None;
    'pages: while let Some(held) = pages.next(guest, last) {
        match leave(pages, keeper, table, guest, held) {
            Ok(given) => count += given,
            Err(fault) => return (count, Some(fault)),
        }
        last = Some(held.spot.page);
    }
    (count, None)
}

// All pages of a guest become mergeable.
#[tactic(auto, using(crate::proofs::Singles::stay_in_scan, crate::proofs::Along::along_none, crate::proofs::Along::further, crate::proofs::Along::not_far))]
fn make_mergeable(pages: &mut Pages, guest: u16)
    ensures { seen pages.new ≡ record (seen pages.old) {
      rows = change_rows (is_of guest) (λ r. record r { mergeable = true }) pages.old.rows;
    } }
{
    pages.lie_in_order();
    if pages.all_mergeable() {
        return;
    }
    let mut last = None;
    'pages: while let Some(held) = pages.next(Some(guest), last) {
        pages.make_mergeable(held.spot);
        last = Some(held.spot.page);
    }
}

impl State {
    /// The merged and Zero pages of a guest get frames of their own, in order, until one finds none; the guest's pages
    /// up to there leave the scan.
    #[inline(never)]
    pub fn unmerge(&mut self, table: &FrameTable, guest: u16) -> Result<Reply, Fault>
        requires own { self.old.keeper.table ≡ table.now }
        ensures { CarriesOut self.old self.new (Command.Unmerge guest) result }
    {
        if self.pages.next(Some(guest), None).is_none() {
            return Err(Fault::UnknownPage);
        }
        let (pages, stop) = unshare_each(&mut self.pages, &mut self.keeper, table, Some(guest));
        Ok(Reply::Unmerged { pages, stop })
    }

    /// All pages of a guest become mergeable.
    #[inline(never)]
    pub fn mergeable(&mut self, guest: u16) -> Result<Reply, Fault>
        ensures { CarriesOut self.old self.new (Command.Mergeable guest) result }
    {
        if self.pages.next(Some(guest), None).is_none() {
            return Err(Fault::UnknownPage);
        }
        make_mergeable(&mut self.pages, guest);
        Ok(Reply::Done)
    }

    /// All merged and Zero pages get frames of their own, in order, until one finds none. If none is left so, all pages
    /// are Private and not unchanged, and the next scan begins a pass; else the scan stands.
    #[inline(never)]
    pub fn unshare(&mut self, table: &FrameTable) -> Result<Reply, Fault>
        requires own { self.old.keeper.table ≡ table.now }
        ensures { CarriesOut self.old self.new (Command.SetRun 2) result }
    {
        let knobs = self.pages.knobs();
        let (pages, stop) = unshare_each(&mut self.pages, &mut self.keeper, table, None);
        if stop.is_some() {
            self.pages.set_knobs(Knobs { run: 0, ..knobs });
            return Ok(Reply::Unmerged { pages, stop });
        }
        self.pages.unshare_all();
        self.pages.set_knobs(Knobs { run: 2, ..knobs });
        self.cursor = None;
        self.visits = 0;
        Ok(Reply::Unmerged { pages, stop })
    }
}
