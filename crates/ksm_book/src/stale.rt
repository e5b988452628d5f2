//! The stale dups go, and their places name no frame any more.

ghost use Rattle.std.specs.Prelude.{◌≡◌, count_by, filter};
ghost use Rattle.ksm_book.specs.Terms.{has_items, InPlaceOrder, is_stale, seen};
ghost use Rattle.ksm_book.specs.Commands.{Performs, pruning};
ghost use Rattle.ksm_book.specs.Laid.{IsLaid, lying};

use crate::frame_keeper::FrameKeeper;
use frame_table::FrameTable;
use ksm_pages::Pages;

/// All stale dups go. Says how many there were.
pub fn drop_stale(pages: &mut Pages, keeper: &mut FrameKeeper, table: &FrameTable) -> u64
    requires own { keeper.old.table ≡ table.now }
    requires laid { IsLaid (seen pages.old) keeper.old }
    requires rise { InPlaceOrder pages.old.dups }
    ensures pages { seen pages.new ≡ record (seen pages.old) {
      dups = filter (has_items pages.old.rows) pages.old.dups;
    } }
    ensures count { result ≡ count_by (is_stale pages.old.rows) pages.old.dups }
    ensures laid { IsLaid (seen pages.new) keeper.new }
    ensures performs { Performs (lying (seen pages.old) keeper.old) (lying (seen pages.new) keeper.new)
        (pruning pages.old.rows pages.old.dups (seen pages.old).frame) }
{
    let mut count = 0;
    'stale: while let Some(place) = pages.stale_place() {
        keeper.withdraw(table, place);
        pages.drop_stale(place);
        count += 1;
    }
    count
}
