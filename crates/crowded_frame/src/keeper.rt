//! A keeper that spends the lives of one frame.

ghost use Rattle.std.specs.Prelude.{◌≡◌, ◌+◌, ◌<◌, IsTrue, Some, length};
ghost use Rattle.ksm_base.specs.Values.{frames_of};
ghost use Rattle.frame_core.specs.declared.event.KeeperStep.TheVariants.{Raise};
ghost use Rattle.frame_core.specs.declared.frame.Kind.TheVariants.{Free, Private, Dying};
ghost use Rattle.frame_core.specs.declared.seat.Life.{Life};
ghost use Rattle.frame_core.specs.Ledger.{frame_at, named_at};
ghost use Rattle.frame_table.specs.Kept.{May};
ghost use Rattle.frame_table.specs.Seats.{new_keeper};

use crate::reader::word_in;
use frame_core::Kind;
use frame_table::{FrameTable, Keeper};
use ksm_base::PAGE_WORDS;

// Gives the frame up, and reaps it once. Tells whether it is free.
fn free(table: &FrameTable, keeper: &mut Keeper) -> bool
    requires own { keeper.old.table ≡ table.now }
    requires shape { frames_of table.now.shape ≡ 1 }
    requires width { length keeper.old.ledger.frames ≡ 1 }
    requires named { (life : Life) → named_at keeper.old.ledger 0 ≡ Some life → life.frame ≡ 0 }
    ensures own { keeper.new.table ≡ keeper.old.table }
    ensures width { length keeper.new.ledger.frames ≡ 1 }
    ensures named { (life : Life) → named_at keeper.new.ledger 0 ≡ Some life → life.frame ≡ 0 }
    ensures kind { IsTrue result → (frame_at keeper.new.ledger 0).kind ≡ Free }
{
    if keeper.kind(0) == Kind::Stable && keeper.base(0) == 2 {
        keeper.sub(table, 0);
        keeper.sub(table, 0);
    }
    if keeper.kind(0) == Kind::Dying {
        let _ = keeper.reap(table, 0);
    }
    keeper.kind(0) == Kind::Free
}

// Gives the free frame its next life, with words of its own, and publishes it.
fn publish(table: &FrameTable, keeper: &mut Keeper, life: u64)
    requires own { keeper.old.table ≡ table.now }
    requires free { May keeper.old (Raise 0) }
    requires shape { frames_of table.now.shape ≡ 1 }
    requires width { length keeper.old.ledger.frames ≡ 1 }
    requires named { (life : Life) → named_at keeper.old.ledger 0 ≡ Some life → life.frame ≡ 0 }
    ensures own { keeper.new.table ≡ keeper.old.table }
    ensures width { length keeper.new.ledger.frames ≡ 1 }
    ensures named { (life : Life) → named_at keeper.new.ledger 0 ≡ Some life → life.frame ≡ 0 }
{
    keeper.raise(table, 0);
    for i in 0..PAGE_WORDS {
        keeper.put(table, 0, i, word_in(life, i));
    }
    keeper.open(table, 0);
    keeper.add(table, 0);
    keeper.publish(table, 0, 0);
}

/// Makes so many rounds, and tells how many lives the frame had in them.
pub fn keep(table: &FrameTable, keeper: &mut Keeper, rounds: u64) -> u64
    requires own { keeper.old ≡ new_keeper table.now }
    requires shape { frames_of table.now.shape ≡ 1 }
    ensures own { keeper.new.table ≡ table.now }
{
    let mut lives = 0u64;
    for _ in 0..rounds {
        if free(table, keeper) {
            lives = lives.wrapping_add(1);
            publish(table, keeper, lives);
        }
    }
    lives
}
