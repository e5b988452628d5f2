//! What a shared book is made of, before it has a name.
ghost use Rattle.std.specs.Prelude.{◌≡◌, ◌≤◌, true, false, IfOk, IfErr};
ghost use Rattle.ksm_base.specs.Values.{IsShape};
ghost use Rattle.ksm_base.specs.declared.limits.TheConstants.{MOST_PASSES};
ghost use Rattle.frame_table.specs.Seats.{Ends, new_keeper};

use crate::beginning::Scribe;
use crate::opening::Inner;
use crate::seen::SeenTable;
use frame_table::{ClosedTable, FrameTable, Pass};
use ksm_base::{Fault, Shape};
use ksm_book::Journal;
use std::alloc::Global;
use std::marker::Model;

/// A table of frames with its passes, and what is to lie under the merge lock. Contracts see which parts they are.
///
/// They must be spent: `Ksm::open` makes a book of them, or they are closed.
pub struct Parts {
    pub(crate) alloc: Global,
    pub(crate) frames: FrameTable,
    pub(crate) passes: Vec<Pass>,
    pub(crate) inner: Inner,
}

impl Model for Parts {
    ghost use Rattle.std.specs.Prelude.{◌≡◌, replicate};
    ghost use Rattle.frame_table.specs.Seats.{new_pass};
    ghost use Rattle.ksm_shared.specs.Named.{PartsId};
    ghost use Rattle.ksm_shared.specs.Opening.{IsNew, parts_of};

    ghost Value = { PartsId };

    ghost view = { λ p. parts_of p.frames p.inner };

    ghost invariant = { λ p. IsNew (parts_of p.frames p.inner) p.inner
        × (p.passes.items ≡ replicate p.frames.shape.passes (new_pass p.frames)) };
}

impl Parts {
    /// The parts of a book of this shape, with 1 to `MOST_PASSES` callers and a reader of counters for each. The
    /// entries of its journal are counted. Refused for memory alone; then nothing is kept.
    pub fn open(alloc: Global, shape: Shape, callers: u32) -> Result<Parts, Fault>
        requires shape { IsShape shape }
        requires callers { (1 ≤ callers) × (callers ≤ MOST_PASSES) }
        ensures opened { IfOk result
            (λ parts. (parts.frames.shape ≡ shape) × (parts.callers ≡ callers) × (parts.readers ≡ callers)) }
        ensures counted { IfOk result (λ parts. parts.is_kept ≡ false) }
        ensures memory { IfErr result (λ fault. fault ≡ Fault.Memory) }
    {
        let (seen, seat) = SeenTable::of_words(alloc, &[0], &())?;
        let scribe = Scribe::open().ok_or(Fault::Memory)?;
        let (frames, keeper, passes) = FrameTable::open(alloc, shape)?;
        Ok(Parts {
            alloc,
            frames,
            passes,
            inner: Inner {
                shape,
                keeper,
                seen,
                seat,
                scribe,
                journal: Journal::counted(),
                callers,
                readers: callers,
            },
        })
    }

    /// The same for a book whose counters are read under the lock alone: it has no readers, and no rows are published
    /// for them.
    pub fn unread(self) -> Parts
        ensures { result ≡ record self { readers = 0 } }
    {
        let Parts {
            alloc,
            frames,
            passes,
            mut inner,
        } = self;
        inner.readers = 0;
        Parts {
            alloc,
            frames,
            passes,
            inner,
        }
    }

    /// The same for a book that keeps the entries of its journal, so that they can be read. Each command but those
    /// refused for memory then takes nine bytes or more, for good.
    pub fn keeping_journal(self) -> Parts
        ensures { result ≡ record self { is_kept = true } }
    {
        let Parts {
            alloc,
            frames,
            passes,
            mut inner,
        } = self;
        inner.journal = Journal::kept(alloc);
        Parts {
            alloc,
            frames,
            passes,
            inner,
        }
    }

    /// What they were opened with: how many nodes, frames and passes.
    pub fn shape(&self) -> Shape
        ensures shape { result ≡ self.now.frames.shape }
        ensures fits { IsShape result }
    {
        self.inner.shape
    }

    /// Ends them where no book is made of them. No frame was given, and no place names one.
    pub fn close(self) -> ClosedTable
        ensures { (result.shape ≡ self.frames.shape) × Ends (new_keeper self.frames).ledger result }
    {
        let Parts {
            alloc: _,
            frames,
            passes,
            inner,
        } = self;
        frames.close(inner.close(), passes)
    }
}
