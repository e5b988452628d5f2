//! The passes of a table that are not out, and how they are lent and come back: one at a time, while others have the
//! table.
ghost use Rattle.std.specs.Prelude.{◌≡◌, ◌<◌, ◌↔◌, IsTrue, IfOk, IfSome, false, length};
ghost use Rattle.ksm_base.specs.Values.{IsShape};
ghost use Rattle.frame_table.specs.Seats.{new_keeper};
ghost use Rattle.ksm_ffi.specs.Homes.{Judged, JudgesWhole, Lends, all_back, one_back};
ghost use Rattle.ksm_ffi.specs.Passes.{IsIdle};

use crate::answer::Answer;
use crate::reader::Reader;
use frame_table::{FrameTable, Keeper, Pass};
use ksm_base::Shape;
use std::alloc::Global;
use std::marker::Model;
use std::mem::ManuallyDrop;
use std::sync::Arc;

/// The passes of a table that are not out. Contracts see the table's number, how many passes it has, and those that are
/// not out, the last of which is lent next.
pub struct Home {
    table: Arc<FrameTable>,
    // What tells the table's passes from those of others.
    number: u64,
    // How many passes there are. Those that were never out, and those that came back.
    count: usize,
    passes: Vec<Pass>,
    returned: Vec<Reader>,
}

impl Model for Home {
    ghost use Rattle.ksm_ffi.specs.Homes.{HomeView, waiting};
    ghost use Rattle.ksm_ffi.specs.Owned.{IsHome};

    ghost Value = { HomeView };

    ghost view = { λ h. record {
      number = h.number;
      count = h.count;
      back = waiting h.passes.items h.returned.items;
    } };

    ghost invariant = { IsHome };
}

impl Home {
    /// A table with all frames free, all places empty and no pass out, and its keeper. None where there is no memory.
    #[tactic(auto, using(crate::proofs::Waiting::as_waiting))]
    pub fn open(alloc: Global, shape: Shape, number: u64) -> Option<(Arc<FrameTable>, Keeper, Home)>
        requires { IsShape shape }
        ensures table { IfSome result (λ opened. opened.0.value.shape ≡ shape) }
        ensures keeper { IfSome result (λ opened. opened.1 ≡ new_keeper opened.0.value) }
        ensures home { IfSome result (λ opened. opened.2 ≡ all_back opened.0.value number) }
    {
        let count = shape.passes as usize;
        let Ok(returned) = Vec::with_capacity(alloc, count) else {
            return None;
        };
        let Ok((frames, keeper, passes)) = FrameTable::open(alloc, shape) else {
            returned.destroy_empty();
            return None;
        };
        let table = match Arc::new(alloc, frames) {
            Ok(table) => table,
            Err(failed) => {
                drop(failed.value.close(keeper, passes));
                returned.destroy_empty();
                return None;
            }
        };
        let Ok(shared) = Arc::try_clone(&table) else {
            keeper.retire();
            let _kept_for_good = unsafe { ManuallyDrop::new_unchecked(passes) };
            returned.destroy_empty();
            return None;
        };
        let home = Home {
            table,
            number,
            count,
            passes,
            returned,
        };
        Some((shared, keeper, home))
    }

    /// What tells the table's passes from those of others.
    pub fn number(&self) -> u64
        ensures { result ≡ self.now.number }
    {
        self.number
    }

    /// A pass that is not out: the last that came back, or else one that never was out.
    #[tactic(auto, using(crate::proofs::Waiting::as_waiting))]
    pub fn lend(&mut self) -> Result<Reader, Answer>
        ensures lent { Lends self.old result self.new }
        ensures out { IfOk result (λ _. length self.new.back < self.new.count) }
    {
        if let Some(reader) = self.returned.pop() {
            return Ok(reader);
        }
        if self.passes.len() == 0 {
            return Err(Answer::NoPass);
        }
        let Ok(table) = Arc::try_clone(&self.table) else {
            return Err(Answer::Memory);
        };
        match self.passes.pop() {
            Some(pass) => Ok(Reader::new(table, pass)),
            None => unreachable!(),
        }
    }

    /// Whether a pass of a table with this number may come back: it is this table's number, one is out, and the pass
    /// holds nothing.
    pub fn judge_back(&self, reader: &Reader, number: u64) -> Answer
        ensures { Judged self.now reader.now number result }
    {
        if number != self.number || self.is_whole() {
            return Answer::Other;
        }
        if reader.is_idle() {
            Answer::Done
        } else {
            Answer::Holding
        }
    }

    /// Whether these are the passes of the table with this number, and none is out.
    pub fn judge_close(&self, number: u64) -> Answer
        ensures { JudgesWhole self.now number result }
    {
        if number != self.number {
            Answer::Other
        } else if self.is_whole() {
            Answer::Done
        } else {
            Answer::PassesOut
        }
    }

    /// Takes a pass back.
    #[tactic(auto, using(crate::proofs::Waiting::as_waiting))]
    pub fn take_back(&mut self, reader: Reader)
        requires idle { IsIdle reader }
        requires out { length self.old.back < self.old.count }
        ensures { self.new ≡ one_back self.old reader }
    {
        self.returned.push_reserved(reader);
    }

    /// Whether no pass is out.
    #[tactic(auto, using(crate::proofs::Waiting::as_waiting))]
    pub fn is_whole(&self) -> bool
        ensures whole { IsTrue result ↔ length self.now.back ≡ self.now.count }
        ensures less { result ≡ false → length self.now.back < self.now.count }
    {
        self.passes.len() + self.returned.len() == self.count
    }

    /// Lets the passes go that are not out. The table's memory is freed with its last pass that is out.
    pub fn retire(self) {
        let Home {
            table,
            number: _,
            count: _,
            mut passes,
            mut returned,
        } = self;
        'passes: while let Some(pass) = passes.pop() {
            let _kept_for_good = unsafe { ManuallyDrop::new_unchecked(pass) };
        }
        passes.destroy_empty();
        'returned: while let Some(reader) = returned.pop() {
            reader.retire();
        }
        returned.destroy_empty();
        drop(table);
    }
}
