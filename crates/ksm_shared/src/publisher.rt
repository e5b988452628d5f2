//! What follows the journal under the lock, and shows readers the counters after it.
ghost use Rattle.std.specs.Prelude.{◌≡◌, ◌<◌, ◌≤◌, ◌++◌, [], IfOk, IfErr};
ghost use Rattle.ksm_base.specs.Counting.{counters_of};
ghost use Rattle.ksm_base.specs.Journal.{AreAnswers, replay};
ghost use Rattle.ksm_base.specs.State.{opening};
ghost use Rattle.ksm_base.specs.declared.limits.TheConstants.{MOST_PASSES};
ghost use Rattle.left_right.specs.Sides.{view as sight};
ghost use Rattle.ksm_shared.specs.Published.{IsRowOf, list_of, no_sight};

use crate::beginning::Scribe;
use crate::naming::Naming;
use crate::rows::{CountedRow, RowReader, Rows};
use crate::seen::Entry;
use ksm_base::{Counters, Fault};
use ksm_book::Book;
use std::alloc::Global;
use std::marker::Model;
use std::sync::Wait;

/// The rows that readers take, and the scribe who follows the journal for them. Contracts see the journal after which
/// the counters stand that readers are shown.
///
/// It must be closed.
pub struct Publisher<N: Naming> {
    scribe: Scribe,
    rows: Rows<N>,
}

impl<N: Naming> Model for Publisher<N> {
    ghost use Rattle.std.specs.Prelude.{◌≡◌, List};
    ghost use Rattle.ksm_base.specs.Journal.{Entry};

    ghost Value = { List Entry };

    ghost view = { λ p. p.rows.reached.journal };

    ghost invariant = { λ p. (p.scribe ≡ p.rows.reached) × (p.scribe.logbook ≡ N.parts.logbook) };
}

impl<N: Naming> Publisher<N> {
    /// Shows the counters of an empty journal to so many readers. Refused for memory alone.
    pub fn open(
        alloc: Global,
        scribe: Scribe,
        counters: Counters,
        readers: u32,
    ) -> Result<Publisher<N>, Fault>
        requires scribe { (scribe.logbook ≡ N.parts.logbook) × (scribe.journal ≡ []) }
        requires counters { counters ≡ counters_of (opening N.parts.frames.shape) }
        requires readers { (readers ≡ N.parts.readers) × (readers ≤ MOST_PASSES) }
        ensures opened { IfOk result (λ p. p ≡ []) }
        ensures memory { IfErr result (λ fault. fault ≡ Fault.Memory) }
    {
        let row = CountedRow::new(counters, scribe.reached(0));
        let rows = Rows::open(alloc, row, readers as usize)?;
        Ok(Publisher { scribe, rows })
    }

    /// A new reader, of a book that has some: it has not looked. Refused for memory alone.
    pub fn reader(&self) -> Result<RowReader<N>, Fault>
        requires { 0 < N.parts.readers }
        ensures place { IfOk result (λ reader. sight reader.place ≡ no_sight N.parts) }
        ensures memory { IfErr result (λ fault. fault ≡ Fault.Memory) }
    {
        Ok(self.rows.reader()?)
    }

    /// A copy of the row that readers take.
    pub fn newest(&self) -> CountedRow
        ensures row { IsRowOf N.parts result }
        ensures shown { result.reached.journal ≡ self.now }
    {
        self.rows.newest().again()
    }

    /// Follows the journal by its next entry, if there is one, and shows readers the counters of the book after it. It
    /// takes no memory.
    #[inline(always)]
    pub fn follow<R: Wait>(&mut self, rt: &R, next: &Option<Entry>, book: &Book)
        requires legal { AreAnswers (opening N.parts.frames.shape) (self.old ++ list_of next.now) }
        requires leads { book.now.state ≡ replay (opening N.parts.frames.shape) (self.old ++ list_of next.now) }
        requires whole { book.now.journal ≡ self.old ++ list_of next.now }
        ensures { self.new ≡ self.old ++ list_of next.now }
    {
        write(&mut self.scribe, next);
        let reached = self.scribe.reached(book.journal().len() as u64);
        self.rows.show(rt, reached, book);
    }

    /// Ends the copies of the newest row, once no reader is in them.
    pub fn close<R: Wait>(self, rt: &R) {
        let Publisher { scribe: _, rows } = self;
        rows.close(rt);
    }

    /// Leaves the copies where they lie, where a reader was refused.
    pub fn leave(self) {
        let Publisher { scribe: _, rows } = self;
        rows.leave();
    }
}

// Adds the entry to the journal, if there is one.
fn write(scribe: &mut Scribe, next: &Option<Entry>)
    ensures logbook { scribe.new.logbook ≡ scribe.old.logbook }
    ensures journal { scribe.new.journal ≡ scribe.old.journal ++ list_of next.now }
{
    if let Some(entry) = next {
        scribe.add(entry);
    }
}
