//! Rows of counters, and the two copies of the newest one that readers take with no lock. A row is written whole to the
//! copy that no reader has, and readers take that one from then on; so to show a row takes no memory.
ghost use Rattle.std.specs.Prelude.{◌≡◌, ◌<◌, ◌^◌, ◌⊎◌, IfOk, length};
ghost use mathlib.Core.List.{IsPrefix};
ghost use Rattle.left_right.specs.Sides.{view as sight};
ghost use Rattle.ksm_shared.specs.Published.{IsRowOf, no_sight, row_at};

use crate::beginning::Beginning;
use crate::naming::Naming;
use crate::row::Sight;
use core::mem::replace_with;
use crossbeam_utils::rule::{Outcome, Protocol};
use ksm_base::Counters;
use ksm_book::Book;
use left_right::Absorb;
use left_right::reader::Reader;
use left_right::writer::Writer;
use std::alloc::{AllocError, Global};
use std::marker::{Model, PhantomData};
use std::mem::ManuallyDrop;
use std::sync::Wait;

/// Counters, and the beginning of the journal after which they stand.
#[derive(Drop)]
pub struct CountedRow {
    counters: Counters,
    beginning: Beginning,
}

impl Model for CountedRow {
    ghost use Rattle.ksm_shared.specs.Published.{ShownRow};

    ghost Value = { ShownRow };

    ghost view = { λ r. record { counters = r.counters; reached = r.beginning } };
}

impl CountedRow {
    /// A row of these counters, which stand after this beginning of the journal.
    pub fn new(counters: Counters, beginning: Beginning) -> CountedRow
        ensures { (result.counters ≡ counters) × (result.reached ≡ beginning) }
    {
        CountedRow {
            counters,
            beginning,
        }
    }

    /// A copy.
    pub fn again(&self) -> CountedRow
        ensures { result ≡ self.now }
    {
        CountedRow {
            counters: self.counters,
            beginning: self.beginning.again(),
        }
    }

    /// The beginning of the journal.
    pub fn beginning(&self) -> &Beginning
        ensures { result.now ≡ self.now.reached }
    {
        &self.beginning
    }

    /// The counters after it.
    pub fn counters(&self) -> Counters
        ensures { result ≡ self.now.counters }
    {
        self.counters
    }

    /// Takes the other row, where that goes on where this one ends.
    pub fn rise(&mut self, other: &CountedRow)
        requires { other.now.reached.logbook ≡ self.old.reached.logbook }
        ensures one { (self.new ≡ other.now)
            ⊎ ((length other.now.reached.journal < length self.old.reached.journal) × (self.new ≡ self.old)) }
        ensures rises { IsPrefix self.old.reached.journal self.new.reached.journal
            × IsPrefix other.now.reached.journal self.new.reached.journal }
    {
        if self.beginning.begins(&other.beginning) {
            *self = other.again();
        }
    }
}

// A row is written whole to one copy, and no operation is logged for the other: so there is nothing to absorb.
impl Absorb<()> for CountedRow {
    type State = ();

    ghost state = { λ _. tt };

    ghost applied = { λ nothing _. nothing };

    fn absorb_first(&mut self, _operation: &(), _other: &CountedRow) -> Result<(), AllocError> {
        Ok(())
    }
}

/// Rows of the parts of `N` never go back.
pub struct RowsGoOn<N> {
    of: PhantomData<N>,
}

impl<N: Naming> Protocol<CountedRow, Sight> for RowsGoOn<N> {
    ghost use Rattle.ksm_shared.specs.Published.{RowsGoOn as Kept, no_sight};

    ghost holds = { Kept N.parts };

    ghost first = { no_sight N.parts };
}

// What is told where a row is shown.
impl<N: Naming> Outcome<CountedRow, Sight> for RowsGoOn<N> {
    ghost use Rattle.ksm_shared.specs.Published.{Shows};

    ghost then = { Shows N.parts };
}

/// A look at the row that is shown.
pub struct RowLook<N> {
    of: PhantomData<N>,
}

impl<N: Naming> Outcome<CountedRow, Sight> for RowLook<N> {
    ghost use Rattle.ksm_shared.specs.Published.{Looks};

    ghost then = { Looks N.parts };
}

/// Enters a copy of the newest row.
pub type RowReader<N> = Reader<CountedRow, Sight, RowsGoOn<N>>;

/// Writes both copies.
pub type RowWriter<N> = Writer<CountedRow, (), Sight, RowsGoOn<N>>;

/// The newest row, and the two copies that readers take it from. Where the book has no readers there are none, and the
/// row says only how far the journal has come. Contracts see the newest row.
///
/// They must be closed.
pub struct Rows<N: Naming> {
    newest: CountedRow,
    copies: Option<RowWriter<N>>,
}

impl<N: Naming> Model for Rows<N> {
    ghost use Rattle.std.specs.Prelude.{◌≡◌, IfNone, IfSome};
    ghost use Rattle.ksm_shared.specs.Published.{IsRowOf, ShownRow};

    ghost Value = { ShownRow };

    ghost view = { λ r. r.newest };

    ghost invariant = { λ r. IsRowOf N.parts r.newest × IfNone r.copies (N.parts.readers ≡ 0)
        × IfSome r.copies (λ w. w.desk.shown.value ≡ r.newest) };
}

impl<N: Naming> Rows<N> {
    /// The first row, and copies of it for so many readers.
    pub fn open(alloc: Global, row: CountedRow, readers: usize) -> Result<Rows<N>, AllocError>
        requires readers { (readers ≡ N.parts.readers) × (readers < 2 ^ 32) }
        requires row { IsRowOf N.parts row }
        ensures { IfOk result (λ rows. rows ≡ row) }
    {
        if readers == 0 {
            return Ok(Rows {
                newest: row,
                copies: None,
            });
        }
        let copies = two_copies(alloc, &row, readers)?;
        Ok(Rows {
            newest: row,
            copies: Some(copies),
        })
    }

    /// A new reader, in a place of its own, which has not looked.
    pub fn reader(&self) -> Result<RowReader<N>, AllocError>
        requires { 0 < N.parts.readers }
        ensures { IfOk result (λ reader. sight reader.place ≡ no_sight N.parts) }
    {
        match &self.copies {
            Some(copies) => new_reader(copies),
            None => unreachable!(),
        }
    }

    /// The row that readers take.
    pub fn newest(&self) -> &CountedRow
        ensures { (result.now ≡ self.now) × IsRowOf N.parts self.now }
    {
        &self.newest
    }

    /// Shows the counters of the book, after this beginning of its journal: who enters the copies from now on takes
    /// them. It waits for the readers of the row before the last one. Without readers no counters are taken.
    #[inline(always)]
    pub fn show<R: Wait>(&mut self, rt: &R, reached: Beginning, book: &Book)
        requires begins { IsPrefix self.old.reached.journal reached.journal }
        requires row { IsRowOf N.parts (row_at book.now.state reached) }
        ensures { self.new.reached ≡ reached }
    {
        match &mut self.copies {
            Some(copies) => {
                let row = CountedRow::new(book.counters(), reached);
                replace_with(copies, (rt, row.again()), publish);
                self.newest = row;
            }
            None => self.newest.beginning = reached,
        }
    }

    /// Ends the copies, once no reader is in them.
    pub fn close<R: Wait>(self, rt: &R) {
        let Rows { newest: _, copies } = self;
        match copies {
            Some(copies) => drop(copies.take(rt)),
            None => (),
        }
    }

    /// Leaves the copies where they lie, for good. Their writer must be spent, and only a wait for its readers spends
    /// it; an opening has no handle to wait by. What is left is never freed, so a reader in it would find its copy as
    /// it was. No run comes here, as a place is refused only where all are taken; but no clause of `left_right` says
    /// so.
    pub fn leave(self) {
        let Rows { newest: _, copies } = self;
        let _left = unsafe { ManuallyDrop::new_unchecked(copies) };
    }
}

// Two copies of the row, with places for so many readers.
fn two_copies<N: Naming>(
    alloc: Global,
    row: &CountedRow,
    readers: usize,
) -> Result<RowWriter<N>, AllocError>
    requires readers { (0 < readers) × (readers < 2 ^ 32) }
    requires row { IsRowOf N.parts row.now }
    ensures { IfOk result (λ w. w.desk.shown.value ≡ row.now) }
{
    RowWriter::new(alloc, row.again(), row.again(), readers)
}

fn new_reader<N: Naming>(writer: &RowWriter<N>) -> Result<RowReader<N>, AllocError>
    ensures { IfOk result (λ reader. sight reader.place ≡ no_sight N.parts) }
{
    writer.factory().reader()
}

// Writes the row to the copy that no reader has, and has readers take that copy.
fn publish<N: Naming, R: Wait>(writer: RowWriter<N>, next: (&R, CountedRow)) -> (RowWriter<N>, ())
    requires begins { IsPrefix writer.desk.shown.value.reached.journal next.1.reached.journal }
    requires row { IsRowOf N.parts next.1 }
    ensures { result.0.desk.shown.value ≡ next.entry.1 }
{
    let mut writer = writer;
    let (rt, row) = next;
    let (open, mut spare) = writer.desk.open(rt);
    *spare = row;
    writer.desk = open.show_as::<RowsGoOn<N>>(spare);
    (writer, ())
}
