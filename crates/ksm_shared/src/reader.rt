//! Readers of counters.
ghost use Rattle.std.specs.Prelude.{◌≡◌, ◌<◌, ◌++◌, ◌∷◌, [], IfNone, IfSome};
ghost use mathlib.Core.List.{IsPrefix};
ghost use Rattle.left_right.specs.Sides.{view as sight};
ghost use Rattle.ksm_shared.specs.Published.{IsRowOf, Looked, Tells, no_sight, row_of};

use crate::answer::Answer;
use crate::naming::Naming;
use crate::row::Row;
use crate::rows::{CountedRow, RowLook, RowReader};
use core::mem::replace_with;
use std::marker::{Model, PhantomData};

/// Reads counters with no lock, from a place of its own among the copies. Contracts see the longest beginning of the
/// journal that it was shown or has learnt of, and the log of its looks: one row for each, the newest one published
/// before it. A look is a step on the copies, and nothing else adds to the log.
#[derive(Drop)]
pub struct CounterReader<N: Naming> {
    reader: RowReader<N>,
    row: CountedRow,
    of: PhantomData<N>,
}

impl<N: Naming> Model for CounterReader<N> {
    ghost use Rattle.std.specs.Prelude.{◌<◌};
    ghost use Rattle.left_right.specs.Sides.{view as sight};
    ghost use Rattle.ksm_shared.specs.Published.{IsRowOf, ReaderView};

    ghost Value = { ReaderView };

    ghost view = { λ r. record { journal = r.row.reached.journal; looks = (sight r.reader.place).looks } };

    ghost invariant = { λ r. (0 < N.parts.readers) × IsRowOf N.parts r.row };
}

impl<N: Naming> CounterReader<N> {
    pub(crate) fn new(reader: RowReader<N>, row: CountedRow) -> CounterReader<N>
        requires readers { 0 < N.parts.readers }
        requires row { IsRowOf N.parts row }
        requires place { sight reader.place ≡ no_sight N.parts }
        ensures { result ≡ record { journal = row.reached.journal; looks = [] } }
    {
        CounterReader {
            reader,
            row,
            of: PhantomData,
        }
    }

    /// From now on no row is shown that has fewer entries than the answer tells of.
    pub fn learn(&mut self, answer: Answer<N>)
        ensures mine { IsPrefix self.old.journal self.new.journal }
        ensures told { IsPrefix answer.shown self.new.journal }
        ensures looks { self.new.looks ≡ self.old.looks }
    {
        self.row.rise(&answer.row);
    }

    /// Looks once: the counters after a beginning of the journal that goes on where the last one ended; none where the
    /// entry was refused.
    pub(crate) fn look(&mut self) -> Option<Row>
        ensures shown { IfSome result
            (λ row. IsPrefix self.old.journal self.new.journal × Tells N.parts row self.new.journal) }
        ensures looked { IfSome result (λ row. Looked self.old row self.new) }
        ensures none { IfNone result (self.new ≡ self.old) }
    {
        let newest = replace_with(&mut self.reader, (), enter)?;
        self.row.rise(&newest);
        Some(Row {
            number: self.row.beginning().len(),
            counters: self.row.counters(),
        })
    }
}

// Enters the copies, and copies the row that is shown; none where the entry was refused.
fn enter<N: Naming>(reader: RowReader<N>, _x: ()) -> (RowReader<N>, Option<CountedRow>)
    ensures row { IfSome result.1 (λ row. IsRowOf N.parts row) }
    ensures looked { IfSome result.1
        (λ row. (sight result.0.place).looks ≡ (sight reader.place).looks ++ row_of row ∷ []) }
    ensures none { IfNone result.1 ((sight result.0.place).looks ≡ (sight reader.place).looks) }
{
    match reader.enter_as::<RowLook<N>>() {
        Ok(reading) => {
            let row = reading.get().again();
            (reading.leave(), Some(row))
        }
        Err(reader) => (reader, None),
    }
}
