//! What is to lie under the merge lock, and how it is opened.
ghost use Rattle.std.specs.Prelude.{◌≡◌, ◌<◌, ◌≤◌, [], IfOk, IfErr, replicate, vec_len, vec_capacity};
ghost use Rattle.frame_table.specs.Seats.{new_keeper};
ghost use Rattle.ksm_shared.specs.Locked.{fresh};
ghost use Rattle.ksm_shared.specs.Opening.{IsNew, IsOpeningLock};
ghost use Rattle.ksm_shared.specs.Published.{new_reader};
ghost use Rattle.ksm_shared.specs.Seen.{book_view};

use crate::beginning::Scribe;
use crate::merge::Merge;
use crate::naming::Naming;
use crate::publisher::Publisher;
use crate::reader::CounterReader;
use crate::seen::{SeenSeat, SeenTable, SeenWords};
use crate::share::Share;
use crate::writing::mint;
use frame_table::Keeper;
use ksm_base::{Fault, Shape};
use ksm_book::{Book, Journal};
use std::alloc::Global;
use std::marker::PhantomData;

/// What is to lie under the merge lock: the keeper, the table of what shares have seen with the book's seat there, the
/// scribe of the logbook by which beginnings of the journal are compared, and the empty journal.
pub(crate) struct Inner {
    pub shape: Shape,
    pub keeper: Keeper,
    pub seen: SeenTable,
    pub seat: SeenSeat,
    pub scribe: Scribe,
    pub journal: Journal,
    pub callers: u32,
    pub readers: u32,
}

impl Inner {
    /// The keeper, where no book is made.
    pub fn close(self) -> Keeper
        ensures { result ≡ self.keeper }
    {
        let Inner {
            shape: _,
            keeper,
            seen: _,
            seat: _,
            scribe: _,
            journal: _,
            callers: _,
            readers: _,
        } = self;
        keeper
    }
}

/// The book that is to lie under the lock, with a share for each caller, and the readers of counters. Refused for
/// memory alone, it gives the keeper back.
pub(crate) fn open_lock<N: Naming>(
    alloc: Global,
    inner: Inner,
) -> Result<(Merge<N>, Vec<Share<N>>, Vec<CounterReader<N>>), (Keeper, Fault)>
    requires { IsNew N.parts inner }
    ensures book { IfOk result (λ opened. IsOpeningLock N.parts opened.0) }
    ensures shares { IfOk result (λ opened. opened.1.items ≡ fresh N.parts.callers) }
    ensures readers { IfOk result (λ opened. opened.2.items ≡ replicate N.parts.readers new_reader) }
    ensures refused { IfErr result (λ e. (e.0 ≡ new_keeper N.parts.frames) × (e.1 ≡ Fault.Memory)) }
{
    let count = inner.readers;
    let Ok((mut shares, mut readers)) = room(alloc, inner.callers, count) else {
        return Err((inner.close(), Fault::Memory));
    };
    let merge = open_merge(alloc, inner, &mut shares)?;
    match take_readers(&merge.publisher, &mut readers, count) {
        Ok(()) => Ok((merge, shares, readers)),
        Err(fault) => Err((merge.leave(), fault)),
    }
}

// Room for what callers are handed.
fn room<N: Naming>(
    alloc: Global,
    callers: u32,
    count: u32,
) -> Result<(Vec<Share<N>>, Vec<CounterReader<N>>), Fault>
    ensures shares { IfOk result
        (λ room. (room.0.items ≡ []) × (vec_len room.0 ≡ 0) × (callers ≤ vec_capacity room.0)) }
    ensures readers { IfOk result (λ room. (room.1.items ≡ []) × (vec_len room.1 ≡ 0) × (count ≤ vec_capacity room.1)) }
    ensures memory { IfErr result (λ fault. fault ≡ Fault.Memory) }
{
    let shares = Vec::with_capacity(alloc, callers as usize)?;
    let readers = Vec::with_capacity(alloc, count as usize)?;
    Ok((shares, readers))
}

// The opening book, of which a share is cut for each caller. Refused for memory alone, it gives the keeper back.
fn open_merge<N: Naming>(
    alloc: Global,
    inner: Inner,
    shares: &mut Vec<Share<N>>,
) -> Result<Merge<N>, (Keeper, Fault)>
    requires inner { IsNew N.parts inner }
    requires room { (shares.old.items ≡ []) × (vec_len shares.old ≡ 0) × (N.parts.callers ≤ vec_capacity shares.old) }
    ensures opened { IfOk result (IsOpeningLock N.parts) }
    ensures shares { IfOk result (λ _. shares.new.items ≡ fresh N.parts.callers) }
    ensures refused { IfErr result (λ e. (e.0 ≡ new_keeper N.parts.frames) × (e.1 ≡ Fault.Memory)) }
{
    let Inner {
        shape,
        keeper,
        seen,
        mut seat,
        scribe,
        journal,
        callers,
        readers,
    } = inner;
    let book = Book::open(alloc, keeper, shape, journal)?;
    let counters = book.counters();
    let publisher = match Publisher::open(alloc, scribe, counters, readers) {
        Ok(publisher) => publisher,
        Err(fault) => return Err((book.close(), fault)),
    };
    mint_all(&seen.shared, &mut seat, shares, callers);
    Ok(Merge {
        book,
        seen,
        seat,
        callers,
        publisher,
        of: PhantomData,
    })
}

// So many readers, each in a place of its own. Refused for memory alone.
fn take_readers<N: Naming>(
    publisher: &Publisher<N>,
    readers: &mut Vec<CounterReader<N>>,
    count: u32,
) -> Result<(), Fault>
    requires publisher { publisher.now ≡ [] }
    requires count { count ≡ N.parts.readers }
    requires room { (readers.old.items ≡ []) × (vec_len readers.old ≡ 0) × (count ≤ vec_capacity readers.old) }
    ensures readers { IfOk result (λ _. readers.new.items ≡ replicate count new_reader) }
    ensures memory { IfErr result (λ fault. fault ≡ Fault.Memory) }
{
    for _ in 0..count {
        let reader = CounterReader::new(publisher.reader()?, publisher.newest());
        readers.push_reserved(reader);
    }
    Ok(())
}

// A share for each caller.
fn mint_all<N: Naming>(
    table: &SeenWords,
    book: &mut SeenSeat,
    shares: &mut Vec<Share<N>>,
    callers: u32,
)
    requires table { (book.old.table_id ≡ table.now.table_id) × (N.parts.seen ≡ table.now.table_id)
        × (0 < table.now.table_id.words) }
    requires book { book.old.me ≡ (book_view [] 0, []) }
    requires room { (shares.old.items ≡ []) × (vec_len shares.old ≡ 0) × (callers ≤ vec_capacity shares.old) }
    ensures table { book.new.table_id ≡ table.now.table_id }
    ensures book { book.new.me ≡ (book_view [] callers, []) }
    ensures shares { shares.new.items ≡ fresh callers }
{
    for _ in 0..callers {
        let seat = mint(table, book);
        shares.push_reserved(Share {
            seat,
            of: PhantomData,
        });
    }
}
