//! What lies under the merge lock.
ghost use Rattle.std.specs.Prelude.{◌≡◌, ◌++◌, ◌<◌, ◌≤◌, ℕ, [], Some, true, false, IfOk, IfErr, IfSome};
ghost use Rattle.ksm_base.specs.Journal.{IsLegal, ReadsLastStored, journal_after, last_stored};
ghost use Rattle.ksm_base.specs.Reading.{bytes_of};
ghost use Rattle.ksm_base.specs.Sound.{IsSound};
ghost use Rattle.ksm_book.specs.Carried.{CarriedOut, unjournaled};
ghost use Rattle.ksm_book.specs.Laid.{LoadsIf};
ghost use Rattle.ksm_book.specs.Promised.{LieOn};
ghost use Rattle.ksm_shared.specs.Handed.{missing_of};
ghost use Rattle.ksm_shared.specs.Locked.{Gathered, IsShown, LacksOne, SeesOn, StepsAlone, made, made_by, part_of, said_of};
ghost use Rattle.ksm_shared.specs.Locked.{state_seen};
ghost use Rattle.ksm_shared.specs.Seen.{CallersFit, IsBookSeat, Knows, OwnersBelow, all_at, caller, entries, times};
ghost use Rattle.ksm_shared.specs.Seen.{view_of};

use crate::answer::Answer;
use crate::naming::Naming;
use crate::publisher::Publisher;
use crate::seen::{Entry, Looking, SeenSeat, SeenTable, SeenWords, Shares};
use crate::share::Share;
use crate::tally::{GatherFault, Tally};
use crate::writing::{look, write};
use frame_table::{FrameTable, Keeper};
use ksm_base::laws::a_journal_goes_on;
use ksm_base::{Command, Fault, GuestPage, PageBytes, Reply};
use ksm_book::Book;
use std::marker::{Model, PhantomData};
use std::sync::Wait;

/// The book with the keeper of its frames, its seat among the shares, and what publishes its counters. Contracts see
/// the book, the entries of its journal with their owners, and the entries after which the counters stand that readers
/// are shown.
///
/// Whenever the lock is free: the book lies lawfully in the frames of the table of `N`, its journal is legal and leads
/// to its state and is kept or counted as `N` says, each entry is owned by one of the shares of `N`, and readers are
/// shown the counters after the whole journal (`lies_lawfully`).
pub struct Merge<N: Naming> {
    pub(crate) book: Book,
    pub(crate) seen: SeenTable,
    pub(crate) seat: SeenSeat,
    pub(crate) callers: u32,
    pub(crate) publisher: Publisher<N>,
    pub(crate) of: PhantomData<N>,
}

impl<N: Naming> Model for Merge<N> {
    ghost use Rattle.ksm_shared.specs.Locked.{Locked};
    ghost use Rattle.ksm_shared.specs.Unlocked.{IsUnlocked};

    ghost Value = { Locked };

    ghost view = { λ m. record { book = m.book; log = m.seat.me.0.log; shown = m.publisher } };

    ghost invariant = { IsUnlocked N.parts };
}

impl<N: Naming> Merge<N> {
    /// Makes a command for the share's caller, and shows readers the counters after it. The share owns its entry, and
    /// has then seen the whole journal.
    #[inline(always)]
    pub fn command<R: Wait>(
        &mut self,
        rt: &R,
        frames: &FrameTable,
        share: &mut Share<N>,
        command: &Command,
    ) -> Answer<N>
        requires own { frames.now ≡ N.parts.frames }
        ensures carried { CarriedOut (unjournaled self.old.book) (unjournaled self.new.book) command.now result.result }
        ensures journal { self.new.book.journal ≡ journal_after self.old.book.journal command.now result.result }
        ensures log { self.new.log ≡ self.old.log ++ made_by share.old.number command.now result.result }
        ensures share { share.new ≡ caller share.old.number self.new.log }
        ensures seen { SeesOn N.parts share.old share.new (made_by share.old.number command.now result.result) }
        ensures part { part_of share.new ≡ part_of share.old ++ made command.now result.result }
        ensures published { self.new.shown ≡ entries self.new.log }
        ensures shown { result.shown ≡ entries self.new.log }
    {
        let result = self.carry_out(rt, frames, share, command);
        Answer {
            result,
            row: self.publisher.newest(),
            of: PhantomData,
        }
    }

    /// Makes a command as `command` does, and answers what the book answered. Readers are shown the counters after it
    /// all the same.
    #[inline(always)]
    pub fn carry_out<R: Wait>(
        &mut self,
        rt: &R,
        frames: &FrameTable,
        share: &mut Share<N>,
        command: &Command,
    ) -> Result<Reply, Fault>
        requires own { frames.now ≡ N.parts.frames }
        ensures carried { CarriedOut (unjournaled self.old.book) (unjournaled self.new.book) command.now result }
        ensures journal { self.new.book.journal ≡ journal_after self.old.book.journal command.now result }
        ensures log { self.new.log ≡ self.old.log ++ made_by share.old.number command.now result }
        ensures share { share.new ≡ caller share.old.number self.new.log }
        ensures seen { SeesOn N.parts share.old share.new (made_by share.old.number command.now result) }
        ensures part { part_of share.new ≡ part_of share.old ++ made command.now result }
        ensures alone { StepsAlone N.parts share.old share.new command.now result }
        ensures published { self.new.shown ≡ entries self.new.log }
    {
        a_journal_goes_on();
        let result = self.book.apply(frames, command);
        self.book.lies_lawfully();
        let said = said(*command, result);
        let table = &self.seen;
        write(&table.shared, &mut self.seat, &mut share.seat, &said);
        self.publisher.follow(rt, &said, &self.book);
        result
    }

    /// Shows the share the whole journal, and adds no entry.
    pub fn show(&mut self, share: &mut Share<N>)
        ensures kept { self.new ≡ self.old }
        ensures share { share.new ≡ caller share.old.number self.old.log }
        ensures shown { IsShown N.parts share.old share.new }
        ensures state { self.old.book.state ≡ state_seen N.parts share.new }
    {
        self.book.lies_lawfully();
        let table = &self.seen;
        look(&table.shared, &mut self.seat, &mut share.seat);
    }

    /// The book, for what is read without a step.
    pub fn book(&self) -> &Book
        ensures { result.now ≡ self.now.book }
    {
        &self.book
    }

    /// The bytes of a page, loaded from the words of its frame; none where it has no row. They are those stored last by
    /// the journal.
    pub fn read(&mut self, frames: &FrameTable, page: GuestPage) -> Option<PageBytes>
        requires own { frames.now ≡ N.parts.frames }
        ensures bytes { result ≡ bytes_of page self.old.book.state }
        ensures stored { IfSome result (λ bytes. last_stored page (entries self.old.log) ≡ Some bytes) }
        ensures state { self.new.book.state ≡ self.old.book.state }
        ensures log { self.new.log ≡ self.old.log }
        ensures loads { LoadsIf ((unjournaled self.old.book).frame page) result
            self.old.book.keeper self.new.book.keeper }
    {
        self.book.read(frames, page)
    }

    /// A law, which costs nothing to call: what is true of the locked book whenever the lock is free.
    pub fn lies_lawfully(&self)
        ensures own { self.now.book.keeper.table ≡ N.parts.frames }
        ensures sound { IsSound self.now.book.state }
        ensures placed { LieOn self.now.book.state (unjournaled self.now.book).frame self.now.book.keeper.ledger }
        ensures legal { IsLegal N.parts.frames.shape (entries self.now.log) self.now.book.state }
        ensures stored { ReadsLastStored (entries self.now.log) self.now.book.state.rows }
        ensures journal { self.now.book.journal ≡ entries self.now.log }
        ensures kept { self.now.book.is_kept ≡ N.parts.is_kept }
        ensures owners { OwnersBelow N.parts.callers self.now.log }
        ensures published { self.now.shown ≡ entries self.now.log }
    {
        self.book.lies_lawfully();
    }

    /// What all shares own together, where all shares are here; they are spent. Else they come back.
    pub fn gather(&mut self, shares: Vec<Share<N>>) -> Result<Tally<N>, GatherFault<N>>
        ensures kept { self.new ≡ self.old }
        ensures all { IfOk result
            (λ tally. (tally ≡ self.old.log) × Gathered N.parts.callers self.old.log shares.items) }
        ensures missing { IfErr result
            (λ fault. (missing_of fault ≡ shares.items) × LacksOne N.parts.callers shares.items) }
    {
        if shares.len() < self.callers as usize {
            return Err(GatherFault::Missing(shares));
        }
        let table = &self.seen;
        let seat = join_all(&table.shared, &mut self.seat, shares);
        let entries = self.book.journal().len() as u64;
        Ok(Tally {
            entries,
            seat,
            of: PhantomData,
        })
    }

    /// A law, which costs nothing to call: since all shares are gathered, no command was made.
    pub fn is_gathered(&mut self, tally: Tally<N>)
        ensures kept { self.new ≡ self.old }
        ensures log { tally ≡ self.old.log }
    {
        let Tally {
            entries: _,
            seat,
            of: _,
        } = tally;
        let table = &self.seen;
        rejoin(&table.shared, &mut self.seat, seat);
    }

    /// The keeper, as it is. Readers are shown nothing from then on.
    pub(crate) fn close<R: Wait>(self, rt: &R) -> Keeper
        ensures { result ≡ self.book.keeper }
    {
        let Merge {
            book,
            seen: _,
            seat: _,
            callers: _,
            publisher,
            of: _,
        } = self;
        publisher.close(rt);
        book.close()
    }

    /// The keeper, where a reader was refused at the opening.
    pub(crate) fn leave(self) -> Keeper
        ensures { result ≡ self.book.keeper }
    {
        let Merge {
            book,
            seen: _,
            seat: _,
            callers: _,
            publisher,
            of: _,
        } = self;
        publisher.leave();
        book.close()
    }
}

// Joins the shares to the book's seat, looks, and cuts them off, all together.
fn join_all<N: Naming>(table: &SeenWords, book: &mut SeenSeat, shares: Vec<Share<N>>) -> SeenSeat
    requires table { (book.old.table_id ≡ table.now.table_id) × (N.parts.seen ≡ table.now.table_id)
        × (0 < table.now.table_id.words) }
    requires book { IsBookSeat book.old.me }
    ensures table { book.new.table_id ≡ book.old.table_id }
    ensures book { book.new.me ≡ book.old.me }
    ensures fits { CallersFit book.old.me.0.log book.old.me.0.shares shares.items }
    ensures once { (number : ℕ) → times number shares.items ≤ 1 }
    ensures seat { (result.table_id ≡ table.now.table_id) × (result.me ≡ all_at shares.items book.old.me.0.log) }
{
    for share in shares {
        let Share { seat, of: _ } = share;
        table.join_seat::<Shares>(book, seat);
    }
    table.load::<Looking>(book, 0);
    table.split_seat::<Shares>(book)
}

// Joins shares that were cut off together to the book's seat, looks, and lets them go.
fn rejoin(table: &SeenWords, book: &mut SeenSeat, all: SeenSeat)
    requires table { (book.old.table_id ≡ table.now.table_id) × (all.table_id ≡ table.now.table_id)
        × (0 < table.now.table_id.words) }
    requires book { IsBookSeat book.old.me }
    requires all { all.me ≡ (view_of false [] 0 all.me.0.callers, []) }
    ensures table { book.new.table_id ≡ book.old.table_id }
    ensures book { book.new.me ≡ book.old.me }
    ensures knows { Knows (view_of true book.old.me.0.log book.old.me.0.shares all.me.0.callers) }
{
    table.join_seat::<Shares>(book, all);
    table.load::<Looking>(book, 0);
    let _gone = table.split_seat::<Shares>(book);
}

// The entry of a command; none where it was refused for memory.
fn said(command: Command, answer: Result<Reply, Fault>) -> Option<Entry>
    ensures { result ≡ said_of command answer }
{
    match answer {
        Err(Fault::Memory) => None,
        _ => Some((command, answer)),
    }
}
