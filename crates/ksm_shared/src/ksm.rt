//! What callers share: the table of frames, and the book behind the merge lock.
ghost use Rattle.std.specs.Prelude.{◌≡◌, ◌++◌, ◌<◌, List, [], Some, true, false, All, IfOk, IfErr, IfNone, IfSome};
ghost use Rattle.std.specs.Prelude.{IsSome, option_map, replicate, vec_len};
ghost use mathlib.Core.List.{IsPrefix};
ghost use Rattle.ksm_base.specs.Counting.{counters_of};
ghost use Rattle.ksm_base.specs.Journal.{last_stored};
ghost use Rattle.ksm_base.specs.Reading.{bytes_of, mappers_of, ticket_of};
ghost use Rattle.ksm_base.specs.Refusals.{is_known};
ghost use Rattle.ksm_base.specs.Values.{frames_of};
ghost use Rattle.frame_table.specs.Equal.{LooksUpEqual};
ghost use Rattle.frame_table.specs.Lookup.{LooksUp};
ghost use Rattle.frame_table.specs.Seats.{new_pass};
ghost use Rattle.ksm_shared.specs.declared.seen.Owned.{Owned};
ghost use Rattle.ksm_shared.specs.Locked.{EndsAfter, EndsLawfully, IsShown, SeesOn, StepsAlone, fresh, made, made_by};
ghost use Rattle.ksm_shared.specs.Locked.{part_of, state_seen};
ghost use Rattle.ksm_shared.specs.Published.{Looked, Tells, new_reader};
ghost use Rattle.ksm_shared.specs.Seen.{CallersFit, OwnersBelow, entries};

use crate::answer::Answer;
use crate::merge::Merge;
use crate::naming::Naming;
use crate::opening::open_lock;
use crate::parts::Parts;
use crate::reader::CounterReader;
use crate::row::Row;
use crate::share::Share;
use crate::tally::Tally;
use frame_table::{ClosedTable, Found, FoundEqual, FrameTable, Pass};
use ksm_base::laws::a_journal_goes_on;
use ksm_base::{Command, Counters, Fault, GuestPage, Knobs, PageBytes, Reply};
use std::alloc::Global;
use std::marker::Model;
use std::sync::{Mutex, MutexGuard, Wait};

/// One book for several callers. Each call that takes the lock is handed the caller's share; lookups take no lock.
///
/// It must be closed.
pub struct Ksm<N: Naming> {
    frames: FrameTable,
    pub(crate) merge: Mutex<Merge<N>>,
}

impl<N: Naming> Model for Ksm<N> {
    ghost use Rattle.std.specs.Prelude.{◌≡◌};
    ghost use Rattle.frame_table.specs.Named.{TableName};

    ghost Value = { TableName };

    ghost view = { λ k. k.frames };

    ghost invariant = { λ k. k.frames ≡ N.parts.frames };
}

impl<N: Naming> Ksm<N> {
    /// The opening book, with its passes, a share for each caller, and the readers of counters, each with its place. No
    /// share has seen an entry, and there is none: each is owned by a share, and behind what a share has seen comes
    /// none of its own. Refused for memory alone; what was opened by then is closed.
    pub fn open(
        parts: Parts,
    ) -> Result<(Ksm<N>, Vec<Pass>, Vec<Share<N>>, Vec<CounterReader<N>>), Fault>
        requires { parts ≡ N.parts }
        ensures passes { IfOk result
            (λ opened. opened.1.items ≡ replicate N.parts.frames.shape.passes (new_pass N.parts.frames)) }
        ensures shares { IfOk result (λ opened. opened.2.items ≡ fresh N.parts.callers) }
        ensures readers { IfOk result (λ opened. opened.3.items ≡ replicate N.parts.readers new_reader) }
        ensures empty { IfOk result (λ opened. (log : List Owned) → OwnersBelow N.parts.callers log
            → CallersFit log N.parts.callers opened.2.items → log ≡ []) }
        ensures memory { IfErr result (λ fault. fault ≡ Fault.Memory) }
    {
        let Parts {
            alloc,
            frames,
            passes,
            inner,
        } = parts;
        let (merge, shares, readers) = match open_lock(alloc, inner) {
            Ok(opened) => opened,
            Err((keeper, fault)) => {
                drop(frames.close(keeper, passes));
                return Err(fault);
            }
        };
        let merge = Mutex::new(merge);
        Ok((Ksm { frames, merge }, passes, shares, readers))
    }

    /// Takes the merge lock, for several calls in a row. Until it is given back (`MutexGuard::unlock`) no other call of
    /// this book that takes the lock returns; lookups and rows of counters go on. Of the book that is lent nothing is
    /// known but what `Merge::lies_lawfully` says.
    pub fn lock<'a, R: Wait>(&'a self, rt: &R) -> MutexGuard<'a, Merge<N>> {
        self.merge.lock(rt)
    }

    /// Makes a command. The share owns its entry, but for want of memory, and has then seen a legal journal that ends
    /// with it. The answer tells how many entries that journal has, after which the counters stand that readers are
    /// shown.
    pub fn command<R: Wait>(&self, rt: &R, share: &mut Share<N>, command: &Command) -> Answer<N>
        ensures seen { SeesOn N.parts share.old share.new (made_by share.old.number command.now result.result) }
        ensures part { part_of share.new ≡ part_of share.old ++ made command.now result.result }
        ensures alone { StepsAlone N.parts share.old share.new command.now result.result }
        ensures shown { result.shown ≡ entries share.new.seen }
    {
        a_journal_goes_on();
        let mut merge = self.merge.lock(rt);
        let answer = merge.command(rt, &self.frames, share, command);
        MutexGuard::unlock(merge);
        answer
    }

    /// Makes a command as `command` does, and answers what the book answered, with no row. Readers are shown the
    /// counters after it all the same.
    pub fn carry_out<R: Wait>(
        &self,
        rt: &R,
        share: &mut Share<N>,
        command: &Command,
    ) -> Result<Reply, Fault>
        ensures seen { SeesOn N.parts share.old share.new (made_by share.old.number command.now result) }
        ensures part { part_of share.new ≡ part_of share.old ++ made command.now result }
        ensures alone { StepsAlone N.parts share.old share.new command.now result }
    {
        let mut merge = self.merge.lock(rt);
        let result = merge.carry_out(rt, &self.frames, share, command);
        MutexGuard::unlock(merge);
        result
    }

    /// Makes a command as `carry_out` does, for whoever has the book alone: no lock is taken.
    #[inline(always)]
    pub fn carry_out_alone<R: Wait>(
        &mut self,
        rt: &R,
        share: &mut Share<N>,
        command: &Command,
    ) -> Result<Reply, Fault>
        ensures seen { SeesOn N.parts share.old share.new (made_by share.old.number command.now result) }
        ensures part { part_of share.new ≡ part_of share.old ++ made command.now result }
        ensures alone { StepsAlone N.parts share.old share.new command.now result }
    {
        let merge = self.merge.get_mut();
        merge.carry_out(rt, &self.frames, share, command)
    }

    /// The bytes of a page, loaded from the words of its frame; none where it has no row. They are those stored last by
    /// the journal that the share then has seen.
    pub fn read<R: Wait>(&self, rt: &R, share: &mut Share<N>, page: GuestPage) -> Option<PageBytes>
        ensures shown { IsShown N.parts share.old share.new }
        ensures bytes { result ≡ bytes_of page (state_seen N.parts share.new) }
        ensures stored { IfSome result (λ bytes. last_stored page (entries share.new.seen) ≡ Some bytes) }
    {
        let mut merge = self.merge.lock(rt);
        merge.show(share);
        let bytes = merge.read(&self.frames, page);
        MutexGuard::unlock(merge);
        bytes
    }

    /// Reads a page as `read` does, for whoever has the book alone: no lock is taken.
    #[inline(always)]
    pub fn read_alone(&mut self, share: &mut Share<N>, page: GuestPage) -> Option<PageBytes>
        ensures shown { IsShown N.parts share.old share.new }
        ensures bytes { result ≡ bytes_of page (state_seen N.parts share.new) }
        ensures stored { IfSome result (λ bytes. last_stored page (entries share.new.seen) ≡ Some bytes) }
    {
        let merge = self.merge.get_mut();
        merge.show(share);
        merge.read(&self.frames, page)
    }

    /// The place of the dup into which a page is merged; none where it is not merged.
    pub fn ticket<R: Wait>(&self, rt: &R, share: &mut Share<N>, page: GuestPage) -> Option<u32>
        ensures shown { IsShown N.parts share.old share.new }
        ensures ticket { result ≡ ticket_of page (state_seen N.parts share.new) }
    {
        let mut merge = self.merge.lock(rt);
        merge.show(share);
        let place = merge.book().ticket(page);
        MutexGuard::unlock(merge);
        place
    }

    /// The place of a page as `ticket` tells it, for whoever has the book alone: no lock is taken.
    #[inline(always)]
    pub fn ticket_alone(&mut self, share: &mut Share<N>, page: GuestPage) -> Option<u32>
        ensures shown { IsShown N.parts share.old share.new }
        ensures ticket { result ≡ ticket_of page (state_seen N.parts share.new) }
    {
        let merge = self.merge.get_mut();
        merge.show(share);
        merge.book().ticket(page)
    }

    /// The same of a page that is registered; none where it is not. The lock is taken once.
    pub fn ticket_if_known<R: Wait>(
        &self,
        rt: &R,
        share: &mut Share<N>,
        page: GuestPage,
    ) -> Option<Option<u32>>
        ensures shown { IsShown N.parts share.old share.new }
        ensures known { IfSome result (λ place. (is_known (state_seen N.parts share.new) page ≡ true)
            × (place ≡ ticket_of page (state_seen N.parts share.new))) }
        ensures unknown { IfNone result (is_known (state_seen N.parts share.new) page ≡ false) }
    {
        let mut merge = self.merge.lock(rt);
        merge.show(share);
        let book = merge.book();
        let known = book.registered(page);
        let place = book.ticket(page);
        MutexGuard::unlock(merge);
        if known { Some(place) } else { None }
    }

    /// Whether the page is registered.
    pub fn registered<R: Wait>(&self, rt: &R, share: &mut Share<N>, page: GuestPage) -> bool
        ensures shown { IsShown N.parts share.old share.new }
        ensures registered { result ≡ is_known (state_seen N.parts share.new) page }
    {
        let mut merge = self.merge.lock(rt);
        merge.show(share);
        let known = merge.book().registered(page);
        MutexGuard::unlock(merge);
        known
    }

    /// Whether the page is registered, for whoever has the book alone: no lock is taken.
    #[inline(always)]
    pub fn registered_alone(&mut self, share: &mut Share<N>, page: GuestPage) -> bool
        ensures shown { IsShown N.parts share.old share.new }
        ensures registered { result ≡ is_known (state_seen N.parts share.new) page }
    {
        let merge = self.merge.get_mut();
        merge.show(share);
        merge.book().registered(page)
    }

    /// The counters.
    pub fn counters<R: Wait>(&self, rt: &R, share: &mut Share<N>) -> Counters
        ensures shown { IsShown N.parts share.old share.new }
        ensures counters { result ≡ counters_of (state_seen N.parts share.new) }
    {
        let mut merge = self.merge.lock(rt);
        merge.show(share);
        let counters = merge.book().counters();
        MutexGuard::unlock(merge);
        counters
    }

    /// The counters, for whoever has the book alone: no lock is taken.
    #[inline(always)]
    pub fn counters_alone(&mut self, share: &mut Share<N>) -> Counters
        ensures shown { IsShown N.parts share.old share.new }
        ensures counters { result ≡ counters_of (state_seen N.parts share.new) }
    {
        let merge = self.merge.get_mut();
        merge.show(share);
        merge.book().counters()
    }

    /// The knobs.
    pub fn knobs<R: Wait>(&self, rt: &R, share: &mut Share<N>) -> Knobs
        ensures shown { IsShown N.parts share.old share.new }
        ensures knobs { result ≡ (state_seen N.parts share.new).knobs }
    {
        let mut merge = self.merge.lock(rt);
        merge.show(share);
        let knobs = merge.book().knobs();
        MutexGuard::unlock(merge);
        knobs
    }

    /// The knobs, for whoever has the book alone: no lock is taken.
    #[inline(always)]
    pub fn knobs_alone(&mut self, share: &mut Share<N>) -> Knobs
        ensures shown { IsShown N.parts share.old share.new }
        ensures knobs { result ≡ (state_seen N.parts share.new).knobs }
    {
        let merge = self.merge.get_mut();
        merge.show(share);
        merge.book().knobs()
    }

    /// The pages merged into the dup at a place, ascending; none where no dup with items stands there. Refused for
    /// memory alone, and only where pages are there.
    pub fn mappers<R: Wait>(
        &self,
        rt: &R,
        alloc: Global,
        share: &mut Share<N>,
        place: u32,
    ) -> Result<Option<Vec<GuestPage>>, Fault>
        ensures shown { IsShown N.parts share.old share.new }
        ensures mappers { IfOk result
            (λ pages. option_map (λ v. v.items) pages ≡ mappers_of place (state_seen N.parts share.new)) }
        ensures memory { IfErr result (λ fault. fault ≡ Fault.Memory) }
        ensures refused { IfErr result (λ _. IsSome (mappers_of place (state_seen N.parts share.new))) }
    {
        let mut merge = self.merge.lock(rt);
        merge.show(share);
        let mappers = merge.book().mappers(alloc, place);
        MutexGuard::unlock(merge);
        mappers
    }

    /// The counters after the first `number` entries of the journal. It takes no lock. The journal goes on where the
    /// reader's last row ended, and begins with what each answer told of that the reader has learnt. The reader looks
    /// once, and the row is the newest one published before the look, but where the reader has learnt of a later one.
    /// None where the reader's entry into its place was refused.
    pub fn counters_now(&self, reader: &mut CounterReader<N>) -> Option<Row>
        ensures shown { IfSome result
            (λ row. IsPrefix reader.old.journal reader.new.journal × Tells N.parts row reader.new.journal) }
        ensures looked { IfSome result (λ row. Looked reader.old row reader.new) }
        ensures none { IfNone result (reader.new ≡ reader.old) }
    {
        reader.look()
    }

    /// The table of frames, for lookups. It takes no lock.
    pub fn table(&self) -> &FrameTable
        ensures { result.now ≡ N.parts.frames }
    {
        &self.frames
    }

    /// Looks a place up, and takes a reference on the frame that it names. It takes no lock.
    pub fn find(&self, pass: Pass, place: u32) -> Found
        requires own { pass.table ≡ N.parts.frames }
        requires inside { place < frames_of N.parts.frames.shape }
        ensures { LooksUp pass place result }
    {
        pass.find(&self.frames, place)
    }

    /// Looks a place up as `find` does, and compares the words of the frame with the page. It takes no lock.
    pub fn find_equal(&self, pass: Pass, place: u32, page: &PageBytes) -> FoundEqual
        requires own { pass.table ≡ N.parts.frames }
        requires inside { place < frames_of N.parts.frames.shape }
        ensures { LooksUpEqual pass place page.now result }
    {
        pass.find_equal(&self.frames, place, page)
    }

    /// Ends the book, with all its passes. Nobody holds a frame then: each count is the keeper's own references. Of the
    /// journal with which it ends, nothing is known but that it is legal: for whoever has no share any more.
    pub fn close<R: Wait>(self, rt: &R, passes: Vec<Pass>) -> ClosedTable
        requires all { vec_len passes ≡ N.parts.frames.shape.passes }
        requires passes { All (λ p. p.table ≡ N.parts.frames) passes.items }
        ensures shape { result.shape ≡ N.parts.frames.shape }
        ensures ends { EndsLawfully N.parts result }
    {
        let Ksm { frames, merge } = self;
        let merge = merge.into_inner();
        merge.lies_lawfully();
        frames.close(merge.close(rt), passes)
    }

    /// Ends the book as `close` does, once all shares are gathered: with the journal that they own together, since no
    /// command was made any more.
    pub fn close_gathered<R: Wait>(self, rt: &R, passes: Vec<Pass>, tally: Tally<N>) -> ClosedTable
        requires all { vec_len passes ≡ N.parts.frames.shape.passes }
        requires passes { All (λ p. p.table ≡ N.parts.frames) passes.items }
        ensures shape { result.shape ≡ N.parts.frames.shape }
        ensures ends { EndsAfter N.parts (entries tally) result }
    {
        let Ksm { frames, merge } = self;
        let mut merge = merge.into_inner();
        merge.is_gathered(tally);
        merge.lies_lawfully();
        frames.close(merge.close(rt), passes)
    }

    /// Ends the book as `close` does. The share has then seen the journal with which it ends.
    pub fn close_seen<R: Wait>(self, rt: &R, passes: Vec<Pass>, share: &mut Share<N>) -> ClosedTable
        requires all { vec_len passes ≡ N.parts.frames.shape.passes }
        requires passes { All (λ p. p.table ≡ N.parts.frames) passes.items }
        ensures shape { result.shape ≡ N.parts.frames.shape }
        ensures shown { IsShown N.parts share.old share.new }
        ensures ends { EndsAfter N.parts (entries share.new.seen) result }
    {
        let Ksm { frames, merge } = self;
        let mut merge = merge.into_inner();
        merge.show(share);
        merge.lies_lawfully();
        frames.close(merge.close(rt), passes)
    }
}
