//! The book of page sharing: its commands, the pages as they are read, the counters and the journal. Each command is
//! carried out on the `State`, and then entered in the journal, whose memory was taken before the first step.

ghost use Rattle.std.specs.Prelude.{false, ◌≡◌, ◌≤◌, [], Some, IfOk, IfErr, IfSome, IsSome, option_map};
ghost use Rattle.ksm_book.specs.Terms.{after, bytes_of, counters_of, first_ledger, is_known, IsAnswerOrMemory, IsLegal, IsShape, IsSound, journal_after, last_stored, mappers_of, nowhere, opening};
ghost use Rattle.ksm_book.specs.Terms.{ReadsLastStored, ticket_of};
ghost use Rattle.ksm_book.specs.Carried.{CarriedOut, CarriesOut, unjournaled};
ghost use Rattle.ksm_book.specs.Due.{CountsLater, goes_on_beside, shown, TellsDue};
ghost use Rattle.ksm_book.specs.Laid.{LoadsIf};
ghost use Rattle.ksm_book.specs.Keeping.{spent};
ghost use Rattle.ksm_book.specs.Promised.{FindsPlace, LieOn, NumbersAreSmall};

use crate::due::{Due, Reach};
use crate::state::State;
use frame_table::{FrameTable, Keeper};
use ksm_base::laws::a_journal_goes_on;
use ksm_base::{
    Command, Counters, Fault, GuestPage, Knob, Knobs, PageBytes, Reply, Shape,
    each_page_has_what_was_stored_last,
};
use ksm_journal::Journal;
use ksm_pages::Spot;
use std::alloc::Global;
use std::marker::Model;

/// The pages of the guests and the dups into which they are merged, in the frames of a keeper, with the journal of all
/// commands. Contracts see the state of the book, the frame of each page, the keeper, the entries of the journal, and
/// whether they are kept.
///
/// The journal is legal: it leads from the opening book to the state as it is.
pub struct Book {
    state: State,
    due: Due,
    journal: Journal,
}

impl Model for Book {
    ghost use Rattle.std.specs.Prelude.{◌≡◌};
    ghost use Rattle.ksm_book.specs.Terms.{IsLegal};
    ghost use Rattle.ksm_book.specs.Carried.{JournaledBook};
    ghost use Rattle.ksm_book.specs.Due.{CountsLater, so_far, TellsDue};

    ghost Value = { JournaledBook };

    ghost view = { λ b. record {
      state = so_far b.due.reach b.state.state;
      lodgings = b.state.lodgings;
      keeper = b.state.keeper;
      journal = b.journal.entries;
      is_kept = b.journal.is_kept;
    } };

    ghost invariant = { λ b. IsLegal b.state.keeper.table.shape b.journal.entries (so_far b.due.reach b.state.state)
        × TellsDue b.due b.state.state × CountsLater b.due b.state.state };
}

impl Book {
    /// The opening book, in the frames of a keeper that has made no step, with an empty journal, which is kept or
    /// counted. Refused for memory alone, it gives the keeper back.
    pub fn open(
        alloc: Global,
        keeper: Keeper,
        shape: Shape,
        journal: Journal,
    ) -> Result<Book, (Keeper, Fault)>
        requires shape { IsShape shape }
        requires same { keeper.table.shape ≡ shape }
        requires new { keeper.ledger ≡ first_ledger shape }
        requires empty { journal.entries ≡ [] }
        ensures opened { IfOk result (λ b. unjournaled b ≡ record {
          state = opening shape;
          frame = nowhere;
          keeper = keeper;
        }) }
        ensures journal { IfOk result (λ b. b.journal ≡ []) }
        ensures kept { IfOk result (λ b. b.is_kept ≡ journal.is_kept) }
        ensures refused { IfErr result (λ e. (e.0 ≡ keeper) × (e.1 ≡ Fault.Memory)) }
    {
        Ok(Book {
            state: State::open(alloc, keeper, shape)?,
            due: Due::new(alloc),
            journal,
        })
    }

    /// Does a command: a step of the book, and an entry of the journal. `Err` is a refusal, and changes no page, dup or
    /// knob. `Fault::Memory` may come in place of any answer; then no step was made on a frame, and there is no entry.
    /// The answer tells which steps were made on the frames, and on which frame each page lies then.
    #[tactic(auto, using(crate::proofs::Carried::carried_out))]
    pub fn apply(&mut self, table: &FrameTable, command: &Command) -> Result<Reply, Fault>
        requires own { self.old.keeper.table ≡ table.now }
        ensures answer { IsAnswerOrMemory self.old.state command.now result }
        ensures state { self.new.state ≡ after self.old.state command.now result }
        ensures carried { CarriedOut (unjournaled self.old) (unjournaled self.new) command.now result }
        ensures journal { self.new.journal ≡ journal_after self.old.journal command.now result }
        ensures kept { self.new.is_kept ≡ self.old.is_kept }
    {
        a_journal_goes_on();
        self.journal.reserve()?;
        let answer = carry_out(&mut self.state, &mut self.due, table, command);
        match answer {
            Err(Fault::Memory) => {}
            _ => self.journal.add(command, answer),
        }
        answer
    }

    /// The journal: every command with its answer, in order, but those refused for memory. Where it is counted, only
    /// how many there are can be read.
    pub fn journal(&self) -> &Journal
        ensures entries { result.now.entries ≡ self.now.journal }
        ensures kept { result.now.is_kept ≡ self.now.is_kept }
    {
        &self.journal
    }

    /// A law, which costs nothing to call: what is true of the book and of its frames whenever no call is under way.
    pub fn lies_lawfully(&self)
        ensures sound { IsSound self.now.state }
        ensures placed { LieOn self.now.state (unjournaled self.now).frame self.now.keeper.ledger }
        ensures place { FindsPlace self.now.state }
        ensures lives { self.now.state.next ≤ spent self.now.keeper.ledger }
        ensures numbers { NumbersAreSmall self.now.state }
        ensures legal { IsLegal self.now.keeper.table.shape self.now.journal self.now.state }
        ensures stored { ReadsLastStored self.now.journal self.now.state.rows }
    {
        each_page_has_what_was_stored_last();
        self.state.lies_lawfully();
        self.state.lies_so_far(self.due.reach());
    }

    /// The bytes of a page, loaded from the words of its frame, or zeroes where it is mapped from the zero page; none
    /// where it has no row. They are those stored last by the journal.
    pub fn read(&mut self, table: &FrameTable, page: GuestPage) -> Option<PageBytes>
        requires own { self.old.keeper.table ≡ table.now }
        ensures own { self.new.keeper.table ≡ self.old.keeper.table }
        ensures bytes { result ≡ bytes_of page self.old.state }
        ensures stored { IfSome result (λ bytes. last_stored page self.old.journal ≡ Some bytes) }
        ensures state { self.new.state ≡ self.old.state }
        ensures frame { (unjournaled self.new).frame ≡ (unjournaled self.old).frame }
        ensures journal { (self.new.journal ≡ self.old.journal) × (self.new.is_kept ≡ self.old.is_kept) }
        ensures loads { LoadsIf ((unjournaled self.old).frame page) result self.old.keeper self.new.keeper }
    {
        each_page_has_what_was_stored_last();
        self.state.read(table, page)
    }

    /// Whether the page is registered.
    pub fn registered(&self, page: GuestPage) -> bool
        ensures { result ≡ is_known self.now.state page }
    {
        self.state.pages.has(page)
    }

    /// The place of the dup into which a page is merged; none where it is not merged.
    pub fn ticket(&self, page: GuestPage) -> Option<u32>
        ensures { result ≡ ticket_of page self.now.state }
    {
        self.state.pages.ticket(page)
    }

    /// The pages merged into the dup at a place, ascending; none where no dup with items stands there. Refused for
    /// memory alone, and only where pages are there.
    pub fn mappers(&self, alloc: Global, place: u32) -> Result<Option<Vec<GuestPage>>, Fault>
        ensures mappers { IfOk result (λ pages. option_map (λ v. v.items) pages ≡ mappers_of place self.now.state) }
        ensures fault { IfErr result (λ fault. fault ≡ Fault.Memory) }
        ensures refused { IfErr result (λ _. IsSome (mappers_of place self.now.state)) }
    {
        Ok(self.state.pages.items_at(alloc, place)?)
    }

    /// The counters: what is counted from the pages and dups as they are. Totals are kept, so nothing is walked.
    pub fn counters(&self) -> Counters
        ensures { result ≡ counters_of self.now.state }
    {
        self.state.counters_so_far(&self.due)
    }

    /// The knobs.
    pub fn knobs(&self) -> Knobs
        ensures { result ≡ self.now.state.knobs }
    {
        self.state.pages.knobs()
    }

    /// Gives the keeper back, as it is.
    pub fn close(self) -> Keeper
        ensures { result ≡ self.keeper }
    {
        let Book {
            state,
            due: _due,
            journal: _,
        } = self;
        state.close()
    }
}

/// Carries a command out on the state. Of most it is not known then which pages are due.
#[inline(always)]
fn carry_out(
    state: &mut State,
    due: &mut Due,
    table: &FrameTable,
    command: &Command,
) -> Result<Reply, Fault>
    requires own { state.old.keeper.table ≡ table.now }
    requires due { TellsDue due.old state.old.state }
    requires later { CountsLater due.old state.old.state }
    ensures carried { CarriesOut (shown due.old state.old) (shown due.new state.new) command.now result }
    ensures due { TellsDue due.new state.new.state }
    ensures later { CountsLater due.new state.new.state }
{
    match command {
        Command::Store { page, bytes } => state.store(table, due, *page, bytes),
        Command::Scan { visits } => state.scan(table, due, *visits),
        Command::SetAcross(across) => {
            state.end_pass_over_due(due);
            state.set_across(table, due, *across)
        }
        _ => {
            state.end_pass_over_due(due);
            carry_out_whole(state, due, table, command)
        }
    }
}

/// The answer to a command behind which it is not known which pages are due.
#[inline(always)]
fn forgets(due: &mut Due, answer: Result<Reply, Fault>) -> Result<Reply, Fault>
    ensures { (result ≡ answer) × (due.new ≡ record due.old { known = false; ready = false }) }
{
    due.forget();
    answer
}

/// Carries out any other command, where no pass over what is due goes on.
#[inline(always)]
fn carry_out_whole(
    state: &mut State,
    due: &mut Due,
    table: &FrameTable,
    command: &Command,
) -> Result<Reply, Fault>
    requires own { state.old.keeper.table ≡ table.now }
    requires due { TellsDue due.old state.old.state }
    requires reach { (due.old.reach ≡ Reach.Everywhere) × (due.old.later ≡ 0) }
    requires other { goes_on_beside command.now ≡ false }
    ensures carried { CarriesOut state.old state.new command.now result }
    ensures due { TellsDue due.new state.new.state }
    ensures reach { (due.new.reach ≡ Reach.Everywhere) × (due.new.later ≡ 0) }
{
    match command {
        Command::Register { page, node, bytes } => {
            let page = *page;
            due.add(Spot { page, key: 0 });
            state.register(table, page, *node, bytes)
        }
        Command::Drop { page } => {
            let page = *page;
            state.lies_lawfully();
            state.note_leaving(due, Spot { page, key: 0 });
            state.drop_page(table, page)
        }
        Command::Prune => state.prune(table),
        Command::Unmerge { guest } => forgets(due, state.unmerge(table, *guest)),
        Command::Mergeable { guest } => forgets(due, state.mergeable(*guest)),
        Command::MovePage { page, node } => forgets(due, state.move_page(table, *page, *node)),
        Command::MoveDup { place, node } => state.move_dup(table, *place, *node),
        Command::SetRun(run) => forgets(due, state.set_run(table, *run)),
        Command::SetPagesToScan(pages) => state.set(Knob::PagesToScan, *pages),
        Command::SetLimit(limit) => forgets(due, state.set_limit(table, *limit)),
        Command::SetZeroPages(value) => forgets(due, state.set(Knob::UseZeroPages, *value)),
        Command::Store { .. } | Command::Scan { .. } | Command::SetAcross(_) => unreachable!(),
    }
}
