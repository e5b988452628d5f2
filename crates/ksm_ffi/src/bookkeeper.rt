//! A book with the table of its frames. Each call gives the book the table, and tells by a number what came of it.
ghost use Rattle.std.specs.Prelude.{◌≡◌, ◌≢◌, []};
ghost use Rattle.ksm_journal.specs.Journal.{told_at};
ghost use Rattle.ksm_base.specs.Counting.{counters_of};
ghost use Rattle.ksm_base.specs.Reading.{mappers_of, ticket_of};
ghost use Rattle.ksm_ffi.specs.Books.{Applies, OpensBook, ReadsBook, TellsCount, TellsCounters, TellsMappers};
ghost use Rattle.ksm_ffi.specs.Books.{TellsEntries, TellsEntry, TellsTicket, packed};
ghost use Rattle.ksm_ffi.specs.Requests.{LeavesMade};
ghost use Rattle.ksm_ffi.specs.declared.answer.Answer.TheVariants as answer;

use crate::answer::Answer;
use crate::home::Home;
use crate::request::{Made, Request, answered};
use frame_table::FrameTable;
use ksm_base::{Command, Counters, GuestPage, PageBytes, Shape};
use ksm_book::{Book, Journal};
use std::alloc::Global;
use std::marker::Model;
use std::sync::Arc;

/// A book with its table. Contracts see the book.
pub struct Bookkeeper {
    table: Arc<FrameTable>,
    book: Book,
}

impl Model for Bookkeeper {
    ghost use Rattle.std.specs.Prelude.{◌≡◌};
    ghost use Rattle.ksm_book.specs.Carried.{JournaledBook};

    ghost Value = { JournaledBook };

    ghost view = { λ b. b.book };

    ghost invariant = { λ b. b.book.keeper.table ≡ b.table.value };
}

impl Bookkeeper {
    /// The opening book on a table with all frames free, all places empty and no pass out. Its journal is kept or
    /// counted.
    pub fn open(
        alloc: Global,
        shape: Shape,
        keeps: bool,
        number: u64,
    ) -> Result<(Bookkeeper, Home), Answer>
        ensures { OpensBook shape keeps number result }
    {
        if !shape.check() {
            return Err(Answer::Shape);
        }
        let Some((table, keeper, home)) = Home::open(alloc, shape, number) else {
            return Err(Answer::Memory);
        };
        match Book::open(alloc, keeper, shape, journal(alloc, keeps)) {
            Ok(book) => Ok((Bookkeeper { table, book }, home)),
            Err((keeper, _)) => {
                keeper.retire();
                drop(table);
                home.retire();
                Err(Answer::Memory)
            }
        }
    }

    /// Does a command, and tells what it did to `made`.
    pub fn apply(&mut self, command: Command, made: &mut Made) -> Answer
        ensures applied { Applies self.old command result made.new self.new }
        ensures kept { LeavesMade result made.old made.new }
    {
        let given = self.book.apply(&self.table, &command);
        made.tell(given);
        answered(given)
    }

    /// Loads the bytes of a page, to `bytes`.
    pub fn read(&mut self, page: GuestPage, bytes: &mut PageBytes) -> Answer
        ensures read { ReadsBook self.old page result bytes.new self.new }
        ensures kept { result ≢ answer.Done → bytes.new ≡ bytes.old }
    {
        match self.book.read(&self.table, page) {
            Some(read) => {
                *bytes = read;
                Answer::Done
            }
            None => Answer::Nothing,
        }
    }

    /// Tells the place of the dup into which a page is merged, to `place`.
    pub fn ticket(&self, page: GuestPage, place: &mut u32) -> Answer
        ensures told { TellsTicket (ticket_of page self.now.state) result place.new }
        ensures kept { result ≢ answer.Done → place.new ≡ place.old }
    {
        match self.book.ticket(page) {
            Some(found) => {
                *place = found;
                Answer::Done
            }
            None => Answer::Nothing,
        }
    }

    /// Tells the pages merged into the dup at a place, to `pages`, and how many there are, to `count`.
    #[tactic(auto, using(crate::proofs::Told::one_more_told, crate::proofs::Told::stay_behind))]
    pub fn mappers(&self, alloc: Global, place: u32, pages: &mut [u64], count: &mut u64) -> Answer
        ensures told { TellsMappers (mappers_of place self.now.state) pages.old result pages.new }
        ensures count { TellsCount (mappers_of place self.now.state) count.old result count.new }
    {
        let Ok(found) = self.book.mappers(alloc, place) else {
            return Answer::Memory;
        };
        let Some(found) = found else {
            return Answer::Nothing;
        };
        *count = found.len() as u64;
        if found.len() > pages.len() {
            return Answer::Range;
        }
        'pages: for i in 0..found.len() {
            pages[i] = pack(found[i]);
        }
        Answer::Done
    }

    /// Tells how many entries the journal has, to `count`.
    pub fn entries(&self, count: &mut u64) -> Answer
        ensures { TellsEntries self.now.journal result count.new }
    {
        *count = self.book.journal().len() as u64;
        Answer::Done
    }

    /// Tells an entry of a journal that is kept: the command to `request`, the number that it was answered to `told`,
    /// and what it did to `made`.
    pub fn entry(
        &self,
        number: u64,
        request: &mut Request,
        told: &mut u32,
        made: &mut Made,
    ) -> Answer
        ensures told { TellsEntry (told_at self.now.is_kept self.now.journal number) result request.new told.new made.new }
        ensures kept { result ≢ answer.Done → (request.new ≡ request.old) × (told.new ≡ told.old) × (made.new ≡ made.old) }
    {
        let Some((command, given)) = self.book.journal().get(number as usize) else {
            return Answer::Nothing;
        };
        *request = Request::of(command);
        *told = answered(given).number();
        made.tell(given);
        Answer::Done
    }

    /// Counts, to `counted`.
    pub fn count(&self, counted: &mut Counters) -> Answer
        ensures { TellsCounters (counters_of self.now.state) result counted.new }
    {
        *counted = self.book.counters();
        Answer::Done
    }

    /// Lets the book go, with its part of the table.
    pub fn retire(self) {
        let Bookkeeper { table, book } = self;
        book.close().retire();
        drop(table);
    }
}

// The journal of a book that was given no command.
fn journal(alloc: Global, keeps: bool) -> Journal
    ensures entries { result.entries ≡ [] }
    ensures kept { result.is_kept ≡ keeps }
{
    if keeps {
        Journal::kept(alloc)
    } else {
        Journal::counted()
    }
}

// A page as one number.
fn pack(page: GuestPage) -> u64
    ensures { result ≡ packed page }
{
    (u64::from(page.guest) << 32) + u64::from(page.page)
}
