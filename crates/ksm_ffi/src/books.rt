//! The calls of a book. One thread at a time makes them, by the handle of the book's table; its passes are those of a
//! table.
ghost use Rattle.std.specs.Prelude.{◌≡◌, ◌≢◌, ◌<◌, ◌≤◌, OnOk};
ghost use Rattle.ksm_base.specs.Counting.{counters_of};
ghost use Rattle.ksm_base.specs.Reading.{mappers_of, ticket_of};
ghost use Rattle.ksm_journal.specs.Journal.{told_at};
ghost use Rattle.ksm_ffi.specs.Books.{ReadsBook, TellsCount, TellsCounters, TellsEntries, TellsEntry, TellsMappers};
ghost use Rattle.ksm_ffi.specs.Books.{TellsTicket};
ghost use Rattle.ksm_ffi.specs.Requests.{LeavesMade};
ghost use Rattle.ksm_ffi.specs.Things.{AppliesRequest, IsNewBook, MakesBook, OnBook, OpensOf, SeesBook};

use crate::answer::Answer;
use crate::bookkeeper::Bookkeeper;
use crate::handle::{Handle, open_both};
use crate::numbers::Numbers;
use crate::request::{Made, Request};
use crate::thing::Thing;
use ksm_base::{Counters, GuestPage, PageBytes, Shape};
use std::alloc::Global;

// A book and the passes of its table, each in a box of its own.
fn make_book(
    alloc: Global,
    numbers: &mut Numbers,
    shape: Shape,
    keeps: bool,
) -> Result<(Box<Thing>, Box<Thing>), Answer>
    ensures made { MakesBook shape keeps numbers.old.next result }
    ensures drawn { OnOk result (numbers.old.next < numbers.new.next) }
    ensures rises { numbers.old.next ≤ numbers.new.next }
{
    if !shape.check() {
        return Err(Answer::Shape);
    }
    let Some(number) = numbers.draw() else {
        return Err(Answer::Memory);
    };
    let (bookkeeper, home) = Bookkeeper::open(alloc, shape, keeps, number)?;
    Thing::Book(bookkeeper, number).both_boxed(Thing::Home(home), alloc)
}

/// Opens a book without pages on a table of its own of these sizes at a handle, and the passes of that table at
/// another, as a table is opened. Its journal keeps its entries, so that they can be told, or counts them alone.
#[unsafe(no_mangle)]
pub extern "C" fn ksm_book_open(
    alloc: Global,
    numbers: &mut Numbers,
    book: &mut Handle,
    home: &mut Handle,
    nodes: u32,
    frames_per_node: u32,
    passes: u32,
    last_generation: u64,
    tries: u32,
    keeps: bool,
) -> u32
    ensures opened { OpensOf (IsNewBook keeps) (record {
      nodes = nodes;
      frames_per_node = frames_per_node;
      passes = passes;
      last_generation = last_generation;
      tries = tries;
    }) numbers.old.next book.old.thing home.old.thing result book.new.thing home.new.thing }
    ensures drawn { result ≡ 0 → numbers.old.next < numbers.new.next }
    ensures rises { numbers.old.next ≤ numbers.new.next }
{
    if book.is_open() || home.is_open() {
        return Answer::Open.number();
    }
    let shape = Shape {
        nodes,
        frames_per_node,
        passes,
        last_generation,
        tries,
    };
    open_both(book, home, make_book(alloc, numbers, shape, keeps))
}

// Does a command, if there is one of this kind.
fn apply(bookkeeper: &mut Bookkeeper, request: &Request, made: &mut Made) -> Answer
    ensures applied { AppliesRequest bookkeeper.old request.now result made.new bookkeeper.new }
    ensures kept { LeavesMade result made.old made.new }
{
    match request.command() {
        Some(command) => bookkeeper.apply(command, made),
        None => Answer::Command,
    }
}

/// Does a command, and tells what it did.
#[unsafe(no_mangle)]
pub extern "C" fn ksm_book_apply(
    alloc: Global,
    book: &mut Handle,
    request: &Request,
    made: &mut Made,
) -> u32
    ensures applied { OnBook (λ v a w. AppliesRequest v request.now a made.new w) book.old.thing result book.new.thing }
    ensures kept { result ≢ 0 → result ≢ 34 → made.new ≡ made.old }
{
    let Some(mut thing) = book.take(alloc) else {
        return Answer::Closed.number();
    };
    let answer = match &mut *thing {
        Thing::Book(bookkeeper, _) => apply(bookkeeper, request, made),
        _ => Answer::Kind,
    };
    book.put(thing);
    answer.number()
}

/// Loads the bytes of a page.
#[unsafe(no_mangle)]
pub extern "C" fn ksm_book_read(
    alloc: Global,
    book: &mut Handle,
    guest: u16,
    page: u32,
    bytes: &mut PageBytes,
) -> u32
    ensures read { OnBook (λ v a w. ReadsBook v (record { guest = guest; page = page }) a bytes.new w) book.old.thing
        result book.new.thing }
    ensures kept { result ≢ 0 → bytes.new ≡ bytes.old }
{
    let Some(mut thing) = book.take(alloc) else {
        return Answer::Closed.number();
    };
    let answer = match &mut *thing {
        Thing::Book(bookkeeper, _) => bookkeeper.read(GuestPage { guest, page }, bytes),
        _ => Answer::Kind,
    };
    book.put(thing);
    answer.number()
}

/// Tells the place of the dup into which a page is merged.
#[unsafe(no_mangle)]
pub extern "C" fn ksm_book_ticket(
    alloc: Global,
    book: &mut Handle,
    guest: u16,
    page: u32,
    place: &mut u32,
) -> u32
    ensures told { OnBook (SeesBook (λ v a. TellsTicket
        (ticket_of (record { guest = guest; page = page }) v.state) a place.new)) book.old.thing result book.new.thing }
    ensures kept { result ≢ 0 → place.new ≡ place.old }
{
    let Some(thing) = book.take(alloc) else {
        return Answer::Closed.number();
    };
    let answer = match &*thing {
        Thing::Book(bookkeeper, _) => bookkeeper.ticket(GuestPage { guest, page }, place),
        _ => Answer::Kind,
    };
    book.put(thing);
    answer.number()
}

/// Tells the pages merged into the dup at a place, each as one number, and how many they are.
#[unsafe(no_mangle)]
pub extern "C" fn ksm_book_mappers(
    alloc: Global,
    book: &mut Handle,
    place: u32,
    pages: &mut [u64],
    count: &mut u64,
) -> u32
    ensures told { OnBook (SeesBook (λ v a. TellsMappers (mappers_of place v.state) pages.old a pages.new))
        book.old.thing result book.new.thing }
    ensures count { OnBook (SeesBook (λ v a. TellsCount (mappers_of place v.state) count.old a count.new))
        book.old.thing result book.new.thing }
    ensures kept { result ≢ 0 → pages.new ≡ pages.old }
    ensures uncounted { result ≢ 0 → result ≢ 15 → count.new ≡ count.old }
{
    let Some(thing) = book.take(alloc) else {
        return Answer::Closed.number();
    };
    let answer = match &*thing {
        Thing::Book(bookkeeper, _) => bookkeeper.mappers(alloc, place, pages, count),
        _ => Answer::Kind,
    };
    book.put(thing);
    answer.number()
}

/// Counts the pages and dups of the book.
#[unsafe(no_mangle)]
pub extern "C" fn ksm_book_counters(alloc: Global, book: &mut Handle, counted: &mut Counters) -> u32
    ensures counted { OnBook
        (SeesBook (λ v a. TellsCounters (counters_of v.state) a counted.new)) book.old.thing result book.new.thing }
    ensures kept { result ≢ 0 → counted.new ≡ counted.old }
{
    let Some(thing) = book.take(alloc) else {
        return Answer::Closed.number();
    };
    let answer = match &*thing {
        Thing::Book(bookkeeper, _) => bookkeeper.count(counted),
        _ => Answer::Kind,
    };
    book.put(thing);
    answer.number()
}

/// Tells how many entries the journal of the book has: the commands that were given, but those refused for memory.
#[unsafe(no_mangle)]
pub extern "C" fn ksm_book_entries(alloc: Global, book: &mut Handle, count: &mut u64) -> u32
    ensures told { OnBook (SeesBook (λ v a. TellsEntries v.journal a count.new)) book.old.thing result book.new.thing }
    ensures kept { result ≢ 0 → count.new ≡ count.old }
{
    let Some(thing) = book.take(alloc) else {
        return Answer::Closed.number();
    };
    let answer = match &*thing {
        Thing::Book(bookkeeper, _) => bookkeeper.entries(count),
        _ => Answer::Kind,
    };
    book.put(thing);
    answer.number()
}

/// Tells an entry of a journal that is kept, by its number from 0 on: the command, the number that it was answered, and
/// what it did.
#[unsafe(no_mangle)]
pub extern "C" fn ksm_book_entry(
    alloc: Global,
    book: &mut Handle,
    number: u64,
    request: &mut Request,
    told: &mut u32,
    made: &mut Made,
) -> u32
    ensures told { OnBook (SeesBook (λ v a. TellsEntry (told_at v.is_kept v.journal number) a request.new told.new made.new))
        book.old.thing result book.new.thing }
    ensures kept { result ≢ 0 → (request.new ≡ request.old) × (told.new ≡ told.old) × (made.new ≡ made.old) }
{
    let Some(thing) = book.take(alloc) else {
        return Answer::Closed.number();
    };
    let answer = match &*thing {
        Thing::Book(bookkeeper, _) => bookkeeper.entry(number, request, told, made),
        _ => Answer::Kind,
    };
    book.put(thing);
    answer.number()
}
