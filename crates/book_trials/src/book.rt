//! The book by its commands: pages merge, are written, move, and give their frames back, and the journal has each
//! command.
ghost use Rattle.std.specs.Prelude.{◌≡◌, ◌<◌, [], All, IfOk, vec_len};
ghost use Rattle.ksm_base.specs.Values.{IsShape, frames_of};

use frame_table::{ClosedTable, Found, FrameTable, Pass};
use ksm_base::Command::{
    Drop, Mergeable, MoveDup, MovePage, Prune, Register, Scan, SetAcross, SetLimit, SetRun, Store,
};
use ksm_base::{
    Command, Counters, Fault, GuestPage, MOST_LIVES, PAGE_WORDS, PLACE_SPAN, PageBytes, Reply,
    Shape,
};
use ksm_book::{Book, Journal};
use std::alloc::Global;
use std::test::Fail;

// One node with four frames.
const SHAPE: Shape = Shape {
    nodes: 1,
    frames_per_node: 4,
    passes: 1,
    last_generation: MOST_LIVES,
    tries: 8,
};

const DONE: Result<Reply, Fault> = Ok(Reply::Done);

fn page(page: u32) -> GuestPage {
    GuestPage { guest: 0, page }
}

fn filled(word: u64) -> PageBytes {
    [word; PAGE_WORDS]
}

fn registered(number: u32, node: u32) -> Command {
    Register {
        page: page(number),
        node,
        bytes: filled(10),
    }
}

fn stored(number: u32) -> Command {
    Store {
        page: page(number),
        bytes: filled(10),
    }
}

fn scanned(visits: u64) -> Result<Reply, Fault> {
    Ok(Reply::Scanned { visits, stop: None })
}

// A table with its passes, and a book on it with this journal.
fn opened(
    alloc: Global,
    shape: Shape,
    journal: Journal,
) -> Result<(FrameTable, Book, Vec<Pass>), Fault>
    requires shape { IsShape shape }
    requires empty { journal.entries ≡ [] }
    ensures shape { IfOk result (λ t. t.0.shape ≡ shape) }
    ensures own { IfOk result (λ t. t.1.keeper.table ≡ t.0) }
    ensures passes { IfOk result (λ t. (vec_len t.2 ≡ shape.passes) × All (λ p. p.table ≡ t.0) t.2.items) }
{
    let (table, keeper, passes) = FrameTable::open(alloc, shape)?;
    match Book::open(alloc, keeper, shape, journal) {
        Ok(book) => Ok((table, book, passes)),
        Err((keeper, fault)) => {
            let _ = table.close(keeper, passes);
            Err(fault)
        }
    }
}

// What a command is answered. It promises less than the book does, so a test that makes many carries little along.
fn said(book: &mut Book, table: &FrameTable, command: Command) -> Result<Reply, Fault>
    requires own { book.old.keeper.table ≡ table.now }
    ensures own { book.new.keeper.table ≡ table.now }
{
    book.apply(table, &command)
}

// A command and what it is answered.
type Row = (Command, Result<Reply, Fault>);

// Whether the commands are answered as the rows tell.
fn followed(book: &mut Book, table: &FrameTable, rows: &[Row]) -> bool
    requires own { book.old.keeper.table ≡ table.now }
    ensures own { book.new.keeper.table ≡ table.now }
{
    let mut all = true;
    'rows: for row in rows {
        all &= said(book, table, row.0) == row.1;
    }
    all
}

// Two pages of one content, merged by two passes.
fn merge_two(book: &mut Book, table: &FrameTable) -> bool
    requires own { book.old.keeper.table ≡ table.now }
    ensures own { book.new.keeper.table ≡ table.now }
{
    let scan = Scan { visits: 4 };
    followed(
        book,
        table,
        &[
            (registered(0, 0), DONE),
            (registered(1, 0), DONE),
            (SetRun(1), DONE),
            (scan, scanned(4)),
        ],
    )
}

// Whether the page reads as it was registered.
fn reads_ten(book: &mut Book, table: &FrameTable, number: u32) -> bool
    requires own { book.old.keeper.table ≡ table.now }
    ensures own { book.new.keeper.table ≡ table.now }
{
    book.read(table, page(number)) == Some(filled(10))
}

// Whether the book counts so, and this is the page's ticket.
fn shows(book: &Book, counters: Counters, number: u32, ticket: Option<u32>) -> bool {
    book.counters() == counters && book.ticket(page(number)) == ticket
}

// How many pages are mapped from the dup at a place.
fn count_mappers(alloc: Global, book: &Book, place: u32) -> usize {
    match book.mappers(alloc, place) {
        Ok(Some(pages)) => pages.len(),
        _ => 0,
    }
}

// Two private pages, after two passes.
const NONE_SHARED: Counters = Counters {
    volatile: 2,
    full_scans: 2,
    ..Counters::NONE
};

// They are merged by a third, beside a stale dup.
const MERGED_AGAIN: Counters = Counters {
    shared: 1,
    sharing: 1,
    chains: 1,
    dups: 2,
    full_scans: 3,
    ..Counters::NONE
};

// What is tried on a book that was just opened.
#[derive(Clone, Copy)]
enum Trial {
    EqualStores,
    TwoNodes,
    HeldDup,
    Journal,
    FrameLeft,
}

// Whether all went as it should; of the first three frames, once the book is closed, the generation and the count; and
// what the first place then says.
#[derive(Clone, Copy)]
struct Outcome {
    right: bool,
    frames: [(u64, u64); 3],
    place: u64,
}

fn told_of(right: bool, closed: &ClosedTable) -> Outcome
    requires { 2 < frames_of closed.now.shape }
{
    Outcome {
        right,
        frames: [
            (closed.generation(0), closed.count(0)),
            (closed.generation(1), closed.count(1)),
            (closed.generation(2), closed.count(2)),
        ],
        place: closed.place(0),
    }
}

// The trials without a pass.
fn goes(alloc: Global, trial: Trial, book: &mut Book, table: &FrameTable) -> bool
    requires own { book.old.keeper.table ≡ table.now }
    ensures own { book.new.keeper.table ≡ table.now }
{
    match trial {
        Trial::EqualStores => equal_stores(alloc, book, table),
        Trial::TwoNodes => two_nodes(book, table),
        Trial::HeldDup => false,
        Trial::Journal => journal_tells(book, table),
        Trial::FrameLeft => frame_left(book, table),
    }
}

// Each trial. It hands the passes back.
fn goes_with(
    alloc: Global,
    trial: Trial,
    book: &mut Book,
    table: &FrameTable,
    mut passes: Vec<Pass>,
) -> (bool, Vec<Pass>)
    requires own { book.old.keeper.table ≡ table.now }
    requires passes { All (λ p. p.table ≡ table.now) passes.items }
    requires places { 0 < frames_of table.now.shape }
    ensures own { book.new.keeper.table ≡ table.now }
    ensures count { vec_len result.1 ≡ vec_len passes }
    ensures passes { All (λ p. p.table ≡ table.now) result.1.items }
{
    let Trial::HeldDup = trial else {
        return (goes(alloc, trial, book, table), passes);
    };
    let Some(pass) = passes.pop() else {
        return (false, passes);
    };
    let (right, pass) = held_dup(book, table, pass);
    passes.push_reserved(pass);
    (right, passes)
}

// What a trial comes to on an opening book with this journal.
fn in_book(alloc: Global, shape: Shape, journal: Journal, trial: Trial) -> Result<Outcome, Fault>
    requires shape { IsShape shape }
    requires frames { 2 < frames_of shape }
    requires empty { journal.entries ≡ [] }
{
    let (table, mut book, passes) = opened(alloc, shape, journal)?;
    let (right, passes) = goes_with(alloc, trial, &mut book, &table, passes);
    let closed = table.close(book.close(), passes);
    Ok(told_of(right, &closed))
}

// The stores copy two merged pages, and the next pass merges them again beside the stale dup.
fn equal_stores(alloc: Global, book: &mut Book, table: &FrameTable) -> bool
    requires own { book.old.keeper.table ≡ table.now }
    ensures own { book.new.keeper.table ≡ table.now }
{
    let early = followed(book, table, &[(Scan { visits: 1 }, Err(Fault::NotRunning))]);
    let merged = merge_two(book, table) && book.ticket(page(1)) == Some(0);
    let copied = followed(book, table, &[(stored(0), DONE), (stored(1), DONE)]);
    let private = shows(book, NONE_SHARED, 0, None);
    let scan = followed(book, table, &[(Scan { visits: 2 }, scanned(2))]);
    let again = shows(book, MERGED_AGAIN, 0, Some(1)) && count_mappers(alloc, book, 1) == 2;
    let reads = reads_ten(book, table, 1);
    let rows = [
        (SetLimit(2), Err(Fault::SharedPages)),
        (Prune, Ok(Reply::Pruned(1))),
    ];
    let pruned = followed(book, table, &rows);
    early && merged && copied && private && scan && again && reads && pruned
}

// Two pages of one content, merged by the second pass. A store of the same bytes still copies each, and the next pass
// merges them again beside the stale dup.
#[test]
fn equal_store_still_copies(rt: HostRuntime) -> Result<(), Fail> {
    let outcome = in_book(rt.alloc(), SHAPE, Journal::counted(), Trial::EqualStores)?;
    assert!(rt; outcome.right && outcome.place == 0);
    Ok(())
}

// Pages on two nodes are kept apart, and merge once they are on one.
fn two_nodes(book: &mut Book, table: &FrameTable) -> bool
    requires own { book.old.keeper.table ≡ table.now }
    ensures own { book.new.keeper.table ≡ table.now }
{
    let scan = (Scan { visits: 4 }, scanned(4));
    let moving = MovePage {
        page: page(0),
        node: 1,
    };
    let apart = [
        (SetAcross(0), DONE),
        (registered(0, 0), DONE),
        (registered(1, 1), DONE),
        (SetRun(1), DONE),
        scan,
    ];
    let apart = followed(book, table, &apart) && book.counters().unshared == 2;
    let merged = followed(book, table, &[(moving, DONE), scan]) && book.counters().shared == 1;
    let moved = [
        (MoveDup { place: 0, node: 0 }, Err(Fault::CrossesNodes)),
        (MoveDup { place: 0, node: 1 }, DONE),
    ];
    let moved = followed(book, table, &moved);
    let reads = reads_ten(book, table, 0);
    let rows = [
        (MoveDup { place: 3, node: 1 }, Err(Fault::UnknownPlace)),
        (MoveDup { place: 0, node: 9 }, Err(Fault::BadNode)),
        (Mergeable { guest: 1 }, Err(Fault::UnknownPage)),
        (Drop { page: page(0) }, DONE),
    ];
    let left = followed(book, table, &rows) && book.knobs().merge_across_nodes == 0;
    apart && merged && moved && reads && left && !book.registered(page(0))
}

// Pages on two nodes, which merge only while the knob says so.
#[test]
fn pages_of_two_nodes(rt: HostRuntime) -> Result<(), Fail> {
    let shape = Shape { nodes: 2, ..SHAPE };
    assert!(rt; in_book(rt.alloc(), shape, Journal::counted(), Trial::TwoNodes)?.right);
    Ok(())
}

// The dup at the first place, to a frame of its own node.
const MOVE: Command = MoveDup { place: 0, node: 0 };

// What the move answers while a pass holds the dup's frame; none where the lookup got no hold.
fn moved_while_held(
    book: &mut Book,
    table: &FrameTable,
    pass: Pass,
) -> (Option<Result<Reply, Fault>>, Pass)
    requires own { book.old.keeper.table ≡ table.now }
    requires pass { pass.table ≡ table.now }
    requires places { 0 < frames_of table.now.shape }
    ensures own { book.new.keeper.table ≡ table.now }
    ensures pass { result.1.table ≡ table.now }
{
    match pass.find(table, 0) {
        Found::Held(held) => {
            let answer = book.apply(table, &MOVE);
            (Some(answer), held.leave(table))
        }
        Found::Gone(pass, _) => (None, pass),
        Found::Busy(pass) => (None, pass),
    }
}

// Whether the move is refused while the pass holds the dup's frame, and done once the pass has left it.
fn held_dup(book: &mut Book, table: &FrameTable, pass: Pass) -> (bool, Pass)
    requires own { book.old.keeper.table ≡ table.now }
    requires pass { pass.table ≡ table.now }
    requires places { 0 < frames_of table.now.shape }
    ensures own { book.new.keeper.table ≡ table.now }
    ensures pass { result.1.table ≡ table.now }
{
    let merged = merge_two(book, table);
    let (answer, pass) = moved_while_held(book, table, pass);
    let moved = followed(book, table, &[(MOVE, DONE)]);
    let reads = reads_ten(book, table, 1);
    (
        merged && answer == Some(Err(Fault::InUse)) && moved && reads,
        pass,
    )
}

// A move of a dup is refused while a pass holds its frame, and done once the pass has left it. The refused one gives no
// frame.
#[test]
fn held_dup_moves_once_it_is_left(rt: HostRuntime) -> Result<(), Fail> {
    let outcome = in_book(rt.alloc(), SHAPE, Journal::counted(), Trial::HeldDup)?;
    assert!(rt; outcome.right && outcome.place == 2 * PLACE_SPAN + 1);
    assert!(rt; (outcome.frames[0], outcome.frames[1]) == ((1, 0), (2, 2)));
    Ok(())
}

// An entry that was read, if there was one.
type Told = Option<(Command, Result<Reply, Fault>)>;

fn entry(book: &Book, number: usize) -> Told {
    book.journal().get(number)
}

// Whether the journal tells what was commanded, and what that was answered.
fn journal_tells(book: &mut Book, table: &FrameTable) -> bool
    requires own { book.old.keeper.table ≡ table.now }
    ensures own { book.new.keeper.table ≡ table.now }
{
    let empty = book.journal().is_kept() && entry(book, 0) == None;
    let merged = merge_two(book, table);
    let refused = (registered(0, 0), Err(Fault::AlreadyRegistered));
    let rows = followed(book, table, &[refused, (stored(1), DONE)]);
    let first = entry(book, 0) == Some((registered(0, 0), DONE));
    let scan = entry(book, 3) == Some((Scan { visits: 4 }, scanned(4)));
    let last = [entry(book, 4), entry(book, 5), entry(book, 6)];
    let last = last == [Some(refused), Some((stored(1), DONE)), None];
    empty && merged && rows && book.journal().len() == 6 && first && scan && last
}

// A kept journal has each command with its answer, in order, those refused included.
#[test]
fn journal_tells_each_command(rt: HostRuntime) -> Result<(), Fail> {
    let alloc = rt.alloc();
    assert!(rt; in_book(alloc, SHAPE, Journal::kept(alloc), Trial::Journal)?.right);
    Ok(())
}

// Commands that are done and some that are refused: pages come, merge, are written and go, and knobs change.
fn mixed() -> [Command; 12] {
    [
        registered(0, 0),
        registered(1, 0),
        registered(0, 0),
        SetRun(1),
        Scan { visits: 4 },
        stored(1),
        stored(3),
        SetLimit(1),
        Prune,
        MoveDup { place: 0, node: 1 },
        Drop { page: page(0) },
        SetRun(2),
    ]
}

// What the commands are answered, by a book with this journal, and what its journal then tells: how many entries there
// are, and the first.
fn answers(
    alloc: Global,
    journal: Journal,
) -> Result<([Result<Reply, Fault>; 12], usize, Told), Fault>
    requires { journal.entries ≡ [] }
{
    let (table, mut book, passes) = opened(alloc, SHAPE, journal)?;
    let commands = mixed();
    let mut answers = [DONE; 12];
    'commands: for i in 0..12 {
        answers[i] = said(&mut book, &table, commands[i]);
    }
    let told = (answers, book.journal().len(), book.journal().get(0));
    let _ = table.close(book.close(), passes);
    Ok(told)
}

// A book that counts its entries answers as one that keeps them, and has as many; but it tells none.
#[test]
fn counted_book_answers_as_a_kept_one(rt: HostRuntime) -> Result<(), Fail> {
    let alloc = rt.alloc();
    let kept = answers(alloc, Journal::kept(alloc))?;
    let counted = answers(alloc, Journal::counted())?;
    assert!(rt; kept.0 == counted.0);
    assert!(rt; kept.0[2] == Err(Fault::AlreadyRegistered));
    assert!(rt; (kept.1, counted.1) == (12, 12));
    assert!(rt; kept.2 == Some((registered(0, 0), DONE)));
    assert!(rt; counted.2 == None);
    Ok(())
}

// A page leaves the first frame before a third page comes.
fn frame_left(book: &mut Book, table: &FrameTable) -> bool
    requires own { book.old.keeper.table ≡ table.now }
    ensures own { book.new.keeper.table ≡ table.now }
{
    let rows = [
        (registered(0, 0), DONE),
        (registered(1, 0), DONE),
        (Drop { page: page(0) }, DONE),
        (registered(2, 0), DONE),
    ];
    followed(book, table, &rows)
}

// A frame that a page has left is reaped and given again before a higher one is given.
#[test]
fn frame_left_is_given_again(rt: HostRuntime) -> Result<(), Fail> {
    let outcome = in_book(rt.alloc(), SHAPE, Journal::counted(), Trial::FrameLeft)?;
    assert!(rt; outcome.right && outcome.frames[2].0 == 0);
    assert!(rt; (outcome.frames[0], outcome.frames[1]) == ((2, 1), (1, 1)));
    Ok(())
}
