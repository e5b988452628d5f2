//! The frame table: lookups while a frame is named, dying and given again, on one thread, on two, and by a crowd
//! against a keeper.
ghost use Rattle.std.specs.Prelude.{◌≡◌, ◌+◌, ◌<◌, ◌≤◌, All, IsTrue, IsSomeAnd, Some, length, vec_len, vec_capacity};
ghost use Rattle.std.specs.Thread.{IsSync};
ghost use Rattle.ksm_base.specs.Values.{IsShape, frames_of};
ghost use Rattle.frame_core.specs.declared.event.KeeperStep.TheVariants.{Raise};
ghost use Rattle.frame_core.specs.declared.frame.Kind.TheVariants.{Free, Private, Stable, Dying};
ghost use Rattle.frame_core.specs.Ledger.{first_ledger, frame_at, named_at};
ghost use Rattle.frame_core.specs.declared.seat.Life.{Life};
ghost use Rattle.frame_table.specs.Kept.{May};
ghost use Rattle.frame_table.specs.Seats.{new_keeper};

use frame_core::Kind;
use frame_table::{Found, FoundEqual, FrameTable, Held, Keeper, Pass, Why};
use ksm_base::{Fault, PAGE_WORDS, PLACE_SPAN, PageBytes, Shape};
use std::alloc::Global;
use std::test::Fail;
use std::thread::{Threads, for_each_mut, join_mut, yield_now};

// One node with two frames, and two passes.
const SHAPE: Shape = Shape {
    nodes: 1,
    frames_per_node: 2,
    passes: 2,
    last_generation: 5,
    tries: 8,
};

// Gives the frame its next life. Its first word is this, and each further word one more.
fn give(table: &FrameTable, keeper: &mut Keeper, frame: u32, first: u64)
    requires own { keeper.old.table ≡ table.now }
    requires free { May keeper.old (Raise frame) }
    requires width { length keeper.old.ledger.frames ≡ frames_of table.now.shape }
    ensures own { keeper.new.table ≡ keeper.old.table }
    ensures width { length keeper.new.ledger.frames ≡ frames_of table.now.shape }
    ensures places { keeper.new.ledger.places ≡ keeper.old.ledger.places }
    ensures kind { (frame_at keeper.new.ledger frame).kind ≡ Private }
    ensures base { (frame_at keeper.new.ledger frame).base ≡ 1 }
    ensures life { (frame_at keeper.new.ledger frame).generation ≡ (frame_at keeper.old.ledger frame).generation + 1 }
{
    keeper.raise(table, frame);
    for i in 0..PAGE_WORDS {
        keeper.put(table, frame, i, first.wrapping_add(i as u64));
    }
    keeper.open(table, frame);
}

// The page of the frame's first life: its first word is 16, and each further word one more.
fn page() -> PageBytes {
    let mut page = [0; PAGE_WORDS];
    for (i, word) in page.iter_mut().enumerate() {
        *word = (i as u64).wrapping_add(16);
    }
    page
}

// The frame 0 is named at the place 0.
fn first_table(table: &FrameTable, keeper: &mut Keeper)
    requires new { keeper.old ≡ new_keeper table.now }
    requires shape { table.now.shape ≡ SHAPE }
    ensures own { keeper.new.table ≡ table.now }
    ensures width { length keeper.new.ledger.frames ≡ frames_of SHAPE }
    ensures kind { (frame_at keeper.new.ledger 0).kind ≡ Stable }
    ensures base { (frame_at keeper.new.ledger 0).base ≡ 2 }
    ensures life { (frame_at keeper.new.ledger 0).generation ≡ 1 }
{
    give(table, keeper, 0, 16);
    keeper.add(table, 0);
    keeper.publish(table, 0, 0);
}

// The frame 0 dies.
fn second_table(table: &FrameTable, keeper: &mut Keeper)
    requires own { keeper.old.table ≡ table.now }
    requires shape { table.now.shape ≡ SHAPE }
    requires width { length keeper.old.ledger.frames ≡ frames_of SHAPE }
    requires base { (frame_at keeper.old.ledger 0).base ≡ 2 }
    requires life { (frame_at keeper.old.ledger 0).generation ≡ 1 }
    ensures own { keeper.new.table ≡ table.now }
    ensures width { length keeper.new.ledger.frames ≡ frames_of SHAPE }
    ensures kind { (frame_at keeper.new.ledger 0).kind ≡ Dying }
    ensures life { (frame_at keeper.new.ledger 0).generation ≡ 1 }
{
    keeper.sub(table, 0);
    keeper.sub(table, 0);
}

// The frame 0 is given again, if its count is 0.
fn third_table(table: &FrameTable, keeper: &mut Keeper) -> bool
    requires own { keeper.old.table ≡ table.now }
    requires shape { table.now.shape ≡ SHAPE }
    requires width { length keeper.old.ledger.frames ≡ frames_of SHAPE }
    requires kind { (frame_at keeper.old.ledger 0).kind ≡ Dying }
    requires life { (frame_at keeper.old.ledger 0).generation ≡ 1 }
    ensures own { keeper.new.table ≡ table.now }
{
    if !keeper.reap(table, 0) {
        return false;
    }
    keeper.raise(table, 0);
    keeper.open(table, 0);
    true
}

// Whether each word of the hold is of the life held, whenever it is read.
fn is_of_one_life(table: &FrameTable, held: &mut Held) -> bool
    requires own { held.old.table ≡ table.now }
    ensures own { held.new.table ≡ table.now }
{
    let first = held.generation().wrapping_mul(16);
    for i in 0..3 * PAGE_WORDS {
        let at = i % PAGE_WORDS;
        if held.word(table, at) != first.wrapping_add(at as u64) {
            return false;
        }
    }
    true
}

// Looks a place up. Answers whether it is gone for this reason, or, with none, holds the frame 0 in its first life.
fn finds(table: &FrameTable, pass: Pass, place: u32, gone: Option<Why>) -> (bool, Pass)
    requires own { pass.table ≡ table.now }
    requires inside { place < frames_of table.now.shape }
    ensures own { result.1.table ≡ table.now }
{
    match pass.find(table, place) {
        Found::Held(mut held) => {
            let first = held.frame() == 0 && held.generation() == 1;
            let right = gone.is_none() && first && is_of_one_life(table, &mut held);
            (right, held.leave(table))
        }
        Found::Gone(pass, why) => (gone == Some(why), pass),
        Found::Busy(pass) => (false, pass),
    }
}

// Compares a page with the one at the place 0. Answers whether that is gone for this reason, or, with none, as equal as
// is said.
fn compares(
    table: &FrameTable,
    pass: Pass,
    page: &PageBytes,
    equal: bool,
    gone: Option<Why>,
) -> (bool, Pass)
    requires own { pass.table ≡ table.now }
    requires inside { 0 < frames_of table.now.shape }
    ensures own { result.1.table ≡ table.now }
{
    match pass.find_equal(table, 0, page) {
        FoundEqual::Held(held) => (gone.is_none() && equal, held.leave(table)),
        FoundEqual::Differs(held) => (gone.is_none() && !equal, held.leave(table)),
        FoundEqual::Gone(pass, why) => (gone == Some(why), pass),
        FoundEqual::Busy(pass) => (false, pass),
    }
}

// A lookup of each place, one that compares the first place with its page, and one with a page whose last word differs.
// Answers whether the frame is gone from the first place for this reason, or, with none, is held; and nothing is at the
// second.
fn look(table: &FrameTable, slot: &mut Option<Pass>, gone: Option<Why>) -> bool
    requires own { IsSomeAnd slot.old (λ p. p.table ≡ table.now) }
    requires shape { table.now.shape ≡ SHAPE }
    ensures own { IsSomeAnd slot.new (λ p. p.table ≡ table.now) }
{
    let Some(pass) = slot.take() else {
        unreachable!()
    };
    let mut other = page();
    if let Some(last) = other.last_mut() {
        *last = 9;
    }
    let (first, pass) = finds(table, pass, 0, gone);
    let (second, pass) = finds(table, pass, 1, Some(Why::Vacant));
    let (equal, pass) = compares(table, pass, &page(), true, gone);
    let (differs, pass) = compares(table, pass, &other, false, gone);
    let old = slot.replace(pass);
    let None = old else { unreachable!() };
    first && second && equal && differs
}

// The same by two passes in a thread each.
fn look_both<R: Threads + Sync>(
    rt: &R,
    table: &FrameTable,
    one: &mut Option<Pass>,
    two: &mut Option<Pass>,
    gone: Option<Why>,
) -> bool
    requires one { IsSomeAnd one.old (λ p. p.table ≡ table.now) }
    requires two { IsSomeAnd two.old (λ p. p.table ≡ table.now) }
    requires shape { table.now.shape ≡ SHAPE }
    ensures one { IsSomeAnd one.new (λ p. p.table ≡ table.now) }
    ensures two { IsSomeAnd two.new (λ p. p.table ≡ table.now) }
{
    let (first, second) = join_mut(
        rt,
        &mut || look(table, one, gone),
        &mut || look(table, two, gone),
    );
    first && second
}

// Whether lookups answer so on each of the three tables, and the frame is given again.
fn three_tables<R: Threads + Sync>(
    rt: &R,
    table: &FrameTable,
    keeper: &mut Keeper,
    one: &mut Option<Pass>,
    two: &mut Option<Pass>,
) -> [bool; 4]
    requires new { keeper.old ≡ new_keeper table.now }
    requires shape { table.now.shape ≡ SHAPE }
    requires one { IsSomeAnd one.old (λ p. p.table ≡ table.now) }
    requires two { IsSomeAnd two.old (λ p. p.table ≡ table.now) }
    ensures own { keeper.new.table ≡ table.now }
    ensures one { IsSomeAnd one.new (λ p. p.table ≡ table.now) }
    ensures two { IsSomeAnd two.new (λ p. p.table ≡ table.now) }
{
    first_table(table, keeper);
    let held = look_both(rt, table, one, two, None);
    second_table(table, keeper);
    let dying = look_both(rt, table, one, two, Some(Why::Zero));
    let given = third_table(table, keeper);
    let next = look_both(rt, table, one, two, Some(Why::Generation));
    [held, dying, given, next]
}

#[test]
fn lookups_on_three_tables(rt: HostRuntime) -> Result<(), Fail> {
    let (table, mut keeper, mut passes) = FrameTable::open(rt.alloc(), SHAPE)?;
    let (mut one, mut two) = (passes.pop(), passes.pop());
    let right = three_tables(&rt, &table, &mut keeper, &mut one, &mut two);
    let Some(one) = one else { unreachable!() };
    let Some(two) = two else { unreachable!() };
    passes.push_reserved(one);
    passes.push_reserved(two);
    let closed = table.close(keeper, passes);
    let frame = (closed.count(0), closed.generation(0));
    let places = (closed.place(0), closed.place(1));
    assert!(rt; (right, frame, places) == ([true; 4], (1, 2), (PLACE_SPAN, 0)));
    Ok(())
}

// One frame and one place, at which all passes meet.
const CROWDED: Shape = Shape {
    nodes: 1,
    frames_per_node: 1,
    passes: 16,
    last_generation: 2000,
    tries: 1,
};

// The lookups of each pass, and the rounds of the keeper.
const ROUNDS: u64 = 1000;

// Gives the frame 0 this life, with words of its own, and names it at the place 0.
fn name(table: &FrameTable, keeper: &mut Keeper, life: u64)
    requires own { keeper.old.table ≡ table.now }
    requires free { May keeper.old (Raise 0) }
    requires shape { frames_of table.now.shape ≡ 1 }
    requires width { length keeper.old.ledger.frames ≡ 1 }
    requires named { (life : Life) → named_at keeper.old.ledger 0 ≡ Some life → life.frame ≡ 0 }
    ensures own { keeper.new.table ≡ keeper.old.table }
    ensures width { length keeper.new.ledger.frames ≡ 1 }
    ensures named { (life : Life) → named_at keeper.new.ledger 0 ≡ Some life → life.frame ≡ 0 }
{
    give(table, keeper, 0, life.wrapping_mul(16));
    keeper.add(table, 0);
    keeper.publish(table, 0, 0);
}

// Gives the frame 0 up, if it is named, and reaps it once. Answers whether it is free.
fn reap_once(table: &FrameTable, keeper: &mut Keeper) -> bool
    requires own { keeper.old.table ≡ table.now }
    requires shape { frames_of table.now.shape ≡ 1 }
    requires width { length keeper.old.ledger.frames ≡ 1 }
    requires named { (life : Life) → named_at keeper.old.ledger 0 ≡ Some life → life.frame ≡ 0 }
    ensures own { keeper.new.table ≡ keeper.old.table }
    ensures width { length keeper.new.ledger.frames ≡ 1 }
    ensures named { (life : Life) → named_at keeper.new.ledger 0 ≡ Some life → life.frame ≡ 0 }
    ensures kind { IsTrue result → (frame_at keeper.new.ledger 0).kind ≡ Free }
{
    if keeper.kind(0) == Kind::Stable && keeper.base(0) == 2 {
        keeper.sub(table, 0);
        keeper.sub(table, 0);
    }
    if keeper.kind(0) == Kind::Dying {
        let _ = keeper.reap(table, 0);
    }
    keeper.kind(0) == Kind::Free
}

// Makes the keeper's rounds. Answers how many lives the frame has had then.
fn spend(table: &FrameTable, keeper: &mut Keeper) -> u64
    requires own { keeper.old.table ≡ table.now }
    requires shape { frames_of table.now.shape ≡ 1 }
    requires width { length keeper.old.ledger.frames ≡ 1 }
    requires named { (life : Life) → named_at keeper.old.ledger 0 ≡ Some life → life.frame ≡ 0 }
    ensures own { keeper.new.table ≡ table.now }
{
    let mut lives = 1u64;
    for _ in 0..ROUNDS {
        if reap_once(table, keeper) {
            lives = lives.wrapping_add(1);
            name(table, keeper, lives);
        }
        yield_now();
    }
    lives
}

// A pass in a thread of its own, and in how many of its holds a word was of another life.
struct Worker {
    pass: Option<Pass>,
    wrong: u64,
}

// Looks the place 0 up. Answers in how many holds a word was of another life.
fn visit(table: &FrameTable, pass: Pass) -> (u64, Pass)
    requires own { pass.table ≡ table.now }
    requires shape { frames_of table.now.shape ≡ 1 }
    ensures own { result.1.table ≡ table.now }
{
    let mut pass = pass;
    let mut wrong = 0u64;
    for _ in 0..ROUNDS {
        match pass.find(table, 0) {
            Found::Held(mut held) => {
                if !is_of_one_life(table, &mut held) {
                    wrong = wrong.wrapping_add(1);
                }
                pass = held.leave(table);
            }
            Found::Gone(back, _) => pass = back,
            Found::Busy(back) => pass = back,
        }
        yield_now();
    }
    (wrong, pass)
}

fn work(table: &FrameTable, worker: &mut Worker)
    requires own { IsSomeAnd worker.old.pass (λ p. p.table ≡ table.now) }
    requires shape { frames_of table.now.shape ≡ 1 }
    ensures own { IsSomeAnd worker.new.pass (λ p. p.table ≡ table.now) }
{
    let Some(pass) = worker.pass.take() else {
        unreachable!()
    };
    let (wrong, pass) = visit(table, pass);
    worker.wrong = wrong;
    let old = worker.pass.replace(pass);
    let None = old else { unreachable!() };
}

// Each worker in a thread of its own.
fn work_all<R: Threads + Sync>(rt: &R, table: &FrameTable, workers: &mut [Worker])
    requires own { All (λ w. IsSomeAnd w.pass (λ p. p.table ≡ table.now)) workers.old }
    requires shape { frames_of table.now.shape ≡ 1 }
    ensures own { All (λ w. IsSomeAnd w.pass (λ p. p.table ≡ table.now)) workers.new }
{
    for_each_mut(rt, workers, 16, &|_, worker| work(table, worker));
}

// The keeper in one thread more, with the frame named before. Answers how many lives that has had.
fn run_all<R: Threads + Sync>(
    rt: &R,
    table: &FrameTable,
    keeper: &mut Keeper,
    workers: &mut [Worker],
) -> u64
    requires keeper { keeper.old ≡ new_keeper table.now }
    requires own { All (λ w. IsSomeAnd w.pass (λ p. p.table ≡ table.now)) workers.old }
    requires shape { frames_of table.now.shape ≡ 1 }
    ensures keeper { keeper.new.table ≡ table.now }
    ensures own { All (λ w. IsSomeAnd w.pass (λ p. p.table ≡ table.now)) workers.new }
    ensures count { length workers.new ≡ length workers.old }
{
    name(table, keeper, 1);
    let (lives, ()) = join_mut(
        rt,
        &mut || spend(table, keeper),
        &mut || -> ()
            requires { IsSync R.row × All (λ w. IsSomeAnd w.pass (λ p. p.table ≡ table.now)) workers.now × (frames_of table.now.shape ≡ 1) }
            ensures own { All (λ w. IsSomeAnd w.pass (λ p. p.table ≡ table.entry.now)) workers.exit.now }
            ensures count { length workers.exit.now ≡ length workers.entry.now }
        { work_all(rt, table, workers) },
    );
    lives
}

// How a run ended: in how many holds a word was of another life, and how many lives the keeper counted; and of the
// frame at the end.
#[derive(Clone, Copy)]
struct Outcome {
    wrong: u64,
    lives: u64,
    generation: u64,
    base: u64,
    count: u64,
}

// Takes the passes back. Answers in how many holds a word was of another life.
fn take_back(table: &FrameTable, mut workers: Vec<Worker>, passes: &mut Vec<Pass>) -> u64
    requires workers { All (λ w. IsSomeAnd w.pass (λ p. p.table ≡ table.now)) workers.items }
    requires passes { All (λ p. p.table ≡ table.now) passes.old.items }
    requires room { vec_len passes.old + vec_len workers ≤ vec_capacity passes.old }
    ensures passes { All (λ p. p.table ≡ table.now) passes.new.items }
    ensures all { vec_len passes.new ≡ vec_len passes.old + vec_len workers }
{
    let mut all = 0u64;
    while let Some(worker) = workers.pop() {
        let Worker { pass, wrong } = worker;
        let Some(pass) = pass else { unreachable!() };
        all = all.wrapping_add(wrong);
        passes.push_reserved(pass);
    }
    workers.destroy_empty();
    all
}

// Sixteen passes look one place up while the keeper spends the lives of its frame.
fn crowd<R: Threads + Sync>(rt: &R, alloc: Global, shape: Shape) -> Result<Outcome, Fault>
    requires shape { IsShape shape × (frames_of shape ≡ 1) × (shape.passes ≡ 16) }
{
    let mut workers = Vec::with_capacity(alloc, 16)?;
    let (table, mut keeper, mut passes) = match FrameTable::open(alloc, shape) {
        Ok(opened) => opened,
        Err(fault) => {
            workers.destroy_empty();
            return Err(fault);
        }
    };
    while let Some(pass) = passes.pop() {
        workers.push_reserved(Worker {
            pass: Some(pass),
            wrong: 0,
        });
    }
    let lives = run_all(rt, &table, &mut keeper, workers.as_mut_slice());
    let wrong = take_back(&table, workers, &mut passes);
    let base = keeper.base(0);
    let closed = table.close(keeper, passes);
    Ok(Outcome {
        wrong,
        lives,
        generation: closed.generation(0),
        base,
        count: closed.count(0),
    })
}

// No hold was of two lives, each life was given by the keeper, and no reference is left but its own.
fn is_sound(outcome: &Outcome) -> bool {
    outcome.wrong == 0 && outcome.generation == outcome.lives && outcome.count == outcome.base
}

#[test]
fn sixteen_passes_against_a_keeper(rt: HostRuntime) -> Result<(), Fail> {
    for tries in [1, 64] {
        let outcome = crowd(&rt, rt.alloc(), Shape { tries, ..CROWDED })?;
        assert!(rt; is_sound(&outcome));
    }
    Ok(())
}
