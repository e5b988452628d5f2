//! Opening a table, closing it or a book, passes, and the calls of the keeper. One thread at a time makes those of the
//! keeper, and one at a time those of the handle of passes; these may be two threads.
ghost use Rattle.std.specs.Prelude.{◌≡◌, ◌≢◌, ◌<◌, ◌≤◌, OnOk};
ghost use Rattle.frame_core.specs.declared.event.KeeperStep.TheVariants.{Reap, Put, Raise, Open, Add, Sub, Publish};
ghost use Rattle.frame_core.specs.declared.event.KeeperStep.TheVariants.{Replace, Withdraw, Freeze};
ghost use Rattle.ksm_ffi.specs.Keeping.{Keeps, KeepsWord, TellsOf};
ghost use Rattle.ksm_ffi.specs.Things.{Closes, ClosesPass, IsGivenBack, IsNewTable, JudgesBack, JudgesClose, LendsBox};
ghost use Rattle.ksm_ffi.specs.Things.{LendsThing, MakesTable, OnTable, OpensOf, OpensPass};
ghost use Rattle.ksm_ffi.specs.declared.answer.Answer.TheVariants as answer;

use crate::answer::Answer;
use crate::handle::{Handle, open_both};
use crate::home::Home;
use crate::numbers::Numbers;
use crate::owner::Owner;
use crate::thing::Thing;
use ksm_base::Shape;
use std::alloc::Global;

// A table and its passes, each in a box of its own.
fn make_table(
    alloc: Global,
    numbers: &mut Numbers,
    shape: Shape,
) -> Result<(Box<Thing>, Box<Thing>), Answer>
    ensures made { MakesTable shape numbers.old.next result }
    ensures drawn { OnOk result (numbers.old.next < numbers.new.next) }
    ensures rises { numbers.old.next ≤ numbers.new.next }
{
    if !shape.check() {
        return Err(Answer::Shape);
    }
    let Some(number) = numbers.draw() else {
        return Err(Answer::Memory);
    };
    let (owner, home) = Owner::open(alloc, shape, number)?;
    Thing::Table(owner, number).both_boxed(Thing::Home(home), alloc)
}

/// Opens a table of these sizes with all frames free and all places empty at a handle, and its passes, of which none is
/// out, at another; both have a number that none before had, by which passes are told from those of other tables.
/// Refused where either handle is open, where a size is out of its range, or for memory; then both are as they were.
#[unsafe(no_mangle)]
pub extern "C" fn ksm_table_open(
    alloc: Global,
    numbers: &mut Numbers,
    table: &mut Handle,
    home: &mut Handle,
    nodes: u32,
    frames_per_node: u32,
    passes: u32,
    last_generation: u64,
    tries: u32,
) -> u32
    ensures opened { OpensOf IsNewTable (record {
      nodes = nodes;
      frames_per_node = frames_per_node;
      passes = passes;
      last_generation = last_generation;
      tries = tries;
    }) numbers.old.next table.old.thing home.old.thing result table.new.thing home.new.thing }
    ensures drawn { result ≡ 0 → numbers.old.next < numbers.new.next }
    ensures rises { numbers.old.next ≤ numbers.new.next }
{
    if table.is_open() || home.is_open() {
        return Answer::Open.number();
    }
    let shape = Shape {
        nodes,
        frames_per_node,
        passes,
        last_generation,
        tries,
    };
    open_both(table, home, make_table(alloc, numbers, shape))
}

/// Closes a table or a book with its passes where none of them is out, and only there. Else both handles are as they
/// were, and the answer is why: passes are out, they are another table's, or a handle is closed or stands for something
/// else.
#[unsafe(no_mangle)]
pub extern "C" fn ksm_table_close(alloc: Global, table: &mut Handle, home: &mut Handle) -> u32
    ensures { Closes table.old.thing home.old.thing result table.new.thing home.new.thing }
{
    let Some(thing) = table.take(alloc) else {
        return Answer::Closed.number();
    };
    let Some(passes) = home.take(alloc) else {
        table.put(thing);
        return Answer::Closed.number();
    };
    let answer = judge_close(&thing, &passes);
    if answer == Answer::Done {
        Box::into_inner(thing).retire();
        Box::into_inner(passes).retire();
    } else {
        table.put(thing);
        home.put(passes);
    }
    answer.number()
}

// Whether what two handles stand for may be closed, as a table or a book and its passes, and if not, why.
fn judge_close(thing: &Thing, passes: &Thing) -> Answer
    ensures { JudgesClose thing.now passes.now result }
{
    match (thing, passes) {
        (Thing::Table(_, number), Thing::Home(home)) => home.judge_close(*number),
        (Thing::Book(_, number), Thing::Home(home)) => home.judge_close(*number),
        _ => Answer::Kind,
    }
}

// Lends a pass, in a box of its own.
fn lend_boxed(alloc: Global, home: &mut Home) -> Result<Box<Thing>, Answer>
    ensures { LendsBox home.old result home.new }
{
    let number = home.number();
    match Box::new(alloc, Thing::Pass(home.lend()?, number)) {
        Ok(pass) => Ok(pass),
        Err(failed) => {
            let Some(reader) = failed.value.into_reader() else {
                unreachable!()
            };
            home.take_back(reader);
            Err(Answer::Memory)
        }
    }
}

// Lends a pass of what a handle stands for.
fn lend(alloc: Global, passes: &mut Thing) -> Result<Box<Thing>, Answer>
    ensures { LendsThing passes.old result passes.new }
{
    match passes {
        Thing::Home(home) => lend_boxed(alloc, home),
        _ => Err(Answer::Kind),
    }
}

/// Opens a pass at a handle that is not open, by the handle of a table's passes: the last that came back, or else one
/// that never was out. It holds nothing, and is out then. Refused where all are out, for memory, or for the handles.
#[unsafe(no_mangle)]
pub extern "C" fn ksm_pass_open(alloc: Global, home: &mut Handle, pass: &mut Handle) -> u32
    ensures { OpensPass home.old.thing pass.old.thing result home.new.thing pass.new.thing }
{
    if pass.is_open() {
        return Answer::Open.number();
    }
    let Some(mut thing) = home.take(alloc) else {
        return Answer::Closed.number();
    };
    let lent = lend(alloc, &mut thing);
    home.put(thing);
    pass.open(lent)
}

// Whether a pass may come back to the passes of a table, and if not, why.
fn judge_back(passes: &Thing, pass: &Thing) -> Answer
    ensures { JudgesBack passes.now pass.now result }
{
    match (passes, pass) {
        (Thing::Home(home), Thing::Pass(reader, number)) => home.judge_back(reader, *number),
        _ => Answer::Kind,
    }
}

// Gives a pass back that may come back.
fn give_back(passes: &mut Thing, pass: Thing)
    requires { JudgesBack passes.old pass answer.Done }
    ensures { IsGivenBack passes.old pass passes.new }
{
    let Some(reader) = pass.into_reader() else {
        unreachable!()
    };
    match passes {
        Thing::Home(home) => home.take_back(reader),
        _ => unreachable!(),
    }
}

/// Gives a pass back, by the handle of its table's passes: where it has that table's number, one is out, and it holds
/// nothing. Else both handles are as they were, and the answer is why.
#[unsafe(no_mangle)]
pub extern "C" fn ksm_pass_close(alloc: Global, home: &mut Handle, pass: &mut Handle) -> u32
    ensures { ClosesPass home.old.thing pass.old.thing result home.new.thing pass.new.thing }
{
    let Some(back) = pass.take(alloc) else {
        return Answer::Closed.number();
    };
    let Some(mut thing) = home.take(alloc) else {
        pass.put(back);
        return Answer::Closed.number();
    };
    let answer = judge_back(&thing, &back);
    if answer == Answer::Done {
        give_back(&mut thing, Box::into_inner(back));
    } else {
        pass.put(back);
    }
    home.put(thing);
    answer.number()
}

/// Gives a free frame its next life: it is Filling then.
#[unsafe(no_mangle)]
pub extern "C" fn ksm_raise(alloc: Global, table: &mut Handle, frame: u32) -> u32
    ensures { OnTable (λ v a w. Keeps v (Raise frame) a w) table.old.thing result table.new.thing }
{
    let Some(mut thing) = table.take(alloc) else {
        return Answer::Closed.number();
    };
    let answer = match &mut *thing {
        Thing::Table(owner, _) => owner.raise(frame),
        _ => Answer::Kind,
    };
    table.put(thing);
    answer.number()
}

/// Stores a word of a frame that is Filling or Private.
#[unsafe(no_mangle)]
pub extern "C" fn ksm_put(alloc: Global, table: &mut Handle, frame: u32, i: usize, word: u64) -> u32
    ensures { OnTable (λ v a w. Keeps v (Put frame i word) a w) table.old.thing result table.new.thing }
{
    let Some(mut thing) = table.take(alloc) else {
        return Answer::Closed.number();
    };
    let answer = match &mut *thing {
        Thing::Table(owner, _) => owner.put(frame, i, word),
        _ => Answer::Kind,
    };
    table.put(thing);
    answer.number()
}

/// Opens a frame that is Filling: it is Private then, with one reference.
#[unsafe(no_mangle)]
pub extern "C" fn ksm_open_frame(alloc: Global, table: &mut Handle, frame: u32) -> u32
    ensures { OnTable (λ v a w. Keeps v (Open frame) a w) table.old.thing result table.new.thing }
{
    let Some(mut thing) = table.take(alloc) else {
        return Answer::Closed.number();
    };
    let answer = match &mut *thing {
        Thing::Table(owner, _) => owner.open_frame(frame),
        _ => Answer::Kind,
    };
    table.put(thing);
    answer.number()
}

/// Names a private frame at a place: it is Stable then.
#[unsafe(no_mangle)]
pub extern "C" fn ksm_publish(alloc: Global, table: &mut Handle, place: u32, frame: u32) -> u32
    ensures { OnTable (λ v a w. Keeps v (Publish place frame) a w) table.old.thing result table.new.thing }
{
    let Some(mut thing) = table.take(alloc) else {
        return Answer::Closed.number();
    };
    let answer = match &mut *thing {
        Thing::Table(owner, _) => owner.publish(place, frame),
        _ => Answer::Kind,
    };
    table.put(thing);
    answer.number()
}

/// Names a private frame at a place in place of the stable one that it names: the new one is Stable then, and the old
/// one as it was.
#[unsafe(no_mangle)]
pub extern "C" fn ksm_replace(alloc: Global, table: &mut Handle, place: u32, frame: u32) -> u32
    ensures { OnTable (λ v a w. Keeps v (Replace place frame) a w) table.old.thing result table.new.thing }
{
    let Some(mut thing) = table.take(alloc) else {
        return Answer::Closed.number();
    };
    let answer = match &mut *thing {
        Thing::Table(owner, _) => owner.replace(place, frame),
        _ => Answer::Kind,
    };
    table.put(thing);
    answer.number()
}

/// Empties a place.
#[unsafe(no_mangle)]
pub extern "C" fn ksm_withdraw(alloc: Global, table: &mut Handle, place: u32) -> u32
    ensures { OnTable (λ v a w. Keeps v (Withdraw place) a w) table.old.thing result table.new.thing }
{
    let Some(mut thing) = table.take(alloc) else {
        return Answer::Closed.number();
    };
    let answer = match &mut *thing {
        Thing::Table(owner, _) => owner.withdraw(place),
        _ => Answer::Kind,
    };
    table.put(thing);
    answer.number()
}

/// Takes one reference more on a frame.
#[unsafe(no_mangle)]
pub extern "C" fn ksm_add(alloc: Global, table: &mut Handle, frame: u32) -> u32
    ensures { OnTable (λ v a w. Keeps v (Add frame) a w) table.old.thing result table.new.thing }
{
    let Some(mut thing) = table.take(alloc) else {
        return Answer::Closed.number();
    };
    let answer = match &mut *thing {
        Thing::Table(owner, _) => owner.add(frame),
        _ => Answer::Kind,
    };
    table.put(thing);
    answer.number()
}

/// Gives one reference back: with the last the frame is Dying.
#[unsafe(no_mangle)]
pub extern "C" fn ksm_sub(alloc: Global, table: &mut Handle, frame: u32) -> u32
    ensures { OnTable (λ v a w. Keeps v (Sub frame) a w) table.old.thing result table.new.thing }
{
    let Some(mut thing) = table.take(alloc) else {
        return Answer::Closed.number();
    };
    let answer = match &mut *thing {
        Thing::Table(owner, _) => owner.sub(frame),
        _ => Answer::Kind,
    };
    table.put(thing);
    answer.number()
}

/// Takes all references of the keeper on a stable frame back, unless a reader has one: it is Dying then.
#[unsafe(no_mangle)]
pub extern "C" fn ksm_freeze(alloc: Global, table: &mut Handle, frame: u32) -> u32
    ensures { OnTable (λ v a w. Keeps v (Freeze frame) a w) table.old.thing result table.new.thing }
{
    let Some(mut thing) = table.take(alloc) else {
        return Answer::Closed.number();
    };
    let answer = match &mut *thing {
        Thing::Table(owner, _) => owner.freeze(frame),
        _ => Answer::Kind,
    };
    table.put(thing);
    answer.number()
}

/// Takes a dying frame back, unless a reader has a reference: it is Free then, or Retired.
#[unsafe(no_mangle)]
pub extern "C" fn ksm_reap(alloc: Global, table: &mut Handle, frame: u32) -> u32
    ensures { OnTable (λ v a w. Keeps v (Reap frame) a w) table.old.thing result table.new.thing }
{
    let Some(mut thing) = table.take(alloc) else {
        return Answer::Closed.number();
    };
    let answer = match &mut *thing {
        Thing::Table(owner, _) => owner.reap(frame),
        _ => Answer::Kind,
    };
    table.put(thing);
    answer.number()
}

/// Loads a word of a frame that is Private, Stable or Dying.
#[unsafe(no_mangle)]
pub extern "C" fn ksm_load(
    alloc: Global,
    table: &mut Handle,
    frame: u32,
    i: usize,
    word: &mut u64,
) -> u32
    ensures loaded { OnTable (λ v a w. KeepsWord v frame i a word.new w) table.old.thing result table.new.thing }
    ensures kept { result ≢ 0 → word.new ≡ word.old }
{
    let Some(mut thing) = table.take(alloc) else {
        return Answer::Closed.number();
    };
    let answer = match &mut *thing {
        Thing::Table(owner, _) => owner.word(frame, i, word),
        _ => Answer::Kind,
    };
    table.put(thing);
    answer.number()
}

/// Tells what the keeper uses a frame for, how many references are its own, and the frame's life.
#[unsafe(no_mangle)]
pub extern "C" fn ksm_frame(
    alloc: Global,
    table: &mut Handle,
    frame: u32,
    kind: &mut u32,
    references: &mut u64,
    life: &mut u64,
) -> u32
    ensures told { OnTable
        (λ v a w. TellsOf v frame a kind.new references.new life.new w) table.old.thing result table.new.thing }
    ensures kept { result ≢ 0 → (kind.new ≡ kind.old) × (references.new ≡ references.old) × (life.new ≡ life.old) }
{
    let Some(mut thing) = table.take(alloc) else {
        return Answer::Closed.number();
    };
    let answer = match &mut *thing {
        Thing::Table(owner, _) => owner.frame(frame, kind, references, life),
        _ => Answer::Kind,
    };
    table.put(thing);
    answer.number()
}
