//! A pass with its table. Each call gives the pass to the table's crate, and takes back what comes of it.
ghost use Rattle.std.specs.Prelude.{◌≡◌, ◌≢◌, ◌↔◌, IsTrue, Some, None};
ghost use Rattle.ksm_ffi.specs.declared.reader.Phase.TheVariants.{Idle};
ghost use Rattle.ksm_ffi.specs.declared.answer.Answer.TheVariants as answer;
ghost use Rattle.ksm_ffi.specs.Passes.{Finds, FindsEqual, GoesIdle, IsIdle, LooksUpAll, MayLookUp, Reads, ReadsAll};
ghost use Rattle.ksm_ffi.specs.Passes.{ReadsPage, ReadsThenLeaves, Tells, why_answer_of, why_not_of};

use crate::answer::Answer;
use frame_table::{Found, FoundEqual, FrameTable, Held, Pass, Why};
use ksm_base::{PAGE_WORDS, PageBytes};
use std::marker::Model;
use std::mem::ManuallyDrop;
use std::sync::Arc;

/// What a pass does. Contracts speak of it; no value of it is made.
pub enum Phase {
    /// It holds nothing.
    Idle(Pass),
    /// It holds a frame.
    Held(Held),
    /// It is with a call.
    Away,
}

/// A pass, and the table that it looks up. Between calls either the pass is there or its hold.
pub struct Reader {
    table: Arc<FrameTable>,
    pass: Option<Pass>,
    held: Option<Held>,
}

impl Model for Reader {
    ghost use Rattle.ksm_ffi.specs.declared.reader.Phase.{Phase};
    ghost use Rattle.ksm_ffi.specs.Passes.{IsOf, phase_of};

    ghost Value = { Phase };

    ghost view = { λ r. phase_of r.pass r.held };

    ghost invariant = { λ r. IsOf r.table.value (phase_of r.pass r.held) };
}

// Puts the pass back where it was taken from. That nothing is there is proved, and so not tested.
fn rest(slot: &mut Option<Pass>, pass: Pass)
    requires { slot.old ≡ None }
    ensures { slot.new ≡ Some pass }
{
    let _none = unsafe { ManuallyDrop::new_unchecked(slot.replace(pass)) };
}

// Keeps a hold. That nothing is there is proved, and so not tested.
fn keep(slot: &mut Option<Held>, held: Held)
    requires { slot.old ≡ None }
    ensures { slot.new ≡ Some held }
{
    let _none = unsafe { ManuallyDrop::new_unchecked(slot.replace(held)) };
}

// Loads every word of the page, to where the caller wants them, so that they are not copied on their way.
fn read_all(table: &FrameTable, held: &mut Held, words: &mut PageBytes)
    requires own { held.old.table ≡ table.now }
    ensures { ReadsPage held.old words.new held.new }
{
    'loads: for i in 0..PAGE_WORDS {
        words[i] = held.word(table, i);
    }
}

// Every word of the page, and the reference is given back.
fn read_and_leave(table: &FrameTable, held: Held, words: &mut PageBytes) -> Pass
    requires own { held.table ≡ table.now }
    ensures read { ReadsThenLeaves held words.new result }
    ensures own { result.table ≡ table.now }
{
    let mut held = held;
    read_all(table, &mut held, words);
    held.leave(table)
}

// Lookups.
impl Reader {
    /// Looks a place up.
    pub fn find(&mut self, place: u32) -> Answer
        ensures { Finds self.old place result self.new }
    {
        let Some(pass) = self.pass.take() else {
            return Answer::Holding;
        };
        if place >= self.table.places() {
            rest(&mut self.pass, pass);
            return Answer::Range;
        }
        match pass.find(&self.table, place) {
            Found::Held(held) => {
                keep(&mut self.held, held);
                Answer::Done
            }
            Found::Gone(pass, why) => {
                rest(&mut self.pass, pass);
                why_answer(why)
            }
            Found::Busy(pass) => {
                rest(&mut self.pass, pass);
                Answer::Busy
            }
        }
    }

    /// Looks a place up, and compares the frame's words with a page.
    pub fn find_equal(&mut self, place: u32, page: &PageBytes) -> Answer
        ensures { FindsEqual self.old place page.now result self.new }
    {
        let Some(pass) = self.pass.take() else {
            return Answer::Holding;
        };
        if place >= self.table.places() {
            rest(&mut self.pass, pass);
            return Answer::Range;
        }
        match pass.find_equal(&self.table, place, page) {
            FoundEqual::Held(held) => {
                keep(&mut self.held, held);
                Answer::Done
            }
            FoundEqual::Differs(held) => {
                keep(&mut self.held, held);
                Answer::Differs
            }
            FoundEqual::Gone(pass, why) => {
                rest(&mut self.pass, pass);
                why_answer(why)
            }
            FoundEqual::Busy(pass) => {
                rest(&mut self.pass, pass);
                Answer::Busy
            }
        }
    }

    /// Whether the pass holds nothing, and its table has this place.
    pub fn may_look_up(&self, place: u32) -> bool
        ensures { IsTrue result ↔ MayLookUp self.now place }
    {
        self.pass.is_some() && place < self.table.places()
    }

    /// Why a place is not looked up: the pass holds a frame, or else there is no such place.
    pub fn why_not(&self) -> Answer
        ensures { result ≡ why_not_of self.now }
    {
        if self.is_idle() {
            Answer::Range
        } else {
            Answer::Holding
        }
    }

    /// Looks a place up, loads every word of the frame that it names, and gives the reference back.
    pub fn look_up(&mut self, place: u32, words: &mut PageBytes) -> Answer
        ensures looked { LooksUpAll self.old place result words.new self.new }
        ensures kept { result ≢ answer.Done → words.new ≡ words.old }
    {
        if !self.may_look_up(place) {
            return self.why_not();
        }
        let Some(pass) = self.pass.take() else {
            unreachable!()
        };
        // Found once: behind a step of a word the compiler would look where the table stands anew.
        let table: &FrameTable = &self.table;
        match pass.find(table, place) {
            Found::Held(held) => {
                let pass = read_and_leave(table, held, words);
                rest(&mut self.pass, pass);
                Answer::Done
            }
            Found::Gone(pass, why) => {
                rest(&mut self.pass, pass);
                why_answer(why)
            }
            Found::Busy(pass) => {
                rest(&mut self.pass, pass);
                Answer::Busy
            }
        }
    }
}

// The answer where there was nothing to hold.
fn why_answer(why: Why) -> Answer
    ensures { result ≡ why_answer_of why }
{
    match why {
        Why::Vacant => Answer::Vacant,
        Why::Zero => Answer::Zero,
        Why::Generation => Answer::Life,
    }
}

// Holds, and what becomes of a pass.
impl Reader {
    /// A pass of this table.
    pub fn new(table: Arc<FrameTable>, pass: Pass) -> Reader
        requires { pass.table ≡ table.value }
        ensures { result ≡ Idle pass }
    {
        Reader {
            table,
            pass: Some(pass),
            held: None,
        }
    }

    /// Whether the pass holds nothing.
    pub fn is_idle(&self) -> bool
        ensures { IsTrue result ↔ IsIdle self.now }
    {
        self.pass.is_some()
    }

    /// Loads the word `i` of the frame that is held, to `word`.
    pub fn word(&mut self, i: usize, word: &mut u64) -> Answer
        ensures read { Reads self.old i result word.new self.new }
        ensures kept { result ≢ answer.Done → word.new ≡ word.old }
    {
        let Some(held) = &mut self.held else {
            return Answer::Idle;
        };
        if i >= PAGE_WORDS {
            return Answer::Range;
        }
        *word = held.word(&self.table, i);
        Answer::Done
    }

    /// Loads every word of the frame that is held, to `words`.
    pub fn words(&mut self, words: &mut PageBytes) -> Answer
        ensures read { ReadsAll self.old result words.new self.new }
        ensures kept { result ≢ answer.Done → words.new ≡ words.old }
    {
        let Some(held) = &mut self.held else {
            return Answer::Idle;
        };
        read_all(&self.table, held, words);
        Answer::Done
    }

    /// Tells where the frame that is held was found: its place, its frame and its life.
    pub fn held(&self, place: &mut u32, frame: &mut u32, life: &mut u64) -> Answer
        ensures told { Tells self.now result place.new frame.new life.new }
        ensures kept { result ≢ answer.Done → (place.new ≡ place.old) × (frame.new ≡ frame.old)
            × (life.new ≡ life.old) }
    {
        let Some(held) = &self.held else {
            return Answer::Idle;
        };
        *place = held.place();
        *frame = held.frame();
        *life = held.generation();
        Answer::Done
    }

    /// Gives the reference back.
    pub fn leave(&mut self) -> Answer
        ensures { GoesIdle self.old result self.new }
    {
        let Some(held) = self.held.take() else {
            return Answer::Idle;
        };
        rest(&mut self.pass, held.leave(&self.table));
        Answer::Done
    }

    /// Lets the pass go for good, and its part of the table.
    pub fn retire(self) {
        let Reader { table, pass, held } = self;
        drop(table);
        let _kept_for_good = unsafe { ManuallyDrop::new_unchecked((pass, held)) };
    }
}
