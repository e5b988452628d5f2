//! The calls of a pass: lookups, and what they hold. Each thread that looks up has a pass of its own.
ghost use Rattle.std.specs.Prelude.{◌≡◌, ◌≢◌, ◌↔◌, IsTrue};
ghost use Rattle.ksm_ffi.specs.Answers.{number_of};
ghost use Rattle.ksm_ffi.specs.Passes.{Finds, FindsEqual, GoesIdle, LooksUpAll, Reads, ReadsAll, TellsHold};
ghost use Rattle.ksm_ffi.specs.Things.{MayLookUp, OnPass, why_not_by};

use crate::answer::Answer;
use crate::handle::Handle;
use crate::thing::Thing;
use ksm_base::PageBytes;

/// Looks a place up, and holds the frame that it names.
#[unsafe(no_mangle)]
pub extern "C" fn ksm_find(pass: &mut Handle, place: u32) -> u32
    ensures { OnPass (λ v a w. Finds v place a w) pass.old.thing result pass.new.thing }
{
    let Some(thing) = pass.as_mut() else {
        return Answer::Closed.number();
    };
    let answer = match thing {
        Thing::Pass(reader, _) => reader.find(place),
        _ => Answer::Kind,
    };
    answer.number()
}

/// Looks a place up, holds the frame that it names, and compares its words with a page.
#[unsafe(no_mangle)]
pub extern "C" fn ksm_find_equal(pass: &mut Handle, place: u32, page: &PageBytes) -> u32
    ensures { OnPass (λ v a w. FindsEqual v place page.now a w) pass.old.thing result pass.new.thing }
{
    let Some(thing) = pass.as_mut() else {
        return Answer::Closed.number();
    };
    let answer = match thing {
        Thing::Pass(reader, _) => reader.find_equal(place, page),
        _ => Answer::Kind,
    };
    answer.number()
}

/// Looks a place up, loads every word of the frame that it names, and gives the frame back: three calls in one.
#[unsafe(no_mangle)]
pub extern "C" fn ksm_look_up(pass: &mut Handle, place: u32, words: &mut PageBytes) -> u32
    ensures looked { OnPass (λ v a w. LooksUpAll v place a words.new w) pass.old.thing result pass.new.thing }
    ensures kept { result ≢ 0 → words.new ≡ words.old }
{
    let Some(thing) = pass.as_mut() else {
        return Answer::Closed.number();
    };
    if !may_look_up(thing, place) {
        return why_not(pass);
    }
    let Thing::Pass(reader, _) = thing else {
        unreachable!()
    };
    reader.look_up(place, words).number()
}

// Whether a handle stands for a pass that holds nothing, of a table that has this place.
fn may_look_up(thing: &Thing, place: u32) -> bool
    ensures { IsTrue result ↔ MayLookUp thing.now place }
{
    match thing {
        Thing::Pass(reader, _) => reader.may_look_up(place),
        _ => false,
    }
}

// The number that tells why no place is looked up. It is a function of its own, so that a lookup which is made loads
// none of these.
#[cold]
#[inline(never)]
fn why_not(pass: &mut Handle) -> u32
    ensures number { result ≡ number_of (why_not_by pass.old.thing) }
    ensures kept { pass.new.thing ≡ pass.old.thing }
{
    let Some(thing) = pass.as_mut() else {
        return Answer::Closed.number();
    };
    let answer = match thing {
        Thing::Pass(reader, _) => reader.why_not(),
        _ => Answer::Kind,
    };
    answer.number()
}

/// Loads the word `i` of the frame that is held.
#[unsafe(no_mangle)]
pub extern "C" fn ksm_word(pass: &mut Handle, i: usize, word: &mut u64) -> u32
    ensures read { OnPass (λ v a w. Reads v i a word.new w) pass.old.thing result pass.new.thing }
    ensures kept { result ≢ 0 → word.new ≡ word.old }
{
    let Some(thing) = pass.as_mut() else {
        return Answer::Closed.number();
    };
    let answer = match thing {
        Thing::Pass(reader, _) => reader.word(i, word),
        _ => Answer::Kind,
    };
    answer.number()
}

/// Loads every word of the frame that is held.
#[unsafe(no_mangle)]
pub extern "C" fn ksm_words(pass: &mut Handle, words: &mut PageBytes) -> u32
    ensures read { OnPass (λ v a w. ReadsAll v a words.new w) pass.old.thing result pass.new.thing }
    ensures kept { result ≢ 0 → words.new ≡ words.old }
{
    let Some(thing) = pass.as_mut() else {
        return Answer::Closed.number();
    };
    let answer = match thing {
        Thing::Pass(reader, _) => reader.words(words),
        _ => Answer::Kind,
    };
    answer.number()
}

/// Tells the place, the frame and the life that are held.
#[unsafe(no_mangle)]
pub extern "C" fn ksm_held(
    pass: &mut Handle,
    place: &mut u32,
    frame: &mut u32,
    life: &mut u64,
) -> u32
    ensures told { OnPass (λ v a w. TellsHold v a place.new frame.new life.new w) pass.old.thing result pass.new.thing }
    ensures kept { result ≢ 0 → (place.new ≡ place.old) × (frame.new ≡ frame.old) × (life.new ≡ life.old) }
{
    let Some(thing) = pass.as_mut() else {
        return Answer::Closed.number();
    };
    let answer = match thing {
        Thing::Pass(reader, _) => reader.held(place, frame, life),
        _ => Answer::Kind,
    };
    answer.number()
}

/// Gives the frame back that is held.
#[unsafe(no_mangle)]
pub extern "C" fn ksm_leave(pass: &mut Handle) -> u32
    ensures { OnPass (λ v a w. GoesIdle v a w) pass.old.thing result pass.new.thing }
{
    let Some(thing) = pass.as_mut() else {
        return Answer::Closed.number();
    };
    let answer = match thing {
        Thing::Pass(reader, _) => reader.leave(),
        _ => Answer::Kind,
    };
    answer.number()
}
