//! A pass that looks one place up, again and again.

ghost use Rattle.std.specs.Prelude.{◌≡◌, ◌<◌, IsSomeAnd};
ghost use Rattle.ksm_base.specs.Values.{frames_of};

use frame_table::{Found, FrameTable, Held, Pass};
use ksm_base::PAGE_WORDS;
use std::thread::yield_now;

/// A pass with the lookups that it is to make, and what came of those that it made.
pub struct Reader {
    pub pass: Option<Pass>,
    pub lookups: u64,
    pub held: u64,
    /// Holds in which a word was not of the life held.
    pub wrong: u64,
}

/// What the word of a page with this number is in a life.
pub fn word_in(life: u64, i: usize) -> u64 {
    life.wrapping_mul(1024).wrapping_add(i as u64)
}

// Whether each word is of the life held, whenever it is read.
fn is_of_one_life(table: &FrameTable, held: &mut Held) -> bool
    requires own { held.old.table ≡ table.now }
    ensures own { held.new.table ≡ table.now }
{
    let life = held.generation();
    for i in 0..2 * PAGE_WORDS {
        let i = i % PAGE_WORDS;
        if held.word(table, i) != word_in(life, i) {
            return false;
        }
    }
    true
}

// One lookup.
fn look(table: &FrameTable, pass: Pass, held: &mut u64, wrong: &mut u64) -> Pass
    requires own { pass.table ≡ table.now }
    requires shape { frames_of table.now.shape ≡ 1 }
    ensures own { result.table ≡ table.now }
{
    match pass.find(table, 0) {
        Found::Held(mut hold) => {
            *held = held.wrapping_add(1);
            if !is_of_one_life(table, &mut hold) {
                *wrong = wrong.wrapping_add(1);
            }
            hold.leave(table)
        }
        Found::Gone(back, _) => {
            yield_now();
            back
        }
        Found::Busy(back) => back,
    }
}

/// Makes the lookups of a reader.
pub fn read(table: &FrameTable, reader: &mut Reader)
    requires own { IsSomeAnd reader.old.pass (λ p. p.table ≡ table.now) }
    requires shape { frames_of table.now.shape ≡ 1 }
    ensures own { IsSomeAnd reader.new.pass (λ p. p.table ≡ table.now) }
{
    let Some(pass) = reader.pass.take() else {
        unreachable!()
    };
    let mut pass = pass;
    for _ in 0..reader.lookups {
        pass = look(table, pass, &mut reader.held, &mut reader.wrong);
    }
    let old = reader.pass.replace(pass);
    let None = old else { unreachable!() };
}
