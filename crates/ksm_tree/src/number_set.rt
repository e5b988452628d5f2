//! Sets of the numbers of frames, or of places, as words of bits with as many heights above them as their limit wants.
#![tactic(auto, using(crate::proofs::NumberBits::replicated))]

ghost use Rattle.std.specs.Prelude.{false, IfOk, length, true, ℕ, ◌*◌, ◌<◌, ◌≡◌, ◌≤◌};
ghost use Rattle.ksm_tree.specs.Terms.{FailsForMemory, MOST_FRAMES as most_frames};
ghost use Rattle.ksm_tree.specs.declared.number_set.TheConstants.{WORDS as most_words};
ghost use Rattle.ksm_tree.specs.NumberSets.{FindsLeast, has, Marks};
ghost use Rattle.ksm_tree.specs.Slots.{IsMarked, MayBeMarked};

use crate::bits::{Bits, Word, Words};
use ksm_base::{Fault, MOST_FRAMES};
use std::alloc::Global;
use std::marker::Model;

// How many words there are at most, and how many above them; each height has room for one number more than there are
// words below it. One word stands above all.
const WORDS: usize = (MOST_FRAMES as usize + 63) / 64;

const ABOVE: usize = WORDS / 64 + 1;

const TOP: usize = ABOVE / 64 + 1;

const PEAK: usize = TOP / 64 + 1;

const _: () = prove!(PEAK < 64);

// The heights above the words.
type Upper = Words<Words<Words<Word, PEAK>, TOP>, ABOVE>;

/// Numbers below a table's number of frames, each by its bit.
#[derive(Drop)]
pub struct NumberSet {
    bits: Words<Upper, WORDS>,
}

impl Model for NumberSet {
    ghost use Rattle.std.specs.Prelude.{List, ℕ};

    ghost Value = { List ℕ };

    ghost view = { λ s. s.bits };
}

impl NumberSet {
    /// All numbers below a limit. The one fault is `Memory`.
    pub fn full(alloc: Global, limit: u32) -> Result<NumberSet, Fault>
        requires { limit ≤ most_frames }
        ensures wide { IfOk result (λ set. limit ≤ 64 * length set) }
        ensures all { IfOk result (λ set. (n : ℕ) → n < limit → has set n ≡ true) }
        ensures memory { FailsForMemory result }
    {
        let words = words_for(limit);
        Ok(NumberSet {
            bits: Words::full(alloc, upper(alloc, words)?, words)?,
        })
    }

    /// No numbers, with room for all below a limit. The one fault is `Memory`.
    pub fn empty(alloc: Global, limit: u32) -> Result<NumberSet, Fault>
        requires { limit ≤ most_frames }
        ensures wide { IfOk result (λ set. limit ≤ 64 * length set) }
        ensures none { IfOk result (λ set. (n : ℕ) → has set n ≡ false) }
        ensures memory { FailsForMemory result }
    {
        let words = words_for(limit);
        Ok(NumberSet {
            bits: Words::empty(alloc, upper(alloc, words)?, words)?,
        })
    }

    /// Whether a number is in the set. There is room for its bit.
    #[inline(always)]
    pub fn contains(&self, number: u32) -> bool
        requires { number < 64 * length self.now }
        ensures { result ≡ has self.now number }
    {
        self.bits.contains(number)
    }

    /// Puts a number into the set if `marked`, and else takes it out. There is room for its bit.
    #[inline(always)]
    pub fn mark(&mut self, number: u32, marked: bool)
        requires { number < 64 * length self.old }
        ensures { Marks self.old self.new number marked }
    {
        if marked {
            self.add(number);
        } else {
            self.remove(number);
        }
    }

    /// Puts a number into the set. There is room for its bit.
    #[inline(always)]
    pub fn add(&mut self, number: u32)
        requires { number < 64 * length self.old }
        ensures { Marks self.old self.new number true }
    {
        self.bits.add(number);
    }

    /// Takes a number out of the set. There is room for its bit.
    #[inline(always)]
    pub fn remove(&mut self, number: u32)
        requires { number < 64 * length self.old }
        ensures { Marks self.old self.new number false }
    {
        self.bits.remove(number);
    }

    /// The least number of those from `from` on and below `end`.
    #[inline(always)]
    pub fn least(&self, from: u32, end: u32) -> Option<u32>
        requires { end ≤ 64 * length self.now }
        ensures { FindsLeast self.now from end result }
    {
        if end <= from {
            return None;
        }
        let found = self.bits.first_from(from)?;
        (found < end).then_some(found)
    }
}

/// A set of numbers, and how many of the places are in it.
#[derive(Drop)]
pub struct CountedSet {
    pub set: NumberSet,
    pub count: usize,
}

impl CountedSet {
    /// Puts a place into the set if `marked`, and else takes it out.
    #[inline(always)]
    pub fn mark(&mut self, place: u32, marked: bool)
        requires { MayBeMarked self.old place }
        ensures { IsMarked self.old self.new place marked }
    {
        if self.set.contains(place) == marked {
            return;
        }
        self.set.mark(place, marked);
        if marked {
            self.count += 1;
        } else {
            self.count -= 1;
        }
    }
}

// How many words the numbers below a limit want.
fn words_for(limit: u32) -> usize
    requires { limit ≤ most_frames }
    ensures room { limit ≤ 64 * result }
    ensures few { result ≤ most_words }
{
    (limit as usize + 63) / 64
}

// The heights above so many words, with no number. One that nothing asks for has no words. The one fault is `Memory`.
fn upper(alloc: Global, words: usize) -> Result<Upper, Fault>
    requires { words ≤ most_words }
    ensures room { IfOk result (λ set. words < 64 * length set) }
    ensures none { IfOk result (λ set. (n : ℕ) → has set n ≡ false) }
    ensures memory { FailsForMemory result }
{
    let above = words / 64 + 1;
    let top = if ABOVE > 1 { above / 64 + 1 } else { 0 };
    let peak = if TOP > 1 { top / 64 + 1 } else { 0 };
    let highest = Words::empty(alloc, Word::empty(), peak)?;
    let higher = Words::empty(alloc, highest, top)?;
    let all = Words::empty(alloc, higher, above)?;
    Ok(all)
}
