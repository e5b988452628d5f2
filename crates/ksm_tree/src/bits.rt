//! Sets of numbers of any height: words of bits, and above them the set of those words that are not 0. So the least
//! number is found in a step for each height, wherever it is, and so is that there is none.
#![tactic(auto, using(crate::proofs::NumberBits::steps))]

ghost use Rattle.std.specs.Prelude.{[], false, IfOk, length, List, MatchOption, true, ℕ, ◌*◌, ◌+◌, ◌/◌, ◌<◌, ◌^◌, ◌∷◌, ◌≡◌, ◌≢◌, ◌≤◌};
ghost use Rattle.ksm_tree.specs.Terms.{FailsForMemory};
ghost use Rattle.ksm_tree.specs.NumberSets.{FindsLeast, has, HasNoBit, IsLowestBit, Marks};

use ksm_base::Fault;
use std::alloc::Global;
use std::marker::Model;

/// What each height promises.
pub trait Bits: Drop {
    ghost words: { Self → List ℕ };

    /// Puts a number into the set. There is room for its bit.
    fn add(&mut self, number: u32)
        requires { number < 64 * length (words self.old) }
        ensures { Marks (words self.old) (words self.new) number true };

    /// Takes a number out of the set. There is room for its bit.
    fn remove(&mut self, number: u32)
        requires { number < 64 * length (words self.old) }
        ensures { Marks (words self.old) (words self.new) number false };

    /// The least number from one on.
    fn first_from(&self, from: u32) -> Option<u32>
        requires { from < 64 * length (words self.now) }
        ensures { FindsLeast (words self.now) from (64 * length (words self.now)) result };
}

/// Numbers below 64, each by its bit.
#[derive(Drop)]
pub struct Word {
    word: u64,
}

impl Model for Word {
    ghost use Rattle.std.specs.Prelude.{[], List, ℕ, ◌∷◌};

    ghost Value = { List ℕ };

    ghost view = { λ w. w.word ∷ [] };
}

impl Word {
    /// No numbers.
    pub fn empty() -> Word
        ensures { result ≡ 0 ∷ [] }
    {
        Word { word: 0 }
    }
}

impl Bits for Word {
    ghost words = { λ w. w };

    #[inline(always)]
    fn add(&mut self, number: u32) {
        self.word |= 1 << (number % 64);
    }

    #[inline(always)]
    fn remove(&mut self, number: u32) {
        self.word &= !(1 << (number % 64));
    }

    #[inline(always)]
    fn first_from(&self, from: u32) -> Option<u32> {
        lowest_from(self.word, from % 64)
    }
}

/// Numbers below 64 times so many words, each by its bit: number n by bit n % 64 of word n / 64. There are at most
/// `MOST` words; where that is one, there is nothing to be found above it.
#[derive(Drop)]
pub struct Words<S: Bits, const MOST: usize> {
    words: Vec<u64>,
    // The numbers of those words that are not 0. It is not kept where there is one word at most.
    summary: S,
}

impl<S: Bits, const MOST: usize> Model for Words<S, MOST> {
    ghost use Rattle.std.specs.Prelude.{List, ℕ};
    ghost use Rattle.ksm_tree.specs.NumberSets.{AreSummed};

    ghost Value = { List ℕ };

    ghost view = { λ w. w.words.items };

    ghost invariant = { λ w. AreSummed MOST w.words.items (S.words w.summary) };
}

impl<S: Bits, const MOST: usize> Words<S, MOST> {
    ghost use Rattle.std.specs.Prelude.{replicate};

    /// No numbers, with room for those of so many words. The one fault is `Memory`.
    pub fn empty(alloc: Global, summary: S, words: usize) -> Result<Words<S, MOST>, Fault>
        requires few { words ≤ MOST }
        requires fits { 64 * words ≤ 2 ^ 32 }
        requires room { 1 < MOST → words < 64 * length (S.words summary) }
        requires none { (w : ℕ) → has (S.words summary) w ≡ false }
        ensures none { IfOk result (λ set. set ≡ replicate words 0) }
        ensures memory { FailsForMemory result }
    {
        Ok(Words {
            words: vec![in alloc; 0; words]?,
            summary,
        })
    }

    /// All numbers of so many words. The one fault is `Memory`.
    pub fn full(alloc: Global, summary: S, words: usize) -> Result<Words<S, MOST>, Fault>
        requires few { words ≤ MOST }
        requires fits { 64 * words ≤ 2 ^ 32 }
        requires room { words < 64 * length (S.words summary) }
        requires none { (w : ℕ) → has (S.words summary) w ≡ false }
        ensures all { IfOk result (λ set. set ≡ replicate words 18446744073709551615) }
        ensures memory { FailsForMemory result }
    {
        let mut all = summary;
        for at in 0..words {
            all.add(at as u32);
        }
        Ok(Words {
            words: vec![in alloc; u64::MAX; words]?,
            summary: all,
        })
    }

    /// Whether a number is in the set. There is room for its bit.
    #[inline(always)]
    pub fn contains(&self, number: u32) -> bool
        requires { number < 64 * length self.now }
        ensures { result ≡ has self.now number }
    {
        (self.words[number as usize / 64] >> (number % 64)) & 1 == 1
    }

    // Which of the words has a number's bit. Where there is one at most that is known before the program runs.
    #[inline(always)]
    fn word_of(&self, number: u32) -> u32
        requires { number < 64 * length self.now }
        ensures { result ≡ number / 64 }
    {
        let _ = &self.words;
        if MOST <= 1 { 0 } else { number / 64 }
    }

    // The least number in the words behind one.
    #[inline(always)]
    fn first_behind(&self, at: u32) -> Option<u32>
        requires { at < length self.now }
        ensures { FindsLeast self.now ((at + 1) * 64) (64 * length self.now) result }
    {
        let _ = &self.words;
        if MOST <= 1 {
            return None;
        }
        let next = self.summary.first_from(at + 1)?;
        Some(next * 64 + lowest(self.words[next as usize]))
    }
}

impl<S: Bits, const MOST: usize> Bits for Words<S, MOST> {
    ghost words = { λ w. w };

    #[inline(always)]
    fn add(&mut self, number: u32) {
        let at = self.word_of(number);
        self.words[at as usize] |= 1 << (number % 64);
        if MOST > 1 {
            self.summary.add(at);
        }
    }

    #[inline(always)]
    fn remove(&mut self, number: u32) {
        let at = self.word_of(number);
        let left = self.words[at as usize] & !(1 << (number % 64));
        self.words[at as usize] = left;
        if MOST > 1 && left == 0 {
            self.summary.remove(at);
        }
    }

    #[inline(always)]
    fn first_from(&self, from: u32) -> Option<u32> {
        let at = self.word_of(from);
        match lowest_from(self.words[at as usize], from % 64) {
            Some(bit) => Some(from / 64 * 64 + bit),
            None => self.first_behind(at),
        }
    }
}

// The lowest bit that is set in a word, from one on.
#[inline(always)]
fn lowest_from(word: u64, from: u32) -> Option<u32>
    requires { from < 64 }
    ensures { MatchOption result (HasNoBit word from) (IsLowestBit word from) }
{
    let rest = word >> from;
    if rest == 0 {
        None
    } else {
        Some(from + lowest(rest))
    }
}

// The lowest bit that is set in a word.
#[inline(always)]
fn lowest(word: u64) -> u32
    requires { word ≢ 0 }
    ensures { IsLowestBit word 0 result }
{
    word.trailing_zeros()
}
