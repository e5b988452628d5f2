//! The entries of a journal that is kept, so that they can be read.

ghost use Rattle.std.specs.Prelude.{◌≡◌, ◌++◌, ◌∷◌, [], true, length, slice_get, IfOk};

use crate::code::{AnswerCode, CommandCode, StoredPage, beside, entry, short, whole};
use ksm_base::{Command, Fault, Reply};
use std::alloc::{AllocError, Global};
use std::marker::Model;

/// Commands with their answers, in the order in which they were made. Contracts see the entries, and whether there is
/// memory for one more.
///
/// An entry takes nine bytes. A page that is not full of one byte takes 72 more. What no code tells stands whole beside
/// the codes, in 120 more: a scan that stopped, an unmerging that did, a number of more than 32 bits, a node above 3.
#[derive(Drop)]
pub(crate) struct KeptEntries {
    codes: Vec<CommandCode>,
    answers: Vec<AnswerCode>,
    pages: Vec<StoredPage>,
    wholes: Vec<(Command, Result<Reply, Fault>)>,
}

impl Model for KeptEntries {
    ghost use Rattle.std.specs.Prelude.{◌≡◌, ◌<◌, ◌^◌, ltb, ◌&&◌, length, vec_len, vec_capacity, All};
    ghost use Rattle.ksm_journal.specs.Coding.{KeptView, entries_of, IsInside};

    ghost Value = { KeptView };

    ghost view = { λ j. record {
      entries = entries_of j.pages.items j.wholes.items j.codes.items j.answers.items;
      has_room = (ltb (vec_len j.codes) (vec_capacity j.codes) && ltb (vec_len j.answers) (vec_capacity j.answers))
          && ((ltb (vec_len j.pages) (vec_capacity j.pages) && ltb (vec_len j.pages) (2 ^ 32))
          && (ltb (vec_len j.wholes) (vec_capacity j.wholes) && ltb (vec_len j.wholes) (2 ^ 32)));
    } };

    ghost invariant = { λ j. (length j.answers.items ≡ length j.codes.items)
        × All (λ c. IsInside (length j.pages.items) (length j.wholes.items) c.kind c.number) j.codes.items };
}

impl KeptEntries {
    /// No entry. It takes no memory.
    pub fn new(alloc: Global) -> KeptEntries
        ensures { result.entries ≡ [] }
    {
        KeptEntries {
            codes: Vec::new(alloc),
            answers: Vec::new(alloc),
            pages: Vec::new(alloc),
            wholes: Vec::new(alloc),
        }
    }

    /// Takes the memory of one more entry. Refused for memory, or where 2^32 pages or whole entries stand beside the
    /// codes.
    pub fn reserve(&mut self) -> Result<(), AllocError>
        ensures kept { self.new.entries ≡ self.old.entries }
        ensures room { IfOk result (λ _. self.new.has_room ≡ true) }
    {
        if self.pages.len() > u32::MAX as usize || self.wholes.len() > u32::MAX as usize {
            return Err(AllocError);
        }
        self.codes.reserve(1)?;
        self.answers.reserve(1)?;
        self.pages.reserve(1)?;
        self.wholes.reserve(1)
    }

    /// Adds an entry.
    pub fn add(&mut self, command: Command, answer: Result<Reply, Fault>)
        requires room { self.old.has_room ≡ true }
        ensures { self.new.entries ≡ self.old.entries ++ (command, answer) ∷ [] }
    {
        let Some((code, told)) = short(&command, &answer) else {
            self.add_long(command, answer);
            return;
        };
        self.codes.push_reserved(code);
        self.answers.push_reserved(told);
    }

    // Takes the entry by value and is not inlined, for speed: else `add` would clear for each entry what only a long
    // one needs.

    /// Adds an entry of which the codes do not tell all.
    #[inline(never)]
    fn add_long(&mut self, command: Command, answer: Result<Reply, Fault>)
        requires room { self.old.has_room ≡ true }
        ensures { self.new.entries ≡ self.old.entries ++ (command, answer) ∷ [] }
    {
        if let Some((code, told, page)) = beside(&command, &answer, self.pages.len() as u32) {
            self.pages.push_reserved(page);
            self.codes.push_reserved(code);
            self.answers.push_reserved(told);
        } else {
            let code = whole(self.wholes.len() as u32);
            self.wholes.push_reserved((command, answer));
            self.codes.push_reserved(code);
            self.answers.push_reserved(AnswerCode::AllDone);
        }
    }

    /// The command of entry `number`, from 0 on, with its answer; none where there are not so many entries.
    pub fn get(&self, number: usize) -> Option<(Command, Result<Reply, Fault>)>
        ensures { result ≡ slice_get self.now.entries number }
    {
        if number >= self.codes.len() {
            return None;
        }
        Some(entry(
            self.codes[number],
            self.answers[number],
            &self.pages,
            &self.wholes,
        ))
    }
}
