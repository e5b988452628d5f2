//! The journal: the commands that a book was given, with its answers.

ghost use Rattle.std.specs.Prelude.{◌≡◌, ◌++◌, ◌∷◌, ◌<◌, [], Ok, true, false, length, IfOk};
ghost use Rattle.ksm_journal.specs.Journal.{most_entries, told_at};

use crate::history::History;
use crate::kept::KeptEntries;
use ksm_base::{Command, Fault, Reply};
use std::alloc::{AllocError, Global};
use std::marker::Model;

/// Commands with their answers, in the order in which they were made. Contracts see the entries, whether they are kept,
/// and whether there is memory for one more.
///
/// Kept entries can be read, and each takes nine bytes or more for good. Those of a counted journal stand in proofs
/// alone: it takes no memory, and only their number can be read.
#[derive(Drop)]
pub struct Journal {
    count: usize,
    history: History<Command, Result<Reply, Fault>>,
    kept: Option<KeptEntries>,
}

impl Model for Journal {
    ghost use Rattle.std.specs.Prelude.{◌≡◌, length, IfSome};
    ghost use Rattle.ksm_journal.specs.Journal.{JournalView, has_room_for, is_some};

    ghost Value = { JournalView };

    ghost view = { λ j. record {
      entries = j.history.items;
      is_kept = is_some j.kept;
      has_room = has_room_for j.count j.kept;
    } };

    ghost invariant = { λ j. (j.count ≡ length j.history.items)
        × IfSome j.kept (λ kept. kept.entries ≡ j.history.items) };
}

impl Journal {
    /// The journal of a book that was given no command. It keeps its entries, and takes no memory yet.
    pub fn kept(alloc: Global) -> Journal
        ensures entries { result.entries ≡ [] }
        ensures kept { result.is_kept ≡ true }
    {
        Journal {
            count: 0,
            history: History::new(),
            kept: Some(KeptEntries::new(alloc)),
        }
    }

    /// The same, but it counts its entries alone, and never takes memory.
    pub fn counted() -> Journal
        ensures entries { result.entries ≡ [] }
        ensures counted { result.is_kept ≡ false }
    {
        Journal {
            count: 0,
            history: History::new(),
            kept: None,
        }
    }

    /// Takes the memory of one more entry. Refused for memory, or where 2^32 pages or whole entries stand beside the
    /// codes; where the entries are counted, only behind 2^64 - 1 of them.
    pub fn reserve(&mut self) -> Result<(), AllocError>
        ensures entries { self.new.entries ≡ self.old.entries }
        ensures kept { self.new.is_kept ≡ self.old.is_kept }
        ensures room { IfOk result (λ _. self.new.has_room ≡ true) }
        ensures counted { self.old.is_kept ≡ false → length self.old.entries < most_entries → result ≡ Ok tt }
    {
        if self.count == usize::MAX {
            return Err(AllocError);
        }
        match &mut self.kept {
            Some(kept) => kept.reserve(),
            None => Ok(()),
        }
    }

    /// Adds an entry.
    #[inline(always)]
    pub fn add(&mut self, command: &Command, answer: Result<Reply, Fault>)
        requires room { self.old.has_room ≡ true }
        ensures entries { self.new.entries ≡ self.old.entries ++ (command.now, answer) ∷ [] }
        ensures kept { self.new.is_kept ≡ self.old.is_kept }
    {
        self.history = self.history.and(command, &answer);
        self.count += 1;
        if let Some(kept) = &mut self.kept {
            kept.add(*command, answer);
        }
    }

    /// How many entries there are.
    pub fn len(&self) -> usize
        ensures { result ≡ length self.now.entries }
    {
        self.count
    }

    /// Whether the entries are kept.
    pub fn is_kept(&self) -> bool
        ensures { result ≡ self.now.is_kept }
    {
        self.kept.is_some()
    }

    /// The command of entry `number`, from 0 on, with its answer; none where there are not so many entries, and none
    /// where they are counted alone.
    pub fn get(&self, number: usize) -> Option<(Command, Result<Reply, Fault>)>
        ensures { result ≡ told_at self.now.is_kept self.now.entries number }
    {
        match &self.kept {
            Some(kept) => kept.get(number),
            None => None,
        }
    }
}
