//! The unstable tree, for users of this library. The book's own is in `ksm_pages`, which has each page's row.
#![tactic(auto, using(crate::proofs::Numbering::steps))]

ghost use Rattle.std.specs.Prelude.{[], IfOk, is_some, None, OnErr, Some, true, unwrap_or, ◌≡◌};
ghost use Rattle.ksm_tree.specs.Terms.{FailsForMemory};
ghost use Rattle.ksm_tree.specs.Waits.{IsSetTo, waiting_page};

use crate::content::Content;
use ksm_base::{Fault, GuestPage, PageBytes};
use std::alloc::Global;
use std::collections::BTreeMap;
use std::collections::btree_map::Entry;
use std::marker::Model;

/// The pages that wait for an equal one: at most one of each tree and bytes (mm/ksm, the unstable tree).
///
/// `find`, `find_or_add` and `remove` cost a search among the contents that wait, in a number of steps in the
/// order of the logarithm of how many there are; nobody can pick contents that cost more. `clear` drops them all.
#[derive(Drop)]
pub struct Waiting {
    alloc: Global,
    pages: BTreeMap<Content, GuestPage>,
}

impl Model for Waiting {
    ghost use Rattle.std.specs.Prelude.{List};
    ghost use Rattle.ksm_tree.specs.Waits.{waiting_pages, WaitingPage};

    ghost Value = { List WaitingPage };

    ghost view = { λ w. waiting_pages w.pages.entries };
}

impl Waiting {
    /// No page waits.
    pub fn new(alloc: Global) -> Waiting
        ensures { result ≡ [] }
    {
        Waiting {
            alloc,
            pages: BTreeMap::new(alloc),
        }
    }

    /// The page that waits in a tree with these bytes.
    pub fn find(&self, tree: u32, bytes: &PageBytes) -> Option<GuestPage>
        ensures { result ≡ waiting_page tree bytes.now self.now }
    {
        self.pages.get(&Content::of(tree, bytes)).copied()
    }

    /// The page that waits in a tree with these bytes from now on: the one that did, or else this one. The one fault is
    /// `Memory`, where none did, and then nothing changes.
    pub fn find_or_add(
        &mut self,
        tree: u32,
        bytes: &PageBytes,
        page: GuestPage,
    ) -> Result<GuestPage, Fault>
        ensures found { IfOk result (λ found. found ≡ unwrap_or (waiting_page tree bytes.now self.old) page) }
        ensures added { IfOk result (λ found. IsSetTo tree bytes.now (Some found) self.old self.new) }
        ensures kept { is_some (waiting_page tree bytes.now self.old) ≡ true → self.new ≡ self.old }
        ensures absent { OnErr result (waiting_page tree bytes.now self.old ≡ None) }
        ensures refused { OnErr result (self.new ≡ self.old) }
        ensures memory { FailsForMemory result }
    {
        match self.pages.entry(Content::of(tree, bytes))? {
            Entry::Occupied(entry) => return Ok(*entry.get()),
            Entry::Vacant(entry) => {
                entry.insert(page);
            }
        }
        Ok(page)
    }

    /// The page that waits in a tree with these bytes waits no more, if there is one.
    pub fn remove(&mut self, tree: u32, bytes: &PageBytes)
        ensures { IsSetTo tree bytes.now None self.old self.new }
    {
        self.pages.remove(&Content::of(tree, bytes));
    }

    /// No page waits any more.
    pub fn clear(&mut self)
        ensures { self.new ≡ [] }
    {
        self.pages = BTreeMap::new(self.alloc);
    }
}
