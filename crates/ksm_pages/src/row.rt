//! A row as it is kept, and how it is found.
//!
//! The state of a row is kept as a kind and a number. A row with a frame of its own waits exactly where the unstable
//! tree leads to it and its number is that of the pass that goes on: so when a pass begins and none waits any more,
//! one number grows, and no row is written.

ghost use Rattle.std.specs.Prelude.{◌≡◌, ◌&&◌, bytes_eq};
ghost use Rattle.ksm_pages.specs.Held.{beside as no_longer_alone, forgotten, frame_of, held_of, is_in as is_in_tree, is_restless as is_a_restless, state_of};

use ksm_base::{GuestPage, PageBytes, PageState, Row};
use ksm_tree::same_bytes;

/// A page with a guess of the key under which its row is kept. A call compares the guess before it believes it, so a
/// wrong one costs a search and changes nothing else. The key has 64 bits, so that a list of spots moves two words at
/// once.
#[derive(Clone, Copy, Debug)]
pub struct Spot {
    pub page: GuestPage,
    pub key: usize,
}

/// How a page is mapped.
#[derive(Clone, Copy, Debug, PartialEq, Eq)]
pub enum Kind {
    /// From a frame of its own.
    Own,
    /// From the frame of a dup.
    Merged,
    /// From the zero page.
    Zero,
}

/// Whether the unstable tree leads to a row.
#[derive(Clone, Copy, Debug, PartialEq, Eq)]
pub enum InTree {
    /// It does not.
    Not,
    /// It does, and there may be dups of the row's content.
    Beside,
    /// It does, and there is no dup of the row's content.
    Alone,
}

impl InTree {
    /// Whether the tree leads to the row.
    #[inline(always)]
    pub fn is_in(self) -> bool
        ensures { result ≡ is_in_tree self }
    {
        !matches!(self, InTree::Not)
    }

    /// The same once there may be dups of the row's content.
    #[inline(always)]
    pub fn beside(self) -> InTree
        ensures { result ≡ no_longer_alone self }
    {
        match self {
            InTree::Not => InTree::Not,
            InTree::Beside | InTree::Alone => InTree::Beside,
        }
    }
}

/// A row as it is kept. The fields stand in an order that leaves no gaps.
#[derive(Clone, Copy, Debug)]
pub struct Entry {
    pub page: GuestPage,
    pub bytes: PageBytes,
    /// Of a row with a frame of its own the pass since which it waits, or an earlier one; of a merged one the number of
    /// its dup.
    pub number: u64,
    /// Of a row with a frame of its own that frame; of a merged one a guess of the place of its dup.
    pub at: u32,
    pub home: u32,
    /// A guess of the number that the row's tree and bytes have among the groups of dups.
    pub group: u32,
    pub kind: Kind,
    pub in_tree: InTree,
    pub mergeable: bool,
    pub unchanged: bool,
}

impl Entry {
    /// Whether a visit may change the row: it is mergeable, and has a frame of its own.
    #[inline(always)]
    pub fn is_restless(&self) -> bool
        ensures { result ≡ is_a_restless self.now }
    {
        self.mergeable && matches!(self.kind, Kind::Own)
    }

    /// The state of the row in a pass.
    #[inline(always)]
    pub fn state(&self, pass: u64) -> PageState
        ensures { result ≡ state_of pass self.now }
    {
        match self.kind {
            Kind::Own => self.state_alone(pass),
            Kind::Merged => PageState::Merged(self.number),
            Kind::Zero => PageState::Zero,
        }
    }

    /// The same of a row with a frame of its own.
    #[inline(always)]
    pub fn state_alone(&self, pass: u64) -> PageState
        requires { self.now.kind ≡ Kind.Own }
        ensures { result ≡ state_of pass self.now }
    {
        if self.number == pass && self.in_tree.is_in() {
            PageState::Waiting
        } else {
            PageState::Private
        }
    }

    /// The frame of its own, if it has one.
    #[inline(always)]
    pub fn own_frame(&self) -> Option<u32>
        ensures { result ≡ frame_of self.now.kind self.now.at }
    {
        match self.kind {
            Kind::Own => Some(self.at),
            _ => None,
        }
    }

    /// The entry has a frame of its own, and waits for nothing.
    #[inline(always)]
    pub fn take_frame(&mut self, frame: u32)
        ensures { self.new ≡ record self.old { kind = Kind.Own; at = frame; number = 0 } }
    {
        self.kind = Kind::Own;
        self.at = frame;
        self.number = 0;
    }

    /// The entry has these bytes. Where they are others than before, it is not unchanged.
    #[inline(always)]
    pub fn take_bytes(&mut self, bytes: &PageBytes)
        ensures { self.new ≡ record self.old {
          bytes = bytes.now;
          unchanged = self.old.unchanged && bytes_eq self.old.bytes bytes.now;
        } }
    {
        self.unchanged = self.unchanged && same_bytes(&self.bytes, bytes);
        self.bytes = *bytes;
    }

    /// The same by a call, which a closure can make that becomes part of its caller.
    #[inline(never)]
    pub fn take_bytes_apart(&mut self, bytes: &PageBytes)
        ensures { self.new ≡ record self.old {
          bytes = bytes.now;
          unchanged = self.old.unchanged && bytes_eq self.old.bytes bytes.now;
        } }
    {
        self.take_bytes(bytes);
    }

    /// An entry with a frame of its own says no longer in which pass it came to wait.
    #[inline(always)]
    pub fn forget_pass(&mut self)
        ensures { self.new ≡ forgotten self.old }
    {
        if let Kind::Own = self.kind {
            self.number = 0;
        }
    }

    /// The row that the entry stands for in a pass.
    pub fn row(&self, pass: u64) -> Row
        ensures { result ≡ (held_of pass self.now).row }
    {
        Row {
            page: self.page,
            home: self.home,
            bytes: self.bytes,
            mergeable: self.mergeable,
            unchanged: self.unchanged,
            state: self.state(pass),
        }
    }
}
