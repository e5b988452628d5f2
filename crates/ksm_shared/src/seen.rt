//! What shares have seen of the journal: a table whose seats are the book's and the shares', and its rule. The journal
//! there has no bytes; it stands in the views of the seats.

use atomic_table::{Join, Play, Seat, Shared, Split, Table, TableRule};
use ksm_base::{Command, Fault, Reply};
use std::alloc::Global;
use std::collections::LinkedList;

/// An entry of the journal.
pub type Entry = (Command, Result<Reply, Fault>);

/// An entry, with the number of the share whose command made it. Contracts speak of it; no value of it is made.
pub struct Owned {
    pub owner: u64,
    pub entry: Entry,
}

/// A share by its number, and the journal that it has seen. Contracts speak of it; no value of it is made.
pub struct Caller {
    pub number: u64,
    pub seen: LinkedList<Owned>,
}

/// What a seat knows: the book's the journal and how many shares there are, and each the shares that sit there.
/// Contracts speak of it; no value of it is made.
pub struct View {
    pub is_book: bool,
    pub log: LinkedList<Owned>,
    pub shares: u64,
    pub callers: LinkedList<Caller>,
}

/// The journal only grows, and each share has seen a beginning of it.
pub struct OneJournal;

impl TableRule<Option<Entry>, View, ()> for OneJournal {
    ghost use Rattle.std.specs.Prelude.{[]};
    ghost use Rattle.ksm_shared.specs.Seen.{Kept, book_view};

    ghost holds = { λ _. Kept };

    ghost first = { λ _. book_view [] 0 };
}

/// The step that adds an entry, where there is one.
pub struct Writing;

impl Play<Option<Entry>, View> for Writing {
    ghost use Rattle.ksm_shared.specs.Seen.{Writes};

    ghost then = { Writes };
}

/// The step that looks.
pub struct Looking;

impl Play<Option<Entry>, View> for Looking {
    ghost use Rattle.ksm_shared.specs.Seen.{Looks};

    ghost then = { Looks };
}

/// A new share.
pub struct NewShare;

impl Split<View> for NewShare {
    ghost use Rattle.std.specs.Prelude.{◌+◌, []};
    ghost use Rattle.ksm_shared.specs.Seen.{view_of, share_view};

    ghost left = { λ v. view_of v.is_book v.log (v.shares + 1) v.callers };

    ghost right = { λ v. share_view v.shares [] };
}

/// The whole view goes to the new seat.
pub struct Whole;

impl Split<View> for Whole {
    ghost use Rattle.ksm_shared.specs.Seen.{nobody};

    ghost left = { λ v. nobody };

    ghost right = { λ v. v };
}

/// The shares go to the new seat, or to the one that takes them in.
pub struct Shares;

impl Split<View> for Shares {
    ghost use Rattle.std.specs.Prelude.{[], false};
    ghost use Rattle.ksm_shared.specs.Seen.{view_of};

    ghost left = { λ v. view_of v.is_book v.log v.shares [] };

    ghost right = { λ v. view_of false [] 0 v.callers };
}

impl Join<View> for Shares {
    ghost use Rattle.std.specs.Prelude.{◌++◌};
    ghost use Rattle.ksm_shared.specs.Seen.{view_of, nobody};

    ghost both = { λ v w. view_of v.is_book v.log v.shares (v.callers ++ w.callers) };

    ghost spent = { nobody };
}

/// The table, with its one word.
pub(crate) type SeenTable = Table<Option<Entry>, View, (), OneJournal, Global>;

/// The part of it that steps go by.
pub(crate) type SeenWords = Shared<Option<Entry>, View, (), OneJournal>;

/// The seat of the book, or of a share.
pub(crate) type SeenSeat = Seat<Option<Entry>, View>;
