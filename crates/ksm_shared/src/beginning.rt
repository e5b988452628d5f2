//! Beginnings of the one journal, which can be copied and compared, and the one value that adds to it. Their entries
//! have no bytes: only how many there are is kept.
ghost use Rattle.std.specs.Prelude.{◌≡◌, ◌++◌, ◌∷◌, ◌<◌, [], length, IfSome, MatchBool};
ghost use mathlib.Core.List.{IsPrefix};
ghost use Rattle.logbook.specs.Pages.{may_write};
ghost use Rattle.ksm_shared.specs.Chained.{first_key, first_word};

use crate::seen::Entry;
use logbook::{Gain, Offer, Pen, Plain, Play, Rule, Seen, Start, Word};
use std::marker::Model;
use std::snapshot::Snapshot;

/// An entry of the journal, with the key of the pen that may add the next one. Contracts speak of it; no value of it is
/// made.
pub struct Link {
    pub entry: Entry,
    pub key: u64,
}

/// The rule of the logbook: each link spends a pen, and names the next. Without a pen nobody adds one.
pub struct OnePen;

impl Rule<Link, u64> for OnePen {
    ghost use Rattle.std.specs.Prelude.{[]};
    ghost use base.Fml.{ftrue};
    ghost use Rattle.ksm_shared.specs.Chained.{IsChained};

    ghost holds = { λ cells links. IsChained cells links };

    ghost first = { [] };

    ghost hinted = { λ n links. Unit {0} };

    ghost shows = { λ links. [] };

    ghost keeps = { λ names links. ftrue };

    ghost moves = { λ ask before after answer. Unit {0} };
}

/// A step gains nothing beside what it does.
pub struct NoTrade;

impl Gain<Link, u64> for NoTrade {
    ghost use base.Fml.{ftrue};

    ghost after = { λ names about answer. ftrue };
}

/// The step that cuts a pen.
pub struct Cutting;

impl Play<Link, u64> for Cutting {
    ghost use Rattle.ksm_shared.specs.Chained.{Cuts};

    ghost then = { Cuts };
}

/// The step that adds a link.
pub struct Adding;

impl Play<Link, u64> for Adding {
    ghost use Rattle.ksm_shared.specs.Chained.{Adds};

    ghost then = { Adds };
}

/// An entry, with the pen that is to add the next one. It has no bytes.
#[derive(Drop)]
pub struct NewLink {
    entry: Snapshot<Entry>,
    pen: Pen,
}

// A pen is cut for no link.
impl Plain<(), Link, u64> for Cutting {
    ghost use Rattle.std.specs.Prelude.{None};
    ghost use Rattle.ksm_shared.specs.Chained.{no_link};

    ghost ask = { λ _. no_link };

    ghost state = { λ _. None };
}

// What is added.
impl Plain<NewLink, Link, u64> for Adding {
    ghost use Rattle.std.specs.Prelude.{None};

    ghost ask = { λ new. record { entry = new.entry.value; key = new.pen.nib.key } };

    ghost state = { λ new. None };
}

/// A word of the logbook.
pub type ChainWord = Word<Link, u64, OnePen>;

/// A mark of the logbook, which says how the journal has begun.
pub type SeenJournal = Seen<Link, u64, OnePen>;

/// A beginning of the journal. Contracts see its entries, and in which logbook the journal is.
#[derive(Drop)]
pub struct Beginning {
    count: u64,
    seen: SeenJournal,
}

impl Model for Beginning {
    ghost use Rattle.std.specs.Prelude.{◌≡◌, length};
    ghost use Rattle.ksm_shared.specs.Chained.{Reached, linked};

    ghost Value = { Reached };

    ghost view = { λ b. record { logbook = b.seen.book; journal = linked b.seen.log } };

    ghost invariant = { λ b. b.count ≡ length b.seen.log };
}

impl Beginning {
    /// How many entries it has.
    pub fn len(&self) -> u64
        ensures { result ≡ length self.now.journal }
    {
        self.count
    }

    /// A copy.
    pub fn again(&self) -> Beginning
        ensures { result ≡ self.now }
    {
        Beginning {
            count: self.count,
            seen: self.seen.again(),
        }
    }

    /// Whether the other goes on where this one ends. Of two beginnings of one journal the shorter begins the longer.
    pub fn begins(&self, other: &Beginning) -> bool
        requires { other.now.logbook ≡ self.now.logbook }
        ensures { MatchBool result (IsPrefix self.now.journal other.now.journal)
            (IsPrefix other.now.journal self.now.journal × (length other.now.journal < length self.now.journal)) }
    {
        let mut both = self.seen.again();
        both.learn(&other.seen);
        self.count <= other.count
    }
}

/// Adds to the journal: the one pen that may, with all that was added. Contracts see the whole journal, and its
/// logbook. It has eight bytes.
#[derive(Drop)]
pub struct Scribe {
    word: ChainWord,
    seen: SeenJournal,
    pen: Pen,
}

impl Model for Scribe {
    ghost use Rattle.std.specs.Prelude.{◌≡◌};
    ghost use Rattle.ksm_shared.specs.Chained.{MayAdd, Reached, first_word, linked};

    ghost Value = { Reached };

    ghost view = { λ s. record { logbook = s.seen.book; journal = linked s.seen.log } };

    ghost invariant = { λ s. (s.word ≡ first_word s.seen.book) × MayAdd s.seen.book s.seen.log s.pen.book s.pen.nib };
}

impl Scribe {
    /// A new logbook with an empty journal. None where another pen was cut in it before, as it never is; but no clause
    /// of `logbook` says so.
    pub fn open() -> Option<Scribe>
        ensures { IfSome result (λ scribe. scribe.journal ≡ []) }
    {
        let (seen, mut first, _second) = SeenJournal::open(Start::alone(), 0, 0);
        let word = Word::tracked(0, &mut first);
        let (pen, found) = cut(&word, &seen);
        if found > 0 {
            return None;
        }
        Some(Scribe { word, seen, pen })
    }

    /// Adds an entry to the journal.
    pub fn add(&mut self, entry: &Entry)
        ensures logbook { self.new.logbook ≡ self.old.logbook }
        ensures added { self.new.journal ≡ self.old.journal ++ entry.now ∷ [] }
    {
        let (pen, _) = cut(&self.word, &self.seen);
        let link = NewLink {
            entry: Snapshot::of(entry),
            pen,
        };
        let mut offer: Offer<Link, u64, OnePen, NoTrade> = self
            .seen
            .plain::<NoTrade, NewLink, Adding>(&link);
        self.word
            .compare_exchange::<Adding, NoTrade>(0, 1, &mut self.seen, &mut offer, &mut self.pen);
        self.pen = link.pen;
    }

    /// The whole journal, which has so many entries.
    pub fn reached(&self, count: u64) -> Beginning
        requires { count ≡ length self.now.journal }
        ensures { result ≡ self.now }
    {
        Beginning {
            count,
            seen: self.seen.again(),
        }
    }
}

// A new pen of the logbook, and the word that was found: where it is 0, no pen was cut before.
fn cut(word: &ChainWord, seen: &SeenJournal) -> (Pen, u64)
    requires { word.now ≡ first_word seen.now.book }
    ensures pen { (result.0.book ≡ seen.now.book) × (result.0.nib.right ≡ may_write) }
    ensures first { result.1 ≡ 0 → result.0.nib.key ≡ first_key }
{
    let mut mark = seen.again();
    let mut pen = mark.no_pen();
    let mut offer: Offer<Link, u64, OnePen, NoTrade> = mark.plain::<NoTrade, (), Cutting>(&());
    let found = word.compare_exchange::<Cutting, NoTrade>(0, 1, &mut mark, &mut offer, &mut pen);
    let _made: ChainWord = Word::tracked(0, &mut pen);
    (pen, found)
}
