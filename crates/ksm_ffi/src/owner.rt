//! A table with its keeper: what the keeper may do is tested here, so that nothing is required of a caller.
ghost use Rattle.std.specs.Prelude.{◌≡◌, ◌≢◌, ◌<◌, ◌↔◌, IsTrue, MatchResult, length};
ghost use Rattle.ksm_base.specs.Values.{frames_of};
ghost use Rattle.frame_core.specs.declared.event.KeeperStep.TheVariants.{Reap, Put, Raise, Open, Add, Sub, Publish};
ghost use Rattle.frame_core.specs.declared.event.KeeperStep.TheVariants.{Replace, Withdraw, Freeze, Word};
ghost use Rattle.frame_core.specs.Ledger.{IsLive, IsLoose, IsReadable, IsWritable, frame_at, named_at};
ghost use Rattle.frame_table.specs.Kept.{May};
ghost use Rattle.frame_core.specs.declared.event.KeeperStep.{KeeperStep};
ghost use Rattle.ksm_base.specs.declared.shape.Shape.{Shape};
ghost use Rattle.frame_table.specs.Named.{KeeperView};
ghost use Rattle.ksm_ffi.specs.Keeping.{IsInside, Judges, Keeps, KeepsWord, TellsFrame, kind_number};
ghost use Rattle.ksm_ffi.specs.Opening.{OpensTable};
ghost use Rattle.ksm_ffi.specs.declared.answer.Answer.TheVariants as answer;

use crate::answer::Answer;
use crate::home::Home;
use frame_core::{KeeperStep, Kind, Life};
use frame_table::{FrameTable, Keeper};
use ksm_base::{MOST_REFERENCES, PAGE_WORDS, Shape};
use std::alloc::Global;
use std::marker::Model;
use std::sync::Arc;

/// A table with its keeper. Contracts see the keeper.
pub struct Owner {
    table: Arc<FrameTable>,
    keeper: Keeper,
    // What each place names.
    named: Vec<Option<Life>>,
}

impl Model for Owner {
    ghost use Rattle.frame_table.specs.Named.{KeeperView};
    ghost use Rattle.ksm_ffi.specs.Owned.{IsOwner};

    ghost Value = { KeeperView };

    ghost view = { λ o. o.keeper };

    ghost invariant = { IsOwner };
}

// Whether a frame of this kind may be written.
fn is_writable(kind: Kind) -> bool
    ensures { IsTrue result ↔ IsWritable kind }
{
    match kind {
        Kind::Filling | Kind::Private => true,
        Kind::Free | Kind::Stable | Kind::Dying | Kind::Retired => false,
    }
}

// Whether the keeper may read a frame of this kind.
fn is_readable(kind: Kind) -> bool
    ensures { IsTrue result ↔ IsReadable kind }
{
    match kind {
        Kind::Private | Kind::Stable | Kind::Dying => true,
        Kind::Free | Kind::Filling | Kind::Retired => false,
    }
}

// Whether a place that names this may be named anew.
fn is_loose(keeper: &Keeper, frames: u32, named: Option<Life>) -> bool
    requires frames { frames ≡ frames_of keeper.now.table.shape }
    requires all { frames ≡ length keeper.now.ledger.frames }
    ensures { IsTrue result ↔ IsLoose keeper.now.ledger named }
{
    let Some(life) = named else {
        return true;
    };
    life.frame >= frames
        || keeper.kind(life.frame) != Kind::Stable
        || keeper.generation(life.frame) != life.generation
}

// Whether a place that names this may be replaced.
fn is_live(keeper: &Keeper, frames: u32, named: Option<Life>) -> bool
    requires frames { frames ≡ frames_of keeper.now.table.shape }
    requires all { frames ≡ length keeper.now.ledger.frames }
    ensures { IsTrue result ↔ IsLive keeper.now.ledger named }
{
    let Some(life) = named else {
        return false;
    };
    life.frame < frames
        && keeper.kind(life.frame) == Kind::Stable
        && keeper.generation(life.frame) == life.generation
}

// The number by which a caller in C is told what a frame is used for.
fn kind_number(kind: Kind) -> u32
    ensures { result ≡ kind_number kind }
{
    match kind {
        Kind::Free => 0,
        Kind::Filling => 1,
        Kind::Private => 2,
        Kind::Stable => 3,
        Kind::Dying => 4,
        Kind::Retired => 5,
    }
}

// Whether there are such a frame, place and word.
fn is_inside(frames: u32, step: KeeperStep) -> bool
    ensures { (sh : Shape) → frames_of sh ≡ frames → (IsTrue result ↔ IsInside sh step) }
{
    match step {
        KeeperStep::Put {
            frame,
            word,
            value: _,
        }
        | KeeperStep::Word { frame, word } => frame < frames && word < PAGE_WORDS,
        KeeperStep::Publish { place, frame } | KeeperStep::Replace { place, frame } => {
            place < frames && frame < frames
        }
        KeeperStep::Withdraw(place) => place < frames,
        KeeperStep::Reap(frame)
        | KeeperStep::Raise(frame)
        | KeeperStep::Open(frame)
        | KeeperStep::Add(frame)
        | KeeperStep::Sub(frame)
        | KeeperStep::Freeze(frame) => frame < frames,
    }
}

// The tests of the keeper's steps. They are made before the keeper is asked for the step.
impl Owner {
    fn is_kind(&self, frame: u32, kind: Kind) -> bool
        requires { frame < frames_of self.now.table.shape }
        ensures { IsTrue result ↔ (frame_at self.now.ledger frame).kind ≡ kind }
    {
        let owner: &Owner = self;
        owner.keeper.kind(frame) == kind
    }

    fn is_loose(&self, place: u32) -> bool
        requires { place < frames_of self.now.table.shape }
        ensures { IsTrue result ↔ IsLoose self.now.ledger (named_at self.now.ledger place) }
    {
        let named = self.named[place as usize];
        is_loose(&self.keeper, self.table.places(), named)
    }

    fn is_live(&self, place: u32) -> bool
        requires { place < frames_of self.now.table.shape }
        ensures { IsTrue result ↔ IsLive self.now.ledger (named_at self.now.ledger place) }
    {
        let named = self.named[place as usize];
        is_live(&self.keeper, self.table.places(), named)
    }

    fn may(&self, step: KeeperStep) -> bool
        requires { IsInside self.now.table.shape step }
        ensures { IsTrue result ↔ May self.now step }
    {
        match step {
            KeeperStep::Reap(frame) => self.is_kind(frame, Kind::Dying),
            KeeperStep::Raise(frame) => self.is_kind(frame, Kind::Free),
            KeeperStep::Open(frame) => self.is_kind(frame, Kind::Filling),
            KeeperStep::Freeze(frame) => self.is_kind(frame, Kind::Stable),
            KeeperStep::Add(frame) => (1..MOST_REFERENCES).contains(&self.keeper.base(frame)),
            KeeperStep::Sub(frame) => 1 <= self.keeper.base(frame),
            KeeperStep::Put {
                frame,
                word: _,
                value: _,
            } => is_writable(self.keeper.kind(frame)),
            KeeperStep::Word { frame, word: _ } => is_readable(self.keeper.kind(frame)),
            KeeperStep::Publish { place, frame } => {
                self.is_kind(frame, Kind::Private) && self.is_loose(place)
            }
            KeeperStep::Replace { place, frame } => {
                self.is_kind(frame, Kind::Private) && self.is_live(place)
            }
            KeeperStep::Withdraw(place) => self.is_loose(place),
        }
    }

    fn judge(&self, step: KeeperStep) -> Result<(), Answer>
        ensures { MatchResult result (λ _. May self.now step) (λ a. ¬ May self.now step × Judges self.now step a) }
    {
        may_be_inside();
        if !is_inside(self.table.places(), step) {
            return Err(Answer::Range);
        }
        if self.may(step) {
            Ok(())
        } else {
            Err(Answer::State)
        }
    }
}

// A step that is allowed is inside.
fn may_be_inside()
    ensures { (v : KeeperView) (e : KeeperStep) → May v e → IsInside v.table.shape e }
{}

// The calls of the keeper. What is not allowed is refused, and has changed nothing.
impl Owner {
    /// Takes one reference more on a frame on which the keeper has one, and fewer than `MOST_REFERENCES`.
    pub fn add(&mut self, frame: u32) -> Answer
        ensures { Keeps self.old (Add frame) result self.new }
    {
        if let Err(answer) = self.judge(KeeperStep::Add(frame)) {
            return answer;
        }
        self.keeper.add(&self.table, frame);
        Answer::Done
    }

    /// Gives one reference back. With the last one the frame is Dying.
    pub fn sub(&mut self, frame: u32) -> Answer
        ensures { Keeps self.old (Sub frame) result self.new }
    {
        if let Err(answer) = self.judge(KeeperStep::Sub(frame)) {
            return answer;
        }
        self.keeper.sub(&self.table, frame);
        Answer::Done
    }

    /// Takes a dying frame back, unless a reader has a reference on it.
    pub fn reap(&mut self, frame: u32) -> Answer
        ensures { Keeps self.old (Reap frame) result self.new }
    {
        if let Err(answer) = self.judge(KeeperStep::Reap(frame)) {
            return answer;
        }
        if self.keeper.reap(&self.table, frame) {
            Answer::Done
        } else {
            Answer::Used
        }
    }

    /// Gives a free frame its next life.
    pub fn raise(&mut self, frame: u32) -> Answer
        ensures { Keeps self.old (Raise frame) result self.new }
    {
        if let Err(answer) = self.judge(KeeperStep::Raise(frame)) {
            return answer;
        }
        self.keeper.raise(&self.table, frame);
        Answer::Done
    }

    /// Stores the word `word` of a frame that is Filling or Private.
    pub fn put(&mut self, frame: u32, word: usize, value: u64) -> Answer
        ensures { Keeps self.old (Put frame word value) result self.new }
    {
        if let Err(answer) = self.judge(KeeperStep::Put { frame, word, value }) {
            return answer;
        }
        self.keeper.put(&self.table, frame, word, value);
        Answer::Done
    }

    /// Opens a frame that was filled, with one reference.
    pub fn open_frame(&mut self, frame: u32) -> Answer
        ensures { Keeps self.old (Open frame) result self.new }
    {
        if let Err(answer) = self.judge(KeeperStep::Open(frame)) {
            return answer;
        }
        self.keeper.open(&self.table, frame);
        Answer::Done
    }

    /// Names a private frame at a place.
    pub fn publish(&mut self, place: u32, frame: u32) -> Answer
        ensures { Keeps self.old (Publish place frame) result self.new }
    {
        if let Err(answer) = self.judge(KeeperStep::Publish { place, frame }) {
            return answer;
        }
        self.keeper.publish(&self.table, place, frame);
        let generation = self.keeper.generation(frame);
        self.named[place as usize] = Some(Life { frame, generation });
        Answer::Done
    }

    /// Names a private frame at a place in place of the stable one that it names, which is as it was else.
    pub fn replace(&mut self, place: u32, frame: u32) -> Answer
        ensures { Keeps self.old (Replace place frame) result self.new }
    {
        if let Err(answer) = self.judge(KeeperStep::Replace { place, frame }) {
            return answer;
        }
        self.keeper.replace(&self.table, place, frame);
        let generation = self.keeper.generation(frame);
        self.named[place as usize] = Some(Life { frame, generation });
        Answer::Done
    }

    /// Empties a place.
    pub fn withdraw(&mut self, place: u32) -> Answer
        ensures { Keeps self.old (Withdraw place) result self.new }
    {
        if let Err(answer) = self.judge(KeeperStep::Withdraw(place)) {
            return answer;
        }
        self.keeper.withdraw(&self.table, place);
        self.named[place as usize] = None;
        Answer::Done
    }

    /// Takes all of the keeper's references on a stable frame back, unless a reader has one.
    pub fn freeze(&mut self, frame: u32) -> Answer
        ensures { Keeps self.old (Freeze frame) result self.new }
    {
        if let Err(answer) = self.judge(KeeperStep::Freeze(frame)) {
            return answer;
        }
        if self.keeper.freeze(&self.table, frame) {
            Answer::Done
        } else {
            Answer::Used
        }
    }

    /// Loads the word `word` of a frame that is Private, Stable or Dying, to `value`.
    pub fn word(&mut self, frame: u32, word: usize, value: &mut u64) -> Answer
        ensures loaded { KeepsWord self.old frame word result value.new self.new }
        ensures kept { result ≢ answer.Done → value.new ≡ value.old }
    {
        if let Err(answer) = self.judge(KeeperStep::Word { frame, word }) {
            return answer;
        }
        *value = self.keeper.word(&self.table, frame, word);
        Answer::Done
    }

    /// Tells what the keeper uses a frame for, how many references are its own, and the frame's life.
    pub fn frame(&self, frame: u32, kind: &mut u32, references: &mut u64, life: &mut u64) -> Answer
        ensures told { TellsFrame self.now frame result kind.new references.new life.new }
        ensures kept { result ≢ answer.Done → (kind.new ≡ kind.old) × (references.new ≡ references.old)
            × (life.new ≡ life.old) }
    {
        if frame >= self.table.places() {
            return Answer::Range;
        }
        let keeper = &self.keeper;
        *kind = kind_number(keeper.kind(frame));
        *references = keeper.base(frame);
        *life = keeper.generation(frame);
        Answer::Done
    }
}

// Opening and closing.
impl Owner {
    /// A table with all frames free, all places empty and no pass out. It tells its passes from those of tables with
    /// other numbers.
    pub fn open(alloc: Global, shape: Shape, number: u64) -> Result<(Owner, Home), Answer>
        ensures { OpensTable shape number result }
    {
        if !shape.check() {
            return Err(Answer::Shape);
        }
        let Ok(named) = vec![in alloc; None; shape.frames() as usize] else {
            return Err(Answer::Memory);
        };
        let Some((table, keeper, home)) = Home::open(alloc, shape, number) else {
            return Err(Answer::Memory);
        };
        let owner = Owner {
            table,
            keeper,
            named,
        };
        Ok((owner, home))
    }

    /// Lets the keeper go, with its part of the table. The table's memory is freed with its last part.
    pub fn retire(self) {
        let Owner {
            table,
            keeper,
            named,
        } = self;
        drop(named);
        keeper.retire();
        drop(table);
    }
}
