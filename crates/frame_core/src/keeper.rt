//! The keeper's steps.
ghost use Rattle.std.specs.Prelude.{◌≡◌, true};
ghost use Rattle.frame_core.specs.declared.event.Event.TheVariants.{Keeper};
ghost use Rattle.frame_core.specs.Bounds.{Fits};
ghost use Rattle.frame_core.specs.KeeperSteps.{is_live, may_step, keeper_finds};
ghost use Rattle.frame_core.specs.Steps.{step as core_step, answer, after, after_keeper};

use crate::event::{KeeperStep, Step};
use crate::frame::{FrameWord, Kind};
use crate::machine::Machine;
use crate::seat::Life;
use ksm_base::{MOST_REFERENCES, PAGE_WORDS};

impl Machine {
    /// Whether the place names a frame that is stable in the life named. Such a place is only replaced, by another
    /// frame in its life: its dup lives.
    fn is_live(&self, place: Option<Life>) -> bool
        ensures { result ≡ is_live self.now.state.ledger place }
    {
        match place {
            None => false,
            Some(life) => match self.notes.get(life.frame as usize) {
                None => false,
                Some(note) => {
                    matches!(note.kind, Kind::Stable) && note.generation == life.generation
                }
            },
        }
    }

    /// Whether the keeper may make the step.
    fn may_step(&self, step: KeeperStep) -> bool
        requires { Fits self.now.shape self.now.state }
        ensures { result ≡ may_step self.now.shape self.now.state.ledger step }
    {
        let count = self.shape.frames();
        let notes = &self.notes;
        match step {
            KeeperStep::Reap(f) => f < count && matches!(notes[f as usize].kind, Kind::Dying),
            KeeperStep::Put { frame: f, word, .. } => {
                f < count
                    && word < PAGE_WORDS
                    && matches!(notes[f as usize].kind, Kind::Filling | Kind::Private)
            }
            KeeperStep::Raise(f) => f < count && matches!(notes[f as usize].kind, Kind::Free),
            KeeperStep::Open(f) => f < count && matches!(notes[f as usize].kind, Kind::Filling),
            KeeperStep::Add(f) => {
                f < count
                    && notes[f as usize].base >= 1
                    && notes[f as usize].base <= MOST_REFERENCES - 1
            }
            KeeperStep::Sub(f) => f < count && notes[f as usize].base >= 1,
            KeeperStep::Publish { place, frame: f } => {
                place < count
                    && f < count
                    && matches!(notes[f as usize].kind, Kind::Private)
                    && !self.is_live(self.places[place as usize])
            }
            KeeperStep::Replace { place, frame: f } => {
                place < count
                    && f < count
                    && matches!(notes[f as usize].kind, Kind::Private)
                    && self.is_live(self.places[place as usize])
            }
            KeeperStep::Withdraw(place) => {
                place < count && !self.is_live(self.places[place as usize])
            }
            KeeperStep::Freeze(f) => f < count && matches!(notes[f as usize].kind, Kind::Stable),
            KeeperStep::Word { frame: f, word } => {
                f < count
                    && word < PAGE_WORDS
                    && matches!(
                        notes[f as usize].kind,
                        Kind::Private | Kind::Stable | Kind::Dying
                    )
            }
        }
    }

    /// The word that the step finds: 0 for a plain store.
    fn keeper_finds(&self, step: KeeperStep) -> u64
        requires fits { Fits self.now.shape self.now.state }
        requires may { may_step self.now.shape self.now.state.ledger step ≡ true }
        ensures { result ≡ keeper_finds self.now.state step }
    {
        match step {
            KeeperStep::Put { .. }
            | KeeperStep::Publish { .. }
            | KeeperStep::Replace { .. }
            | KeeperStep::Withdraw(_) => 0,
            KeeperStep::Word { frame, word } => self.notes[frame as usize].content[word],
            KeeperStep::Reap(frame)
            | KeeperStep::Raise(frame)
            | KeeperStep::Open(frame)
            | KeeperStep::Add(frame)
            | KeeperStep::Sub(frame)
            | KeeperStep::Freeze(frame) => self.frame_word(frame),
        }
    }

    /// Makes the step, which found this word.
    fn keep(&mut self, step: KeeperStep, found: u64)
        requires fits { Fits self.old.shape self.old.state }
        requires may { may_step self.old.shape self.old.state.ledger step ≡ true }
        requires found { found ≡ keeper_finds self.old.state step }
        ensures { self.new ≡ record { shape = self.old.shape; state = after_keeper self.old.shape self.old.state step found } }
    {
        match step {
            KeeperStep::Reap(f) => {
                if FrameWord::unpack(found).count == 0 {
                    let note = &mut self.notes[f as usize];
                    note.kind = if note.generation == self.shape.last_generation {
                        Kind::Retired
                    } else {
                        Kind::Free
                    };
                    note.base = 0;
                }
            }
            KeeperStep::Put { frame, word, value } => {
                self.notes[frame as usize].content[word] = value;
            }
            KeeperStep::Raise(f) => {
                let note = &mut self.notes[f as usize];
                note.kind = Kind::Filling;
                note.generation += 1;
            }
            KeeperStep::Open(f) => {
                let note = &mut self.notes[f as usize];
                note.kind = Kind::Private;
                note.base = 1;
                self.counts[f as usize] += 1;
            }
            KeeperStep::Add(f) => {
                self.notes[f as usize].base += 1;
                self.counts[f as usize] += 1;
            }
            KeeperStep::Sub(f) => {
                let note = &mut self.notes[f as usize];
                if note.base == 1 {
                    note.kind = Kind::Dying;
                }
                note.base -= 1;
                self.counts[f as usize] -= 1;
            }
            KeeperStep::Publish { place, frame } | KeeperStep::Replace { place, frame } => {
                let note = &mut self.notes[frame as usize];
                note.kind = Kind::Stable;
                let generation = note.generation;
                self.places[place as usize] = Some(Life { frame, generation });
            }
            KeeperStep::Withdraw(place) => self.places[place as usize] = None,
            KeeperStep::Freeze(f) => {
                let note = &mut self.notes[f as usize];
                if FrameWord::unpack(found).count == note.base {
                    note.kind = Kind::Dying;
                    note.base = 0;
                    self.counts[f as usize] = 0;
                }
            }
            KeeperStep::Word { .. } => {}
        }
    }

    /// A step of the keeper.
    pub(crate) fn keeper(&mut self, step: KeeperStep) -> Step
        requires { Fits self.old.shape self.old.state }
        ensures answer { result ≡ answer (core_step self.old.shape self.old.state (Keeper step)) }
        ensures after { self.new ≡ record { shape = self.old.shape; state = after self.old.state (core_step self.old.shape self.old.state (Keeper step)) } }
    {
        if !self.may_step(step) {
            return Step::NotAllowed;
        }
        let found = self.keeper_finds(step);
        self.keep(step, found);
        Step::Done(found)
    }
}
