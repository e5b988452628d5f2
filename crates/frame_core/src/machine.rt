//! A state of the core in vectors, and one step of it: where it is allowed, the word that it finds, and what it changes
//! by that.
ghost use Rattle.std.specs.Prelude.{◌≡◌, ◌<◌, length, slice_get, IfOk};
ghost use Rattle.ksm_base.specs.Values.{IsShape, frames_of};
ghost use Rattle.frame_core.specs.Bounds.{FrameFits, Fits};
ghost use Rattle.frame_core.specs.KeeperSteps.{count_at, frame_word_of};
ghost use Rattle.frame_core.specs.Ledger.{frame_at};
ghost use Rattle.frame_core.specs.Seat.{phase_at};
ghost use Rattle.frame_core.specs.Steps.{first_state, step, answer, after};

use crate::event::{Event, Step};
use crate::frame::{FrameWord, Kind};
use crate::ledger::Note;
use crate::seat::{Life, Phase};
use ksm_base::{PAGE_WORDS, Shape};
use std::alloc::{AllocError, Global};
use std::marker::Model;

/// A state of the core. Contracts see it with its shape.
#[derive(Drop)]
pub struct Machine {
    pub(crate) shape: Shape,
    /// What the keeper knows of each frame.
    pub(crate) notes: Vec<Note>,
    /// What each place names.
    pub(crate) places: Vec<Option<Life>>,
    /// The references on each frame.
    pub(crate) counts: Vec<u64>,
    pub(crate) seats: Vec<Phase>,
}

impl Model for Machine {
    ghost use Rattle.frame_core.specs.Knowing.{CoreView};

    ghost Value = { CoreView };

    ghost view = { λ m. record { shape = m.shape; state = record { ledger = record { frames = m.notes.items; places = m.places.items }; counts = m.counts.items; seats = m.seats.items } } };
}

impl Machine {
    /// The first state.
    pub(crate) fn new(alloc: Global, shape: Shape) -> Result<Machine, AllocError>
        requires { IsShape shape }
        ensures { IfOk result (λ machine. machine ≡ record { shape = shape; state = first_state shape }) }
    {
        let blank = Note {
            kind: Kind::Free,
            base: 0,
            generation: 0,
            content: [0; PAGE_WORDS],
        };
        let count = shape.frames() as usize;
        let place: Option<Life> = None;
        Ok(Machine {
            shape,
            notes: vec![in alloc; blank; count]?,
            places: vec![in alloc; place; count]?,
            counts: vec![in alloc; 0u64; count]?,
            seats: vec![in alloc; Phase::Idle; shape.passes as usize]?,
        })
    }

    /// How far a seat has come: one that there is not is Spent.
    pub(crate) fn phase(&self, seat: u32) -> Phase
        ensures { result ≡ phase_at self.now.state seat }
    {
        match self.seats.get(seat as usize) {
            Some(phase) => *phase,
            None => Phase::Spent,
        }
    }

    /// The word of a frame.
    pub(crate) fn frame_word(&self, frame: u32) -> u64
        requires frame { frame < length self.now.state.ledger.frames }
        requires count { frame < length self.now.state.counts }
        requires fits { FrameFits (frame_at self.now.state.ledger frame) (count_at self.now.state frame) }
        ensures { result ≡ frame_word_of self.now.state frame }
    {
        let word = FrameWord {
            generation: self.notes[frame as usize].generation,
            count: self.counts[frame as usize],
        };
        word.pack()
    }

    /// One step of one seat.
    pub(crate) fn step(&mut self, event: Event) -> Step
        requires { Fits self.old.shape self.old.state }
        ensures answer { result ≡ answer (step self.old.shape self.old.state event) }
        ensures after { self.new ≡ record { shape = self.old.shape; state = after self.old.state (step self.old.shape self.old.state event) } }
    {
        match event {
            Event::Reader(seat, step) => self.reader(seat, step),
            Event::Keeper(step) => self.keeper(step),
        }
    }
}
