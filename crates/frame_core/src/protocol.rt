//! The frame protocol as a pure machine, with what is promised of it.
ghost use Rattle.std.specs.Prelude.{◌≡◌, ℕ, IfOk, IfErr, slice_get, option_map, take};
ghost use Rattle.ksm_base.specs.Values.{IsShape};
ghost use Rattle.frame_core.specs.Steps.{first_state, step, answer, after};
ghost use Rattle.frame_core.specs.Trace.{run_of};
ghost use Rattle.frame_core.specs.Ledger.{first_ledger};
ghost use Rattle.frame_core.specs.Knowing.{LedgerTells, ChangesOwnView};
ghost use Rattle.frame_core.specs.Safe.{IsSafe, GivenUnheld};
ghost use Rattle.frame_core.specs.Live.{LivePlacesAreFound};

use crate::event::{Event, Step};
use crate::frame::Kind;
use crate::machine::Machine;
use crate::seat::Phase;
use ksm_base::{Fault, Shape};
use std::alloc::Global;
use std::marker::Model;

/// The frame protocol as a pure machine: one keeper, and a seat for each pass. Contracts see it as its shape and its
/// state, which keeps the rule of the protocol (own).
#[derive(Drop)]
pub struct Core {
    machine: Machine,
}

impl Model for Core {
    ghost use Rattle.frame_core.specs.Knowing.{CoreView};
    ghost use Rattle.frame_core.specs.Rule.{Rule};

    ghost Value = { CoreView };

    ghost view = { λ c. c.machine };

    ghost invariant = { λ c. Rule c.machine.shape c.machine.state };
}

impl Core {
    /// The first state: all words 0, all frames free, all places empty, all seats idle. The only error is
    /// `Fault::Memory`.
    pub fn open(alloc: Global, shape: Shape) -> Result<Core, Fault>
        requires { IsShape shape }
        ensures opening { IfOk result (λ core. core ≡ record { shape = shape; state = first_state shape }) }
        ensures ledger { IfOk result (λ core. core.state.ledger ≡ first_ledger shape) }
        ensures memory { IfErr result (λ fault. fault ≡ Fault.Memory) }
    {
        match Machine::new(alloc, shape) {
            Ok(machine) => Ok(Core { machine }),
            Err(_) => Err(Fault::Memory),
        }
    }

    /// One step of one seat. It takes no memory.
    #[tactic(auto, using(crate::proofs::Fitting::rule_fits, crate::proofs::Views::ledger_tells, crate::proofs::Views::changes_own_view))]
    pub fn step(&mut self, event: Event) -> Step
        ensures answer { result ≡ answer (step self.old.shape self.old.state event) }
        ensures after { self.new ≡ record { shape = self.old.shape; state = after self.old.state (step self.old.shape self.old.state event) } }
        // a reader changes its own phase and nothing that another seat knows, the keeper what it knows itself
        ensures views { ChangesOwnView self.old.state event self.new.state }
        // what the keeper knows tells where its steps are allowed, and follows them
        ensures ledger { LedgerTells self.old.shape self.old.state event result self.new.state }
    {
        self.machine.step(event)
    }

    /// How far the lookup on a seat has come. `None` where the shape has no such seat.
    pub fn phase(&self, seat: u32) -> Option<Phase>
        ensures { result ≡ slice_get self.now.state.seats seat }
    {
        self.machine.seats.get(seat as usize).copied()
    }

    /// What the keeper uses a frame for. `None` where the shape has no such frame.
    pub fn kind(&self, frame: u32) -> Option<Kind>
        ensures { result ≡ option_map (λ note. note.kind) (slice_get self.now.state.ledger.frames frame) }
    {
        self.machine.notes.get(frame as usize).map(|note| note.kind)
    }

    /// The keeper's own references on a frame, 0 to `MOST_REFERENCES`. `None` where the shape has no such frame.
    pub fn base(&self, frame: u32) -> Option<u64>
        ensures { result ≡ option_map (λ note. note.base) (slice_get self.now.state.ledger.frames frame) }
    {
        self.machine.notes.get(frame as usize).map(|note| note.base)
    }
}

/// The core after these events, one after another; those that are not allowed are passed over. The only
/// error is `Fault::Memory`.
#[tactic(auto, using(crate::proofs::Histories::run_safe, crate::proofs::Histories::run_given))]
pub fn run(alloc: Global, shape: Shape, events: &[Event]) -> Result<Core, Fault>
    requires { IsShape shape }
    ensures state { IfOk result (λ core. core ≡ record { shape = shape; state = (run_of shape events.now).state }) }
    ensures memory { IfErr result (λ fault. fault ≡ Fault.Memory) }
    // after any number of the events
    ensures safe { (n : ℕ) → IsSafe shape (run_of shape (take n events.now)) }
    // and then a live place is not empty, and names no life that a lookup has found gone
    ensures live { (n : ℕ) → LivePlacesAreFound (run_of shape (take n events.now)) }
    // each raise and each opening in the trace found the frame without a holder
    ensures given { GivenUnheld shape.passes (run_of shape events.now).trace }
{
    let mut core = Core::open(alloc, shape)?;
    for event in events {
        let _ = core.step(*event);
    }
    Ok(core)
}
