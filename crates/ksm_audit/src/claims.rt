//! The claim word: the next place that nobody has claimed, and what each seat has drawn.
use atomic_table::{Join, Play, Seat, Shared, Split, Table, TableRule};
use std::alloc::Global;
use std::collections::LinkedList;

/// What is dealt out: so many places, among so many workers.
#[derive(Clone, Copy)]
pub struct Deal {
    pub places: u32,
    pub workers: usize,
}

/// What a seat of the claim word knows. Contracts speak of it; no value of it is made.
pub struct Hand {
    /// What is dealt out.
    pub deal: Deal,
    /// Parts of the right to know all that was drawn: each worker has one, and the audit itself one more.
    pub parts: u64,
    /// How many of the numbers drawn are no places. A worker stops at its first.
    pub past: u64,
    /// The number after the last one drawn.
    pub next: u64,
    /// The numbers drawn.
    pub drawn: LinkedList<u64>,
}

/// The rule of the claim word, which holds between any two steps of any workers.
pub struct Claims;

impl TableRule<(), Hand, Deal> for Claims {
    ghost use Rattle.ksm_audit.specs.Claims.{Dealt, first_hand};

    ghost holds = { Dealt };

    ghost first = { first_hand };
}

/// The one kind of step: a number is drawn.
pub(crate) struct Draw;

impl Play<(), Hand> for Draw {
    ghost use Rattle.ksm_audit.specs.Claims.{Draws};

    ghost then = { Draws };
}

/// A worker gets a seat.
pub(crate) struct Worker;

impl Split<Hand> for Worker {
    ghost use Rattle.ksm_audit.specs.Claims.{one_less, worker_hand};

    ghost left = { one_less };

    ghost right = { λ v. worker_hand v.deal };
}

/// A worker's seat comes back.
pub(crate) struct Back;

impl Join<Hand> for Back {
    ghost use Rattle.ksm_audit.specs.Claims.{both, spent_hand};

    ghost both = { both };

    ghost spent = { spent_hand };
}

pub(crate) type ClaimTable = Table<(), Hand, Deal, Claims, Global>;

pub(crate) type ClaimWord = Shared<(), Hand, Deal, Claims>;

pub(crate) type ClaimSeat = Seat<(), Hand>;
