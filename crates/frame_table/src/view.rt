//! What each seat of a table knows, and the rule that joins it to the words. It is ghost: no value of a view is ever
//! made.
use atomic_table::TableRule;
use frame_core::{Event, KeeperStep, Ledger, Phase, ReaderStep};
use ksm_base::Shape;
use std::collections::LinkedList;

/// How many passes are still to be made, and how many are out.
pub struct Tally {
    /// While the table is opened: passes that are still to be made.
    pub unmade: u32,
    /// Passes that were made and not given back.
    pub out: u32,
}

/// What a seat knows: its part of the state, its steps, each with the word that it found, and the order of all steps of
/// all seats up to its last one. The rule speaks of it; no value of it is made.
pub enum View {
    /// The keeper's seat.
    Keeper(Shape, Ledger, Tally, LinkedList<(KeeperStep, u64)>, LinkedList<Event>),
    /// A pass, and how far its lookup has come.
    Reader(Shape, Phase, LinkedList<(ReaderStep, u64)>, LinkedList<Event>),
    /// A pass that was given back.
    Spent,
}

/// The rule that words and views keep between any two steps.
pub struct FrameRule;

impl TableRule<(), View, Shape> for FrameRule {
    ghost use Rattle.frame_table.specs.Rule.{Holds, first_view};

    ghost holds = { Holds };

    ghost first = { first_view };
}
