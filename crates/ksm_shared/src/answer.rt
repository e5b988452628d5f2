//! What a command is answered.
ghost use Rattle.std.specs.Prelude.{◌≡◌, length};

use crate::naming::Naming;
use crate::rows::CountedRow;
use ksm_base::{Fault, Reply};
use std::marker::{Model, PhantomData};

/// The answer to one command, made under the lock. Contracts see what the book answered, and the journal after which
/// the counters stand that readers were shown by it.
#[derive(Drop)]
pub struct Answer<N: Naming> {
    pub(crate) result: Result<Reply, Fault>,
    pub(crate) row: CountedRow,
    pub(crate) of: PhantomData<N>,
}

impl<N: Naming> Model for Answer<N> {
    ghost use Rattle.ksm_shared.specs.Locked.{Answered};
    ghost use Rattle.ksm_shared.specs.Published.{IsRowOf};

    ghost Value = { Answered };

    ghost view = { λ a. record { result = a.result; shown = a.row.reached.journal } };

    ghost invariant = { λ a. IsRowOf N.parts a.row };
}

impl<N: Naming> Answer<N> {
    /// What the book answered.
    pub fn result(&self) -> Result<Reply, Fault>
        ensures { result ≡ self.now.result }
    {
        self.result
    }

    /// The number of the row that the command published: how many entries the journal then had.
    pub fn row(&self) -> u64
        ensures { result ≡ length self.now.shown }
    {
        self.row.beginning().len()
    }
}
