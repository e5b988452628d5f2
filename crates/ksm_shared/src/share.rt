//! A share: what one caller has seen of the journal.

use crate::naming::Naming;
use crate::seen::SeenSeat;
use std::marker::{Model, PhantomData};

/// What a caller commands and reads the book with. Contracts see its number among the shares, and the journal that it
/// has seen; the entries that it owns there are its part.
#[derive(Drop)]
pub struct Share<N: Naming> {
    pub(crate) seat: SeenSeat,
    pub(crate) of: PhantomData<N>,
}

impl<N: Naming> Model for Share<N> {
    ghost use Rattle.std.specs.Prelude.{◌≡◌};
    ghost use Rattle.ksm_shared.specs.declared.seen.Caller.{Caller};
    ghost use Rattle.ksm_shared.specs.Seen.{first, IsShareSeat};

    ghost Value = { Caller };

    ghost view = { λ s. first s.seat.me.0.callers };

    ghost invariant = { λ s. (s.seat.table_id ≡ N.parts.seen) × IsShareSeat s.seat.me };
}
