//! What all shares together own.
ghost use Rattle.std.specs.Prelude.{◌≡◌, length, IfOk, IfErr};
ghost use Rattle.ksm_base.specs.Journal.{AreAnswers};
ghost use Rattle.ksm_base.specs.State.{opening};
ghost use Rattle.ksm_shared.specs.Handed.{missing_of};
ghost use Rattle.ksm_shared.specs.Locked.{Gathered, LacksOne};
ghost use Rattle.ksm_shared.specs.Seen.{entries};

use crate::ksm::Ksm;
use crate::naming::Naming;
use crate::seen::SeenSeat;
use crate::share::Share;
use std::marker::{Model, PhantomData};
use std::sync::{MutexGuard, Wait};

/// What all shares own together: the journal. They are spent, so nobody commands the book any more, and
/// `Ksm::close_gathered` ends it with this journal. Contracts see the entries with their owners.
#[derive(Drop)]
pub struct Tally<N: Naming> {
    pub(crate) entries: u64,
    pub(crate) seat: SeenSeat,
    pub(crate) of: PhantomData<N>,
}

impl<N: Naming> Model for Tally<N> {
    ghost use Rattle.std.specs.Prelude.{◌≡◌, List, length};
    ghost use Rattle.ksm_shared.specs.declared.seen.Owned.{Owned};
    ghost use Rattle.ksm_shared.specs.Locked.{IsAll};
    ghost use Rattle.ksm_shared.specs.Seen.{first};

    ghost Value = { List Owned };

    ghost view = { λ t. (first t.seat.me.0.callers).seen };

    ghost invariant = { λ t. (t.seat.table_id ≡ N.parts.seen) × IsAll N.parts.callers t.seat.me
        × (t.entries ≡ length (first t.seat.me.0.callers).seen) };
}

impl<N: Naming> Tally<N> {
    /// How many entries there are.
    pub fn entries(&self) -> u64
        ensures { result ≡ length self.now }
    {
        self.entries
    }
}

/// Why nothing was gathered.
#[derive(Drop)]
pub enum GatherFault<N: Naming> {
    /// Not all shares were handed in. They come back, and have seen nothing more.
    Missing(Vec<Share<N>>),
}

/// What all shares own together, where all are handed in; they are spent. Each entry of the journal is then in the part
/// of just one of them.
pub fn gather<N: Naming, R: Wait>(
    rt: &R,
    ksm: &Ksm<N>,
    shares: Vec<Share<N>>,
) -> Result<Tally<N>, GatherFault<N>>
    ensures all { IfOk result (λ tally. AreAnswers (opening N.parts.frames.shape) (entries tally)
        × Gathered N.parts.callers tally shares.items) }
    ensures missing { IfErr result
        (λ fault. (missing_of fault ≡ shares.items) × LacksOne N.parts.callers shares.items) }
{
    let mut merge = ksm.merge.lock(rt);
    merge.lies_lawfully();
    let tally = merge.gather(shares);
    MutexGuard::unlock(merge);
    tally
}
