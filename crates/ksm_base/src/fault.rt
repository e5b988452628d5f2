//! Why a command is refused. Each fault has the number that the script language writes.

ghost use Rattle.std.specs.Prelude.{◌≡◌};
ghost use Rattle.ksm_base.specs.Values.{fault_number};

use std::alloc::{AllocError, AllocFailed};

/// Why a command was refused, or stopped part way (own). A refusal changes no row, knob, dup or counter; a dying frame
/// may have been reaped for it. A command that stopped says so in its reply.
#[derive(Clone, Copy, Debug, PartialEq, Eq)]
pub enum Fault {
    /// 1: a growth was refused, or there is no number of 32 bits for one thing more. The command gave no frame, and the
    /// journal has no entry of it. A scan stops with it.
    Memory,
    /// 2: no row has this page, or this guest.
    UnknownPage,
    /// 3: the page has a row.
    AlreadyRegistered,
    /// 4: no frame of this node is free, and each dying one was found held. An unmerging stops with it.
    NoFrame(u32),
    /// 5: a scan while `run` is not 1.
    NotRunning,
    /// 6: `merge_across_nodes` or `max_page_sharing` was to change while pages are shared.
    SharedPages,
    /// 7: the value is out of its knob's range.
    BadValue,
    /// 8: somebody holds the frame of the dup that was to move. No life of another frame was spent.
    InUse,
    /// 9: with `merge_across_nodes` 0 the dup was to move to another node.
    CrossesNodes,
    /// 10: no dup with items stands at the place.
    UnknownPlace,
    /// 11: there is no such node.
    BadNode,
}

impl Fault {
    /// The number by which a reply tells the fault, 1 to 11.
    pub fn number(&self) -> u32
        ensures { result ≡ fault_number self.now }
    {
        match self {
            Fault::Memory => 1,
            Fault::UnknownPage => 2,
            Fault::AlreadyRegistered => 3,
            Fault::NoFrame(_) => 4,
            Fault::NotRunning => 5,
            Fault::SharedPages => 6,
            Fault::BadValue => 7,
            Fault::InUse => 8,
            Fault::CrossesNodes => 9,
            Fault::UnknownPlace => 10,
            Fault::BadNode => 11,
        }
    }
}

impl From<AllocError> for Fault {
    ghost use Rattle.std.specs.Prelude.{◌≡◌};
    ghost use Rattle.ksm_base.specs.declared.fault.Fault.TheVariants.{Memory};

    ghost from_gives = { λ _ fault. fault ≡ Memory };

    fn from(_error: AllocError) -> Fault {
        Fault::Memory
    }
}

impl<T: Drop> From<AllocFailed<T>> for Fault {
    ghost use Rattle.std.specs.Prelude.{◌≡◌};
    ghost use Rattle.ksm_base.specs.declared.fault.Fault.TheVariants.{Memory};

    ghost from_gives = { λ _ fault. fault ≡ Memory };

    fn from(_error: AllocFailed<T>) -> Fault {
        Fault::Memory
    }
}
