//! Why a line is refused.
ghost use Rattle.std.specs.Prelude.{◌≡◌};
ghost use Rattle.ksm_script.specs.Texts.{refusal_number};

use ksm_base::Fault;

/// Why a line is refused (own).
#[derive(Clone, Copy, Debug, PartialEq, Eq)]
pub enum Refusal {
    /// The book refuses it, or memory is refused.
    Book(Fault),
    /// There is no pass of this number.
    NoPass,
    /// The pass holds a frame; at an audit, each pass does.
    Holding,
    /// The pass holds no frame.
    NotHolding,
}

impl Refusal {
    /// Its number in replies, from 1 on.
    pub fn number(&self) -> u32
        ensures { result ≡ refusal_number self.now }
    {
        match self {
            Refusal::Book(fault) => fault.number(),
            Refusal::NoPass => 12,
            Refusal::Holding => 13,
            Refusal::NotHolding => 14,
        }
    }
}
