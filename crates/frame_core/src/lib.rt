//! The frame protocol as a pure machine: what one atomic step of one seat does, without atomics.
//! `keeper` has the steps of the keeper, `reader` those of a reader; `protocol` has `Core` and `run`, which
//! carry what is promised of them.
#![tactic(auto)]

mod event;
mod frame;
mod keeper;
mod ledger;
mod machine;
mod protocol;
mod reader;
mod seat;
mod worked;

pub use event::{Event, KeeperStep, ReaderStep, Step};
pub use frame::{FrameWord, Kind, LINE_WORDS};
pub use ledger::{Ledger, Note};
pub use protocol::{Core, run};
pub use seat::{Aim, Life, Phase};
