//! Why a line of the script language is bad, where and for which cause; and why a line is refused.
#![tactic(auto)]

mod cause;
mod line;
mod refused;
mod said;
mod word;

pub use cause::{Cause, Trouble};
pub use line::cause_of;
pub use refused::Refused;
pub use said::BadLine;
