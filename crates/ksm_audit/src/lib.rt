//! The audit: every place of a shared book is looked up once, by one worker for each pass (own).
//!
//! A worker claims the next place by one atomic step on a word of the audit's own, asks the gate for a permit, looks
//! the place up, reads the words of the page in one hold, leaves, and hands the permit back. No lock is taken:
//! meanwhile frames may be shared, released and given again.
#![tactic(auto)]

mod auditing;
mod claims;
mod gate;
mod gather;
mod job;
mod report;
mod room;
mod visit;
mod work;

pub use auditing::{AuditFault, audit};
pub use gate::{Gate, OpenGate, PlacePermit};
pub use report::{Report, Row};
pub use visit::read_page;
