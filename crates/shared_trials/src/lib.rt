//! The tests of shared books and of their audits through their public calls: callers, lookups, rows of counters,
//! audits.
#![tactic(auto)]

#[cfg(test)]
mod audits;
#[cfg(test)]
mod books;
#[cfg(test)]
mod callers;
#[cfg(test)]
mod commands;
#[cfg(test)]
mod gates;
#[cfg(test)]
mod lookups;
#[cfg(test)]
mod rows;
