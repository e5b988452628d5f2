//! The tests of scripts through their public calls.
#![tactic(auto)]

#[cfg(test)]
mod script;
