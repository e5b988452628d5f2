//! Trials of the program over hosts in memory.
#![tactic(auto)]

#[cfg(test)]
mod causes;
#[cfg(test)]
mod ends;
#[cfg(test)]
mod host;
#[cfg(test)]
mod largest;
#[cfg(test)]
mod lines;
#[cfg(test)]
mod refusals;
