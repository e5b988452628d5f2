//! Sixteen passes against a keeper that spends the lives of one frame: what `bench/crowd` runs for long.
//!
//! `crowded_frame TRIES LOOKUPS`. Each pass makes so many lookups of one place in a thread of its own, of at most so
//! many exchanges, and reads all words of each hold, again and again. Meanwhile the keeper makes as many rounds for all
//! passes together: it gives up the frame, reaps it once, and where nobody held it gives it its next life and publishes
//! it again. What it prints is how many lookups were held, in how many holds a word was not of the life held, and how
//! many lives the frame had.
#![tactic(auto)]

mod keeper;
mod moments;
mod reader;
mod table;

use std::{env, io};
use table::run;

/// The number that a word says, or else `other`.
fn number(word: Option<&String>, other: u64) -> u64 {
    match word {
        Some(word) => word.parse().unwrap_or(other),
        None => other,
    }
}

fn main(rt: HostRuntime) -> io::Result<()> {
    let words = env::args(&rt)?.collect::<Vec<String>>(rt.alloc())?;
    let tries = if number(words.get(1), 1) == 1 { 1 } else { 64 };
    let lookups = number(words.get(2), 1000);
    match run(&rt, rt.alloc(), tries, lookups) {
        Ok(seen) => {
            println!(rt;
                "{} held, {} of them wrong, {} lives",
                seen.held, seen.wrong, seen.lives
            )
        }
        Err(fault) => println!(rt; "refused {}", fault.number()),
    }
}
