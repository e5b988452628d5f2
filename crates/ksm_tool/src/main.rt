//! The program `ksmbook`: its words tell the shape of the table, commands come on standard input,
//! and a reply to each goes to standard output.
#![tactic(auto)]

use ksm_host::{Outcome, run_on};

fn main(rt: HostRuntime) -> Outcome {
    run_on(&rt, &rt, &rt.stderr())
}
