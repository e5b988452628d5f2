//! What the tests command.

use ksm_base::{
    Command, Counters, Fault, GuestPage, MOST_LIVES, PAGE_WORDS, PageBytes, Reply, Shape,
};
use ksm_shared::{Answer, Ksm, Naming, Share};
use std::sync::Wait;

pub const DONE: Result<Reply, Fault> = Ok(Reply::Done);

/// One node with eight frames, and two passes.
pub const SHAPE: Shape = Shape {
    nodes: 1,
    frames_per_node: 8,
    passes: 2,
    last_generation: MOST_LIVES,
    tries: 8,
};

pub fn page(guest: u16, page: u32) -> GuestPage {
    GuestPage { guest, page }
}

/// A page with this byte everywhere.
pub fn filled(byte: u8) -> PageBytes {
    [u64::from_le_bytes([byte; 8]); PAGE_WORDS]
}

pub fn store(guest: u16, number: u32, byte: u8) -> Command {
    Command::Store {
        page: page(guest, number),
        bytes: filled(byte),
    }
}

pub fn register(guest: u16, number: u32, byte: u8) -> Command {
    Command::Register {
        page: page(guest, number),
        node: 0,
        bytes: filled(byte),
    }
}

/// What a command is answered. It promises less than the book does, so a test that makes many carries little along.
pub fn said<N: Naming>(
    rt: &impl Wait,
    ksm: &Ksm<N>,
    share: &mut Share<N>,
    command: Command,
) -> Answer<N> {
    ksm.command(rt, share, &command)
}

/// Makes the commands, and says whether each was done, or counted something.
pub fn all_done<N: Naming>(
    rt: &impl Wait,
    ksm: &Ksm<N>,
    share: &mut Share<N>,
    commands: &[Command],
) -> bool {
    let mut done = true;
    for command in commands {
        done &= said(rt, ksm, share, *command).result().is_ok();
    }
    done
}

/// Two pages of one content, merged by the second pass.
pub fn merge_two<N: Naming>(rt: &impl Wait, ksm: &Ksm<N>, share: &mut Share<N>) -> bool {
    let scan = Command::Scan { visits: 4 };
    let commands = [
        register(0, 0, 10),
        register(0, 1, 10),
        Command::SetRun(1),
        scan,
    ];
    all_done(rt, ksm, share, &commands)
}

/// What is counted once two pages are merged.
pub const TWO_MERGED: Counters = Counters {
    shared: 1,
    sharing: 1,
    full_scans: 2,
    ..Counters::NONE
};
