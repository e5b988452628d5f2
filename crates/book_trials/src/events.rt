//! The frame core by worked events: one frame in two lives.

use frame_core::KeeperStep::{Add, Open, Publish, Put, Raise, Reap, Sub};
use frame_core::Kind::{Dying, Filling, Free, Private, Stable};
use frame_core::ReaderStep::{Exchange, LoadFrame, LoadPlace};
use frame_core::{Core, Event, Kind, Phase, Step, run};
use ksm_base::{COUNT_SPAN, Fault, PLACE_SPAN, Shape};
use std::alloc::Global;
use std::test::*;

/// One frame, one place and one seat: the least table on which a frame is given twice.
const SHAPE: Shape = Shape {
    nodes: 1,
    frames_per_node: 1,
    passes: 1,
    last_generation: 5,
    tries: 1,
};

/// An event, what it answers, and of what kind the frame and in which phase the seat is then.
type Row = (Event, u64, Kind, &'static str);

/// The frame is filled with 7 and 8, opened, given a second reference and published at place 0. A seat loads the place
/// and the frame word. Then the frame dies and is given again, and comes to the very count that the seat loaded: its
/// exchange fails all the same, by the life in the word, and its next lookup finds another life.
const ROWS: [Row; 21] = [
    (Event::Keeper(Raise(0)), 0, Filling, "idle"),
    (
        Event::Keeper(Put {
            frame: 0,
            word: 0,
            value: 7,
        }),
        0,
        Filling,
        "idle",
    ),
    (
        Event::Keeper(Put {
            frame: 0,
            word: 1,
            value: 8,
        }),
        0,
        Filling,
        "idle",
    ),
    (Event::Keeper(Open(0)), COUNT_SPAN, Private, "idle"),
    (Event::Keeper(Add(0)), COUNT_SPAN + 1, Private, "idle"),
    (
        Event::Keeper(Publish { place: 0, frame: 0 }),
        0,
        Stable,
        "idle",
    ),
    (Event::Reader(0, LoadPlace(0)), PLACE_SPAN, Stable, "placed"),
    (
        Event::Reader(0, LoadFrame),
        COUNT_SPAN + 2,
        Stable,
        "counted",
    ),
    (Event::Keeper(Sub(0)), COUNT_SPAN + 2, Stable, "counted"),
    (Event::Keeper(Sub(0)), COUNT_SPAN + 1, Dying, "counted"),
    (Event::Keeper(Reap(0)), COUNT_SPAN, Free, "counted"),
    (Event::Keeper(Raise(0)), COUNT_SPAN, Filling, "counted"),
    (Event::Keeper(Open(0)), 2 * COUNT_SPAN, Private, "counted"),
    (
        Event::Keeper(Add(0)),
        2 * COUNT_SPAN + 1,
        Private,
        "counted",
    ),
    (
        Event::Reader(0, Exchange),
        2 * COUNT_SPAN + 2,
        Private,
        "idle",
    ),
    (
        Event::Reader(0, LoadPlace(0)),
        PLACE_SPAN,
        Private,
        "placed",
    ),
    (
        Event::Reader(0, LoadFrame),
        2 * COUNT_SPAN + 2,
        Private,
        "idle",
    ),
    (Event::Keeper(Sub(0)), 2 * COUNT_SPAN + 2, Private, "idle"),
    (Event::Keeper(Sub(0)), 2 * COUNT_SPAN + 1, Dying, "idle"),
    (Event::Keeper(Reap(0)), 2 * COUNT_SPAN, Free, "idle"),
    (Event::Keeper(Raise(0)), 2 * COUNT_SPAN, Filling, "idle"),
];

/// What the seat is in, by name.
fn phase_name(core: &Core) -> &'static str {
    match core.phase(0) {
        Some(Phase::Idle) => "idle",
        Some(Phase::Placed(_, _)) => "placed",
        Some(Phase::Counted(_, _, _)) => "counted",
        Some(Phase::Held(_, _)) => "held",
        Some(Phase::Spent) => "spent",
        None => "none",
    }
}

/// Whether the frame is of this kind, and the seat in this phase.
fn shows(core: &Core, kind: Kind, phase: &str) -> bool {
    core.kind(0) == Some(kind) && phase_name(core) == phase
}

/// How many rows go as they tell, from the first on.
fn followed(core: &mut Core) -> usize {
    for (i, row) in ROWS.iter().enumerate() {
        let answer = core.step(row.0);
        if answer != Step::Done(row.1) || !shows(core, row.2, row.3) {
            return i;
        }
    }
    ROWS.len()
}

/// What a run of all events leaves.
fn left(alloc: Global) -> Result<Core, Fault> {
    let mut events = [Event::Keeper(Raise(0)); 21];
    for (event, row) in events.iter_mut().zip(ROWS.iter()) {
        *event = row.0;
    }
    run(alloc, SHAPE, &events)
}

#[test]
fn two_lives_in_one_word(rt: HostRuntime) -> Result<(), Fail> {
    let mut core = Core::open(rt.alloc(), SHAPE)?;
    assert!(rt; followed(&mut core) == 21);
    let core = left(rt.alloc())?;
    assert!(rt; shows(&core, Filling, "idle") && core.base(0) == Some(0));
    Ok(())
}
