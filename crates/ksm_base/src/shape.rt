//! The sizes of a table. They are tested once, by `Shape::check`; every other call has that as its condition.

ghost use Rattle.std.specs.Prelude.{◌≡◌, ◌≤◌, ◌↔◌, IsTrue};
ghost use Rattle.ksm_base.specs.Values.{IsShape, frames_of};
ghost use Rattle.ksm_base.specs.declared.limits.TheConstants.{MOST_FRAMES as most_frames};

use crate::limits::{MOST_FRAMES_PER_NODE, MOST_LIVES, MOST_NODES, MOST_PASSES, MOST_TRIES};

/// The sizes of a table of frames (own). Each is in its range where `check` holds.
#[derive(Clone, Copy, Debug, PartialEq, Eq)]
pub struct Shape {
    /// How many NUMA nodes, 1 to `MOST_NODES`.
    pub nodes: u32,
    /// How many frames each node has, 1 to `MOST_FRAMES_PER_NODE`; those of node n are numbered from
    /// `n * frames_per_node` on.
    pub frames_per_node: u32,
    /// How many passes there are, by which readers look frames up, 1 to `MOST_PASSES`.
    pub passes: u32,
    /// How many times a frame is given at most, 1 to `MOST_LIVES`; after its last life it is retired.
    pub last_generation: u64,
    /// How many exchanges a lookup makes at most before it is answered busy, 1 to `MOST_TRIES`.
    pub tries: u32,
}

impl Shape {
    /// Whether each size is in its range.
    pub fn check(&self) -> bool
        ensures { IsTrue result ↔ IsShape self.now }
    {
        (1..=MOST_NODES).contains(&self.nodes)
            && (1..=MOST_FRAMES_PER_NODE).contains(&self.frames_per_node)
            && (1..=MOST_PASSES).contains(&self.passes)
            && (1..=MOST_LIVES).contains(&self.last_generation)
            && (1..=MOST_TRIES).contains(&self.tries)
    }

    /// How many frames there are on all nodes together, and as many places: 1 to `MOST_FRAMES`.
    pub fn frames(&self) -> u32
        requires { IsShape self.now }
        ensures count { result ≡ frames_of self.now }
        ensures low { 1 ≤ result }
        ensures high { result ≤ most_frames }
    {
        self.nodes * self.frames_per_node
    }
}
