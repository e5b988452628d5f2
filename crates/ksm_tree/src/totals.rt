//! The two counters of chains, which change with each group that grows or shrinks.
ghost use Rattle.ksm_tree.specs.Groups.{IsRegrouped, Tells};
ghost use Rattle.std.specs.Prelude.{◌≤◌, ◌+◌};

/// How many groups are chains, of two dups or more, and how many dups are in chains (mm/ksm: stable_node_chains,
/// stable_node_dups).
#[derive(Clone, Copy)]
pub struct Totals {
    pub chains: usize,
    pub dups: usize,
    /// The most dups that a chain has had since there was none. Nothing is promised of it.
    pub longest: usize,
}

impl Totals {
    /// The totals once a group of `before` dups has `after`.
    pub fn regrouped(self, before: usize, after: usize) -> Totals
        requires told { Tells before self }
        requires step { after ≤ before + 1 }
        ensures { IsRegrouped before after self result }
    {
        let mut totals = self;
        if before > 1 {
            totals.chains -= 1;
            totals.dups -= before;
        }
        if after > 1 {
            totals.chains += 1;
            totals.dups += after;
            totals.longest = totals.longest.max(after);
        } else if totals.chains == 0 {
            totals.longest = 0;
        }
        totals
    }
}
