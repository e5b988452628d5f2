//! A dup as it is kept: with its items beside it, so to find them nobody walks along the rows of all pages.
use ksm_base::DupRow;
use ksm_rmap::Items;

/// A dup with its items, the pages merged into it.
#[derive(Drop)]
pub struct Dup {
    pub row: DupRow,
    pub items: Items,
}

/// Where a dup to join is found: its number, and the place at which it stands.
#[derive(Clone, Copy, Debug, PartialEq, Eq)]
pub struct Best {
    pub number: u64,
    pub place: u32,
}

/// Where a new dup goes. It is chosen before anything changes, since a stale dup may have to go first.
#[derive(Clone, Copy, Debug, PartialEq, Eq)]
pub enum Choice {
    /// At this place, which no dup has.
    Empty(u32),
    /// At this place, whose stale dup goes.
    Stale(u32),
}
