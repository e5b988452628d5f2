//! A row: what the book knows of a page. How a page is mapped is one field of four cases, so no two flags can
//! disagree; which pages a dup has is read off the rows, so no list of items can disagree either.

use crate::page::{GuestPage, PageBytes};

/// Whether a page is mapped from a frame of its own, from one that it shares (mm/ksm), or from the zero page
/// (admin-guide/mm/ksm, `use_zero_pages`).
#[derive(Clone, Copy, Debug, PartialEq, Eq)]
pub enum PageState {
    /// The page has a frame of its own, and stands in no tree.
    Private,
    /// The page has a frame of its own, and waits in the unstable tree for an equal one.
    Waiting,
    /// The page is an item of the dup with this number.
    Merged(u64),
    /// The page is mapped from the kernel's zero page, and has no frame of the table; all its bytes are zero.
    Zero,
}

/// What the book knows of a page (own).
#[derive(Clone, Copy, Debug, PartialEq, Eq)]
pub struct Row {
    /// The page that the row is of; no two rows are of one page.
    pub page: GuestPage,
    /// The NUMA node on which a frame of its own lies, below `Shape::nodes`.
    pub home: u32,
    /// What the page reads.
    pub bytes: PageBytes,
    /// Whether the scan visits the page (admin-guide/mm/ksm: the area is marked mergeable).
    pub mergeable: bool,
    /// Whether a visit found the page, and its bytes have stayed since (mm/ksm: only such pages go into the unstable
    /// tree).
    pub unchanged: bool,
    /// From which frame the page is mapped.
    pub state: PageState,
}

/// A stable node, or a dup of a chain (mm/ksm): one frame for all pages that are merged into it, its items.
/// The items are not listed here: they are the rows in the state `Merged(number)`. A dup without items is stale.
#[derive(Clone, Copy, Debug, PartialEq, Eq)]
pub struct DupRow {
    /// The number of the dup, 0, 1, 2 and so on in the order of making; no number is used again (own).
    pub number: u64,
    /// Where the frame is named to readers, below `Shape::frames`; no two dups have one place (own).
    pub place: u32,
    /// The tree in which the dup stands: 0 with `merge_across_nodes` 1, else the home of its items
    /// (admin-guide/mm/ksm).
    pub tree: u32,
    /// What its items read.
    pub bytes: PageBytes,
}
