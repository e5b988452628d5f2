//! The commands of the book. Each is one step of the definitions (`specs/Apply.antt`), and one entry of the journal.

use crate::page::{GuestPage, PageBytes};

/// What can be asked of the book. Each names its refusals in the order in which they are tested; `Memory` may come in
/// place of any answer. A refusal changes no row, knob or dup.
#[derive(Clone, Copy, Debug, PartialEq, Eq)]
pub enum Command {
    /// A new page, mergeable, with a frame of its own on a node (admin-guide/mm/ksm: a page of an area marked
    /// mergeable). Answers `Done`; `BadNode`, `AlreadyRegistered`, `NoFrame`.
    Register {
        page: GuestPage,
        node: u32,
        bytes: PageBytes,
    },
    /// The page goes, and gives its frame back, or its reference on its dup's frame (own). Answers `Done`;
    /// `UnknownPage`.
    Drop {
        page: GuestPage,
    },
    /// The page gets new bytes: in place where it has a frame of its own, else in a copy on its home
    /// (admin-guide/mm/ksm). Answers `Done`; `UnknownPage`, and `NoFrame` for a page that is merged or mapped from the
    /// zero page.
    Store {
        page: GuestPage,
        bytes: PageBytes,
    },
    /// So many visits of the scan, which goes on where it stopped (mm/ksm). Answers `Scanned`; `NotRunning`.
    Scan {
        visits: u64,
    },
    /// Every dup without items is dropped (mm/ksm: stale dups are pruned from time to time). Answers `Pruned`, and has
    /// no refusal.
    Prune,
    /// All pages of the guest are unmerged, and the scan visits them no more (admin-guide/mm/ksm). Answers `Unmerged`;
    /// `UnknownPage` where the guest has no page.
    Unmerge {
        guest: u16,
    },
    /// The scan visits all pages of the guest again (admin-guide/mm/ksm). Answers `Done`; `UnknownPage` where it has
    /// none.
    Mergeable {
        guest: u16,
    },
    /// The page gets a frame of its own on another node; at its home nothing changes (own). Answers `Done`; `BadNode`,
    /// `UnknownPage`, and `NoFrame` for another node.
    MovePage {
        page: GuestPage,
        node: u32,
    },
    /// The dup with items at a place gets another frame of a node, which may be the one where it lies (own). Answers
    /// `Done`; `BadNode`, `UnknownPlace`, `CrossesNodes`, `NoFrame`, `InUse`.
    MoveDup {
        place: u32,
        node: u32,
    },
    /// `run`, 0 to 2 (admin-guide/mm/ksm). Answers `Done`, for 2 `Unmerged`; `BadValue`.
    SetRun(u32),
    /// `pages_to_scan`, 1 to 1,000,000. Answers `Done`; `BadValue`.
    SetPagesToScan(u32),
    /// `merge_across_nodes`, 0 or 1 (admin-guide/mm/ksm); another value drops the stale dups and the waiting pages wait
    /// no more. Answers `Done`; `BadValue`, `SharedPages`.
    SetAcross(u32),
    /// `max_page_sharing`, 2 to `MOST_REFERENCES` (admin-guide/mm/ksm); another value drops the stale dups. Answers
    /// `Done`; `BadValue`, `SharedPages`.
    SetLimit(u32),
    /// `use_zero_pages`, 0 or 1 (admin-guide/mm/ksm), at any time; it changes no row. Answers `Done`; `BadValue`.
    SetZeroPages(u32),
}
