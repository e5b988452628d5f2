//! Pages: how one is named, and what it reads. `PAGE_WORDS` is the one place that says how large a page is.

use std::hash::{Hash, Hasher};

/// How many 64-bit words a page has: 8, so a page is 64 bytes (own; a page of the machine has 4,096).
pub const PAGE_WORDS: usize = 8;

/// The content of a page, word by word: byte 8i of the page is the lowest byte of word i (own).
pub type PageBytes = [u64; PAGE_WORDS];

/// A page of a guest, in the order of guests, then of pages (own; in admin-guide/mm/ksm a page of an area that a
/// program marked mergeable).
#[derive(Clone, Copy, Debug, PartialEq, Eq, PartialOrd, Ord, Default)]
pub struct GuestPage {
    /// The guest, 0 to 65,535.
    pub guest: u16,
    /// The number of the page in its guest, 0 to 4,294,967,295.
    pub page: u32,
}

impl GuestPage {
    ghost use Rattle.std.specs.Prelude.{◌≡◌, ◌+◌, ◌*◌, ◌^◌};
    ghost use Rattle.ksm_base.specs.Rows.{comes_before as is_before};

    /// The place of the page among all that there may be, in their order.
    #[inline(always)]
    fn rank(self) -> u64
        ensures { result ≡ self.guest * 2 ^ 32 + self.page }
    {
        (u64::from(self.guest) << 32) + u64::from(self.page)
    }

    /// Whether the page comes before another: the order of `Ord`, told by one comparison, as searches ask for it in
    /// each step.
    #[inline(always)]
    pub fn comes_before(self, other: GuestPage) -> bool
        ensures { result ≡ is_before self other }
    {
        self.rank() < other.rank()
    }
}

// A derived hash would hand the hasher guest and page one after the other, which multiplies by each.
impl Hash for GuestPage {
    ghost use Rattle.std.specs.Prelude.{◌+◌, ◌*◌, ◌^◌};
    ghost use Rattle.std.specs.Hash as fed;
    ghost use Rattle.std.specs.Cmp.Rules.{hashing};
    ghost use Rattle.std.proofs.Common.{rules};

    ghost hash_input = { λ p. fed.u64 (p.guest * 2 ^ 32 + p.page) };

    ghost respects_eq = { Prim.search (hashing, rules) };

    fn hash<H: Hasher>(&self, state: &mut H) {
        state.write_u64(self.rank());
    }
}
