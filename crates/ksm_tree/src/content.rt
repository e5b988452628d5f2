//! What groups and waiting pages are found by: a tree and the bytes of a page, in an order of their own. Beside that
//! the slot in which the number of their group is remembered.
ghost use Rattle.std.specs.Prelude.{bytes_eq, ◌<◌, ◌≡◌};
ghost use Rattle.ksm_tree.specs.declared.content.TheConstants.{SLOTS as slots};

use ksm_base::{PAGE_WORDS, PageBytes};

/// A tree and the bytes of a page: what a group has in common, and what a page waits for. The trees come first in the
/// order, then the bytes.
#[derive(Clone, Copy, Debug, PartialEq, Eq, PartialOrd, Ord)]
pub struct Content {
    pub tree: u32,
    pub bytes: PageBytes,
}

impl Content {
    /// The content of a tree and bytes.
    #[inline(always)]
    pub fn of(tree: u32, bytes: &PageBytes) -> Content
        ensures { result ≡ record { tree = tree; bytes = bytes.now } }
    {
        Content {
            tree,
            bytes: *bytes,
        }
    }
}

/// Whether two pages have the same bytes. It looks at all words at once, where `==` of arrays stops at the first that
/// differs, and takes three times as many steps for pages that are alike.
#[tactic(auto, using(std::proofs::lemmas::List::drop_more, std::proofs::lemmas::List::drop_all))]
#[inline(always)]
pub fn same_bytes(one: &PageBytes, other: &PageBytes) -> bool
    ensures { result ≡ bytes_eq one.now other.now }
{
    let mut same = true;
    for i in 0..PAGE_WORDS {
        same &= one[i] == other[i];
    }
    same
}

// How many bits of a product `slot_of` keeps.
const SLOT_BITS: u32 = 12;

/// How many slots there are for the numbers of groups.
pub const SLOTS: usize = 1 << SLOT_BITS;

// 2 to the 64 over the golden ratio. The highest bits of a product by it hang on all bits of what is multiplied.
const SPREAD: u64 = 0x9e37_79b9_7f4a_7c15;

/// The slot of a tree and bytes, below `SLOTS`. It hangs on each word and where that stands, also in a page full of one
/// byte, whose words are equal.
#[inline(always)]
pub fn slot_of(tree: u32, bytes: &PageBytes) -> usize
    ensures { result < slots }
{
    let mut mixed = u64::from(tree);
    for word in bytes {
        mixed = mixed.wrapping_mul(SPREAD).wrapping_add(*word);
    }
    (mixed.wrapping_mul(SPREAD) >> (64 - SLOT_BITS)) as usize
}
