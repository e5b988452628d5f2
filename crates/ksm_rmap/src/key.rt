//! The key of a page: one number, in the order of pages, so that a search compares numbers.
ghost use Rattle.std.specs.Prelude.{◌≡◌, ◌<◌, ◌^◌};
ghost use Rattle.ksm_rmap.specs.Keys.{key_of, page_of};

use ksm_base::GuestPage;

/// The key of a page, below 2^48: its guest, then its number. Keys are in the order of their pages.
#[inline(always)]
pub fn key_of(page: GuestPage) -> u64
    ensures key { result ≡ key_of page }
    ensures small { result < 2 ^ 48 }
    ensures few { page.page < 2 ^ 32 }
{
    (u64::from(page.guest) << 32) + u64::from(page.page)
}

/// The page of a key, which is below 2^48.
#[inline(always)]
pub fn page_of(key: u64) -> GuestPage
    requires { key < 2 ^ 48 }
    ensures { result ≡ page_of key }
{
    GuestPage {
        guest: (key >> 32) as u16,
        page: (key % (1 << 32)) as u32,
    }
}
