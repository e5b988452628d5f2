//! A page as it stands in the order.

use ksm_base::GuestPage;

/// A page with the key of its row, and whether a scan visits it.
#[derive(Clone, Copy, Debug)]
pub struct Named {
    pub page: GuestPage,
    pub key: u32,
    pub mergeable: bool,
}
