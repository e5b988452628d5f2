//! What commands change: pages that come and go, get frames, bytes and trees, and what else their rows say.

ghost use Rattle.std.specs.Prelude.{◌≡◌, ◌⊎◌, [], true, false, None, Some, All, is_some, map, IfErr, IfOk, OnOk, OnErr};
ghost use Rattle.ksm_pages.specs.Terms.{as_let_go, as_settled, as_unshared, fresh_row, Memory, partner, row_at, shared_state, stored, waiting_state, with_row, without_page};
ghost use Rattle.ksm_pages.specs.Paged.{IsAlone, IsKnown, at_home_on, changed, lies_on, on_its_own, relaid, seen};

use crate::left::leave;
use crate::pages::Pages;
use crate::row::{InTree, Spot};
use ksm_base::{Fault, GuestPage, Knobs, PageBytes};
use ksm_tree::NO_NUMBER;

#[tactic(auto, using(crate::proofs::Changing::frame_by, crate::proofs::Changing::nothing_held, crate::proofs::Leaving::known_there))]
impl Pages {
    /// Adds a page, at home on a node; which frame is its own is told next, by `lay`. Where it has a row, or memory is
    /// refused, nothing changes.
    pub fn insert(&mut self, page: GuestPage, node: u32, bytes: &PageBytes) -> Result<Spot, Fault>
        ensures spot { IfOk result (λ spot. spot.page ≡ page) }
        ensures added { OnOk result ((row_at page self.old.rows ≡ None) × (seen self.new ≡ record (seen self.old) {
          rows = with_row (fresh_row page node bytes.now) self.old.rows;
          frame = (seen self.new).frame;
        })) }
        ensures others { OnOk result ((seen self.new).frame
            ≡ lies_on page ((seen self.new).frame page) (seen self.old).frame) }
        ensures nowhere { OnOk result ((seen self.old).frame page ≡ None) }
        ensures refused { OnErr result (self.new ≡ self.old) }
        ensures fault { IfErr result (λ fault. (fault ≡ Memory)
            ⊎ ((fault ≡ Fault.AlreadyRegistered) × (is_some (row_at page self.old.rows) ≡ true))) }
    {
        self.rows.insert(page, node, *bytes, 0)
    }

    /// The page gets a frame of its own in the stead of what it had, and these bytes. Gives the frame where it lay, if
    /// it had one. What its row was is copied only where the unstable tree has to forget it.
    #[inline(always)]
    pub fn store_on(&mut self, spot: Spot, frame: u32, bytes: &PageBytes) -> Option<u32>
        requires { IsKnown spot.page self.old.rows }
        ensures left { result ≡ (seen self.old).frame spot.page }
        ensures stored { seen self.new ≡ relaid spot.page (stored bytes.now) (Some frame) (seen self.old) }
    {
        match self.rows.at(spot) {
            Some(entry) if !entry.in_tree.is_in() => self.store_apart(spot, frame, bytes),
            _ => self.store_led(spot, frame, bytes),
        }
    }

    // The same where the unstable tree may lead to the page.
    #[inline(never)]
    fn store_led(&mut self, spot: Spot, frame: u32, bytes: &PageBytes) -> Option<u32>
        requires { IsKnown spot.page self.old.rows }
        ensures left { result ≡ (seen self.old).frame spot.page }
        ensures stored { seen self.new ≡ relaid spot.page (stored bytes.now) (Some frame) (seen self.old) }
    {
        let was = self.rows.find(spot).copied();
        let left = self.store_apart(spot, frame, bytes);
        if let Some(was) = was {
            self.rows.forget_row(spot, was);
        }
        left
    }

    // The same, but that the unstable tree is not told. The number of the row's group is not known any more.
    #[inline(always)]
    fn store_apart(&mut self, spot: Spot, frame: u32, bytes: &PageBytes) -> Option<u32>
        requires { IsKnown spot.page self.old.rows }
        ensures left { result ≡ (seen self.old).frame spot.page }
        ensures stored { seen self.new ≡ relaid spot.page (stored bytes.now) (Some frame) (seen self.old) }
    {
        let was = self.rows.change(spot, move |entry| {
            entry.take_bytes_apart(bytes);
            entry.take_frame(frame);
            entry.in_tree = InTree::Not;
            entry.group = NO_NUMBER;
        });
        leave(&mut self.dups, &self.frames, was)
    }

    /// The page gets a frame of its own in the stead of what it had, and is at home on another node. Gives the frame
    /// where it lay, if it had one.
    pub fn move_on(&mut self, spot: Spot, frame: u32, node: u32) -> Option<u32>
        requires { IsKnown spot.page self.old.rows }
        ensures left { result ≡ (seen self.old).frame spot.page }
        ensures moved { seen self.new ≡ relaid spot.page (at_home_on node) (Some frame) (seen self.old) }
    {
        let was = self.rows.change_out_of_tree(spot, |entry| {
            entry.take_frame(frame);
            entry.in_tree = InTree::Not;
            entry.home = node;
        });
        leave(&mut self.dups, &self.frames, was)
    }

    /// A page with a frame of its own lies on this one from now on.
    #[tactic(auto, using(crate::proofs::Changing::row_found))]
    #[inline(always)]
    pub fn lay(&mut self, spot: Spot, frame: u32)
        requires { IsAlone spot.page self.old.rows }
        ensures { seen self.new ≡ record (seen self.old) {
          frame = lies_on spot.page (Some frame) (seen self.old).frame;
        } }
    {
        self.rows.lay(spot, frame);
    }

    /// The page goes, and leaves its dup if it was merged. Gives the frame where it lay, if it had one.
    pub fn remove(&mut self, spot: Spot) -> Option<u32>
        requires { IsKnown spot.page self.old.rows }
        ensures left { result ≡ (seen self.old).frame spot.page }
        ensures gone { seen self.new ≡ record (seen self.old) {
          rows = without_page spot.page self.old.rows;
          frame = lies_on spot.page None (seen self.old).frame;
        } }
    {
        let was = self.rows.remove(spot);
        leave(&mut self.dups, &self.frames, was)
    }

    /// A page with a frame of its own gets these bytes.
    #[inline(always)]
    pub fn store(&mut self, spot: Spot, bytes: &PageBytes)
        requires { IsAlone spot.page self.old.rows }
        ensures { seen self.new ≡ changed spot.page (stored bytes.now) (seen self.old) }
    {
        self.rows.store(spot, bytes);
    }

    /// The scan visits the page from now on.
    pub fn make_mergeable(&mut self, spot: Spot)
        requires { IsKnown spot.page self.old.rows }
        ensures { seen self.new ≡ changed spot.page (λ r. record r { mergeable = true }) (seen self.old) }
    {
        self.rows.change(spot, |entry| entry.mergeable = true);
    }

    /// A page with a frame of its own is Private and not unchanged, and the scan visits it no more.
    pub fn let_go(&mut self, spot: Spot)
        requires { IsAlone spot.page self.old.rows }
        ensures { seen self.new ≡ changed spot.page as_let_go (seen self.old) }
    {
        self.rows.let_go(spot);
    }

    /// The page gets a frame of its own in the stead of what it had, is not unchanged, and the scan visits it no more.
    /// Gives the frame where it lay, if it had one.
    pub fn let_go_on(&mut self, spot: Spot, frame: u32) -> Option<u32>
        requires { IsKnown spot.page self.old.rows }
        ensures left { result ≡ (seen self.old).frame spot.page }
        ensures gone { seen self.new ≡ relaid spot.page as_let_go (Some frame) (seen self.old) }
    {
        let was = self.rows.change(spot, |entry| {
            entry.take_frame(frame);
            entry.mergeable = false;
            entry.unchanged = false;
        });
        leave(&mut self.dups, &self.frames, was)
    }

    /// The page gets a frame of its own in the stead of what it had, and is not unchanged. Gives the frame where it
    /// lay, if it had one.
    pub fn unshare_on(&mut self, spot: Spot, frame: u32) -> Option<u32>
        requires { IsKnown spot.page self.old.rows }
        ensures left { result ≡ (seen self.old).frame spot.page }
        ensures unshared { seen self.new ≡ relaid spot.page as_unshared (Some frame) (seen self.old) }
    {
        let was = self.rows.change(spot, |entry| {
            entry.take_frame(frame);
            entry.unchanged = false;
        });
        leave(&mut self.dups, &self.frames, was)
    }

    /// A page with a frame of its own waits no more, if it did.
    pub fn stop_waiting(&mut self, spot: Spot)
        requires { IsAlone spot.page self.old.rows }
        ensures { seen self.new ≡ changed spot.page on_its_own (seen self.old) }
    {
        self.rows.change(spot, |entry| entry.forget_pass());
    }

    /// No page waits any more: those that did are Private.
    pub fn settle_all(&mut self)
        ensures { seen self.new ≡ record (seen self.old) { rows = map as_settled self.old.rows } }
    {
        self.rows.settle_all();
        self.rows.make_room();
    }

    /// Every page becomes Private and not unchanged, where none is merged or Zero.
    pub fn unshare_all(&mut self)
        requires { All (λ r. shared_state r.state ≡ false) self.old.rows }
        ensures { seen self.new ≡ record (seen self.old) { rows = map as_unshared self.old.rows } }
    {
        self.rows.unshare_all();
    }

    /// Sets the knobs where no dup is there, and leaves each row as it is, one that waits too, if under them no two rows
    /// to which the unstable tree leads have the same tree and bytes. Says whether it did; else nothing changes.
    pub fn regroup(&mut self, knobs: Knobs) -> bool
        requires { self.old.dups ≡ [] }
        ensures kept { result ≡ false → self.new ≡ self.old }
        ensures set { result ≡ true → seen self.new ≡ record (seen self.old) { knobs = knobs } }
        ensures alone { result ≡ true
            → All (λ r. waiting_state r.state ≡ true → partner knobs self.new.rows r ≡ None) self.new.rows }
    {
        if !self.rows.regroup(knobs.merge_across_nodes != 1) {
            return false;
        }
        // Called for its contract alone.
        self.rows.are_lawful();
        self.dups.set_limit(knobs.max_page_sharing);
        self.knobs = knobs;
        true
    }
}
