//! What a visit finds, and what becomes of the page that is visited: it joins a dup, makes one with another page,
//! becomes Zero, or waits.

ghost use Rattle.std.specs.Prelude.{◌≡◌, true, false, None, Some, Err, All, ◌==◌, ◌&&◌, IfNone, IfOk, IsTrue, OnOk, OnErr, option_map};
ghost use Rattle.ksm_pages.specs.Terms.{best_of, found_at, has_only_zeroes, Memory, Merged, merged_into, Zero};
ghost use Rattle.ksm_pages.specs.declared.pages.Find.TheVariants as finds;
ghost use Rattle.ksm_pages.specs.Paged.{Finds, HasRoom, HasRow, IsAlone, MayPair, NoneHas, changed, is_restless, lies_on, relaid, paired as are_paired, seen};
ghost use Rattle.ksm_pages.specs.Held.{is_alone};

use crate::pages::{Find, Glance, Pages};
use crate::row::{Entry, InTree, Spot};
use crate::unstable::tree_in;
use ksm_base::{Fault, Knobs, PageBytes};
use ksm_tree::{Best, Dups, NO_NUMBER};

/// Whether each word is zero.
#[inline(always)]
fn all_zero(bytes: &PageBytes) -> bool
    ensures { result ≡ has_only_zeroes bytes.now }
{
    bytes.iter().all(|word| *word == 0)
}

/// Whether a page with these bytes is to become Zero.
#[inline(always)]
fn is_for_zero(knobs: &Knobs, bytes: &PageBytes) -> bool
    ensures { result ≡ (knobs.now.use_zero_pages == 1 && has_only_zeroes bytes.now) }
{
    knobs.use_zero_pages == 1 && all_zero(bytes)
}

/// The number of the group of dups that have the content of a row in a tree, if they have one, and the dup that the row
/// may join. Where the row is said to be alone there is none, and nothing is looked up.
#[tactic(auto, using(crate::proofs::Visiting::none_best))]
#[inline(always)]
fn group_with_best(
    dups: &mut Dups,
    entry: &Entry,
    tree: u32,
    limit: u32,
) -> (Option<u32>, Option<Best>)
    requires { is_alone entry.now.in_tree ≡ true → NoneHas tree entry.now.bytes dups.old.dups }
    ensures none { IfNone result.0 (NoneHas tree entry.now.bytes dups.old.dups) }
    ensures best { result.1 ≡ option_map found_at (best_of tree entry.now.bytes limit dups.old.dups) }
    ensures kept { dups.new ≡ dups.old }
{
    if let InTree::Alone = entry.in_tree {
        return (None, None);
    }
    match dups.group_of(entry.group, tree, &entry.bytes) {
        Some(group) => (Some(group), dups.best_of(group, limit)),
        None => (None, None),
    }
}

/// Whether it is known of a row to which the unstable tree leads that there is no dup that it may join.
#[tactic(auto, using(crate::proofs::Visiting::none_best))]
#[inline(always)]
fn joins_none(dups: &Dups, entry: &Entry, tree: u32, limit: u32) -> bool
    requires { is_alone entry.now.in_tree ≡ true → NoneHas tree entry.now.bytes dups.now.dups }
    ensures { IsTrue result → best_of tree entry.now.bytes limit dups.now.dups ≡ None }
{
    match entry.in_tree {
        InTree::Not => false,
        InTree::Beside => dups.is_closed_group(entry.group, tree, &entry.bytes, limit),
        InTree::Alone => true,
    }
}

impl Pages {
    /// A first look at a page that is visited. It tells whether a visit may change the row, where that lies where it
    /// was guessed; of a page that was not unchanged that it is from now on, where no dup has an item; and of an
    /// unchanged page whether it waits, where the unstable tree leads to it and there is no dup that it may join. Then
    /// it waits from now on. Where a look tells nothing, nothing changes, and `visit` tells.
    #[tactic(auto, using(crate::proofs::Leaving::row_seen, crate::proofs::Spots::restless_as))]
    #[inline(always)]
    pub fn glance(&mut self, spot: Spot) -> Glance
        ensures gone { result ≡ Glance.Gone → Finds (seen self.old) (seen self.new) spot.page finds.Gone }
        ensures waits { result ≡ Glance.Waits → Finds (seen self.old) (seen self.new) spot.page finds.Waits }
        ensures changed { result ≡ Glance.Changed → Finds (seen self.old) (seen self.new) spot.page finds.Changed }
        ensures nothing { result ≡ Glance.Nothing → self.new ≡ self.old }
    {
        let Some(entry) = self.rows.at(spot) else {
            return Glance::Nothing;
        };
        if !entry.is_restless() {
            return Glance::Gone;
        }
        if !entry.unchanged {
            if self.dups.count_shared() != 0 {
                return Glance::Nothing;
            }
            let group = entry.group;
            self.rows.note_unchanged(spot, group);
            return Glance::Changed;
        }
        if !entry.in_tree.is_in() || is_for_zero(&self.knobs, &entry.bytes) {
            return Glance::Nothing;
        }
        let tree = tree_in(&self.knobs, entry.home);
        if !joins_none(&self.dups, entry, tree, self.knobs.max_page_sharing) {
            return Glance::Nothing;
        }
        // Called for its contract alone: the tree leads to no other row of the same content.
        self.rows.are_lawful();
        self.rows.wait(spot);
        Glance::Waits
    }

    /// What a visit of a page finds, and what it changes by that alone. Refused for memory alone, it changes nothing.
    #[tactic(auto, using(crate::proofs::Leaving::row_seen, crate::proofs::Spots::restless_as))]
    pub fn visit(&mut self, spot: Spot) -> Result<Find, Fault>
        ensures found { IfOk result (Finds (seen self.old) (seen self.new) spot.page) }
        ensures refused { OnErr result (self.new ≡ self.old) }
        ensures restless { OnErr result (HasRow spot.page self.old.rows (λ r. is_restless r ≡ true)) }
        ensures fault { OnErr result (result ≡ Err Memory) }
    {
        let Some(entry) = self.rows.find(spot) else {
            return Ok(Find::Gone);
        };
        if !entry.is_restless() {
            return Ok(Find::Gone);
        }
        let tree = tree_in(&self.knobs, entry.home);
        let limit = self.knobs.max_page_sharing;
        let (group, best) = group_with_best(&mut self.dups, entry, tree, limit);
        if let Some(best) = best {
            return Ok(Find::Dup(best));
        }
        if !entry.unchanged {
            self.rows.note_unchanged(spot, group.unwrap_or(NO_NUMBER));
            return Ok(Find::Changed);
        }
        if is_for_zero(&self.knobs, &entry.bytes) {
            return Ok(Find::Zero);
        }
        // Called for its contract alone: the tree leads to each row that waits.
        self.rows.are_lawful();
        if let Some(other) = self.rows.in_tree(tree, &entry.bytes) {
            if other.page != spot.page {
                if self.waits(other) {
                    return Ok(Find::Partner(other.page));
                }
                self.rows.leave_tree(other);
            }
        }
        self.rows.enter(spot, group)?;
        Ok(Find::Waits)
    }

    /// A page with a frame of its own joins a dup that has an item, and lies where its items do. Gives the frame that
    /// it leaves. Refused for memory alone, it changes nothing.
    pub fn join(&mut self, spot: Spot, best: Best) -> Result<u32, Fault>
        requires alone { IsAlone spot.page self.old.rows }
        requires room { HasRoom self.old.rows self.old.dups best.number }
        ensures left { IfOk result (λ lone. (seen self.old).frame spot.page ≡ Some lone) }
        ensures joined { OnOk result (seen self.new
            ≡ record (changed spot.page (λ r. record r { state = Merged best.number }) (seen self.old))
            { frame = (seen self.new).frame }) }
        ensures frame { let old = (seen self.old).frame in
            OnOk result (All (λ r. merged_into best.number r.state ≡ true
            → (seen self.new).frame ≡ lies_on spot.page (old r.page) old) self.old.rows) }
        ensures refused { OnErr result (self.new ≡ self.old) }
        ensures fault { OnErr result (result ≡ Err Memory) }
    {
        let group = self.dups.group_at(best.place);
        let place = self.dups.join_at(best.place, best.number, spot.page)?;
        // Called for its contract alone: a row that is not shared has a frame.
        self.rows.are_lawful();
        let Some(lone) = self.rows.merge(spot, best.number, place, group) else {
            unreachable!()
        };
        Ok(lone)
    }

    /// Two pages with frames of their own become the items of a new dup at a place, on the frame of the first. A stale
    /// dup at the place goes. Gives the frames where they lay. Refused for memory alone, it changes nothing.
    pub fn pair(&mut self, place: u32, first: Spot, second: Spot) -> Result<(u32, u32), Fault>
        requires first { HasRow first.page self.old.rows (λ r.
            HasRow second.page self.old.rows (MayPair (seen self.old) place r)) }
        ensures first { IfOk result (λ frames. (seen self.old).frame first.page ≡ Some frames.0) }
        ensures second { IfOk result (λ frames. (seen self.old).frame second.page ≡ Some frames.1) }
        ensures paired { OnOk result (HasRow first.page self.old.rows (λ r.
            HasRow second.page self.old.rows (λ s. seen self.new ≡ are_paired place r s (seen self.old)))) }
        ensures refused { OnErr result (self.new ≡ self.old) }
        ensures fault { OnErr result (result ≡ Err Memory) }
    {
        // Called for its contract alone: the tree leads to no third row of the same content.
        self.rows.are_lawful();
        let (Some(one), Some(other)) = (self.rows.find(first), self.rows.find(second)) else {
            unreachable!()
        };
        let tree = tree_in(&self.knobs, other.home);
        let group = self.dups.group(other.group, tree, &other.bytes)?;
        let number = self
            .dups
            .found(group, place, tree, &other.bytes, first.page, second.page)?;
        let (frame, lone) = (one.at, other.at);
        self.rows.merge(first, number, place, group);
        self.rows.merge(second, number, place, group);
        self.frames[place as usize] = frame;
        Ok((frame, lone))
    }

    /// A page with a frame of its own becomes Zero. Gives the frame that it leaves.
    #[tactic(auto, using(crate::proofs::Changing::frame_by, crate::proofs::Changing::row_found))]
    pub fn become_zero(&mut self, spot: Spot) -> Option<u32>
        requires { IsAlone spot.page self.old.rows }
        ensures left { result ≡ (seen self.old).frame spot.page }
        ensures zero { seen self.new ≡ relaid spot.page (λ r. record r { state = Zero }) None (seen self.old) }
    {
        self.rows.become_zero(spot)
    }
}
