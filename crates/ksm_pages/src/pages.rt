//! The pages: the rows, the dups into which rows are merged, each with its frame, and the knobs. Each call tells a
//! change to all of them.
//!
//! A page is named by a `Spot`, whose key is a guess that no contract reads; a change is told by the page. What is read
//! of pages is in `reads.rt`, what commands change in `changes.rt`, which visits are ahead and what they change in
//! `visited.rt`, and the dups by their places in `dups.rt`.

ghost use Rattle.std.specs.Prelude.{◌≡◌, ◌⊎◌, [], true, false, None, All, IfOk, IfErr};
ghost use Rattle.ksm_pages.specs.Terms.{default_knobs, InPageOrder, IsShape, Memory, row_at, waiting_state};
ghost use Rattle.ksm_pages.specs.Paged.{nowhere, seen};

use crate::row::Spot;
use crate::rows::Rows;
use ksm_base::{Fault, GuestPage, Knobs, Shape};
use ksm_tree::{Best, Dups};
use std::alloc::Global;
use std::marker::Model;

/// How a page lies, and where it is at home.
#[derive(Clone, Copy, Debug)]
pub struct Held {
    pub spot: Spot,
    pub home: u32,
    /// Whether the page is merged or Zero.
    pub shared: bool,
    /// The frame of its own, where it is neither.
    pub own: Option<u32>,
}

/// How a page lies that is about to change.
#[derive(Clone, Copy, Debug)]
pub enum Look {
    /// Its row lies where that was guessed. It has this frame of its own, and waits for nothing.
    Private(Spot, u32),
    /// In any way.
    Other(Held),
}

/// What a visit finds.
#[derive(Clone, Copy, Debug)]
pub enum Find {
    /// No row that a visit may change.
    Gone,
    /// A dup that the page is to join.
    Dup(Best),
    /// The page was not unchanged. It is from now on.
    Changed,
    /// The page is to become Zero.
    Zero,
    /// The page waits, from now on if it did not yet.
    Waits,
    /// The page is to make a dup with this one, which waits.
    Partner(GuestPage),
}

/// What a first look at a page tells.
#[derive(Clone, Copy, Debug)]
pub enum Glance {
    /// A visit may not change its row.
    Gone,
    /// The page waits, from now on.
    Waits,
    /// The page was not unchanged. It is from now on.
    Changed,
    /// Neither.
    Nothing,
}

/// The rows, the dups with their frames, and the knobs, which say what tree a row is in.
///
/// The frame of a dup is kept once, at the dup's place: to move a dup writes one number, however many pages are merged
/// into it.
#[derive(Drop)]
pub struct Pages {
    pub(crate) shape: Shape,
    pub(crate) rows: Rows,
    pub(crate) dups: Dups,
    pub(crate) frames: Vec<u32>,
    pub(crate) knobs: Knobs,
}

impl Model for Pages {
    ghost use Rattle.ksm_pages.specs.Held.{rows_of};
    ghost use Rattle.ksm_pages.specs.Paged.{AreKept, PagesValue, lodging, lodgings_of};
    ghost use Rattle.ksm_tree.specs.Dups.{rows_of as dup_rows};

    ghost Value = { PagesValue };

    ghost view = { λ p. record {
      shape = p.shape;
      rows = rows_of p.rows.held;
      lodgings = lodgings_of (lodging (dup_rows p.dups.dups) p.frames.items) p.rows.held;
      dups = dup_rows p.dups.dups;
      knobs = p.knobs;
      next = p.dups.next;
    } };

    ghost invariant = { λ p. AreKept p.shape p.knobs p.rows p.dups p.frames.items };
}

impl Pages {
    /// No rows and no dups, with room for a dup at each place. Refused for memory alone.
    pub fn open(alloc: Global, shape: Shape) -> Result<Pages, Fault>
        requires { IsShape shape }
        ensures opened { IfOk result (λ p. seen p ≡ record {
          shape = shape;
          rows = [];
          frame = nowhere;
          dups = [];
          knobs = default_knobs;
          next = 0;
        }) }
        ensures fault { IfErr result (λ fault. fault ≡ Memory) }
    {
        let places = shape.frames();
        Ok(Pages {
            shape,
            rows: Rows::new(alloc, places),
            dups: Dups::open(alloc, places)?,
            frames: vec![in alloc; 0; places as usize]?,
            knobs: Knobs::DEFAULT,
        })
    }

    /// A law: the rows are in the order of their pages, and a page without a row lies on no frame.
    #[tactic(auto, using(crate::proofs::Changing::frame_by, crate::proofs::Changing::nothing_held))]
    pub fn lie_in_order(&self)
        ensures rise { InPageOrder self.now.rows }
        ensures absent { (page : GuestPage) → row_at page self.now.rows ≡ None → (seen self.now).frame page ≡ None }
    {
        // Called for its contract alone.
        self.rows.are_lawful();
    }

    /// The shape of the table on whose frames the pages lie.
    pub fn shape(&self) -> Shape
        ensures { result ≡ self.now.shape }
    {
        self.shape
    }

    /// The knobs, as they were set last.
    pub fn knobs(&self) -> Knobs
        ensures { result ≡ self.now.knobs }
    {
        self.knobs
    }

    /// Sets the knobs; `merge_across_nodes` changes only where no row waits.
    pub fn set_knobs(&mut self, knobs: Knobs)
        requires { (knobs.merge_across_nodes ≡ self.old.knobs.merge_across_nodes)
            ⊎ All (λ r. waiting_state r.state ≡ false) self.old.rows }
        ensures { seen self.new ≡ record (seen self.old) { knobs = knobs } }
    {
        self.dups.set_limit(knobs.max_page_sharing);
        self.rows.set_by_node(knobs.merge_across_nodes != 1);
        self.knobs = knobs;
    }
}
