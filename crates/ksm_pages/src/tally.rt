//! How many rows there are of each state that is counted.

ghost use Rattle.ksm_pages.specs.Filed.{CanMove, IsMoved};
ghost use Rattle.ksm_pages.specs.Held.{state_of};

use crate::row::Entry;
use ksm_base::PageState;

/// How many rows are merged, wait, and are on the zero page.
#[derive(Clone, Copy, Debug)]
pub struct Tally {
    pub merged: usize,
    pub waiting: usize,
    pub zero: usize,
}

impl Tally {
    /// The tally of no rows.
    pub const NONE: Tally = Tally {
        merged: 0,
        waiting: 0,
        zero: 0,
    };

    /// A row went from one state to another. Only the numbers that change are written.
    #[inline(always)]
    pub fn change(&mut self, from: PageState, to: PageState)
        requires { CanMove from to self.old }
        ensures { IsMoved from to self.old self.new }
    {
        match from {
            PageState::Waiting => self.waiting -= 1,
            PageState::Merged(_) => self.merged -= 1,
            PageState::Zero => self.zero -= 1,
            _ => {}
        }
        match to {
            PageState::Waiting => self.waiting += 1,
            PageState::Merged(_) => self.merged += 1,
            PageState::Zero => self.zero += 1,
            _ => {}
        }
    }

    /// An entry became another in a pass. Where both say the same of the row's state, nothing is looked at.
    #[inline(always)]
    pub fn follow(&mut self, was: &Entry, is: &Entry, pass: u64)
        requires { CanMove (state_of pass was.now) (state_of pass is.now) self.old }
        ensures { IsMoved (state_of pass was.now) (state_of pass is.now) self.old self.new }
    {
        if is.kind != was.kind || is.number != was.number || is.in_tree != was.in_tree {
            self.change(was.state(pass), is.state(pass));
        }
    }
}
