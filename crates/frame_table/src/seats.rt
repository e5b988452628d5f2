//! How the keeper's view is cut as a pass is made, and takes in that of a pass that is given back.
use crate::view::View;
use atomic_table::{Join, Split};

pub(crate) struct NewPass;

impl Split<View> for NewPass {
    ghost use Rattle.frame_table.specs.Seats.{one_more, newcomer};

    ghost left = { one_more };

    ghost right = { newcomer };
}

pub(crate) struct GiveBack;

impl Join<View> for GiveBack {
    ghost use Rattle.frame_table.specs.declared.view.View.TheVariants.{Spent as gone};
    ghost use Rattle.frame_table.specs.Seats.{one_less};

    ghost both = { one_less };

    ghost spent = { gone };
}
