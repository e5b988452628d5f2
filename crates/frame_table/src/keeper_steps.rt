//! What each step of the keeper tells its seat.
ghost use Rattle.frame_core.specs.declared.event.KeeperStep.TheVariants as keeper;
ghost use Rattle.frame_table.specs.Keeping.{on_frame, puts, publishes, replaces, withdraws, shows};

use crate::view::View;
use atomic_table::Play;

pub(crate) struct Reap;

impl Play<(), View> for Reap {
    ghost then = { on_frame keeper.Reap };
}

pub(crate) struct Put;

impl Play<(), View> for Put {
    ghost then = { puts };
}

pub(crate) struct Raise;

impl Play<(), View> for Raise {
    ghost then = { on_frame keeper.Raise };
}

pub(crate) struct Open;

impl Play<(), View> for Open {
    ghost then = { on_frame keeper.Open };
}

pub(crate) struct Add;

impl Play<(), View> for Add {
    ghost then = { on_frame keeper.Add };
}

pub(crate) struct Sub;

impl Play<(), View> for Sub {
    ghost then = { on_frame keeper.Sub };
}

pub(crate) struct Publish;

impl Play<(), View> for Publish {
    ghost then = { publishes };
}

pub(crate) struct Replace;

impl Play<(), View> for Replace {
    ghost then = { replaces };
}

pub(crate) struct Withdraw;

impl Play<(), View> for Withdraw {
    ghost then = { withdraws };
}

pub(crate) struct Freeze;

impl Play<(), View> for Freeze {
    ghost then = { on_frame keeper.Freeze };
}

pub(crate) struct Word;

impl Play<(), View> for Word {
    ghost then = { shows };
}
