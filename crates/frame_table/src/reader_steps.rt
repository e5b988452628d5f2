//! What each step of a reader tells its seat.
ghost use Rattle.frame_core.specs.declared.event.ReaderStep.TheVariants as reader;
ghost use Rattle.frame_table.specs.Reading.{StepsAt, loads_place, loads_word};

use crate::view::View;
use atomic_table::Play;

pub(crate) struct LoadPlace;

impl Play<(), View> for LoadPlace {
    ghost then = { loads_place };
}

pub(crate) struct LoadFrame;

impl Play<(), View> for LoadFrame {
    ghost then = { StepsAt reader.LoadFrame };
}

pub(crate) struct Exchange;

impl Play<(), View> for Exchange {
    ghost then = { StepsAt reader.Exchange };
}

pub(crate) struct Leave;

impl Play<(), View> for Leave {
    ghost then = { StepsAt reader.Leave };
}

pub(crate) struct LoadWord;

impl Play<(), View> for LoadWord {
    ghost then = { loads_word };
}
