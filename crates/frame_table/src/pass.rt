//! A pass, which is a reader that holds nothing, and its lookups. A lookup takes the pass, and answers it back or as
//! a hold: so no pass looks up while it holds.
ghost use Rattle.std.specs.Prelude.{◌≡◌, ℕ, ◌<◌};
ghost use Rattle.ksm_base.specs.Values.{frames_of};
ghost use Rattle.frame_core.specs.declared.seat.Aim.{Aim};
ghost use Rattle.frame_core.specs.declared.seat.Phase.TheVariants.{Idle, Placed};
ghost use Rattle.frame_core.specs.Words.{frame_word_at};
ghost use Rattle.frame_table.specs.Views.{IsIn, log_in};
ghost use Rattle.frame_table.specs.Rounds.{GoesRound};
ghost use Rattle.frame_table.specs.Lookup.{LooksUp};
ghost use Rattle.frame_table.specs.Gone.{why_number};

use crate::held::Held;
use crate::permit::Permit;
use crate::table::FrameTable;
use crate::view::View;
use atomic_table::Seat;
use frame_core::{FrameWord, Life};
use std::marker::Model;

/// A reader's seat that holds nothing. Contracts see which table it is of, and its log.
///
/// It must be spent: a lookup answers it back, a hold gives it back when it is left, and the table is closed with it.
pub struct Pass {
    pub(crate) seat: Seat<(), View>,
}

impl Model for Pass {
    ghost use Rattle.std.specs.Prelude.{◌≡◌};
    ghost use Rattle.frame_core.specs.declared.seat.Phase.TheVariants.{Idle};
    ghost use Rattle.frame_table.specs.Named.{PassView};
    ghost use Rattle.frame_table.specs.Views.{IsIn, log_in, shape_in};

    ghost Value = { PassView };

    ghost view = { λ p. record { table = record { id = p.seat.table_id; shape = shape_in p.seat.me }; log = log_in p.seat.me } };

    ghost invariant = { λ p. IsIn (shape_in p.seat.me) Idle p.seat.me };
}

/// Why a lookup found no frame to hold. The numbers are those of replies.
#[derive(Clone, Copy, Debug, PartialEq, Eq)]
pub enum Why {
    /// The place was empty.
    Vacant = 1,
    /// The frame had no reference.
    Zero = 2,
    /// The frame was in another life than the place named.
    Generation = 3,
}

impl Why {
    /// The number by which a reply tells why, 1 to 3.
    pub fn number(self) -> u64
        ensures { result ≡ why_number self }
    {
        self as u64
    }
}

/// The answer to a lookup.
pub enum Found {
    /// The frame that the place named is held, in the life named.
    Held(Held),
    /// There was nothing to hold.
    Gone(Pass, Why),
    /// As many exchanges as the shape's `tries` were lost to other seats.
    Busy(Pass),
}

// One load of the frame word, and an exchange where that was of the life named and had a reference.
enum Round {
    // The frame word loaded had no reference, or was of another life.
    Zero(u64),
    Old(u64),
    // The frame word loaded, and another that the exchange found.
    Lost(u64, u64),
    // The frame word loaded, and exchanged for one more.
    Won(u64),
}

fn try_round(
    table: &FrameTable,
    seat: &mut Seat<(), View>,
    life: Life,
    word: usize,
    permit: Permit,
) -> Round
    requires own { seat.old.table_id ≡ table.now.id }
    requires inside { word < table.now.id.words }
    requires at { word ≡ frame_word_at (frames_of table.now.shape) life.frame }
    requires phase { (aim : Aim) × (failures : ℕ) × (aim.life ≡ life) × IsIn table.now.shape (Placed aim failures) seat.old.me }
    ensures seat { (seat.new.table_id ≡ seat.old.table_id) × (seat.new.id ≡ seat.old.id) }
    ensures round { GoesRound seat.old.me.0 result seat.new.me }
{
    let loaded = table.load_frame(seat, word);
    let said = FrameWord::unpack(loaded);
    if said.count == 0 {
        return Round::Zero(loaded);
    }
    if said.generation != life.generation {
        return Round::Old(loaded);
    }
    let found = table.exchange(seat, word, loaded, permit);
    if found == loaded {
        Round::Won(loaded)
    } else {
        Round::Lost(loaded, found)
    }
}

impl Pass {
    /// The seat of the pass. It is of the pass's table, and its view, which is among the views of that table's rule,
    /// has the pass's log.
    pub fn seat(&self) -> &Seat<(), View>
        ensures own { result.now.table_id ≡ self.now.table.id }
        ensures view { IsIn self.now.table.shape Idle result.now.me × (log_in result.now.me ≡ self.now.log) }
    {
        &self.seat
    }

    /// Looks a place up, and takes a reference on the frame that it names, by at most `tries` exchanges.
    pub fn find(self, table: &FrameTable, place: u32) -> Found
        requires own { self.table ≡ table.now }
        requires inside { place < frames_of table.now.shape }
        ensures { LooksUp self place result }
    {
        let Pass { mut seat } = self;
        let named = table.load_place(&mut seat, place);
        let Some(life) = Life::of_word(named) else {
            return Found::Gone(Pass { seat }, Why::Vacant);
        };
        let word = table.frame_word(life.frame);
        let page = table.page(life.frame);
        let mut permits = table.permits();
        'rounds: for i in 0..table.tries() {
            match try_round(table, &mut seat, life, word, permits.take()) {
                Round::Zero(_) => return Found::Gone(Pass { seat }, Why::Zero),
                Round::Old(_) => return Found::Gone(Pass { seat }, Why::Generation),
                Round::Lost(_, _) => {}
                Round::Won(_) => {
                    return Found::Held(Held {
                        seat,
                        place,
                        frame: life.frame,
                        word,
                        page,
                        generation: life.generation,
                    });
                }
            }
        }
        Found::Busy(Pass { seat })
    }
}
