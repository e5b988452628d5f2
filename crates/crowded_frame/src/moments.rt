//! What a caller of the frame table knows of every moment of it, from the table's public clauses alone: by the rule
//! that the type of its words names, and by the seats in the caller's hand.
//!
//! Of a moment it is known that the rule of that type holds, and of a seat in hand that its view is among the views
//! then.

ghost use Rattle.std.specs.Prelude.{◌≡◌, ℕ};
ghost use Rattle.atomic_table.specs.Table.{Seen};
ghost use Rattle.frame_core.specs.Live.{LiveAt};
ghost use Rattle.frame_table.specs.Live.{IsFoundAt};
ghost use Rattle.frame_table.specs.Running.{RunsSafely, TellsItsPart, TellsTheKeepers};
ghost use Rattle.frame_table.specs.Truth.{Moment};

use atomic_table::{Seat, Shared, TableRule};
use frame_table::{
    FrameRule, FrameTable, Held, Keeper, Pass, View, a_replaced_place_is_never_empty,
    the_running_table_is_safe,
};
use ksm_base::Shape;

/// The table runs safely at every moment, whoever steps on it.
pub fn words_of(table: &FrameTable) -> &Shared<(), View, Shape, FrameRule>
    ensures own { (result.now.table_id ≡ table.now.id) × (result.now.key ≡ table.now.shape) }
    ensures safe { (t : Moment) → ⟦<FrameRule as TableRule<(), View, Shape>>⟧.holds result.now.key t → RunsSafely table.now.shape t }
{
    the_running_table_is_safe();
    table.ruled()
}

/// At every moment the log of a pass is its part of the steps made so far.
pub fn seat_of_a_pass<'a>(table: &FrameTable, pass: &'a Pass) -> &'a Seat<(), View>
    requires own { pass.now.table ≡ table.now }
    ensures own { result.now.table_id ≡ table.now.id }
    ensures log { (t : Moment) → Seen (⟦<FrameRule as TableRule<(), View, Shape>>⟧.holds table.now.shape) result.now.id result.now.me.0 t → TellsItsPart table.now.shape t result.now.id pass.now.log }
{
    words_of(table);
    pass.seat()
}

/// At every moment the log of a hold is its part of the steps made so far.
pub fn seat_of_a_hold<'a>(table: &FrameTable, held: &'a Held) -> &'a Seat<(), View>
    requires own { held.now.table ≡ table.now }
    ensures own { result.now.table_id ≡ table.now.id }
    ensures log { (t : Moment) → Seen (⟦<FrameRule as TableRule<(), View, Shape>>⟧.holds table.now.shape) result.now.id result.now.me.0 t → TellsItsPart table.now.shape t result.now.id held.now.log }
{
    words_of(table);
    held.seat()
}

/// At every moment the keeper's log is its part of the steps made so far, and its ledger what they lead to.
pub fn seat_of_the_keeper<'a>(table: &FrameTable, keeper: &'a Keeper) -> &'a Seat<(), View>
    requires own { keeper.now.table ≡ table.now }
    ensures own { result.now.table_id ≡ table.now.id }
    ensures log { (t : Moment) → Seen (⟦<FrameRule as TableRule<(), View, Shape>>⟧.holds table.now.shape) result.now.id result.now.me.0 t → TellsTheKeepers table.now.shape t keeper.now.log keeper.now.ledger }
{
    words_of(table);
    keeper.seat()
}

/// At every moment each place that the keeper in hand knows as live is found: it is not empty, and its frame is in the
/// life named, with a reference.
pub fn keeper_of_live_places<'a>(table: &FrameTable, keeper: &'a Keeper) -> &'a Seat<(), View>
    requires own { keeper.now.table ≡ table.now }
    ensures own { result.now.table_id ≡ table.now.id }
    ensures live { (t : Moment) (p : ℕ) → Seen (⟦<FrameRule as TableRule<(), View, Shape>>⟧.holds table.now.shape) result.now.id result.now.me.0 t → LiveAt keeper.now.ledger p → IsFoundAt table.now.shape t.words p }
{
    words_of(table);
    a_replaced_place_is_never_empty();
    keeper.seat()
}
