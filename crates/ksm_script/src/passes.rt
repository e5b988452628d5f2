//! The passes of a session, by their numbers.
ghost use Rattle.std.specs.Prelude.{◌≡◌, ◌+◌, ◌<◌, ◌≤◌, ◌++◌, [], All, IfSome, IfNone, IsSomeAnd, length, replicate};
ghost use Rattle.std.specs.Prelude.{map, option_to_list, slice_get, slice_set, vec_len, vec_capacity, Some, None};
ghost use Rattle.std.specs.List.{AllZip};
ghost use Rattle.frame_table.specs.Seats.{new_pass};
ghost use Rattle.ksm_script.specs.declared.pass_state.PassState.TheVariants.{Idle as idle_state};
ghost use Rattle.ksm_script.specs.Lookups.{table_of, Acts, AtPass, idle_of, AuditedBy, Audits, EndsIdle};
ghost use Rattle.ksm_script.specs.Slots.{present, AreThere, ActsAt, gaps, emptied, refilled, InBoth};

use crate::pass_state::{Act, PassState};
use crate::refusal::Refusal;
use crate::reply::LineReply;
use frame_table::{FrameTable, Pass};
use ksm_audit::{AuditFault, OpenGate, audit};
use ksm_base::Fault;
use ksm_shared::{Ksm, Naming};
use std::alloc::Global;
use std::marker::Model;
use std::mem;
use std::thread::Threads;

/// A slot for each pass. It has its pass, but while something is done with that.
type Slots = Vec<Option<PassState>>;

/// The passes of a session, in the order of their numbers. Contracts see the list of them. They must be closed.
pub struct Passes {
    slots: Slots,
    // Nothing, and room for all passes.
    room: Vec<Pass>,
}

impl Model for Passes {
    ghost use Rattle.std.specs.Prelude.{◌≡◌, ◌≤◌, List, [], vec_len, vec_capacity};
    ghost use Rattle.ksm_script.specs.declared.pass_state.PassState.{PassState};
    ghost use Rattle.ksm_script.specs.Slots.{present, AreThere};

    ghost Value = { List PassState };

    ghost view = { λ p. present p.slots.items };

    ghost invariant = { λ p. AreThere p.slots.items × (p.room.items ≡ []) × (vec_len p.slots ≤ vec_capacity p.room) };
}

/// Puts a pass into an empty slot.
#[inline(always)]
fn fill(slot: &mut Option<PassState>, state: PassState)
    requires { slot.old ≡ None }
    ensures { slot.new ≡ Some state }
{
    let old = slot.replace(state);
    let None = old else { unreachable!() };
}

/// Takes the pass of a number out of its slot, if there is one.
#[inline(always)]
fn take_at(slots: &mut Slots, number: u32) -> Option<PassState>
    requires { AreThere slots.old.items }
    ensures taken { result ≡ slice_get (present slots.old.items) number }
    ensures slots { IfSome result (λ s. slots.new.items ≡ slice_set slots.old.items number None) }
    ensures none { IfNone result (slots.new.items ≡ slots.old.items) }
    ensures len { vec_len slots.new ≡ vec_len slots.old }
{
    let at = number as usize;
    if at >= slots.len() {
        return None;
    }
    slots[at].take()
}

/// Puts the pass of a number back.
#[inline(always)]
fn put_at(slots: &mut Slots, number: u32, state: PassState)
    requires { slice_get slots.old.items number ≡ Some None }
    ensures slots { slots.new.items ≡ slice_set slots.old.items number (Some state) }
    ensures len { vec_len slots.new ≡ vec_len slots.old }
{
    fill(&mut slots[number as usize], state);
}

/// Does with the pass of a number what a line asks.
#[inline(always)]
fn act_at(slots: &mut Slots, table: &FrameTable, number: u32, act: Act) -> LineReply
    requires there { AreThere slots.old.items }
    requires own { All (λ s. table_of s ≡ table.now) (present slots.old.items) }
    ensures acts { ActsAt table.now number (Acts act) slots.old.items result slots.new.items }
    ensures len { vec_len slots.new ≡ vec_len slots.old }
{
    let Some(state) = take_at(slots, number) else {
        return LineReply::Refused(Refusal::NoPass);
    };
    let (state, reply) = state.act(table, act);
    put_at(slots, number, state);
    reply
}

/// Takes the pass out of a slot, if it holds nothing.
fn take_if_idle(slot: &mut Option<PassState>, idle: &mut Vec<Pass>)
    requires room { vec_len idle.old < vec_capacity idle.old }
    ensures slot { slot.new ≡ emptied slot.old }
    ensures idle { idle.new.items ≡ idle.old.items ++ idle_of (option_to_list slot.old) }
    ensures len { vec_len idle.new ≤ vec_len idle.old + 1 }
    ensures capacity { vec_capacity idle.new ≡ vec_capacity idle.old }
{
    match slot.take() {
        Some(PassState::Idle(pass)) => idle.push_reserved(pass),
        Some(PassState::Holding(held)) => fill(slot, PassState::Holding(held)),
        None => {}
    }
}

/// Takes out the passes that hold nothing, in order.
fn take_idle(slots: &mut Slots, idle: &mut Vec<Pass>)
    requires there { AreThere slots.old.items }
    requires room { (idle.old.items ≡ []) × (vec_len slots.old ≤ vec_capacity idle.old) }
    ensures slots { slots.new.items ≡ map emptied slots.old.items }
    ensures idle { idle.new.items ≡ idle_of (present slots.old.items) }
    ensures len { vec_len slots.new ≡ vec_len slots.old }
    ensures capacity { vec_capacity idle.new ≡ vec_capacity idle.old }
{
    for k in 0..slots.len() {
        take_if_idle(&mut slots[k], idle);
    }
}

/// Puts passes that hold nothing into the empty slots, in order.
fn put_idle(slots: &mut Slots, idle: &mut Vec<Pass>)
    requires { gaps slots.old.items ≡ vec_len idle.old }
    ensures slots { slots.new.items ≡ refilled slots.old.items idle.old.items }
    ensures idle { idle.new.items ≡ [] }
    ensures len { vec_len slots.new ≡ vec_len slots.old }
    ensures capacity { vec_capacity idle.new ≡ vec_capacity idle.old }
{
    for k in 0..slots.len() {
        if slots[k].is_none() {
            fill(&mut slots[k], PassState::Idle(idle.remove(0)));
        }
    }
}

/// Looks each place up with these passes, if there are any.
fn audit_by<N: Naming, R: Threads + Sync>(
    rt: &R,
    alloc: Global,
    ksm: &Ksm<N>,
    idle: Vec<Pass>,
) -> (LineReply, Vec<Pass>)
    requires own { All (λ p. p.table ≡ N.parts.frames) idle.items }
    ensures audited { AuditedBy idle.items result.0 result.1.items }
    ensures own { All (λ p. p.table ≡ N.parts.frames) result.1.items }
    ensures count { length result.1.items ≡ length idle.items }
    ensures room { vec_capacity result.1 ≡ vec_capacity idle }
{
    if idle.is_empty() {
        return (LineReply::Refused(Refusal::Holding), idle);
    }
    match audit(rt, alloc, ksm, idle, &OpenGate) {
        Ok((report, back)) => (LineReply::Audit(report), back),
        Err(fault) => {
            let AuditFault::Memory(back) = fault else {
                unreachable!()
            };
            (LineReply::Refused(Refusal::Book(Fault::Memory)), back)
        }
    }
}

/// Gives a hold back, if the pass of the slot has one.
fn give_back_at(slot: &mut Option<PassState>, table: &FrameTable)
    requires { IsSomeAnd slot.old (λ s. table_of s ≡ table.now) }
    ensures given { InBoth EndsIdle slot.old slot.new }
    ensures own { IsSomeAnd slot.new (λ s. table_of s ≡ table.now) }
{
    let Some(state) = slot.take() else {
        unreachable!()
    };
    fill(slot, PassState::Idle(state.give_back(table)));
}

/// Gives all holds back.
fn give_back_all(slots: &mut Slots, table: &FrameTable)
    requires own { All (λ o. IsSomeAnd o (λ s. table_of s ≡ table.now)) slots.old.items }
    ensures given { AllZip (λ o. InBoth EndsIdle o) slots.old.items slots.new.items }
    ensures own { All (λ o. IsSomeAnd o (λ s. table_of s ≡ table.now)) slots.new.items }
    ensures len { vec_len slots.new ≡ vec_len slots.old }
{
    for k in 0..slots.len() {
        give_back_at(&mut slots[k], table);
    }
}

/// Takes the passes out, their holds given back.
fn empty_into(mut slots: Slots, room: &mut Vec<Pass>, table: &FrameTable)
    requires own { All (λ o. IsSomeAnd o (λ s. table_of s ≡ table.now)) slots.items }
    requires room { (room.old.items ≡ []) × (vec_len slots ≤ vec_capacity room.old) }
    ensures own { All (λ p. p.table ≡ table.now) room.new.items }
    ensures count { vec_len room.new ≡ vec_len slots }
{
    'slots: while let Some(slot) = slots.pop() {
        let Some(state) = slot else { unreachable!() };
        room.push_reserved(state.give_back(table));
    }
    slots.destroy_empty();
}

impl Passes {
    /// These passes, none of which has made a step. There is room for them in `slots`.
    pub fn new(table: &FrameTable, mut slots: Slots, mut passes: Vec<Pass>) -> Passes
        requires empty { slots.items ≡ [] }
        requires room { vec_len passes ≤ vec_capacity slots }
        requires new { All (λ p. p ≡ new_pass table.now) passes.items }
        ensures { result ≡ replicate (vec_len passes) (idle_state (new_pass table.now)) }
    {
        'passes: while let Some(pass) = passes.pop() {
            slots.push_reserved(Some(PassState::Idle(pass)));
        }
        Passes {
            slots,
            room: passes,
        }
    }

    /// Does with the pass of a number what a line asks.
    #[inline(always)]
    pub fn act(&mut self, table: &FrameTable, number: u32, act: Act) -> LineReply
        requires own { All (λ s. table_of s ≡ table.now) self.old }
        ensures acts { AtPass number (Acts act) self.old result self.new }
        ensures own { All (λ s. table_of s ≡ table.now) self.new }
        ensures count { length self.new ≡ length self.old }
    {
        act_at(&mut self.slots, table, number, act)
    }

    /// Looks each place up, by the passes that hold nothing.
    pub fn audit<N: Naming, R: Threads + Sync>(
        &mut self,
        rt: &R,
        alloc: Global,
        ksm: &Ksm<N>,
    ) -> LineReply
        requires own { All (λ s. table_of s ≡ N.parts.frames) self.old }
        ensures audits { Audits self.old result self.new }
        ensures own { All (λ s. table_of s ≡ N.parts.frames) self.new }
        ensures count { length self.new ≡ length self.old }
    {
        let mut idle = mem::replace(&mut self.room, Vec::new(alloc));
        take_idle(&mut self.slots, &mut idle);
        let (reply, mut idle) = audit_by(rt, alloc, ksm, idle);
        put_idle(&mut self.slots, &mut idle);
        let unused = mem::replace(&mut self.room, idle);
        unused.destroy_empty();
        reply
    }

    /// Gives all holds back.
    pub fn give_back(&mut self, table: &FrameTable)
        requires own { All (λ s. table_of s ≡ table.now) self.old }
        ensures given { AllZip EndsIdle self.old self.new }
        ensures own { All (λ s. table_of s ≡ table.now) self.new }
        ensures count { length self.new ≡ length self.old }
    {
        give_back_all(&mut self.slots, table);
    }

    /// The passes, their holds given back.
    pub fn close(self, table: &FrameTable) -> Vec<Pass>
        requires own { All (λ s. table_of s ≡ table.now) self }
        ensures own { All (λ p. p.table ≡ table.now) result.items }
        ensures count { vec_len result ≡ length self }
    {
        let Passes { slots, mut room } = self;
        empty_into(slots, &mut room, table);
        room
    }
}
