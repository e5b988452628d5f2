//! A pass of a session, and what a line does with it.
ghost use Rattle.std.specs.Prelude.{◌≡◌, ◌<◌, IfOk, IfErr};
ghost use Rattle.ksm_base.specs.Values.{frames_of};
ghost use Rattle.ksm_script.specs.declared.pass_state.PassState.TheVariants.{Idle as idle, Holding as holding};
ghost use Rattle.ksm_script.specs.Lookups.{table_of, RefusesLookup, Finds, Equals, LooksAt, GivesUp, Acts, IsGivenBack};

use crate::refusal::Refusal;
use crate::reply::LineReply;
use frame_table::{Found, FoundEqual, FrameTable, Held, Pass};
use ksm_audit::read_page;
use ksm_base::{Fault, PageBytes};

/// A pass of a session. It must be spent, as a `Pass` and a `Held` must.
pub enum PassState {
    /// It holds nothing.
    Idle(Pass),
    /// It holds the frame that it found last.
    Holding(Held),
}

/// What a line asks of one pass.
#[derive(Clone, Copy)]
pub enum Act {
    /// Look a place up.
    Find { place: u32 },
    /// Look a place up, and compare the content of its frame with a page.
    Equal { place: u32, bytes: PageBytes },
    /// Read the page that is held.
    Look,
    /// Give the hold back.
    Leave,
}

/// The pass holds the frame that it found.
#[inline(always)]
fn found(held: Held) -> (PassState, LineReply)
    ensures state { result.0 ≡ holding held }
    ensures reply { result.1 ≡ LineReply.Held held.frame held.generation }
{
    let (frame, generation) = (held.frame(), held.generation());
    let reply = LineReply::Held { frame, generation };
    (PassState::Holding(held), reply)
}

/// The pass holds the frame that it found, whose content is another.
#[inline(always)]
fn differs(held: Held) -> (PassState, LineReply)
    ensures state { result.0 ≡ holding held }
    ensures reply { result.1 ≡ LineReply.Differs held.frame held.generation }
{
    let (frame, generation) = (held.frame(), held.generation());
    let reply = LineReply::Differs { frame, generation };
    (PassState::Holding(held), reply)
}

impl PassState {
    /// Does what a line asks.
    #[inline(always)]
    pub fn act(self, table: &FrameTable, act: Act) -> (PassState, LineReply)
        requires own { table_of self ≡ table.now }
        ensures acts { Acts act self result.1 result.0 }
        ensures own { table_of result.0 ≡ table.now }
    {
        match act {
            Act::Find { place } => self.find(table, place),
            Act::Equal { place, bytes } => self.find_equal(table, place, &bytes),
            Act::Look => self.look(table),
            Act::Leave => self.leave(table),
        }
    }

    // The pass, if it may look the place up; else it comes back with the refusal.
    #[inline(always)]
    fn ready(self, table: &FrameTable, place: u32) -> Result<Pass, (PassState, LineReply)>
        requires own { table_of self ≡ table.now }
        ensures may { IfOk result (λ p. (self ≡ idle p) × (place < frames_of table.now.shape)) }
        ensures refused { IfErr result (λ r. (r.0 ≡ self) × RefusesLookup place self r.1) }
    {
        let pass = match self {
            PassState::Idle(pass) => pass,
            PassState::Holding(held) => {
                let refusal = Refusal::Holding;
                return Err((PassState::Holding(held), LineReply::Refused(refusal)));
            }
        };
        if place >= table.places() {
            let refusal = Refusal::Book(Fault::UnknownPlace);
            return Err((PassState::Idle(pass), LineReply::Refused(refusal)));
        }
        Ok(pass)
    }

    // Looks a place up.
    #[inline(always)]
    fn find(self, table: &FrameTable, place: u32) -> (PassState, LineReply)
        requires own { table_of self ≡ table.now }
        ensures finds { Finds place self result.1 result.0 }
        ensures own { table_of result.0 ≡ table.now }
    {
        let pass = match self.ready(table, place) {
            Ok(pass) => pass,
            Err(refused) => return refused,
        };
        match pass.find(table, place) {
            Found::Held(held) => found(held),
            Found::Gone(pass, why) => (PassState::Idle(pass), LineReply::Gone(why)),
            Found::Busy(pass) => (PassState::Idle(pass), LineReply::Busy),
        }
    }

    // Looks a place up, and compares the content of its frame with a page.
    #[inline(always)]
    fn find_equal(self, table: &FrameTable, place: u32, page: &PageBytes) -> (PassState, LineReply)
        requires own { table_of self ≡ table.now }
        ensures finds { Equals place page.now self result.1 result.0 }
        ensures own { table_of result.0 ≡ table.now }
    {
        let pass = match self.ready(table, place) {
            Ok(pass) => pass,
            Err(refused) => return refused,
        };
        match pass.find_equal(table, place, page) {
            FoundEqual::Held(held) => found(held),
            FoundEqual::Differs(held) => differs(held),
            FoundEqual::Gone(pass, why) => (PassState::Idle(pass), LineReply::Gone(why)),
            FoundEqual::Busy(pass) => (PassState::Idle(pass), LineReply::Busy),
        }
    }

    // Reads the page of the frame that is held.
    #[inline(always)]
    fn look(self, table: &FrameTable) -> (PassState, LineReply)
        requires own { table_of self ≡ table.now }
        ensures looks { LooksAt self result.1 result.0 }
        ensures own { table_of result.0 ≡ table.now }
    {
        match self {
            PassState::Idle(pass) => (
                PassState::Idle(pass),
                LineReply::Refused(Refusal::NotHolding),
            ),
            PassState::Holding(mut held) => {
                let bytes = read_page(table, &mut held);
                (PassState::Holding(held), LineReply::Content(bytes))
            }
        }
    }

    // Gives the hold back.
    #[inline(always)]
    fn leave(self, table: &FrameTable) -> (PassState, LineReply)
        requires own { table_of self ≡ table.now }
        ensures leaves { GivesUp self result.1 result.0 }
        ensures own { table_of result.0 ≡ table.now }
    {
        match self {
            PassState::Idle(pass) => (
                PassState::Idle(pass),
                LineReply::Refused(Refusal::NotHolding),
            ),
            PassState::Holding(held) => (PassState::Idle(held.leave(table)), LineReply::Done),
        }
    }

    /// The pass, without its hold if it has one.
    pub fn give_back(self, table: &FrameTable) -> Pass
        requires own { table_of self ≡ table.now }
        ensures given { IsGivenBack self result }
        ensures own { result.table ≡ table.now }
    {
        match self {
            PassState::Idle(pass) => pass,
            PassState::Holding(held) => held.leave(table),
        }
    }
}
