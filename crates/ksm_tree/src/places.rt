//! Sorted lists of places: of a group, and of the open dups. Most groups have few dups, so four places lie in the list
//! itself.
ghost use Rattle.std.specs.Prelude.{[], AllPairs, IfOk, length, OnOk, ◌+◌, ◌<◌, ◌≡◌, ◌≤◌};
ghost use Rattle.ksm_tree.specs.Terms.{FailsForMemory};
ghost use Rattle.smallvec.specs.SmallVec.{HasRoomFor};
ghost use Rattle.ksm_tree.specs.Places.{with_place, without};

use ksm_base::Fault;
use ksm_order::{place_near_end, stands_at};
use smallvec::SmallVec;
use std::alloc::Global;

/// Places in ascending order, each once.
#[derive(Drop)]
pub struct Places {
    pub list: SmallVec<u32, 4>,
    ghost ascending: { AllPairs (λ p q. p < q) list.items },
}

impl Places {
    /// No places.
    pub fn new(alloc: Global) -> Places
        ensures none { result.list.items ≡ [] }
        ensures room { 1 ≤ result.list.capacity }
    {
        Places {
            list: SmallVec::new(alloc),
        }
    }

    /// No places, with room for so many.
    pub fn with_room(alloc: Global, room: usize) -> Result<Places, Fault>
        ensures none { IfOk result (λ places. places.list.items ≡ []) }
        ensures room { IfOk result (λ places. room ≤ places.list.capacity) }
        ensures memory { FailsForMemory result }
    {
        Ok(Places {
            list: SmallVec::with_capacity(alloc, room)?,
        })
    }

    /// Takes room for one more place. The one fault is `Memory`, and then nothing changes.
    pub fn reserve(&mut self) -> Result<(), Fault>
        ensures kept { self.new.list.items ≡ self.old.list.items }
        ensures room { OnOk result (HasRoomFor self.new.list 1) }
        ensures memory { FailsForMemory result }
    {
        self.list.reserve(1)?;
        Ok(())
    }

    /// Puts the place into the list, if it is not there.
    pub fn insert(&mut self, place: u32)
        requires { HasRoomFor self.old.list 1 }
        ensures with { self.new.list.items ≡ with_place place self.old.list.items }
        ensures one { length self.new.list.items ≤ length self.old.list.items + 1 }
        ensures capacity { self.new.list.capacity ≡ self.old.list.capacity }
    {
        let places = self.list.as_slice();
        let key = u64::from(place);
        let at = place_near_end(places, key);
        if !stands_at(places, at, key) {
            let _there_is_room = self.list.insert(at, place);
        }
    }

    /// Takes the place out of the list, if it is there.
    pub fn remove(&mut self, place: u32)
        ensures without { self.new.list.items ≡ without place self.old.list.items }
        ensures less { length self.new.list.items ≤ length self.old.list.items }
        ensures capacity { self.new.list.capacity ≡ self.old.list.capacity }
    {
        let places = self.list.as_slice();
        let key = u64::from(place);
        let at = place_near_end(places, key);
        if stands_at(places, at, key) {
            self.list.remove(at);
        }
    }
}
