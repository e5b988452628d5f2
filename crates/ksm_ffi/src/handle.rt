//! What C holds: a pointer to a box, or null.
ghost use Rattle.std.specs.Prelude.{◌≡◌, MatchOption, MatchResult};
ghost use Rattle.ksm_ffi.specs.Answers.{number_of};
ghost use Rattle.ksm_ffi.specs.declared.answer.Answer.TheVariants as answer;
ghost use Rattle.std.specs.Borrow.{sem};
ghost use Rattle.std.specs.declared.option.Option.{Option};
ghost use Rattle.std.specs.declared.option.Option.TheVariants.{None, Some};
ghost use Rattle.ksm_ffi.specs.Handles.{handle_coded, handle_owns};
ghost use Rattle.ksm_ffi.specs.declared.thing.Thing.{Thing};

use crate::answer::Answer;
use crate::loose::Loose;
use crate::thing::Thing;
use std::alloc::Global;
use std::marker::Model;
use std::mem::replace;
use std::ptr::null_mut;

/// A handle, which is open or not. An open one owns what it stands for. C makes one that is not open of null.
///
/// Let go while it is open, it frees nothing.
#[repr(C)]
#[derive(Drop)]
pub struct Handle {
    at: *mut u8,
    alloc: Global,
    /// What the handle stands for; nothing where it is not open.
    pub ghost thing: { Option Thing } by { handle_coded },
}

impl Model for Handle {
    ghost also_owns = { λ h. handle_owns h.alloc h.at h.thing };
}

unsafe impl Send for Handle {}

impl Handle {
    ghost use Rattle.std.specs.Prelude.{IsSome, IsTrue, ◌↔◌};
    ghost use Rattle.ksm_ffi.specs.Lends.{LendsInPlace};

    fn empty(alloc: Global) -> Handle
        ensures { result.thing ≡ None }
    {
        Handle {
            at: null_mut(),
            alloc,
        }
    }

    fn of_loose(loose: Loose<Thing, Global>) -> Handle
        ensures { result.thing ≡ Some loose.value }
    {
        let Loose { at, alloc } = loose;
        Handle {
            at: at as *mut u8,
            alloc,
        }
    }

    fn into_loose(self) -> Option<Loose<Thing, Global>>
        ensures { MatchOption result (self.thing ≡ None) (λ l. self.thing ≡ Some l.value) }
    {
        let Handle { at, alloc } = self;
        if at.is_null() {
            None
        } else {
            Some(Loose {
                at: at as *mut Thing,
                alloc,
            })
        }
    }

    /// Lends what the handle stands for, where it lies.
    pub(crate) fn as_mut(&mut self) -> Option<&mut Thing>
        ensures* lends { sem 𝓛 (LendsInPlace self.entry result) }
        ensures held { MatchOption result (self.old.thing ≡ None) (λ t. self.old.thing ≡ Some t.now) }
    {
        if self.at.is_null() {
            return None;
        }
        unsafe { Some(&mut *(self.at as *mut Thing)) }
    }

    /// Whether the handle is open.
    pub(crate) fn is_open(&mut self) -> bool
        ensures told { IsTrue result ↔ IsSome self.old.thing }
        ensures kept { self.new.thing ≡ self.old.thing }
    {
        match self.as_mut() {
            Some(_) => true,
            None => false,
        }
    }

    /// Takes what the handle stands for out of it. It is not open then.
    pub(crate) fn take(&mut self, alloc: Global) -> Option<Box<Thing>>
        ensures old { MatchOption result (self.old.thing ≡ None) (λ b. self.old.thing ≡ Some b.value) }
        ensures new { self.new.thing ≡ None }
    {
        let held = replace(self, Handle::empty(alloc));
        match held.into_loose() {
            Some(loose) => Some(loose.into_box()),
            None => None,
        }
    }

    /// Opens a handle that is not open on what was made. Answers the number of Done, or of why nothing was made.
    pub(crate) fn open(&mut self, made: Result<Box<Thing>, Answer>) -> u32
        ensures told { MatchResult made (λ _. result ≡ number_of answer.Done) (λ a. result ≡ number_of a) }
        ensures thing { MatchResult made (λ b. self.new.thing ≡ Some b.value) (λ _. self.new.thing ≡ self.old.thing) }
    {
        match made {
            Ok(thing) => {
                self.put(thing);
                Answer::Done.number()
            }
            Err(answer) => answer.number(),
        }
    }

    /// Opens the handle on this.
    pub(crate) fn put(&mut self, thing: Box<Thing>)
        ensures { self.new.thing ≡ Some thing.value }
    {
        *self = Handle::of_loose(Loose::of(thing));
    }
}

/// Opens two handles that are not open on the two that were made. Answers the number of Done, or of why nothing was
/// made.
pub(crate) fn open_both(
    one: &mut Handle,
    other: &mut Handle,
    made: Result<(Box<Thing>, Box<Thing>), Answer>,
) -> u32
    ensures told { MatchResult made (λ _. result ≡ number_of answer.Done) (λ a. result ≡ number_of a) }
    ensures one { MatchResult made (λ r. one.new.thing ≡ Some r.0.value) (λ _. one.new.thing ≡ one.old.thing) }
    ensures other { MatchResult made (λ r. other.new.thing ≡ Some r.1.value) (λ _. other.new.thing ≡ other.old.thing) }
{
    match made {
        Ok((first, second)) => {
            one.put(first);
            other.put(second);
            Answer::Done.number()
        }
        Err(answer) => answer.number(),
    }
}
