//! What a handle stands for.
ghost use Rattle.std.specs.Prelude.{◌≡◌, MatchResult};
ghost use Rattle.ksm_ffi.specs.Things.{reader_of};

use crate::answer::Answer;
use crate::bookkeeper::Bookkeeper;
use crate::home::Home;
use crate::owner::Owner;
use crate::reader::Reader;
use std::alloc::Global;
use std::mem::ManuallyDrop;

/// What a handle stands for.
pub enum Thing {
    /// A table with its keeper, and the table's number.
    Table(Owner, u64),
    /// A book on its table, and the table's number.
    Book(Bookkeeper, u64),
    /// The passes of a table that are not out. They have a handle of their own, so that threads may take passes while
    /// another has the table.
    Home(Home),
    /// A pass, and the number of its table.
    Pass(Reader, u64),
}

impl Thing {
    /// In a box of its own. Where there is no memory for that, it goes for good.
    pub fn boxed(self, alloc: Global) -> Result<Box<Thing>, Answer>
        ensures { MatchResult result (λ b. b.value ≡ self) (λ a. a ≡ Answer.Memory) }
    {
        match Box::new(alloc, self) {
            Ok(thing) => Ok(thing),
            Err(failed) => {
                failed.value.retire();
                Err(Answer::Memory)
            }
        }
    }

    /// Both in boxes of their own. Where there is no memory for that, they go for good.
    pub fn both_boxed(self, other: Thing, alloc: Global) -> Result<(Box<Thing>, Box<Thing>), Answer>
        ensures { MatchResult result (λ r. (r.0.value ≡ self) × (r.1.value ≡ other)) (λ a. a ≡ Answer.Memory) }
    {
        let first = match self.boxed(alloc) {
            Ok(first) => first,
            Err(answer) => {
                other.retire();
                return Err(answer);
            }
        };
        match other.boxed(alloc) {
            Ok(second) => Ok((first, second)),
            Err(answer) => {
                Box::into_inner(first).retire();
                Err(answer)
            }
        }
    }

    /// The pass that it stands for; what else it is goes for good.
    pub fn into_reader(self) -> Option<Reader>
        ensures { result ≡ reader_of self }
    {
        match self {
            Thing::Pass(reader, _) => Some(reader),
            other => {
                other.retire();
                None
            }
        }
    }

    /// Lets it go for good.
    pub fn retire(self) {
        match self {
            Thing::Table(owner, _) => owner.retire(),
            Thing::Book(bookkeeper, _) => bookkeeper.retire(),
            Thing::Home(home) => home.retire(),
            Thing::Pass(reader, _) => reader.retire(),
        }
    }
}

// A handle may be let go while it is open: then what it stands for is left as it is, and not freed.
impl Drop for Thing {
    fn drop(self) {
        let _left = unsafe { ManuallyDrop::new_unchecked(self) };
    }
}
