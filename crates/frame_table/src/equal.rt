//! A lookup that compares the frame's words with a page.
ghost use Rattle.std.specs.Prelude.{◌≡◌, ◌<◌};
ghost use Rattle.ksm_base.specs.Values.{frames_of};
ghost use Rattle.frame_table.specs.Equal.{Compares, LooksUpEqual};

use crate::held::Held;
use crate::pass::{Found, Pass, Why};
use crate::table::FrameTable;
use ksm_base::PageBytes;

/// The answer to a lookup that compares.
pub enum FoundEqual {
    /// The frame is held, and each of its words is the page's.
    Held(Held),
    /// The frame is held, and a word of it is not the page's.
    Differs(Held),
    /// There was nothing to hold.
    Gone(Pass, Why),
    /// As many exchanges as the shape's `tries` were lost to other seats.
    Busy(Pass),
}

// Whether the words of the hold are those of the page. It reads up to the first that is not.
fn compare(held: &mut Held, table: &FrameTable, page: &PageBytes) -> bool
    requires own { held.old.table ≡ table.now }
    ensures { Compares page.now held.old result held.new }
{
    for i in 0..page.len() {
        if held.word(table, i) != page[i] {
            return false;
        }
    }
    true
}

impl Pass {
    /// Looks a place up as `find` does, and compares the words of the frame that it names with the page.
    pub fn find_equal(self, table: &FrameTable, place: u32, page: &PageBytes) -> FoundEqual
        requires own { self.table ≡ table.now }
        requires inside { place < frames_of table.now.shape }
        ensures { LooksUpEqual self place page.now result }
    {
        match self.find(table, place) {
            Found::Held(mut held) => {
                if compare(&mut held, table, page) {
                    FoundEqual::Held(held)
                } else {
                    FoundEqual::Differs(held)
                }
            }
            Found::Gone(pass, why) => FoundEqual::Gone(pass, why),
            Found::Busy(pass) => FoundEqual::Busy(pass),
        }
    }
}
