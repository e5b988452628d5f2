//! Room for one value more. A small slab doubles; a large one grows by a quarter, so that it leaves less of it empty.

ghost use Rattle.std.specs.Prelude.{◌≡◌, IsOk, OnOk};
ghost use Rattle.slab.specs.Slab.{HasRoomFor};
ghost use Rattle.ksm_tree.specs.Faults.{FailsForMemory};

use ksm_base::Fault;
use slab::Slab;

/// From so many values on a slab grows by a quarter.
const LARGE: usize = 65_536;

/// Takes room for one value more, or for more of them. The one fault is `Memory`.
pub fn reserve_one<T>(slab: &mut Slab<T>) -> Result<(), Fault>
    ensures room { OnOk result (HasRoomFor slab.new 1) }
    ensures succeeds { HasRoomFor slab.old 1 → IsOk result }
    ensures rest { slab.new ≡ record slab.old { capacity = slab.new.capacity } }
    ensures memory { FailsForMemory result }
{
    let len = slab.len();
    if len < LARGE || len < slab.capacity() {
        slab.reserve(1)?;
    } else {
        slab.reserve_exact(len / 4)?;
    }
    Ok(())
}
