//! Insertions and removals that move many elements at once.
ghost use Rattle.std.specs.Prelude.{◌≡◌, ◌<◌, ◌≤◌, ◌-◌, List, [], ◌∷◌, ◌++◌, OnErr, OnOk, drop, insert, length, remove, take};

use std::alloc::AllocError;

/// Puts an element at an index, and moves those from there on up by one. Where memory for it is refused, all stay.
pub fn insert_at<T: Copy>(items: &mut Vec<T>, at: usize, item: T) -> Result<(), AllocError>
    requires { at ≤ length items.old.items }
    ensures put { OnOk result (items.new.items ≡ insert items.old.items at item) }
    ensures kept { OnErr result (items.new.items ≡ items.old.items) }
{
    items.push(item)?;
    move_last(items.as_mut_slice(), at);
    Ok(())
}

// More elements than so many are moved by `memmove`, whose call is dear for fewer. The kit's vectors always call it for
// `insert` and `remove`.
const FAR: usize = 48;

/// The last element comes to stand at an index, and those from there on move up by one.
#[inline]
pub fn move_last<T: Copy>(items: &mut [T], at: usize)
    requires { at < length items.old }
    ensures { (others : List T) (item : T) → items.old ≡ others ++ item ∷ [] → items.new ≡ insert others at item }
{
    let last = items.len() - 1;
    if last - at > FAR {
        turn(items, at, last - at);
    } else if at < last {
        let item = items[last];
        items.copy_within(at..last, at + 1);
        items[at] = item;
    }
}

/// Those behind an index move down by one, over the element there. What stands in the last place then is not told.
#[tactic(auto, using(crate::proofs::Places::turned_down))]
#[inline]
pub fn move_down<T: Copy>(items: &mut [T], at: usize)
    requires { at < length items.old }
    ensures same { length items.new ≡ length items.old }
    ensures gone { take (length items.old - 1) items.new ≡ remove items.old at }
{
    if items.len() - at > FAR {
        turn(items, at, 1);
    } else {
        items.copy_within(at + 1.., at);
    }
}

// Of the elements from an index on the first so many come behind the others.
#[inline(never)]
fn turn<T: Copy>(items: &mut [T], at: usize, first: usize)
    requires within { at ≤ length items.old }
    requires first { first ≤ length items.old - at }
    ensures { let rest = drop at items.old in items.new ≡ take at items.old ++ (drop first rest ++ take first rest) }
{
    items[at..].rotate_left(first);
}
