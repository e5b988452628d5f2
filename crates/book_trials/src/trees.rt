//! The trees of the book: the pages that wait, the dups with their items, and the items themselves.
ghost use Rattle.std.specs.Prelude.{◌≡◌};

use ksm_base::{Fault, GuestPage, MOST_REFERENCES, PageBytes};
use ksm_rmap::Items;
use ksm_tree::{Choice, Dups, Waiting};
use std::alloc::Global;
use std::test::Fail;

fn page(number: u32) -> GuestPage
    ensures { result ≡ record { guest = 3; page = number } }
{
    GuestPage {
        guest: 3,
        page: number,
    }
}

fn bytes(word: u64) -> PageBytes {
    [word; ksm_base::PAGE_WORDS]
}

#[test]
fn one_page_waits_for_each_content(rt: HostRuntime) -> Result<(), Fail> {
    let mut waiting = Waiting::new(rt.alloc());
    assert!(rt; waiting.find_or_add(0, &bytes(7), page(1))? == page(1));
    assert!(rt; waiting.find_or_add(0, &bytes(7), page(2))? == page(1));
    assert!(rt; waiting.find_or_add(1, &bytes(7), page(2))? == page(2));
    waiting.remove(0, &bytes(7));
    assert!(rt; waiting.find_or_add(0, &bytes(7), page(3))? == page(3));
    assert!(rt; waiting.find_or_add(1, &bytes(7), page(3))? == page(2));
    waiting.clear();
    assert!(rt; waiting.find_or_add(1, &bytes(7), page(4))? == page(4));
    Ok(())
}

#[test]
fn pages_join_a_dup(rt: HostRuntime) -> Result<(), Fail> {
    let mut dups = Dups::open(rt.alloc(), 2)?;
    assert!(rt; dups.choose_place() == Choice::Empty(0));
    dups.new_dup(0, 0, &bytes(7), page(4), page(2))?;
    dups.join(0, page(9))?;
    assert!(rt; dups.items(0) == 3 && dups.item(0, 2) == page(9));
    assert!(rt; is_best_below(&dups, 4) && !is_best_below(&dups, 3));
    Ok(())
}

// Whether the dup 0, which lies at the place 0, is the best one for a page of sevens, under this limit.
fn is_best_below(dups: &Dups, limit: u32) -> bool {
    let best = dups.best(0, &bytes(7), limit);
    let row = dups.live_at(0);
    best == Some(0) && row.is_some_and(|row| row.number == 0)
}

// How many dups are in chains, how many chains there are, and how many dups have items and have none.
fn counts(dups: &Dups) -> [usize; 4] {
    [
        dups.count_grouped(),
        dups.count_chains(),
        dups.count_shared(),
        dups.count_stale(),
    ]
}

// Whether the dup at the place 0 is live; the place that is told as stale; and what lies at the place 0.
fn shown(dups: &Dups) -> (bool, Option<u32>, Option<u64>) {
    (dups.live_at(0).is_some(), dups.stale(), dups.at(0))
}

// A dup of two pages at the first of two places.
fn paired(alloc: Global) -> Result<Dups, Fault> {
    let mut dups = Dups::open(alloc, 2)?;
    dups.new_dup(0, 0, &bytes(7), page(4), page(2))?;
    Ok(dups)
}

// A page leaves the dup. Answers what is shown then.
fn left(dups: &mut Dups, number: u32) -> ((bool, Option<u32>, Option<u64>), [usize; 4]) {
    let _ = dups.leave(0, page(number));
    (shown(dups), counts(dups))
}

// A dup alone is no chain, and stale once both pages have left it. That it goes then, a pruning of the book shows.
#[test]
fn a_dup_that_all_left_is_stale(rt: HostRuntime) -> Result<(), Fail> {
    let mut dups = paired(rt.alloc())?;
    assert!(rt; left(&mut dups, 4) == ((true, None, Some(0)), [0, 0, 1, 0]));
    assert!(rt; left(&mut dups, 2) == ((false, Some(0), Some(0)), [0, 0, 0, 1]));
    Ok(())
}

fn add(items: &mut Items, page: GuestPage) -> Result<(), Fault> {
    if (items.len() as u64) < MOST_REFERENCES && !items.contains(page) {
        items.add(page)?;
    }
    Ok(())
}

// The numbers of the first ten pages.
fn numbers(pages: &[GuestPage]) -> [u32; 10] {
    let mut numbers = [0; 10];
    for (number, page) in numbers.iter_mut().zip(pages.iter()) {
        *number = page.page;
    }
    numbers
}

// Ten pages of guest 3 and one of guest 0, of which one goes again.
#[test]
fn items_stand_in_order(rt: HostRuntime) -> Result<(), Fail> {
    let mut items = Items::new(rt.alloc());
    for number in [9, 3, 7, 1, 10, 2, 8, 4, 6, 5] {
        add(&mut items, page(number))?;
    }
    let first = GuestPage { guest: 0, page: 11 };
    add(&mut items, first)?;
    let removed = [items.remove(page(7)), items.remove(page(7))];
    assert!(rt; removed == [true, false] && items.contains(page(8)));
    let told = numbers(items.pages(rt.alloc())?.as_slice());
    assert!(rt; told == [11, 1, 2, 3, 4, 5, 6, 8, 9, 10]);
    assert!(rt; items.len() == 10 && items.at(0) == first && items.at(6) == page(6));
    Ok(())
}
