//! Four callers keep one journal, and one caller makes each locked read.
use crate::books::{Trial, in_book};
use crate::commands::{
    DONE, SHAPE, TWO_MERGED, all_done, filled, merge_two, page, register, store,
};
use ksm_base::{Fault, Knobs, PLACE_SPAN};
use ksm_shared::{GatherFault, Ksm, Naming, Parts, Share, Tally, gather};
use std::alloc::Global;
use std::sync::{MutexGuard, Wait};
use std::test::Fail;
use std::thread::{Threads, join};

// The byte of a caller's j-th store.
fn byte_of(guest: u16, j: u8) -> u8 {
    ((guest % 4) as u8 * 50).saturating_add(j)
}

// A caller registers its page, stores to it 100 times, and stores to a page that is not there. It answers whether all
// went so.
fn work<N: Naming>(
    rt: &impl Wait,
    ksm: &Ksm<N>,
    mut share: Share<N>,
    guest: u16,
) -> (Share<N>, bool) {
    let mut right = ksm.carry_out(rt, &mut share, &register(guest, 0, 0)) == DONE;
    for j in 1..101u8 {
        let command = store(guest, 0, byte_of(guest, j));
        right &= ksm.carry_out(rt, &mut share, &command) == DONE;
    }
    let missing = ksm.carry_out(rt, &mut share, &store(guest, 9, 1));
    (share, right && missing == Err(Fault::UnknownPage))
}

// Four callers in a thread each. Answers one share, if all went right; the others are back in the vector.
fn four_at_once<N: Naming + Send + Sync, R: Threads + Wait + Sync>(
    rt: &R,
    ksm: &Ksm<N>,
    shares: &mut Vec<Share<N>>,
) -> Option<Share<N>> {
    let three = shares.pop()?;
    let two = shares.pop()?;
    let one = shares.pop()?;
    let zero = shares.pop()?;
    let ((zero, one), (two, three)) = join(
        rt,
        || join(rt, || work(rt, ksm, zero, 0), || work(rt, ksm, one, 1)),
        || join(rt, || work(rt, ksm, two, 2), || work(rt, ksm, three, 3)),
    );
    let right = zero.1 && one.1 && two.1 && three.1;
    shares.push(zero.0).ok()?;
    shares.push(one.0).ok()?;
    shares.push(two.0).ok()?;
    right.then_some(three.0)
}

// Whether each caller's page has its last store.
fn all_read<N: Naming>(rt: &impl Wait, ksm: &Ksm<N>, share: &mut Share<N>) -> bool {
    let mut all = true;
    for guest in 0..4 {
        let bytes = ksm.read(rt, share, page(guest, 0));
        all &= bytes == Some(filled(byte_of(guest, 100)));
    }
    all
}

/// What the shares of four callers tell together. Without one of them they tell nothing.
pub fn four_work<N: Naming + Send + Sync, R: Threads + Wait + Sync>(
    rt: &R,
    ksm: &Ksm<N>,
    mut shares: Vec<Share<N>>,
) -> Option<Tally<N>> {
    let mut last = four_at_once(rt, ksm, &mut shares)?;
    if !all_read(rt, ksm, &mut last) {
        return None;
    }
    let GatherFault::Missing(mut shares) = gather(rt, ksm, shares).err()?;
    if shares.len() != 3 {
        return None;
    }
    shares.push(last).ok()?;
    gather(rt, ksm, shares).ok()
}

// Four callers keep one journal: each has its 102 entries there.
#[test]
fn four_callers_keep_one_journal(rt: HostRuntime) -> Result<(), Fail> {
    let parts = Parts::open(rt.alloc(), SHAPE, 4)?;
    assert!(rt; in_book(&rt, rt.alloc(), parts, Trial::FourWork)?.entries == 408);
    Ok(())
}

// Whether the pages of a merged one, and of one that is not there, are told as they are.
fn pages_told<N: Naming>(rt: &impl Wait, ksm: &Ksm<N>, share: &mut Share<N>) -> bool {
    ksm.read(rt, share, page(0, 1)) == Some(filled(10))
        && ksm.read(rt, share, page(0, 2)).is_none()
        && ksm.registered(rt, share, page(0, 1))
        && !ksm.registered(rt, share, page(1, 1))
}

// The same of their tickets.
fn tickets_told<N: Naming>(rt: &impl Wait, ksm: &Ksm<N>, share: &mut Share<N>) -> bool {
    ksm.ticket(rt, share, page(0, 1)) == Some(0)
        && ksm.ticket_if_known(rt, share, page(0, 1)) == Some(Some(0))
        && ksm.ticket_if_known(rt, share, page(1, 1)).is_none()
}

// The same of the counters, the knobs and the pages that are mapped from the dup.
fn state_told<N: Naming>(
    rt: &impl Wait,
    alloc: Global,
    ksm: &Ksm<N>,
    share: &mut Share<N>,
) -> bool {
    let knobs = Knobs {
        run: 1,
        ..Knobs::DEFAULT
    };
    let mappers = match ksm.mappers(rt, alloc, share, 0) {
        Ok(Some(pages)) => pages.len(),
        _ => 0,
    };
    mappers == 2 && ksm.counters(rt, share) == TWO_MERGED && ksm.knobs(rt, share) == knobs
}

/// Whether the locked reads of two merged pages answer as they should.
pub fn reads<N: Naming>(rt: &impl Wait, alloc: Global, ksm: &Ksm<N>, share: &mut Share<N>) -> bool {
    merge_two(rt, ksm, share)
        && pages_told(rt, ksm, share)
        && tickets_told(rt, ksm, share)
        && state_told(rt, alloc, ksm, share)
}

#[test]
fn one_caller_makes_each_locked_read(rt: HostRuntime) -> Result<(), Fail> {
    let parts = Parts::open(rt.alloc(), SHAPE, 1)?;
    let outcome = in_book(&rt, rt.alloc(), parts, Trial::Reads)?;
    assert!(rt; outcome.right && outcome.entries == 4);
    assert!(rt; (outcome.place, outcome.count) == (PLACE_SPAN, 2));
    Ok(())
}

/// Whether the journal tells, under the lock, that it is kept or is not, and its one entry if it is.
pub fn entries_told<N: Naming>(
    rt: &impl Wait,
    ksm: &Ksm<N>,
    share: &mut Share<N>,
    kept: bool,
) -> bool {
    let done = ksm.carry_out(rt, share, &register(0, 0, 10)) == DONE;
    let merge = ksm.lock(rt);
    let journal = merge.book().journal();
    let told = (journal.is_kept(), journal.get(0), journal.get(1));
    MutexGuard::unlock(merge);
    let first = kept.then_some((register(0, 0, 10), DONE));
    done && told == (kept, first, None)
}

// A book that keeps its journal tells an entry under the lock.
#[test]
fn kept_journal_is_read_under_the_lock(rt: HostRuntime) -> Result<(), Fail> {
    let parts = Parts::open(rt.alloc(), SHAPE, 1)?.keeping_journal();
    assert!(rt; in_book(&rt, rt.alloc(), parts, Trial::Entries(true))?.right);
    Ok(())
}

// One that is opened with no more words counts its entries, and tells none.
#[test]
fn journal_is_counted_if_nothing_is_said(rt: HostRuntime) -> Result<(), Fail> {
    let parts = Parts::open(rt.alloc(), SHAPE, 1)?;
    assert!(rt; in_book(&rt, rt.alloc(), parts, Trial::Entries(false))?.right);
    Ok(())
}

/// Two pages are merged, and each gets bytes of its own. Whether all went so.
pub fn leaves<N: Naming>(rt: &impl Wait, ksm: &Ksm<N>, share: &mut Share<N>) -> bool {
    let stores = [store(0, 0, 1), store(0, 1, 2)];
    merge_two(rt, ksm, share) && all_done(rt, ksm, share, &stores)
}

// The dup that both pages have left is stale, and stands until a command drops it. Closing the book is no command.
#[test]
fn closing_drops_no_stale_dup(rt: HostRuntime) -> Result<(), Fail> {
    let parts = Parts::open(rt.alloc(), SHAPE, 1)?;
    let outcome = in_book(&rt, rt.alloc(), parts, Trial::Leaves)?;
    assert!(rt; outcome.right && outcome.place == PLACE_SPAN);
    Ok(())
}
