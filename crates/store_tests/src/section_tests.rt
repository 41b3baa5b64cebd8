//! Sections of a store: what is refused, what is kept, and when the log is full.
use crate::stores::{SECTION, Told, acq, first_other, fresh, is_closed, kept, one, put, rel};
use block_disk::MemDisk;
use durable::{Home, Store, StoreCall, StoreError};
use heap_model::{FieldId, Lane};
use std::alloc::Global;

// The store, and why it isn't closed.
fn still_open(store: Store<MemDisk>) -> Option<(Store<MemDisk>, StoreError)> {
    store.close().err()
}

// The first section's steps, up to its release.
fn first_steps() -> [Told; 11] {
    [
        (
            StoreCall::Apply(Lane(2), acq(0, 0)),
            Err(StoreError::BadLane),
        ),
        (one(acq(4, 0)), Err(StoreError::BadId)),
        (one(rel(0, 0)), Err(StoreError::NotNext)),
        (one(acq(0, 1)), Err(StoreError::NotNext)),
        (one(acq(0, 0)), Ok(())),
        (one(put(0, 11, 5)), Err(StoreError::NotNext)),
        (one(put(0, 10, 5)), Ok(())),
        (StoreCall::Log, Ok(())),
        (StoreCall::Settle, Err(StoreError::Unwritten)),
        (StoreCall::Home, Ok(())),
        (StoreCall::Settle, Ok(())),
    ]
}

// The steps behind that release.
fn last_steps() -> [Told; 7] {
    [
        (StoreCall::Log, Ok(())),
        (StoreCall::Settle, Ok(())),
        (one(acq(0, 1)), Ok(())),
        (one(rel(0, 1)), Ok(())),
        (one(acq(0, 2)), Err(StoreError::Worn)),
        (StoreCall::Log, Ok(())),
        (StoreCall::Settle, Ok(())),
    ]
}

// Whether each of these steps answers as it is to, and how many sections are acknowledged then.
type Stepped = (bool, Option<u64>);

fn stepped(store: &mut Store<MemDisk>, steps: &[Told]) -> Stepped {
    let are_so = first_other(store, steps).is_none();
    (are_so, kept(store, 0))
}

// The last steps, and whether the store is closed then.
fn ended(mut store: Store<MemDisk>) -> (Stepped, bool) {
    let last = stepped(&mut store, &last_steps());
    (last, is_closed(store))
}

// Why the store isn't closed behind the release, and what comes then.
fn released(mut store: Store<MemDisk>) -> Option<(Stepped, StoreError, (Stepped, bool))> {
    let release = stepped(&mut store, &[(one(rel(0, 0)), Ok(()))]);
    match still_open(store) {
        Some((store, why)) => Some((release, why, ended(store))),
        None => None,
    }
}

// The first steps, why the store isn't closed behind them, and what comes then.
type TwoSections = (Stepped, StoreError, (Stepped, StoreError, (Stepped, bool)));

fn told_of_two_sections(alloc: Global) -> Option<TwoSections> {
    let mut store = fresh(alloc, 2, 2)?;
    let first = stepped(&mut store, &first_steps());
    let (store, why) = still_open(store)?;
    Some((first, why, released(store)?))
}

// Each refusal of two sections on one object, and what is taken between them.
#[test]
fn two_sections_are_kept(rt: HostRuntime) {
    let ended = ((true, Some(2)), true);
    let released = ((true, Some(0)), StoreError::Unwritten, ended);
    let wanted = ((true, Some(0)), StoreError::Unfinished, released);
    assert!(rt; told_of_two_sections(rt.alloc()) == Some(wanted));
}

// Whether a section is played, how many of its records are logged, and what two home steps do then.
type LoggedHome = (bool, Result<u64, StoreError>, [Result<Home, StoreError>; 2]);

fn logged_and_home(store: &mut Store<MemDisk>) -> LoggedHome {
    let is_played = store.play(&SECTION) == Ok(());
    let logged = store.log_step();
    let first = store.home_step();
    (is_played, logged, [first, store.home_step()])
}

fn told_of_home(alloc: Global) -> Option<LoggedHome> {
    let mut store = fresh(alloc, 2, 2)?;
    let told = logged_and_home(&mut store);
    drop(store);
    Some(told)
}

#[test]
fn a_store_is_logged_and_goes_home(rt: HostRuntime) {
    let home = [Ok(Home::Wrote(FieldId(0))), Ok(Home::Done)];
    assert!(rt; told_of_home(rt.alloc()) == Some((true, Ok(3), home)));
}

// A section of 1,000 records: the acquire, 998 stores, of which the next is refused, and the release.
pub(crate) fn section(store: &mut Store<MemDisk>, number: u64) -> bool {
    let mut taken = store.apply(Lane(0), acq(0, number)) == Ok(());
    for _ in 0..998 {
        taken = taken && store.apply(Lane(0), put(0, 10, 10)) == Ok(());
    }
    taken = taken && store.apply(Lane(0), put(0, 10, 10)) == Err(StoreError::TooLong);
    taken && store.apply(Lane(0), rel(0, number)) == Ok(())
}

// So many sections of 1,000 records, if each is taken.
fn are_sections(store: &mut Store<MemDisk>, count: u64) -> bool {
    for number in 0..count {
        if !section(store, number) {
            return false;
        }
    }
    true
}

// Whether four sections are taken; what one more answers, and how many records are logged; and whether it is taken once
// those are trimmed.
type Fifth = (bool, Result<(), StoreError>, Result<u64, StoreError>, bool);

fn fifth_section(store: &mut Store<MemDisk>) -> Fifth {
    let four = are_sections(store, 4);
    let fifth = store.apply(Lane(0), acq(0, 4));
    let logged = store.log_step();
    let calls = [
        StoreCall::Home,
        StoreCall::Settle,
        StoreCall::Trim,
        one(acq(0, 4)),
    ];
    (four, fifth, logged, store.play(&calls) == Ok(()))
}

fn told_of_fifth(alloc: Global) -> Option<Fifth> {
    let mut store = fresh(alloc, 1, 9)?;
    let told = fifth_section(&mut store);
    drop(store);
    Some(told)
}

// An area of 4,000 records takes four sections of 1,000, and a fifth once they are trimmed.
#[test]
fn a_fifth_section_is_too_much(rt: HostRuntime) {
    let wanted = (true, Err(StoreError::LogFull), Ok(4000), true);
    assert!(rt; told_of_fifth(rt.alloc()) == Some(wanted));
}
