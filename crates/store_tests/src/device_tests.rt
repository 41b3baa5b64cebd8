//! How often a store calls its device, and what it answers once a call has failed.
use crate::stores::{SECTION, acq, failing, first_other, one, played, put, rel, two};
use block_disk::MemDisk;
use durable::{Store, StoreCall, StoreError};
use std::alloc::Global;

// Whether a section is played and each call behind it answers so, and how often the device was called.
type FailedLog = ([bool; 2], u64);

fn failed_log(store: &mut Store<MemDisk>) -> FailedLog {
    let is_played = store.play(&SECTION) == Ok(());
    let steps = [
        (StoreCall::Log, Err(StoreError::Fault)),
        (StoreCall::Log, Err(StoreError::Failed)),
        (two(acq(1, 0)), Err(StoreError::Failed)),
        (StoreCall::Home, Err(StoreError::Failed)),
        (StoreCall::Settle, Err(StoreError::Failed)),
    ];
    let are_so = first_other(store, &steps).is_none();
    ([is_played, are_so], store.disk().stops())
}

fn told_of_failed_log(alloc: Global) -> Option<FailedLog> {
    let mut store = failing(alloc, 17, 2)?;
    let told = failed_log(&mut store);
    drop(store);
    Some(told)
}

// The format takes 13 calls of the device and the section's records 3, so the sync behind them is the 17th.
#[test]
fn a_store_whose_device_failed_takes_no_more(rt: HostRuntime) {
    assert!(rt; told_of_failed_log(rt.alloc()) == Some(([true; 2], 17)));
}

// How many calls of the device there were when so many of the calls were made.
fn stops_after(alloc: Global, calls: &[StoreCall], count: usize) -> Option<u64> {
    let (disk, _) = played(alloc, calls.get(..count)?)?;
    let stops = disk.stops();
    drop(disk);
    Some(stops)
}

// The first of these numbers of calls behind which the device was not called so often.
fn first_other_count(alloc: Global, calls: &[StoreCall], steps: &[(usize, u64)]) -> Option<usize> {
    for (count, stops) in steps.iter().copied() {
        if stops_after(alloc, calls, count) != Some(stops) {
            return Some(count);
        }
    }
    None
}

// A commit takes 4 calls where the gate of the other slot is closed, as format leaves it, and else 6.
#[test]
fn calls_of_the_device_are_as_documented(rt: HostRuntime) {
    let [acquire, store, release] = SECTION;
    let calls = [
        acquire,
        store,
        release,
        StoreCall::Log,
        StoreCall::Home,
        StoreCall::Home,
        StoreCall::Settle,
        StoreCall::Log,
        one(acq(0, 1)),
        one(put(0, 5, 6)),
        one(rel(0, 1)),
        StoreCall::Log,
    ];
    let steps = [
        (0, 13),
        (3, 13),
        (4, 21),
        (5, 22),
        (6, 22),
        (7, 29),
        (8, 29),
        (11, 29),
        (12, 39),
    ];
    assert!(rt; first_other_count(rt.alloc(), &calls, &steps).is_none());
}
