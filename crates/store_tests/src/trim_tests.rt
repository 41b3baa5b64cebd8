//! What a trim makes room for, and what it keeps where its device fails.
use crate::section_tests::section;
use crate::stores::{SECTION, acq, failing, fresh, fresh_with, kept, rel};
use block_disk::MemDisk;
use durable::{Store, StoreCall, StoreError};
use heap_model::Lane;
use std::alloc::Global;

// Whether so many sections of 1,000 records are taken, and then logged and acknowledged.
fn are_settled(store: &mut Store<MemDisk>, from: u64, count: u64) -> bool {
    let mut are_taken = true;
    for number in from..from.saturating_add(count) {
        are_taken &= section(store, number);
    }
    are_taken && store.log_step().is_ok() && store.home_step().is_ok() && store.settle().is_ok()
}

// The first place of the first lane that wasn't trimmed, and how often the device was called.
fn place_and_calls(store: &Store<MemDisk>) -> (u64, u64) {
    let place = if store.layout().lanes > 0 {
        store.trimmed(Lane(0))
    } else {
        0
    };
    (place, store.disk().stops())
}

// Two sections fill an area of 2,000 records. What is acknowledged of them is trimmed, and a third takes the places of the
// first: whether each step is taken, and the places and calls after it.
fn places_again(store: &mut Store<MemDisk>) -> ([bool; 5], [(u64, u64); 5]) {
    let two = are_settled(store, 0, 2)
        && store.apply(Lane(0), acq(0, 2)) == Err(StoreError::LogFull);
    let settled = place_and_calls(store);
    let first = store.trim().is_ok();
    let trimmed = place_and_calls(store);
    let second = store.trim().is_ok();
    let again = place_and_calls(store);
    let one = are_settled(store, 2, 1);
    let third = place_and_calls(store);
    let last = store.trim().is_ok();
    let steps = [settled, trimmed, again, third, place_and_calls(store)];
    ([two, first, second, one, last], steps)
}

fn told_of_places(alloc: Global) -> Option<([bool; 5], [(u64, u64); 5])> {
    let mut store = fresh_with(alloc, 1, 2000, 9)?;
    let told = places_again(&mut store);
    drop(store);
    Some(told)
}

// The format takes 13 calls; the first two sections 2,000 writes, a sync and a commit of 4, a home write, a sync and a commit of
// 6. Each trim is a commit of 6, and with nothing to move no call.
#[test]
fn a_trim_makes_room(rt: HostRuntime) {
    let steps = [
        (0, 2026),
        (2000, 2032),
        (2000, 2032),
        (2000, 3047),
        (3000, 3053),
    ];
    assert!(rt; told_of_places(rt.alloc()) == Some(([true; 5], steps)));
}

// Whether a section of an acquire and a release is taken.
fn is_short_section(store: &mut Store<MemDisk>, number: u64) -> bool {
    store.apply(Lane(0), acq(0, number)).is_ok() && store.apply(Lane(0), rel(0, number)).is_ok()
}

// How many of so many such sections are taken.
fn short_sections(store: &mut Store<MemDisk>, from: u64, count: u64) -> u64 {
    for number in from..from.saturating_add(count) {
        if !is_short_section(store, number) {
            return number.saturating_sub(from);
        }
    }
    count
}

// The sections that are taken before a trim and after it, those acknowledged, whether it is taken, and the answer to one more.
type ByTrim = (u64, Option<u64>, u64, bool, Result<(), StoreError>);

fn sections_by_trim(store: &mut Store<MemDisk>) -> ByTrim {
    let before = short_sections(store, 0, 2000);
    let calls = [StoreCall::Log, StoreCall::Settle, StoreCall::Trim];
    let is_trimmed = store.play(&calls).is_ok();
    let acknowledged = kept(store, 0);
    let after = short_sections(store, 1501, 2000);
    let more = store.apply(Lane(0), acq(0, 3002));
    (before, acknowledged, after, is_trimmed, more)
}

fn told_by_trim(alloc: Global) -> Option<ByTrim> {
    let mut store = fresh(alloc, 1, 9000)?;
    let told = sections_by_trim(&mut store);
    drop(store);
    Some(told)
}

// An area of 4,000 records begins no section where fewer than 1,000 are left.
#[test]
fn a_trimmed_store_takes_as_many_again(rt: HostRuntime) {
    let full = Err(StoreError::LogFull);
    let wanted = (1501, Some(1501), 1501, true, full);
    assert!(rt; told_by_trim(rt.alloc()) == Some(wanted));
}

// Whether a section is played, logged and settled; how many places are trimmed by a trim whose commit fails; and the answers
// of it and of the calls after it.
type FailedTrim = (bool, u64, [Result<(), StoreError>; 4]);

fn failed_trim(store: &mut Store<MemDisk>) -> FailedTrim {
    let calls = [StoreCall::Log, StoreCall::Home, StoreCall::Settle];
    let is_played = store.play(&SECTION).is_ok() && store.play(&calls).is_ok();
    let first = store.trim();
    let (place, _) = place_and_calls(store);
    let again = store.trim();
    let settled = store.settle();
    let applied = store.apply(Lane(0), acq(0, 1));
    (is_played, place, [first, again, settled, applied])
}

// Before the trim the device is called 31 times, two reads of a gate among them; it reads a gate and closes it, and the 35th
// call writes the control.
fn told_of_failed_trim(alloc: Global) -> Option<FailedTrim> {
    let mut store = failing(alloc, 35, 1)?;
    let told = failed_trim(&mut store);
    drop(store);
    Some(told)
}

#[test]
fn a_trim_whose_device_failed_keeps_its_places(rt: HostRuntime) {
    let failed = Err(StoreError::Failed);
    let answers = [Err(StoreError::Fault), failed, failed, failed];
    assert!(rt; told_of_failed_trim(rt.alloc()) == Some((true, 0, answers)));
}
