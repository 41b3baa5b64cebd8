//! Crashes at each call of a device, while a store writes and while an image is recovered.
use super::runs::{acq, crashed, new_store, one, put, rel, released, two, two_stores, wait};
use block_disk::{Fill, MemDisk};
use durable::StoreCall;
use recover::recover;
use std::alloc::Global;

// Recovers the disk to the heap before all stores, and gives it back. None where recovery answers otherwise.
fn recovered(alloc: Global, disk: MemDisk) -> Option<MemDisk> {
    let (recovered, report) = recover(alloc, disk).ok()?;
    drop(report);
    if recovered.heap() != [10, 20].as_slice() {
        drop(recovered);
        return None;
    }
    Some(recovered.into_disk())
}

// Recovers what a crash leaves that comes with call `k` begun.
fn recovered_at(alloc: Global, disk: &MemDisk, k: u64, fill: Fill) -> Option<MemDisk> {
    let image = disk.crash_image(k, fill).ok()??;
    recovered(alloc, image)
}

// Whether each crash with this fill while the disk was written is recovered so.
fn survives(alloc: Global, disk: &MemDisk, fill: Fill) -> bool {
    for k in 1..disk.stops().saturating_add(2) {
        let Some(again) = recovered_at(alloc, disk, k, fill) else {
            return false;
        };
        drop(again);
    }
    true
}

// The same of a crash behind which each crash is recovered so while what the first one left is recovered.
fn survives_another(alloc: Global, disk: &MemDisk, k: u64, fill: Fill) -> bool {
    match recovered_at(alloc, disk, k, fill) {
        Some(again) => {
            let survived = survives(alloc, &again, fill);
            drop(again);
            survived
        }
        None => false,
    }
}

// Of how many first crashes in a row one is tried.
const STRIDE: u64 = 1; // tools/quick: 4

fn survives_twice(alloc: Global, disk: &MemDisk, fill: Fill) -> bool {
    for k in 1..disk.stops().saturating_add(2) {
        if k % STRIDE == 0 && !survives_another(alloc, disk, k, fill) {
            return false;
        }
    }
    true
}

// Recovers what two sections with a store leave.
fn recovered_stores(alloc: Global) -> Option<MemDisk> {
    recovered(alloc, crashed(alloc, &two_stores(), Fill::Lost)?)
}

// How many calls of the device that takes.
fn calls_of_recovery(alloc: Global) -> Option<u64> {
    let disk = recovered_stores(alloc)?;
    let stops = disk.stops();
    drop(disk);
    Some(stops)
}

// A sync, a write of the one field that is put back, a sync, and six calls of a commit, as both gates are open.
#[test]
fn recovery_makes_the_documented_calls(rt: HostRuntime) {
    assert!(rt; calls_of_recovery(rt.alloc()) == Some(9));
}

// Whether crashes at each of these calls, and at each call of the recovery of what that leaves, are recovered, by fill.
fn survived_twice(alloc: Global) -> Option<[bool; 4]> {
    let disk = recovered_stores(alloc)?;
    let survived = [
        survives_twice(alloc, &disk, Fill::Lost),
        survives_twice(alloc, &disk, Fill::Kept),
        survives_twice(alloc, &disk, Fill::Byte(0)),
        survives_twice(alloc, &disk, Fill::Byte(255)),
    ];
    drop(disk);
    Some(survived)
}

#[test]
fn a_recovery_cut_off_twice_is_recovered(rt: HostRuntime) {
    assert!(rt; survived_twice(rt.alloc()) == Some([true; 4]));
}

// The two values that recovery gives of what a crash leaves that comes with call `k` begun.
fn heap_at(alloc: Global, disk: &MemDisk, k: u64, fill: Fill) -> Option<(u64, u64)> {
    let image = disk.crash_image(k, fill).ok()??;
    let (recovered, report) = recover(alloc, image).ok()?;
    drop(report);
    let heap = match recovered.heap() {
        [first, second] => Some((*first, *second)),
        _ => None,
    };
    drop(recovered);
    heap
}

// The disk of a store that makes these calls and trims.
fn trimmed(alloc: Global, calls: &[StoreCall]) -> Option<MemDisk> {
    let mut store = new_store(alloc)?;
    let is_played = store.play(calls).is_ok() && store.play(&[StoreCall::Trim]).is_ok();
    if !is_played {
        drop(store);
        return None;
    }
    Some(store.into_disk())
}

// Since which call of the device each crash behind the 13 calls of the format leaves the first field this value, and before
// that the one at format; and how many calls there are. None where a crash leaves another heap.
fn stored_since(alloc: Global, disk: &MemDisk, value: u64, fill: Fill) -> Option<(u64, u64)> {
    let mut since = 0;
    for k in 14..disk.stops().saturating_add(2) {
        let heap = heap_at(alloc, disk, k, fill)?;
        if since == 0 && heap == (value, 20) {
            since = k;
        }
        if heap != if since == 0 { (10, 20) } else { (value, 20) } {
            return None;
        }
    }
    Some((since, disk.stops()))
}

// The same of each fill, where a store makes these calls and trims.
fn stored_by_fill(
    alloc: Global,
    calls: &[StoreCall],
    value: u64,
) -> Option<[Option<(u64, u64)>; 4]> {
    let disk = trimmed(alloc, calls)?;
    let since = [
        stored_since(alloc, &disk, value, Fill::Lost),
        stored_since(alloc, &disk, value, Fill::Kept),
        stored_since(alloc, &disk, value, Fill::Byte(0)),
        stored_since(alloc, &disk, value, Fill::Byte(255)),
    ];
    drop(disk);
    Some(since)
}

// Two logs of 12 and 8 calls, a home write and two settlings of 7: the gate of the last is opened by call 47, and the sync behind
// that is call 48. A trim of 6 calls comes behind it.
#[test] // tools/quick: not
fn a_trim_changes_no_heap(rt: HostRuntime) {
    let (late, early) = (Some((49, 54)), Some((47, 54)));
    let wanted = Some([late, early, late, late]);
    assert!(rt; stored_by_fill(rt.alloc(), &released(), 2) == wanted);
}

// A wait ends the first section. Logs of 8 and 11 calls, a home write and two settlings of 7: the gate of the first is opened
// by call 28.
#[test] // tools/quick: not
fn a_trim_behind_a_wait_changes_no_heap(rt: HostRuntime) {
    let calls = [
        one(acq(0, 0)),
        one(put(0, 10, 7)),
        one(wait(0, 0)),
        StoreCall::Log,
        StoreCall::Home,
        StoreCall::Settle,
        two(acq(0, 1)),
        two(rel(0, 1)),
        one(acq(0, 2)),
        one(rel(0, 2)),
        StoreCall::Log,
        StoreCall::Settle,
    ];
    let (late, early) = (Some((30, 53)), Some((28, 53)));
    let wanted = Some([late, early, late, late]);
    assert!(rt; stored_by_fill(rt.alloc(), &calls, 7) == wanted);
}
