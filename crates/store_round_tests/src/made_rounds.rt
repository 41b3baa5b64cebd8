//! Stores for rounds: what recovery gives of whatever a crash or a fault leaves of them, with a lane for the helper and without one.
ghost use Rattle.std.specs.Prelude.{◌≤◌};

use crate::worked_rounds::{CELL_AT, SIZE, schema_or_none};
use block_disk::{Fill, MemDisk};
use durable::Store;
use heap_model::{FieldId, Lane, ObjectId, Record};
use image::Recovered;
use recover::recover;
use std::alloc::Global;
use store_rounds::RoundStore;

// What is written and not yet durable, but for `Lost`. The byte of an open gate is among these.
const FILLS: [Fill; 4] = [Fill::Kept, Fill::Byte(0), Fill::Byte(165), Fill::Byte(255)];

// Where a store begins: with so many threads, over an image just made, of whose slots one is closed, or over one that recovery left,
// with both open.
#[derive(Clone, Copy)]
struct Start {
    threads: u8,
    recovered: bool,
}

// A call of a store: a record of the first thread's or the second one's, or one that writes.
#[derive(Clone, Copy)]
enum Call {
    One(Record),
    Two(Record),
    Round,
    Flush,
}

fn acq(object: u32, number: u64) -> Record {
    Record::Acq {
        object: ObjectId(object),
        number,
    }
}

fn rel(object: u32, number: u64) -> Record {
    Record::Rel {
        object: ObjectId(object),
        number,
    }
}

fn put(field: u32, before: u64, after: u64) -> Record {
    Record::Put {
        field: FieldId(field),
        before,
        after,
    }
}

fn is_made(store: &mut RoundStore<MemDisk>, call: Call) -> bool {
    match call {
        Call::One(next) => store.apply(Lane(0), next).is_ok(),
        Call::Two(next) => store.apply(Lane(1), next).is_ok(),
        Call::Round => store.round().is_ok(),
        Call::Flush => store.flush().is_ok(),
    }
}

fn are_made(store: &mut RoundStore<MemDisk>, calls: &[Call]) -> bool {
    for call in calls {
        if !is_made(store, *call) {
            return false;
        }
    }
    true
}

// A store over this device, whose first lanes are so many threads'.
fn adopted(alloc: Global, made: Recovered<MemDisk>, threads: u8) -> Option<RoundStore<MemDisk>> {
    let lanes = made.layout().lanes;
    if threads == 0 || threads > lanes || lanes - threads > 1 {
        drop(made);
        return None;
    }
    RoundStore::adopt(alloc, made, threads, 9).ok()
}

// The image as recovery leaves it.
fn left(alloc: Global, image: MemDisk) -> Option<Recovered<MemDisk>> {
    match recover(alloc, image) {
        Ok((made, report)) => {
            drop(report);
            Some(made)
        }
        Err(refused) => {
            drop(refused);
            None
        }
    }
}

// One on this device, with an image of three lanes, two objects and a field of each with 10 and 20.
fn store_on(alloc: Global, disk: MemDisk, start: Start) -> Option<RoundStore<MemDisk>> {
    let Some(schema) = schema_or_none(alloc) else {
        drop(disk);
        return None;
    };
    let made = Store::format(alloc, disk, &schema, 3, 2000).ok();
    drop(schema);
    let made = made?;
    if start.recovered {
        adopted(alloc, left(alloc, made.into_disk())?, start.threads)
    } else {
        adopted(alloc, made, start.threads)
    }
}

// Its device after these calls, and how often it was called by all but the last of them.
fn device_after(alloc: Global, start: Start, calls: &[Call], last: Call) -> Option<(MemDisk, u64)> {
    let mut store = store_on(alloc, MemDisk::new(alloc, SIZE).ok()?, start)?;
    let mut is_so = are_made(&mut store, calls);
    let from = store.disk().stops();
    is_so &= is_made(&mut store, last);
    let disk = store.into_disk();
    if is_so {
        Some((disk, from))
    } else {
        drop(disk);
        None
    }
}

// The heap that recovery gives of this image.
fn recovered(alloc: Global, image: MemDisk) -> Option<[u64; 2]> {
    let made = left(alloc, image)?;
    let heap = heap_of(&made);
    drop(made);
    heap
}

fn heap_of(made: &Recovered<MemDisk>) -> Option<[u64; 2]> {
    Some(*made.heap().as_array::<2>()?)
}

// Whether what a crash leaves that comes with stop `k` of the device begun gives one of these heaps, and the first one where all is
// lost that isn't durable.
fn gives_either(alloc: Global, disk: &MemDisk, k: u64, old: [u64; 2], new: [u64; 2]) -> bool {
    let mut is_so = crashed(alloc, disk, k, Fill::Lost) == Some(old);
    for fill in FILLS {
        let heap = crashed(alloc, disk, k, fill);
        is_so &= heap == Some(old) || heap == Some(new);
    }
    is_so
}

fn crashed(alloc: Global, disk: &MemDisk, k: u64, fill: Fill) -> Option<[u64; 2]> {
    recovered(alloc, disk.crash_image(k, fill).ok()??)
}

// Whether each crash in the last of these calls gives the old heap or the new one, and a crash behind it the new one.
fn turns(
    alloc: Global,
    start: Start,
    calls: &[Call],
    last: Call,
    old: [u64; 2],
    new: [u64; 2],
) -> bool {
    let Some((disk, from)) = device_after(alloc, start, calls, last) else {
        return false;
    };
    let mut is_so = true;
    for k in from..disk.stops() {
        is_so &= gives_either(alloc, &disk, k + 1, old, new);
    }
    let behind = disk.stops().saturating_add(1);
    is_so &= gives_either(alloc, &disk, behind, new, new);
    drop(disk);
    is_so
}

// The first thread stores 5, and the second 7 in a section that it ends later. The first stores to the other field, and once more to
// the first one, in a section that is open over a flush. Then it stays in a section, while the second makes two with a monitor of its
// own.
fn script() -> [Call; 28] {
    [
        Call::One(acq(0, 0)),
        Call::One(put(0, 10, 5)),
        Call::One(rel(0, 0)),
        Call::Two(acq(0, 1)),
        Call::Two(put(0, 5, 7)),
        Call::Round,
        Call::Two(rel(0, 1)),
        Call::One(acq(1, 0)),
        Call::One(put(1, 20, 30)),
        Call::One(rel(1, 0)),
        Call::Round,
        Call::One(acq(0, 2)),
        Call::One(put(0, 7, 8)),
        Call::Flush,
        Call::One(rel(0, 2)),
        Call::Round,
        Call::Flush,
        Call::One(acq(0, 3)),
        Call::One(put(0, 8, 9)),
        Call::Two(acq(1, 1)),
        Call::Two(put(1, 30, 40)),
        Call::Two(rel(1, 1)),
        Call::Round,
        Call::Two(acq(1, 2)),
        Call::Two(put(1, 40, 50)),
        Call::Two(rel(1, 2)),
        Call::Round,
        Call::One(rel(0, 3)),
    ]
}

// Which of these calls write, and the heaps before and after them.
const WRITES: [(usize, [u64; 2], [u64; 2]); 5] = [
    (5, [10, 20], [5, 20]),
    (10, [5, 20], [7, 30]),
    (13, [7, 30], [7, 30]),
    (15, [7, 30], [8, 30]),
    (16, [8, 30], [8, 30]),
];

fn all_turn(alloc: Global, threads: u8, recovered: bool) -> bool {
    let start = Start { threads, recovered };
    let calls = script();
    let mut is_so = true;
    for (place, old, new) in WRITES {
        is_so &= turns(alloc, start, &calls[..place], calls[place], old, new);
    }
    is_so
}

// With a lane for the helper.
#[test] // tools/quick: not
fn a_crash_gives_the_old_heap_or_the_new_one(rt: HostRuntime) {
    assert!(rt; all_turn(rt.alloc(), 2, false));
    assert!(rt; all_turn(rt.alloc(), 2, true));
}

// With three threads, and no lane for the helper.
#[test] // tools/quick: not
fn a_crash_in_a_round_of_two_commits_gives_the_old_heap_or_the_new_one(rt: HostRuntime) {
    assert!(rt; all_turn(rt.alloc(), 3, false));
    assert!(rt; all_turn(rt.alloc(), 3, true));
}

// Whether the first round of the script is made over a device whose call of this number is a fault. None if recovery then gives
// neither the old heap nor the new one, or not the new one of a round that was made.
fn made_with_fault(alloc: Global, threads: u8, call: u64) -> Option<bool>
    requires { 1 ≤ call }
{
    let mut disk = MemDisk::new(alloc, SIZE).ok()?;
    disk.fail_call(call);
    let start = Start {
        threads,
        recovered: false,
    };
    let mut store = store_on(alloc, disk, start)?;
    let calls = script();
    let is_applied = are_made(&mut store, &calls[..5]);
    let is_round = is_made(&mut store, calls[5]);
    let disk = store.into_disk();
    let old = if is_round { [5, 20] } else { [10, 20] };
    let is_so = is_applied
        && gives_either(alloc, &disk, disk.stops().saturating_add(1), old, [5, 20]);
    drop(disk);
    if is_so { Some(is_round) } else { None }
}

// Whether each call from the first of the round's on is a fault that it answers, and the first behind them none.
fn are_answered(alloc: Global, threads: u8, last: u64) -> bool {
    let mut is_so = true;
    for call in 14..=last {
        is_so &= made_with_fault(alloc, threads, call) == Some(false);
    }
    is_so && made_with_fault(alloc, threads, last.saturating_add(1)) == Some(true)
}

// The format takes 13 calls of the device. A round of two syncs takes 10: a write for each of the second thread's 2 records and of the
// helper's 3, a read of the other slot's head, the control's body, a sync, a gate and a sync. One of two commits takes 16: 5 records and
// those of a commit, and then a cell and those of a commit.
#[test] // tools/quick: not
fn a_fault_at_each_call_of_a_round_leaves_the_old_heap_or_the_new_one(rt: HostRuntime) {
    assert!(rt; are_answered(rt.alloc(), 2, 23));
    assert!(rt; are_answered(rt.alloc(), 3, 29));
}

// What the first field's home cell holds after these calls.
fn cell_after(alloc: Global, threads: u8, calls: &[Call], last: Call) -> Option<u64> {
    let start = Start {
        threads,
        recovered: false,
    };
    let (disk, _) = device_after(alloc, start, calls, last)?;
    let cell = cell_of(&disk);
    drop(disk);
    cell
}

fn cell_of(disk: &MemDisk) -> Option<u64> {
    let bytes = disk.bytes().get(CELL_AT as usize..CELL_AT as usize + 8)?;
    Some(u64::from_be_bytes(*bytes.as_array::<8>()?))
}

// Threads, so many calls of the script and one more, and what the first field's cell holds then.
const CELLS: [(u8, usize, Call, u64); 5] = [
    (2, 5, Call::Round, 10),
    (2, 6, Call::Flush, 5),
    (2, 10, Call::Round, 10),
    (2, 11, Call::Flush, 7),
    (3, 5, Call::Round, 5),
];

fn are_cells_so(alloc: Global) -> bool {
    let calls = script();
    let mut are_so = true;
    for (threads, count, last, cell) in CELLS {
        are_so &= cell_after(alloc, threads, &calls[..count], last) == Some(cell);
    }
    are_so
}

// A round of two syncs leaves the kept value in a record of the helper's. The next round brings it home, where its field doesn't change
// again, and a flush does too. Without a lane for the helper a round brings it home itself.
#[test]
fn a_kept_value_comes_home(rt: HostRuntime) {
    assert!(rt; are_cells_so(rt.alloc()));
}
