//! What a crash at each call of the device shows: what was before a step, or what is after it.
use crate::stores::{acq, one, played, put, rel, two, wait};
use block_disk::{Disk, Fill, MemDisk};
use durable::StoreCall;
use heap_model::{Lane, UndoRecord};
use image::{Control, LaneRow, Layout, choose_control};
use std::alloc::Global;
use undo_log::read;

const FILLS: [Fill; 4] = [Fill::Lost, Fill::Kept, Fill::Byte(0), Fill::Byte(255)];

// What a device shows: its control, and the live records of its two lanes, one lane behind the other.
#[derive(PartialEq, Drop)]
struct Contents {
    control: Control,
    records: Vec<UndoRecord>,
}

// The live records of the lane, if it may have this row.
fn live(
    alloc: Global,
    disk: &mut MemDisk,
    layout: &Layout,
    lane: u8,
    row: &LaneRow,
) -> Option<Vec<UndoRecord>> {
    if !layout.is_within_limits() || disk.size() < layout.size() || layout.lanes <= lane {
        return None;
    }
    if row.logged < row.start || u64::from(layout.capacity) < row.logged - row.start {
        return None;
    }
    read(alloc, disk, layout, Lane(lane), row.start, row.logged).ok()
}

// Adds those of the second lane.
fn add_live(
    alloc: Global,
    disk: &mut MemDisk,
    layout: &Layout,
    row: &LaneRow,
    records: &mut Vec<UndoRecord>,
) -> Option<()> {
    let others = live(alloc, disk, layout, 1, row)?;
    let added = records.extend_from_slice(&others);
    drop(others);
    added.ok()
}

fn shown(alloc: Global, disk: &mut MemDisk, layout: &Layout) -> Option<Contents> {
    if !layout.is_within_limits() || disk.size() < layout.size() {
        return None;
    }
    let (_, control) = choose_control(disk, layout).ok()?;
    let mut records = live(alloc, disk, layout, 0, &control.rows[0])?;
    if add_live(alloc, disk, layout, &control.rows[1], &mut records).is_none() {
        drop(records);
        return None;
    }
    Some(Contents { control, records })
}

// What a crash that comes with call `k` of the device begun shows.
fn shown_after(
    alloc: Global,
    disk: &MemDisk,
    layout: &Layout,
    k: u64,
    fill: Fill,
) -> Option<Contents> {
    let mut image = disk.crash_image(k, fill).ok()??;
    let contents = shown(alloc, &mut image, layout);
    drop(image);
    contents
}

fn is_one_of(found: &Option<Contents>, old: &Contents, new: &Contents) -> bool {
    match found {
        Some(contents) => *contents == *old || *contents == *new,
        None => false,
    }
}

// Whether each crash that comes with call `k` of the device begun shows one of these.
fn shows_either(
    alloc: Global,
    disk: &MemDisk,
    layout: &Layout,
    k: u64,
    old: &Contents,
    new: &Contents,
) -> bool {
    let mut is_so = true;
    for fill in FILLS {
        let found = shown_after(alloc, disk, layout, k, fill);
        is_so &= is_one_of(&found, old, new);
        drop(found);
    }
    is_so
}

// Whether each crash with a call of the device begun, from behind the first `from`, shows one of these, and a crash behind the
// last shows the latter.
fn shows_either_from(
    alloc: Global,
    disk: &MemDisk,
    layout: &Layout,
    from: u64,
    old: &Contents,
    new: &Contents,
) -> bool {
    let mut is_so = true;
    for k in from..disk.stops() {
        is_so &= shows_either(alloc, disk, layout, k + 1, old, new);
    }
    let behind = disk.stops().saturating_add(1);
    is_so && shows_either(alloc, disk, layout, behind, new, new)
}

// How often the device was called by these calls, and what it shows then.
fn shown_by(alloc: Global, calls: &[StoreCall]) -> Option<(u64, Contents)> {
    let (mut disk, layout) = played(alloc, calls)?;
    let shown = shown(alloc, &mut disk, &layout);
    let stops = disk.stops();
    drop(disk);
    match shown {
        Some(contents) => Some((stops, contents)),
        None => None,
    }
}

// Whether each crash behind the first `from` calls of the device shows this or what it shows in the end, and a crash behind
// the last shows the latter.
fn shows_from(
    alloc: Global,
    disk: &mut MemDisk,
    layout: &Layout,
    from: u64,
    old: &Contents,
) -> bool {
    match shown(alloc, disk, layout) {
        Some(new) => {
            let is_so = shows_either_from(alloc, disk, layout, from, old, &new);
            drop(new);
            is_so
        }
        None => false,
    }
}

// The same of the device on which these calls are made.
fn plays_from(alloc: Global, calls: &[StoreCall], from: u64, old: &Contents) -> bool {
    match played(alloc, calls) {
        Some((mut disk, layout)) => {
            let is_so = shows_from(alloc, &mut disk, &layout, from, old);
            drop(disk);
            is_so
        }
        None => false,
    }
}

// Whether each crash while the last of these calls is made shows what the device shows before that call or after it, and a
// crash behind it shows the latter.
fn is_last_atomic(alloc: Global, calls: &[StoreCall]) -> bool {
    let Some((_, earlier)) = calls.split_last() else {
        return false;
    };
    match shown_by(alloc, earlier) {
        Some((from, old)) => {
            let is_so = plays_from(alloc, calls, from, &old);
            drop(old);
            is_so
        }
        None => false,
    }
}

// Whether each of these calls is so.
fn are_all_atomic(alloc: Global, calls: &[StoreCall]) -> bool {
    (0..calls.len()).all(|end| is_last_atomic(alloc, &calls[..end + 1]))
}

// The acknowledged sections of the two lanes behind the first so many calls.
fn kept_after(alloc: Global, calls: &[StoreCall], count: usize) -> Option<[u64; 2]> {
    let (_, contents) = shown_by(alloc, calls.get(..count)?)?;
    let rows = contents.control.rows;
    drop(contents);
    Some([rows[0].kept, rows[1].kept])
}

// Whether all calls are atomic, and the acknowledged sections behind the first so many and behind all.
fn told_of_crashes(
    alloc: Global,
    calls: &[StoreCall],
    first: usize,
) -> (bool, [Option<[u64; 2]>; 2]) {
    let begun = kept_after(alloc, calls, first);
    let ended = kept_after(alloc, calls, calls.len());
    (are_all_atomic(alloc, calls), [begun, ended])
}

// The second thread's section depends on the first one's, which ends after the first settling.
#[test] // tools/quick: not
fn a_dependent_section_waits(rt: HostRuntime) {
    let calls = [
        one(acq(0, 0)),
        one(acq(1, 0)),
        one(put(0, 10, 1)),
        one(rel(0, 0)),
        two(acq(0, 1)),
        two(put(0, 1, 2)),
        two(rel(0, 1)),
        StoreCall::Log,
        StoreCall::Home,
        StoreCall::Settle,
        one(rel(1, 0)),
        StoreCall::Log,
        StoreCall::Settle,
        StoreCall::Trim,
    ];
    let kept = [Some([0, 0]), Some([1, 1])];
    assert!(rt; told_of_crashes(rt.alloc(), &calls, 10) == (true, kept));
}

// Each of two sections depends on the other.
#[test] // tools/quick: not
fn two_sections_wait_for_each_other(rt: HostRuntime) {
    let calls = [
        one(acq(0, 0)),
        one(acq(1, 0)),
        one(rel(1, 0)),
        two(acq(2, 0)),
        two(acq(1, 1)),
        two(rel(2, 0)),
        one(acq(2, 1)),
        one(rel(2, 1)),
        one(rel(0, 0)),
        StoreCall::Log,
        StoreCall::Settle,
        two(rel(1, 1)),
        StoreCall::Log,
        StoreCall::Settle,
    ];
    let kept = [Some([0, 0]), Some([1, 1])];
    assert!(rt; told_of_crashes(rt.alloc(), &calls, 11) == (true, kept));
}

// A wait that frees the thread's one monitor ends its section.
#[test] // tools/quick: not
fn a_wait_ends_a_section(rt: HostRuntime) {
    let calls = [
        one(acq(0, 0)),
        one(put(0, 10, 7)),
        one(wait(0, 0)),
        StoreCall::Log,
        StoreCall::Home,
        StoreCall::Settle,
        two(acq(0, 1)),
        two(rel(0, 1)),
        one(acq(0, 2)),
        one(rel(0, 2)),
        StoreCall::Log,
        StoreCall::Settle,
        StoreCall::Trim,
    ];
    let kept = [Some([1, 0]), Some([2, 1])];
    assert!(rt; told_of_crashes(rt.alloc(), &calls, 6) == (true, kept));
}

// By lane the first place that isn't trimmed and those behind what is settled and what is logged; and how many records are
// live in all.
fn places(alloc: Global, calls: &[StoreCall]) -> Option<[u64; 7]> {
    let (_, found) = shown_by(alloc, calls)?;
    let [first, second] = [found.control.rows[0], found.control.rows[1]];
    let live = found.records.len() as u64;
    drop(found);
    Some([
        first.start,
        first.settled,
        first.logged,
        second.start,
        second.settled,
        second.logged,
        live,
    ])
}

// The places behind these calls, and whether the last of them is atomic.
fn places_and_last(alloc: Global, calls: &[StoreCall]) -> Option<([u64; 7], bool)> {
    Some((places(alloc, calls)?, is_last_atomic(alloc, calls)))
}

// The second thread's section stays open, and the first one's second section depends on it. A trim goes up to what is settled,
// and what is live behind that stays, until the open section has ended and is settled too.
#[test]
fn a_trim_beside_an_open_section_keeps_what_depends_on_it(rt: HostRuntime) {
    let calls = [
        two(acq(1, 0)),
        two(acq(2, 0)),
        two(rel(2, 0)),
        one(acq(0, 0)),
        one(put(0, 10, 5)),
        one(rel(0, 0)),
        one(acq(2, 1)),
        one(rel(2, 1)),
        StoreCall::Log,
        StoreCall::Home,
        StoreCall::Settle,
        StoreCall::Trim,
        two(rel(1, 0)),
        StoreCall::Log,
        StoreCall::Settle,
        StoreCall::Trim,
    ];
    let found = [
        places_and_last(rt.alloc(), &calls[..12]),
        places_and_last(rt.alloc(), &calls),
    ];
    let open = ([3, 3, 5, 0, 0, 3, 5], true);
    let ended = ([5, 5, 5, 4, 4, 4, 0], true);
    assert!(rt; found == [Some(open), Some(ended)]);
}
