//! A device that is larger than its image: format, the steps of a store and recovery write nothing past the image.
use super::runs::{acq, one, put, rel, store_on, stored};
use block_disk::{Fill, MemDisk};
use durable::{Store, StoreCall};
use recover::recover;
use std::alloc::Global;

const FILLS: [Fill; 3] = [Fill::Lost, Fill::Kept, Fill::Byte(0)];

// The size of an image of the common schema with two lanes of 4,000 records, in bytes.
const SIZE: usize = 130_208;

// What stands behind it.
const BEHIND: [u8; 64] = [7; 64];

// A device of as many zeros, and these.
fn larger(alloc: Global) -> Option<MemDisk> {
    let mut bytes = vec![in alloc; 0u8; SIZE].ok()?;
    bytes.extend_from_slice(&BEHIND).ok()?;
    MemDisk::from_bytes(alloc, &bytes).ok()
}

// The second section of the first thread, which is acknowledged and trimmed.
fn second() -> [StoreCall; 7] {
    [
        one(acq(0, 1)),
        one(put(0, 5, 6)),
        one(rel(0, 1)),
        StoreCall::Log,
        StoreCall::Home,
        StoreCall::Settle,
        StoreCall::Trim,
    ]
}

// A third one, which is logged and written home, and not settled.
fn third() -> [StoreCall; 5] {
    [
        one(acq(1, 0)),
        one(put(1, 20, 21)),
        one(rel(1, 0)),
        StoreCall::Log,
        StoreCall::Home,
    ]
}

// Whether each step is made: those of the first section, which is trimmed, those of the second, and a log step and a home step.
fn is_played(store: &mut Store<MemDisk>) -> bool {
    let first = store.play(&stored()).is_ok() && store.play(&[StoreCall::Trim]).is_ok();
    first && store.play(&second()).is_ok() && store.play(&third()).is_ok()
}

// The device of that store.
fn played(alloc: Global) -> Option<MemDisk> {
    let mut store = store_on(alloc, larger(alloc)?)?;
    let is_played = is_played(&mut store);
    let disk = store.into_disk();
    if is_played {
        Some(disk)
    } else {
        drop(disk);
        None
    }
}

// The same once it was recovered, and how many fields took an old value back.
fn recovered(alloc: Global) -> Option<(MemDisk, u32)> {
    let (recovered, report) = recover(alloc, played(alloc)?).ok()?;
    let undone = report.undone;
    drop(report);
    Some((recovered.into_disk(), undone))
}

// Whether these bytes stand behind the image.
fn is_kept(disk: &MemDisk) -> bool {
    match disk.bytes().get(SIZE..) {
        Some(behind) => behind == BEHIND.as_slice(),
        None => false,
    }
}

// Whether they do in what a crash leaves that comes with call `k` begun.
fn is_kept_at(disk: &MemDisk, k: u64, fill: Fill) -> Option<bool> {
    let image = disk.crash_image(k, fill).ok()??;
    let is_so = is_kept(&image);
    drop(image);
    Some(is_so)
}

// Whether they do in each such image with this fill.
fn is_kept_by(disk: &MemDisk, fill: Fill) -> bool {
    for k in 1..disk.stops().saturating_add(2) {
        if is_kept_at(disk, k, fill) != Some(true) {
            return false;
        }
    }
    true
}

// Whether they do with each fill.
fn is_kept_by_each(disk: &MemDisk) -> bool {
    FILLS.iter().all(|fill| is_kept_by(disk, *fill))
}

// How many fields recovery puts back, and whether these bytes stand at the end, and after each crash.
fn told_of_larger(alloc: Global) -> Option<(u32, bool, bool)> {
    let (disk, undone) = recovered(alloc)?;
    let at_end = is_kept(&disk);
    let is_so = is_kept_by_each(&disk);
    drop(disk);
    Some((undone, at_end, is_so))
}

#[test] // tools/quick: not
fn nothing_is_written_behind_the_image(rt: HostRuntime) {
    assert!(rt; told_of_larger(rt.alloc()) == Some((1, true, true)));
}
