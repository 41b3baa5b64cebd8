//! Writes of 16 bytes each by one call of the disk, on a disk in memory: each is a stop of its own.
ghost use Rattle.std.specs.Prelude.{◌≡◌, ◌≤◌, ◌*◌, length};

use block_disk::{Disk, Fault, Fill, MemDisk};
use std::alloc::Global;

// Three units, of ones, twos and threes.
const UNITS: [u8; 48] = [
    1, 1, 1, 1, 1, 1, 1, 1, 1, 1, 1, 1, 1, 1, 1, 1, 2, 2, 2, 2, 2, 2, 2, 2, 2, 2, 2, 2, 2, 2, 2, 2,
    3, 3, 3, 3, 3, 3, 3, 3, 3, 3, 3, 3, 3, 3, 3, 3,
];

// Writes them behind a disk's first two bytes.
fn write_three(disk: &mut MemDisk) -> Result<(), Fault> {
    if disk.size() < 50 {
        return Err(Fault);
    }
    disk.write_units(2, &UNITS, 3)
}

// A disk of 51 bytes whose call of this number fails, on which the units are written; and what that answers.
fn written(alloc: Global, call: u64) -> Option<(MemDisk, Result<(), Fault>)>
    requires { 1 ≤ call }
{
    let mut disk = MemDisk::new(alloc, 51).ok()?;
    disk.fail_call(call);
    let answer = write_three(&mut disk);
    Some((disk, answer))
}

fn three_of(bytes: &[u8]) -> Option<[u8; 3]> {
    Some([*bytes.get(10)?, *bytes.get(26)?, *bytes.get(42)?])
}

// The bytes in the middle of the three places, behind a crash with stop `k` begun.
fn middles(disk: &MemDisk, k: u64, fill: Fill) -> Option<[u8; 3]> {
    let image = disk.crash_image(k, fill).ok()??;
    let found = three_of(image.bytes());
    drop(image);
    found
}

// Whether they are written, how many stops there are, and what crashes leave with each stop begun and with all ended.
fn told_of_stops(alloc: Global) -> Option<(bool, u64, [Option<[u8; 3]>; 5])> {
    let (disk, answer) = written(alloc, 9)?;
    let found = [
        middles(&disk, 1, Fill::Byte(7)),
        middles(&disk, 2, Fill::Byte(7)),
        middles(&disk, 3, Fill::Byte(7)),
        middles(&disk, 4, Fill::Kept),
        middles(&disk, 4, Fill::Lost),
    ];
    let stops = disk.stops();
    drop(disk);
    Some((answer == Ok(()), stops, found))
}

// Each unit's range is pending from its own stop on.
#[test]
fn each_unit_is_a_stop(rt: HostRuntime) {
    let found = [
        Some([7, 0, 0]),
        Some([7, 7, 0]),
        Some([7, 7, 7]),
        Some([1, 2, 3]),
        Some([0, 0, 0]),
    ];
    assert!(rt; told_of_stops(rt.alloc()) == Some((true, 3, found)));
}

// Whether the second of them fails, how many stops there are, and what the disk reads and a crash leaves.
fn told_of_fault(alloc: Global) -> Option<(bool, u64, Option<[u8; 3]>)> {
    let (disk, answer) = written(alloc, 2)?;
    let (stops, found) = (disk.stops(), middles(&disk, 3, Fill::Byte(7)));
    drop(disk);
    Some((answer == Err(Fault), stops, found))
}

// The unit that fails is a stop, its range may hold any bytes, and none is written behind it.
#[test]
fn a_fault_in_a_unit_writes_no_more(rt: HostRuntime) {
    assert!(rt; told_of_fault(rt.alloc()) == Some((true, 2, Some([7, 7, 0]))));
}
