//! A second crash, while what the first has left is opened and gone on with: it loses no byte that isn't in flight either.
use crate::sectors::chance::Chance;
use crate::sectors::damage::{Damage, crashed, crashed_bytes};
use crate::sectors::truth::{Truth, stop_between};
use crate::sectors::two_places::{COUNT, Tried, holds, write_some};
use block_disk::{Disk, MemDisk};
use disk_sectors::{SectorSize, SectorsOf, TwoPlaces};
use std::alloc::Global;

// How many devices are tried with each size of sectors and each damage.
const DEVICES: u64 = 100; // tools/quick: 2

// How many second crashes of these devices, one each, lost a byte; `None` where there was no memory.
fn wrong(alloc: Global, size: SectorSize, damage: Damage, devices: u64) -> Option<u64> {
    let mut chance = Chance::new(11);
    let mut wrong: u64 = 0;
    for _ in 0..devices {
        wrong = wrong.saturating_add(live(alloc, size, damage, &mut chance)?);
    }
    Some(wrong)
}

fn live(alloc: Global, size: SectorSize, damage: Damage, chance: &mut Chance) -> Option<u64> {
    let len = (2 * COUNT + 2) * size.bytes();
    let under = MemDisk::new(alloc, len as u64).ok()?;
    let mut disk = TwoPlaces::create(alloc, SectorsOf::new(under, size), COUNT).ok()?;
    let wrong = live_on(alloc, &mut disk, size, damage, chance);
    drop(disk);
    wrong
}

fn live_on(
    alloc: Global,
    disk: &mut Tried,
    size: SectorSize,
    damage: Damage,
    chance: &mut Chance,
) -> Option<u64> {
    let mut truth = Truth::zeros(alloc, COUNT * size.bytes())?;
    let wrong = live_twice(alloc, disk, &mut truth, size, damage, chance);
    drop(truth);
    wrong
}

fn live_twice(
    alloc: Global,
    disk: &mut Tried,
    truth: &mut Truth,
    size: SectorSize,
    damage: Damage,
    chance: &mut Chance,
) -> Option<u64> {
    for _ in 0..chance.below(3) {
        sync_some(disk, truth, chance)?;
        truth.settle();
    }
    let (stop, is_done) = sync_some(disk, truth, chance)?;
    let left = crashed_bytes(alloc, disk.sectors().disk(), stop, size, damage, chance)?;
    let wrong = live_again(alloc, &left, size, damage, truth, is_done, chance);
    drop(left);
    wrong
}

// Writes some bytes and syncs: a stop in that by chance or behind it, and whether it is behind.
fn sync_some(disk: &mut Tried, truth: &mut Truth, chance: &mut Chance) -> Option<(u64, bool)> {
    let before = disk.sectors().disk().stops();
    if !write_some(disk, truth, chance) {
        return None;
    }
    if disk.sync().is_err() {
        return None;
    }
    let after = disk.sectors().disk().stops();
    let stop = stop_between(before, after, chance);
    Some((stop, stop > after))
}

// The second life: whether it finds what it must, and loses nothing at a crash of its own.
fn live_again(
    alloc: Global,
    left: &[u8],
    size: SectorSize,
    damage: Damage,
    truth: &Truth,
    is_done: bool,
    chance: &mut Chance,
) -> Option<u64> {
    let under = MemDisk::from_bytes(alloc, left).ok()?;
    let mut disk = TwoPlaces::open(alloc, SectorsOf::new(under, size), COUNT).ok()?;
    let wrong = go_on(alloc, &mut disk, size, damage, truth, is_done, chance);
    drop(disk);
    wrong
}

fn go_on(
    alloc: Global,
    disk: &mut Tried,
    size: SectorSize,
    damage: Damage,
    truth: &Truth,
    is_done: bool,
    chance: &mut Chance,
) -> Option<u64> {
    let mut found = vec![in alloc; 0u8; truth.bytes.len()].ok()?;
    if disk.read_at(0, &mut found).is_err() || !truth.allows(&found, is_done) {
        drop(found);
        return Some(1);
    }
    let mut now = Truth::holding(alloc, found)?;
    let wrong = crash_again(alloc, disk, &mut now, size, damage, chance);
    drop(now);
    wrong
}

// What a second crash loses, behind some writes and a sync.
fn crash_again(
    alloc: Global,
    disk: &mut Tried,
    now: &mut Truth,
    size: SectorSize,
    damage: Damage,
    chance: &mut Chance,
) -> Option<u64> {
    if !write_some(disk, now, chance) || disk.sync().is_err() {
        return None;
    }
    // From the opening on.
    let after = disk.sectors().disk().stops();
    let stop = stop_between(0, after, chance);
    let last = crashed(alloc, disk.sectors().disk(), stop, size, damage, chance)?;
    if holds(alloc, last, now, stop > after) {
        Some(0)
    } else {
        Some(1)
    }
}

#[test]
fn no_second_crash_loses_a_byte_that_is_not_in_flight(rt: HostRuntime) {
    let sizes = [SectorSize::Bytes512, SectorSize::Bytes4096];
    let models = [
        Damage::OldOrNew,
        Damage::Torn,
        Damage::AnyBytes,
        Damage::Unreadable,
    ];
    for size in sizes {
        for damage in models {
            assert_eq!(rt;
                wrong(rt.alloc(), size, damage, DEVICES),
                Some(0),
                "{size:?}, {damage:?}"
            );
        }
    }
}
