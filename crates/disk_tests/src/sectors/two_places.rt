//! Crashes of a disk in two places: none loses a byte that isn't in flight.
use crate::sectors::chance::Chance;
use crate::sectors::damage::{Damage, crashed};
use crate::sectors::truth::{Truth, bytes_of, change, stop_between};
use block_disk::{Disk, MemDisk};
use disk_sectors::{MemSectors, SectorSize, SectorsOf, TwoPlaces};
use std::alloc::Global;

pub(crate) const COUNT: usize = 4;

const SYNCS: u64 = 8;
// How many devices are tried with each size of sectors and each damage.
const DEVICES: u64 = 250; // tools/quick: 2

pub(crate) type Tried = TwoPlaces<SectorsOf<MemDisk>>;

// How many crashes of these devices, eight each, lost a byte; `None` where there was no memory.
fn wrong(alloc: Global, size: SectorSize, damage: Damage, devices: u64) -> Option<u64> {
    let mut chance = Chance::new(7);
    let mut wrong: u64 = 0;
    for _ in 0..devices {
        wrong = wrong.saturating_add(live(alloc, size, damage, &mut chance)?);
    }
    Some(wrong)
}

// How many of one device's crashes did.
fn live(alloc: Global, size: SectorSize, damage: Damage, chance: &mut Chance) -> Option<u64> {
    let len = (2 * COUNT + 2) * size.bytes();
    let under = MemDisk::new(alloc, len as u64).ok()?;
    let mut disk = TwoPlaces::create(alloc, SectorsOf::new(under, size), COUNT).ok()?;
    let wrong = live_on(alloc, &mut disk, size, damage, chance);
    drop(disk);
    wrong
}

fn live_on(
    alloc: Global,
    disk: &mut Tried,
    size: SectorSize,
    damage: Damage,
    chance: &mut Chance,
) -> Option<u64> {
    let mut truth = Truth::zeros(alloc, COUNT * size.bytes())?;
    let wrong = live_by(alloc, disk, &mut truth, size, damage, chance);
    drop(truth);
    wrong
}

fn live_by(
    alloc: Global,
    disk: &mut Tried,
    truth: &mut Truth,
    size: SectorSize,
    damage: Damage,
    chance: &mut Chance,
) -> Option<u64> {
    let mut wrong: u64 = 0;
    for _ in 0..SYNCS {
        if !write_some(disk, truth, chance) {
            return None;
        }
        let before = disk.sectors().disk().stops();
        if disk.sync().is_err() {
            return None;
        }
        let after = disk.sectors().disk().stops();
        let stop = stop_between(before, after, chance);
        let left = crashed(alloc, disk.sectors().disk(), stop, size, damage, chance)?;
        if !holds(alloc, left, truth, stop > after) {
            wrong = wrong.saturating_add(1);
        }
        truth.settle();
    }
    Some(wrong)
}

/// Writes a few runs of bytes by chance.
pub(crate) fn write_some<D: Disk>(disk: &mut D, truth: &mut Truth, chance: &mut Chance) -> bool {
    for _ in 0..1 + chance.below(4) {
        let run = change(truth, chance);
        if disk.write_at(run.at as u64, bytes_of(truth, run)).is_err() {
            return false;
        }
    }
    true
}

/// Whether what a crash has left is opened, and is right.
pub(crate) fn holds(alloc: Global, left: MemSectors, truth: &Truth, are_all_durable: bool) -> bool {
    match TwoPlaces::open(alloc, left, COUNT) {
        Ok(mut disk) => {
            let is_right = reads(alloc, &mut disk, truth, are_all_durable);
            drop(disk);
            is_right
        }
        Err(_) => false,
    }
}

fn reads<D: Disk>(alloc: Global, disk: &mut D, truth: &Truth, are_all_durable: bool) -> bool {
    match vec![in alloc; 0u8; truth.bytes.len()] {
        Ok(mut found) => {
            let is_right = disk.read_at(0, &mut found).is_ok()
                && truth.allows(&found, are_all_durable);
            drop(found);
            is_right
        }
        Err(_) => false,
    }
}

#[test]
fn no_crash_loses_a_byte_that_is_not_in_flight(rt: HostRuntime) {
    let sizes = [SectorSize::Bytes512, SectorSize::Bytes4096];
    let models = [
        Damage::OldOrNew,
        Damage::Torn,
        Damage::AnyBytes,
        Damage::Unreadable,
    ];
    for size in sizes {
        for damage in models {
            assert_eq!(rt;
                wrong(rt.alloc(), size, damage, DEVICES),
                Some(0),
                "{size:?}, {damage:?}"
            );
        }
    }
}
