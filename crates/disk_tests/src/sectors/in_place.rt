//! The same crashes of sectors that are written over themselves: where one in flight may hold any bytes, or can't be read, some bytes
//! are lost that weren't written. So these tests can fail.
use crate::sectors::chance::Chance;
use crate::sectors::damage::{Damage, crashed, part, part_mut};
use crate::sectors::truth::{Truth, change, stop_between};
use block_disk::MemDisk;
use disk_sectors::{MemSectors, SectorSize, Sectors, SectorsOf};
use std::alloc::Global;

const COUNT: usize = 4;

const SYNCS: u64 = 8;
// How many devices are tried with each size of sectors and each damage.
const DEVICES: u64 = 250; // tools/quick: 2

type Tried = SectorsOf<MemDisk>;

// How many crashes of these devices, eight each, lost a byte; `None` where there was no memory.
fn wrong(alloc: Global, size: SectorSize, damage: Damage, devices: u64) -> Option<u64> {
    let mut chance = Chance::new(7);
    let mut wrong: u64 = 0;
    for _ in 0..devices {
        wrong = wrong.saturating_add(live(alloc, size, damage, &mut chance)?);
    }
    Some(wrong)
}

// How many of one device's crashes did.
fn live(alloc: Global, size: SectorSize, damage: Damage, chance: &mut Chance) -> Option<u64> {
    let len = COUNT * size.bytes();
    let under = MemDisk::new(alloc, len as u64).ok()?;
    let mut sectors = SectorsOf::new(under, size);
    let wrong = live_on(alloc, &mut sectors, size, damage, chance);
    drop(sectors);
    wrong
}

fn live_on(
    alloc: Global,
    sectors: &mut Tried,
    size: SectorSize,
    damage: Damage,
    chance: &mut Chance,
) -> Option<u64> {
    let mut truth = Truth::zeros(alloc, COUNT * size.bytes())?;
    let wrong = live_by(alloc, sectors, &mut truth, size, damage, chance);
    drop(truth);
    wrong
}

fn live_by(
    alloc: Global,
    sectors: &mut Tried,
    truth: &mut Truth,
    size: SectorSize,
    damage: Damage,
    chance: &mut Chance,
) -> Option<u64> {
    let mut wrong: u64 = 0;
    for _ in 0..SYNCS {
        let _run = change(truth, chance);
        let before = sectors.disk().stops();
        if !sync(sectors, size, truth) {
            return None;
        }
        let after = sectors.disk().stops();
        let stop = stop_between(before, after, chance);
        let left = crashed(alloc, sectors.disk(), stop, size, damage, chance)?;
        if !holds(alloc, left, truth, stop > after) {
            wrong = wrong.saturating_add(1);
        }
        truth.settle();
    }
    Some(wrong)
}

// Writes each sector in which a byte is pending over itself, and flushes.
fn sync(sectors: &mut Tried, size: SectorSize, truth: &Truth) -> bool {
    for i in 0..COUNT {
        let bytes = part(&truth.bytes, i, size);
        let is_pending = truth.is_pending(i, size);
        if is_pending && !put(sectors, i, bytes) {
            return false;
        }
    }
    sectors.flush().is_ok()
}

fn put(sectors: &mut Tried, i: usize, bytes: &[u8]) -> bool {
    let len = sectors.sector_size().bytes();
    let count = sectors.count();
    let number = i as u64;
    if number >= count {
        return false;
    }
    if bytes.len() != len {
        return false;
    }
    sectors.write_sector(number, bytes).is_ok()
}

// Whether what a crash has left can be read, and is right.
fn holds(alloc: Global, mut left: MemSectors, truth: &Truth, are_all_durable: bool) -> bool {
    match vec![in alloc; 0u8; truth.bytes.len()] {
        Ok(mut found) => {
            let is_right = read_all(&mut left, &mut found) && truth.allows(&found, are_all_durable);
            drop(found);
            drop(left);
            is_right
        }
        Err(_) => {
            drop(left);
            false
        }
    }
}

fn read_all(sectors: &mut MemSectors, out: &mut [u8]) -> bool {
    for i in 0..COUNT {
        if !read_one(sectors, i, out) {
            return false;
        }
    }
    true
}

fn read_one(sectors: &mut MemSectors, i: usize, out: &mut [u8]) -> bool {
    let size = sectors.sector_size();
    let len = size.bytes();
    let count = sectors.count();
    let number = i as u64;
    let out = part_mut(out, i, size);
    if number >= count {
        return false;
    }
    if out.len() != len {
        return false;
    }
    sectors.read_sector(number, out).is_ok()
}

fn loses(alloc: Global, size: SectorSize, damage: Damage) -> bool {
    match wrong(alloc, size, damage, DEVICES) {
        Some(count) => count > 0,
        None => false,
    }
}

#[test]
fn sectors_over_themselves_lose_bytes_where_one_in_flight_may_hold_any(rt: HostRuntime) {
    let sizes = [SectorSize::Bytes512, SectorSize::Bytes4096];
    for size in sizes {
        let found = [
            wrong(rt.alloc(), size, Damage::OldOrNew, DEVICES),
            wrong(rt.alloc(), size, Damage::Torn, DEVICES),
        ];
        assert!(rt; found == [Some(0), Some(0)]);
        assert!(rt; loses(rt.alloc(), size, Damage::AnyBytes));
        assert!(rt; loses(rt.alloc(), size, Damage::Unreadable));
    }
}
