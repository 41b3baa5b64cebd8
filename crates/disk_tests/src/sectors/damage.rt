//! What a crash makes of the sectors that were in flight.
use crate::sectors::chance::Chance;
use block_disk::{Fill, MemDisk};
use disk_sectors::{MemSectors, SectorSize};
use std::alloc::Global;

/// What becomes of a sector in flight that is neither as it was nor as it was to be.
#[derive(Clone, Copy, Debug, PartialEq, Eq)]
pub(crate) enum Damage {
    /// Nothing: it is one or the other.
    OldOrNew,
    /// Its beginning is new, and the rest old.
    Torn,
    /// Any bytes stand behind a place.
    AnyBytes,
    /// It can't be read.
    Unreadable,
}

/// The sectors that a crash leaves in this stop of the disk.
pub(crate) fn crashed(
    alloc: Global,
    disk: &MemDisk,
    stop: u64,
    size: SectorSize,
    damage: Damage,
    chance: &mut Chance,
) -> Option<MemSectors> {
    let (bytes, lost) = hurt_all(alloc, disk, stop, size, damage, chance)?;
    let sectors = MemSectors::from_bytes(alloc, size, &bytes);
    drop(bytes);
    let Ok(mut sectors) = sectors else {
        drop(lost);
        return None;
    };
    lose_each(&mut sectors, &lost);
    drop(lost);
    Some(sectors)
}

/// The same as bytes, with zeros in sectors that can't be read: a gate of zeros says what one says that can't be.
pub(crate) fn crashed_bytes(
    alloc: Global,
    disk: &MemDisk,
    stop: u64,
    size: SectorSize,
    damage: Damage,
    chance: &mut Chance,
) -> Option<Vec<u8>> {
    let (mut bytes, lost) = hurt_all(alloc, disk, stop, size, damage, chance)?;
    for i in 0..lost.len() {
        if lost[i] {
            part_mut(&mut bytes, i, size).fill(0);
        }
    }
    drop(lost);
    Some(bytes)
}

// What a crash leaves in this stop of the disk, and which sectors can't be read then.
fn hurt_all(
    alloc: Global,
    disk: &MemDisk,
    stop: u64,
    size: SectorSize,
    damage: Damage,
    chance: &mut Chance,
) -> Option<(Vec<u8>, Vec<bool>)> {
    let new = image(alloc, disk, stop, Fill::Kept)?;
    let hurt = hurt_by(alloc, disk, stop, size, &new, damage, chance);
    drop(new);
    hurt
}

// The same, where the sectors were to be these.
fn hurt_by(
    alloc: Global,
    disk: &MemDisk,
    stop: u64,
    size: SectorSize,
    new: &[u8],
    damage: Damage,
    chance: &mut Chance,
) -> Option<(Vec<u8>, Vec<bool>)> {
    let mut bytes = image(alloc, disk, stop, Fill::Lost)?;
    let count = bytes.len() / size.bytes();
    let Some(mut lost) = in_flight(alloc, disk, stop, size, count) else {
        drop(bytes);
        return None;
    };
    for i in 0..lost.len() {
        if lost[i] {
            let old = part_mut(&mut bytes, i, size);
            lost[i] = hurt(old, part(new, i, size), damage, chance);
        }
    }
    Some((bytes, lost))
}

// Which of so many sectors are in flight in this stop.
fn in_flight(
    alloc: Global,
    disk: &MemDisk,
    stop: u64,
    size: SectorSize,
    count: usize,
) -> Option<Vec<bool>> {
    let zeros = image(alloc, disk, stop, Fill::Byte(0))?;
    let Some(ones) = image(alloc, disk, stop, Fill::Byte(1)) else {
        drop(zeros);
        return None;
    };
    let found = differing(alloc, &zeros, &ones, size, count);
    drop(zeros);
    drop(ones);
    found
}

// Which of so many sectors differ in these.
fn differing(
    alloc: Global,
    one: &[u8],
    other: &[u8],
    size: SectorSize,
    count: usize,
) -> Option<Vec<bool>> {
    let mut found = vec![in alloc; false; count].ok()?;
    for i in 0..found.len() {
        found[i] = part(one, i, size) != part(other, i, size);
    }
    Some(found)
}

fn lose_each(sectors: &mut MemSectors, lost: &[bool]) {
    for i in 0..lost.len() {
        if lost[i] {
            sectors.lose(i as u64);
        }
    }
}

/// The bytes that a crash leaves in this stop of the disk.
pub(crate) fn image(alloc: Global, disk: &MemDisk, stop: u64, fill: Fill) -> Option<Vec<u8>> {
    match disk.crash_image(stop, fill) {
        Ok(Some(left)) => {
            let bytes = left.bytes().to_vec(alloc);
            drop(left);
            bytes.ok()
        }
        _ => None,
    }
}

// A sector's bytes; none where there is no such sector.
pub(crate) fn part(bytes: &[u8], i: usize, size: SectorSize) -> &[u8] {
    let len = size.bytes();
    if i < bytes.len() / len {
        &bytes[i * len..i * len + len]
    } else {
        &bytes[..0]
    }
}

pub(crate) fn part_mut(bytes: &mut [u8], i: usize, size: SectorSize) -> &mut [u8] {
    let len = size.bytes();
    if i < bytes.len() / len {
        &mut bytes[i * len..i * len + len]
    } else {
        &mut bytes[..0]
    }
}

// Makes of a sector's old bytes what the crash leaves; whether it can't be read.
fn hurt(bytes: &mut [u8], new: &[u8], damage: Damage, chance: &mut Chance) -> bool {
    match chance.below(3) {
        0 => false,
        1 => {
            begin(bytes, new, new.len());
            false
        }
        _ => worst(bytes, new, damage, chance),
    }
}

fn worst(bytes: &mut [u8], new: &[u8], damage: Damage, chance: &mut Chance) -> bool {
    let len = bytes.len();
    if len == 0 {
        return false;
    }
    let cut = chance.below(len as u64) as usize;
    match damage {
        Damage::OldOrNew => begin(bytes, new, new.len()),
        Damage::Torn => begin(bytes, new, cut),
        Damage::AnyBytes => garble(bytes, cut, chance),
        Damage::Unreadable => return true,
    }
    false
}

// So many of the new bytes.
fn begin(bytes: &mut [u8], new: &[u8], len: usize) {
    let len = len.min(bytes.len()).min(new.len());
    bytes[..len].copy_from_slice(&new[..len]);
}

fn garble(bytes: &mut [u8], from: usize, chance: &mut Chance) {
    for i in from..bytes.len() {
        bytes[i] = chance.below(256) as u8;
    }
}
