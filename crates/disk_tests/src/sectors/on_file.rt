//! Crashes of an image file in two places: what is found is right, whatever became of the sectors that were being written.
use crate::sectors::chance::Chance;
use crate::sectors::medium::Medium;
use crate::sectors::truth::{Truth, bytes_of, change};
use block_disk::Disk;
use disk_file::BackingFile;
use disk_sector_file::{ImageDisk, ImageKind};
use disk_sectors::SectorSize;
use std::alloc::Global;

// The bytes of two sectors.
const LEN: usize = 1024;

// Those of a sector, of which the second is the gate.
const SECTOR: usize = 512;

// How many files are tried.
const FILES: u64 = 100; // tools/quick: 10

// What is done with the gate before a file is opened.
#[derive(Clone, Copy, PartialEq, Eq)]
enum Gate {
    // Nothing.
    Left,
    // It is written with the bytes that it reads, and synced; the file dies in one of both calls.
    WrittenBack,
}

// How many crashes of these files, eight each, lost a byte; `None` where there was no memory.
fn wrong(alloc: Global, gate: Gate) -> Option<u64> {
    let mut chance = Chance::new(5);
    let mut wrong: u64 = 0;
    for _ in 0..FILES {
        wrong = wrong.saturating_add(live(alloc, gate, &mut chance)?);
    }
    Some(wrong)
}

// How many of one file's crashes did.
fn live(alloc: Global, gate: Gate, chance: &mut Chance) -> Option<u64> {
    let medium = Medium::empty();
    let made = ImageDisk::blank(
        alloc,
        medium.file(),
        ImageKind::Placed(SectorSize::Bytes512),
        LEN as u64,
    );
    let is_made = made.is_ok();
    drop(made);
    let wrong = if is_made {
        live_on(alloc, &medium, gate, chance)
    } else {
        None
    };
    drop(medium);
    wrong
}

fn live_on(alloc: Global, medium: &Medium, gate: Gate, chance: &mut Chance) -> Option<u64> {
    let mut truth = Truth::zeros(alloc, LEN)?;
    let wrong = live_by(alloc, medium, gate, &mut truth, chance);
    drop(truth);
    wrong
}

fn live_by(
    alloc: Global,
    medium: &Medium,
    gate: Gate,
    truth: &mut Truth,
    chance: &mut Chance,
) -> Option<u64> {
    for _ in 0..8 {
        if gate == Gate::WrittenBack {
            write_back(medium, chance);
            if !is_still(alloc, medium, truth)? {
                return Some(1);
            }
        }
        if !is_right(alloc, medium, truth, chance)? {
            return Some(1);
        }
    }
    Some(0)
}

// Opens the file, lets it die in a few syncs, and tells whether what is found afterwards is right.
fn is_right(
    alloc: Global,
    medium: &Medium,
    truth: &mut Truth,
    chance: &mut Chance,
) -> Option<bool> {
    let mut disk = ImageDisk::found(alloc, medium.file(), &[0]).ok()?;
    medium.die_in(1 + chance.below(9));
    let mut is_done = true;
    for _ in 0..3 {
        if is_done {
            truth.settle();
            is_done = write_some(&mut disk, truth, chance);
        }
    }
    drop(disk);
    medium.come_back(chance);
    let mut found = vec![in alloc; 0u8; LEN].ok()?;
    if !read_back(alloc, medium, &mut found) || !truth.allows(&found, is_done) {
        drop(found);
        return Some(false);
    }
    *truth = Truth::holding(alloc, found)?;
    Some(true)
}

// Writes the gate back, and dies of it.
fn write_back(medium: &Medium, chance: &mut Chance) {
    let mut gate = [0; SECTOR];
    let mut file = medium.file();
    medium.die_in(1 + chance.below(2));
    if file.read_from(SECTOR as u64, &mut gate).is_ok() {
        let _ = file.write_to(SECTOR as u64, &gate);
        let _ = file.settle();
    }
    drop(file);
    medium.come_back(chance);
}

// Whether what is found is all that was written.
fn is_still(alloc: Global, medium: &Medium, truth: &Truth) -> Option<bool> {
    let mut found = vec![in alloc; 0u8; LEN].ok()?;
    let is_still = read_back(alloc, medium, &mut found) && truth.allows(&found, true);
    drop(found);
    Some(is_still)
}

fn read_back(alloc: Global, medium: &Medium, out: &mut [u8]) -> bool {
    match ImageDisk::found(alloc, medium.file(), &[0]) {
        Ok(mut disk) => {
            let read = disk.read_at(0, out);
            drop(disk);
            read.is_ok()
        }
        Err(_) => false,
    }
}

// Writes a few runs of bytes and syncs them; whether that is done.
fn write_some<D: Disk>(disk: &mut D, truth: &mut Truth, chance: &mut Chance) -> bool {
    for _ in 0..1 + chance.below(3) {
        let run = change(truth, chance);
        if disk.write_at(run.at as u64, bytes_of(truth, run)).is_err() {
            return false;
        }
    }
    disk.sync().is_ok()
}

#[test]
fn no_crash_of_a_file_loses_a_byte_that_is_not_in_flight(rt: HostRuntime) {
    assert_eq!(rt; wrong(rt.alloc(), Gate::Left), Some(0));
}

fn loses(alloc: Global, gate: Gate) -> bool {
    match wrong(alloc, gate) {
        Some(count) => count > 0,
        None => false,
    }
}

// A crash has left the other area half written, and one that comes while the gate is in flight may show that. So no opening writes it.
#[test]
fn a_gate_that_an_opening_writes_back_loses_bytes(rt: HostRuntime) {
    assert!(rt; loses(rt.alloc(), Gate::WrittenBack));
}

// A sync writes two sectors of the area, syncs the file, writes the gate and syncs again. Whether it is right where the call of this number
// fails: the gate's two are made again, and the others are told.
fn is_made_again(alloc: Global, call: u64) -> bool {
    let medium = Medium::empty();
    let made = ImageDisk::blank(
        alloc,
        medium.file(),
        ImageKind::Placed(SectorSize::Bytes512),
        LEN as u64,
    );
    match made {
        Ok(mut disk) => {
            let is_written = disk.write_at(0, &[7; LEN]).is_ok();
            medium.fail_in(call);
            let is_synced = disk.sync().is_ok();
            drop(disk);
            let is_right = !is_synced || is_found(alloc, &medium);
            drop(medium);
            is_written && is_right && is_synced == (call > 3)
        }
        Err(_) => false,
    }
}

// Whether a crash leaves what was written.
fn is_found(alloc: Global, medium: &Medium) -> bool {
    medium.come_back(&mut Chance::new(3));
    let mut found = [0; LEN];
    read_back(alloc, medium, &mut found) && found == [7; LEN]
}

#[test]
fn a_turn_of_the_gate_that_fails_once_is_made_again(rt: HostRuntime) {
    let alloc = rt.alloc();
    assert!(rt; is_made_again(alloc, 1) && is_made_again(alloc, 2) && is_made_again(alloc, 3));
    assert!(rt; is_made_again(alloc, 4) && is_made_again(alloc, 5));
}
