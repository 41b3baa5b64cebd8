//! Openings of a journal on a device that lacks what reads: a flush has failed, and a cache keeps what was written before it. A crash of such an opening
//! leaves what it has found; until its first flush also what the device had.
use crate::sectors::chance::Chance;
use crate::sectors::damage::{Damage, crashed_bytes, image};
use crate::sectors::journal::{AREAS, LEN, ROOM, Tried, found_on, is_of_both};
use atomic_sectors::UntornDisk;
use block_disk::{Disk, DiskError, Fault, Fill, MemDisk};
use disk_file::VolatileDisk;
use disk_journal::{JournalError, Journaled};
use disk_sectors::SectorSize;
use std::alloc::Global;

// Each so many-th call fails.
const STEP: u64 = 1; // tools/quick: 5

// How many bytes each sync is of: more than a half has room for, and words of three sectors.
const SYNCS: &[usize] = &[LEN, 1200, 1200];

// A device behind a cache: what reads is the cache's, and each write goes to both.
#[derive(Drop)]
struct Cached {
    cache: VolatileDisk,
    device: MemDisk,
    // Which stop of the device the first flush was.
    first_flush: u64,
}

impl Disk for Cached {
    ghost device = { λ d. d.cache };

    fn size(&self) -> u64 {
        self.cache.size()
    }

    fn read_at(&mut self, at: u64, out: &mut [u8]) -> Result<(), DiskError> {
        self.cache.read_at(at, out)
    }

    fn write_at(&mut self, at: u64, bytes: &[u8]) -> Result<(), DiskError> {
        let _ = self.device.write_at(at, bytes);
        self.cache.write_at(at, bytes)
    }

    fn sync(&mut self) -> Result<(), DiskError> {
        let _ = self.device.sync();
        if self.first_flush == 0 {
            self.first_flush = self.device.stops();
        }
        self.cache.sync()
    }

    fn failures(&self) -> u64 {
        self.cache.failures()
    }
}

impl UntornDisk for Cached {
    fn write_untorn(&mut self, at: u64, bytes: &[u8]) -> Result<(), Fault> {
        let _ = self.device.write_at(at, bytes);
        self.cache.write_untorn(at, bytes)
    }
}

// Of openings of what a failed call leaves: how many had a crash that left something wrong, and how many have found what the device had not.
#[derive(Clone, Copy, Debug, PartialEq, Eq)]
struct Counts {
    wrong: u64,
    lost: u64,
}

// Calls of a making and some syncs fail; then those of an opening.
fn count(alloc: Global) -> Option<Counts> {
    let mut counts = Counts { wrong: 0, lost: 0 };
    let disk = synced(alloc)?;
    let next = if count_of(alloc, disk.disk(), &mut counts) {
        opened(alloc, disk.disk().bytes())
    } else {
        None
    };
    drop(disk);
    let next = next?;
    let is_counted = count_of(alloc, next.disk(), &mut counts);
    drop(next);
    if is_counted { Some(counts) } else { None }
}

fn synced(alloc: Global) -> Option<Tried> {
    let under = MemDisk::new(alloc, ROOM).ok()?;
    let Ok(mut disk) = Journaled::create(alloc, under, AREAS) else {
        return None;
    };
    for i in 0..SYNCS.len() {
        let bytes = [i as u8 + 1; LEN];
        if disk.write_at(0, &bytes[..SYNCS[i].min(LEN)]).is_err() || disk.sync().is_err() {
            drop(disk);
            return None;
        }
    }
    Some(disk)
}

fn opened(alloc: Global, bytes: &[u8]) -> Option<Tried> {
    let under = MemDisk::from_bytes(alloc, bytes).ok()?;
    Journaled::open(alloc, under).ok()
}

// Counts the openings after a failure of each call; false where there was no memory.
fn count_of(alloc: Global, disk: &MemDisk, counts: &mut Counts) -> bool {
    for stop in 1..disk.stops().saturating_add(1) {
        if stop % STEP != 0 {
            continue;
        }
        let Some(stale) = stale(alloc, disk, stop) else {
            return false;
        };
        if !count_opening(alloc, stale, counts) {
            return false;
        }
    }
    true
}

// What is left where this call fails: the device lacks what was written since the flush before it.
fn stale(alloc: Global, disk: &MemDisk, stop: u64) -> Option<Cached> {
    let Ok(Some(device)) = disk.crash_image(stop, Fill::Lost) else {
        return None;
    };
    let Some(bytes) = image(alloc, disk, stop, Fill::Kept) else {
        drop(device);
        return None;
    };
    Some(Cached {
        cache: VolatileDisk::holding(bytes),
        device,
        first_flush: 0,
    })
}

fn count_opening(alloc: Global, stale: Cached, counts: &mut Counts) -> bool {
    let before = found_on(alloc, stale.device.bytes());
    match Journaled::open(alloc, stale) {
        Ok(disk) => {
            let mut found = [0; LEN];
            if disk.image().len() == LEN {
                found.copy_from_slice(disk.image());
            }
            let wrong = match before {
                Some(before) => has_wrong_stop(alloc, disk.disk(), &found, &before),
                None => None,
            };
            drop(disk);
            counts.lost = counts
                .lost
                .saturating_add((before != Some(Some(found))) as u64);
            counts.wrong = counts.wrong.saturating_add((wrong == Some(true)) as u64);
            wrong.is_some()
        }
        Err((stale, why)) => {
            drop(stale);
            why == JournalError::NoJournal
        }
    }
}

// Whether a crash of this opening leaves something wrong.
fn has_wrong_stop(
    alloc: Global,
    disk: &Cached,
    found: &[u8; LEN],
    before: &Option<[u8; LEN]>,
) -> Option<bool> {
    let mut chance = Chance::new(7);
    for stop in 1..disk.device.stops().saturating_add(2) {
        let left = crashed_bytes(
            alloc,
            &disk.device,
            stop,
            SectorSize::Bytes512,
            Damage::OldOrNew,
            &mut chance,
        )?;
        let image = found_on(alloc, &left);
        drop(left);
        if !is_right(&image?, found, before, stop <= disk.first_flush) {
            return Some(true);
        }
    }
    Some(false)
}

fn is_right(
    left: &Option<[u8; LEN]>,
    found: &[u8; LEN],
    before: &Option<[u8; LEN]>,
    is_early: bool,
) -> bool {
    match left {
        None => is_early && before.is_none(),
        Some(left) if left == found => true,
        Some(left) => match before {
            None => false,
            Some(old) => is_early && is_of_both(left, old, found),
        },
    }
}

#[test]
fn an_opening_trusts_nothing_that_only_a_cache_shows(rt: HostRuntime) {
    let found = count(rt.alloc());
    let is_right = match found {
        Some(counts) => counts.wrong == 0 && counts.lost > 0,
        None => false,
    };
    assert!(rt; is_right, "{:?}", found);
}
