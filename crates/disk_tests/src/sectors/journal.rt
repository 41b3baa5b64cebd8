//! Lives of a disk behind a journal, on a device that keeps sectors whole: a crash leaves the image of the last sync or of this one; or bytes of both, if there was no
//! room for a batch. Where sectors tear, some crashes leave neither.
use crate::sectors::chance::Chance;
use crate::sectors::damage::{Damage, crashed_bytes};
use crate::sectors::truth::{Truth, stop_between};
use crate::sectors::two_places::write_some;
use block_disk::{Disk, MemDisk};
use disk_journal::{JournalError, Journaled};
use disk_sectors::SectorSize;
use journal_batches::Areas;
use std::alloc::Global;

// A half has room for 248 words, and the image has 512.
pub(crate) const AREAS: Areas = Areas { half: 1, image: 1 };

pub(crate) const LEN: usize = 4096;

pub(crate) const ROOM: u64 = 4 * 4096;

const DEVICES: u64 = 24; // tools/quick: 2
// With torn sectors, until one is wrong.
const TORN: u64 = 24;
// Of each device: each life begins with what the last one's crash has left.
const LIVES: u64 = 8;

pub(crate) type Tried = Journaled<MemDisk>;

// What a crash may have left: one of two images, or bytes of both.
#[derive(Clone, Copy)]
struct Allowed {
    old: [u8; LEN],
    new: [u8; LEN],
    is_mixed: bool,
}

impl Allowed {
    fn has(&self, found: &[u8]) -> bool {
        if found == self.old.as_slice() || found == self.new.as_slice() {
            return true;
        }
        self.is_mixed && is_of_both(found, &self.old, &self.new)
    }
}

pub(crate) fn is_of_both(found: &[u8], old: &[u8], new: &[u8]) -> bool {
    for i in 0..found.len() {
        if i < old.len() && i < new.len() && found[i] != old[i] && found[i] != new[i] {
            return false;
        }
    }
    true
}

// What a crash has left of a device.
#[derive(Drop)]
struct Left {
    device: Vec<u8>,
    allowed: Allowed,
}

// How many of these devices have had a crash that was wrong; `None` where there was no memory.
fn wrong(alloc: Global, damage: Damage, devices: u64) -> Option<u64> {
    let mut chance = Chance::new(5);
    let mut wrong: u64 = 0;
    for _ in 0..devices {
        if !live(alloc, damage, &mut chance)? {
            wrong = wrong.saturating_add(1);
        }
    }
    Some(wrong)
}

// Whether one of these devices has had a crash that was wrong.
fn is_wrong(alloc: Global, damage: Damage, devices: u64) -> Option<bool> {
    let mut chance = Chance::new(5);
    for _ in 0..devices {
        if !live(alloc, damage, &mut chance)? {
            return Some(true);
        }
    }
    Some(false)
}

// Whether all lives of one device are right.
fn live(alloc: Global, damage: Damage, chance: &mut Chance) -> Option<bool> {
    let mut left = made(alloc)?;
    for _ in 0..LIVES {
        let next = life(alloc, &left, damage, chance);
        drop(left);
        match next {
            Some(Some(after)) => left = after,
            Some(None) => return Some(false),
            None => return None,
        }
    }
    drop(left);
    Some(true)
}

// A new device, of zeros.
fn made(alloc: Global) -> Option<Left> {
    let under = MemDisk::new(alloc, ROOM).ok()?;
    let Ok(disk) = Journaled::create(alloc, under, AREAS) else {
        return None;
    };
    let device = disk.disk().bytes().to_vec(alloc);
    drop(disk);
    let zeros = [0; LEN];
    Some(Left {
        device: device.ok()?,
        allowed: Allowed {
            old: zeros,
            new: zeros,
            is_mixed: false,
        },
    })
}

// One life, in which a call of the device may fail. `Some(None)`: what was found isn't allowed.
fn life(alloc: Global, left: &Left, damage: Damage, chance: &mut Chance) -> Option<Option<Left>> {
    let mut under = MemDisk::from_bytes(alloc, &left.device).ok()?;
    if chance.below(4) == 0 {
        under.fail_call(1 + chance.below(30));
    }
    match Journaled::open(alloc, under) {
        Ok(mut disk) => {
            let next = go_on(alloc, &mut disk, &left.allowed, damage, chance);
            drop(disk);
            next
        }
        Err((under, JournalError::Fault)) => {
            let next = crash(alloc, &under, 0, left.allowed, damage, chance);
            drop(under);
            Some(Some(next?))
        }
        Err((under, _)) => {
            drop(under);
            Some(None)
        }
    }
}

// A crash of the device, in a stop behind the first so many.
fn crash(
    alloc: Global,
    under: &MemDisk,
    before: u64,
    allowed: Allowed,
    damage: Damage,
    chance: &mut Chance,
) -> Option<Left> {
    let after = under.stops();
    let stop = stop_between(before, after, chance);
    let device = crashed_bytes(alloc, under, stop, SectorSize::Bytes512, damage, chance)?;
    Some(Left { device, allowed })
}

// The opened disk holds what is allowed; then a crash comes in the opening, or in a sync or after it.
fn go_on(
    alloc: Global,
    disk: &mut Tried,
    allowed: &Allowed,
    damage: Damage,
    chance: &mut Chance,
) -> Option<Option<Left>> {
    let mut found = [0; LEN];
    if disk.read_at(0, &mut found).is_err() || !allowed.has(&found) {
        return Some(None);
    }
    let syncs = chance.below(4);
    if syncs == 0 {
        return Some(Some(crash(alloc, disk.disk(), 0, only(&found), damage, chance)?));
    }
    let mut truth = Truth::holding(alloc, found.to_vec(alloc).ok()?)?;
    let next = sync_some(alloc, disk, &mut truth, syncs, damage, chance);
    drop(truth);
    next
}

fn only(image: &[u8; LEN]) -> Allowed {
    Allowed {
        old: *image,
        new: *image,
        is_mixed: false,
    }
}

fn sync_some(
    alloc: Global,
    disk: &mut Tried,
    truth: &mut Truth,
    syncs: u64,
    damage: Damage,
    chance: &mut Chance,
) -> Option<Option<Left>> {
    for number in 0..syncs {
        let before = disk.disk().stops();
        let mut allowed = Allowed {
            old: image_of(truth),
            new: [0; LEN],
            is_mixed: write_much(disk, truth, chance)?,
        };
        allowed.new = image_of(truth);
        let is_ok = disk.sync().is_ok();
        if !is_ok || syncs.saturating_sub(number) <= 1 {
            return end(alloc, disk, before, allowed, is_ok, damage, chance);
        }
        truth.settle();
    }
    None
}

// The last sync: a crash in it leaves what is allowed. Once it has failed the disk writes no more.
fn end(
    alloc: Global,
    disk: &mut Tried,
    before: u64,
    allowed: Allowed,
    is_ok: bool,
    damage: Damage,
    chance: &mut Chance,
) -> Option<Option<Left>> {
    if !is_ok {
        let stops = disk.disk().stops();
        if disk.write_at(0, &[1]).is_ok() || disk.sync().is_ok() || disk.disk().stops() != stops {
            return Some(None);
        }
    }
    if is_ok && chance.below(3) == 0 {
        let after = disk.disk().stops();
        return Some(Some(crash(
            alloc,
            disk.disk(),
            after,
            only(&allowed.new),
            damage,
            chance,
        )?));
    }
    Some(Some(crash(alloc, disk.disk(), before, allowed, damage, chance)?))
}

fn image_of(truth: &Truth) -> [u8; LEN] {
    let mut image = [0; LEN];
    if truth.bytes.len() == LEN {
        image.copy_from_slice(&truth.bytes);
    }
    image
}

// Writes a few runs, or sometimes all bytes, for which a half has no room: whether it was all.
fn write_much(disk: &mut Tried, truth: &mut Truth, chance: &mut Chance) -> Option<bool> {
    if chance.below(6) > 0 {
        return if write_some(disk, truth, chance) {
            Some(false)
        } else {
            None
        };
    }
    for i in 0..truth.bytes.len() {
        let byte = chance.below(256) as u8;
        truth.note(i, byte);
    }
    if disk.write_at(0, &truth.bytes).is_err() {
        return None;
    }
    Some(true)
}

// How many stops of a making over an older journal leave something else than that one, no journal, or zeros.
fn wrong_makings(alloc: Global, chance: &mut Chance) -> Option<u64> {
    let older = made(alloc)?;
    let next = life(alloc, &older, Damage::OldOrNew, chance);
    drop(older);
    let Some(Some(older)) = next else {
        return None;
    };
    let wrong = wrong_over(alloc, &older, chance);
    drop(older);
    wrong
}

fn wrong_over(alloc: Global, older: &Left, chance: &mut Chance) -> Option<u64> {
    let under = MemDisk::from_bytes(alloc, &older.device).ok()?;
    let Ok(disk) = Journaled::create(alloc, under, AREAS) else {
        return None;
    };
    let wrong = wrong_stops(alloc, &disk, &older.allowed, chance);
    drop(disk);
    wrong
}

// Until its first flush the older one may be left.
fn wrong_stops(alloc: Global, disk: &Tried, older: &Allowed, chance: &mut Chance) -> Option<u64> {
    let mut wrong: u64 = 0;
    for stop in 1..disk.disk().stops().saturating_add(2) {
        let device = crashed_bytes(
            alloc,
            disk.disk(),
            stop,
            SectorSize::Bytes512,
            Damage::OldOrNew,
            chance,
        )?;
        let found = found_on(alloc, &device);
        drop(device);
        let is_right = match found? {
            Some(image) => image == [0; LEN] || stop <= 2 && older.has(&image),
            None => true,
        };
        if !is_right {
            wrong = wrong.saturating_add(1);
        }
    }
    Some(wrong)
}

// The image of the device, if it has one.
pub(crate) fn found_on(alloc: Global, device: &[u8]) -> Option<Option<[u8; LEN]>> {
    let under = MemDisk::from_bytes(alloc, device).ok()?;
    match Journaled::open(alloc, under) {
        Ok(mut disk) => {
            let mut found = [0; LEN];
            let is_read = disk.read_at(0, &mut found).is_ok();
            drop(disk);
            if is_read { Some(Some(found)) } else { None }
        }
        Err((under, JournalError::NoJournal)) => {
            drop(under);
            Some(None)
        }
        Err((under, _)) => {
            drop(under);
            None
        }
    }
}

#[test]
fn a_crash_leaves_the_last_image_or_this_one(rt: HostRuntime) {
    assert_eq!(rt; wrong(rt.alloc(), Damage::OldOrNew, DEVICES), Some(0));
}

#[test]
fn torn_sectors_leave_neither(rt: HostRuntime) {
    assert!(rt; is_wrong(rt.alloc(), Damage::Torn, TORN) == Some(true));
}

#[test]
fn a_making_over_an_older_journal_leaves_that_or_none_or_zeros(rt: HostRuntime) {
    let mut chance = Chance::new(3);
    for _ in 0..8 {
        assert_eq!(rt; wrong_makings(rt.alloc(), &mut chance), Some(0));
    }
}
