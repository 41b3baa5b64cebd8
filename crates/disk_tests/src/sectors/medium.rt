//! A file in memory on sectors, of which a crash takes those that were being written.
use crate::sectors::chance::Chance;
use disk_file::BackingFile;
use std::cell::Cell;
use std::io;
use std::io::ErrorKind;

/// How many sectors the file has, and how many bytes each.
pub(crate) const SECTORS: usize = 6;

const BYTES: usize = 512;

const MOST: usize = SECTORS * BYTES;

// What the file reads, what it would read if no write since the last sync had reached it, and of each sector whether it was written
// since, and whether it can't be read.
#[derive(Clone, Copy)]
struct Content {
    len: usize,
    now: [u8; MOST],
    durable: [u8; MOST],
    in_flight: [bool; SECTORS],
    lost: [bool; SECTORS],
}

const EMPTY: Content = Content {
    len: 0,
    now: [0; MOST],
    durable: [0; MOST],
    in_flight: [false; SECTORS],
    lost: [false; SECTORS],
};

/// Such a file, which a test sees while somebody has it open.
#[derive(Drop)]
pub(crate) struct Medium {
    content: Cell<Content>,
    // How many writes and syncs it makes before it makes no call any more; 0: any number.
    left: Cell<u64>,
    is_dead: Cell<bool>,
    // Which of them from now on fails, and does nothing (1: the next; 0: none).
    fails_in: Cell<u64>,
}

impl Medium {
    /// A file of no bytes.
    pub(crate) fn empty() -> Medium {
        Medium {
            content: Cell::new(EMPTY),
            left: Cell::new(0),
            is_dead: Cell::new(false),
            fails_in: Cell::new(0),
        }
    }

    /// The file.
    pub(crate) fn file(&self) -> SectorFile<'_> {
        SectorFile { medium: self }
    }

    /// Makes it die in the write or sync of this number from now on.
    pub(crate) fn die_in(&self, call: u64) {
        self.left.set(call);
    }

    /// Makes the write or sync of this number from now on fail, alone.
    pub(crate) fn fail_in(&self, call: u64) {
        self.fails_in.set(call);
    }

    // Whether a write or sync fails.
    fn fails(&self) -> bool {
        let left = self.fails_in.get();
        self.fails_in.set(left.saturating_sub(1));
        left == 1
    }

    /// It comes back from a crash: what was in flight is as chance has it.
    pub(crate) fn come_back(&self, chance: &mut Chance) {
        let mut content = self.content.get();
        for i in 0..SECTORS {
            if content.in_flight[i] {
                content.in_flight[i] = false;
                content.lost[i] = hurt(&mut content.now, &content.durable, i, chance);
            }
        }
        content.durable.copy_from_slice(&content.now);
        self.content.set(content);
        self.left.set(0);
        self.is_dead.set(false);
    }

    // Whether a write or sync is made.
    fn makes(&self) -> bool {
        let left = self.left.get();
        self.left.set(left.saturating_sub(1));
        if left == 1 {
            self.is_dead.set(true);
        }
        !self.is_dead.get()
    }
}

// What a crash makes of a sector in flight: the old one, the new one, any bytes, or none; whether it can't be read.
fn hurt(now: &mut [u8; MOST], durable: &[u8; MOST], i: usize, chance: &mut Chance) -> bool {
    let model = chance.below(4);
    for place in i.saturating_mul(BYTES)..i.saturating_add(1).saturating_mul(BYTES) {
        let Some(byte) = now.get_mut(place) else {
            return false;
        };
        match model {
            0 => *byte = durable.get(place).copied().unwrap_or(0),
            1 => {}
            _ => *byte = chance.below(256) as u8,
        }
    }
    model == 3
}

/// The file, as a disk has it.
#[derive(Drop)]
pub(crate) struct SectorFile<'a> {
    medium: &'a Medium,
}

fn dead() -> io::Error {
    io::Error::from(ErrorKind::Other)
}

// The places of so many bytes from `at` on; none where they lie past the file's end.
fn place_of(at: u64, len: usize, end: usize) -> Option<usize> {
    let from = usize::try_from(at).ok()?;
    if from <= end && len <= end - from {
        Some(from)
    } else {
        None
    }
}

impl BackingFile for SectorFile<'_> {
    fn len(&self) -> io::Result<u64> {
        Ok(self.medium.content.get().len as u64)
    }

    fn empty(&mut self) -> io::Result<()> {
        let mut content = self.medium.content.get();
        content.len = 0;
        self.medium.content.set(content);
        Ok(())
    }

    fn read_from(&mut self, at: u64, out: &mut [u8]) -> io::Result<()> {
        let content = self.medium.content.get();
        let Some(from) = place_of(at, out.len(), content.len.min(MOST)) else {
            return Err(dead());
        };
        for (i, byte) in out.iter_mut().enumerate() {
            let place = from.saturating_add(i);
            if content.lost.get(place / BYTES).copied().unwrap_or(true) {
                return Err(dead());
            }
            *byte = content.now.get(place).copied().unwrap_or(0);
        }
        Ok(())
    }

    // Whole sectors alone.
    fn write_to(&mut self, at: u64, bytes: &[u8]) -> io::Result<()> {
        let Some(from) = place_of(at, bytes.len(), MOST) else {
            return Err(dead());
        };
        if from % BYTES != 0 || bytes.len() % BYTES != 0 {
            return Err(dead());
        }
        if self.medium.fails() {
            return Err(dead());
        }
        let makes = self.medium.makes();
        let mut content = self.medium.content.get();
        for (i, byte) in bytes.iter().enumerate() {
            let place = from.saturating_add(i);
            if let Some(there) = content.now.get_mut(place) {
                *there = *byte;
            }
            if let Some(flag) = content.in_flight.get_mut(place / BYTES) {
                *flag = true;
            }
            if let Some(flag) = content.lost.get_mut(place / BYTES) {
                *flag = false;
            }
            content.len = content.len.max(place.saturating_add(1));
        }
        self.medium.content.set(content);
        if makes { Ok(()) } else { Err(dead()) }
    }

    // Nothing is written again on sectors.
    fn write_back(&mut self, _at: u64) -> io::Result<()> {
        Err(dead())
    }

    fn settle(&mut self) -> io::Result<()> {
        if self.medium.fails() || !self.medium.makes() {
            return Err(dead());
        }
        let mut content = self.medium.content.get();
        content.durable.copy_from_slice(&content.now);
        content.in_flight.fill(false);
        self.medium.content.set(content);
        Ok(())
    }
}
