//! A file in memory that fails, is interrupted and moves a byte at a time.
use disk_file::{BackingFile, read_there, write_there};
use std::cell::Cell;
use std::io;
use std::io::{ErrorKind, Read, Seek, SeekFrom, Write};

// The longest of these files.
const MOST: usize = 41;

// The bytes of a file, of which there are `len`.
#[derive(Clone, Copy)]
struct Content {
    bytes: [u8; MOST],
    len: usize,
}

const EMPTY: Content = Content {
    bytes: [0; MOST],
    len: 0,
};

impl Content {
    fn of(bytes: &[u8]) -> Content {
        let mut content = EMPTY;
        for (place, byte) in bytes.iter().enumerate() {
            content.put(place, *byte);
        }
        content
    }

    fn as_slice(&self) -> &[u8] {
        &self.bytes[..self.len.min(MOST)]
    }

    // Puts a byte there, unless that lies past the longest file.
    fn put(&mut self, place: usize, byte: u8) -> bool {
        match self.bytes.get_mut(place) {
            Some(there) => {
                *there = byte;
                self.len = self.len.max(place.saturating_add(1));
                true
            }
            None => false,
        }
    }
}

/// What such a file holds, which a test sees and changes while a disk has the file.
#[derive(Drop)]
pub struct Medium {
    bytes: Cell<Content>,
    // What its device has once a sync succeeds: a write brings its bytes there, and nothing else does.
    kept: Cell<Content>,
    durable: Cell<Content>,
    // Which call from now on fails (1: the next; 0: none). A write that fails has written its first byte.
    fails_in: Cell<u64>,
    writes: Cell<u64>,
    settles: Cell<u64>,
}

impl Medium {
    /// These bytes, of which a file may have 41, all durable.
    pub fn of(bytes: &[u8]) -> Medium {
        Medium::stale(bytes, bytes)
    }

    /// A file that reads these bytes, and whose device has those: as the system leaves one where a sync of another process has failed.
    pub fn stale(bytes: &[u8], kept: &[u8]) -> Medium {
        let content = Content::of(bytes);
        let kept = Content::of(kept);
        Medium {
            bytes: Cell::new(content),
            kept: Cell::new(kept),
            durable: Cell::new(kept),
            fails_in: Cell::new(0),
            writes: Cell::new(0),
            settles: Cell::new(0),
        }
    }

    /// The same, in a file whose call of this number fails.
    pub fn failing(bytes: &[u8], call: u64) -> Medium {
        let medium = Medium::of(bytes);
        medium.fail(call);
        medium
    }

    /// The file that has them.
    pub fn file(&self) -> FlakyFile<'_> {
        FlakyFile {
            medium: self,
            place: 0,
            is_interrupted: false,
        }
    }

    /// Makes the call of this number from now on fail.
    pub fn fail(&self, call: u64) {
        self.fails_in.set(call);
    }

    /// Takes from the file what was not synced, as the system may where it could not keep it.
    pub fn forget(&self) {
        self.bytes.set(self.durable.get());
        self.kept.set(self.durable.get());
    }

    /// Whether these are the file's bytes.
    pub fn has(&self, bytes: &[u8]) -> bool {
        self.bytes.get().as_slice() == bytes
    }

    /// Whether these are what a crash leaves of it, if the system has written nothing of its own accord.
    pub fn keeps(&self, bytes: &[u8]) -> bool {
        self.durable.get().as_slice() == bytes
    }

    /// The calls that wrote, and those that settled.
    pub fn calls(&self) -> (u64, u64) {
        (self.writes.get(), self.settles.get())
    }

    fn byte(&self, place: usize) -> Option<u8> {
        self.bytes.get().as_slice().get(place).copied()
    }

    fn put(&self, place: usize, byte: u8) -> bool {
        let mut content = self.bytes.get();
        let is_put = content.put(place, byte);
        self.bytes.set(content);
        let mut kept = self.kept.get();
        kept.put(place, byte);
        self.kept.set(kept);
        is_put
    }

    fn is_due(&self) -> bool {
        let left = self.fails_in.get();
        self.fails_in.set(left.saturating_sub(1));
        left == 1
    }
}

fn count(calls: &Cell<u64>) {
    calls.set(calls.get().saturating_add(1));
}

// Each read and write moves one byte, and every second one is interrupted.
#[derive(Drop)]
pub struct FlakyFile<'a> {
    medium: &'a Medium,
    place: usize,
    is_interrupted: bool,
}

impl FlakyFile<'_> {
    // Whether this call is interrupted.
    fn interrupts(&mut self) -> bool {
        self.is_interrupted = !self.is_interrupted;
        self.is_interrupted
    }

    // Writes the first of these bytes, and fails.
    fn tear(&mut self, at: u64, bytes: &[u8]) -> io::Result<()> {
        let torn = bytes.len().min(1);
        write_there(self, at, &bytes[..torn])?;
        Err(ErrorKind::Other.into())
    }
}

impl Read for FlakyFile<'_> {
    fn read(&mut self, out: &mut [u8]) -> io::Result<usize> {
        if self.interrupts() {
            return Err(ErrorKind::Interrupted.into());
        }
        match self.medium.byte(self.place) {
            Some(byte) if !out.is_empty() => {
                out[0] = byte;
                self.place = self.place.saturating_add(1);
                Ok(1)
            }
            _ => Ok(0),
        }
    }
}

impl Write for FlakyFile<'_> {
    fn write(&mut self, bytes: &[u8]) -> io::Result<usize> {
        if self.interrupts() {
            return Err(ErrorKind::Interrupted.into());
        }
        let Some(byte) = bytes.first() else {
            return Ok(0);
        };
        if !self.medium.put(self.place, *byte) {
            return Err(ErrorKind::OutOfMemory.into());
        }
        self.place = self.place.saturating_add(1);
        Ok(1)
    }

    fn flush(&mut self) -> io::Result<()> {
        Ok(())
    }
}

impl Seek for FlakyFile<'_> {
    fn seek(&mut self, to: SeekFrom) -> io::Result<u64> {
        match to {
            SeekFrom::Start(place) => {
                self.place = place as usize;
                Ok(place)
            }
            _ => Err(ErrorKind::Unsupported.into()),
        }
    }
}

impl BackingFile for FlakyFile<'_> {
    fn len(&self) -> io::Result<u64> {
        Ok(self.medium.bytes.get().len as u64)
    }

    fn empty(&mut self) -> io::Result<()> {
        if self.medium.is_due() {
            return Err(ErrorKind::Other.into());
        }
        self.medium.bytes.set(EMPTY);
        self.medium.kept.set(EMPTY);
        Ok(())
    }

    fn read_from(&mut self, at: u64, out: &mut [u8]) -> io::Result<()> {
        if self.medium.is_due() {
            return Err(ErrorKind::Other.into());
        }
        read_there(self, at, out)
    }

    fn write_to(&mut self, at: u64, bytes: &[u8]) -> io::Result<()> {
        count(&self.medium.writes);
        if self.medium.is_due() {
            return self.tear(at, bytes);
        }
        write_there(self, at, bytes)
    }

    fn write_back(&mut self, at: u64) -> io::Result<()> {
        let byte = [self.medium.byte(at as usize).unwrap_or(0)];
        self.write_to(at, &byte)
    }

    fn settle(&mut self) -> io::Result<()> {
        count(&self.medium.settles);
        if self.medium.is_due() {
            return Err(ErrorKind::Other.into());
        }
        self.medium.durable.set(self.medium.kept.get());
        Ok(())
    }
}
