//! Crashes of an image file behind a journal: what its disk finds, and what is read of it without being written.
use crate::sectors::chance::Chance;
use crate::sectors::damage::{Damage, crashed_bytes};
use block_disk::{Disk, MemDisk};
use disk_file::BackingFile;
use disk_sector_file::{ImageDisk, ImageKind, journal_for, room_of_journal, whole_image};
use disk_sectors::SectorSize;
use std::alloc::Global;
use std::cell::RefCell;
use std::io;
use std::io::ErrorKind;

// The bytes of the image: 512 words, for which a half has room.
const LEN: usize = 4096;

// A file whose calls are those of a device.
#[derive(Drop)]
struct DeviceFile<'a> {
    device: &'a RefCell<MemDisk>,
}

fn told(is_so: bool) -> io::Result<()> {
    if is_so {
        Ok(())
    } else {
        Err(ErrorKind::Other.into())
    }
}

impl BackingFile for DeviceFile<'_> {
    fn len(&self) -> io::Result<u64> {
        match self.device.try_borrow() {
            Ok(device) => Ok(device.size()),
            Err(_) => Err(ErrorKind::Other.into()),
        }
    }

    // A device keeps its length.
    fn empty(&mut self) -> io::Result<()> {
        Ok(())
    }

    fn read_from(&mut self, at: u64, out: &mut [u8]) -> io::Result<()> {
        match self.device.try_borrow_mut() {
            Ok(mut device) => told(device.read_at(at, out).is_ok()),
            Err(_) => told(false),
        }
    }

    fn write_to(&mut self, at: u64, bytes: &[u8]) -> io::Result<()> {
        match self.device.try_borrow_mut() {
            Ok(mut device) => told(device.write_at(at, bytes).is_ok()),
            Err(_) => told(false),
        }
    }

    // Nothing is written back behind a journal.
    fn write_back(&mut self, _at: u64) -> io::Result<()> {
        told(false)
    }

    fn settle(&mut self) -> io::Result<()> {
        match self.device.try_borrow_mut() {
            Ok(mut device) => told(device.sync().is_ok()),
            Err(_) => told(false),
        }
    }
}

// The device of an image file behind a journal, whose bytes are all ones and then all twos; and how many stops it had before the second sync.
fn synced_twice(alloc: Global) -> Option<(MemDisk, u64)> {
    let device = RefCell::new(MemDisk::new(alloc, room_of_journal(journal_for(LEN as u64))).ok()?);
    let before = sync_twice(alloc, &device);
    let device = device.into_inner();
    match before {
        Some(before) => Some((device, before)),
        None => {
            drop(device);
            None
        }
    }
}

fn sync_twice(alloc: Global, device: &RefCell<MemDisk>) -> Option<u64> {
    let file = DeviceFile { device };
    let mut disk = ImageDisk::blank(alloc, file, ImageKind::Journaled, LEN as u64).ok()?;
    let is_first = put(&mut disk, 1);
    let before = match device.try_borrow() {
        Ok(now) => now.stops(),
        Err(_) => 0,
    };
    let is_second = put(&mut disk, 2);
    drop(disk);
    if is_first && is_second {
        Some(before)
    } else {
        None
    }
}

fn put<D: Disk>(disk: &mut D, byte: u8) -> bool {
    disk.write_at(0, &[byte; LEN]).is_ok() && disk.sync().is_ok()
}

// The one byte that the image has everywhere in a file of these bytes. `None`: there is none, or the image that is read without being
// written is another one.
fn byte_in(alloc: Global, bytes: &[u8]) -> Option<u8> {
    let device = RefCell::new(MemDisk::from_bytes(alloc, bytes).ok()?);
    let read = read_in(alloc, &device, bytes);
    let found = found_in(alloc, &device);
    drop(device);
    if read == found { found } else { None }
}

// As it is read. `None` also where the file was written.
fn read_in(alloc: Global, device: &RefCell<MemDisk>, bytes: &[u8]) -> Option<u8> {
    let image = whole_image(alloc, DeviceFile { device }).ok()?;
    let byte = only_byte(&image);
    drop(image);
    let now = device.try_borrow().ok()?;
    if now.bytes() == bytes { byte } else { None }
}

// As its disk finds it.
fn found_in(alloc: Global, device: &RefCell<MemDisk>) -> Option<u8> {
    let mut disk = ImageDisk::found(alloc, DeviceFile { device }, &[]).ok()?;
    let mut image = [0; LEN];
    let read = disk.read_at(0, &mut image);
    drop(disk);
    if read.is_ok() {
        only_byte(&image)
    } else {
        None
    }
}

fn only_byte(image: &[u8]) -> Option<u8> {
    let first = *image.first()?;
    if image.len() == LEN && image == &[first; LEN][..] {
        Some(first)
    } else {
        None
    }
}

// Whether a crash at each stop of the second sync leaves one image or the other, and one after it the second.
fn is_right(alloc: Global) -> Option<bool> {
    let (device, before) = synced_twice(alloc)?;
    let is_right = is_right_since(alloc, &device, before);
    drop(device);
    is_right
}

fn is_right_since(alloc: Global, device: &MemDisk, before: u64) -> Option<bool> {
    let mut chance = Chance::new(5);
    let end = device.stops().saturating_add(1);
    for stop in before.saturating_add(1)..end.saturating_add(1) {
        let bytes = crashed_bytes(
            alloc,
            device,
            stop,
            SectorSize::Bytes512,
            Damage::OldOrNew,
            &mut chance,
        )?;
        let byte = byte_in(alloc, &bytes);
        drop(bytes);
        if byte != Some(2) && (byte != Some(1) || stop == end) {
            return Some(false);
        }
    }
    Some(true)
}

#[test]
fn a_crash_of_a_file_behind_a_journal_leaves_the_last_image_or_this_one(rt: HostRuntime) {
    assert!(rt; is_right(rt.alloc()) == Some(true));
}
