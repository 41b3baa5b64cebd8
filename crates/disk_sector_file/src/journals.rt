//! Journals on files.
ghost use Rattle.std.specs.Prelude.{◌≡◌, ◌*◌, ◌^◌, ◌<◌, IfOk, IfSome, replicate};
ghost use Rattle.block_disk.specs.Device.{new_device};
ghost use Rattle.disk_sector_file.specs.FileLabels.{IsBehind};
ghost use Rattle.disk_sector_file.specs.ImageDisks.{pages_for};
ghost use Rattle.journal_batches.specs.Areas.{room_of};

use crate::image_bytes::first_bytes;
use disk_file::{BackingFile, BufferedDisk, FileError, VolatileDisk};
use disk_journal::{JournalError, Journaled};
use disk_sectors::PlacesError;
use journal_batches::Areas;
use std::alloc::Global;

// How many pages a half of a new journal has: 32,984 words fit into one batch.
const HALF_PAGES: usize = 133;

/// How many bytes a file with these parts has.
pub fn room_of_journal(areas: Areas) -> u64
    ensures { room_of areas < 2 ^ 64 → result ≡ room_of areas }
{
    let pages = (areas.half as u64)
        .saturating_mul(2)
        .saturating_add(areas.image as u64)
        .saturating_add(1);
    pages.saturating_mul(4096)
}

/// The parts of a new journal with an image of so many bytes, and as many more as its last page takes.
pub fn journal_for(len: u64) -> Areas
    ensures half { result.half ≡ 133 }
    ensures image { result.image ≡ pages_for len }
{
    Areas {
        half: HALF_PAGES,
        image: len.div_ceil(4096) as usize,
    }
}

/// The disk behind the journal in this file. What was read of the journal is made durable first.
pub(crate) fn open_journal<F: BackingFile + Drop>(
    alloc: Global,
    file: F,
) -> Result<Journaled<BufferedDisk<F>>, PlacesError>
    ensures fresh { IfOk result (λ disk. disk.device ≡ new_device disk.device.now.bytes) }
    ensures ok { IfOk result (λ disk. IfSome (F.holds file) (λ h. IsBehind h.reads disk.device.now.bytes)) }
{
    let below = match BufferedDisk::found(alloc, file, &[]) {
        Ok(below) => below,
        Err(error) => return Err(told_of(error)),
    };
    match Journaled::open(alloc, below) {
        Ok(disk) => Ok(disk),
        Err((below, why)) => {
            drop(below);
            Err(told_of_journal(why))
        }
    }
}

/// The disk behind the journal in this file, of which nothing is written: the file's bytes and the journal are opened in memory.
pub(crate) fn look_behind_journal<F: BackingFile + Drop>(
    alloc: Global,
    file: F,
    areas: Areas,
) -> Result<Journaled<VolatileDisk>, PlacesError>
    ensures { IfOk result (λ disk. IfSome (F.holds file) (λ h. IsBehind h.reads disk.device.now.bytes)) }
{
    let bytes = match first_bytes(alloc, file, room_of_journal(areas)) {
        Ok(bytes) => bytes,
        Err(why) => return Err(why),
    };
    match Journaled::open(alloc, VolatileDisk::holding(bytes)) {
        Ok(disk) => Ok(disk),
        Err((below, why)) => {
            drop(below);
            Err(told_of_journal(why))
        }
    }
}

/// A disk of zeros behind a new journal in this file, whatever it had, of so many bytes and as many more as its last page takes.
pub(crate) fn make_journal<F: BackingFile + Drop>(
    alloc: Global,
    file: F,
    len: u64,
) -> Result<Journaled<BufferedDisk<F>>, PlacesError>
    ensures { IfOk result (λ disk. disk.device ≡ new_device (replicate (pages_for len * 4096) 0)) }
{
    let areas = journal_for(len);
    let below = match BufferedDisk::filled(alloc, file, room_of_journal(areas)) {
        Ok(below) => below,
        Err(error) => return Err(told_of(error)),
    };
    match Journaled::create(alloc, below, areas) {
        Ok(disk) => Ok(disk),
        Err((below, why)) => {
            drop(below);
            Err(told_of_journal(why))
        }
    }
}

/// That there is no disk over a file's own bytes.
pub(crate) fn told_of(error: FileError) -> PlacesError {
    match error {
        FileError::Fault => PlacesError::Fault,
        FileError::NoMemory => PlacesError::NoMemory,
    }
}

// That there is none behind its journal. The label was read before: without it another process has changed the file.
fn told_of_journal(why: JournalError) -> PlacesError {
    match why {
        JournalError::NoJournal | JournalError::TooSmall => PlacesError::TooSmall,
        JournalError::NoMemory => PlacesError::NoMemory,
        JournalError::Worn | JournalError::Fault => PlacesError::Fault,
    }
}
