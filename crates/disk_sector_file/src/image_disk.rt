//! The disk of an image file of each kind.
ghost use Rattle.std.specs.Prelude.{◌≡◌, IfOk, IfSome};
ghost use Rattle.block_disk.specs.Device.{new_device};
ghost use Rattle.disk_sector_file.specs.ImageDisks.{IsFoundBehind, IsFoundBy, LacksAsFound, device_on, kind_on, sectors_for, zeros_for};
ghost use Rattle.disk_file.specs.Backing.{bytes_at};
ghost use Rattle.disk_sectors.specs.Size.{zeros_in};

use crate::file_sectors::FileSectors;
use crate::image_kind::ImageKind;
use crate::journals::{make_journal, open_journal, told_of};
use crate::labels::{FileLabel, label_of};
use block_disk::{Disk, DiskError, Fault};
use disk_file::{BackingFile, BufferedDisk};
use disk_journal::Journaled;
use disk_sectors::{Label, PlacesError, SectorSize, TwoPlaces};
use std::alloc::Global;

/// The disk of an image file: of the file's own bytes, the one in two places that lies on its sectors, or the one behind its journal.
#[derive(Drop)]
pub enum ImageDisk<F: BackingFile + Drop> {
    /// That of the file's own bytes, which reach it at each sync.
    Plain(BufferedDisk<F>),
    /// The one in two places.
    Placed(TwoPlaces<FileSectors<F>>),
    /// The one behind a journal.
    Journaled(Journaled<BufferedDisk<F>>),
}

impl<F: BackingFile + Drop> ImageDisk<F> {
    /// The disk of this file, of the kind that its label says, if it has one and all that this counts. In two places nothing is written; the
    /// newest batch of a journal is brought to its place. Of a file without a label the bytes at the places are written again, each with its own
    /// value, and synced.
    ///
    /// `Fault` and `NoMemory`, as they come.
    pub fn found(alloc: Global, mut file: F, places: &[u64]) -> Result<ImageDisk<F>, PlacesError>
        ensures ok { IfOk result (λ disk. device_on disk ≡ new_device (device_on disk).now.bytes) }
        // Once an image in one place is open, a crash leaves what was read of it, but for bytes elsewhere than at the places
        // that its device didn't have.
        ensures lacks { IfOk result (λ disk. LacksAsFound (bytes_at places.now) (F.holds file) disk) }
        // Opening an image in one place writes the bytes at the places, each with its own value, and no others.
        ensures found { IfOk result (λ disk. IsFoundBy (bytes_at places.now) (F.holds file) disk) }
        // A file that begins with a journal's label, and has all that it counts, is opened as the image that it stands for; no other is
        // opened as one behind a journal.
        ensures journal { IfOk result (λ disk. IfSome (F.holds file) (λ h. IsFoundBehind h.reads disk)) }
    {
        match label_of(&mut file) {
            Ok(Some(FileLabel::Places(label))) => match open_places(alloc, file, label) {
                Ok(disk) => Ok(ImageDisk::Placed(disk)),
                Err(why) => Err(why),
            },
            Ok(Some(FileLabel::Journal(_))) => match open_journal(alloc, file) {
                Ok(disk) => Ok(ImageDisk::Journaled(disk)),
                Err(why) => Err(why),
            },
            Ok(None) => match BufferedDisk::found(alloc, file, places) {
                Ok(disk) => Ok(ImageDisk::Plain(disk)),
                Err(error) => Err(told_of(error)),
            },
            Err(_) => {
                drop(file);
                Err(PlacesError::Fault)
            }
        }
    }

    /// A disk of zeros of this kind in this file, whatever it had, of so many bytes; in two places and behind a journal of as many more as the
    /// last sector or page takes.
    ///
    /// `TooSmall` says that no file has so many bytes; then `NoMemory` and `Fault`, as they come.
    pub fn blank(
        alloc: Global,
        file: F,
        kind: ImageKind,
        len: u64,
    ) -> Result<ImageDisk<F>, PlacesError>
        ensures ok { IfOk result (λ disk. device_on disk ≡ new_device (zeros_for kind len)) }
        ensures lies { IfOk result (λ disk. kind_on disk ≡ kind) }
    {
        match kind {
            ImageKind::Placed(size) => match make_places(alloc, file, size, len) {
                Ok(disk) => Ok(ImageDisk::Placed(disk)),
                Err(why) => Err(why),
            },
            ImageKind::Journaled => match make_journal(alloc, file, len) {
                Ok(disk) => Ok(ImageDisk::Journaled(disk)),
                Err(why) => Err(why),
            },
            ImageKind::Plain => match BufferedDisk::filled(alloc, file, len) {
                Ok(disk) => Ok(ImageDisk::Plain(disk)),
                Err(error) => Err(told_of(error)),
            },
        }
    }
}

/// The disk in two places that this file has, as its label says. Nothing is written.
pub(crate) fn open_places<F: BackingFile + Drop>(
    alloc: Global,
    file: F,
    label: Label,
) -> Result<TwoPlaces<FileSectors<F>>, PlacesError>
    ensures { IfOk result (λ disk. disk.device ≡ new_device disk.device.now.bytes) }
{
    let count = label.count as usize;
    let sectors = match FileSectors::found(alloc, file, label.size, count) {
        Ok(sectors) => sectors,
        Err(why) => return Err(why),
    };
    match TwoPlaces::open(alloc, sectors, count) {
        Ok(disk) => Ok(disk),
        Err((sectors, why)) => {
            drop(sectors);
            Err(why)
        }
    }
}

// One of zeros, of so many bytes and as many more as its last sector has, in this file, whatever it had.
fn make_places<F: BackingFile + Drop>(
    alloc: Global,
    file: F,
    size: SectorSize,
    len: u64,
) -> Result<TwoPlaces<FileSectors<F>>, PlacesError>
    ensures ok { IfOk result (λ disk. disk.device ≡ new_device (zeros_in size (sectors_for size len))) }
    ensures size { IfOk result (λ disk. disk.size ≡ size) }
{
    let count = sectors_in(size, len);
    let sectors = match FileSectors::blank(alloc, file, size, count) {
        Ok(sectors) => sectors,
        Err(why) => return Err(why),
    };
    match TwoPlaces::create(alloc, sectors, count) {
        Ok(disk) => Ok(disk),
        Err((sectors, why)) => {
            drop(sectors);
            Err(why)
        }
    }
}

// How many sectors take so many bytes.
fn sectors_in(size: SectorSize, len: u64) -> usize
    ensures { result ≡ sectors_for size len }
{
    match size {
        SectorSize::Bytes512 => len.div_ceil(512) as usize,
        SectorSize::Bytes4096 => len.div_ceil(4096) as usize,
    }
}

impl<F: BackingFile + Drop> Disk for ImageDisk<F> {
    ghost device = { device_on };

    fn size(&self) -> u64 {
        match self {
            ImageDisk::Plain(disk) => disk.size(),
            ImageDisk::Placed(disk) => disk.size(),
            ImageDisk::Journaled(disk) => disk.size(),
        }
    }

    fn read_at(&mut self, at: u64, out: &mut [u8]) -> Result<(), DiskError> {
        match self {
            ImageDisk::Plain(disk) => disk.read_at(at, out),
            ImageDisk::Placed(disk) => disk.read_at(at, out),
            ImageDisk::Journaled(disk) => disk.read_at(at, out),
        }
    }

    fn write_at(&mut self, at: u64, bytes: &[u8]) -> Result<(), DiskError> {
        match self {
            ImageDisk::Plain(disk) => disk.write_at(at, bytes),
            ImageDisk::Placed(disk) => disk.write_at(at, bytes),
            ImageDisk::Journaled(disk) => disk.write_at(at, bytes),
        }
    }

    fn write_units(&mut self, at: u64, units: &[u8], count: usize) -> Result<(), Fault> {
        match self {
            ImageDisk::Plain(disk) => disk.write_units(at, units, count),
            ImageDisk::Placed(disk) => disk.write_units(at, units, count),
            ImageDisk::Journaled(disk) => disk.write_units(at, units, count),
        }
    }

    fn sync(&mut self) -> Result<(), DiskError> {
        match self {
            ImageDisk::Plain(disk) => disk.sync(),
            ImageDisk::Placed(disk) => disk.sync(),
            ImageDisk::Journaled(disk) => disk.sync(),
        }
    }

    fn failures(&self) -> u64 {
        match self {
            ImageDisk::Plain(disk) => disk.failures(),
            ImageDisk::Placed(disk) => disk.failures(),
            ImageDisk::Journaled(disk) => disk.failures(),
        }
    }
}
