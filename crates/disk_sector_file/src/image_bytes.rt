//! The bytes of an image file of each kind, to be read from their beginning on.
ghost use Rattle.std.specs.Prelude.{◌≡◌, IfOk, IfSome};
ghost use Rattle.disk_file.specs.Backing.{GivesPart};
ghost use Rattle.disk_sector_file.specs.ImageDisks.{IsLookedBehind, IsReadBehind};

use crate::file_sectors::FileSectors;
use crate::image_disk::open_places;
use crate::journals::look_behind_journal;
use crate::labels::{FileLabel, label_of};
use block_disk::{Disk, DiskError};
use disk_file::{BackingFile, VolatileDisk};
use disk_journal::Journaled;
use disk_sectors::{PlacesError, TwoPlaces};
use std::alloc::Global;
use std::io;
use std::io::{ErrorKind, Read};

/// The bytes of an image file: its own, or those of the disk in two places or behind a journal that it is.
#[derive(Drop)]
pub enum ImageBytes<F: BackingFile + Drop> {
    /// The file's own.
    Plain(F),
    /// Those of the disk in two places.
    Placed(DiskBytes<TwoPlaces<FileSectors<F>>>),
    /// Those of the disk behind a journal.
    Journaled(DiskBytes<Journaled<VolatileDisk>>),
}

/// The bytes of a disk.
#[derive(Drop)]
pub struct DiskBytes<D: Disk + Drop> {
    disk: D,
    // Where the next read begins.
    at: u64,
}

impl<F: BackingFile + Drop> ImageBytes<F> {
    /// The bytes of this file, of the kind that its label says, if it has one and all that this counts. Nothing is written.
    ///
    /// `Fault` and `NoMemory`, as they come.
    pub fn found(alloc: Global, mut file: F) -> Result<ImageBytes<F>, PlacesError>
        // Of a file that begins with a journal's label, and has all that it counts, the bytes are those of the image that it stands for.
        ensures { IfOk result (λ bytes. IfSome (F.holds file) (λ h. IsLookedBehind h.reads bytes)) }
    {
        match label_of(&mut file) {
            Ok(Some(FileLabel::Places(label))) => match open_places(alloc, file, label) {
                Ok(disk) => Ok(ImageBytes::Placed(DiskBytes { disk, at: 0 })),
                Err(why) => Err(why),
            },
            Ok(Some(FileLabel::Journal(areas))) => match look_behind_journal(alloc, file, areas) {
                Ok(disk) => Ok(ImageBytes::Journaled(DiskBytes { disk, at: 0 })),
                Err(why) => Err(why),
            },
            Ok(None) => Ok(ImageBytes::Plain(file)),
            Err(_) => {
                drop(file);
                Err(PlacesError::Fault)
            }
        }
    }

    /// How many there are, as far as the file tells.
    pub fn len(&self) -> io::Result<u64> {
        match self {
            ImageBytes::Plain(file) => file.len(),
            ImageBytes::Placed(bytes) => Ok(bytes.disk.size()),
            ImageBytes::Journaled(bytes) => Ok(bytes.disk.size()),
        }
    }
}

impl<F: BackingFile + Read + Drop> Read for ImageBytes<F> {
    fn read(&mut self, buf: &mut [u8]) -> io::Result<usize> {
        match self {
            ImageBytes::Plain(file) => file.read(buf),
            ImageBytes::Placed(bytes) => bytes.read(buf),
            ImageBytes::Journaled(bytes) => bytes.read(buf),
        }
    }
}

impl<D: Disk + Drop> Read for DiskBytes<D> {
    fn read(&mut self, buf: &mut [u8]) -> io::Result<usize> {
        let rest = self.disk.size().saturating_sub(self.at);
        let len = rest.min(buf.len() as u64) as usize;
        told(self.disk.read_at(self.at, &mut buf[..len]))?;
        self.at = self.at.saturating_add(len as u64);
        Ok(len)
    }
}

/// All bytes of the image in this file, of each kind. The file needs no right to be written, and nothing is.
///
/// `Fault` and `NoMemory`, as they come.
pub fn whole_image<F: BackingFile + Drop>(
    alloc: Global,
    mut file: F,
) -> Result<Vec<u8>, PlacesError>
    // Of a file that begins with a journal's label, and has all that it counts, the image is read that it stands for.
    ensures { IfOk result (λ image. IfSome (F.holds file) (λ h. IsReadBehind h.reads image.items)) }
{
    match label_of(&mut file) {
        Ok(Some(FileLabel::Places(label))) => match open_places(alloc, file, label) {
            Ok(disk) => whole_disk(alloc, disk),
            Err(why) => Err(why),
        },
        Ok(Some(FileLabel::Journal(areas))) => match look_behind_journal(alloc, file, areas) {
            Ok(disk) => whole_disk(alloc, disk),
            Err(why) => Err(why),
        },
        Ok(None) => whole_file(alloc, file),
        Err(_) => {
            drop(file);
            Err(PlacesError::Fault)
        }
    }
}

fn whole_disk<D: Disk + Drop>(alloc: Global, mut disk: D) -> Result<Vec<u8>, PlacesError>
    ensures { IfOk result (λ bytes. bytes.items ≡ (D.device disk).now.bytes) }
{
    let Ok(mut bytes) = vec![in alloc; 0u8; disk.size() as usize] else {
        drop(disk);
        return Err(PlacesError::NoMemory);
    };
    let read = disk.read_at(0, &mut bytes);
    drop(disk);
    match read {
        Ok(()) => Ok(bytes),
        Err(_) => Err(PlacesError::Fault),
    }
}

fn whole_file<F: BackingFile + Drop>(alloc: Global, file: F) -> Result<Vec<u8>, PlacesError> {
    let Ok(len) = file.len() else {
        drop(file);
        return Err(PlacesError::Fault);
    };
    first_bytes(alloc, file, len)
}

/// So many bytes, with which this file begins.
pub(crate) fn first_bytes<F: BackingFile + Drop>(
    alloc: Global,
    mut file: F,
    count: u64,
) -> Result<Vec<u8>, PlacesError>
    ensures { IfOk result (λ bytes. GivesPart 0 count bytes.items (F.holds file)) }
{
    let Ok(mut bytes) = vec![in alloc; 0u8; count as usize] else {
        drop(file);
        return Err(PlacesError::NoMemory);
    };
    let read = file.read_from(0, &mut bytes);
    drop(file);
    match read {
        Ok(()) => Ok(bytes),
        Err(_) => Err(PlacesError::Fault),
    }
}

// What a disk answers, as a file says it.
fn told(answer: Result<(), DiskError>) -> io::Result<()> {
    match answer {
        Ok(()) => Ok(()),
        Err(DiskError::OutOfRange) => Err(io::Error::from(ErrorKind::UnexpectedEof)),
        Err(DiskError::Fault) => Err(io::Error::from(ErrorKind::Other)),
    }
}
