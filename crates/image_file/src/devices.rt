//! Images on block devices, which end where a header says so, and are made in place.

use crate::claiming::{claim_at, no_file};
use crate::error::FileFault;
use crate::reading::size_in;
use crate::trouble::{Place, Trouble};
use disk_file::{BackingFile, Claim};
use disk_sector_file::{FileLabel, ImageKind, journal_for, label_of, room_of_journal};
use disk_sectors::SectorSize;
use image::{HEADER_BYTES, is_formatted};
use std::fs::OpenFile;
use std::io;
use std::os::unix::fs::FileTypeExt;
use std::rt::Files;

// What is noted where a device has less room than an image takes (ENOSPC).
const NO_SPACE: i32 = 28;

/// The bytes of a file; or the first bytes of a block device, which keeps its length. What it holds isn't known.
#[derive(Drop)]
pub struct Beginning<F: Drop> {
    inner: F,
    is_device: bool,
    // It is taken to end here, or before.
    end: u64,
}

impl<F: BackingFile + Drop> Beginning<F> {
    /// A file, or a block device, for a new image.
    pub(crate) fn new(inner: F, is_device: bool) -> Beginning<F> {
        Beginning {
            inner,
            is_device,
            end: u64::MAX,
        }
    }

    /// A file with an image; or a block device that begins with one, as far as the image goes.
    pub(crate) fn found(mut inner: F, is_device: bool) -> io::Result<Beginning<F>> {
        let mut end = u64::MAX;
        if is_device {
            end = match end_of_image(&mut inner) {
                Ok(end) => end,
                Err(error) => {
                    drop(inner);
                    return Err(error);
                }
            };
        }
        Ok(Beginning {
            inner,
            is_device,
            end,
        })
    }
}

// Where the image ends that its header tells of, or the journal that its label tells of. One in two places goes as far as its label says.
fn end_of_image<F: BackingFile>(device: &mut F) -> io::Result<u64> {
    let mut head = [0; HEADER_BYTES];
    device.read_from(0, &mut head)?;
    if is_formatted(&head) {
        return Ok(size_in(&head));
    }
    match label_of(device)? {
        Some(FileLabel::Journal(areas)) => Ok(room_of_journal(areas)),
        Some(FileLabel::Places(_)) | None => Ok(u64::MAX),
    }
}

impl<F: BackingFile + Drop> BackingFile for Beginning<F> {
    fn len(&self) -> io::Result<u64> {
        Ok(self.inner.len()?.min(self.end))
    }

    fn empty(&mut self) -> io::Result<()> {
        if self.is_device {
            return Ok(());
        }
        self.inner.empty()
    }

    fn read_from(&mut self, at: u64, out: &mut [u8]) -> io::Result<()> {
        self.inner.read_from(at, out)
    }

    fn write_to(&mut self, at: u64, bytes: &[u8]) -> io::Result<()> {
        self.inner.write_to(at, bytes)
    }

    fn write_back(&mut self, at: u64) -> io::Result<()> {
        self.inner.write_back(at)
    }

    fn settle(&mut self) -> io::Result<()> {
        self.inner.settle()
    }

    fn claim(&self, claim: Claim) -> io::Result<bool> {
        self.inner.claim(claim)
    }
}

/// Claims the block device at this path for a new image of this kind and so many bytes. `None`: no block device is there.
///
/// `NotImage`: it has other bytes than zeros where the image is to be; `InUse`: another process has it.
pub(crate) fn take_device<F, R>(
    rt: &R,
    path: &str,
    kind: ImageKind,
    size: u64,
    trouble: &Trouble,
) -> Result<Option<F>, FileFault>
where
    F: BackingFile + OpenFile + Drop,
    R: Files<File = F>,
{
    if !is_device_at(rt, path) {
        return Ok(None);
    }
    let Some(mut device) = claim_at(rt, path, trouble)? else {
        trouble.note(Place::Image, &no_file());
        return Err(FileFault::Fault);
    };
    let fault = match is_blank(&mut device, room_on(kind, size)) {
        Ok(true) => return Ok(Some(device)),
        Ok(false) => FileFault::NotImage,
        Err(error) => {
            trouble.note(Place::Image, &error);
            FileFault::Fault
        }
    };
    drop(device);
    Err(fault)
}

fn is_device_at<R: Files>(rt: &R, path: &str) -> bool {
    match rt.metadata(path) {
        Ok(there) => there.file_type().is_block_device(),
        Err(_) => false,
    }
}

// How many bytes a new image of this kind and size takes.
fn room_on(kind: ImageKind, size: u64) -> u64 {
    match kind {
        ImageKind::Plain => size,
        ImageKind::Placed(SectorSize::Bytes512) => in_two_places(size.div_ceil(512), 512),
        ImageKind::Placed(SectorSize::Bytes4096) => in_two_places(size.div_ceil(4096), 4096),
        ImageKind::Journaled => room_of_journal(journal_for(size)),
    }
}

// Label, gate, and two areas of so many sectors.
fn in_two_places(count: u64, len: u64) -> u64 {
    count
        .saturating_mul(2)
        .saturating_add(2)
        .saturating_mul(len)
}

// Whether the device has room for so many bytes, and only zeros there.
fn is_blank<F: BackingFile>(device: &mut F, room: u64) -> io::Result<bool> {
    if device.len()? < room {
        return Err(io::Error::from_raw_os_error(NO_SPACE));
    }
    let zeros = [0; 4096];
    let mut piece = [0; 4096];
    for number in 0..room.div_ceil(4096) {
        let at = number.saturating_mul(4096);
        let len = room.saturating_sub(at).min(4096) as usize;
        device.read_from(at, &mut piece[..len])?;
        let is_zero = piece[..len] == zeros[..len];
        if !is_zero {
            return Ok(false);
        }
    }
    Ok(true)
}
