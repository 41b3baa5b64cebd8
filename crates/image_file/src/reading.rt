//! Reading the image in a file.
ghost use Rattle.std.specs.Prelude.{IfOk};
ghost use Rattle.image_file.specs.Showing.{ReadsImage};

use crate::error::FileFault;
use crate::trouble::{Place, Trouble};
use crate::watched::Watched;
use disk_file::{BackingFile, Claim};
use disk_sector_file::{ImageBytes, has_label};
use heap_model::{LANES, MOST_CAPACITY, MOST_FIELDS};
use image::{HEAD_BYTES, HEADER_BYTES, is_formatted};
use std::alloc::Global;
use std::fs;
use std::io::{Chain, Cursor, Read, Take};
use std::rt::Files;

// How many bytes the image of the most and longest lanes and of the most fields has.
const MOST_BYTES: u64 = HEAD_BYTES as u64
    + 24 * MOST_FIELDS as u64
    + 16 * LANES as u64 * MOST_CAPACITY as u64;

// An image file that is to be read: its header, which was read first, and what is behind it.
type ImageReader<'a, F> = Chain<Cursor<Vec<u8>>, Take<ImageBytes<Watched<'a, F>>>>;

/// Reads the image file at this path, as far as its header says that the image goes, and shares it with others that only read it.
///
/// `InUse`: another open has claimed it alone. `NotImage`: it doesn't begin as an image; no more than its header was read.
pub(crate) fn read_there<F, R>(
    rt: &R,
    alloc: Global,
    path: &str,
    trouble: &Trouble,
) -> Result<Vec<u8>, FileFault>
where
    F: BackingFile + Read + Drop,
    R: Files<File = F>,
{
    let (mut reader, room) = match open_to_read(rt, alloc, path, trouble) {
        Ok(opened) => opened,
        Err(fault) => return Err(fault),
    };
    let image = read_image(alloc, &mut reader, room);
    drop(reader);
    image
}

// Opens the image file to be read. Beside it stands for how many bytes room is made: as many as the file has, up to the image's end.
fn open_to_read<'a, F, R>(
    rt: &R,
    alloc: Global,
    path: &str,
    trouble: &'a Trouble,
) -> Result<(ImageReader<'a, F>, usize), FileFault>
where
    F: BackingFile + Read + Drop,
    R: Files<File = F>,
{
    let file = match fs::open(rt, path) {
        Ok(file) => file,
        Err(error) => {
            trouble.note(Place::Image, &error);
            return Err(FileFault::Fault);
        }
    };
    if is_in_use(&file) {
        drop(file);
        return Err(FileFault::InUse);
    }
    begin_to_read(alloc, Watched::new(file, Place::Image, trouble))
}

// Whether another open has claimed this file alone. Where a file can't be claimed, as a pipe, it is read as it is.
fn is_in_use<F: BackingFile>(file: &F) -> bool {
    match file.claim(Claim::Shared) {
        Ok(is_claimed) => !is_claimed,
        Err(_) => false,
    }
}

// Reads the header of an image's file.
fn begin_to_read<'a, F: BackingFile + Read + Drop>(
    alloc: Global,
    file: Watched<'a, F>,
) -> Result<(ImageReader<'a, F>, usize), FileFault> {
    let mut file = file;
    let head = match read_head(alloc, &mut file) {
        Ok(head) => head,
        Err(fault) => {
            drop(file);
            return Err(fault);
        }
    };
    if is_formatted(&head) {
        return Ok(reader_of(ImageBytes::Plain(file), head));
    }
    let behind = behind_label(alloc, file, &head);
    drop(head);
    match behind {
        Ok(bytes) => begin_to_read_behind(alloc, bytes),
        Err(fault) => Err(fault),
    }
}

// The same for the bytes of a disk behind a label, which have a header of their own.
fn begin_to_read_behind<'a, F: BackingFile + Read + Drop>(
    alloc: Global,
    bytes: ImageBytes<Watched<'a, F>>,
) -> Result<(ImageReader<'a, F>, usize), FileFault> {
    let mut bytes = bytes;
    match read_head(alloc, &mut bytes) {
        Ok(head) => {
            if is_formatted(&head) {
                Ok(reader_of(bytes, head))
            } else {
                drop(head);
                drop(bytes);
                Err(FileFault::NotImage)
            }
        }
        Err(fault) => {
            drop(bytes);
            Err(fault)
        }
    }
}

// As many bytes as a header has, or all where there are fewer.
fn read_head<S: Read>(alloc: Global, file: &mut S) -> Result<Vec<u8>, FileFault> {
    let mut head = Vec::new(alloc);
    match file
        .by_ref()
        .take(HEADER_BYTES as u64)
        .read_to_end(&mut head)
    {
        Ok(_) => Ok(head),
        Err(error) => {
            drop(head);
            Err(fault_of_reading(&error))
        }
    }
}

// What reads the image with this header, which was read from the file, and for how many bytes room is made.
fn reader_of<'a, F: BackingFile + Read + Drop>(
    file: ImageBytes<Watched<'a, F>>,
    head: Vec<u8>,
) -> (ImageReader<'a, F>, usize) {
    let size = size_in(&head);
    // Of a pipe no length is known: what is read of it makes room for itself.
    let room = file.len().unwrap_or(0).min(size) as usize;
    let rest = size.saturating_sub(HEADER_BYTES as u64);
    (Cursor::new(head).chain(file.take(rest)), room)
}

// The bytes of the disk in two places or behind a journal that this file is, which begins so.
fn behind_label<F: BackingFile + Drop>(
    alloc: Global,
    file: F,
    head: &[u8],
) -> Result<ImageBytes<F>, FileFault> {
    if !has_label(head) {
        drop(file);
        return Err(FileFault::NotImage);
    }
    match ImageBytes::found(alloc, file) {
        // It has less than its label counts.
        Ok(ImageBytes::Plain(file)) => {
            drop(file);
            Err(FileFault::NotImage)
        }
        Ok(bytes) => Ok(bytes),
        Err(error) => Err(FileFault::from(error)),
    }
}

fn fault_of_reading(error: &std::io::Error) -> FileFault {
    match error.kind() {
        std::io::ErrorKind::OutOfMemory => FileFault::NoMemory,
        _ => FileFault::Fault,
    }
}

/// The image's size, as a header says, or no more than the header's where no image has so many bytes.
pub(crate) fn size_in(head: &[u8]) -> u64 {
    let mut size = 0u64;
    for place in 24..32 {
        let byte = head.get(place).copied().unwrap_or(0);
        size = size << 8 | u64::from(byte);
    }
    if size > MOST_BYTES {
        HEADER_BYTES as u64
    } else {
        size
    }
}

// Reads an image to its end. It is in memory once, where it has no more bytes than room was made for.
fn read_image<S: Read>(alloc: Global, reader: &mut S, room: usize) -> Result<Vec<u8>, FileFault>
    // An image is read to its end.
    ensures { IfOk result
        (λ image. ReadsImage (S.remaining reader.old) (S.remaining reader.new) image.items) }
{
    // One byte more, so that the end is found without more room.
    let Ok(mut image) = Vec::with_capacity(alloc, room.saturating_add(1)) else {
        return Err(FileFault::NoMemory);
    };
    match reader.read_to_end(&mut image) {
        Ok(_) => Ok(image),
        Err(error) => {
            drop(image);
            Err(fault_of_reading(&error))
        }
    }
}
