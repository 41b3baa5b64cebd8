//! Image files that one open has at a time.

use crate::error::FileFault;
use crate::trouble::{Place, Trouble};
use disk_file::{BackingFile, Claim};
use disk_sector_file::label_of;
use image::{HEADER_BYTES, is_formatted};
use std::alloc::Global;
use std::fs::{Metadata, OpenFile, OpenOptions};
use std::io;
use std::io::ErrorKind;
use std::os::unix::fs::{FileTypeExt, MetadataExt};
use std::path::Path;
use std::rt::Files;

/// What a file has, by its length and its first bytes.
#[derive(Clone, Copy, Debug, PartialEq, Eq)]
pub enum Content {
    /// No bytes; or a block device that begins with zeros.
    Nothing,
    /// What an image begins with: its name and an open gate; or the label of one in two places or behind a journal, of which all is there.
    Image,
    /// Other bytes; or it is neither a regular file nor a block device.
    Other,
}

// What the system says where there is no file (ENOENT).
const NO_FILE: i32 = 2;

/// What is told of a path at which there is no file.
pub(crate) fn no_file() -> io::Error {
    io::Error::from_raw_os_error(NO_FILE)
}

/// Whether it is a block device.
pub(crate) fn is_device<F: OpenFile>(file: &F) -> io::Result<bool> {
    Ok(file.metadata()?.file_type().is_block_device())
}

/// What a file has. No more than its header is read.
pub fn content_of<F: BackingFile + OpenFile>(
    file: &mut F,
    trouble: &Trouble,
) -> Result<Content, FileFault> {
    match read_content(file) {
        Ok(content) => Ok(content),
        Err(error) => {
            trouble.note(Place::Image, &error);
            Err(FileFault::Fault)
        }
    }
}

fn read_content<F: BackingFile + OpenFile>(file: &mut F) -> io::Result<Content> {
    let is_device = is_device(file)?;
    if !is_device && !file.metadata()?.is_file() {
        return Ok(Content::Other);
    }
    let len = file.len()?;
    if len == 0 {
        return Ok(Content::Nothing);
    }
    let mut head = [0; HEADER_BYTES];
    if len < HEADER_BYTES as u64 {
        return Ok(Content::Other);
    }
    file.read_from(0, &mut head)?;
    if is_formatted(&head) {
        return Ok(Content::Image);
    }
    if is_device && head[..] == [0; HEADER_BYTES][..] {
        return Ok(Content::Nothing);
    }
    match label_of(file) {
        Ok(Some(_)) => Ok(Content::Image),
        Ok(None) => Ok(Content::Other),
        Err(error) => Err(error),
    }
}

/// Opens the file at this path for reading and writing, and claims it for this open alone. `None` where there is no file.
///
/// `InUse`: another open has claimed it; or it isn't at this path any more, since another process has replaced it in between: what
/// would be written there would be lost.
pub fn claim_at<F, R>(rt: &R, path: &str, trouble: &Trouble) -> Result<Option<F>, FileFault>
where
    F: BackingFile + OpenFile + Drop,
    R: Files<File = F>,
{
    let mut options = OpenOptions::new();
    options.read(true).write(true);
    match options.open(rt, path) {
        Ok(file) => match claim(rt, path, &file, Place::Image, trouble) {
            Ok(()) => Ok(Some(file)),
            Err(fault) => {
                drop(file);
                Err(fault)
            }
        },
        Err(error) => {
            if error.kind() == ErrorKind::NotFound {
                return Ok(None);
            }
            trouble.note(Place::Image, &error);
            Err(FileFault::Fault)
        }
    }
}

/// Opens the image file at this path for reading and writing, and claims it for this open alone. It begins as an image; no more than
/// its header was read. Its name is durable.
pub(crate) fn claim_image<F, R>(
    rt: &R,
    alloc: Global,
    path: &str,
    trouble: &Trouble,
) -> Result<F, FileFault>
where
    F: BackingFile + OpenFile + Drop,
    R: Files<File = F>,
{
    let Some(mut file) = claim_at(rt, path, trouble)? else {
        trouble.note(Place::Image, &no_file());
        return Err(FileFault::Fault);
    };
    let fault = match content_of(&mut file, trouble) {
        Ok(Content::Image) => match keep_name(rt, alloc, path, &file) {
            Ok(()) => return Ok(file),
            Err(error) => {
                trouble.note(Place::Image, &error);
                FileFault::Fault
            }
        },
        Ok(Content::Nothing | Content::Other) => FileFault::NotImage,
        Err(fault) => fault,
    };
    drop(file);
    Err(fault)
}

// Makes the name of a claimed file durable. Whoever put the file there may have been killed before the folder was synced, and a sync of a file
// whose blocks exist keeps no rename: a power cut would take the name, with all that becomes durable in the file.
fn keep_name<F, R>(rt: &R, alloc: Global, path: &str, file: &F) -> io::Result<()>
where
    F: BackingFile + OpenFile + Drop,
    R: Files<File = F>,
{
    if is_device(file)? {
        return Ok(());
    }
    let target = rt.canonicalize(alloc, path)?;
    let synced = sync_folder_of(rt, target.as_str());
    drop(target);
    match synced {
        // Where the folder can't be read: file systems with a journal keep the name of a file with all that they say of it.
        Err(error) if error.kind() == ErrorKind::PermissionDenied => file.sync_all(),
        synced => synced,
    }
}

/// Syncs the folder that this path's file is in.
pub(crate) fn sync_folder_of<F, R>(rt: &R, path: &str) -> io::Result<()>
where
    F: BackingFile + Drop,
    R: Files<File = F>,
{
    let mut options = OpenOptions::new();
    options.read(true);
    let mut folder = options.open(rt, folder_of(path))?;
    folder.settle()
}

fn folder_of(path: &str) -> &str {
    match Path::new(path).parent() {
        Some(folder) => {
            let text = folder.as_str();
            if text.is_empty() { "." } else { text }
        }
        None => "/",
    }
}

/// Claims a file that was opened at this path for this open alone.
pub(crate) fn claim<F, R>(
    rt: &R,
    path: &str,
    file: &F,
    place: Place,
    trouble: &Trouble,
) -> Result<(), FileFault>
where
    F: BackingFile + OpenFile,
    R: Files<File = F>,
{
    match file.claim(Claim::Alone) {
        Ok(true) => {}
        Ok(false) => return Err(FileFault::InUse),
        Err(error) => {
            trouble.note(place, &error);
            return Err(FileFault::Fault);
        }
    }
    if is_at(rt, path, file, place) {
        Ok(())
    } else {
        Err(FileFault::InUse)
    }
}

// Whether the path leads to this file; of the one beside an image whether it is this file, and no link to it.
fn is_at<F: OpenFile, R: Files<File = F>>(rt: &R, path: &str, file: &F, place: Place) -> bool {
    let there = match place {
        Place::Beside => rt.symlink_metadata(path),
        _ => rt.metadata(path),
    };
    match (there, file.metadata()) {
        (Ok(there), Ok(here)) => is_same(&there, &here),
        _ => false,
    }
}

/// Whether these are of one file.
pub(crate) fn is_same(there: &Metadata, here: &Metadata) -> bool {
    there.dev() == here.dev() && there.ino() == here.ino()
}
