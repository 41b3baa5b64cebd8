//! All bytes of a file.
ghost use Rattle.std.specs.Prelude.{◌≡◌, [], option_map, IfOk, OnOk};
ghost use Rattle.disk_file.specs.Backing.{Appends, Has, HasFound, HasWrittenBackAll, MayLose, Reads, ReadsForGood, ReadsSettled, bytes_at, settled};

use crate::backing::BackingFile;
use crate::error::FileError;
use std::alloc::Global;
use std::fs::{Files, OpenOptions};
use std::io;

const PAGE: usize = 4096;

/// Opens a file that is new or is emptied later.
pub(crate) fn create_file<R: Files>(rt: &R, path: &str) -> Result<R::File, FileError> {
    let mut options = OpenOptions::new();
    options.read(true).write(true).create(true);
    options.open(rt, path).map_err(fault)
}

/// Opens a file that is there.
pub(crate) fn find_file<R: Files>(rt: &R, path: &str) -> Result<R::File, FileError> {
    let mut options = OpenOptions::new();
    options.read(true).write(true);
    options.open(rt, path).map_err(fault)
}

fn fault(_error: io::Error) -> FileError {
    FileError::Fault
}

/// Makes these the file's bytes, durably, whatever it had, by writes of 4,096 bytes at most. After a `Fault` it may have any bytes.
pub fn fill<F: BackingFile>(file: &mut F, bytes: &[u8]) -> Result<(), FileError>
    ensures { OnOk result (ReadsForGood bytes.now (F.holds file.new)) }
{
    file.empty().map_err(fault)?;
    write_in_pieces(file, bytes).map_err(fault)?;
    file.settle().map_err(fault)
}

// Writes these bytes into an empty file, a page at a time: of a file that one large write has made, the system may keep
// large pages, in each of which a small write takes long.
fn write_in_pieces<F: BackingFile>(file: &mut F, bytes: &[u8]) -> io::Result<()>
    requires { Has [] (F.holds file.old) }
    ensures { OnOk result (Has bytes.now (F.holds file.new)) }
{
    let mut rest = bytes;
    while !rest.is_empty() {
        let at = bytes.len() - rest.len();
        let (piece, later) = rest.split_at(PAGE.min(rest.len()));
        write_behind(file, at as u64, piece)?;
        rest = later;
    }
    Ok(())
}

// Writes these bytes at the end of a file that has so many.
fn write_behind<F: BackingFile>(file: &mut F, at: u64, piece: &[u8]) -> io::Result<()>
    ensures { OnOk result (Appends at piece.now (F.holds file.old) (F.holds file.new)) }
{
    file.write_to(at, piece)
}

/// The bytes of a file that was found. It is synced first, so that a write of another process that has failed is told, and nothing of it is
/// pending; then the bytes at these places are written again, each with its own value, and it is synced once more.
pub fn read_whole<F: BackingFile>(
    alloc: Global,
    file: &mut F,
    places: &[u64],
) -> Result<Vec<u8>, FileError>
    ensures given { IfOk result (λ bytes. Reads bytes.items (F.holds file.old)) }
    ensures settled { IfOk result (λ bytes. ReadsSettled bytes.items (F.holds file.new)) }
    // Opening a file writes the bytes at these places, each with its own value, and no others.
    ensures found { OnOk result (HasFound (bytes_at places.now) (F.holds file.old) (F.holds file.new)) }
    // However far an opening has come, a crash leaves what it left before, but for bytes at these places that the device
    // didn't have.
    ensures loses { MayLose (bytes_at places.now) (F.holds file.old) (F.holds file.new) }
{
    let bytes = match read_all(alloc, file) {
        Ok(bytes) => bytes,
        Err(error) => return Err(error),
    };
    if let Err(error) = write_back(file, places, bytes.len() as u64) {
        return Err(fault(error));
    }
    if let Err(error) = file.settle() {
        return Err(fault(error));
    }
    Ok(bytes)
}

// Syncs the file, and reads its bytes.
fn read_all<F: BackingFile>(alloc: Global, file: &mut F) -> Result<Vec<u8>, FileError>
    ensures given { IfOk result (λ bytes. Reads bytes.items (F.holds file.old)) }
    ensures synced { OnOk result (F.holds file.new ≡ option_map settled (F.holds file.old)) }
    ensures loses { MayLose [] (F.holds file.old) (F.holds file.new) }
{
    if let Err(error) = file.settle() {
        return Err(fault(error));
    }
    let len = file.len().map_err(fault)?;
    let mut bytes = vec![in alloc; 0u8; len as usize].map_err(|_| FileError::NoMemory)?;
    file.read_from(0, &mut bytes).map_err(fault)?;
    Ok(bytes)
}

// Writes the bytes at these places again, those that lie within so many.
fn write_back<F: BackingFile>(file: &mut F, places: &[u64], len: u64) -> io::Result<()>
    ensures ok { OnOk result (HasWrittenBackAll len places.now (F.holds file.old) (F.holds file.new)) }
    ensures loses { MayLose (bytes_at places.now) (F.holds file.old) (F.holds file.new) }
{
    let mut rest = places;
    while let Some((first, later)) = rest.split_first() {
        if *first < len {
            if let Err(error) = file.write_back(*first) {
                return Err(error);
            }
        }
        rest = later;
    }
    Ok(())
}
