//! Tells why a call to the system failed and what mends it, and of a path that leads to no regular file.

use image_file::{BESIDE, KEPT, KEPT_IN_USE, PASSING, Place};
use std::fs::FileType;
use std::io;
use std::io::ErrorKind;
use std::os::unix::fs::FileTypeExt;
use std::rt::Files;

/// The files that words name, and the one that a call was about.
#[derive(Clone, Copy)]
pub(crate) struct Path<'a> {
    pub(crate) image: &'a str,
    pub(crate) schema: &'a str,
    pub(crate) place: Place,
}

/// Tells this of a file.
pub(crate) fn tell<R: Eprint>(rt: &R, file: &str, text: &str) {
    if file.is_empty() {
        let _ = eprintln!(rt; "heapctl: '': {text}");
    } else {
        let _ = eprintln!(rt; "heapctl: {file}: {text}");
    }
}

/// Tells of a path that leads to no regular file, what it leads to; whether it is one.
pub(crate) fn is_wrong_path<R: Files + Eprint>(rt: &R, path: &str) -> bool {
    match wrong_path(rt, path) {
        Some(text) => {
            tell(rt, path, text);
            true
        }
        None => false,
    }
}

// What is wrong with a path that leads to no regular file, and what mends it.
fn wrong_path<R: Files>(rt: &R, path: &str) -> Option<&'static str> {
    if path.is_empty() {
        return Some("the path is empty; name a file");
    }
    match rt.metadata(path) {
        Ok(metadata) => wrong_kind(metadata.file_type()),
        Err(_) => match rt.symlink_metadata(path) {
            Ok(_) => Some(
                "it is a link to a file that isn't there, and is left alone; name that file, or remove the link",
            ),
            Err(_) => None,
        },
    }
}

fn wrong_kind(kind: FileType) -> Option<&'static str> {
    if kind.is_file() {
        None
    } else if kind.is_dir() {
        Some("it is a folder; name a file")
    } else if kind.is_block_device() {
        Some(
            "it is a block device: 'run' and 'set' want a regular file, and 'format' and 'drive' make an image where it has zeros alone (blkdiscard -z)",
        )
    } else {
        Some("it is a device, a pipe or a socket, which holds no image; name a regular file")
    }
}

/// Tells what a call that failed was about, and what the system says of it.
pub(crate) fn tell_cause<R: Files + Eprint>(rt: &R, path: &Path<'_>, error: &Option<io::Error>) {
    let (name, end) = match path.place {
        Place::Image => (path.image, ""),
        Place::Schema => (path.schema, ""),
        Place::Beside => (path.image, BESIDE),
        Place::Kept => (path.image, KEPT),
        Place::Passing => (path.image, PASSING),
        Place::Output => ("standard output", ""),
    };
    if is_named(path.place) && !is_device(rt, name) && is_wrong_path(rt, name) {
        return;
    }
    match error {
        Some(error) => {
            let cure = cure_of(rt, path, error);
            let _ = eprintln!(rt; "heapctl: {name}{end}: {error}{cure}");
        }
        None => {
            let _ = eprintln!(rt; "heapctl: {name}{end}: a call has failed");
        }
    }
}

// A word may work on it, so that a call which fails has a cause of its own.
fn is_device<R: Files>(rt: &R, path: &str) -> bool {
    match rt.metadata(path) {
        Ok(metadata) => metadata.file_type().is_block_device(),
        Err(_) => false,
    }
}

// The words name the file itself.
fn is_named(place: Place) -> bool {
    match place {
        Place::Image | Place::Schema | Place::Beside => true,
        Place::Kept | Place::Passing | Place::Output => false,
    }
}

// What mends it, where a user can.
fn cure_of<R: Files>(rt: &R, path: &Path<'_>, error: &io::Error) -> &'static str {
    match (error.kind(), path.place) {
        (_, Place::Kept) => kept_cure(error),
        (ErrorKind::AlreadyExists, Place::Passing) => {
            "; that isn't what a replacing leaves, so it stays: give it another name, or type '--force'"
        }
        (ErrorKind::NotFound, Place::Image) => "; 'heapctl format' and 'heapctl drive' make images",
        (ErrorKind::NotFound, Place::Beside) => "; make the folder first",
        (ErrorKind::AlreadyExists, Place::Beside) => {
            "; that isn't what a making leaves, so it stays: give it another name"
        }
        (ErrorKind::NotFound, Place::Schema) => "; name the schema file",
        (ErrorKind::PermissionDenied, _) => "; ask its owner for the right to read and write it",
        (ErrorKind::ReadOnlyFilesystem, _) => {
            "; where its disk has failed, mount it again, and recover; else copy the image to one that can be written"
        }
        (ErrorKind::StorageFull | ErrorKind::QuotaExceeded, Place::Output) => "; free some space",
        (ErrorKind::StorageFull | ErrorKind::QuotaExceeded, _) => room_cure(rt, path),
        (ErrorKind::IsADirectory, _) => "; name a file",
        (_, Place::Output) => "",
        _ => disk_cure(error),
    }
}

// What mends it where an image can't be kept.
fn kept_cure(error: &io::Error) -> &'static str {
    if error.raw_os_error() == Some(KEPT_IN_USE) {
        "; another process has the image that is kept there: wait until it has ended, or give that image another name"
    } else {
        "; the image that is there can't be kept beside a new one: make room for that, or type '--force'"
    }
}

// What the system says of a disk that fails (EIO). Until its file system is mounted again it may give what the disk hasn't.
const DISK_FAILS: i32 = 5;

// What mends it where the disk has failed.
fn disk_cure(error: &io::Error) -> &'static str {
    if error.raw_os_error() == Some(DISK_FAILS) {
        "; its disk has failed: mount the file system again, and recover"
    } else {
        ""
    }
}

// What mends want of room.
fn room_cure<R: Files>(rt: &R, path: &Path<'_>) -> &'static str {
    if is_device(rt, path.image) {
        "; give the device more, or type fewer lanes or a smaller capacity"
    } else if rt.metadata(path.image).is_ok() {
        "; free some space, and try again: the image that was there is still there"
    } else {
        "; free some space, and try again: nothing was made"
    }
}
