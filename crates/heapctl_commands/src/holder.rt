//! Which process has an image file, as the system lists the locks of files.

use std::alloc::Global;
use std::io::Read;
use std::os::unix::fs::MetadataExt;
use std::rt::Files;
use std::{fs, str};

// The list (Linux): a line for each lock, with its kind, its process, and then its file.
const LOCKS: &str = "/proc/locks";

/// The number of the process that has locked the file at this path, where the system lists it. (It lists no process of another container,
/// and files of btrfs by a device that their metadata don't have.)
pub(crate) fn holder_of<F, R>(rt: &R, path: &str) -> Option<u64>
where
    F: Read + Drop,
    R: Files<File = F> + AllocGlobal,
{
    let metadata = rt.metadata(path).ok()?;
    let Ok(list) = fs::read(rt, LOCKS) else {
        return None;
    };
    let holder = holder_in(rt.alloc(), &list, metadata.dev(), metadata.ino());
    drop(list);
    holder
}

fn holder_in(alloc: Global, list: &[u8], device: u64, inode: u64) -> Option<u64> {
    let list = str::from_utf8(list).ok()?;
    let file = listed(alloc, device, inode)?;
    let mut found = None;
    for line in list.split('\n') {
        if found.is_none() {
            found = holder_by(line, file.as_str());
        }
    }
    drop(file);
    found
}

// How the list names a file: both numbers of its device, in hexadecimal digits, and its inode.
fn listed(alloc: Global, device: u64, inode: u64) -> Option<String> {
    let major = device >> 8 & 0xfff | device >> 32 & 0xffff_f000;
    let minor = device & 0xff | device >> 12 & 0xffff_ff00;
    format!(in alloc; "{major:02x}:{minor:02x}:{inode}").ok()
}

// The process of this line, if it is of a lock by `flock` on this file.
fn holder_by(line: &str, file: &str) -> Option<u64> {
    let mut is_flock = false;
    let mut number = None;
    for word in line.split(' ') {
        if is_flock && word == file {
            return number;
        }
        is_flock = is_flock || word == "FLOCK";
        number = word.parse().ok();
    }
    None
}
