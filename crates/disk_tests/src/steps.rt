//! Steps of a disk and of the file under it, each with what is to come of it.
use crate::flaky_file::Medium;
use block_disk::{Disk, DiskError};

pub type Answer = Result<(), DiskError>;

pub const OK: Answer = Ok(());

pub const FAULT: Answer = Err(DiskError::Fault);

pub const BEYOND: Answer = Err(DiskError::OutOfRange);

/// What is done, and what is to be answered or found.
#[derive(Clone, Copy)]
pub enum Step<'a> {
    /// Writes these bytes there.
    Write(u64, &'a [u8], Answer),
    Sync(Answer),
    /// Reads as many bytes as these there, up to 64, and finds them.
    Read(u64, &'a [u8]),
    /// Reads two bytes there, which is refused.
    NoRead(u64, Answer),
    Size(u64),
    Failures(u64),
    /// From now on the file's call of this number fails (1: the next).
    Fail(u64),
    /// The system takes from the file what was not synced.
    Forget,
    /// The file's bytes.
    Has(&'a [u8]),
    /// The file's bytes, if the machine stopped now.
    Keeps(&'a [u8]),
    /// The file's calls that wrote, and those that settled.
    Calls(u64, u64),
}

/// Takes these steps in turn, up to the first that goes otherwise; whether there is none.
pub fn go_so<D: Disk>(medium: &Medium, disk: &mut D, steps: &[Step<'_>]) -> bool {
    for step in steps {
        if !goes_so(medium, disk, *step) {
            return false;
        }
    }
    true
}

/// The same of a disk that is over no such file.
pub fn go_so_alone<D: Disk>(disk: &mut D, steps: &[Step<'_>]) -> bool {
    go_so(&Medium::of(&[]), disk, steps)
}

fn goes_so<D: Disk>(medium: &Medium, disk: &mut D, step: Step<'_>) -> bool {
    match step {
        Step::Write(at, bytes, answer) => write(disk, at, bytes) == answer,
        Step::Sync(answer) => sync(disk) == answer,
        Step::Read(at, bytes) => reads(disk, at, bytes),
        Step::NoRead(at, answer) => read_two(disk, at) == answer,
        Step::Size(bytes) => disk.size() == bytes,
        Step::Failures(count) => disk.failures() == count,
        _ => file_goes_so(medium, step),
    }
}

fn file_goes_so(medium: &Medium, step: Step<'_>) -> bool {
    match step {
        Step::Fail(call) => {
            medium.fail(call);
            true
        }
        Step::Forget => {
            medium.forget();
            true
        }
        Step::Has(bytes) => medium.has(bytes),
        Step::Keeps(bytes) => medium.keeps(bytes),
        Step::Calls(writes, settles) => medium.calls() == (writes, settles),
        _ => false,
    }
}

// The calls of a disk without their contracts: what a test's proof doesn't need, it doesn't carry.
pub fn write<D: Disk>(disk: &mut D, at: u64, bytes: &[u8]) -> Answer {
    disk.write_at(at, bytes)
}

pub fn sync<D: Disk>(disk: &mut D) -> Answer {
    disk.sync()
}

fn read_two<D: Disk>(disk: &mut D, at: u64) -> Answer {
    disk.read_at(at, &mut [0; 2])
}

fn reads<D: Disk>(disk: &mut D, at: u64, bytes: &[u8]) -> bool {
    let mut room = [0; 64];
    let Some(out) = room.get_mut(..bytes.len()) else {
        return false;
    };
    disk.read_at(at, out).is_ok() && *out == *bytes
}
