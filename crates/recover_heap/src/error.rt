//! Why an image can't be studied or recovered.
ghost use Rattle.std.specs.Prelude.{◌≡◌, ◌+◌};

use heap_model::Lane;
use thiserror::Error;

/// Why an image can't be studied or recovered.
#[derive(Clone, Copy, Debug, PartialEq, Eq, Error)]
pub enum RecoverError {
    /// A call of the device failed.
    #[error("fault")]
    Fault,
    /// There is no header, or its gate is closed.
    #[error("not formatted")]
    NotFormatted,
    /// A number of the header or of a guard row is out of its limits, or a byte that has to be zero isn't.
    #[error("bad header")]
    BadHeader,
    /// The device is smaller than the header says that the image is.
    #[error("too small")]
    TooSmall,
    /// The gates of both slots are closed.
    #[error("no control")]
    NoControl,
    /// Neither slot is chosen though a gate is open, the chosen one has no control of this layout, or its control is of a
    /// version from before there were transient fields though some guard row tells of one.
    #[error("bad control")]
    BadControl,
    /// The control is of version 1: the image is from before there were transient fields, and has to be upgraded first.
    #[error("old version")]
    OldVersion,
    /// The control's sequence is at its last value, 2^64 - 1, so that no other can be committed.
    #[error("worn")]
    Worn,
    /// The bytes at this live place are no record, or they name an object or a field that the image doesn't have. Its text
    /// names the thread, which is the lane numbered from 1.
    #[error("bad record t{thread} {place}", thread = thread_number(*.lane))]
    BadRecord { lane: Lane, place: u64 },
    /// No threads can have left these logs. The place is that of the first record that shows it. Its text names the
    /// thread too.
    #[error("illegal log t{thread} {place}", thread = thread_number(*.lane))]
    IllegalLog { lane: Lane, place: u64 },
    /// There was no memory.
    #[error("no memory")]
    NoMemory,
}

// Threads are numbered from 1.
fn thread_number(lane: Lane) -> u64
    ensures { result ≡ lane.0 + 1 }
{
    u64::from(lane.0) + 1
}
