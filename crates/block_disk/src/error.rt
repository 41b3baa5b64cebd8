//! Why a disk refuses a call.
ghost use Rattle.std.specs.Prelude.{◌≡◌, ◌+◌, ◌-◌, ◌^◌, min};

use thiserror::Error;

/// Why a disk refuses a call.
#[derive(Clone, Copy, Debug, PartialEq, Eq, Error)]
pub enum DiskError {
    /// The device has failed. A write that was begun may have left any bytes in its range; a sync has fixed nothing.
    #[error("fault")]
    Fault,
    /// Some of the bytes lie past the disk's end. Nothing was done.
    #[error("out of range")]
    OutOfRange,
}

/// The device has failed: the one thing that can go wrong with a call that lies within a disk. Each crate above has it
/// as a case of its own error, into which `?` turns it.
#[derive(Clone, Copy, Debug, PartialEq, Eq, Error)]
#[error("fault")]
pub struct Fault;

/// Counts a failure of a disk, and gives what its call answers then.
pub fn fail(failures: &mut u64) -> DiskError
    ensures counted { failures.new ≡ min (failures.old + 1) (2 ^ 64 - 1) }
    ensures fault { result ≡ DiskError.Fault }
{
    *failures = failures.saturating_add(1);
    DiskError::Fault
}
