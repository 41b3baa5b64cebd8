//! Why a device of sectors refuses a call.
use thiserror::Error;

/// Why a sector isn't read.
#[derive(Clone, Copy, Debug, PartialEq, Eq, Error)]
pub enum SectorError {
    /// The device has failed.
    #[error("fault")]
    Fault,
    /// The sector can't be read until it is written, as a crash may leave one that was being written.
    #[error("unreadable")]
    Unreadable,
}

/// Why a disk isn't opened on a device of sectors, or made there.
#[derive(Clone, Copy, Debug, PartialEq, Eq, Error)]
pub enum PlacesError {
    /// The device has failed, or a sector can't be read that no crash has torn.
    #[error("fault")]
    Fault,
    /// There is no memory for the disk's bytes.
    #[error("no memory")]
    NoMemory,
    /// The device has too few sectors.
    #[error("too small")]
    TooSmall,
}
