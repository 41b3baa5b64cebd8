//! Why there is no journaled disk.
use thiserror::Error;

/// Why there is no journaled disk.
#[derive(Clone, Copy, Debug, PartialEq, Eq, Error)]
pub enum JournalError {
    /// The device begins with no label of a journal.
    #[error("no journal")]
    NoJournal,
    /// The device has fewer bytes than its label says, or than the disk would take.
    #[error("too small")]
    TooSmall,
    /// The journal's stamps have come to the end of their numbers.
    #[error("worn out")]
    Worn,
    /// The device has failed.
    #[error("fault")]
    Fault,
    /// There is no memory for the image and the halves.
    #[error("no memory")]
    NoMemory,
}
