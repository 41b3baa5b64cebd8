//! Why there is no disk over a file.
use thiserror::Error;

/// Why there is no disk over a file.
#[derive(Clone, Copy, Debug, PartialEq, Eq, Error)]
pub enum FileError {
    /// A call of the file system has failed.
    #[error("fault")]
    Fault,
    /// The allocator gave no memory for the bytes.
    #[error("no memory")]
    NoMemory,
}
