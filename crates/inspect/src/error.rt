//! Why a text was not written.
use recover::RecoverError;
use thiserror::Error;

/// The writer failed. A beginning of the text is written, and not all.
#[derive(Clone, Copy, Debug, PartialEq, Eq, Error)]
#[error("write")]
pub struct WriteError;

/// Why a study was not written.
#[derive(Clone, Copy, Debug, PartialEq, Eq, Error)]
pub enum ShowError {
    /// There was no memory. Nothing is written.
    #[error("no memory")]
    NoMemory,
    /// The writer failed. A beginning of the text is written, and not all.
    #[error("write")]
    Write,
}

/// Why an image was not inspected.
#[derive(Clone, Copy, Debug, PartialEq, Eq, Error)]
pub enum InspectError {
    /// The image is refused, or can't be read, or there was no memory. Nothing is written.
    #[error("{0}")]
    Study(RecoverError),
    /// The writer failed. A beginning of the text is written, and not all.
    #[error("write")]
    Write,
}
