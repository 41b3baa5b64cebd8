//! Why threads haven't run to their end on an image file.
use image_file::{FileFault, FormatError};
use thiserror::Error;
use thread_work::RunError;

/// Why threads haven't run to their end on an image file. The text is that of the refusal itself.
#[derive(Clone, Copy, Debug, PartialEq, Eq, Error)]
pub enum FileRunError {
    /// The image file can't be had, or not be read. It is as it was.
    #[error("{0}")]
    File(FileFault),
    /// No image was made where there was none.
    #[error("{0}")]
    Format(FormatError),
    /// The threads haven't run to their end. The image file may be recovered, and gone on with.
    #[error("{0}")]
    Run(RunError),
}
