//! Why threads of a heap haven't run to their end.
use heap_model::StoreError;
use image::ImageError;
use recover::RecoverError;
use thiserror::Error;
use trim_helper::CloseError;

/// Why threads of a heap haven't run to their end. The text is that of the refusal itself.
#[derive(Clone, Copy, Debug, Drop, Error, PartialEq, Eq)]
pub enum RunError {
    /// There was no memory.
    #[error("no memory")]
    NoMemory,
    /// Some lane got no thread. No body was called.
    #[error("no thread")]
    NoThread,
    /// No image was made.
    #[error("{0}")]
    Image(ImageError),
    /// A round of the helper was refused.
    #[error("{0}")]
    Helper(StoreError),
    /// A body has ended with a monitor held. The heap wasn't closed.
    #[error("unfinished")]
    Unfinished,
    /// The heap wasn't closed.
    #[error("{0}")]
    Close(CloseError),
    /// The device wasn't recovered.
    #[error("{0}")]
    Recover(RecoverError),
    /// The image isn't of this schema, with lanes for so many threads.
    #[error("other schema")]
    OtherSchema,
}
