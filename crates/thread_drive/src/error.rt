//! Why workers haven't done what they were to do.
use guards::SchemaError;
use heap_model::StoreError;
use image::ImageError;
use recover::RecoverError;
use session::SessionError;
use thiserror::Error;
use trim_helper::CloseError;

/// Why workers haven't done what they were to do. The text is that of the refusal itself.
#[derive(Clone, Copy, Debug, Drop, Error, PartialEq, Eq)]
pub enum DriveError {
    /// There was no memory, or no thread could be made.
    #[error("no memory")]
    NoMemory,
    /// The heap's objects and fields weren't declared.
    #[error("{0}")]
    Schema(SchemaError),
    /// No image was made.
    #[error("{0}")]
    Image(ImageError),
    /// A round of the helper stopped. The workers have stopped after it.
    #[error("{0}")]
    Helper(StoreError),
    /// A worker's session refused a call. It is `Behind` only once the helper has stopped: before that a worker tries again.
    #[error("{0}")]
    Session(SessionError),
    /// The heap wasn't closed.
    #[error("{0}")]
    Close(CloseError),
    /// The device wasn't recovered.
    #[error("{0}")]
    Recover(RecoverError),
    /// The image isn't one of so many workers.
    #[error("other schema")]
    OtherSchema,
}
