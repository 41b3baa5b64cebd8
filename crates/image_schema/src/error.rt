//! Why an image has no schema of these names, and why its heap or its sections were not written.
use recover::RecoverError;
use thiserror::Error;

/// Why there is no schema of these names for an image.
#[derive(Clone, Copy, Debug, PartialEq, Eq, Error)]
pub enum NamingError {
    /// The image has other objects or fields, or a field with another owner or guard, or a transient one that is to be
    /// persistent, or the other way round.
    #[error("other schema")]
    OtherSchema,
    /// There was no memory.
    #[error("no memory")]
    NoMemory,
}

/// Why the heap of an image was not written as a schema file, or its sections as a graph.
#[derive(Clone, Copy, Debug, PartialEq, Eq, Error)]
pub enum DumpError {
    /// The image is refused, or can't be read, or there was no memory. Nothing is written.
    #[error("{0}")]
    Study(RecoverError),
    /// The schema that was given isn't the image's. Nothing is written.
    #[error("other schema")]
    OtherSchema,
    /// The writer failed. A beginning of the text is written, and not all.
    #[error("write")]
    Write,
}
