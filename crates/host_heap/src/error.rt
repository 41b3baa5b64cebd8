//! Why a hosted heap isn't opened, makes no round, counts no section as acknowledged, or isn't closed.
use guards::SchemaError;
use heap_model::StoreError;
use image::ImageError;
use recover::RecoverError;
use thiserror::Error;
use trim_helper::CloseError;

/// Why a hosted heap isn't made or opened. The text is that of the refusal itself.
#[derive(Clone, Copy, Debug, Drop, Error, PartialEq, Eq)]
pub enum HostError {
    /// There was no memory.
    #[error("no memory")]
    NoMemory,
    /// The objects and fields make no heap.
    #[error("{0}")]
    Schema(SchemaError),
    /// No image was made.
    #[error("{0}")]
    Image(ImageError),
    /// The image wasn't recovered.
    #[error("{0}")]
    Recover(RecoverError),
}

/// Why a round of a hosted heap isn't made, or has stopped.
#[derive(Clone, Copy, Debug, Drop, Error, PartialEq, Eq)]
pub enum RoundError {
    /// The host has yet to make calls: there is no room for those of a round. Nothing was done.
    #[error("calls are left")]
    CallsLeft,
    /// The helper has stopped.
    #[error("{0}")]
    Store(StoreError),
}

/// A call of the device that the host couldn't make.
#[derive(Clone, Copy, Debug, Drop, PartialEq, Eq)]
pub enum FailedCall {
    /// A write, which may be made again.
    Write,
    /// A sync. No call may follow it.
    Sync,
}

/// Why it isn't answered how many sections of a lane are acknowledged.
#[derive(Clone, Copy, Debug, Drop, Error, PartialEq, Eq)]
pub enum AcknowledgedError {
    /// No thread has this lane.
    #[error("bad lane")]
    BadLane,
    /// The host has yet to make a call that it was given.
    #[error("calls are left")]
    CallsLeft,
}

/// Why a hosted heap wasn't closed.
#[derive(Clone, Copy, Debug, Drop, Error, PartialEq, Eq)]
pub enum CloseRefusal {
    /// There was no memory for what the sessions leave.
    #[error("no memory")]
    NoMemory,
    /// The sessions or the device don't let it close.
    #[error("{0}")]
    Close(CloseError),
}
