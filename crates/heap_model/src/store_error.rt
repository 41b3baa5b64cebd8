//! Why a call of a store is refused.
use thiserror::Error;

/// Why a call of a store is refused. But for `Fault` a refused call changes nothing.
#[derive(Clone, Copy, Debug, PartialEq, Eq, Error)]
pub enum StoreError {
    /// The device has failed in an earlier call; what became of that is for recovery to find out.
    #[error("failed")]
    Failed,
    /// The image doesn't have this lane.
    #[error("bad lane")]
    BadLane,
    /// The image doesn't have the record's object or field, or the field is transient: no record tells of its stores.
    #[error("bad id")]
    BadId,
    /// A release number, a place or the control's sequence is at its last value.
    #[error("worn")]
    Worn,
    /// The record isn't one that the lane may do next.
    #[error("not next")]
    NotNext,
    /// The section's records, with the releases that it still needs, pass 1,000.
    #[error("too long")]
    TooLong,
    /// The lane's area has no room for a section more.
    #[error("log full")]
    LogFull,
    /// A record isn't logged, a field's logged value isn't at home, or a logged section isn't acknowledged.
    #[error("unwritten")]
    Unwritten,
    /// A call of the device failed now.
    #[error("fault")]
    Fault,
    /// A section is open.
    #[error("unfinished")]
    Unfinished,
}
