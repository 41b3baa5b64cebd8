//! Why lanes' live records are refused.

use heap_model::Lane;
use thiserror::Error;

/// Why lanes' live records are refused.
#[derive(Clone, Copy, Debug, PartialEq, Eq, Error)]
pub enum LogsError {
    /// No threads can have left these logs. The place, counted from the lane's first live record, is that of the first record that
    /// shows it. For a lane that isn't at rest where it is settled, it is the place up to which the lane is settled. That may be
    /// the one after its last record.
    #[error("illegal log")]
    IllegalLog { lane: Lane, place: u64 },
    /// There was no memory.
    #[error("no memory")]
    NoMemory,
}
