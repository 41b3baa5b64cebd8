//! A record that a replay has done.
use heap_model::{Lane, UndoRecord};

/// A lane's record, which a replay has done.
#[derive(Clone, Copy, Debug, PartialEq, Eq)]
pub struct Step {
    /// The lane.
    pub lane: Lane,
    /// Its record.
    pub entry: UndoRecord,
}
