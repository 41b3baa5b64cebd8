//! What threads leave of a heap.

use session::SessionError;

/// What threads have left of a heap, by the device that was recovered after them.
#[derive(Drop)]
pub struct Outcome {
    /// How many sections of each thread are acknowledged, since the heap began to run.
    pub acknowledged: Vec<u64>,
    /// The values of the heap, by field.
    pub heap: Vec<u64>,
    /// The refusal of the least lane whose body has answered one.
    pub answer: Result<(), SessionError>,
}
