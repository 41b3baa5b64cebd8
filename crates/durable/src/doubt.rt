//! What became of a call that didn't end well.

/// What may have been done or not, where a call of a store was cut off: by a crash, or by a fault of its device.
#[derive(Clone, Copy, Debug, PartialEq, Eq)]
pub enum Doubt {
    /// Nothing that the store was told of: at most a home cell was being written, and its field's logged stores tell its value.
    Nothing,
    /// Whether the applied records are logged. They count in no cut yet.
    Logging,
    /// Whether the stable cut is acknowledged.
    Settling,
    /// Whether what is acknowledged is trimmed. The heap is the same.
    Trimming,
}
