//! How many sections of a lane are live.

/// A lane's sections: those before its live records, and those that its live records count.
#[derive(Clone, Copy, Debug, PartialEq, Eq)]
pub struct LiveSections {
    /// How many are kept that come before the live records.
    pub trimmed: u64,
    /// How many of the live ones are settled.
    pub settled: u64,
    /// How many of the live ones are whole.
    pub whole: u64,
    /// How many are live: the whole ones, and one more where the lane holds something at its end.
    pub live: u64,
}
