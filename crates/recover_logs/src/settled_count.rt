//! Up to where a lane is settled.

/// Up to where a lane is settled: what of its live records belongs to acknowledged sections.
#[derive(Clone, Copy, Debug, PartialEq, Eq)]
pub struct SettledCount {
    /// How many of the lane's live records are settled, from the first one on.
    pub records: usize,
    /// How many acknowledged sections of the lane are kept: no more can have ended in those records.
    pub sections: u64,
}
