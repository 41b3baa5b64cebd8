//! How much a session may hold. Where no source is named a limit is this project's own.

/// How many monitors a session holds at most.
pub const MOST_HELD: usize = 16;
