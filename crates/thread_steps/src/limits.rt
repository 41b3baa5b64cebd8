//! By how many locks a monitor is held at most.

/// A thin one: the count has 8 bits of its lock word (Thin Locks, section 2).
pub const THIN_LOCKS: u32 = 256;

/// A fat one: the count has 16 bits of its fat word (this project's own).
pub const FAT_LOCKS: u32 = 65_536;
