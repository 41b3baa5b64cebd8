//! How many syncs a hosted heap's calls may hand over at once.

/// The most syncs of one round of the helper (docs/FORMAT.md, "The other calls"): two commits that take along what was written before them,
/// one after the records and one after the home cells. Each takes two syncs. The first takes three where the slot that doesn't count has
/// sequence 0 and an open gate, as in no image that recovery left.
pub const ROUND_SYNCS: usize = 5;

/// The most syncs of a closing: those of a log step and of a settling, of a sync and a commit each, which takes three at most.
pub const CLOSE_SYNCS: usize = 8;
