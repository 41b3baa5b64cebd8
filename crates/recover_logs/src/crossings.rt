//! What a walk through a replay knows of the settled records that take what others freed.
ghost use Rattle.std.specs.Prelude.{◌≡◌, length};

use heap_model::Lane;

/// A place of a lane, counted from its first live record.
#[derive(Clone, Copy, Debug, PartialEq, Eq)]
pub struct LanePlace {
    /// The lane.
    pub lane: Lane,
    /// How many of its live records come before.
    pub place: usize,
}

/// What a walk through a replay has seen.
#[derive(Drop)]
pub struct Crossings {
    /// By lane: how many of its records were met.
    pub places: [usize; 32],
    /// By object: whether its last release was by a record that isn't settled.
    pub late: [bool; 4096],
    /// The least lane with a settled record that takes what one that isn't settled freed, and its first.
    pub least: Option<LanePlace>,
    ghost all_places: { length places ≡ 32 },
    ghost all_late: { length late ≡ 4096 },
}
