//! What is remembered of a monitor, of a field and of a lane.

use heap_model::{Lane, ObjectId};

/// A monitor, after all records applied.
#[derive(Clone, Copy)]
pub struct MonitorState {
    /// The lane that holds it.
    pub holder: Option<Lane>,
    /// Its release number: how often it has become free since the heap was opened.
    pub number: u64,
}

/// A field.
#[derive(Clone, Copy)]
pub struct FieldState {
    /// The object whose monitor guards it.
    pub guard: ObjectId,
    /// Whether logs keep its stores. They don't where it is transient: its value is its first one then.
    pub is_logged: bool,
    /// Its value after all records applied.
    pub value: u64,
    /// Its value after all records logged. This one may be written home.
    pub logged: u64,
}

/// A lane. Places count its records since the heap was opened.
#[derive(Clone, Copy)]
pub struct LaneState {
    /// The first place that was not trimmed.
    pub start: u64,
    /// The place of its next record: how many were applied.
    pub place: u64,
    /// How many records its open section has, 0 where it holds nothing.
    pub section: u32,
    /// How many monitors it holds.
    pub held: u32,
    /// The object on which it waits, and which it takes next.
    pub awaited: Option<ObjectId>,
}

/// A monitor that was never taken.
pub const FREE: MonitorState = MonitorState {
    holder: None,
    number: 0,
};

/// A lane with no records.
pub const IDLE: LaneState = LaneState {
    start: 0,
    place: 0,
    section: 0,
    held: 0,
    awaited: None,
};
