//! What recovery did, section by section.
use heap_model::{Cut, Lane};

/// What recovery keeps of an image, and why it drops each other section.
#[derive(Drop)]
pub struct Report {
    /// How many sections of each lane are acknowledged: these are kept.
    pub kept: Cut,
    /// Each section beyond them, by lane and then by number.
    pub dropped: Vec<Dropped>,
    /// How many fields have a store in a dropped section: each takes its old value back.
    pub undone: u32,
}

/// A section that is dropped. The sections of a lane are numbered from 1 since the heap was opened.
#[derive(Clone, Copy, Debug, PartialEq, Eq)]
pub struct Dropped {
    /// The lane.
    pub lane: Lane,
    /// The section's number in it.
    pub section: u64,
    /// Why it is dropped.
    pub why: Why,
}

/// Why a section is dropped.
#[derive(Clone, Copy, Debug, PartialEq, Eq)]
pub enum Why {
    /// It hasn't ended.
    Unfinished,
    /// It depends on this section, which is outside the stable cut of the log.
    After { lane: Lane, section: u64 },
    /// It is in the stable cut of the log, and wasn't acknowledged before the crash.
    Unsettled,
}
