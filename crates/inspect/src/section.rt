//! A live section, and what one takes from another.
use heap_model::{Lane, ObjectId};

/// Which section it is. A lane's sections are numbered from 1 since the heap was opened.
#[derive(Clone, Copy, Debug, PartialEq, Eq)]
pub(crate) struct SectionId {
    /// The lane.
    pub lane: Lane,
    /// The section's number in it.
    pub number: u64,
}

/// A section with live records.
#[derive(Clone, Copy, Debug, PartialEq, Eq)]
pub(crate) struct Section {
    pub id: SectionId,
    /// Whether it has ended.
    pub is_whole: bool,
    /// How many live records it has.
    pub records: u64,
}

/// An acquire of what a section of another lane released.
#[derive(Clone, Copy, Debug, PartialEq, Eq)]
pub(crate) struct Link {
    /// The section that acquires.
    pub taker: SectionId,
    /// The section that released.
    pub releaser: SectionId,
    /// The object.
    pub object: ObjectId,
    /// The acquire's number.
    pub number: u64,
}
