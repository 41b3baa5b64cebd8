//! How much a heap may have. Every crate takes these limits from here.

/// How many objects a heap may have.
pub const MOST_OBJECTS: usize = 4_096;

/// How many fields a heap may have, over all its objects.
pub const MOST_FIELDS: usize = 16_384;

/// How many lanes a heap may have: a set of them is a word of 32 bits.
pub const LANES: usize = 32;

/// The greatest release number: it has 40 bits of a lock word. No monitor is taken at it, so that
/// the release that follows has a number too.
pub const LAST_NUMBER: u64 = 1_099_511_627_775;

/// How many records a section may have.
pub const SECTION_RECORDS: u64 = 1000;

/// How many records a lane of the device holds at least.
pub const LEAST_CAPACITY: u32 = 2_000;

/// How many records a lane of the device holds at most.
pub const MOST_CAPACITY: u32 = 1_048_576;

/// How many records the ring from a session to the helper has room for.
pub const RING_RECORDS: usize = 4_096;

/// No section begins at this place of a lane or later, counted in records. It is 2^62.
pub const LAST_PLACE: u64 = 4_611_686_018_427_387_904;
