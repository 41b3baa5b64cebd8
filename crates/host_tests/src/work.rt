//! What sessions do.

use heap_model::{FieldId, ObjectId};
use host_heap::{HostError, HostedHeap, HostedSession, format};
use image::GuardRow;
use std::alloc::Global;
use thread_rings::RingRecords;

/// Two objects, each with the one of two fields that it guards. Nobody stores the second in a section of [`work`].
pub const ROWS: [GuardRow; 2] = [
    GuardRow {
        guard: ObjectId(0),
        owner: ObjectId(0),
        first: 0,
        transient: false,
    },
    GuardRow {
        guard: ObjectId(1),
        owner: ObjectId(1),
        first: 9,
        transient: false,
    },
];

/// A section that stores this value into the first field. Returns whether it was made.
pub fn work(session: &mut HostedSession, value: u64) -> bool {
    let entered = session.try_enter(ObjectId(0)).is_ok();
    let stored = session.store(FieldId(0), value).is_ok();
    entered && stored && session.exit(ObjectId(0)).is_ok()
}

/// A new heap of [`ROWS`] with so many lanes, each a thread's, of so many records, and with rings of the usual room.
pub fn new_heap(alloc: Global, lanes: u8, capacity: u32) -> Result<HostedHeap, HostError> {
    format(
        alloc,
        2,
        &ROWS,
        lanes,
        capacity,
        lanes,
        RingRecords::usual(),
    )
}
