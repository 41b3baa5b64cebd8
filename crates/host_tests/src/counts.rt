//! How many calls a host makes for a round.

use crate::work::new_heap;
use disk_deferred::DeviceCall;
use heap_model::{FieldId, ObjectId};
use host_heap::{HostedHeap, HostedSession};
use std::alloc::Global;

// The most calls that are made.
const MANY: u32 = 10_000;

/// What a host was told to do.
#[derive(Clone, Copy, PartialEq, Eq)]
struct Counts {
    writes: u64,
    syncs: u64,
    // The bytes of all writes, and of the longest.
    bytes: u64,
    longest: u64,
}

impl Counts {
    fn add(&mut self, call: &DeviceCall) {
        match call {
            DeviceCall::Write { bytes, .. } => {
                let size = bytes.len() as u64;
                self.writes = self.writes.wrapping_add(1);
                self.bytes = self.bytes.wrapping_add(size);
                self.longest = self.longest.max(size);
            }
            DeviceCall::Sync => self.syncs = self.syncs.wrapping_add(1),
        }
    }
}

// Makes the next call. Returns whether there was one.
fn make_one(heap: &mut HostedHeap, counts: &mut Counts) -> bool {
    heap.fetch();
    match heap.next_call() {
        Some(call) => counts.add(call),
        None => return false,
    }
    heap.done()
}

// Makes all calls that the heap has handed over.
fn make_all(heap: &mut HostedHeap) -> Counts {
    let mut counts = Counts {
        writes: 0,
        syncs: 0,
        bytes: 0,
        longest: 0,
    };
    for _ in 0..MANY {
        if !make_one(heap, &mut counts) {
            return counts;
        }
    }
    counts
}

// A section of six records: two monitors, a store under each. Returns whether it was made.
fn work(session: &mut HostedSession, number: u64) -> bool {
    let entered = session.try_enter(ObjectId(0)).is_ok() && session.try_enter(ObjectId(1)).is_ok();
    let stored = session.store(FieldId(0), number).is_ok()
        && session.store(FieldId(1), number).is_ok();
    let left = session.exit(ObjectId(1)).is_ok() && session.exit(ObjectId(0)).is_ok();
    entered && stored && left
}

// How many of so many sections are made before one is refused.
fn work_often(session: &mut HostedSession, sections: u64) -> u64 {
    for number in 0..sections {
        if !work(session, number) {
            return number;
        }
    }
    sections
}

// The records that a round of so many sections applies, and the calls that it makes.
fn round(heap: &mut HostedHeap, session: &mut HostedSession, sections: u64) -> (u64, Counts) {
    let _ = work_often(session, sections);
    let applied = heap.round(None).unwrap_or(0);
    (applied, make_all(heap))
}

// What the second of two rounds of 500 sections makes.
fn second_round(heap: &mut HostedHeap) -> Option<(u64, Counts)> {
    make_all(heap);
    match heap.session() {
        Some(mut session) => {
            let _ = round(heap, &mut session, 500);
            let second = round(heap, &mut session, 500);
            drop(session);
            Some(second)
        }
        None => None,
    }
}

// The same of a heap of one lane that is made.
fn counted(alloc: Global) -> Option<(u64, Counts)> {
    match new_heap(alloc, 1, 4_000) {
        Ok(mut heap) => {
            let found = second_round(&mut heap);
            drop(heap);
            found
        }
        Err(_) => None,
    }
}

// Each lane is a thread's, so a round takes two commits and four syncs. docs/FORMAT.md gives the rest. 3,000 records
// of 16 bytes are 4 writes and 8, of 4,096 bytes at most: the first 1,000 stand at the end of the lane's area, and the others at its
// beginning. Two cells are one write, because a round writes the changed fields in their order. The first commit is a body of 1,040 bytes
// and a gate, the second a body without its sequence, and a gate.
#[test]
fn a_round_makes_few_calls(rt: HostRuntime) {
    let counts = Counts {
        writes: 17,
        syncs: 4,
        bytes: 50_090,
        longest: 4_096,
    };
    assert!(rt; counted(rt.alloc()) == Some((3_000, counts)));
}
