//! Where an image has more lanes than its host has threads, the last one is the helper's.

use crate::device::values_of;
use crate::work::{ROWS, work};
use disk_deferred::DeviceCall;
use heap_model::Lane;
use host_heap::{AcknowledgedError, HostedHeap, HostedSession, format, open};
use recover::Versions;
use std::alloc::Global;
use thread_rings::RingRecords;

// The most calls that are made.
const MANY: u32 = 1_000;

// Makes the next call. Returns whether it was a sync; `None` where there was none.
fn make_one(heap: &mut HostedHeap) -> Option<bool> {
    heap.fetch();
    let is_sync = match heap.next_call() {
        Some(DeviceCall::Sync) => true,
        Some(DeviceCall::Write { .. }) => false,
        None => return None,
    };
    let _ = heap.done();
    Some(is_sync)
}

// Makes all calls that the heap has handed over. Returns how many of them are syncs.
fn make_all(heap: &mut HostedHeap) -> u64 {
    let mut syncs = 0u64;
    for _ in 0..MANY {
        match make_one(heap) {
            Some(is_sync) => syncs = syncs.wrapping_add(is_sync as u64),
            None => return syncs,
        }
    }
    syncs
}

// What is told of a heap of three lanes for two threads.
#[derive(Clone, Copy, PartialEq, Eq)]
struct Told {
    // How many of its lanes are the threads', and whether there is a third session.
    threads: u8,
    is_third: bool,
    // The syncs of each of two rounds.
    syncs: (u64, u64),
    // How many sections of each lane are acknowledged.
    acknowledged: [Result<u64, AcknowledgedError>; 3],
}

// Whether a session is left to hand out.
fn has_session(heap: &mut HostedHeap) -> bool {
    match heap.session() {
        Some(session) => {
            drop(session);
            true
        }
        None => false,
    }
}

// A section of each thread, and a round. Returns how many syncs its calls have.
fn round(
    heap: &mut HostedHeap,
    first: &mut HostedSession,
    second: &mut HostedSession,
    value: u64,
) -> u64 {
    let _ = work(first, value) && work(second, value.wrapping_add(1));
    let _ = heap.round(None);
    make_all(heap)
}

fn work_both(heap: &mut HostedHeap, first: &mut HostedSession, second: &mut HostedSession) -> Told {
    let threads = heap.threads();
    let is_third = has_session(heap);
    let one = round(heap, first, second, 20);
    let two = round(heap, first, second, 30);
    Told {
        threads,
        is_third,
        syncs: (one, two),
        acknowledged: [
            heap.acknowledged(Lane(0)),
            heap.acknowledged(Lane(1)),
            heap.acknowledged(Lane(2)),
        ],
    }
}

fn work_twice(heap: &mut HostedHeap) -> Option<Told> {
    let _ = make_all(heap);
    let mut first = heap.session()?;
    match heap.session() {
        Some(mut second) => {
            let found = work_both(heap, &mut first, &mut second);
            drop(second);
            drop(first);
            Some(found)
        }
        None => {
            drop(first);
            None
        }
    }
}

// The bytes of the heap's image.
fn image_of(alloc: Global, heap: &HostedHeap) -> Option<Vec<u8>> {
    let mut bytes = vec![in alloc; 0u8; heap.size() as usize].ok()?;
    let _ = heap.copy_from(0, &mut bytes);
    Some(bytes)
}

// How many of a heap's lanes are the threads', where it is opened of these bytes for so many.
fn threads_of(alloc: Global, bytes: &[u8], threads: u8) -> Option<u8> {
    match open(
        alloc,
        bytes,
        Versions::Current,
        threads,
        RingRecords::usual(),
    ) {
        Ok((heap, report)) => {
            let found = heap.threads();
            drop(heap);
            drop(report);
            Some(found)
        }
        Err(_) => None,
    }
}

// What is told, the values that recovery gives of the image then, and how many of its lanes are the threads' where it is opened for two and
// for three.
type Answered = (Option<Told>, Option<(u64, u64)>, [Option<u8>; 2]);

fn opened(alloc: Global, told: Option<Told>, bytes: &[u8]) -> Answered {
    let opened = [threads_of(alloc, bytes, 2), threads_of(alloc, bytes, 3)];
    (told, values_of(alloc, bytes), opened)
}

fn answered(alloc: Global) -> Option<Answered> {
    match format(alloc, 2, &ROWS, 3, 2_000, 2, RingRecords::usual()) {
        Ok(mut heap) => {
            let told = work_twice(&mut heap);
            let image = image_of(alloc, &heap);
            drop(heap);
            let bytes = image?;
            Some(opened(alloc, told, &bytes))
        }
        Err(_) => None,
    }
}

// Two threads have two sessions; a round takes two syncs. The third lane is theirs only once the image is opened for three.
#[test]
fn a_lane_more_is_the_helpers(rt: HostRuntime) {
    let told = Told {
        threads: 2,
        is_third: false,
        syncs: (2, 2),
        acknowledged: [Ok(2), Ok(2), Err(AcknowledgedError::BadLane)],
    };
    assert!(rt; answered(rt.alloc()) == Some((Some(told), Some((31, 9)), [Some(2), Some(3)])));
}

// Lanes, how many threads the host has, and how many of the lanes are the threads'.
const SHARES: [(u8, u8, u8); 9] = [
    (1, 0, 1),
    (1, 1, 1),
    (2, 1, 1),
    (2, 2, 2),
    (4, 0, 3),
    (4, 2, 3),
    (32, 31, 31),
    (32, 32, 32),
    (32, 255, 32),
];

fn made_for(alloc: Global, lanes: u8, threads: u8) -> Option<u8> {
    match format(alloc, 2, &ROWS, lanes, 2_000, threads, RingRecords::usual()) {
        Ok(heap) => {
            let found = heap.threads();
            drop(heap);
            Some(found)
        }
        Err(_) => None,
    }
}

fn are_shared(alloc: Global) -> bool {
    for (lanes, threads, share) in SHARES {
        if made_for(alloc, lanes, threads) != Some(share) {
            return false;
        }
    }
    true
}

// One lane at most is the helper's, and an only lane is a thread's.
#[test]
fn all_lanes_but_the_last_are_threads(rt: HostRuntime) {
    assert!(rt; are_shared(rt.alloc()));
}
