//! How many records a round applies, and how many a lane's ring has room for.

use crate::work::{ROWS, new_heap, work};
use heap_model::{FieldId, Lane, ObjectId};
use host_heap::{HostedHeap, HostedSession, format};
use std::alloc::Global;
use thread_rings::RingRecords;

// How many of so many sections, of three records each, are made before one is refused.
fn work_often(session: &mut HostedSession, sections: u64) -> u64 {
    for number in 0..sections {
        if !work(session, number) {
            return number;
        }
    }
    sections
}

// What rounds apply that may apply no record, four, four more, and all that are left.
type Applied = (Option<u64>, Option<u64>, Option<u64>, Option<u64>);

fn rounds(heap: &mut HostedHeap) -> Applied {
    let none = heap.round(Some(0)).ok();
    let first = heap.round(Some(4)).ok();
    let second = heap.round(Some(4)).ok();
    (none, first, second, heap.round(None).ok())
}

// The same after the heap's session has made three sections.
fn work_and_round(heap: &mut HostedHeap) -> Option<Applied> {
    match heap.session() {
        Some(mut session) => {
            let _ = work_often(&mut session, 3);
            let found = rounds(heap);
            drop(session);
            Some(found)
        }
        None => None,
    }
}

fn applied(alloc: Global) -> Option<Applied> {
    match new_heap(alloc, 1, 2_000) {
        Ok(mut heap) => {
            let found = work_and_round(&mut heap);
            drop(heap);
            found
        }
        Err(_) => None,
    }
}

// How many sections the heap's session makes before a round is due.
fn work_unhelped(heap: &mut HostedHeap) -> Option<u64> {
    match heap.session() {
        Some(mut session) => {
            let made = work_often(&mut session, 10_000);
            drop(session);
            Some(made)
        }
        None => None,
    }
}

// The same of a heap whose rings have room for so many records, and whose lanes for more. `None` where rings can't have that room.
fn sections_with(alloc: Global, records: usize) -> Option<u64> {
    let ring = RingRecords::of(records)?;
    match format(alloc, 2, &ROWS, 1, 20_000, 1, ring) {
        Ok(mut heap) => {
            let made = work_unhelped(&mut heap);
            drop(heap);
            made
        }
        Err(_) => None,
    }
}

// Makes three sections of the object of this number, of three records each.
fn work_at(session: &mut HostedSession, number: u32) {
    for value in 0..3 {
        let _ = session.try_enter(ObjectId(number));
        let _ = session.store(FieldId(number), value);
        let _ = session.exit(ObjectId(number));
    }
}

// How many sections of two lanes are acknowledged, once the host has made all calls.
fn acknowledged(heap: &mut HostedHeap) -> (Option<u64>, Option<u64>) {
    for _ in 0..10_000 {
        heap.fetch();
        if !heap.done() {
            break;
        }
    }
    (
        heap.acknowledged(Lane(0)).ok(),
        heap.acknowledged(Lane(1)).ok(),
    )
}

// The same after a round of six records at most, where each of two lanes has sent nine.
fn round_of_six(
    heap: &mut HostedHeap,
    first: &mut HostedSession,
    second: &mut HostedSession,
) -> (Option<u64>, Option<u64>) {
    work_at(first, 0);
    work_at(second, 1);
    let _ = heap.round(Some(6));
    acknowledged(heap)
}

fn shared_round(heap: &mut HostedHeap) -> Option<(Option<u64>, Option<u64>)> {
    match (heap.session(), heap.session()) {
        (Some(mut first), Some(mut second)) => {
            let found = round_of_six(heap, &mut first, &mut second);
            drop(second);
            drop(first);
            Some(found)
        }
        _ => None,
    }
}

fn shared(alloc: Global) -> Option<(Option<u64>, Option<u64>)> {
    match new_heap(alloc, 2, 2_000) {
        Ok(mut heap) => {
            let found = shared_round(&mut heap);
            drop(heap);
            found
        }
        Err(_) => None,
    }
}

// Each lane has an equal part of the bound: one section of each, and not two of the first.
#[test]
fn lanes_share_the_bound_of_a_round(rt: HostRuntime) {
    assert!(rt; shared(rt.alloc()) == Some((Some(1), Some(1))));
}

// Three sections have nine records.
#[test]
fn a_round_applies_at_most_as_many_records_as_it_may(rt: HostRuntime) {
    assert!(rt; applied(rt.alloc()) == Some((Some(0), Some(4), Some(4), Some(1))));
}

// A section begins where its ring has room for 1,000 records: so 1,033 begin in a ring of 4,096, the last one at record 3,096, and 2,398
// in a ring of 8,192.
#[test]
fn a_larger_ring_takes_more_sections(rt: HostRuntime) {
    let made = (
        sections_with(rt.alloc(), 4_096),
        sections_with(rt.alloc(), 8_192),
    );
    assert!(rt; made == (Some(1_033), Some(2_398)));
}

#[test]
fn a_ring_has_its_limits(rt: HostRuntime) {
    let refused = (
        sections_with(rt.alloc(), 4_095),
        sections_with(rt.alloc(), 65_537),
    );
    assert!(rt; refused == (None, None));
}
