//! Lanes whose sessions come and go.

use crate::work::{new_heap, work};
use heap_model::ObjectId;
use host_heap::{HostedHeap, HostedSession};
use std::alloc::Global;

// A session that has ended, handed out again, if there is one.
fn again(heap: &mut HostedHeap) -> Option<HostedSession> {
    match heap.session_again() {
        Ok(found) => found,
        Err(_) => None,
    }
}

// The lane of that session, and how many sections of it have ended.
fn told_again(heap: &mut HostedHeap) -> Option<(u8, u64)> {
    match again(heap) {
        Some(session) => {
            let told = (session.lane().0, session.sections());
            drop(session);
            Some(told)
        }
        None => None,
    }
}

// A session handed out again makes a section and ends. Returns whether it did.
fn comes_and_goes(heap: &mut HostedHeap) -> bool {
    match again(heap) {
        Some(mut session) => {
            let is_made = work(&mut session, 5);
            let _ = session.end();
            is_made
        }
        None => false,
    }
}

// So many sessions of one lane, one after the other. Returns how many of these made their section.
fn come_and_go(heap: &mut HostedHeap, times: u32) -> u32 {
    for number in 0..times {
        if !comes_and_goes(heap) {
            return number;
        }
    }
    times
}

// What is answered of a heap of two lanes: whether a session that hasn't ended is handed out again, whether one is that ended while it
// holds the monitor, and the lane and the sections of one that has ended and holds nothing.
type Answered = (bool, bool, Option<(u8, u64)>);

fn end_both(heap: &mut HostedHeap, first: HostedSession, second: HostedSession) -> Answered {
    let (mut first, mut second) = (first, second);
    let is_lent = told_again(heap).is_some();
    let _ = work(&mut first, 5) && second.try_enter(ObjectId(0)).is_ok();
    let _ = second.end();
    let is_held = told_again(heap).is_some();
    let _ = first.end();
    (is_lent, is_held, told_again(heap))
}

fn answered(heap: &mut HostedHeap) -> Option<Answered> {
    let first = heap.session()?;
    match heap.session() {
        Some(second) => Some(end_both(heap, first, second)),
        None => {
            drop(first);
            None
        }
    }
}

fn two_lanes(alloc: Global) -> Option<Answered> {
    match new_heap(alloc, 2, 2_000) {
        Ok(mut heap) => {
            let found = answered(&mut heap);
            drop(heap);
            found
        }
        Err(_) => None,
    }
}

// Ends the session of a heap's one lane. Returns how many of five sessions later made their section, and what is told of the last.
fn end_often(heap: &mut HostedHeap) -> Option<(u32, Option<(u8, u64)>)> {
    let session = heap.session()?;
    let _ = session.end();
    let made = come_and_go(heap, 5);
    Some((made, told_again(heap)))
}

fn one_lane(alloc: Global) -> Option<(u32, Option<(u8, u64)>)> {
    match new_heap(alloc, 1, 2_000) {
        Ok(mut heap) => {
            let found = end_often(&mut heap);
            drop(heap);
            found
        }
        Err(_) => None,
    }
}

// One that is in use or holds a monitor isn't handed out again.
#[test]
fn an_ended_session_that_holds_nothing_is_handed_out_again(rt: HostRuntime) {
    assert!(rt; two_lanes(rt.alloc()) == Some((false, false, Some((0, 1)))));
}

#[test]
fn sessions_of_a_lane_come_and_go(rt: HostRuntime) {
    assert!(rt; one_lane(rt.alloc()) == Some((5, Some((0, 5)))));
}
