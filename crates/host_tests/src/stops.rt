//! What a session learns of a call that its host couldn't make.

use crate::work::{new_heap, work};
use disk_deferred::DeviceCall;
use host_heap::{FailedCall, HostedHeap, HostedSession};
use std::alloc::Global;

// The most calls that are made.
const MANY: u32 = 1_000;

// Whether the next call is a write. `None` where there is none.
fn is_write(heap: &mut HostedHeap) -> Option<bool> {
    heap.fetch();
    match heap.next_call() {
        Some(DeviceCall::Write { .. }) => Some(true),
        Some(DeviceCall::Sync) => Some(false),
        None => None,
    }
}

// Makes all calls, or all writes before the first sync.
fn make(heap: &mut HostedHeap, syncs: bool) {
    for _ in 0..MANY {
        let is_made = match is_write(heap) {
            Some(is_write) => (is_write || syncs) && heap.done(),
            None => false,
        };
        if !is_made {
            return;
        }
    }
}

// What a call that failed is told to be, and what each of two sessions sees then.
type Told = (Option<FailedCall>, bool, bool);

fn fail(heap: &mut HostedHeap, one: &mut HostedSession, two: &mut HostedSession) -> Told {
    let told = heap.call_failed();
    (told, one.is_stopped(), two.is_stopped())
}

// With no call left; with a write; with the sync after it; and once more.
fn fail_each(heap: &mut HostedHeap, one: &mut HostedSession, two: &mut HostedSession) -> [Told; 4] {
    let none = fail(heap, one, two);
    let _ = work(one, 5) && heap.round(None).is_ok();
    heap.fetch();
    let write = fail(heap, one, two);
    make(heap, false);
    let sync = fail(heap, one, two);
    [none, write, sync, fail(heap, two, one)]
}

// The same of the sessions of a heap of two lanes.
fn fail_all(heap: &mut HostedHeap) -> Option<[Told; 4]> {
    make(heap, true);
    let mut one = heap.session()?;
    match heap.session() {
        Some(mut two) => {
            let told = fail_each(heap, &mut one, &mut two);
            drop(two);
            drop(one);
            Some(told)
        }
        None => {
            drop(one);
            None
        }
    }
}

fn failed(alloc: Global) -> Option<[Told; 4]> {
    match new_heap(alloc, 2, 2_000) {
        Ok(mut heap) => {
            let told = fail_all(&mut heap);
            drop(heap);
            told
        }
        Err(_) => None,
    }
}

// A session learns of a sync that failed, and of nothing else.
#[test]
fn sessions_learn_that_a_sync_failed(rt: HostRuntime) {
    let told = [
        (None, false, false),
        (Some(FailedCall::Write), false, false),
        (Some(FailedCall::Sync), true, true),
        (Some(FailedCall::Sync), true, true),
    ];
    assert!(rt; failed(rt.alloc()) == Some(told));
}
