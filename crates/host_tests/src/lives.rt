//! Two lives of one heap: it is made, works and is closed; its bytes are opened again, and so on.

use crate::device::values_of;
use crate::host::{Host, acknowledged, make_all, make_left};
use crate::work::{new_heap, work};
use disk_deferred::HostCalls;
use host_heap::{Closed, HostedHeap, HostedSession, open};
use recover::Versions;
use std::alloc::Global;
use thread_rings::RingRecords;

// What was answered in a life.
#[derive(Clone, Copy, PartialEq, Eq)]
struct Life {
    // How many sections of it are acknowledged after each of two rounds, where that is told once the host has made the calls.
    first: Option<u64>,
    second: Option<u64>,
    // Whether each call of the session was Ok, and the heap was closed.
    went_well: bool,
    // At how many places the host would have lost something by stopping there.
    lost: u64,
    // The values that recovery gives of its device at the end.
    values: Option<(u64, u64)>,
}

// A section, which stores its number.
fn work_next(session: &mut HostedSession, host: &mut Host) -> bool {
    let number = host.ended.wrapping_add(1);
    host.ended = number;
    work(session, number)
}

// So many sections.
fn work_often(session: &mut HostedSession, host: &mut Host, sections: u32) -> bool {
    for _ in 0..sections {
        if !work_next(session, host) {
            return false;
        }
    }
    true
}

// Two sections and a round, three and a round, and one that no round is made for. Returns how many are acknowledged after each round,
// and whether each call was Ok.
type Served = (Option<u64>, Option<u64>, bool);

fn serve(
    alloc: Global,
    heap: &mut HostedHeap,
    session: &mut HostedSession,
    host: &mut Host,
) -> Served {
    let earlier = host.ended;
    let first = work_often(session, host, 2) && heap.round(None).is_ok();
    let told = acknowledged(alloc, heap, host, earlier);
    let second = work_often(session, host, 3) && heap.round(None).is_ok();
    let told_again = acknowledged(alloc, heap, host, earlier);
    let last = work_next(session, host);
    (told, told_again, first && second && last)
}

// Lets the heap's session work.
fn serve_session(alloc: Global, heap: &mut HostedHeap, host: &mut Host) -> Served {
    match heap.session() {
        Some(mut session) => {
            let served = serve(alloc, heap, &mut session, host);
            let _ = session.end();
            served
        }
        None => (None, None, false),
    }
}

// What is left of the heap once it is closed. `None` where it isn't.
fn closed(heap: HostedHeap) -> Option<Closed> {
    match heap.close() {
        Ok(closed) => Some(closed),
        Err(open) => {
            drop(open);
            None
        }
    }
}

// Closes the heap, and makes the calls that are left.
fn close(alloc: Global, heap: HostedHeap, host: &mut Host) -> bool {
    match closed(heap) {
        Some(mut left) => {
            finish(alloc, &mut left.calls, host);
            drop(left);
            true
        }
        None => false,
    }
}

// Makes the calls that are left: all sections are safe then.
fn finish(alloc: Global, calls: &mut HostCalls, host: &mut Host) {
    make_left(alloc, calls, host);
    host.safe = host.ended;
    host.stop(alloc);
}

// The first part of a life, from the first call of a heap that was made or opened on.
fn begin(alloc: Global, heap: &mut HostedHeap, host: &mut Host) -> Served {
    make_all(alloc, heap, host);
    host.is_made = true;
    host.stop(alloc);
    serve_session(alloc, heap, host)
}

// A life of this heap.
fn live(alloc: Global, heap: HostedHeap, host: &mut Host) -> Life {
    let mut heap = heap;
    let (first, second, worked) = begin(alloc, &mut heap, host);
    let closed = close(alloc, heap, host);
    Life {
        first,
        second,
        went_well: worked && closed,
        lost: host.lost,
        values: values_of(alloc, &host.device.written),
    }
}

// The life of a heap that is made.
fn made(alloc: Global, host: &mut Host) -> Option<Life> {
    match new_heap(alloc, 1, 2_000) {
        Ok(heap) => Some(live(alloc, heap, host)),
        Err(_) => None,
    }
}

// The life of a heap that is opened on what that left.
fn opened(alloc: Global, host: &mut Host) -> Option<Life> {
    match open(
        alloc,
        &host.device.written,
        Versions::Current,
        1,
        RingRecords::usual(),
    ) {
        Ok((heap, report)) => {
            drop(report);
            Some(live(alloc, heap, host))
        }
        Err(_) => None,
    }
}

// How many bytes the image of the heap has that is made.
fn size_of_made(alloc: Global) -> Option<u64> {
    match new_heap(alloc, 1, 2_000) {
        Ok(heap) => {
            let size = heap.size();
            drop(heap);
            Some(size)
        }
        Err(_) => None,
    }
}

// Both lives.
fn both(alloc: Global) -> Option<[Option<Life>; 2]> {
    let size = size_of_made(alloc)?;
    match Host::of_zeros(alloc, size) {
        Some(mut host) => {
            let first = made(alloc, &mut host);
            let second = opened(alloc, &mut host);
            drop(host);
            Some([first, second])
        }
        None => None,
    }
}

// A life of six sections in which nothing is lost, and which leaves so many.
fn whole(sections: u64) -> Option<Life> {
    Some(Life {
        first: Some(2),
        second: Some(5),
        went_well: true,
        lost: 0,
        values: Some((sections, 9)),
    })
}

// What is acknowledged is on the host's device: wherever the host stops, with what was written or with what was synced alone,
// recovery keeps at least as much. At the end it keeps all.
#[test]
fn what_is_acknowledged_is_on_the_device(rt: HostRuntime) {
    assert!(rt; both(rt.alloc()) == Some([whole(6), whole(12)]));
}
