//! Bodies that wait for one another, and go on with what others have left.

use crate::room::{CAPACITY, TABLE, TURN, disk, schema};
use block_disk::MemDisk;
use std::alloc::Global;
use std::sync::Wait;
use std::thread::Threads;
use thread_work::{HeapThread, Joint, RunError, SessionError, Work, make_heap, run_new, run_on};

// Lane 0 waits for even numbers and lane 1 for odd ones, and each adds one: neither gets on without the other.
#[derive(Drop)]
struct Turns {
    rounds: u32,
}

impl Work for Turns {
    fn work<J: Joint, R: Wait>(
        &self,
        rt: &R,
        thread: &mut HeapThread<'_, J>,
    ) -> Result<(), SessionError> {
        let lane = u64::from(thread.lane().0);
        for _ in 0..self.rounds {
            take_turn(rt, thread, lane)?;
            if thread.durable(rt).is_err() {
                break;
            }
        }
        Ok(())
    }
}

fn take_turn<J: Joint, R: Wait>(
    rt: &R,
    thread: &mut HeapThread<'_, J>,
    lane: u64,
) -> Result<(), SessionError> {
    thread.enter(rt, TABLE)?;
    for _ in rt.forever() {
        if thread.load(TURN)? % 2 == lane {
            break;
        }
        thread.wait(rt, TABLE)?;
    }
    let turn = thread.load(TURN)?;
    thread.store(TURN, turn.wrapping_add(1))?;
    thread.notify_all(TABLE)?;
    thread.exit(TABLE)
}

// A disk on which two have taken so many turns each.
fn played<R: Threads + Wait + Sync>(rt: &R, alloc: Global, rounds: u32) -> Option<MemDisk> {
    let schema = schema(alloc)?;
    let Some(disk) = disk(alloc, &schema, 2) else {
        drop(schema);
        return None;
    };
    match run_new(rt, alloc, disk, schema, 2, CAPACITY, &Turns { rounds }) {
        Ok(ran) => Some(ran.recovered.into_disk()),
        Err((disk, _)) => {
            drop(disk);
            None
        }
    }
}

// The turn that so many threads leave there later, with the count of the chair; or why they don't.
fn left_later<R: Threads + Wait + Sync>(
    rt: &R,
    alloc: Global,
    threads: u8,
) -> Option<Result<(u64, u64), RunError>> {
    let disk = played(rt, alloc, 50)?;
    let Some(schema) = schema(alloc) else {
        drop(disk);
        return None;
    };
    match run_on(rt, alloc, disk, schema, threads, &Turns { rounds: 10 }) {
        Ok((ran, report)) => {
            drop(report);
            let heap = &ran.outcome.heap;
            let left = (
                heap.first().copied().unwrap_or(0),
                heap.get(1).copied().unwrap_or(0),
            );
            drop(ran);
            Some(Ok(left))
        }
        Err((disk, refusal)) => {
            drop(disk);
            Some(Err(refusal))
        }
    }
}

#[test]
fn bodies_wait_for_one_another(rt: HostRuntime) {
    let left = left_later(&rt, rt.alloc(), 2);
    assert!(rt; left == Some(Ok((120, 7))));
}

#[test]
fn an_image_with_too_few_lanes_is_of_another_schema(rt: HostRuntime) {
    let left = left_later(&rt, rt.alloc(), 4);
    assert!(rt; left == Some(Err(RunError::OtherSchema)));
}

// A disk with an image of so many lanes.
fn made(alloc: Global, lanes: u8) -> Option<MemDisk> {
    let schema = schema(alloc)?;
    let Some(disk) = disk(alloc, &schema, 3) else {
        drop(schema);
        return None;
    };
    let made = make_heap(alloc, disk, &schema, lanes, CAPACITY);
    drop(schema);
    match made {
        Ok(made) => Some(made.into_disk()),
        Err((disk, _)) => {
            drop(disk);
            None
        }
    }
}

// The turn that two threads leave on an image of so many lanes; or why they don't.
fn left_on<R: Threads + Wait + Sync>(
    rt: &R,
    alloc: Global,
    lanes: u8,
) -> Option<Result<u64, RunError>> {
    let disk = made(alloc, lanes)?;
    let Some(schema) = schema(alloc) else {
        drop(disk);
        return None;
    };
    match run_on(rt, alloc, disk, schema, 2, &Turns { rounds: 10 }) {
        Ok((ran, report)) => {
            drop(report);
            let left = ran.outcome.heap.first().copied().unwrap_or(0);
            drop(ran);
            Some(Ok(left))
        }
        Err((disk, refusal)) => {
            drop(disk);
            Some(Err(refusal))
        }
    }
}

// With two lanes the helper has none of its own, and with three the last is its own.
#[test]
fn two_threads_go_on_with_two_lanes_or_three(rt: HostRuntime) {
    let other = Some(Err(RunError::OtherSchema));
    let cases = [(1, other), (2, Some(Ok(20))), (3, Some(Ok(20))), (4, other)];
    for (lanes, left) in cases {
        assert!(rt; left_on(&rt, rt.alloc(), lanes) == left);
    }
}
