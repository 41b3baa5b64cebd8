//! Threads over a disk that fails.

ghost use Rattle.std.specs.Prelude.{◌≤◌};

use crate::room::{CAPACITY, TABLE, TURN, disk, schema};
use block_disk::MemDisk;
use recover::recover;
use std::alloc::Global;
use std::sync::Wait;
use std::sync::atomic::{AtomicU64, Ordering};
use std::thread::Threads;
use thread_work::{HeapThread, Joint, RunError, SessionError, Work, run_new};

// Adds to the turn, each time durably, and counts how often that was durable, and the threads to which the helper has stopped.
#[derive(Drop)]
struct Adds {
    durable: AtomicU64,
    stopped: AtomicU64,
}

impl Work for Adds {
    fn work<J: Joint, R: Wait>(
        &self,
        rt: &R,
        thread: &mut HeapThread<'_, J>,
    ) -> Result<(), SessionError> {
        for _ in rt.forever() {
            thread.enter(rt, TABLE)?;
            let turn = thread.load(TURN)?;
            thread.store(TURN, turn.wrapping_add(1))?;
            thread.exit(TABLE)?;
            if thread.durable(rt).is_err() {
                self.stopped.fetch_add(1, Ordering::SeqCst);
                return Ok(());
            }
            self.durable.fetch_add(1, Ordering::SeqCst);
        }
        Ok(())
    }
}

// The work as it begins, with nothing counted.
fn nothing_counted() -> Adds {
    Adds {
        durable: AtomicU64::new(0),
        stopped: AtomicU64::new(0),
    }
}

// Why three threads have stopped on a disk whose call of this number fails, and to how many of them the helper had.
fn stopped_at<R: Threads + Wait + Sync>(
    rt: &R,
    alloc: Global,
    call: u64,
) -> Option<(Option<RunError>, u64)>
    requires { 1 ≤ call }
{
    let schema = schema(alloc)?;
    let Some(mut disk) = disk(alloc, &schema, 3) else {
        drop(schema);
        return None;
    };
    disk.fail_call(call);
    let adds = nothing_counted();
    let refusal = match run_new(rt, alloc, disk, schema, 3, CAPACITY, &adds) {
        Ok(ran) => {
            drop(ran);
            None
        }
        Err((disk, refusal)) => {
            drop(disk);
            Some(refusal)
        }
    };
    Some((refusal, adds.stopped.load(Ordering::SeqCst)))
}

#[test]
fn durable_ends_with_the_helper(rt: HostRuntime) {
    let stopped = stopped_at(&rt, rt.alloc(), 300);
    assert!(rt; stopped == Some((Some(RunError::Helper(durable::StoreError::Fault)), 3)));
}

// The turn that recovery finds there.
fn turn_on(alloc: Global, disk: MemDisk) -> Option<u64> {
    match recover(alloc, disk) {
        Ok((recovered, report)) => {
            drop(report);
            let turn = recovered.heap().first().copied();
            drop(recovered);
            turn
        }
        Err((disk, _)) => {
            drop(disk);
            None
        }
    }
}

// Whether recovery finds each of three threads' durable sections on a disk whose call of this number failed.
fn keeps_durable<R: Threads + Wait + Sync>(rt: &R, alloc: Global, call: u64) -> Option<bool>
    requires { 1 ≤ call }
{
    let schema = schema(alloc)?;
    let Some(mut disk) = disk(alloc, &schema, 3) else {
        drop(schema);
        return None;
    };
    disk.fail_call(call);
    let adds = nothing_counted();
    let left = match run_new(rt, alloc, disk, schema, 3, CAPACITY, &adds) {
        Ok(ran) => {
            drop(ran);
            None
        }
        Err((disk, _)) => turn_on(alloc, disk),
    };
    let durable = adds.durable.load(Ordering::SeqCst);
    Some(durable > 0 && left? >= durable)
}

#[test]
fn a_refused_run_keeps_what_was_durable(rt: HostRuntime) {
    for call in [1_000, 1_001, 1_002, 1_003] {
        assert!(rt; keeps_durable(&rt, rt.alloc(), call) == Some(true));
    }
}
