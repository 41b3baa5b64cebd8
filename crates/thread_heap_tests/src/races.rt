//! Workers in threads of their own beside their helper, and a crash at each call of the device.

ghost use Rattle.block_disk.specs.Memory.{device_of};
ghost use Rattle.thread_heap.specs.Joined.{IsHelping};
ghost use Rattle.session.specs.Sessions.{IsSessionOf};

use crate::heap::{declare, open_two};
use crate::images::{recover_each, recover_either};
use crate::notes::{Did, MOST, Notes};
use crate::turns::told_after;
use crate::work::serve;
use crate::workers::work;
use block_disk::{Fill, MemDisk};
use monitor::Shared;
use session::Session;
use std::alloc::Global;
use std::sync::Wait;
use std::sync::atomic::{AtomicBool, Ordering};
use std::thread;
use std::thread::{Threads, join};
use thread_heap::RunningHeap;
use trim_helper::Helper;

// Rounds until the workers have ended, and one more. Returns the disk.
fn serve_until<R: Wait>(
    rt: &R,
    shared: &Shared,
    ended: &AtomicBool,
    helper: Helper<MemDisk>,
) -> MemDisk
    requires helping { IsHelping device_of shared.now helper }
{
    let mut helper = helper;
    for _ in rt.forever() {
        let is_last = ended.load(Ordering::SeqCst);
        let _ = serve(shared, &mut helper);
        if is_last {
            return helper.into_store().into_disk();
        }
        thread::yield_now();
    }
    unreachable!()
}

// Both work side by side, and then say that they have ended.
fn work_both<R: Threads + Wait + Sync>(
    rt: &R,
    shared: &Shared,
    ended: &AtomicBool,
    first: Session,
    second: Session,
) -> (Notes, Notes)
    requires seats { IsSessionOf shared.now first × IsSessionOf shared.now second }
{
    let notes = join(
        rt,
        || work(rt, shared, first, 1),
        || work(rt, shared, second, 2),
    );
    ended.store(true, Ordering::SeqCst);
    notes
}

// Workers and helper side by side: what the workers noted, and the disk.
fn race<R: Threads + Wait + Sync>(
    rt: &R,
    shared: &Shared,
    first: Session,
    second: Session,
    helper: Helper<MemDisk>,
) -> ((Notes, Notes), MemDisk)
    requires seats { IsSessionOf shared.now first × IsSessionOf shared.now second }
    requires helping { IsHelping device_of shared.now helper }
{
    let flag = AtomicBool::new(false);
    let ended = &flag;
    join(
        rt,
        || -> (Notes, Notes)
            requires { IsSessionOf shared.now first × IsSessionOf shared.now second }
        { work_both(rt, shared, ended, first, second) },
        || -> MemDisk
            requires { IsHelping device_of shared.now helper }
        { serve_until(rt, shared, ended, helper) },
    )
}

// The same of this heap.
fn race_of<R: Threads + Wait + Sync>(
    rt: &R,
    heap: RunningHeap<MemDisk>,
    first: Session,
    second: Session,
) -> ((Notes, Notes), MemDisk)
    requires seats { IsSessionOf heap.shared first × IsSessionOf heap.shared second }
    requires helping { IsHelping device_of heap.shared heap.helper }
{
    let RunningHeap {
        shared,
        sessions,
        helper,
    } = heap;
    drop(sessions);
    let raced = race(rt, &shared, first, second, helper);
    drop(shared);
    raced
}

// The same of a heap that begins to run.
fn raced<R: Threads + Wait + Sync>(rt: &R, alloc: Global) -> Option<((Notes, Notes), MemDisk)> {
    let schema = declare(alloc)?;
    match open_two(alloc, schema) {
        Some((heap, first, second)) => Some(race_of(rt, heap, first, second)),
        None => None,
    }
}

// Whether a crash at each call of the disk after so many leaves whole sections of what the workers noted, and one now leaves all.
fn hold(alloc: Global, disk: &MemDisk, before: u64, first: Notes, second: Notes) -> [bool; 2] {
    let mut did = Did {
        first,
        second,
        least: [0; 2],
    };
    let whole = recover_either(alloc, disk, before, &did);
    did.least = [MOST as u64; 2];
    let all = recover_each(alloc, disk, disk.stops(), Fill::Lost, &did);
    [whole, all]
}

// The same after the making of the image.
fn hold_all<R: Threads + Wait + Sync>(rt: &R, alloc: Global) -> Option<[bool; 2]> {
    let (before, _) = told_after(rt, alloc, 0)?;
    match raced(rt, alloc) {
        Some(((first, second), disk)) => Some(hold(alloc, &disk, before, first, second)),
        None => None,
    }
}

#[test]
fn a_crash_while_threads_run_leaves_whole_sections(rt: HostRuntime) {
    assert!(rt; hold_all(&rt, rt.alloc()) == Some([true, true]));
}
