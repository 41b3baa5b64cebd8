//! How far a session comes ahead of its helper.

ghost use Rattle.block_disk.specs.Memory.{device_of};
ghost use Rattle.thread_heap.specs.Joined.{IsHelping};
ghost use Rattle.session.specs.Sessions.{IsSessionOf};

use crate::heap::{new_disk, open_one};
use crate::work::{ALL, serve};
use block_disk::MemDisk;
use monitor::Shared;
use session::{Session, SessionError};
use std::alloc::Global;
use thread_heap::RunningHeap;
use trim_helper::Helper;

// Takes the monitor and gives it back, until a call is refused, at most so many times. Returns how often both were Ok, and whether
// the last one found the helper behind.
fn pass(shared: &Shared, session: &mut Session, times: u32) -> (u32, bool)
    requires seat { IsSessionOf shared.now session.old }
    ensures seat { IsSessionOf shared.now session.new }
{
    for passed in 0..times {
        if let Err(refusal) = session.try_enter(shared, ALL) {
            return (passed, refusal == SessionError::Behind);
        }
        if session.exit(shared, ALL).is_err() {
            return (passed, false);
        }
    }
    (times, false)
}

// How many sections fit before a round, and whether the next is refused as behind; how many are then acknowledged; how many fit
// after it, and whether the next is refused as behind.
type Room = ((u32, bool), u64, (u32, bool));

fn measure(shared: &Shared, session: &mut Session, helper: &mut Helper<MemDisk>) -> Room
    requires seat { IsSessionOf shared.now session.old }
    requires helping { IsHelping device_of shared.now helper.old }
{
    let before = pass(shared, session, 4_000);
    let _ = serve(shared, helper);
    let stable = session.stable(shared);
    (before, stable, pass(shared, session, 4_000))
}

// The same of this heap.
fn measure_heap(heap: &mut RunningHeap<MemDisk>, session: &mut Session) -> Room
    requires seat { IsSessionOf heap.old.shared session.old }
    requires helping { IsHelping device_of heap.old.shared heap.old.helper }
{
    measure(&heap.shared, session, &mut heap.helper)
}

// The same of a heap that begins to run.
fn room_about_a_round(alloc: Global) -> Option<Room> {
    let disk = new_disk(alloc)?;
    match open_one(alloc, disk) {
        Some((mut heap, mut session)) => {
            let room = measure_heap(&mut heap, &mut session);
            drop(session);
            drop(heap);
            Some(room)
        }
        None => None,
    }
}

// A lane of 4,000 records has room for 1,501 sections of two: for another one there would have to be 1,000 more. What a round
// trims is free again.
#[test]
fn a_round_makes_room(rt: HostRuntime) {
    let full = (1_501, true);
    assert!(rt; room_about_a_round(rt.alloc()) == Some((full, 1_501, full)));
}
