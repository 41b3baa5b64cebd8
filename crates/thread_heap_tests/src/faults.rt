//! Rounds and closings, of a device that fails and of one that does not.

ghost use Rattle.std.specs.Prelude.{◌≤◌};
ghost use Rattle.block_disk.specs.Memory.{device_of};
ghost use Rattle.thread_heap.specs.Joined.{IsHelping, IsJoinedWith, StaysJoined};
ghost use Rattle.session.specs.Sessions.{IsSessionOf};

use crate::endings::{Closing, close_one};
use crate::heap::{new_disk, open_one};
use crate::work::{add_one, serve};
use block_disk::MemDisk;
use durable::StoreError;
use monitor::Shared;
use session::Session;
use std::alloc::Global;
use std::sync::Wait;
use thread_heap::{RunningHeap, joined_law};
use trim_helper::{CloseError, Helper};

// How many calls make the image of a heap with one lane.
const CALLS_OF_FORMAT: u64 = 15;

// What was seen of a heap.
#[derive(Clone, Copy)]
struct Seen {
    // Why two rounds were refused, if they were.
    first: Option<StoreError>,
    second: Option<StoreError>,
    // How many sections the session was told of as acknowledged.
    stable: u64,
    // Whether another section began and ended.
    goes_on: bool,
}

// How many sections of the session are told to be acknowledged.
fn told(shared: &Shared, session: &mut Session) -> u64
    requires seat { IsSessionOf shared.now session.old }
    ensures seat { IsSessionOf shared.now session.new }
    ensures joined { StaysJoined shared.now session.old session.new }
{
    joined_law();
    session.stable(shared)
}

// A section, two rounds, and another section.
fn work<R: Wait>(
    rt: &R,
    shared: &Shared,
    session: &mut Session,
    helper: &mut Helper<MemDisk>,
) -> Seen
    requires helper { IsHelping device_of shared.now helper.old }
    requires session { IsJoinedWith shared.now helper.old session.old }
    ensures helper { IsHelping device_of shared.now helper.new }
    ensures session { IsJoinedWith shared.now helper.new session.new }
{
    let _ = add_one(rt, shared, session);
    let first = serve(shared, helper).err();
    let second = serve(shared, helper).err();
    let stable = told(shared, session);
    let goes_on = add_one(rt, shared, session);
    Seen {
        first,
        second,
        stable,
        goes_on,
    }
}

// The same, and the end.
fn play<R: Wait>(
    rt: &R,
    alloc: Global,
    heap: RunningHeap<MemDisk>,
    session: Session,
) -> (Seen, Closing)
    requires helper { IsHelping device_of heap.shared heap.helper }
    requires session { IsJoinedWith heap.shared heap.helper session }
{
    let (mut heap, mut session) = (heap, session);
    let seen = work(rt, &heap.shared, &mut session, &mut heap.helper);
    (seen, close_one(alloc, heap, session))
}

// The same of a heap that begins on a device whose call of this number fails.
fn seen_at<R: Wait>(rt: &R, alloc: Global, call: u64) -> Option<(Seen, Closing)>
    requires { 1 ≤ call }
{
    let mut disk = new_disk(alloc)?;
    disk.fail_call(call);
    match open_one(alloc, disk) {
        Some((heap, session)) => Some(play(rt, alloc, heap, session)),
        None => None,
    }
}

// Whether the first round is told of a fault, all later calls of a failed device, and no section of being acknowledged.
fn is_told(seen: &Seen, closing: Option<CloseError>) -> bool {
    let first = seen.first == Some(StoreError::Fault);
    let second = seen.second == Some(StoreError::Failed);
    let closed = closing == Some(CloseError::Failed);
    first && second && closed && seen.stable == 0 && seen.goes_on
}

// The first of three values, if the others are 0.
fn first_alone(values: [u64; 3]) -> Option<u64> {
    if values[1] == 0 && values[2] == 0 {
        Some(values[0])
    } else {
        None
    }
}

// What recovery gives the field for all where the device fails at this call, if all else is as it has to be.
fn kept_at<R: Wait>(rt: &R, alloc: Global, call: u64) -> Option<u64>
    requires { 1 ≤ call }
{
    let (seen, (closing, values)) = seen_at(rt, alloc, call)?;
    if is_told(&seen, closing) {
        first_alone(values?)
    } else {
        None
    }
}

// Whether no call is refused, and one section is told to be acknowledged.
fn is_served(seen: &Seen, closing: Option<CloseError>) -> bool {
    let is_ok = seen.first.is_none() && seen.second.is_none() && closing.is_none();
    is_ok && seen.stable == 1 && seen.goes_on
}

// Whether all is as it has to be where no call fails: two sections are kept, the first of which is acknowledged before the end.
fn is_whole<R: Wait>(rt: &R, alloc: Global) -> Option<bool> {
    let (seen, (closing, values)) = seen_at(rt, alloc, 1_000)?;
    Some(is_served(&seen, closing) && values == Some([2, 0, 0]))
}

#[test]
fn all_sections_are_kept_at_the_end(rt: HostRuntime) {
    assert!(rt; is_whole(&rt, rt.alloc()) == Some(true));
}

// Whether two rounds are made, the first of which acknowledges the section, where no call before this one fails.
fn are_rounds_made<R: Wait>(rt: &R, alloc: Global, call: u64) -> Option<bool>
    requires { 1 ≤ call }
{
    let (seen, _) = seen_at(rt, alloc, call)?;
    Some(seen.first.is_none() && seen.second.is_none() && seen.stable == 1 && seen.goes_on)
}

// A round makes 14 calls, two reads of a slot's head among them. Whatever was sent is kept where the last one fails, which is the
// sync after the gate that makes the control count which acknowledges it.
const KEPT: [u64; 14] = [0, 0, 0, 0, 0, 0, 0, 0, 0, 0, 0, 0, 0, 1];

// The first of the calls after the making of the image whose fault isn't told so, or leaves something else.
fn first_other<R: Wait>(rt: &R, alloc: Global) -> Option<usize> {
    for place in 0..14 {
        if kept_at(rt, alloc, place as u64 + CALLS_OF_FORMAT + 1) != Some(KEPT[place]) {
            return Some(place);
        }
    }
    None
}

#[test]
fn a_device_fails_at_each_call_of_a_round(rt: HostRuntime) {
    assert!(rt; first_other(&rt, rt.alloc()).is_none());
    // The call after them isn't made by a round, nor by a second one, which finds nothing new.
    assert!(rt; are_rounds_made(&rt, rt.alloc(), CALLS_OF_FORMAT + 15) == Some(true));
}
