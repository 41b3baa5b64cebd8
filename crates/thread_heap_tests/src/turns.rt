//! Workers that take turns, and a crash at each call of the device of each round.

ghost use Rattle.block_disk.specs.Memory.{device_of};
ghost use Rattle.thread_heap.specs.Joined.{IsHelping};
ghost use Rattle.session.specs.Sessions.{IsSessionOf};

use crate::heap::{declare, disk_of, open_two};
use crate::images::recover_either;
use crate::notes::{Did, Notes};
use crate::work::serve;
use crate::workers::take_number;
use block_disk::MemDisk;
use monitor::Shared;
use session::Session;
use std::alloc::Global;
use std::sync::Wait;
use thread_heap::RunningHeap;
use trim_helper::Helper;

// One turn: the second worker does nothing at each third turn.
fn take_turn<R: Wait>(
    rt: &R,
    shared: &Shared,
    first: &mut Session,
    second: &mut Session,
    did: &mut Did,
    turn: usize,
)
    requires first { IsSessionOf shared.now first.old }
    requires second { IsSessionOf shared.now second.old }
    ensures first { IsSessionOf shared.now first.new }
    ensures second { IsSessionOf shared.now second.new }
{
    did.first.note(turn, take_number(rt, shared, first, 1));
    if turn % 3 != 2 {
        let place = turn - turn / 3;
        did.second.note(place, take_number(rt, shared, second, 2));
    }
}

// So many turns with a round after each: what was done, with what each session was told of as acknowledged.
fn take_turns<R: Wait>(
    rt: &R,
    shared: &Shared,
    first: &mut Session,
    second: &mut Session,
    helper: &mut Helper<MemDisk>,
    turns: usize,
) -> Did
    requires first { IsSessionOf shared.now first.old }
    requires second { IsSessionOf shared.now second.old }
    requires helping { IsHelping device_of shared.now helper.old }
{
    let mut did = Did {
        first: Notes::new(),
        second: Notes::new(),
        least: [0; 2],
    };
    for turn in 0..turns {
        take_turn(rt, shared, first, second, &mut did, turn);
        let _ = serve(shared, helper);
    }
    did.least = [first.stable(shared), second.stable(shared)];
    did
}

// The same of this heap.
fn take_turns_of<R: Wait>(
    rt: &R,
    heap: &mut RunningHeap<MemDisk>,
    first: &mut Session,
    second: &mut Session,
    turns: usize,
) -> Did
    requires first { IsSessionOf heap.old.shared first.old }
    requires second { IsSessionOf heap.old.shared second.old }
    requires helping { IsHelping device_of heap.old.shared heap.old.helper }
{
    take_turns(rt, &heap.shared, first, second, &mut heap.helper, turns)
}

// The same of this heap, and its disk then.
fn play<R: Wait>(
    rt: &R,
    heap: RunningHeap<MemDisk>,
    first: Session,
    second: Session,
    turns: usize,
) -> (MemDisk, Did)
    requires first { IsSessionOf heap.shared first }
    requires second { IsSessionOf heap.shared second }
    requires helping { IsHelping device_of heap.shared heap.helper }
{
    let mut heap = heap;
    let mut first = first;
    let mut second = second;
    let did = take_turns_of(rt, &mut heap, &mut first, &mut second, turns);
    drop(first);
    drop(second);
    (disk_of(heap), did)
}

// The same of a heap that begins to run.
fn played<R: Wait>(rt: &R, alloc: Global, turns: usize) -> Option<(MemDisk, Did)> {
    let schema = declare(alloc)?;
    match open_two(alloc, schema) {
        Some((heap, first, second)) => Some(play(rt, heap, first, second, turns)),
        None => None,
    }
}

/// How many calls of the device there were after so many turns, and how many sections of each were acknowledged.
pub fn told_after<R: Wait>(rt: &R, alloc: Global, turns: usize) -> Option<(u64, [u64; 2])> {
    match played(rt, alloc, turns) {
        Some((disk, did)) => {
            let least = did.least;
            Some((disk.stops(), least))
        }
        None => None,
    }
}

// Whether each crash in the last of so many rounds leaves whole sections of what was done, with all that was acknowledged before
// that round.
fn holds_in_round<R: Wait>(rt: &R, alloc: Global, round: usize) -> Option<bool> {
    let (before, least) = told_after(rt, alloc, round)?;
    match played(rt, alloc, round.saturating_add(1)) {
        Some((disk, mut did)) => {
            did.least = least;
            Some(recover_either(alloc, &disk, before, &did))
        }
        None => None,
    }
}

// The first of so many rounds in which that isn't so.
fn first_other<R: Wait>(rt: &R, alloc: Global, rounds: usize) -> Option<usize> {
    for round in 0..rounds {
        if holds_in_round(rt, alloc, round) != Some(true) {
            return Some(round);
        }
    }
    None
}

#[test]
fn a_crash_in_any_round_leaves_whole_sections(rt: HostRuntime) {
    assert!(rt; first_other(&rt, rt.alloc(), 8).is_none());
}

// How many sections of each worker are acknowledged after so many turns, and whether the device was called for that.
fn acknowledged<R: Wait>(rt: &R, alloc: Global, turns: usize) -> Option<(bool, [u64; 2])> {
    let (before, _) = told_after(rt, alloc, 0)?;
    let (stops, least) = told_after(rt, alloc, turns)?;
    Some((before < stops, least))
}

// The second worker leaves out two of eight turns.
#[test]
fn each_round_acknowledges_its_sections(rt: HostRuntime) {
    assert!(rt; acknowledged(&rt, rt.alloc(), 8) == Some((true, [8, 6])));
}
