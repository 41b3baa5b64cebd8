//! A heap of two threads whose image has a third lane, the helper's own: a round takes two syncs, and the next one brings its values home.

ghost use Rattle.block_disk.specs.Memory.{device_of};
ghost use Rattle.thread_heap.specs.Joined.{IsHelping};
ghost use Rattle.session.specs.Sessions.{IsSessionOf};

use crate::counted_disk::CountedDisk;
use crate::heap::{disk_of, open_helped};
use crate::images::{Expected, recover_either};
use crate::work::serve;
use block_disk::MemDisk;
use heap_model::{Cut, FieldId, ObjectId};
use monitor::Shared;
use session::Session;
use std::alloc::Global;
use thread_heap::RunningHeap;
use trim_helper::Helper;

// The size of its image, and where the home cells of the threads' own fields lie, after that of the field for all.
const SIZE: u64 = 98_232;

const CELLS_AT: [u64; 2] = [2_216, 2_224];

// What each thread stores in its own field.
const FIRST: u64 = 5;

const SECOND: u64 = 7;

// Stores to the field of this number, in a section of its own, and answers whether each call was Ok.
fn store_own(shared: &Shared, session: &mut Session, own: u32, value: u64) -> bool
    requires seat { IsSessionOf shared.now session.old }
    ensures seat { IsSessionOf shared.now session.new }
{
    let entered = session.try_enter(shared, ObjectId(own)).is_ok();
    let stored = session.store(shared, FieldId(own), value).is_ok();
    let left = session.exit(shared, ObjectId(own)).is_ok();
    entered & stored & left
}

// The first turn is the first thread's, and each later one the second's.
fn take_turn(shared: &Shared, first: &mut Session, second: &mut Session, turn: u32) -> bool
    requires first { IsSessionOf shared.now first.old }
    requires second { IsSessionOf shared.now second.old }
    ensures first { IsSessionOf shared.now first.new }
    ensures second { IsSessionOf shared.now second.new }
{
    if turn == 0 {
        store_own(shared, first, 1, FIRST)
    } else {
        store_own(shared, second, 2, SECOND)
    }
}

// So many turns with a round after each. Returns whether all were Ok.
fn take_turns(
    shared: &Shared,
    first: &mut Session,
    second: &mut Session,
    helper: &mut Helper<CountedDisk>,
    turns: u32,
) -> bool
    requires first { IsSessionOf shared.now first.old }
    requires second { IsSessionOf shared.now second.old }
    requires helping { IsHelping (λ d. device_of d.disk) shared.now helper.old }
{
    let mut is_ok = true;
    for turn in 0..turns {
        is_ok &= take_turn(shared, first, second, turn);
        is_ok &= serve(shared, helper).is_ok();
    }
    is_ok
}

// The same of this heap.
fn take_turns_of(
    heap: &mut RunningHeap<CountedDisk>,
    first: &mut Session,
    second: &mut Session,
    turns: u32,
) -> bool
    requires first { IsSessionOf heap.old.shared first.old }
    requires second { IsSessionOf heap.old.shared second.old }
    requires helping { IsHelping (λ d. device_of d.disk) heap.old.shared heap.old.helper }
{
    take_turns(&heap.shared, first, second, &mut heap.helper, turns)
}

// The same, where it has no third session, and its disk then.
fn play(
    heap: RunningHeap<CountedDisk>,
    first: Session,
    second: Session,
    turns: u32,
) -> (CountedDisk, bool)
    requires first { IsSessionOf heap.shared first }
    requires second { IsSessionOf heap.shared second }
    requires helping { IsHelping (λ d. device_of d.disk) heap.shared heap.helper }
{
    let mut heap = heap;
    let mut first = first;
    let mut second = second;
    let are_two = heap.sessions.is_empty();
    let is_ok = take_turns_of(&mut heap, &mut first, &mut second, turns);
    drop(first);
    drop(second);
    (disk_of(heap), are_two && is_ok)
}

// The disk of a heap that begins to run, after so many turns that were Ok.
fn played(alloc: Global, turns: u32) -> Option<CountedDisk> {
    let disk = CountedDisk::of(MemDisk::new(alloc, SIZE).ok()?);
    let (disk, is_ok) = match open_helped(alloc, disk) {
        Some((heap, first, second)) => play(heap, first, second, turns),
        None => return None,
    };
    if is_ok {
        Some(disk)
    } else {
        drop(disk);
        None
    }
}

fn cell_at(disk: &MemDisk, at: u64) -> Option<u64> {
    let from = at as usize;
    let bytes = disk.bytes().get(from..from.checked_add(8)?)?;
    Some(u64::from_be_bytes(*bytes.as_array::<8>()?))
}

fn cells_of(disk: &MemDisk) -> Option<[u64; 2]> {
    Some([cell_at(disk, CELLS_AT[0])?, cell_at(disk, CELLS_AT[1])?])
}

// How many writes and syncs there are of the disk after so many turns, and what the home cells of the threads' own fields hold.
fn found(alloc: Global, turns: u32) -> Option<((u64, u64), [u64; 2])> {
    match played(alloc, turns) {
        Some(disk) => {
            let counts = disk.counts;
            let cells = cells_of(disk.memory());
            drop(disk);
            Some((counts, cells?))
        }
        None => None,
    }
}

// So many turns, the writes and syncs, and the cells.
type Case = (u32, (u64, u64), [u64; 2]);

// A round writes the three records of the helper's section, which keeps the field's value, and two parts of one control; and there are
// two syncs. The second one also writes the first one's value home.
const CASES: [Case; 3] = [
    (0, (12, 3), [0, 0]),
    (1, (12 + 5, 3 + 2), [0, 0]),
    (2, (12 + 5 + 6, 3 + 2 + 2), [FIRST, 0]),
];

// The first of these of which it finds others.
fn first_other(alloc: Global) -> Option<Case> {
    for case in CASES {
        let (turns, counts, cells) = case;
        if found(alloc, turns) != Some((counts, cells)) {
            return Some(case);
        }
    }
    None
}

#[test]
fn a_round_with_a_lane_of_its_own_makes_two_syncs(rt: HostRuntime) {
    assert!(rt; first_other(rt.alloc()).is_none());
}

// The first thread's section, and at least so many of the second's one.
struct Kept {
    least: u64,
}

impl Expected for Kept {
    fn is_met(&self, values: &[u64], kept: &Cut) -> bool {
        let seconds = kept.counts[1];
        let has_least = kept.counts[0] == 1 && self.least <= seconds && seconds <= 1;
        has_least && have_values(values, if seconds == 1 { SECOND } else { 0 })
    }
}

// Whether the first thread's field has its value, and the second's has this one.
fn have_values(values: &[u64], second: u64) -> bool {
    match values {
        [all, one, two] => *all == 0 && *one == FIRST && *two == second,
        _ => false,
    }
}

fn stops_after(alloc: Global, turns: u32) -> Option<u64> {
    match played(alloc, turns) {
        Some(disk) => {
            let stops = disk.memory().stops();
            drop(disk);
            Some(stops)
        }
        None => None,
    }
}

// Whether each crash in the second round keeps the first one's section, and one after it keeps both.
fn keeps(alloc: Global) -> Option<[bool; 2]> {
    let before = stops_after(alloc, 1)?;
    match played(alloc, 2) {
        Some(disk) => {
            let memory = disk.memory();
            let during = recover_either(alloc, memory, before, &Kept { least: 0 });
            let behind = recover_either(alloc, memory, memory.stops(), &Kept { least: 1 });
            drop(disk);
            Some([during, behind])
        }
        None => None,
    }
}

#[test]
fn a_crash_after_the_second_round_keeps_both(rt: HostRuntime) {
    assert!(rt; keeps(rt.alloc()) == Some([true, true]));
}
