//! The graph against record lists whose cuts and reasons are known, and against the plain search.

ghost use Rattle.std.specs.Prelude.{◌<◌, ◌≤◌, ◌^◌};

use crate::graphs::told::Told;
use dependence::Dependence;
use heap_model::{Cut, FieldId, Lane, LaneRecord, ObjectId, Record};
use law_cuts::plain;
use std::alloc::Global;

// A constant's value may call no function, so a lane's records are spelt by macros.
macro_rules! acq {
    ($lane:expr, $object:expr, $number:expr) => {
        (
            $lane,
            Record::Acq {
                object: ObjectId($object),
                number: $number,
            },
        )
    };
}

macro_rules! rel {
    ($lane:expr, $object:expr, $number:expr) => {
        (
            $lane,
            Record::Rel {
                object: ObjectId($object),
                number: $number,
            },
        )
    };
}

macro_rules! wait {
    ($lane:expr, $object:expr, $number:expr) => {
        (
            $lane,
            Record::WaitRel {
                object: ObjectId($object),
                number: $number,
            },
        )
    };
}

macro_rules! put {
    ($lane:expr, $before:expr, $after:expr) => {
        (
            $lane,
            Record::Put {
                field: FieldId(0),
                before: $before,
                after: $after,
            },
        )
    };
}

// What is asked of a graph, with its answer.
#[derive(Clone, Copy)]
enum Ask {
    // The stable cut has so many sections of the two lanes.
    Stable(u64, u64),
    // The lane's section isn't in the cut since it depends on this other lane's section.
    Why(u8, u64, u8, u64),
    // The lane's section has no reason not to be in the cut.
    NoReason(u8, u64),
    // So many sections were taken up for the cut before.
    Looks(u64),
    // What is stable is forgotten.
    Forget,
    // What is stable of lane 0 is forgotten, which is one section.
    ForgetFirst,
}

use Ask::{Forget, ForgetFirst, Looks, NoReason, Stable, Why};

fn cut(first: u64, second: u64) -> Cut {
    let mut counts = [0; 32];
    counts[0] = first;
    counts[1] = second;
    Cut { counts }
}

// Whether the graph answers so.
fn is_so(told: &mut Told, ask: Ask) -> bool {
    match ask {
        Stable(first, second) => told.stable_cut() == Some(cut(first, second)),
        Why(lane, section, on, its) => {
            let dependence = Dependence {
                lane: Lane(on),
                section: its,
            };
            told.reason(Lane(lane), section) == Some(dependence)
        }
        NoReason(lane, section) => told.reason(Lane(lane), section).is_none(),
        Looks(count) => told.last_looks() == count,
        Forget => {
            told.forget();
            true
        }
        ForgetFirst => told.forget_but(Lane(1)) == cut(1, 0),
    }
}

fn push_all(told: &mut Told, records: &[(u8, Record)]) {
    for (lane, record) in records {
        told.push(Lane(*lane), *record);
    }
}

// Tells the records, and asks where so many of them are told. Returns whether all answers are so.
fn follow(told: &mut Told, records: &[(u8, Record)], asks: &[(usize, Ask)]) -> bool {
    let mut place = 0;
    let mut are_so = true;
    for (count, ask) in asks {
        if let Some(more) = records.get(place..*count) {
            push_all(told, more);
        }
        place = *count;
        are_so &= is_so(told, *ask);
    }
    are_so
}

// The same of a graph with room for so many records.
fn is_told(
    alloc: Global,
    room: usize,
    records: &[(u8, Record)],
    asks: &[(usize, Ask)],
) -> Option<bool> {
    let mut told = Told::of(alloc, 2, room)?;
    Some(follow(&mut told, records, asks))
}

// Lane 0 takes o0 and o1, stores and frees o0, which lane 1 takes, stores and frees. Lane 1 has one more section, and then lane
// 0's ends.
const HANDED_OVER: [(u8, Record); 10] = [
    acq!(0, 0, 0),
    acq!(0, 1, 0),
    put!(0, 10, 1),
    rel!(0, 0, 0),
    acq!(1, 0, 1),
    put!(1, 1, 2),
    rel!(1, 0, 1),
    acq!(1, 3, 0),
    rel!(1, 3, 0),
    rel!(0, 1, 0),
];

const TOLD_OF_HANDOVER: [(usize, Ask); 6] = [
    (7, Stable(0, 0)),
    (7, Why(1, 1, 0, 1)),
    (7, NoReason(0, 1)),
    (9, Why(1, 2, 1, 1)),
    (10, Stable(1, 2)),
    (10, NoReason(1, 2)),
];

#[test]
fn handed_over_early_waits_for_its_giver(rt: HostRuntime) {
    assert!(rt; is_told(rt.alloc(), 10, &HANDED_OVER, &TOLD_OF_HANDOVER) == Some(true));
}

// Each of two sections takes what the other freed. The last record ends the second.
const CIRCLE: [(u8, Record); 10] = [
    acq!(0, 0, 0),
    acq!(0, 1, 0),
    rel!(0, 1, 0),
    acq!(1, 2, 0),
    acq!(1, 1, 1),
    rel!(1, 2, 0),
    acq!(0, 2, 1),
    rel!(0, 2, 1),
    rel!(0, 0, 0),
    rel!(1, 1, 1),
];

const TOLD_OF_CIRCLE: [(usize, Ask); 6] = [
    (9, Stable(0, 0)),
    (9, Why(0, 1, 1, 1)),
    (9, NoReason(1, 1)),
    (10, Stable(1, 1)),
    (10, NoReason(0, 1)),
    (10, NoReason(1, 1)),
];

#[test]
fn a_circle_enters_when_it_is_whole(rt: HostRuntime) {
    assert!(rt; is_told(rt.alloc(), 10, &CIRCLE, &TOLD_OF_CIRCLE) == Some(true));
}

// Before the circle's last record, after it, and with nothing new.
const LOOKS_AT_CIRCLE: [(usize, Ask); 6] = [
    (9, Stable(0, 0)),
    (9, Looks(2)),
    (10, Stable(1, 1)),
    (10, Looks(2)),
    (10, Stable(1, 1)),
    (10, Looks(0)),
];

#[test]
fn a_circle_takes_few_looks(rt: HostRuntime) {
    assert!(rt; is_told(rt.alloc(), 10, &CIRCLE, &LOOKS_AT_CIRCLE) == Some(true));
}

// Lane 0 waits, which ends its section; lane 1 has one; lane 0 takes the monitor again.
const WAITED: [(u8, Record); 7] = [
    acq!(0, 0, 0),
    put!(0, 10, 7),
    wait!(0, 0, 0),
    acq!(1, 0, 1),
    rel!(1, 0, 1),
    acq!(0, 0, 2),
    rel!(0, 0, 2),
];

const TOLD_OF_WAIT: [(usize, Ask); 2] = [(3, Stable(1, 0)), (7, Stable(2, 1))];

#[test]
fn a_wait_ends_a_section(rt: HostRuntime) {
    assert!(rt; is_told(rt.alloc(), 7, &WAITED, &TOLD_OF_WAIT) == Some(true));
}

// The stable cut by the plain search.
fn plain_cut(alloc: Global, records: &[(u8, Record)]) -> Option<Cut> {
    let mut entries = Vec::new(alloc);
    for (lane, record) in records {
        if *lane >= 32 {
            return None;
        }
        let entry = LaneRecord {
            lane: Lane(*lane),
            record: *record,
        };
        entries.push(entry).ok()?;
    }
    plain::stable_cut(alloc, &entries).ok()
}

// Whether the plain search finds the same cut, for each first part of the list.
fn plain_agrees(alloc: Global, records: &[(u8, Record)]) -> Option<bool> {
    let mut told = Told::of(alloc, 2, records.len())?;
    for count in 0..records.len() {
        let (lane, record) = records[count];
        told.push(Lane(lane), record);
        let cut = told.stable_cut()?;
        if cut != plain_cut(alloc, &records[..count + 1])? {
            return Some(false);
        }
    }
    Some(true)
}

#[test]
fn the_plain_search_agrees(rt: HostRuntime) {
    let agrees = [
        plain_agrees(rt.alloc(), &HANDED_OVER),
        plain_agrees(rt.alloc(), &CIRCLE),
        plain_agrees(rt.alloc(), &WAITED),
    ];
    assert!(rt; agrees == [Some(true); 3]);
}

// Lane 0's section ends early. Then lane 0 has a second one, which isn't yet to be kept, lane 1 one that depends on it, and lane
// 0's ends.
const HANDED_OVER_AGAIN: [(u8, Record); 14] = [
    acq!(0, 0, 0),
    acq!(0, 1, 0),
    put!(0, 10, 1),
    rel!(0, 0, 0),
    acq!(1, 0, 1),
    put!(1, 1, 2),
    rel!(1, 0, 1),
    rel!(0, 1, 0),
    acq!(0, 1, 1),
    acq!(0, 0, 2),
    rel!(0, 0, 2),
    acq!(1, 0, 3),
    rel!(1, 0, 3),
    rel!(0, 1, 1),
];

const TOLD_OF_FORGOTTEN: [(usize, Ask); 6] = [
    (8, Forget),
    (8, Stable(1, 1)),
    (8, NoReason(1, 1)),
    (13, Stable(1, 1)),
    (13, Why(1, 2, 0, 2)),
    (14, Stable(2, 2)),
];

// What is forgotten is still counted, its room is free again, and a take of what it freed depends on nothing.
#[test]
fn what_is_forgotten_still_counts(rt: HostRuntime) {
    let is_so = is_told(rt.alloc(), 8, &HANDED_OVER_AGAIN, &TOLD_OF_FORGOTTEN);
    assert!(rt; is_so == Some(true));
}

// The circle, and then a second section of each lane.
const BEHIND_CIRCLE: [(u8, Record); 14] = [
    acq!(0, 0, 0),
    acq!(0, 1, 0),
    rel!(0, 1, 0),
    acq!(1, 2, 0),
    acq!(1, 1, 1),
    rel!(1, 2, 0),
    acq!(0, 2, 1),
    rel!(0, 2, 1),
    rel!(0, 0, 0),
    rel!(1, 1, 1),
    acq!(0, 1, 2),
    acq!(1, 2, 2),
    rel!(0, 1, 2),
    rel!(1, 2, 2),
];

const TOLD_OF_PART: [(usize, Ask); 5] = [
    (10, ForgetFirst),
    (10, Stable(1, 1)),
    (10, NoReason(1, 1)),
    (13, Stable(2, 1)),
    (14, Stable(2, 2)),
];

// A part of a circle is forgotten, which no closed cut is. The other part stays stable.
#[test]
fn a_part_of_a_circle_is_forgotten(rt: HostRuntime) {
    assert!(rt; is_told(rt.alloc(), 12, &BEHIND_CIRCLE, &TOLD_OF_PART) == Some(true));
}

// Sections of two lanes in turn, each begun before the one before it ends, which takes what it frees:
// so each depends on the next, and a pass in the order of time finds one of them.
fn push_bricks(told: &mut Told, sections: u32) {
    push_all(told, &[acq!(0, 10, 0)]);
    for section in 1..sections {
        push_brick(told, section as u64);
    }
}

// The section begins, of the lane that its number gives, and the one before it ends.
fn push_brick(told: &mut Told, section: u64)
    requires some { 1 ≤ section }
    requires few { section < 2 ^ 32 }
{
    let (lane, before) = if section % 2 == 0 { (0, 1) } else { (1, 0) };
    let number = 2 * (section - 1);
    let records = [
        acq!(lane, 10 + lane as u32, section / 2),
        acq!(lane, 0, number),
        rel!(lane, 0, number),
        acq!(before, 0, number + 1),
        rel!(before, 0, number + 1),
        rel!(before, 10 + before as u32, (section - 1) / 2),
    ];
    push_all(told, &records);
}

// The number told of a chain of so many sections whose last has not ended, with room for so many records.
fn looks_at_bricks(alloc: Global, sections: u32, records: usize) -> Option<u64> {
    let mut told = Told::of(alloc, 2, records)?;
    push_bricks(&mut told, sections);
    let is_none = is_so(&mut told, Stable(0, 0));
    Some(if is_none { told.last_looks() } else { 0 })
}

#[test]
fn the_number_told_of_a_chain_is_linear(rt: HostRuntime) {
    let shorter = looks_at_bricks(rt.alloc(), 1_000, 12_000);
    let longer = looks_at_bricks(rt.alloc(), 2_000, 12_000);
    assert!(rt; [shorter, longer] == [Some(1_998), Some(3_998)]);
}

// So is the search: one that took up for each section those that it depends on would take up 10^10, which no test's minute has.
#[test] // tools/quick: not
fn a_long_chain_is_searched_in_time(rt: HostRuntime) {
    assert!(rt; looks_at_bricks(rt.alloc(), 150_000, 900_000) == Some(299_998));
}

// The number told of an answer, if there is one.
fn looks(told: &mut Told) -> Option<u64> {
    told.stable_cut()?;
    Some(told.last_looks())
}

// Lane 0's section, which stays open.
const OPEN: [(u8, Record); 3] = [acq!(0, 0, 0), acq!(0, 1, 0), rel!(0, 1, 0)];

// Tells of an open section, and of so many of lane 1 that depend on it, with an answer after each group. Returns the numbers told
// until it ends, and of the answer then.
fn looks_behind_open(told: &mut Told, sections: u64, group: u64) -> Option<[u64; 2]>
    requires { 0 < group }
{
    push_all(told, &OPEN);
    let mut taken_up = 0u64;
    for number in 1..=sections {
        push_all(told, &[acq!(1, 1, number), rel!(1, 1, number)]);
        if number % group == 0 {
            taken_up = taken_up.wrapping_add(looks(told)?);
        }
    }
    push_all(told, &[rel!(0, 0, 0)]);
    Some([taken_up, looks(told)?])
}

fn looks_with_one_open(alloc: Global, sections: u64, group: u64, records: usize) -> Option<[u64; 2]>
    requires { 0 < group }
{
    let mut told = Told::of(alloc, 2, records)?;
    looks_behind_open(&mut told, sections, group)
}

#[test]
fn what_is_left_out_is_not_told_again(rt: HostRuntime) {
    assert!(rt; looks_with_one_open(rt.alloc(), 2_000, 100, 4_004) == Some([200, 2_001]));
}

// Nor is it taken up again: one that did so for each answer would take up 10^10 sections.
#[test] // tools/quick: not
fn what_is_left_out_takes_no_time_again(rt: HostRuntime) {
    assert!(rt; looks_with_one_open(rt.alloc(), 200_000, 1, 400_004) == Some([2, 200_001]));
}
