//! What no clause says: that the definitions mean what docs/SCRIPTS.md's examples show, and that the calls succeed.

use heap_model::{Cut, FieldId, LANES, Lane, LaneRecord, ObjectId, Record, UndoRecord};
use law_cuts::plain::{replay, stable_cut};
use law_histories::earliest_law;
use std::alloc::Global;

// A constant's value may call no function, so records are spelt by macros.
macro_rules! entry {
    ($lane:expr, $record:expr) => {
        LaneRecord {
            lane: Lane($lane),
            record: $record,
        }
    };
}

macro_rules! acq {
    ($lane:expr, $object:expr, $number:expr) => {
        entry!(
            $lane,
            Record::Acq {
                object: ObjectId($object),
                number: $number,
            }
        )
    };
}

macro_rules! rel {
    ($lane:expr, $object:expr, $number:expr) => {
        entry!(
            $lane,
            Record::Rel {
                object: ObjectId($object),
                number: $number,
            }
        )
    };
}

macro_rules! wait {
    ($lane:expr, $object:expr, $number:expr) => {
        entry!(
            $lane,
            Record::WaitRel {
                object: ObjectId($object),
                number: $number,
            }
        )
    };
}

macro_rules! put {
    ($lane:expr, $field:expr, $before:expr, $after:expr) => {
        entry!(
            $lane,
            Record::Put {
                field: FieldId($field),
                before: $before,
                after: $after,
            }
        )
    };
}

// A section takes what an unfinished one freed, which ends with the last record.
const HANDED_OVER: [LaneRecord; 8] = [
    acq!(0, 0, 0),
    acq!(0, 1, 0),
    put!(0, 0, 10, 1),
    rel!(0, 0, 0),
    acq!(1, 0, 1),
    put!(1, 0, 1, 2),
    rel!(1, 0, 1),
    rel!(0, 1, 0),
];

// Two sections depend on each other. The last record ends the second.
const CIRCLE: [LaneRecord; 10] = [
    acq!(0, 0, 0),
    acq!(0, 1, 0),
    rel!(0, 1, 0),
    acq!(1, 2, 0),
    acq!(1, 1, 1),
    rel!(1, 2, 0),
    acq!(0, 2, 1),
    rel!(0, 2, 1),
    rel!(0, 0, 0),
    rel!(1, 1, 1),
];

// A wait frees the last monitor.
const WAITED: [LaneRecord; 7] = [
    acq!(0, 0, 0),
    put!(0, 0, 10, 7),
    wait!(0, 0, 0),
    acq!(1, 0, 1),
    rel!(1, 0, 1),
    acq!(0, 0, 2),
    rel!(0, 0, 2),
];

// A wait keeps another monitor.
const WAITED_INSIDE: [LaneRecord; 3] = [acq!(0, 0, 0), acq!(0, 1, 0), wait!(0, 0, 0)];

// A store beyond the heap, and a second section.
const BEYOND: [LaneRecord; 7] = [
    acq!(0, 0, 0),
    put!(0, 0, 10, 5),
    put!(0, 9, 0, 1),
    rel!(0, 0, 0),
    acq!(1, 0, 1),
    put!(1, 0, 5, 6),
    rel!(1, 0, 1),
];

// So many sections of the first two lanes.
fn cut(first: u64, second: u64) -> Cut {
    let mut counts = [0; 32];
    counts[0] = first;
    counts[1] = second;
    Cut { counts }
}

// The stable cut, and the heap that it keeps of two fields, which are 10 and 20 at first.
fn stable(alloc: Global, records: &[LaneRecord]) -> Option<(Cut, [u64; 2])> {
    if !records.iter().all(|entry| entry.lane.0 < 32) {
        return None;
    }
    let cut = stable_cut(alloc, records).ok()?;
    Some((cut, kept(alloc, records, &cut)?))
}

// The heap that the cut keeps.
fn kept(alloc: Global, records: &[LaneRecord], cut: &Cut) -> Option<[u64; 2]> {
    let mut heap = [10, 20];
    replay(alloc, &mut heap, records, cut).ok()?;
    Some(heap)
}

// The law holds of whatever is listed: an undo log's records are. No code runs here; that the call is proved is what is asked.
#[test]
fn the_earliest_is_found_of_any_type(_rt: HostRuntime) {
    earliest_law::<UndoRecord>();
}

// What depends on an unfinished section stays out with it, until that ends. Those that depend on each other become stable
// together.
#[test]
fn dependence_holds_sections_back(rt: HostRuntime) {
    let found = [
        stable(rt.alloc(), &HANDED_OVER[..7]),
        stable(rt.alloc(), &HANDED_OVER),
        stable(rt.alloc(), &CIRCLE[..9]),
        stable(rt.alloc(), &CIRCLE),
    ];
    let wanted = [
        Some((cut(0, 0), [10, 20])),
        Some((cut(1, 1), [2, 20])),
        Some((cut(0, 0), [10, 20])),
        Some((cut(1, 1), [10, 20])),
    ];
    assert!(rt; found == wanted);
}

// A wait that frees the last monitor ends a section, and one that keeps another doesn't.
#[test]
fn a_section_ends_at_a_wait(rt: HostRuntime) {
    let found = [
        stable(rt.alloc(), &WAITED[..3]),
        stable(rt.alloc(), &WAITED),
        stable(rt.alloc(), &WAITED_INSIDE),
    ];
    let wanted = [
        Some((cut(1, 0), [7, 20])),
        Some((cut(2, 1), [7, 20])),
        Some((cut(0, 0), [10, 20])),
    ];
    assert!(rt; found == wanted);
}

// What a cut leaves out isn't replayed, and a store beyond the heap is left out.
#[test]
fn a_cut_keeps_its_own_stores(rt: HostRuntime) {
    assert!(rt; kept(rt.alloc(), &BEYOND, &cut(1, 0)) == Some([5, 20]));
}

// The first record of these whose undo record is another one.
fn first_other(cases: &[(Record, UndoRecord)]) -> Option<Record> {
    for (record, undo) in cases {
        if record.undo() != *undo {
            return Some(*record);
        }
    }
    None
}

#[test]
fn undo_records_forget_the_new_value(rt: HostRuntime) {
    let object = ObjectId(3);
    let cases = [
        (
            Record::Acq { object, number: 7 },
            UndoRecord::Acq { object, number: 7 },
        ),
        (
            Record::Rel { object, number: 7 },
            UndoRecord::Rel { object, number: 7 },
        ),
        (
            Record::WaitRel { object, number: 7 },
            UndoRecord::WaitRel { object, number: 7 },
        ),
        (
            Record::Put {
                field: FieldId(3),
                before: 10,
                after: 11,
            },
            UndoRecord::Put {
                field: FieldId(3),
                before: 10,
            },
        ),
    ];
    assert!(rt; first_other(&cases).is_none());
}

// Whether it ends a section where this many monitors are held, by 0, 1 and 2.
fn ends(record: Record) -> [bool; 3] {
    [
        record.is_section_end(0),
        record.is_section_end(1),
        record.is_section_end(2),
    ]
}

#[test]
fn a_release_of_the_last_monitor_ends_a_section(rt: HostRuntime) {
    let object = ObjectId(0);
    let store = Record::Put {
        field: FieldId(0),
        before: 0,
        after: 1,
    };
    let found = [
        ends(Record::Acq { object, number: 0 }),
        ends(Record::Rel { object, number: 0 }),
        ends(Record::WaitRel { object, number: 0 }),
        ends(store),
    ];
    let at_one = [false, true, false];
    assert!(rt; found == [[false; 3], at_one, at_one, [false; 3]]);
}

// The first lane whose thread isn't the next number, or is another's.
fn first_unnumbered() -> Option<u8> {
    for lane in 0..32u8 {
        let thread = Lane(lane).thread();
        if thread != u64::from(lane) + 1 {
            return Some(lane);
        }
        if Lane::of_thread(thread) != Some(Lane(lane)) {
            return Some(lane);
        }
    }
    None
}

// The first of these threads that is a lane's.
fn first_lane(threads: &[u64]) -> Option<u64> {
    for thread in threads {
        if Lane::of_thread(*thread).is_some() {
            return Some(*thread);
        }
    }
    None
}

// Threads are shown from 1, and only the lanes that a heap may have are found.
#[test]
fn threads_are_numbered_from_one(rt: HostRuntime) {
    let threads = [0, LANES as u64 + 1, 256, 257, u64::MAX];
    let found = (first_unnumbered(), Lane(255).thread(), first_lane(&threads));
    assert!(rt; found == (None, 256, None));
}
