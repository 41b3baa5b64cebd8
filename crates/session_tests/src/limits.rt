//! Where each limit of a session lies.

ghost use Rattle.std.specs.Prelude.{◌<◌, ◌^◌, All};
ghost use Rattle.session.specs.Sessions.{IsSessionOf};

use crate::calls::{Call, Row, follow, make_often};
use crate::heap::{LAST, declare, open_heap, take_last};
use heap_model::{FieldId, ObjectId};
use monitor::Shared;
use session::{Session, SessionError};
use std::alloc::Global;

const OBJECT: ObjectId = ObjectId(0);

const FIELD: FieldId = FieldId(0);

// Makes these calls by the session. Returns whether they go so, and how many sections have ended then.
fn follow_last(shared: &Shared, sessions: &mut Vec<Session>, rows: &[Row]) -> Option<(bool, u64)>
    requires seats { All (IsSessionOf shared.now) sessions.old.items }
{
    let mut session = take_last(shared, sessions)?;
    let are_so = follow(shared, &mut session, rows);
    Some((are_so, session.sections()))
}

// The same of a fresh heap with so many objects, whose release numbers end at `last`. Nobody is at the ring's other end.
fn told_of(alloc: Global, objects: u32, last: u64, rows: &[Row]) -> Option<(bool, u64)>
    requires last { last < 2 ^ 40 }
{
    let mut heap = open_heap(alloc, declare(alloc, objects)?, 1, last, 4_000)?;
    let told = follow_last(&heap.shared, &mut heap.sessions, rows);
    drop(heap);
    told
}

/// Inflates so many objects, from the second one on. Returns whether all calls were made.
pub fn inflate_many(shared: &Shared, session: &mut Session, objects: u32) -> bool
    requires seat { IsSessionOf shared.now session.old }
    ensures seat { IsSessionOf shared.now session.new }
{
    let mut are_so = true;
    for number in 0..objects {
        let object = ObjectId(number.saturating_add(1));
        are_so &= make_often(shared, session, Call::Enter(object), 257).is_ok();
        are_so &= make_often(shared, session, Call::Exit(object), 257).is_ok();
    }
    are_so
}

// Makes these calls, begins to wait for the first object, and makes the others if that is refused. Returns whether the calls
// went so, and why the wait was refused, if it was.
fn wait_behind(
    shared: &Shared,
    session: Session,
    rows: &[Row],
    others: &[Row],
) -> (bool, Option<SessionError>)
    requires seat { IsSessionOf shared.now session }
{
    let mut session = session;
    let are_so = follow(shared, &mut session, rows);
    match session.begin_wait(shared, OBJECT) {
        Ok(_) => (are_so, None),
        Err((session, why)) => {
            let mut session = session;
            (are_so && follow(shared, &mut session, others), Some(why))
        }
    }
}

// The same once so many objects are inflated, from the second one on.
fn wait_last(
    shared: &Shared,
    sessions: &mut Vec<Session>,
    inflated: u32,
    rows: &[Row],
    others: &[Row],
) -> Option<(bool, Option<SessionError>)>
    requires seats { All (IsSessionOf shared.now) sessions.old.items }
{
    let mut session = take_last(shared, sessions)?;
    let are_fat = inflate_many(shared, &mut session, inflated);
    let (are_so, why) = wait_behind(shared, session, rows, others);
    Some((are_fat && are_so, why))
}

// The same of a fresh heap.
fn told_of_wait(
    alloc: Global,
    inflated: u32,
    last: u64,
    rows: &[Row],
    others: &[Row],
) -> Option<(bool, Option<SessionError>)>
    requires last { last < 2 ^ 40 }
{
    let objects = inflated.saturating_add(2);
    let mut heap = open_heap(alloc, declare(alloc, objects)?, 1, last, 4_000)?;
    let told = wait_last(&heap.shared, &mut heap.sessions, inflated, rows, others);
    drop(heap);
    told
}

// A section's acquire, 998 stores, one store more, and the release.
const FULL_SECTION: [Row; 4] = [
    (Call::Enter(OBJECT), 1, Ok(())),
    (Call::Store(FIELD, 1), 998, Ok(())),
    (Call::Store(FIELD, 1), 1, Err(SessionError::SectionFull)),
    (Call::Exit(OBJECT), 1, Ok(())),
];

#[test]
fn a_section_has_1000_records(rt: HostRuntime) {
    assert!(rt; told_of(rt.alloc(), 1, LAST, &FULL_SECTION) == Some((true, 1)));
}

// Takes two objects, and stores so many times.
fn stores_in_two(stores: u32) -> [Row; 3] {
    [
        (Call::Enter(OBJECT), 1, Ok(())),
        (Call::Enter(ObjectId(1)), 1, Ok(())),
        (Call::Store(FIELD, 1), stores, Ok(())),
    ]
}

// After a wait inside a section come an acquire and its release.
#[test]
fn a_wait_inside_a_section_needs_two_more(rt: HostRuntime) {
    let found = [
        told_of_wait(rt.alloc(), 0, LAST, &stores_in_two(995), &[]),
        told_of_wait(rt.alloc(), 0, LAST, &stores_in_two(994), &[]),
    ];
    let full = (true, Some(SessionError::SectionFull));
    assert!(rt; found == [Some(full), Some((true, None))]);
}

// 16 objects, and one more.
const MANY: [Row; 17] = [
    (Call::Enter(ObjectId(0)), 1, Ok(())),
    (Call::Enter(ObjectId(1)), 1, Ok(())),
    (Call::Enter(ObjectId(2)), 1, Ok(())),
    (Call::Enter(ObjectId(3)), 1, Ok(())),
    (Call::Enter(ObjectId(4)), 1, Ok(())),
    (Call::Enter(ObjectId(5)), 1, Ok(())),
    (Call::Enter(ObjectId(6)), 1, Ok(())),
    (Call::Enter(ObjectId(7)), 1, Ok(())),
    (Call::Enter(ObjectId(8)), 1, Ok(())),
    (Call::Enter(ObjectId(9)), 1, Ok(())),
    (Call::Enter(ObjectId(10)), 1, Ok(())),
    (Call::Enter(ObjectId(11)), 1, Ok(())),
    (Call::Enter(ObjectId(12)), 1, Ok(())),
    (Call::Enter(ObjectId(13)), 1, Ok(())),
    (Call::Enter(ObjectId(14)), 1, Ok(())),
    (Call::Enter(ObjectId(15)), 1, Ok(())),
    (Call::Enter(ObjectId(16)), 1, Err(SessionError::TooMany)),
];

#[test]
fn a_session_holds_16(rt: HostRuntime) {
    assert!(rt; told_of(rt.alloc(), 17, LAST, &MANY) == Some((true, 0)));
}

// 65,536 locks of one object, and one more.
const DEEP: [Row; 2] = [
    (Call::Enter(OBJECT), 65_536, Ok(())),
    (Call::Enter(OBJECT), 1, Err(SessionError::TooDeep)),
];

#[test]
fn a_monitor_is_held_65536_times(rt: HostRuntime) {
    assert!(rt; told_of(rt.alloc(), 1, LAST, &DEEP) == Some((true, 0)));
}

// 256 locks, and one more, for which the monitor would have to become fat.
const FULL_COUNT: [Row; 2] = [
    (Call::Enter(OBJECT), 256, Ok(())),
    (Call::Enter(OBJECT), 1, Err(SessionError::NoFat)),
];

// All 1,024 slots are taken. A wait needs one too.
#[test]
fn fat_slots_are_1024(rt: HostRuntime) {
    let found = told_of_wait(rt.alloc(), 1_024, LAST, &FULL_COUNT, &[]);
    assert!(rt; found == Some((true, Some(SessionError::NoFat))));
}

// A section, and a second one's acquire.
const SECOND: [Row; 2] = [
    (Call::Pass(OBJECT), 1, Ok(())),
    (Call::Enter(OBJECT), 1, Ok(())),
];

// Its release, and a third one's acquire.
const THIRD: [Row; 2] = [
    (Call::Exit(OBJECT), 1, Ok(())),
    (Call::Enter(OBJECT), 1, Err(SessionError::Worn)),
];

// Release numbers end at 2.
#[test]
fn numbers_end_at_last(rt: HostRuntime) {
    let found = told_of_wait(rt.alloc(), 0, 2, &SECOND, &THIRD);
    assert!(rt; found == Some((true, Some(SessionError::Worn))));
}

// 1,501 sections, and one more.
const UNSERVED: [Row; 2] = [
    (Call::Pass(OBJECT), 1_501, Ok(())),
    (Call::Enter(OBJECT), 1, Err(SessionError::Behind)),
];

#[test]
fn a_lane_without_a_helper_fills(rt: HostRuntime) {
    assert!(rt; told_of(rt.alloc(), 1, LAST, &UNSERVED) == Some((true, 1_501)));
}
