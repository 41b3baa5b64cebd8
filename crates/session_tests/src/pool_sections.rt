//! What a pool's calls answer in a section, and where a section refuses them.

ghost use Rattle.std.specs.Prelude.{◌≡◌, ◌<◌, ◌≤◌, All};
ghost use Rattle.pool.specs.declared.pool.TheConstants.{MOST_SLOTS};
ghost use Rattle.session.specs.Sessions.{IsSessionOf};

use crate::pool_calls::{Call, Row, call_all};
use crate::pool_heap::{GUARD, HEAD, SLOT, empty, open_pool, take_last, take_two, value_in};
use heap_model::{FieldId, ObjectId};
use monitor::Shared;
use pool::{MOST_SLOTS, Pool, PoolError, TAKEN};
use session::{Session, SessionError};
use std::alloc::Global;
use thread_rings::Receiver;
use thread_steps::Seen;

// Stores the value in the head so many times. Returns whether all were Ok.
fn fill(shared: &Shared, session: &mut Session, value: u64, times: u32) -> bool
    requires seat { IsSessionOf shared.now session.old }
    ensures seat { IsSessionOf shared.now session.new }
{
    for _ in 0..times {
        if session.store(shared, HEAD, value).is_err() {
            return false;
        }
    }
    true
}

// Whether the stores were Ok and a pool's calls answered so; what the head and slot 0 have then; and whether the section has room
// for one store more, and ends.
type Told = (bool, [Option<u64>; 2], [bool; 2]);

// Takes the object, stores the value in the head so many times, and makes these calls of the pool.
fn told_of(
    shared: &Shared,
    pool: &Pool,
    session: Session,
    object: ObjectId,
    stores: (u64, u32),
    rows: &[Row],
) -> Told
    requires seat { IsSessionOf shared.now session }
{
    let mut session = session;
    let _ = session.try_enter(shared, object);
    let are_filled = fill(shared, &mut session, stores.0, stores.1);
    let (session, are_so) = call_all(shared, pool, session, rows);
    let mut session = session;
    let head = value_in(shared, &mut session, HEAD);
    let slot = value_in(shared, &mut session, SLOT);
    let ends = [
        session.store(shared, HEAD, 1).is_ok(),
        session.exit(shared, GUARD).is_ok(),
    ];
    (are_filled && are_so, [head, slot], ends)
}

// The same by the last session.
fn told_of_last(
    shared: &Shared,
    pool: &Pool,
    sessions: &mut Vec<Session>,
    object: ObjectId,
    stores: (u64, u32),
    rows: &[Row],
) -> Option<Told>
    requires seats { All (IsSessionOf shared.now) sessions.old.items }
{
    let session = take_last(shared, sessions)?;
    Some(told_of(shared, pool, session, object, stores, rows))
}

// The same of a heap with a pool of two slots.
fn told_of_two(alloc: Global, object: ObjectId, stores: (u64, u32), rows: &[Row]) -> Option<Told> {
    let mut heap = open_pool(alloc, 2, 1)?;
    let told = told_of_last(
        &heap.shared,
        &heap.pool,
        &mut heap.sessions,
        object,
        stores,
        rows,
    );
    drop(heap);
    told
}

// Takes until none is left, gives slot 0 twice, and takes.
const TAKEN_AND_GIVEN: [Row; 6] = [
    (Call::Take, Ok(Some(0))),
    (Call::Take, Ok(Some(1))),
    (Call::Take, Err(PoolError::Empty)),
    (Call::Give(0), Ok(None)),
    (Call::Give(0), Err(PoolError::NotTaken)),
    (Call::Take, Ok(Some(0))),
];

#[test]
fn two_slots_are_taken_and_given(rt: HostRuntime) {
    let told = (true, [Some(0), Some(TAKEN)], [true, true]);
    assert!(rt; told_of_two(rt.alloc(), GUARD, (1, 0), &TAKEN_AND_GIVEN) == Some(told));
}

const DAMAGED: [Row; 1] = [(Call::Take, Err(PoolError::Damaged))];

const TAKES_SECOND: [Row; 1] = [(Call::Take, Ok(Some(1)))];

#[test]
fn a_head_above_the_slots_is_damaged(rt: HostRuntime) {
    let found = [
        told_of_two(rt.alloc(), GUARD, (3, 1), &DAMAGED),
        told_of_two(rt.alloc(), GUARD, (2, 1), &TAKES_SECOND),
    ];
    let left = (true, [Some(3), Some(2)], [true, true]);
    let took = (true, [Some(0), Some(2)], [true, true]);
    assert!(rt; found == [Some(left), Some(took)]);
}

const FULL: [Row; 1] = [(Call::Take, Err(PoolError::Cells(SessionError::SectionFull)))];

const TAKES_FIRST: [Row; 1] = [(Call::Take, Ok(Some(0)))];

// An acquire, 997 stores and the release are 999 records: one more fits, and two don't.
#[test]
fn both_stores_have_to_fit(rt: HostRuntime) {
    let found = [
        told_of_two(rt.alloc(), GUARD, (1, 997), &FULL),
        told_of_two(rt.alloc(), GUARD, (1, 996), &TAKES_FIRST),
    ];
    let left = (true, [Some(1), Some(2)], [true, true]);
    let took = (true, [Some(2), Some(TAKEN)], [false, true]);
    assert!(rt; found == [Some(left), Some(took)]);
}

const NOT_HELD: [Row; 2] = [
    (Call::Take, Err(PoolError::Cells(SessionError::NotHeld))),
    (Call::Give(0), Err(PoolError::Cells(SessionError::NotHeld))),
];

// The heap has no second object, so none is taken.
#[test]
fn the_monitor_has_to_be_held(rt: HostRuntime) {
    let told = (true, [None, None], [false, false]);
    assert!(rt; told_of_two(rt.alloc(), ObjectId(1), (1, 0), &NOT_HELD) == Some(told));
}

// Whether the second session finds the pool's monitor taken once the first has it.
fn finds_it_taken(shared: &Shared, sessions: &mut Vec<Session>) -> Option<bool>
    requires seats { All (IsSessionOf shared.now) sessions.old.items }
{
    let (mut first, mut second) = take_two(shared, sessions)?;
    let _ = first.try_enter(shared, GUARD);
    match second.try_enter(shared, GUARD) {
        Err(SessionError::Held(Seen::Lock(_))) => Some(true),
        _ => Some(false),
    }
}

// The same of a heap with a pool of two slots.
fn is_taken_for_others(alloc: Global) -> Option<bool> {
    let mut heap = open_pool(alloc, 2, 2)?;
    let told = finds_it_taken(&heap.shared, &mut heap.sessions);
    drop(heap);
    told
}

#[test]
fn the_monitor_is_taken_for_others(rt: HostRuntime) {
    assert!(rt; is_taken_for_others(rt.alloc()) == Some(true));
}

// Stores to the first field and to the second by the last session, and answers what they hold then, unless that is refused.
fn values_after(
    shared: &Shared,
    sessions: &mut Vec<Session>,
    first: FieldId,
    second: FieldId,
) -> Option<[Option<u64>; 2]>
    requires seats { All (IsSessionOf shared.now) sessions.old.items }
{
    let mut session = take_last(shared, sessions)?;
    let _ = session.try_enter(shared, GUARD);
    let _ = session.store_two(shared, first, 5, second, 6);
    let one = value_in(shared, &mut session, first);
    let two = value_in(shared, &mut session, second);
    Some([one, two])
}

// The same of a heap with a pool of two slots.
fn values_in(alloc: Global, first: FieldId, second: FieldId) -> Option<[Option<u64>; 2]> {
    let mut heap = open_pool(alloc, 2, 1)?;
    let told = values_after(&heap.shared, &mut heap.sessions, first, second);
    drop(heap);
    told
}

// A heap with a pool of two slots has the fields 0 to 2.
#[test]
fn two_stores_are_done_in_order(rt: HostRuntime) {
    let found = [
        values_in(rt.alloc(), HEAD, SLOT),
        values_in(rt.alloc(), SLOT, SLOT),
        values_in(rt.alloc(), HEAD, FieldId(3)),
    ];
    let expected = [
        Some([Some(5), Some(6)]),
        Some([Some(6), Some(6)]),
        Some([Some(1), None]),
    ];
    assert!(rt; found == expected);
}

// Takes all slots, each in a section of its own, and tells whether they come in their order.
fn take_all(shared: &Shared, pool: &Pool, session: Session, ring: &mut Receiver) -> bool
    requires seat { IsSessionOf shared.now session }
{
    let mut session = session;
    let mut in_order = true;
    for slot in 0..pool.slots() {
        let _ = session.try_enter(shared, GUARD);
        let (next, is_it) = call_all(shared, pool, session, &[(Call::Take, Ok(Some(slot)))]);
        session = next;
        in_order &= is_it && session.exit(shared, GUARD).is_ok();
        empty(ring);
    }
    in_order
}

// The same by the last session, at the other end of whose ring this is.
fn take_all_by_last(
    shared: &Shared,
    pool: &Pool,
    sessions: &mut Vec<Session>,
    rings: &mut [Receiver],
) -> Option<bool>
    requires seats { All (IsSessionOf shared.now) sessions.old.items }
{
    let ring = rings.get_mut(0)?;
    let session = take_last(shared, sessions)?;
    Some(take_all(shared, pool, session, ring))
}

// The same of a heap whose pool has so many slots.
fn takes_all_of(alloc: Global, slots: u32) -> Option<bool>
    requires some { 0 < slots }
    requires few { slots ≤ MOST_SLOTS }
{
    let mut heap = open_pool(alloc, slots, 1)?;
    let told = take_all_by_last(
        &heap.shared,
        &heap.pool,
        &mut heap.sessions,
        &mut heap.rings,
    );
    drop(heap);
    told
}

#[test]
fn the_greatest_pool_is_taken_in_order(rt: HostRuntime) {
    assert!(rt; takes_all_of(rt.alloc(), MOST_SLOTS) == Some(true));
}
