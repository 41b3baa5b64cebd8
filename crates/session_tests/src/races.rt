//! Sessions that count in one field.

ghost use Rattle.std.specs.Prelude.{◌≤◌, All};
ghost use Rattle.session.specs.Sessions.{IsSessionOf};

use crate::heap::{LAST, declare, open_heap, take_last, take_two};
use heap_model::{FieldId, ObjectId};
use monitor::Shared;
use session::Session;
use std::alloc::Global;
use std::sync::Wait;
use std::thread::{Threads, join};

const OBJECT: ObjectId = ObjectId(0);

const FIELD: FieldId = FieldId(0);

// Adds one to the field, in a section of its own.
fn count_once<R: Wait>(rt: &R, shared: &Shared, session: &mut Session) -> Option<()>
    requires seat { IsSessionOf shared.now session.old }
    ensures seat { IsSessionOf shared.now session.new }
{
    session.enter(rt, shared, OBJECT).ok()?;
    let value = session.load(shared, FIELD).ok()?;
    session.store(shared, FIELD, value.wrapping_add(1)).ok()?;
    session.exit(shared, OBJECT).ok()
}

// The same so many times. Returns how many sections there were.
fn count<R: Wait>(rt: &R, shared: &Shared, session: Session, rounds: u32) -> Option<u64>
    requires seat { IsSessionOf shared.now session }
{
    let mut session = session;
    for _ in 0..rounds {
        count_once(rt, shared, &mut session)?;
    }
    Some(session.sections())
}

// The field's value, in a section of its own.
fn value_of<R: Wait>(rt: &R, shared: &Shared, session: &mut Session) -> Option<u64>
    requires seat { IsSessionOf shared.now session.old }
{
    session.enter(rt, shared, OBJECT).ok()?;
    session.load(shared, FIELD).ok()
}

// Two threads count side by side, each with a session of its own. Returns how many sections each had, and then what a third
// session finds in the field.
fn race<R: Threads + Wait + Sync>(
    rt: &R,
    shared: &Shared,
    sessions: &mut Vec<Session>,
    rounds: u32,
) -> Option<[Option<u64>; 3]>
    requires seats { All (IsSessionOf shared.now) sessions.old.items }
{
    let mut last = take_last(shared, sessions)?;
    let (a, b) = take_two(shared, sessions)?;
    let (first, second) = join(
        rt,
        || count(rt, shared, a, rounds),
        || count(rt, shared, b, rounds),
    );
    Some([first, second, value_of(rt, shared, &mut last)])
}

// The same of a fresh heap.
fn told_of_race<R: Threads + Wait + Sync>(rt: &R, alloc: Global) -> Option<[Option<u64>; 3]> {
    let mut heap = open_heap(alloc, declare(alloc, 1)?, 3, LAST, 4_000)?;
    let told = race(rt, &heap.shared, &mut heap.sessions, 1_000);
    drop(heap);
    told
}

#[test]
fn two_sessions_race(rt: HostRuntime) {
    let counted = [Some(1_000), Some(1_000), Some(2_010)];
    assert!(rt; told_of_race(&rt, rt.alloc()) == Some(counted));
}

// All sessions but the last count once, one after the other. Returns how many sections there were, and what the last one finds.
fn count_in_turn<R: Wait>(
    rt: &R,
    shared: &Shared,
    sessions: &mut Vec<Session>,
) -> Option<(u64, Option<u64>)>
    requires seats { All (IsSessionOf shared.now) sessions.old.items }
{
    let mut last = take_last(shared, sessions)?;
    let counted = count_all(rt, shared, sessions);
    Some((counted, value_of(rt, shared, &mut last)))
}

fn count_all<R: Wait>(rt: &R, shared: &Shared, sessions: &mut Vec<Session>) -> u64
    requires seats { All (IsSessionOf shared.now) sessions.old.items }
{
    let mut counted = 0u64;
    'sessions: while let Some(session) = take_last(shared, sessions) {
        counted = counted.saturating_add(count(rt, shared, session, 1).unwrap_or(0));
    }
    counted
}

// The same of a fresh heap.
fn told_of_many<R: Wait>(rt: &R, alloc: Global, lanes: u8) -> Option<(u64, Option<u64>)>
    requires lanes { lanes ≤ 32 }
{
    let mut heap = open_heap(alloc, declare(alloc, 1)?, lanes, LAST, 2_000)?;
    let told = count_in_turn(rt, &heap.shared, &mut heap.sessions);
    drop(heap);
    told
}

#[test]
fn sessions_are_32(rt: HostRuntime) {
    assert!(rt; told_of_many(&rt, rt.alloc(), 32) == Some((31, Some(41))));
}
