//! Two sessions that take turns: each waits until the other has notified it.

ghost use Rattle.std.specs.Prelude.{All};
ghost use Rattle.session.specs.Sessions.{IsSessionOf};

use crate::calls::value_in;
use crate::heap::{LAST, declare, open_heap, take_two};
use heap_model::{FieldId, ObjectId};
use monitor::Shared;
use session::Session;
use std::alloc::Global;
use std::sync::Wait;
use std::thread::{Threads, join};
use thread_rings::Receiver;

const OBJECT: ObjectId = ObjectId(0);

const FIELD: FieldId = FieldId(0);

// Takes all records that wait in the ring.
fn empty(ring: &mut Receiver) {
    for _ in 0..ring.slots() {
        let _ = ring.pop();
    }
}

// One turn: the field counts it, and the other session is notified. Returns whether each call was Ok.
fn take_turn(shared: &Shared, session: &mut Session, turn: u64) -> bool
    requires seat { IsSessionOf shared.now session.old }
    ensures seat { IsSessionOf shared.now session.new }
{
    let stored = session.store(shared, FIELD, turn.wrapping_add(1)).is_ok();
    stored && session.notify(shared, OBJECT).is_ok()
}

// Takes a turn if it is this session's: each second one is, from `first` on. Returns whether it was, or none where there are no
// more before `end`.
fn try_turn(shared: &Shared, session: &mut Session, first: u64, end: u64) -> Option<bool>
    requires seat { IsSessionOf shared.now session.old }
    ensures seat { IsSessionOf shared.now session.new }
{
    let turn = value_in(shared, session, FIELD).unwrap_or(end);
    if turn >= end {
        let _ = session.exit(shared, OBJECT);
        return None;
    }
    if turn % 2 != first % 2 {
        return Some(false);
    }
    if take_turn(shared, session, turn) {
        Some(true)
    } else {
        None
    }
}

// Waits in between its turns. Returns how many it took, and how often it waited.
fn play<R: Wait>(
    rt: &R,
    shared: &Shared,
    session: Session,
    ring: Receiver,
    first: u64,
    end: u64,
) -> (u64, u64)
    requires seat { IsSessionOf shared.now session }
{
    let mut session = session;
    let mut ring = ring;
    let mut taken = 0u64;
    let mut waits = 0u64;
    let _ = session.enter(rt, shared, OBJECT);
    for _ in rt.forever() {
        match try_turn(shared, &mut session, first, end) {
            Some(true) => taken = taken.saturating_add(1),
            Some(false) => {
                empty(&mut ring);
                match session.wait(rt, shared, OBJECT) {
                    Ok(woken) => session = woken,
                    Err(_) => return (taken, waits),
                }
                waits = waits.saturating_add(1);
            }
            None => return (taken, waits),
        }
    }
    unreachable!()
}

// Takes out the last two, in their order.
fn take_rings(rings: &mut Vec<Receiver>) -> Option<(Receiver, Receiver)> {
    let b = rings.pop()?;
    let a = rings.pop()?;
    Some((a, b))
}

// Both play, from turn 10 on. Returns how many turns each took, and how often they waited in all.
fn play_both<R: Threads + Wait + Sync>(
    rt: &R,
    shared: &Shared,
    sessions: &mut Vec<Session>,
    rings: &mut Vec<Receiver>,
    end: u64,
) -> Option<[u64; 3]>
    requires seats { All (IsSessionOf shared.now) sessions.old.items }
{
    let (first_ring, second_ring) = take_rings(rings)?;
    let (first, second) = take_two(shared, sessions)?;
    let (a, b) = join(
        rt,
        || play(rt, shared, first, first_ring, 10, end),
        || play(rt, shared, second, second_ring, 11, end),
    );
    Some([a.0, b.0, a.1.saturating_add(b.1)])
}

// The same of a fresh heap.
fn told_of<R: Threads + Wait + Sync>(rt: &R, alloc: Global, end: u64) -> Option<[u64; 3]> {
    let mut heap = open_heap(alloc, declare(alloc, 1)?, 2, LAST, 1_048_576)?;
    let told = play_both(rt, &heap.shared, &mut heap.sessions, &mut heap.rings, end);
    drop(heap);
    told
}

// A session may wait once before the first turn, and one more often than it takes a turn.
#[test]
fn one_waits_while_another_notifies(rt: HostRuntime) {
    let [first, second, waits] = told_of(&rt, rt.alloc(), 2_010).unwrap_or([0; 3]);
    let are_fair = first == 1_000 && second == 1_000;
    assert!(rt;
        are_fair && 1_998 <= waits && waits <= 2_002,
        "{first} {second} {waits}"
    );
}
