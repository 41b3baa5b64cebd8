//! Threads that take and give the slots of one pool.

ghost use Rattle.std.specs.Prelude.{All};
ghost use Rattle.session.specs.Sessions.{IsSessionOf};

use crate::pool_heap::{GUARD, HEAD, empty, open_pool, take_last, take_two, value_in};
use heap_model::FieldId;
use monitor::Shared;
use pool::{Pool, give, take};
use session::Session;
use std::alloc::Global;
use std::sync::Wait;
use std::thread::{Threads, join};
use thread_rings::Receiver;

// How many slots the pool has.
const SLOTS: u32 = 4;

// How often a thread takes two slots and gives them.
const TIMES: u32 = 1_250;

// Takes a slot in a section of its own.
fn take_one<R: Wait>(
    rt: &R,
    shared: &Shared,
    pool: &Pool,
    session: Session,
) -> (Session, Option<u32>)
    requires seat { IsSessionOf shared.now session }
    ensures seat { IsSessionOf shared.now result.0 }
{
    let mut session = session;
    let _ = session.enter(rt, shared, GUARD);
    let (session, taken) = take(session, shared, pool);
    let mut session = session;
    let _ = session.exit(shared, GUARD);
    (session, taken.ok())
}

// Gives a slot in a section of its own, if the pool has it.
fn give_one<R: Wait>(
    rt: &R,
    shared: &Shared,
    pool: &Pool,
    session: Session,
    slot: Option<u32>,
) -> (Session, bool)
    requires seat { IsSessionOf shared.now session }
    ensures seat { IsSessionOf shared.now result.0 }
{
    let slot = slot.unwrap_or(SLOTS);
    if slot >= pool.slots() {
        return (session, false);
    }
    let mut session = session;
    let _ = session.enter(rt, shared, GUARD);
    let (session, given) = give(session, shared, pool, slot);
    let mut session = session;
    let _ = session.exit(shared, GUARD);
    (session, given.is_ok())
}

// Takes two slots, and gives them in the order in which they came. So the list turns round.
fn pass<R: Wait>(rt: &R, shared: &Shared, pool: &Pool, session: Session) -> (Session, bool)
    requires seat { IsSessionOf shared.now session }
    ensures seat { IsSessionOf shared.now result.0 }
{
    let (session, first) = take_one(rt, shared, pool, session);
    let (session, second) = take_one(rt, shared, pool, session);
    let (session, one) = give_one(rt, shared, pool, session, first);
    let (session, two) = give_one(rt, shared, pool, session, second);
    (session, one && two)
}

// The same so many times. Returns how many sections there were, unless a call was refused.
fn pass_often<R: Wait>(
    rt: &R,
    shared: &Shared,
    pool: &Pool,
    session: Session,
    ring: Receiver,
    times: u32,
) -> Option<u64>
    requires seat { IsSessionOf shared.now session }
{
    let mut session = session;
    let mut ring = ring;
    let mut are_ok = true;
    for _ in 0..times {
        empty(&mut ring);
        let (next, is_ok) = pass(rt, shared, pool, session);
        session = next;
        are_ok &= is_ok;
    }
    if are_ok {
        Some(session.sections())
    } else {
        None
    }
}

// Takes out the last two, in their order.
fn take_rings(rings: &mut Vec<Receiver>) -> Option<(Receiver, Receiver)> {
    let b = rings.pop()?;
    let a = rings.pop()?;
    Some((a, b))
}

// What two threads answer that do so side by side, each with a session of its own, and how often each slot stands in the list
// then.
fn race<R: Threads + Wait + Sync>(
    rt: &R,
    shared: &Shared,
    pool: &Pool,
    sessions: &mut Vec<Session>,
    rings: &mut Vec<Receiver>,
) -> Option<((Option<u64>, Option<u64>), [u32; 4])>
    requires seats { All (IsSessionOf shared.now) sessions.old.items }
{
    let _ = rings.pop();
    let (first_ring, second_ring) = take_rings(rings)?;
    let mut last = take_last(shared, sessions)?;
    let (first, second) = take_two(shared, sessions)?;
    let ends = join(
        rt,
        || pass_often(rt, shared, pool, first, first_ring, TIMES),
        || pass_often(rt, shared, pool, second, second_ring, TIMES),
    );
    Some((ends, stand(shared, &mut last)))
}

// How often each slot stands in the free list, as far as it is followed: for one step more than there are slots.
fn stand(shared: &Shared, session: &mut Session) -> [u32; 4]
    requires seat { IsSessionOf shared.now session.old }
{
    let mut found = [0u32; 4];
    let _ = session.try_enter(shared, GUARD);
    let mut link = value_in(shared, session, HEAD).unwrap_or(0);
    for _ in 0..SLOTS + 1 {
        if link == 0 || link > u64::from(SLOTS) {
            return found;
        }
        let slot = link as usize - 1;
        found[slot] = found[slot].saturating_add(1);
        link = value_in(shared, session, FieldId(link as u32)).unwrap_or(0);
    }
    found
}

// The same of a heap with a pool of these slots.
fn told_of<R: Threads + Wait + Sync>(
    rt: &R,
    alloc: Global,
) -> Option<((Option<u64>, Option<u64>), [u32; 4])> {
    let mut heap = open_pool(alloc, SLOTS, 3)?;
    let told = race(
        rt,
        &heap.shared,
        &heap.pool,
        &mut heap.sessions,
        &mut heap.rings,
    );
    drop(heap);
    told
}

// Each thread takes and gives 5,000 times, in 5,000 sections.
#[test]
fn two_threads_lose_no_slot(rt: HostRuntime) {
    let ends = (Some(5_000), Some(5_000));
    assert!(rt; told_of(&rt, rt.alloc()) == Some((ends, [1, 1, 1, 1])));
}
