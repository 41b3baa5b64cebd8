//! A session that finds a monitor held, and waits for it.

ghost use Rattle.std.specs.Prelude.{All};
ghost use Rattle.session.specs.Sessions.{IsSessionOf};

use crate::heap::{LAST, declare, open_heap, take_two};
use crate::words::{Words, words_of};
use heap_model::ObjectId;
use monitor::Shared;
use session::Session;
use std::alloc::Global;
use std::sync::Wait;
use std::sync::atomic::{AtomicBool, Ordering};
use std::thread;
use std::thread::{Threads, join};

const OBJECT: ObjectId = ObjectId(0);

// How often the holder lets others run before it leaves.
const TURNS: u32 = 10_000;

// Until the flag is raised.
fn await_flag<R: Wait>(rt: &R, flag: &AtomicBool) {
    for _ in rt.forever() {
        if flag.load(Ordering::SeqCst) {
            return;
        }
        thread::yield_now();
    }
}

// Keeps the object until the other one is about to enter it, and a while longer, so that it finds it held. Returns whether the
// exit was Ok.
fn leave_late<R: Wait>(rt: &R, shared: &Shared, session: Session, is_coming: &AtomicBool) -> bool
    requires seat { IsSessionOf shared.now session }
{
    let mut session = session;
    await_flag(rt, is_coming);
    for _ in 0..TURNS {
        thread::yield_now();
    }
    session.exit(shared, OBJECT).is_ok()
}

// Enters the object. Returns what its words say then.
fn come<R: Wait>(rt: &R, shared: &Shared, session: Session, is_coming: &AtomicBool) -> Option<Words>
    requires seat { IsSessionOf shared.now session }
{
    let mut session = session;
    is_coming.store(true, Ordering::SeqCst);
    match session.enter(rt, shared, OBJECT) {
        Ok(()) => Some(words_of(shared, &mut session)),
        Err(_) => None,
    }
}

// The first session takes the object before the second one comes. Returns whether it could, and could leave it, and what the
// second one finds when it has it.
fn contend<R: Threads + Wait + Sync>(
    rt: &R,
    shared: &Shared,
    sessions: &mut Vec<Session>,
) -> Option<(bool, Option<Words>)>
    requires seats { All (IsSessionOf shared.now) sessions.old.items }
{
    let (mut a, b) = take_two(shared, sessions)?;
    let taken = a.try_enter(shared, OBJECT).is_ok();
    let flag = AtomicBool::new(false);
    let is_coming = &flag;
    let (left, found) = join(
        rt,
        || leave_late(rt, shared, a, is_coming),
        || come(rt, shared, b, is_coming),
    );
    Some((taken && left, found))
}

// The same of a fresh heap.
fn told_of<R: Threads + Wait + Sync>(rt: &R, alloc: Global) -> Option<(bool, Option<Words>)> {
    let mut heap = open_heap(alloc, declare(alloc, 1)?, 2, LAST, 4_000)?;
    let told = contend(rt, &heap.shared, &mut heap.sessions);
    drop(heap);
    told
}

// The second thread takes the thin lock at number 1, makes the monitor fat in slot 0, and holds it.
#[test]
fn an_enter_that_waited_makes_the_monitor_fat(rt: HostRuntime) {
    let words = (25_165_824, Some(16_777_218));
    assert!(rt; told_of(&rt, rt.alloc()) == Some((true, Some(words))));
}
