//! What a worker does.
ghost use Rattle.std.specs.Prelude.{◌≡◌, ◌+◌, ◌<◌, ◌∷◌, [], IfErr};
ghost use Rattle.thread_drive.specs.Working.{AddsRecord, GivesBack, HasCounted, HoldsJust, HoldsLast, RefusesToCount, StopsAt, TakesOne};
ghost use Rattle.session.specs.Sessions.{IsSessionOf, SameRing, capacity_of, view_of};
ghost use Rattle.thread_steps.specs.Views.{plan};

use crate::meet::Meet;
use heap_model::{FieldId, ObjectId};
use std::sync::Wait;
use std::thread::yield_now;
use thread_work::{HeapThread, Joint, SessionError, Work};

// The object for all, and its field.
const ALL: ObjectId = ObjectId(0);

const TOTAL: FieldId = FieldId(0);

/// Workers, as the work of a heap's threads. There are so many rounds, or as many as [`Meet::goes_on`] lets there be. In each a worker, in a
/// section of its own, adds one to its own field, meets the others, and adds one to the field for all. After `Behind` it tries again, unless
/// the helper has stopped.
#[derive(Drop)]
pub struct Workers<'m, M: Meet> {
    pub meet: &'m M,
    pub rounds: u32,
}

impl<'m, M: Meet> Work for Workers<'m, M> {
    // A worker answers Ok where it has worked all its rounds, and else the refusal after which it has ended. It holds no monitor then.
    ghost does = { λ workers home old new answer. HasCounted home old new answer };

    fn work<J: Joint, R: Wait>(
        &self,
        rt: &R,
        thread: &mut HeapThread<'_, J>,
    ) -> Result<(), SessionError> {
        let worker = thread.lane().0;
        work_all(rt, self.meet, thread, worker, self.rounds)
    }

    // Rounds are made while nothing comes in too.
    fn lets_helper_rest(&self) -> bool {
        false
    }
}

// Works the rounds of one worker.
fn work_all<J: Joint, R: Wait, M: Meet>(
    rt: &R,
    meet: &M,
    thread: &mut HeapThread<'_, J>,
    worker: u8,
    rounds: u32,
) -> Result<(), SessionError>
    requires seat { IsSessionOf J.home thread.old }
    requires free { HoldsJust (view_of thread.old) [] 0 }
    ensures seat { IsSessionOf J.home thread.new }
    ensures ring { SameRing thread.old thread.new }
    ensures free { HoldsJust (view_of thread.new) [] 0 }
    ensures refused { IfErr result (StopsAt J.home (worker + 1) (capacity_of thread.old)) }
{
    for _ in 0..rounds {
        if !meet.goes_on() {
            return Ok(());
        }
        if let Err(refusal) = work_round(rt, meet, thread, worker) {
            return Err(refusal);
        }
    }
    Ok(())
}

// One round, which is tried until it isn't refused as `Behind`, or the helper has stopped.
fn work_round<J: Joint, R: Wait, M: Meet>(
    rt: &R,
    meet: &M,
    thread: &mut HeapThread<'_, J>,
    worker: u8,
) -> Result<(), SessionError>
    requires seat { IsSessionOf J.home thread.old }
    requires free { HoldsJust (view_of thread.old) [] 0 }
    ensures seat { IsSessionOf J.home thread.new }
    ensures ring { SameRing thread.old thread.new }
    ensures free { HoldsJust (view_of thread.new) [] 0 }
    ensures refused { IfErr result (StopsAt J.home (worker + 1) (capacity_of thread.old)) }
{
    for _ in rt.forever() {
        match pass(rt, meet, thread, worker) {
            Err(SessionError::Behind) => {}
            answer => return answer,
        }
        if thread.has_helper_stopped() {
            return Err(SessionError::Behind);
        }
        yield_now();
    }
    unreachable!()
}

// One section.
fn pass<J: Joint, R: Wait, M: Meet>(
    rt: &R,
    meet: &M,
    thread: &mut HeapThread<'_, J>,
    worker: u8,
) -> Result<(), SessionError>
    requires seat { IsSessionOf J.home thread.old }
    requires free { HoldsJust (view_of thread.old) [] 0 }
    ensures seat { IsSessionOf J.home thread.new }
    ensures ring { SameRing thread.old thread.new }
    ensures free { HoldsJust (view_of thread.new) [] 0 }
    ensures refused { IfErr result (StopsAt J.home (worker + 1) (capacity_of thread.old)) }
{
    let own = ObjectId(u32::from(worker) + 1);
    if let Err(refusal) = take(rt, thread, own) {
        return Err(refusal);
    }
    let counted = count_both(rt, meet, thread, worker);
    leave(thread, own, counted)
}

// With the own monitor held: counts in both fields.
fn count_both<J: Joint, R: Wait, M: Meet>(
    rt: &R,
    meet: &M,
    thread: &mut HeapThread<'_, J>,
    worker: u8,
) -> Result<(), SessionError>
    requires seat { IsSessionOf J.home thread.old }
    requires held { HoldsJust (view_of thread.old) ((worker + 1) ∷ []) 1 }
    ensures seat { IsSessionOf J.home thread.new }
    ensures ring { SameRing thread.old thread.new }
    ensures held { HoldsJust (view_of thread.new) ((worker + 1) ∷ []) 5 }
    ensures refused { IfErr result (StopsAt J.home (worker + 1) (capacity_of thread.old)) }
{
    if let Err(refusal) = count(thread, FieldId(u32::from(worker) + 1)) {
        return Err(refusal);
    }
    let _ = meet.inside(worker);
    if let Err(refusal) = take(rt, thread, ALL) {
        return Err(refusal);
    }
    let counted = count(thread, TOTAL);
    leave(thread, ALL, counted)
}

// Takes the monitor of an object that isn't held.
fn take<J: Joint, R: Wait>(
    rt: &R,
    thread: &mut HeapThread<'_, J>,
    object: ObjectId,
) -> Result<(), SessionError>
    requires seat { IsSessionOf J.home thread.old }
    ensures seat { IsSessionOf J.home thread.new }
    ensures ring { SameRing thread.old thread.new }
    ensures taken { TakesOne J.home thread.old thread.new object result }
{
    thread.enter(rt, object)
}

// Adds one to the field.
fn count<J: Joint>(thread: &mut HeapThread<'_, J>, field: FieldId) -> Result<(), SessionError>
    requires seat { IsSessionOf J.home thread.old }
    ensures seat { IsSessionOf J.home thread.new }
    ensures ring { SameRing thread.old thread.new }
    ensures held { AddsRecord thread.old thread.new }
    ensures refused { RefusesToCount J.home thread.old field result }
{
    match thread.load(field) {
        Ok(value) => thread.store(field, value.wrapping_add(1)),
        Err(refusal) => Err(refusal),
    }
}

// Leaves the monitor, whatever was answered while it was held; the first refusal is told.
fn leave<J: Joint>(
    thread: &mut HeapThread<'_, J>,
    object: ObjectId,
    answer: Result<(), SessionError>,
) -> Result<(), SessionError>
    requires seat { IsSessionOf J.home thread.old }
    requires object { object.0 < (plan J.home).objects }
    requires held { HoldsLast thread.old object.0 }
    ensures seat { IsSessionOf J.home thread.new }
    ensures ring { SameRing thread.old thread.new }
    ensures same { result ≡ answer }
    ensures held { GivesBack thread.old thread.new object.0 }
{
    let left = thread.exit(object);
    match answer {
        Ok(()) => left,
        Err(refusal) => Err(refusal),
    }
}
