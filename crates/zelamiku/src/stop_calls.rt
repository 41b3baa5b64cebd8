//! A call of the device that the host couldn't make, and what a session answers once its heap has stopped since.
ghost use Rattle.std.specs.Prelude.{Some};
ghost use Rattle.zelamiku.specs.Handles.{Answers, holding, session_held};
ghost use Rattle.zelamiku.specs.SessionDoors.{EntersAt, ResumesFrom, Stays, WaitsFrom};
ghost use Rattle.zelamiku.specs.StopDoors.{FailsCallAt, UnlessStopped, UnlessStoppedWaiting};
ghost use Rattle.zelamiku.specs.declared.state.Open.TheVariants as kind;

use crate::state::{Inner, Open};
use crate::status;
use heap_model::ObjectId;
use host_heap::{Closed, FailedCall, HostedHeap, HostedSession, HostedWaiting};

/// The host couldn't make the call.
pub fn call_failed(state: &mut Inner) -> u32
    ensures { Answers FailsCallAt (Some state.old) (Some state.new) result }
{
    let found = state.take();
    let (open, answer) = after_failure(found);
    state.put(open);
    answer
}

fn after_failure(found: Open) -> (Open, u32)
    ensures { FailsCallAt found (holding result.0) result.1 }
{
    match found {
        Open::Heap(heap) => heap_after_failure(heap),
        Open::Closed(closed) => closed_after_failure(closed),
        Open::Stopped(word) => (Open::Stopped(word), status::STOPPED),
        other => (other, status::WRONG_KIND),
    }
}

fn heap_after_failure(heap: HostedHeap) -> (Open, u32)
    ensures { FailsCallAt (kind.Heap heap) (holding result.0) result.1 }
{
    let mut heap = heap;
    match heap.call_failed() {
        None => (Open::Heap(heap), status::NONE_LEFT),
        Some(FailedCall::Write) => (Open::Heap(heap), status::OK),
        Some(FailedCall::Sync) => {
            let word = heap.into_stop_word();
            (Open::Stopped(Some(word)), status::STOPPED)
        }
    }
}

fn closed_after_failure(closed: Closed) -> (Open, u32)
    ensures { FailsCallAt (kind.Closed closed) (holding result.0) result.1 }
{
    match closed.call_failed() {
        None => (Open::Closed(closed), status::NONE_LEFT),
        Some(FailedCall::Write) => (Open::Closed(closed), status::OK),
        Some(FailedCall::Sync) => {
            drop(closed);
            (Open::Stopped(None), status::STOPPED)
        }
    }
}

/// An enter, unless the session sees that its heap has stopped.
pub fn enter(session: &mut HostedSession, object: u32) -> u32
    ensures { UnlessStopped (Stays (EntersAt object)) session.old (session_held session.new) result }
{
    if session.is_stopped() {
        return status::STOPPED;
    }
    status::of_answer(session.try_enter(ObjectId(object)))
}

/// A wait, unless the session sees that its heap has stopped.
pub fn wait(session: HostedSession, object: u32) -> (Open, u32)
    ensures { UnlessStopped (WaitsFrom object) session (holding result.0) result.1 }
{
    let mut session = session;
    if session.is_stopped() {
        return (Open::Session(session), status::STOPPED);
    }
    match session.begin_wait(ObjectId(object)) {
        Ok(waiting) => (Open::Waiting(waiting), status::OK),
        Err((session, refusal)) => (Open::Session(session), status::of_session(refusal)),
    }
}

/// A resume, unless what waits sees that its heap has stopped.
pub fn resume(waiting: HostedWaiting) -> (Open, u32)
    ensures { UnlessStoppedWaiting ResumesFrom waiting (holding result.0) result.1 }
{
    let mut waiting = waiting;
    if waiting.is_stopped() {
        return (Open::Waiting(waiting), status::STOPPED);
    }
    match waiting.try_resume() {
        Ok(session) => (Open::Session(session), status::OK),
        Err((waiting, still)) => (Open::Waiting(waiting), status::of_still(still)),
    }
}
