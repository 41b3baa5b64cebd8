//! Threads and helper side by side.
ghost use Rattle.std.specs.Prelude.{◌≡◌, All, IfErr, IfOk, [], Some, Ok, false};
ghost use Rattle.thread_work.specs.Beside.{HaveWorkedBeside, JoinsOne};
ghost use Rattle.thread_work.specs.Serving.{HasServed};
ghost use Rattle.thread_work.specs.Bodies.{HasWorked, IsFirst};
ghost use Rattle.thread_heap.specs.Joined.{IsHelping};

use crate::bell::Bell;
use crate::body::{AllWorked, Worked, Works, and_worked, work_in_thread};
use crate::serving::{Served, serve};
use crate::work::Work;
use block_disk::Disk;
use heap_model::LANES;
use monitor::Shared;
use session::Session;
use std::alloc::{AllocError, Global};
use std::snapshot::Snapshot;
use std::sync::Wait;
use std::thread;
use std::thread::{Scope, Threads};
use trim_helper::Helper;

/// What threads and a helper leave, that were side by side.
#[derive(Drop)]
pub struct Beside<D: Disk> {
    /// What the threads leave. An error is want of memory.
    pub worked: Result<AllWorked, AllocError>,
    /// What the helper leaves.
    pub served: Served<D>,
}

/// Each session's body is called in a thread of its own, and the helper makes rounds in this one until all have returned.
///
/// An error is the helper as it was: some lane got no thread, or there was no memory. No body was called.
pub fn work_beside<D: Disk + Drop, W: Work + Sync, R: Threads + Wait + Sync>(
    rt: &R,
    alloc: Global,
    work: &W,
    shared: &Shared,
    sessions: Vec<Session>,
    helper: Helper<D>,
) -> Result<Beside<D>, Helper<D>>
    requires first { All (IsFirst shared.now) sessions.items }
    requires helping { IsHelping D.device shared.now helper }
    requires running { helper.store.known.has_failed ≡ false }
    ensures beside { IfOk result (HaveWorkedBeside (W.does work.now) D.device shared.now sessions.items helper) }
    ensures no_thread { IfErr result (λ back. back ≡ helper) }
{
    let bell = Bell::new(sessions.len() as u64, work.lets_helper_rest());
    let bell = &bell;
    thread::scope(
        thread::scope_env(),
        rt,
        |scope| -> Result<Beside<D>, Helper<D>>
            requires first { All (IsFirst shared.now) sessions.items }
            requires helping { IsHelping D.device shared.now helper }
            requires running { helper.store.known.has_failed ≡ false }
            ensures beside { IfOk result (HaveWorkedBeside (W.does work.entry.now) D.device shared.entry.now sessions.items helper) }
            ensures no_thread { IfErr result (λ back. back ≡ helper) }
        { work_in(scope, rt, alloc, work, shared, bell, sessions, helper) },
    )
}

// Gives the last of these lanes a thread, and then the others; once each has one, bodies begin and the helper serves.
fn work_in<'s, E, D, W, R>(
    scope: &Scope<'s, E>,
    rt: &'s R,
    alloc: Global,
    work: &'s W,
    shared: &'s Shared,
    bell: &'s Bell,
    sessions: Vec<Session>,
    helper: Helper<D>,
) -> Result<Beside<D>, Helper<D>>
where
    D: Disk + Drop,
    W: Work + Sync + 's,
    R: Threads + Wait + Sync + 's,
    requires first { All (IsFirst shared.now) sessions.items }
    requires helping { IsHelping D.device shared.now helper }
    requires running { helper.store.known.has_failed ≡ false }
    ensures beside { IfOk result (HaveWorkedBeside (W.does work.now) D.device shared.now sessions.items helper) }
    ensures no_thread { IfErr result (λ back. back ≡ helper) }
{
    let mut left = sessions;
    let Some(session) = left.pop() else {
        return serve_begun(rt, alloc, shared, bell, helper);
    };
    let promise = Works {
        shared,
        work,
        first: Snapshot::of(&session),
    };
    let Ok(working) = scope.spawn_with(
        promise,
        move || -> Worked
            requires { IsFirst shared.now session }
            ensures { HasWorked (W.does work.entry.now) shared.entry.now session result }
        { work_in_thread(rt, shared, bell, work, session) },
    ) else {
        bell.shut();
        drop(left);
        return Err(helper);
    };
    match work_in(scope, rt, alloc, work, shared, bell, left, helper) {
        Ok(beside) => Ok(and_joined(beside, working.join(rt))),
        Err(helper) => Err(helper),
    }
}

// Bodies begin, and the helper serves until all have returned.
fn serve_begun<D: Disk, R: Wait>(
    rt: &R,
    alloc: Global,
    shared: &Shared,
    bell: &Bell,
    helper: Helper<D>,
) -> Result<Beside<D>, Helper<D>>
    requires helping { IsHelping D.device shared.now helper }
    requires running { helper.store.known.has_failed ≡ false }
    ensures served { IfOk result (λ b. HasServed D.device shared.now helper b.served.helper b.served.answer) }
    ensures nobody { IfOk result (λ b. IfOk b.worked (λ w. (w.ended.items ≡ []) × (w.answer ≡ Some (Ok tt)))) }
    ensures no_room { IfErr result (λ back. back ≡ helper) }
{
    let Ok(ended) = Vec::with_capacity(alloc, LANES) else {
        bell.shut();
        return Err(helper);
    };
    bell.open();
    let served = serve(rt, shared, bell, helper);
    let answer = Some(Ok(()));
    let worked = Ok(AllWorked { ended, answer });
    Ok(Beside { worked, served })
}

// With what the next lane's thread leaves.
fn and_joined<D: Disk>(beside: Beside<D>, one: Worked) -> Beside<D>
    ensures served { result.served ≡ beside.served }
    ensures worked { IfOk result.worked (λ all. JoinsOne beside.worked one all) }
{
    let Beside { worked, served } = beside;
    Beside {
        worked: and_worked(worked, one),
        served,
    }
}
