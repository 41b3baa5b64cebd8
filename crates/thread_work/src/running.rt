//! Threads on a heap, from its opening to its end, in one call or in two halves.
ghost use Rattle.std.specs.Prelude.{◌≡◌, ◌<◌, All, IfErr, IfNone, IfOk, IfSome, Ok, Some, false, length, take};
ghost use Rattle.thread_work.specs.Returns.{HasReturned, HaveReturned, IsBack};
ghost use Rattle.std.specs.List.{range_with_len, slice_index_or};
ghost use Rattle.thread_work.specs.Bodies.{WereCalled};
ghost use Rattle.thread_work.specs.ImageLanes.{HasLanesFor};
ghost use Rattle.thread_work.specs.Outcomes.{EndsRun, HasRunFrom, IsTold};
ghost use Rattle.thread_work.specs.Serving.{CrashesBack};
ghost use Rattle.thread_work.specs.Stops.{StopsBack, StopsBy, StopsEnd, StopsTelling};
ghost use Rattle.recover.specs.Recovery.{IsCutOff};
ghost use Rattle.thread_heap.specs.Joined.{AreNew, IsHelping, IsJoined};
ghost use Rattle.trim_helper.specs.Endings.{HoldNone, IsComplete, IsEnded, lanes_ended};
ghost use Rattle.trim_helper.specs.Opening.{FitsSchema};
ghost use Rattle.trim_helper.specs.declared.ended.Ended.{Ended as Left};

use crate::beside::{Beside, work_beside};
use crate::body::{AllWorked, Answer};
use crate::crashes::taken_law;
use crate::error::RunError;
use crate::outcome::Outcome;
use crate::returned::{Returned, disk_of};
use crate::serving::Served;
use crate::work::Work;
use block_disk::Disk;
use guards::Schema;
use heap_model::LAST_NUMBER;
use image::Recovered;
use law_rounds::two_syncs_law;
use law_running::{crash_law, round_law};
use monitor::Shared;
use recover::recover;
use std::alloc::{AllocError, Global};
use std::sync::Wait;
use std::thread::Threads;
use thread_heap::{RunningHeap, close, joined_law, life_law, open};
use trim_helper::{Ended, Helper, leave, seen_law};

/// Lets so many threads do this work on a heap of this schema that was recovered, each with a lane of its own, closes the heap, and
/// recovers the device: what recovery finds there is answered. Where the image has one lane more, the last one is the helper's, and
/// a round takes two syncs in place of four.
///
/// A crash may come at any moment of it. Recovery accepts what the crash leaves, and keeps whole sections, each with all that it depends
/// on.
///
/// Refusals, in this order, each with the device as a stop leaves it; it may be recovered: those of [`work_on`], and then those of
/// [`close_returned`].
pub fn run_heap<D: Disk + Drop, W: Work + Sync, R: Threads + Wait + Sync>(
    rt: &R,
    alloc: Global,
    work: &W,
    schema: Schema,
    recovered: Recovered<D>,
    threads: u8,
) -> Result<(Recovered<D>, Outcome), (D, RunError)>
    requires schema { FitsSchema schema recovered.layout recovered.guards }
    requires lanes { HasLanesFor threads recovered.layout.lanes }
    // A run of threads calls the body of each thread, and what it tells at its end is what recovery gives of the device
    // that the closing gave back.
    ensures ok { IfOk result (λ r. HasRunFrom (W.does work.now) D.device schema threads recovered r.0 r.1) }
    // A run of threads is refused only for the cause that it names, and recovery accepts whatever a crash left since it
    // began.
    ensures cause { IfErr result (StopsBack (W.does work.now) D.device schema threads recovered) }
{
    match work_on(rt, alloc, work, schema, recovered, threads) {
        Ok(returned) => close_returned(alloc, work, returned),
        Err(back) => Err(back),
    }
}

/// Lets so many threads do this work on a heap of this schema that was recovered, until each body has returned. Each has a lane of its
/// own, and where the image has one lane more, the last one is the helper's. The heap isn't closed: whether it is may hang on what the bodies have answered.
///
/// Refusals, in this order, each with the device as a stop leaves it; it may be recovered:
/// - `NoMemory`: there was no room for what the threads share. No body was called;
/// - `NoThread`: some lane got no thread. No body was called, and the device is as it was;
/// - `NoMemory`: there was no room for what the threads leave;
/// - `Helper`: a round of the helper was refused, by `Worn`, with the control's sequence at its last value, or by `Fault`, after a
///   failure of the device. Never by `Failed`: the first fault ends the rounds. No crash takes back what a thread had read as stable.
pub fn work_on<D: Disk + Drop, W: Work + Sync, R: Threads + Wait + Sync>(
    rt: &R,
    alloc: Global,
    work: &W,
    schema: Schema,
    recovered: Recovered<D>,
    threads: u8,
) -> Result<Returned<D>, (D, RunError)>
    requires schema { FitsSchema schema recovered.layout recovered.guards }
    requires lanes { HasLanesFor threads recovered.layout.lanes }
    // Threads come back from a heap of their schema, and a body was called for each of them.
    ensures ok { IfOk result (HasReturned (W.does work.now) D.device schema threads recovered) }
    // Threads that don't come back are stopped only for the cause that is named, and recovery accepts whatever a crash
    // left since they began.
    ensures cause { IfErr result (StopsBack (W.does work.now) D.device schema threads recovered) }
{
    taken_law();
    life_law::<D>();
    round_law::<D>();
    let _layout = recovered.layout();
    match open(
        alloc,
        schema,
        recovered,
        threads,
        LAST_NUMBER,
        work.ring_records(),
    ) {
        Ok(heap) => run(rt, alloc, work, heap),
        Err((disk, _)) => Err((disk, RunError::NoMemory)),
    }
}

// The threads work beside the helper.
fn run<D: Disk + Drop, W: Work + Sync, R: Threads + Wait + Sync>(
    rt: &R,
    alloc: Global,
    work: &W,
    heap: RunningHeap<D>,
) -> Result<Returned<D>, (D, RunError)>
    requires joined { All (IsJoined heap.shared heap.helper.store.known.layout.capacity heap.helper.rings) heap.sessions.items }
    requires new { AreNew 0 heap.sessions.items }
    requires count { length heap.sessions.items ≡ heap.shared.plan.lanes }
    requires helping { IsHelping D.device heap.shared heap.helper }
    requires running { heap.helper.store.known.has_failed ≡ false }
    ensures ok { IfOk result (HaveReturned (W.does work.now) D.device heap.shared heap.helper) }
    ensures cause { IfErr result (λ back. StopsBy (D.device heap.helper.store.disk) (D.device back.0) back.1) }
    ensures crashes { IfErr result (CrashesBack D.device (W.does work.now) heap.shared heap.helper) }
{
    joined_law();
    round_law::<D>();
    seen_law::<D>();
    let RunningHeap {
        shared,
        sessions,
        helper,
    } = heap;
    let Beside { worked, served } = match work_beside(rt, alloc, work, &shared, sessions, helper) {
        Ok(beside) => beside,
        Err(helper) => {
            drop(shared);
            return Err((disk_of(helper), RunError::NoThread));
        }
    };
    let Served { helper, answer } = served;
    let Some(all) = all_called(worked) else {
        drop(shared);
        return Err((disk_of(helper), RunError::NoMemory));
    };
    let AllCalled { ended, answered } = all;
    if let Err(reason) = answer {
        return Err((leave(shared, ended, helper), RunError::Helper(reason)));
    }
    Ok(Returned {
        shared,
        ended,
        answer: answered,
        helper,
    })
}

// What the threads leave where each body was called.
#[derive(Drop)]
struct AllCalled {
    ended: Vec<Ended>,
    answered: Answer,
}

// So it is, unless there was no room for it.
fn all_called(worked: Result<AllWorked, AllocError>) -> Option<AllCalled>
    ensures { IfSome result (λ all. worked ≡ Ok (record { ended = all.ended; answer = Some all.answered })) }
{
    let Ok(worked) = worked else {
        return None;
    };
    let AllWorked { ended, answer } = worked;
    let Some(answered) = answer else {
        drop(ended);
        return None;
    };
    Some(AllCalled { ended, answered })
}

/// Closes a heap whose threads have come back, and recovers the device: what recovery finds there is answered.
///
/// Refusals, in this order, each with the device as a stop leaves it; it may be recovered:
/// - `Unfinished`: a body has ended with a monitor held;
/// - `Close`: the heap wasn't closed, by `Worn` or by `Fault`;
/// - `Recover`: the device wasn't recovered: a call of it failed, memory ran out, or its control is at its last sequence.
///   Never because of what the closing left: recovery accepts that;
/// - `NoMemory`: there was no room for what is told. The device is recovered.
pub fn close_returned<D: Disk, W: Work>(
    alloc: Global,
    work: &W,
    returned: Returned<D>,
) -> Result<(Recovered<D>, Outcome), (D, RunError)>
    requires { IsBack (W.does work.now) D.device returned }
    // What a closing after threads tells is what recovery gives of the device that it gave back.
    ensures ok { IfOk result (λ r. EndsRun (W.does work.now) D.device returned.shared returned.helper r.0 r.1) }
    // What a closing after threads tells of their bodies is what they have answered.
    ensures answer { IfOk result (λ r. r.1.answer ≡ returned.answer) }
    // A closing after threads is refused only for the cause that it names.
    ensures cause { IfErr result (λ back. StopsEnd (D.device returned.helper.store.disk) (D.device back.0) back.1) }
    // Where a closing after threads is refused, recovery accepts whatever a crash left since the heap was opened, and no
    // crash takes back what a thread had read as stable.
    ensures crashes { IfErr result (CrashesBack D.device (W.does work.now) returned.shared returned.helper) }
{
    round_law::<D>();
    let Returned {
        shared,
        ended,
        answer,
        helper,
    } = returned;
    match holder(&ended) {
        None => close_all(alloc, work, shared, ended, answer, helper),
        Some(_holder) => Err((leave(shared, ended, helper), RunError::Unfinished)),
    }
}

// The first of them that holds a monitor.
fn holder(ended: &[Ended]) -> Option<usize>
    ensures none { IfNone result (All (λ e. e.held ≡ 0) ended.now) }
    ensures some { IfSome result (λ k. (k < length ended.now) × ((d : Left) → (slice_index_or ended.now k d).held ≡ 0 → ⊥)) }
{
    ended.iter().position(|one| one.held != 0)
}

// Closes, and recovers the device.
fn close_all<D: Disk, W: Work>(
    alloc: Global,
    work: &W,
    shared: Shared,
    ended: Vec<Ended>,
    answer: Answer,
    helper: Helper<D>,
) -> Result<(Recovered<D>, Outcome), (D, RunError)>
    requires helper { IsHelping D.device shared helper }
    requires running { helper.store.known.has_failed ≡ false }
    requires ended { All (IsEnded shared helper.store.known.layout.capacity helper.rings) ended.items }
    requires lanes { lanes_ended ended.items ≡ range_with_len 0 shared.plan.lanes }
    requires called { WereCalled (W.does work.now) shared helper.store.known.layout.capacity answer ended.items }
    requires none { HoldNone ended.items }
    requires complete { IsComplete shared.plan.lanes ended.items }
    ensures ok { IfOk result (λ r. EndsRun (W.does work.now) D.device shared helper r.0 r.1) }
    ensures answer { IfOk result (λ r. r.1.answer ≡ answer) }
    ensures cause { IfErr result (λ back. StopsEnd (D.device helper.store.disk) (D.device back.0) back.1) }
    ensures crashes { IfErr result (CrashesBack D.device (W.does work.now) shared helper) }
{
    two_syncs_law();
    crash_law::<D>();
    taken_law();
    let _work = work;
    let threads = helper.threads();
    match close(shared, ended, helper) {
        Ok(disk) => tell(alloc, answer, threads, disk),
        Err((disk, refusal)) => Err((disk, RunError::Close(refusal))),
    }
}

// Recovers the device, and tells what is there, with the sections of so many lanes.
fn tell<D: Disk>(
    alloc: Global,
    answer: Answer,
    lanes: u8,
    disk: D,
) -> Result<(Recovered<D>, Outcome), (D, RunError)>
    ensures ok { IfOk result (λ r. IsTold D.device lanes (D.device disk) r.0 r.1) }
    ensures answer { IfOk result (λ r. r.1.answer ≡ answer) }
    ensures cause { IfErr result (λ back. StopsTelling (D.device disk) (D.device back.0) back.1) }
    ensures cut_off { IfErr result (λ back. IsCutOff (D.device disk) (D.device back.0)) }
{
    let (recovered, report) = match recover(alloc, disk) {
        Ok(found) => found,
        Err((disk, refusal)) => return Err((disk, RunError::Recover(refusal))),
    };
    let counts = first_counts(&report.kept.counts, lanes);
    let Ok(acknowledged) = counts.to_vec(alloc) else {
        return Err((recovered.into_disk(), RunError::NoMemory));
    };
    let Ok(heap) = recovered.heap().to_vec(alloc) else {
        return Err((recovered.into_disk(), RunError::NoMemory));
    };
    let outcome = Outcome {
        acknowledged,
        heap,
        answer,
    };
    Ok((recovered, outcome))
}

// The counts of the first lanes, so many.
fn first_counts(counts: &[u64], lanes: u8) -> &[u64]
    ensures { result.now ≡ take lanes counts.now }
{
    &counts[..counts.len().min(usize::from(lanes))]
}
