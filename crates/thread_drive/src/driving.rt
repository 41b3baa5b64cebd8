//! Workers on a heap, from its opening to its end.
ghost use Rattle.std.specs.Prelude.{◌≡◌, IfErr, IfOk};
ghost use Rattle.thread_drive.specs.Driven.{IsDriven, driven_by};
ghost use Rattle.thread_drive.specs.Stops.{StopsRun, said_of};
ghost use Rattle.thread_work.specs.ImageLanes.{HasLanesFor};
ghost use Rattle.trim_helper.specs.Opening.{FitsSchema};

use crate::driven::Driven;
use crate::error::DriveError;
use crate::meet::Meet;
use crate::working::Workers;
use block_disk::Disk;
use guards::Schema;
use image::Recovered;
use std::alloc::Global;
use std::sync::Wait;
use std::thread::Threads;
use thread_work::{
    Outcome, Returned, RunError, SessionError, close_returned, leave_returned, work_on,
};

/// Lets so many workers work so many rounds, or as many as [`Meet::goes_on`] lets them, on a heap of this schema that was recovered.
/// Each has a lane of its own. Then it closes the heap, recovers the device, and answers what recovery finds there. Where the image has
/// one lane more, the last one is the helper's, and a round takes two syncs in place of four.
///
/// A crash may come at any moment of it. Recovery accepts what the crash leaves, and keeps whole sections, each with all that it depends
/// on. Where the heap is closed, or a round or a worker is refused, they are of the one history in which each session's answers stand.
/// Once the workers have ended, and there was memory for what they left, no crash takes back what a worker had read as stable.
///
/// Refusals, in this order, each with the device as a stop leaves it; it may be recovered:
/// - `NoMemory`: there was no room for what the threads share, or some worker got no thread. No worker has worked then;
/// - `Helper`: a round of the helper was refused, by `Worn`, with the control's sequence at its last value, or by `Fault`, after a
///   failure of the device. Never by `Failed`: the first fault ends the rounds;
/// - `NoMemory`: there was no room for what the workers leave;
/// - `Session`: a worker's call was refused. Where each worker has its object and its field, as in a schema of
///   [`declare`](crate::declare), that is by `Behind`, after the helper has stopped, or by `Worn`;
/// - `Close`: the heap wasn't closed, by `Worn` or by `Fault`. No session is missing, and none holds a monitor;
/// - `Recover`: the device wasn't recovered: a call of it failed, memory ran out, or its control is at its last sequence.
///   Never because of what the closing left: recovery accepts that;
/// - `NoMemory`: there was no room for what is told. The device is recovered.
pub fn drive_heap<D: Disk + Drop, M: Meet + Sync, R: Threads + Wait + Sync>(
    rt: &R,
    alloc: Global,
    meet: &M,
    schema: Schema,
    recovered: Recovered<D>,
    workers: u8,
    rounds: u32,
) -> Result<(Recovered<D>, Driven), (D, DriveError)>
    requires schema { FitsSchema schema recovered.layout recovered.guards }
    requires lanes { HasLanesFor workers recovered.layout.lanes }
    // What is told at the end, the acknowledged sections by worker and the heap, is what recovery gives of the device
    // that the closing gave back.
    ensures ok { IfOk result (λ r. IsDriven D.device schema workers recovered r.0 r.1) }
    // A run is refused by a fault only where the device has failed since it began, by `Worn` only where its control is
    // at its last sequence, and never by `Failed`.
    ensures cause { IfErr result (λ back. StopsRun D.device schema workers recovered (D.device back.0) back.1) }
{
    let work = Workers { meet, rounds };
    let returned = match work_on(rt, alloc, &work, schema, recovered, workers) {
        Ok(returned) => returned,
        Err((disk, refusal)) => return Err((disk, said(refusal))),
    };
    if let Err(refusal) = answer_of(&returned) {
        let disk = leave_returned(&work, returned);
        return Err((disk, DriveError::Session(refusal)));
    }
    match close_returned(alloc, &work, returned) {
        Ok((recovered, outcome)) => Ok((recovered, told(outcome))),
        Err((disk, refusal)) => Err((disk, said(refusal))),
    }
}

// What the workers have answered.
fn answer_of<D: Disk>(returned: &Returned<D>) -> Result<(), SessionError>
    ensures { result ≡ returned.now.answer }
{
    returned.answer
}

/// What is told of a refusal of the heap's threads. That a worker ends with a monitor held can't be.
pub fn said(refusal: RunError) -> DriveError
    ensures { result ≡ said_of refusal }
{
    match refusal {
        RunError::NoMemory | RunError::NoThread => DriveError::NoMemory,
        RunError::Image(refusal) => DriveError::Image(refusal),
        RunError::Helper(refusal) => DriveError::Helper(refusal),
        RunError::Close(refusal) => DriveError::Close(refusal),
        RunError::Recover(refusal) => DriveError::Recover(refusal),
        RunError::Unfinished | RunError::OtherSchema => DriveError::OtherSchema,
    }
}

// What workers have done, by what the heap's threads leave.
fn told(outcome: Outcome) -> Driven
    ensures { result ≡ driven_by outcome }
{
    let Outcome {
        acknowledged,
        heap,
        answer: _answer,
    } = outcome;
    Driven { acknowledged, heap }
}
