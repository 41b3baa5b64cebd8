//! Threads on a device: one on which an image is made, and one that has an image.
ghost use Rattle.std.specs.Prelude.{◌≡◌, ◌≤◌, ◌↔◌, IfErr, IfOk, IsTrue, OnOk, length};
ghost use Rattle.block_disk.specs.Device.{SameMoments};
ghost use Rattle.thread_work.specs.Outcomes.{HasRunFrom};
ghost use Rattle.thread_work.specs.Runs.{HasFound, HasRunNew, HasRunOn, Holds, IsMadeOf, IsNotFound, IsOf, RefusesFound, RefusesLook, RefusesNewOf, RefusesOnOf};
ghost use Rattle.thread_work.specs.Stops.{StopsBack};
ghost use Rattle.recover.specs.Recovery.{IsRecovery};
ghost use Rattle.recover.specs.declared.report.Report.{Report};
ghost use Rattle.store_image.specs.Formatting.{AreLimits, RefusesFormat};
ghost use Rattle.trim_helper.specs.Opening.{FitsSchema};

use crate::error::RunError;
use crate::fitting::is_of;
use crate::image_lanes::{has_lanes_for, lanes_for};
use crate::outcome::Outcome;
use crate::running::run_heap;
use crate::work::Work;
use block_disk::Disk;
use durable::Store;
use guards::Schema;
use image::{ImageError, Recovered};
use recover::{RecoverError, Report, Study, one_study_law, recover, studied_law, study};
use std::alloc::Global;
use std::sync::Wait;
use std::thread::Threads;

/// What threads have done on a device.
#[derive(Drop)]
pub struct Ran<D: Disk> {
    /// The heap as recovery finds it on the device after the closing.
    pub recovered: Recovered<D>,
    /// What is told of it.
    pub outcome: Outcome,
}

/// Makes an image of the device for so many threads, with lanes of so many records, and lets the threads do this work on it
/// ([`run_heap`]). It has a lane for each, and one for the helper where there are fewer than 32 ([`lanes_for`]).
///
/// Refusals, in this order, each with the device: `Image`: no image was made, for the reasons of [`Store::format`]; those of
/// [`run_heap`].
pub fn run_new<D: Disk + Drop, W: Work + Sync, R: Threads + Wait + Sync>(
    rt: &R,
    alloc: Global,
    disk: D,
    schema: Schema,
    threads: u8,
    capacity: u32,
    work: &W,
) -> Result<Ran<D>, (D, RunError)>
    // Threads that begin on a new image run on what formatting the given device has made.
    ensures ok { IfOk result (λ r. HasRunNew (W.does work.now) D.device schema threads capacity (D.device disk) r.recovered r.outcome) }
    // Threads get no new image only where `Store::format` refuses it. Else they are stopped only as their heap's run is.
    ensures refused { IfErr result (RefusesNewOf (W.does work.now) D.device schema threads capacity disk) }
{
    let lanes = lanes_for(threads);
    match make_heap(alloc, disk, &schema, lanes, capacity) {
        Ok(made) => run_there(rt, alloc, made, schema, threads, work),
        Err((disk, refusal)) => {
            drop(schema);
            Err((disk, RunError::Image(refusal)))
        }
    }
}

/// Makes an image of the device, with so many lanes of so many records, of this schema. Refused as [`Store::format`] refuses, with the
/// device.
pub fn make_heap<D: Disk>(
    alloc: Global,
    disk: D,
    schema: &Schema,
    lanes: u8,
    capacity: u32,
) -> Result<Recovered<D>, (D, ImageError)>
    ensures made { IfOk result (λ made. IsMadeOf D.device schema.now lanes capacity (D.device disk) made) }
    // An image is made for threads only where the lanes and their records are within their limits.
    ensures limits { IfOk result (λ made. AreLimits lanes capacity) }
    ensures fits { IfOk result (λ made. FitsSchema schema.now made.layout made.guards) }
    ensures failures { IfOk result (λ made. (D.device disk).failures ≤ (D.device made.disk).failures) }
    ensures refused { IfErr result (λ back. RefusesFormat schema.now lanes capacity (D.device disk) (D.device back.0) back.1) }
{
    match Store::format(alloc, disk, schema, lanes, capacity) {
        Ok(made) => Ok(made),
        Err(back) => Err(back),
    }
}

/// Recovers the image that is on the device, maybe after a crash, and lets so many threads do this work on it ([`run_heap`]). It
/// tells what recovery kept and dropped.
///
/// Refusals, in this order, each with the device; but for the last two it is as it was:
/// - `Recover`: the image is refused by [`study`];
/// - `OtherSchema`: it isn't one of this schema, or hasn't as many lanes as there are threads, or one more;
/// - `Recover`: it wasn't recovered, for want of memory, by a fault, since it is of version 1, or since its control is worn. It is as it
///   was then, but that a sync was made; or after a fault, maybe on recovery's way;
/// - those of [`run_heap`].
pub fn run_on<D: Disk + Drop, W: Work + Sync, R: Threads + Wait + Sync>(
    rt: &R,
    alloc: Global,
    disk: D,
    schema: Schema,
    threads: u8,
    work: &W,
) -> Result<(Ran<D>, Report), (D, RunError)>
    // Threads that go on with an image begin with the heap that recovery found on the device.
    ensures ok { IfOk result (λ r. HasRunOn (W.does work.now) D.device schema threads (D.device disk) r.1 r.0.recovered r.0.outcome) }
    // Threads go on only with an image of their schema that has a lane for each, and at most one more.
    ensures theirs { IfOk result (λ r. Holds schema threads (D.device disk).now.bytes) }
    // A device that holds no image is refused by the reason of its study, and one that holds another image as of another
    // schema. Either is only read.
    ensures refused { IfErr result (RefusesOnOf (W.does work.now) D.device schema threads disk) }
{
    let (found, report) = match find_heap(alloc, disk, &schema, threads) {
        Ok(found) => found,
        Err(back) => {
            drop(schema);
            return Err(back);
        }
    };
    match run_there(rt, alloc, found, schema, threads, work) {
        Ok(ran) => Ok((ran, report)),
        Err(back) => {
            drop(report);
            Err(back)
        }
    }
}

/// Recovers the image that is on the device, maybe after a crash, where it is of this schema, with as many lanes as there are
/// threads, or one more.
///
/// Refusals, in this order, each with the device; but for the last it is as it was:
/// - `Recover`: the image is refused by [`study`];
/// - `OtherSchema`: it isn't one of this schema, or hasn't as many lanes as there are threads, or one more;
/// - `Recover`: it wasn't recovered, for want of memory, by a fault, since it is of version 1, or since its control is worn. It is as it
///   was then, but that a sync was made; or after a fault, maybe on recovery's way.
pub fn find_heap<D: Disk>(
    alloc: Global,
    disk: D,
    schema: &Schema,
    threads: u8,
) -> Result<(Recovered<D>, Report), (D, RunError)>
    // A heap is found for threads by a recovery of the device.
    ensures found { IfOk result (λ r. HasFound D.device schema.now threads (D.device disk) r.1 r.0) }
    // A heap is found for threads only where the device holds an image of their schema with a lane for each, and at most
    // one more.
    ensures theirs { IfOk result (λ r. Holds schema.now threads (D.device disk).now.bytes) }
    // No heap is found for threads only where the image's study, its schema or its recovery refuses it.
    ensures refused { IfErr result (λ back. RefusesFound schema.now threads (D.device disk) (D.device back.0) back.1) }
{
    let mut disk = disk;
    if let Err(refusal) = look(alloc, &mut disk, schema, threads) {
        return Err((disk, refusal));
    }
    match find(alloc, disk, schema, threads) {
        Ok(found) => Ok(found),
        Err((disk, refusal)) => Err((disk, RunError::Recover(refusal))),
    }
}

// Whether the image is of this schema, with lanes for so many threads. The device is only read.
fn look<D: Disk>(alloc: Global, disk: &mut D, schema: &Schema, threads: u8) -> Result<(), RunError>
    ensures ok { OnOk result (Holds schema.now threads (D.device disk.old).now.bytes) }
    ensures refused { IfErr result (RefusesLook schema.now threads (D.device disk.old) (D.device disk.new)) }
    ensures same { SameMoments (D.device disk.old) (D.device disk.new) }
    ensures failures { (D.device disk.old).failures ≤ (D.device disk.new).failures }
{
    let study = match study(alloc, disk) {
        Ok(study) => study,
        Err(refusal) => return Err(RunError::Recover(refusal)),
    };
    if is_theirs(schema, &study, threads) {
        return Ok(());
    }
    Err(RunError::OtherSchema)
}

// Whether an image with this study is of this schema, with lanes for so many threads.
fn is_theirs(schema: &Schema, study: &Study, threads: u8) -> bool
    requires { length study.now.guards.items ≡ study.now.layout.fields }
    ensures { IsTrue result ↔ IsOf schema.now threads study.now.layout study.now.guards.items }
{
    has_lanes_for(threads, study.layout.lanes) && is_of(schema, &study.layout, &study.guards)
}

// Recovers an image of this schema: it stays one. Refused, it is as it was, or after a fault maybe on recovery's way.
fn find<D: Disk>(
    alloc: Global,
    disk: D,
    schema: &Schema,
    threads: u8,
) -> Result<(Recovered<D>, Report), (D, RecoverError)>
    requires { Holds schema.now threads (D.device disk).now.bytes }
    ensures theirs { IfOk result (λ r. IsOf schema.now threads r.0.layout r.0.guards) }
    ensures found { IfOk result (λ r. IsRecovery (D.device disk) (D.device r.0.disk) r.0 r.1) }
    ensures failures { IfOk result (λ r. (D.device disk).failures ≤ (D.device r.0.disk).failures) }
    ensures refused { IfErr result (λ back. IsNotFound (D.device disk) (D.device back.0) back.1) }
{
    one_study_law();
    studied_law();
    let _schema = schema;
    let _threads = threads;
    match recover(alloc, disk) {
        Ok(found) => Ok(found),
        Err(back) => Err(back),
    }
}

// Lets threads do this work on an image of this schema.
fn run_there<D: Disk + Drop, W: Work + Sync, R: Threads + Wait + Sync>(
    rt: &R,
    alloc: Global,
    made: Recovered<D>,
    schema: Schema,
    threads: u8,
    work: &W,
) -> Result<Ran<D>, (D, RunError)>
    requires theirs { IsOf schema threads made.layout made.guards }
    ensures ok { IfOk result (λ r. HasRunFrom (W.does work.now) D.device schema threads made r.recovered r.outcome) }
    ensures cause { IfErr result (StopsBack (W.does work.now) D.device schema threads made) }
{
    match run_heap(rt, alloc, work, schema, made, threads) {
        Ok((recovered, outcome)) => Ok(Ran { recovered, outcome }),
        Err(back) => Err(back),
    }
}
