//! A hosted heap is made, or opened.
ghost use Rattle.std.specs.Prelude.{◌≡◌, ◌≤◌, ◌+◌, [], IfOk};
ghost use Rattle.disk_deferred.specs.Host.{IsHostOf};
ghost use Rattle.host_heap.specs.Opening.{Formats, HasBegun, HasRings, Opens, refused_as, threads_of};
ghost use Rattle.trim_helper.specs.Opening.{FitsSchema};

use crate::beginning::seat_all;
use crate::error::HostError;
use crate::heap::HostedHeap;
use disk_deferred::{DeferredDisk, HostCalls};
use durable::Store;
use guards::Schema;
use heap_model::LAST_NUMBER;
use image::{GuardRow, ImageError, Layout, Recovered, declare};
use recover::{RecoverError, Report, Versions, recover_of};
use std::alloc::{AllocError, Global};
use thread_heap::RunningHeap;
use thread_rings::RingRecords;

/// Makes a heap of so many objects and of these fields, and opens it for so many threads. Where it has more lanes than that, the last one
/// is the helper's own, unless it is the only one; each other is a thread's. Each lane's ring has room for `ring` records. The host's
/// device has as many zero bytes as [`HostedHeap::layout`] says that the image has, durably, before the host makes the first call.
///
/// Refusals, in this order:
/// - `Schema`: as [`declare`] refuses;
/// - `Image`: by `BadHeader`, where `lanes` isn't 1 to 32 or `capacity` isn't 2,000 to 1,048,576;
/// - `NoMemory`, and `Image` by `NoMemory` and `Fault`, for want of memory.
pub fn format(
    alloc: Global,
    objects: u32,
    rows: &[GuardRow],
    lanes: u8,
    capacity: u32,
    threads: u8,
    ring: RingRecords,
) -> Result<HostedHeap, HostError>
    // A heap is made of exactly these objects and fields, each field with its owner, its guard and its first value. It
    // is refused by its schema only where it has no object, no field or too many, or a field names an object that there
    // isn't. It is refused by its header only where lanes or records are past their limits, and else for want of memory.
    ensures { Formats objects rows.now lanes capacity threads ring result }
{
    let schema = match declare(alloc, objects, rows) {
        Ok(schema) => schema,
        Err(refusal) => return Err(HostError::Schema(refusal)),
    };
    let Some(layout) = Layout::of(&schema, lanes, capacity) else {
        drop(schema);
        return Err(HostError::Image(ImageError::BadHeader));
    };
    let Ok((disk, calls)) = DeferredDisk::new(alloc, layout.size()) else {
        drop(schema);
        return Err(HostError::NoMemory);
    };
    let made = match Store::format(alloc, disk, &schema, lanes, capacity) {
        Ok(made) => made,
        Err((disk, refusal)) => {
            drop(disk);
            drop(calls);
            drop(schema);
            return Err(HostError::Image(refusal));
        }
    };
    match begin(alloc, schema, made, calls, threads, ring) {
        Ok(heap) => Ok(heap),
        Err(_) => Err(HostError::NoMemory),
    }
}

/// Opens the heap of the image that the host's device has, durably, if it is of one of these versions; these are its bytes, all of
/// them. It is opened for so many threads, as [`format`] does. Each lane's ring has room for `ring` records, whatever room it had before:
/// the image doesn't say. The heap is recovered first, in memory, and so is of the current version: recovery's calls are the first that
/// the host makes.
///
/// Refusals, in this order: `NoMemory` for the bytes; `Recover`, as [`recover_of`](recover::recover_of) refuses, but `NoMemory` in
/// place of a fault, since the disk is in memory; `Schema` and `NoMemory`, for want of memory.
pub fn open(
    alloc: Global,
    bytes: &[u8],
    versions: Versions,
    threads: u8,
    ring: RingRecords,
) -> Result<(HostedHeap, Report), HostError>
    // A heap is opened with what recovery finds in the bytes of the host's device, and with recovery's report. It isn't
    // opened where something is wrong with the bytes, and then recovery's reason is returned, or where memory runs out.
    ensures { Opens versions threads ring bytes.now result }
{
    let Ok((disk, calls)) = DeferredDisk::from_bytes(alloc, bytes) else {
        return Err(HostError::NoMemory);
    };
    let (recovered, report) = match recover_of(alloc, disk, versions) {
        Ok(found) => found,
        Err((disk, refusal)) => {
            drop(disk);
            drop(calls);
            return Err(refused(refusal));
        }
    };
    let schema = match declare(alloc, recovered.layout().objects, recovered.guards()) {
        Ok(schema) => schema,
        Err(refusal) => {
            drop(recovered);
            drop(calls);
            return Err(HostError::Schema(refusal));
        }
    };
    match begin(alloc, schema, recovered, calls, threads, ring) {
        Ok(heap) => Ok((heap, report)),
        Err(_) => Err(HostError::NoMemory),
    }
}

// Why an opening is refused. A disk in memory fails only for want of memory.
fn refused(refusal: RecoverError) -> HostError
    ensures { result ≡ refused_as refusal }
{
    match refusal {
        RecoverError::Fault | RecoverError::NoMemory => HostError::NoMemory,
        other => HostError::Recover(other),
    }
}

// Lets a heap of this schema that was recovered run, for so many threads and with rings of so many records.
fn begin(
    alloc: Global,
    schema: Schema,
    recovered: Recovered<DeferredDisk>,
    calls: HostCalls,
    wanted: u8,
    ring: RingRecords,
) -> Result<HostedHeap, AllocError>
    requires schema { FitsSchema schema recovered.layout recovered.guards }
    requires calls { (calls.made ≡ []) × (calls.left ≡ []) }
    requires host { IsHostOf recovered.disk calls }
    ensures begun { IfOk result (HasBegun schema (threads_of recovered.layout.lanes wanted) recovered) }
    ensures rings { IfOk result (HasRings ring) }
    ensures calls { IfOk result (λ x. x.calls ≡ calls) }
{
    let layout = recovered.layout();
    let threads = threads_among(layout.lanes, wanted);
    let heap = match thread_heap::open(alloc, schema, recovered, threads, LAST_NUMBER, ring) {
        Ok(heap) => heap,
        Err((disk, error)) => {
            drop(disk);
            drop(calls);
            return Err(error);
        }
    };
    let RunningHeap {
        shared,
        sessions,
        helper,
    } = heap;
    match seat_all(alloc, shared, sessions) {
        Ok((shared, stop, unused, lanes)) => Ok(HostedHeap {
            alloc,
            shared,
            helper,
            calls,
            layout,
            unused,
            lanes,
            stop,
        }),
        Err(error) => {
            drop(helper);
            drop(calls);
            Err(error)
        }
    }
}

// How many of so many lanes are the threads', where the caller has so many threads.
fn threads_among(lanes: u8, wanted: u8) -> u8
    ensures threads { result ≡ threads_of lanes wanted }
    ensures some { 1 ≤ lanes → 1 ≤ result }
    ensures within { result ≤ lanes }
    ensures most { lanes ≤ result + 1 }
{
    if wanted < lanes && lanes >= 2 {
        lanes - 1
    } else {
        lanes
    }
}
