//! Workers on a device: one in memory, one on which an image is made, and one that has an image of theirs.
ghost use Rattle.std.specs.Prelude.{◌≡◌, IfErr, IfOk};
ghost use Rattle.block_disk.specs.Memory.{Memory, device_of};
ghost use Rattle.thread_drive.specs.Driven.{HasDriven, HasDrivenOn, IsDriven, blank_device};
ghost use Rattle.thread_drive.specs.Refusals.{IsOwnStop, RefusesNew, RefusesOn, RefusesSize, RefusesWith};
ghost use Rattle.thread_drive.specs.Schemas.{HoldsWorkers, IsOfWorkers, MayHaveImage, schema_of};
ghost use Rattle.thread_drive.specs.Stops.{StopsRun};
ghost use Rattle.image_parts.specs.Layout.{size_of};
ghost use Rattle.image_parts.specs.Recovered.{Parts};
ghost use Rattle.store_image.specs.Formatting.{layout_with};

use crate::declaring::declare;
use crate::driven::Driven;
use crate::driving::{drive_heap, said};
use crate::error::DriveError;
use crate::meet::Meet;
use block_disk::{Disk, MemDisk};
use guards::Schema;
use image::{ImageError, Layout, Recovered};
use std::alloc::Global;
use std::sync::Wait;
use std::thread::Threads;
use thread_work::{find_heap, make_heap};

// How many records a lane holds.
const CAPACITY: u32 = 4_000;

/// Lets so many workers work so many rounds each on a heap of their own on a disk in memory. There are 1 to 32 workers, which each
/// have an object, a field and a lane.
///
/// Refused as [`drive_new`] refuses; the disk isn't too small for the image.
pub fn drive_with<M: Meet + Sync, R: Threads + Wait + Sync>(
    rt: &R,
    alloc: Global,
    meet: &M,
    workers: u8,
    rounds: u32,
) -> Result<Driven, DriveError>
    // A new heap of as many lanes as there are workers was worked on, and what is told is what recovery gives at the
    // end.
    ensures ok { IfOk result (λ d. (now : Parts Memory) × HasDriven device_of workers (blank_device workers) now d) }
    // Workers work only where there are 1 to 32 of them.
    ensures workers { IfOk result (λ d. MayHaveImage workers) }
    // Workers are refused for their number only where there aren't 1 to 32 of them. An image that can't be made is
    // refused as `Store::format` says.
    ensures refused { IfErr result (RefusesWith device_of workers) }
{
    let size = image_size(alloc, workers)?;
    let Ok(disk) = MemDisk::new(alloc, size) else {
        return Err(DriveError::NoMemory);
    };
    match drive_new(rt, alloc, meet, disk, workers, rounds) {
        Ok(done) => Ok(driven_of(done)),
        Err(back) => Err(refusal_of(back)),
    }
}

// What was driven, without the device.
fn driven_of<D: Disk + Drop>(done: (Recovered<D>, Driven)) -> Driven
    ensures { result ≡ done.1 }
{
    let (_recovered, driven) = done;
    driven
}

// The refusal, without the device.
fn refusal_of<D: Disk + Drop>(back: (D, DriveError)) -> DriveError
    ensures { result ≡ back.1 }
{
    let (_disk, refusal) = back;
    refusal
}

/// How many bytes the image of so many workers has.
///
/// Refused: `Schema` for want of memory; `Image`, by `BadHeader`, where there aren't 1 to 32 workers.
pub fn image_size(alloc: Global, workers: u8) -> Result<u64, DriveError>
    ensures ok { IfOk result (λ size. size ≡ size_of (layout_with (schema_of workers) workers 4000)) }
    // Workers work only where there are 1 to 32 of them.
    ensures workers { IfOk result (λ size. MayHaveImage workers) }
    ensures refused { IfErr result (RefusesSize workers) }
{
    let schema = match declare(alloc, workers) {
        Ok(schema) => schema,
        Err(refusal) => return Err(DriveError::Schema(refusal)),
    };
    let layout = Layout::of(&schema, workers, CAPACITY);
    drop(schema);
    match layout {
        Some(layout) => Ok(layout.size()),
        None => Err(DriveError::Image(ImageError::BadHeader)),
    }
}

/// Makes an image of the device, and lets workers work on it as [`drive_heap`] says.
///
/// Refusals, in this order, each with the device: `Schema` for want of memory; `Image`: no image was made, for the reasons of
/// [`make_heap`]; those of [`drive_heap`].
pub fn drive_new<D: Disk + Drop, M: Meet + Sync, R: Threads + Wait + Sync>(
    rt: &R,
    alloc: Global,
    meet: &M,
    disk: D,
    workers: u8,
    rounds: u32,
) -> Result<(Recovered<D>, Driven), (D, DriveError)>
    // A new heap of as many lanes as there are workers was worked on, and what is told is what recovery gives at the
    // end.
    ensures ok { IfOk result (λ r. HasDriven D.device workers (D.device disk) r.0 r.1) }
    // Workers work only where there are 1 to 32 of them.
    ensures workers { IfOk result (λ r. MayHaveImage workers) }
    // Workers are refused for their number only where there aren't 1 to 32 of them. An image that can't be made is
    // refused as `Store::format` says.
    ensures refused { IfErr result (λ back. RefusesNew D.device workers (D.device disk) (D.device back.0) back.1) }
{
    let schema = match declare(alloc, workers) {
        Ok(schema) => schema,
        Err(refusal) => return Err((disk, DriveError::Schema(refusal))),
    };
    match make_heap(alloc, disk, &schema, workers, CAPACITY) {
        Ok(made) => drive_made(rt, alloc, meet, schema, made, workers, rounds),
        Err((disk, refusal)) => {
            drop(schema);
            Err((disk, DriveError::Image(refusal)))
        }
    }
}

/// Recovers the image that earlier workers, as many, have left on the device, maybe in a crash, and lets workers go on with it as
/// [`drive_heap`] says.
///
/// Refusals, in this order, each with the device; but for the last two it is as it was:
/// - `Schema`: for want of memory;
/// - `Recover`: the image is refused by [`study`](recover::study);
/// - `OtherSchema`: it isn't one of so many workers, with as many lanes or one more;
/// - `Recover`: it wasn't recovered, for want of memory, by a fault, since it is of version 1, or since its control is worn. It is as it
///   was then, but that a sync was made; or after a fault, maybe on recovery's way;
/// - those of [`drive_heap`].
pub fn drive_on<D: Disk + Drop, M: Meet + Sync, R: Threads + Wait + Sync>(
    rt: &R,
    alloc: Global,
    meet: &M,
    disk: D,
    workers: u8,
    rounds: u32,
) -> Result<(Recovered<D>, Driven), (D, DriveError)>
    // The workers went on with the heap that recovery found on the device, and what is told is what recovery gives at
    // the end.
    ensures ok { IfOk result (λ r. HasDrivenOn D.device workers (D.device disk) r.0 r.1) }
    // Workers go on only with an image of as many workers, with a lane for each and at most one more, whose fields are all
    // persistent.
    ensures theirs { IfOk result (λ r. HoldsWorkers workers (D.device disk).now.bytes) }
    // A device that holds no image is refused by the reason of its study; one that holds another image, as another
    // schema's. Either is only read.
    ensures refused { IfErr result (λ back. RefusesOn D.device workers (D.device disk) (D.device back.0) back.1) }
{
    let schema = match declare(alloc, workers) {
        Ok(schema) => schema,
        Err(refusal) => return Err((disk, DriveError::Schema(refusal))),
    };
    match find_heap(alloc, disk, &schema, workers) {
        Ok((found, report)) => {
            drop(report);
            drive_made(rt, alloc, meet, schema, found, workers, rounds)
        }
        Err((disk, refusal)) => {
            drop(schema);
            Err((disk, said(refusal)))
        }
    }
}

// Lets workers work on an image of theirs.
fn drive_made<D: Disk + Drop, M: Meet + Sync, R: Threads + Wait + Sync>(
    rt: &R,
    alloc: Global,
    meet: &M,
    schema: Schema,
    made: Recovered<D>,
    workers: u8,
    rounds: u32,
) -> Result<(Recovered<D>, Driven), (D, DriveError)>
    requires schema { schema ≡ schema_of workers }
    requires theirs { IsOfWorkers workers made.layout made.guards }
    ensures ok { IfOk result (λ r. IsDriven D.device (schema_of workers) workers made r.0 r.1) }
    ensures cause { IfErr result (λ back. StopsRun D.device (schema_of workers) workers made (D.device back.0) back.1) }
    ensures own { IfErr result (λ back. IsOwnStop back.1) }
{
    drive_heap(rt, alloc, meet, schema, made, workers, rounds)
}
