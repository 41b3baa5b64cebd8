//! The program's word `drive` over an image file.
ghost use Rattle.std.specs.Prelude.{false, IfErr, IfOk};
ghost use Rattle.heapctl_commands.specs.Faults.{HasNoDisk, HasNoImage, RefusesAt};
ghost use Rattle.image_file.specs.Beside.{KeepsBeside, LeavesBesideIt};
ghost use Rattle.heapctl_commands.specs.Telling.{BeginsAt, DrivesAt, IsMadeAt, LeavesAt};

use crate::fault::WorkFault;
use block_disk::Disk;
use disk_sector_file::ImageKind;
use image::Recovered;
use image_file::{FormatError, Images, NewImage, make_image};
use std::alloc::Global;
use std::sync::Wait;
use std::thread::Threads;
use thread_drive::{Driven, Meet, declare, drive_on};

// The records of a lane in an image that is made for workers (docs/SCRIPTS.md, "Workers").
const CAPACITY: u32 = 4000;

/// Lets so many workers work so many rounds each on the image at this path, which has to be one of as many workers. Where there is no
/// file, or one of no bytes, a whole image takes its place first. Nobody else has it until they have ended.
///
/// Refusals, in this order:
/// - `File`: the file can't be opened for reading and writing (`Fault`), another process has it (`InUse`), or it has bytes and doesn't
///   begin as an image (`NotImage`), of which no more than a header is read;
/// - `Format`: no image is made where there is none;
/// - `Drive`: as [`drive_on`] refuses. Where it is `OtherSchema`, or the image is refused, the image is as it was.
pub fn drive_at<D, P, R, M>(
    rt: &R,
    images: &mut P,
    alloc: Global,
    meet: &M,
    path: &str,
    workers: u8,
    rounds: u32,
) -> Result<Driven, WorkFault>
where
    D: Disk + Drop,
    P: Images<Medium = D>,
    R: Threads + Wait + Sync,
    M: Meet + Sync,
    // Workers begin with the image at that path, or with one that was made for them where there was none. What they
    // leave is there afterwards.
    ensures ok { IfOk result
        (DrivesAt D.device workers (P.holds images.old path.now) (P.holds images.new path.now)) }
    // A refusal of workers tells what is at the path.
    ensures refused { IfErr result
        (RefusesAt D.device workers (P.holds images.old path.now) (P.holds images.new path.now)) }
    // Nothing beside the path is lost.
    ensures beside { KeepsBeside false path.now (P.holds images.old) (P.holds images.new) }
{
    let disk = match disk_at(images, alloc, path, workers) {
        Ok(disk) => disk,
        Err(fault) => return Err(fault),
    };
    match drive_on(rt, alloc, meet, disk, workers, rounds) {
        Ok((left, driven)) => {
            give_back(images, path, left);
            Ok(driven)
        }
        Err((disk, refusal)) => {
            images.close(path, disk);
            Err(WorkFault::Drive(refusal))
        }
    }
}

// Gives back the disk of an image on which nothing is pending.
fn give_back<D, P>(images: &mut P, path: &str, left: Recovered<D>)
where
    D: Disk + Drop,
    P: Images<Medium = D>,
    ensures left { LeavesAt D.device left (P.holds images.new path.now) }
    ensures beside { LeavesBesideIt path.now P.holds P.lies images.old images.new }
{
    images.close(path, left.into_disk());
}

// The disk of the image at this path; it is made where there is none.
fn disk_at<D, P>(images: &mut P, alloc: Global, path: &str, workers: u8) -> Result<D, WorkFault>
where
    D: Disk + Drop,
    P: Images<Medium = D>,
    ensures ok { IfOk result
        (λ disk. BeginsAt workers (P.holds images.old path.now) (D.device disk)) }
    ensures refused { IfErr result
        (HasNoDisk workers (P.holds images.old path.now) (P.holds images.new path.now)) }
    ensures beside { KeepsBeside false path.now (P.holds images.old) (P.holds images.new) }
{
    let vacant = match images.is_vacant(path) {
        Ok(vacant) => vacant,
        Err(fault) => return Err(WorkFault::File(fault)),
    };
    if vacant {
        return made_at(images, alloc, path, workers);
    }
    match images.open(alloc, path) {
        Ok(disk) => Ok(disk),
        Err(fault) => Err(WorkFault::File(fault)),
    }
}

// The disk of an image for so many workers, which takes its place at this path whole.
fn made_at<D, P>(images: &mut P, alloc: Global, path: &str, workers: u8) -> Result<D, WorkFault>
where
    D: Disk + Drop,
    P: Images<Medium = D>,
    ensures ok { IfOk result (λ disk. IsMadeAt workers (D.device disk)) }
    ensures refused { IfErr result
        (HasNoImage workers (P.holds images.old path.now) (P.holds images.new path.now)) }
    ensures beside { KeepsBeside false path.now (P.holds images.old) (P.holds images.new) }
{
    let Ok(schema) = declare(alloc, workers) else {
        return Err(WorkFault::Format(FormatError::NoMemory));
    };
    let new = NewImage {
        lanes: workers,
        capacity: CAPACITY,
        kind: ImageKind::Plain,
        is_kept: false,
    };
    let made = make_image(images, alloc, path, &schema, new);
    drop(schema);
    match made {
        Ok((disk, _)) => Ok(disk),
        Err(error) => Err(WorkFault::Format(error)),
    }
}
