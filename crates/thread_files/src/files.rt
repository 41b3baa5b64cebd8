//! Threads on the image at a path.
ghost use Rattle.std.specs.Prelude.{false, IfErr, IfOk, None};
ghost use Rattle.thread_files.specs.Files.{BeginsAt, HasNoDisk, HasNoImage, HasRunAt, IsMadeAt, LeavesAt, RefusesAt};
ghost use Rattle.image_file.specs.Beside.{KeepsBeside, LeavesBeside};
ghost use Rattle.image_file.specs.declared.devices.Beginning.{Beginning};
ghost use Rattle.image_file.specs.declared.watched.Watched.{Watched as Seen};
ghost use Rattle.disk_sector_file.specs.ImageDisks.{device_on};

use crate::error::FileRunError;
use crate::plan::FilePlan;
use block_disk::Disk;
use disk_file::BackingFile;
use disk_sector_file::ImageKind;
use guards::Schema;
use image::Recovered;
use image_file::{FileImages, Images, NewImage, Trouble, make_image};
use recover::Report;
use std::alloc::Global;
use std::fs::OpenFile;
use std::io::Read;
use std::rt::Files;
use std::sync::Wait;
use std::thread::Threads;
use thread_work::{Outcome, Ran, Work, lanes_for, run_on};

/// Lets threads do this work on the image file at this path, which has to be of this schema, with as many lanes as there are threads, or
/// one more. Where there is no file, or one of no bytes, a whole image takes its place first, with a lane for each thread and one for the
/// helper ([`lanes_for`]). No other process has it until they have ended. It tells what they leave, and what recovery kept and dropped
/// before they began.
///
/// It refuses as [`run_at`] does.
pub fn run_file<F, W, R>(
    rt: &R,
    alloc: Global,
    path: &str,
    schema: Schema,
    plan: FilePlan,
    work: &W,
) -> Result<(Outcome, Report), FileRunError>
where
    F: BackingFile + OpenFile + Read + Drop,
    W: Work + Sync,
    R: Files<File = F> + Threads + Wait + Sync,
    // Threads on an image file go on with the heap that recovery gives of its bytes, or with one that was made for them.
    ensures ok { IfOk result (HasRunAt (W.does work.now) (device_on {F = Seen (Beginning F)}) schema plan None None) }
    // Threads on an image file are refused only as on the device that it is, or for want of the file.
    ensures refused { IfErr result (RefusesAt (W.does work.now) (device_on {F = Seen (Beginning F)}) schema plan None None) }
{
    let trouble = Trouble::none();
    let mut images = FileImages::new(rt, &trouble);
    let ran = run_at(rt, &mut images, alloc, path, schema, plan, work);
    drop(images);
    ran
}

/// Lets threads do this work on the image at this path, which has to be of this schema, with as many lanes as there are threads, or one
/// more. Where there is none, or one of no bytes, a whole image takes its place first, with a lane for each thread and one for the helper
/// ([`lanes_for`]). Nobody else has it until they have ended. It tells what they leave, and what recovery kept and dropped before they
/// began.
///
/// Refusals, in this order:
/// - `File`: the file can't be opened for reading and writing (`Fault`), another process has it (`InUse`), or it has bytes and doesn't
///   begin as an image (`NotImage`), of which no more than a header is read;
/// - `Format`: no image is made where there is none;
/// - `Run`: as [`run_on`] refuses. Where it is `OtherSchema`, or the image is refused, the image is as it was.
pub fn run_at<D, P, W, R>(
    rt: &R,
    images: &mut P,
    alloc: Global,
    path: &str,
    schema: Schema,
    plan: FilePlan,
    work: &W,
) -> Result<(Outcome, Report), FileRunError>
where
    D: Disk + Drop,
    P: Images<Medium = D>,
    W: Work + Sync,
    R: Threads + Wait + Sync,
    // Threads begin with the image at that path, or with one that was made for them where there was none. What they
    // leave is there afterwards.
    ensures ok { IfOk result (HasRunAt (W.does work.now) D.device schema plan (P.holds images.old path.now) (P.holds images.new path.now)) }
    // A refusal of threads tells what is at the path.
    ensures refused { IfErr result (RefusesAt (W.does work.now) D.device schema plan (P.holds images.old path.now) (P.holds images.new path.now)) }
    // Nothing beside the path is lost.
    ensures beside { KeepsBeside false path.now (P.holds images.old) (P.holds images.new) }
{
    let disk = match disk_at(images, alloc, path, &schema, plan) {
        Ok(disk) => disk,
        Err(fault) => {
            drop(schema);
            return Err(fault);
        }
    };
    match run_on(rt, alloc, disk, schema, plan.threads, work) {
        Ok((ran, report)) => {
            let Ran { recovered, outcome } = ran;
            give_back(images, path, recovered);
            Ok((outcome, report))
        }
        Err((disk, refusal)) => {
            images.close(path, disk);
            Err(FileRunError::Run(refusal))
        }
    }
}

// Gives back the disk of an image on which nothing is pending.
fn give_back<D, P>(images: &mut P, path: &str, left: Recovered<D>)
where
    D: Disk + Drop,
    P: Images<Medium = D>,
    ensures left { LeavesAt D.device left (P.holds images.new path.now) }
    ensures beside { LeavesBeside path.now (P.holds images.old) (P.holds images.new) (P.lies images.old)
        (P.lies images.new) }
{
    images.close(path, left.into_disk());
}

// The disk of the image at this path; it is made where there is none.
fn disk_at<D, P>(
    images: &mut P,
    alloc: Global,
    path: &str,
    schema: &Schema,
    plan: FilePlan,
) -> Result<D, FileRunError>
where
    D: Disk + Drop,
    P: Images<Medium = D>,
    ensures ok { IfOk result (BeginsAt D.device schema.now plan (P.holds images.old path.now)) }
    ensures refused { IfErr result (HasNoDisk schema.now plan (P.holds images.old path.now) (P.holds images.new path.now)) }
    ensures beside { KeepsBeside false path.now (P.holds images.old) (P.holds images.new) }
{
    let vacant = match images.is_vacant(path) {
        Ok(vacant) => vacant,
        Err(fault) => return Err(FileRunError::File(fault)),
    };
    if vacant {
        return made_at(images, alloc, path, schema, plan);
    }
    match images.open(alloc, path) {
        Ok(disk) => Ok(disk),
        Err(fault) => Err(FileRunError::File(fault)),
    }
}

// The disk of an image for these threads, which takes its place at this path whole.
fn made_at<D, P>(
    images: &mut P,
    alloc: Global,
    path: &str,
    schema: &Schema,
    plan: FilePlan,
) -> Result<D, FileRunError>
where
    D: Disk + Drop,
    P: Images<Medium = D>,
    ensures ok { IfOk result (λ disk. IsMadeAt schema.now plan (D.device disk)) }
    ensures refused { IfErr result (HasNoImage schema.now plan (P.holds images.old path.now) (P.holds images.new path.now)) }
    ensures beside { KeepsBeside false path.now (P.holds images.old) (P.holds images.new) }
{
    let new = NewImage {
        lanes: lanes_for(plan.threads),
        capacity: plan.lane_records,
        kind: ImageKind::Plain,
        is_kept: false,
    };
    match make_image(images, alloc, path, schema, new) {
        Ok((disk, _)) => Ok(disk),
        Err(error) => Err(FileRunError::Format(error)),
    }
}
