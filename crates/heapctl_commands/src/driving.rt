//! The program's word `drive`, in memory or over an image file.
ghost use Rattle.std.specs.Prelude.{◌≡◌, IfErr, IfOk, OnErr, OnOk};
ghost use Rattle.std.specs.Io.KnownBytes.{Appends};
ghost use Rattle.heapctl_commands.specs.Beside.{DrivesBeside};
ghost use Rattle.heapctl_commands.specs.DrivenText.{driven_text};
ghost use Rattle.heapctl_commands.specs.Faults.{RefusedAt};
ghost use Rattle.heapctl_commands.specs.Driving.{DrivesWith};
ghost use Rattle.heapctl_commands.specs.Telling.{WorkedAt};
ghost use Rattle.heapctl_commands.specs.declared.fault.WorkFault.TheVariants.{Write};
ghost use Rattle.inspect.specs.Written.{AppendsPart};

use crate::driving_files::drive_at;
use crate::fault::WorkFault;
use crate::progress::Watch;
use crate::telling::write_driven;
use block_disk::Disk;
use image_file::Images;
use std::alloc::Global;
use std::io::Write;
use std::sync::Wait;
use std::thread::Threads;
use thread_drive::{Driven, drive_with};

/// Lets so many workers work so many rounds each, or as long as `meet` lets them, on the image file at this path. Where none is named they
/// work in memory. When all have ended, `meet` is told so, and then it is written what they have done: how many sections of each lane are
/// acknowledged, and the values of the heap.
///
/// Refusals, in this order. Nothing is written, but for the last:
/// - `File`: the image file can't be had or read; `Format`: where there is none, or an empty one, none is made;
/// - `Drive`: the workers haven't done it, for the reasons of [`drive_with`], [`drive_new`](thread_drive::drive_new) and
///   [`drive_on`](thread_drive::drive_on);
/// - `Write`: the writer failed. A beginning of the lines is written.
pub fn drive<D, P, R, M, W>(
    rt: &R,
    images: &mut P,
    meet: &M,
    workers: u8,
    rounds: u32,
    image: Option<&str>,
    writer: &mut W,
) -> Result<(), WorkFault>
where
    D: Disk + Drop,
    P: Images<Medium = D>,
    R: AllocGlobal + Threads + Wait + Sync,
    M: Watch + Sync,
    W: Write,
    // What the word `drive` writes is exactly the two lines of what workers have done, which is what recovery found of
    // the closed device, by one legal history. Where they haven't done it, nothing is written.
    ensures ends { DrivesWith D.device image.entry workers (P.holds images.old) (P.holds images.new)
        result (W.contents writer.old) (W.contents writer.new) }
    // Nothing beside the path is lost.
    ensures beside { DrivesBeside image.entry (P.holds images.old) (P.holds images.new) }
{
    match drive_there(rt, images, rt.alloc(), meet, workers, rounds, image) {
        Ok(driven) => {
            let told = tell(&driven, writer);
            drop(driven);
            told
        }
        Err(fault) => Err(fault),
    }
}

// Lets workers work, and tells whoever watches them that they have ended.
fn drive_there<D, P, R, M>(
    rt: &R,
    images: &mut P,
    alloc: Global,
    meet: &M,
    workers: u8,
    rounds: u32,
    image: Option<&str>,
) -> Result<Driven, WorkFault>
where
    D: Disk + Drop,
    P: Images<Medium = D>,
    R: Threads + Wait + Sync,
    M: Watch + Sync,
    ensures ok { IfOk result
        (WorkedAt D.device image.entry workers (P.holds images.old) (P.holds images.new)) }
    ensures refused { IfErr result
        (RefusedAt D.device image.entry workers (P.holds images.old) (P.holds images.new)) }
    ensures beside { DrivesBeside image.entry (P.holds images.old) (P.holds images.new) }
{
    let driven = work_there(rt, images, alloc, meet, workers, rounds, image);
    meet.end();
    driven
}

// Lets workers work on an image file, or in memory.
fn work_there<D, P, R, M>(
    rt: &R,
    images: &mut P,
    alloc: Global,
    meet: &M,
    workers: u8,
    rounds: u32,
    image: Option<&str>,
) -> Result<Driven, WorkFault>
where
    D: Disk + Drop,
    P: Images<Medium = D>,
    R: Threads + Wait + Sync,
    M: Watch + Sync,
    ensures ok { IfOk result
        (WorkedAt D.device image.entry workers (P.holds images.old) (P.holds images.new)) }
    ensures refused { IfErr result
        (RefusedAt D.device image.entry workers (P.holds images.old) (P.holds images.new)) }
    ensures beside { DrivesBeside image.entry (P.holds images.old) (P.holds images.new) }
{
    if let Some(path) = image {
        return drive_at(rt, images, alloc, meet, path, workers, rounds);
    }
    match drive_with(rt, alloc, meet, workers, rounds) {
        Ok(driven) => Ok(driven),
        Err(refusal) => Err(WorkFault::Drive(refusal)),
    }
}

// Tells what they have done.
fn tell<W: Write>(driven: &Driven, writer: &mut W) -> Result<(), WorkFault>
    ensures ok { OnOk result
        (Appends (W.contents writer.old) (W.contents writer.new) (driven_text driven.now)) }
    ensures write { IfErr result (λ fault. fault ≡ Write) }
    ensures part { OnErr result
        (AppendsPart (W.contents writer.old) (W.contents writer.new) (driven_text driven.now)) }
{
    match write_driven(driven, writer) {
        Ok(()) => Ok(()),
        Err(_) => Err(WorkFault::Write),
    }
}
