//! Running a script over an image at a path.
ghost use Rattle.std.specs.Prelude.{◌≡◌, ◌⊎◌, length, IfErr, IfOk, OnErr, OnOk};
ghost use Rattle.block_disk.specs.Device.{synced, written};
ghost use Rattle.script_lines.specs.Lines.{lines_of};
ghost use Rattle.image_file.specs.Beside.{LiesOn, LeavesBesideIt, StaysBesideIt};
ghost use Rattle.image_file.specs.Images.{IsThere};
ghost use Rattle.image_file.specs.Showing.{told_of_attaching};
ghost use Rattle.image_file.specs.declared.error.NamedFault.TheVariants.{Image};
ghost use Rattle.script_images.specs.Running.{PlaysHeld, RefusesHeld, RunsAt, RunsHeld};
ghost use Rattle.script_images.specs.declared.error.RunFault.TheVariants.{Named};

use crate::error::RunFault;
use crate::playing::{Played, play_over};
use block_disk::Disk;
use disk_sector_file::ImageKind;
use guards::Schema;
use image_file::{FileFault, ImageFault, Images, NamedFault, Trouble, schema_at};
use script_lines::{Ending, read_lines};
use script_play::put;
use std::alloc::Global;
use std::io::{Read, Write};
use std::rt::Files;

/// Runs lines that were read over the image at this path, as [`play_over`] says, puts in its place what they leave of it, and only then
/// writes what they print.
///
/// Refusals, in this order. Nothing is written, but for the last:
/// - `Named`: the image isn't had, or as of [`play_over`]; the image is as it was;
/// - `Script` and `Refused`: as of [`play_over`]; the image is as it was;
/// - `Named`: the image isn't replaced. It is as it was, or, by `Fault`, it may be that the new one is there and isn't known to be
///   durable;
/// - `Write`: the image is replaced, and the writer failed. A beginning of the text is written.
pub fn run_image<D: Disk + Drop, P: Images<Medium = D>, W: Write>(
    images: &mut P,
    alloc: Global,
    path: &str,
    given: Option<Schema>,
    script: &[u8],
    ending: Ending,
    is_strict: bool,
    writer: &mut W,
) -> Result<(), RunFault>
    // Something is printed only where the other image has taken its place. Where nothing takes its place it has each
    // byte that it had. A writer that fails leaves a beginning of the text, and the image replaced.
    ensures ends { RunsHeld given (lines_of script.now) ending is_strict result (P.holds images.old path.now)
        (P.holds images.new path.now) (W.contents writer.old) (W.contents writer.new) }
    // Nothing beside the path is lost: what is kept there remains, and the image lies as it did.
    ensures beside { StaysBesideIt path.now P.holds P.lies images.old images.new }
{
    match place_for(images, alloc, path) {
        Ok((disk, kind)) => {
            run_on(
                images, alloc, path, disk, kind, given, script, ending, is_strict, writer,
            )
        }
        Err(why) => {
            drop(given);
            Err(of_file(why))
        }
    }
}

/// The disk on which the new image is made, as large as the one that is there, and how both lie.
pub(crate) fn place_for<D: Disk + Drop, P: Images<Medium = D>>(
    images: &mut P,
    alloc: Global,
    path: &str,
) -> Result<(D, ImageKind), FileFault>
    // The new image is to lie as the one that is there.
    ensures lies { IfOk result (λ r. LiesOn r.1 (P.lies images.new path.now)) }
    ensures same { P.holds images.new path.now ≡ P.holds images.old path.now }
    ensures beside { LeavesBesideIt path.now P.holds P.lies images.old images.new }
{
    let (size, kind) = match images.shape(path) {
        Ok(shape) => shape,
        Err(fault) => return Err(fault),
    };
    match images.make(alloc, path, kind, size) {
        Ok(disk) => Ok((disk, kind)),
        Err(fault) => Err(fault),
    }
}

// Runs them, and makes the new image on this disk.
fn run_on<D: Disk + Drop, P: Images<Medium = D>, W: Write>(
    images: &mut P,
    alloc: Global,
    path: &str,
    disk: D,
    kind: ImageKind,
    given: Option<Schema>,
    script: &[u8],
    ending: Ending,
    is_strict: bool,
    writer: &mut W,
) -> Result<(), RunFault>
    requires { LiesOn kind (P.lies images.old path.now) }
    ensures ends { RunsHeld given (lines_of script.now) ending is_strict result (P.holds images.old path.now)
        (P.holds images.new path.now) (W.contents writer.old) (W.contents writer.new) }
    ensures beside { StaysBesideIt path.now P.holds P.lies images.old images.new }
{
    let played = match play_held(images, alloc, path, given, script, ending, is_strict) {
        Ok(played) => played,
        Err(fault) => {
            drop(disk);
            return Err(fault);
        }
    };
    if let Err(why) = put_image(images, path, disk, kind, &played.image) {
        return Err(of_file(why));
    }
    match put(writer, &played.text) {
        Ok(()) => Ok(()),
        Err(_) => Err(RunFault::Write),
    }
}

// Plays lines over the image at the path, which is only read.
fn play_held<D: Disk + Drop, P: Images<Medium = D>>(
    images: &mut P,
    alloc: Global,
    path: &str,
    given: Option<Schema>,
    script: &[u8],
    ending: Ending,
    is_strict: bool,
) -> Result<Played, RunFault>
    ensures ok { IfOk result
        (λ played. PlaysHeld given (lines_of script.now) ending is_strict (P.holds images.old path.now)
        played.image.items played.text.items) }
    ensures refused { IfErr result
        (RefusesHeld given (lines_of script.now) ending is_strict (P.holds images.old path.now)) }
    ensures same { P.holds images.new path.now ≡ P.holds images.old path.now }
    ensures beside { LeavesBesideIt path.now P.holds P.lies images.old images.new }
{
    match images.read(alloc, path) {
        Ok(image) => {
            let played = play_over(alloc, &image, given, script, ending, is_strict);
            drop(image);
            played
        }
        Err(why) => {
            drop(given);
            Err(of_file(why))
        }
    }
}

/// Puts this image, made on this disk, in the place of what is at the path.
pub(crate) fn put_image<D: Disk + Drop, P: Images<Medium = D>>(
    images: &mut P,
    path: &str,
    disk: D,
    kind: ImageKind,
    image: &[u8],
) -> Result<(), FileFault>
    requires { LiesOn kind (P.lies images.old path.now) }
    ensures ok { OnOk result (IsThere image.now (P.holds images.new path.now)) }
    ensures err { OnErr result
        ((P.holds images.new path.now ≡ P.holds images.old path.now) ⊎ IsThere image.now
        (P.holds images.new path.now)) }
    ensures beside { StaysBesideIt path.now P.holds P.lies images.old images.new }
{
    let mut disk = disk;
    if let Err(fault) = write_over(&mut disk, image) {
        drop(disk);
        return Err(fault);
    }
    let replaced = images.replace(path, kind, &disk, false);
    drop(disk);
    replaced
}

// Writes these bytes over those of the disk, which has as many, durably.
fn write_over<D: Disk>(disk: &mut D, image: &[u8]) -> Result<(), FileFault>
    ensures ok { OnOk result (D.device disk.new ≡ synced (written 0 image.now (D.device disk.old))) }
    ensures all { OnOk result (length image.now ≡ length (D.device disk.old).now.bytes) }
{
    if disk.size() != image.len() as u64 {
        return Err(FileFault::Fault);
    }
    match disk.write_at(0, image) {
        Ok(()) => {}
        Err(_) => return Err(FileFault::Fault),
    }
    match disk.sync() {
        Ok(()) => Ok(()),
        Err(_) => Err(FileFault::Fault),
    }
}

/// How it is told that an image isn't had, or isn't replaced.
pub(crate) fn of_file(why: FileFault) -> RunFault
    ensures { result ≡ Named (Image (told_of_attaching why)) }
{
    RunFault::Named(NamedFault::Image(ImageFault::from(why)))
}

/// Runs the script that `reader` has over the image at this path, by the names of the schema file, where one is named: what the
/// program's word `run` does with `--image`.
///
/// The schema file is read first, and then the script to its end. From then on nobody else has the image, until its new one is in its
/// place. Refusals, in this order:
/// - `Named`: the schema file is refused, or can't be read;
/// - `Named`: the image can't be had: another process has it (`InUse`), it doesn't begin as an image, or a call has failed;
/// - as [`run_image`] says.
///
/// What the system says of a call on the schema file that fails is noted as trouble.
pub fn run_at<D, P, F, R, S, W>(
    rt: &R,
    images: &mut P,
    alloc: Global,
    trouble: &Trouble,
    path: &str,
    schema_path: Option<&str>,
    is_strict: bool,
    reader: &mut S,
    writer: &mut W,
) -> Result<(), RunFault>
where
    D: Disk + Drop,
    P: Images<Medium = D>,
    F: Read + Drop,
    R: Files<File = F>,
    S: Read,
    W: Write,
    // A script over the image at a path puts in that place what its lines leave, and nothing is printed before.
    ensures ends { RunsAt schema_path.entry is_strict result (P.holds images.old path.now)
        (P.holds images.new path.now) (S.remaining reader.old) (S.remaining reader.new)
        (W.contents writer.old) (W.contents writer.new) }
    // Nothing beside the path is lost: what is kept there remains, and the image lies as it did.
    ensures beside { StaysBesideIt path.now P.holds P.lies images.old images.new }
{
    let given = match schema_at(rt, alloc, trouble, schema_path) {
        Ok(given) => given,
        Err(fault) => return Err(RunFault::Named(fault)),
    };
    let (script, ending) = read_lines(alloc, reader);
    let ended = run_image(
        images, alloc, path, given, &script, ending, is_strict, writer,
    );
    let is_done = ended.is_ok();
    tidy(images, path, is_done);
    ended
}

/// Leaves nothing beside the path, unless a new image has taken its place.
pub(crate) fn tidy<D: Disk + Drop, P: Images<Medium = D>>(images: &mut P, path: &str, is_done: bool)
    ensures same { P.holds images.new path.now ≡ P.holds images.old path.now }
    ensures beside { LeavesBesideIt path.now P.holds P.lies images.old images.new }
{
    if !is_done {
        images.give_up(path);
    }
}
