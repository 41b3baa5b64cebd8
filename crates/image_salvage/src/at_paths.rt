//! What is left of the image at a path, which is only looked at.
ghost use Rattle.std.specs.Prelude.{◌≡◌, IfErr, OnOk};
ghost use Rattle.image_file.specs.Beside.{LeavesBesideIt};
ghost use Rattle.image_file.specs.Naming.{told_of_naming};
ghost use Rattle.image_salvage.specs.AtPaths.{DumpsThere, EndsBy, RefusesThere};
ghost use Rattle.image_salvage.specs.Cells.{DumpsCells, RefusesCells};
ghost use Rattle.image_salvage.specs.Slots.{DumpsSlot, RefusesSlot};

use crate::dumping_cells::dump_cells;
use crate::dumping_slot::dump_slot;
use block_disk::Disk;
use guards::Schema;
use image::Slot;
use image_file::{ImageFault, Images, NamedFault, Trouble, look_at, schema_at};
use image_schema::DumpError;
use recover::RecoverError;
use std::alloc::Global;
use std::io::{Read, Write};
use std::rt::Files;

/// Writes what the home cells of the image at a path hold, as [`dump_cells`] does: what the program's word `dump` does with `--cells`.
/// Names are those of the schema file, where one is named, or else numbers. The image is only looked at.
///
/// Refusals, in this order:
/// - `Schema`: the schema file is refused; `Fault` and `NoMemory` where it could not be read, which is noted as trouble. Nothing is
///   written;
/// - as [`show_at`](image_file::show_at) says where the image can't be had. Nothing is written;
/// - those of [`dump_cells`]: `OtherSchema` where the schema isn't the image's. Nothing is written;
/// - `Fault`: the writer failed. A beginning of the text is written.
pub fn dump_cells_at<D, P, F, R, W>(
    rt: &R,
    images: &mut P,
    alloc: Global,
    trouble: &Trouble,
    path: &str,
    schema_path: Option<&str>,
    writer: &mut W,
) -> Result<(), NamedFault>
where
    D: Disk + Drop,
    P: Images<Medium = D>,
    F: Read + Drop,
    R: Files<File = F>,
    W: Write,
    // What is dumped are the home cells of the image at the path, by the names of a schema that is the image's where a file
    // of one is named, and the image stays. It is refused for what is wrong with that image, or with that file.
    ensures ends { EndsBy DumpsCells RefusesCells schema_path.entry result (P.holds images.old path.now)
        (P.holds images.new path.now) (W.contents writer.old) (W.contents writer.new) }
    // Nothing beside the path is lost, where home cells are dumped.
    ensures beside { LeavesBesideIt path.now P.holds P.lies images.old images.new }
{
    let given = match schema_at(rt, alloc, trouble, schema_path) {
        Ok(given) => given,
        Err(fault) => return Err(fault),
    };
    match dump_cells_there(images, alloc, path, given, writer) {
        Ok(()) => Ok(()),
        Err(fault) => Err(fault),
    }
}

// Writes the home cells of the image at the path by the names of the schema that is given.
fn dump_cells_there<D: Disk + Drop, P: Images<Medium = D>, W: Write>(
    images: &mut P,
    alloc: Global,
    path: &str,
    given: Option<Schema>,
    writer: &mut W,
) -> Result<(), NamedFault>
    ensures ok { OnOk result
        (DumpsThere DumpsCells given (P.holds images.old path.now) (W.contents writer.old) (W.contents writer.new)) }
    ensures refused { IfErr result
        (RefusesThere RefusesCells given (P.holds images.old path.now) (W.contents writer.old)
        (W.contents writer.new)) }
    ensures same { P.holds images.new path.now ≡ P.holds images.old path.now }
    ensures beside { LeavesBesideIt path.now P.holds P.lies images.old images.new }
{
    let mut disk = match look_at(images, alloc, path) {
        Ok(disk) => disk,
        Err(fault) => {
            drop(given);
            return Err(NamedFault::Image(ImageFault::from(fault)));
        }
    };
    let dumped = dump_cells(alloc, &mut disk, given, writer);
    drop(disk);
    match dumped {
        Ok(()) => Ok(()),
        Err(error) => Err(fault_of(error)),
    }
}

/// Writes the heap of the image at a path by this slot of its control, as [`dump_slot`] does: what the program's word `dump` does with
/// `--slot`. Names are those of the schema file, where one is named, or else numbers. The image is only looked at.
///
/// Refusals are those of [`dump_cells_at`], with [`dump_slot`]'s in place of [`dump_cells`]'s.
pub fn dump_slot_at<D, P, F, R, W>(
    rt: &R,
    images: &mut P,
    alloc: Global,
    trouble: &Trouble,
    path: &str,
    slot: Slot,
    schema_path: Option<&str>,
    writer: &mut W,
) -> Result<(), NamedFault>
where
    D: Disk + Drop,
    P: Images<Medium = D>,
    F: Read + Drop,
    R: Files<File = F>,
    W: Write,
    // What is dumped is the heap of the image at the path by this slot of its control, by the names of a schema that is
    // the image's where a file of one is named, and the image stays. It is refused for what is wrong with that image by
    // that slot, or with that file.
    ensures ends { EndsBy (DumpsSlot slot) (RefusesSlot slot) schema_path.entry result (P.holds images.old path.now)
        (P.holds images.new path.now) (W.contents writer.old) (W.contents writer.new) }
    // Nothing beside the path is lost, where a heap is dumped by a slot.
    ensures beside { LeavesBesideIt path.now P.holds P.lies images.old images.new }
{
    let given = match schema_at(rt, alloc, trouble, schema_path) {
        Ok(given) => given,
        Err(fault) => return Err(fault),
    };
    match dump_slot_there(images, alloc, path, slot, given, writer) {
        Ok(()) => Ok(()),
        Err(fault) => Err(fault),
    }
}

// Writes the heap of the image at the path by this slot, by the names of the schema that is given.
fn dump_slot_there<D: Disk + Drop, P: Images<Medium = D>, W: Write>(
    images: &mut P,
    alloc: Global,
    path: &str,
    slot: Slot,
    given: Option<Schema>,
    writer: &mut W,
) -> Result<(), NamedFault>
    ensures ok { OnOk result
        (DumpsThere (DumpsSlot slot) given (P.holds images.old path.now) (W.contents writer.old) (W.contents writer.new)) }
    ensures refused { IfErr result
        (RefusesThere (RefusesSlot slot) given (P.holds images.old path.now) (W.contents writer.old)
        (W.contents writer.new)) }
    ensures same { P.holds images.new path.now ≡ P.holds images.old path.now }
    ensures beside { LeavesBesideIt path.now P.holds P.lies images.old images.new }
{
    let image = match images.look(alloc, path) {
        Ok(image) => image,
        Err(fault) => {
            drop(given);
            return Err(NamedFault::Image(ImageFault::from(fault)));
        }
    };
    match dump_slot(alloc, image, slot, given, writer) {
        Ok(()) => Ok(()),
        Err(error) => Err(fault_of(error)),
    }
}

// The image isn't told by the names that were given, or the writer failed.
fn fault_of(error: DumpError) -> NamedFault
    ensures { result ≡ told_of_naming error }
{
    match error {
        DumpError::Study(error) => NamedFault::Image(ImageFault::Image(error)),
        DumpError::OtherSchema => NamedFault::OtherSchema,
        DumpError::Write => NamedFault::Image(ImageFault::Image(RecoverError::Fault)),
    }
}
