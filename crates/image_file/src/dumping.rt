//! Writing the heap of an image as a schema file.
ghost use Rattle.std.specs.Prelude.{◌≡◌, IfErr, OnOk};
ghost use Rattle.image_file.specs.Beside.{LeavesBesideIt};
ghost use Rattle.image_file.specs.Dumping.{DumpsBy, DumpsThere, RefusesToDump};

use crate::error::{ImageFault, NamedFault};
use crate::images::{Images, look_at};
use crate::names::schema_at;
use crate::refusal::fault_of_naming;
use crate::trouble::Trouble;
use block_disk::Disk;
use guards::Schema;
use image_schema::dump;
use std::alloc::Global;
use std::io::{Read, Write};
use std::rt::Files;

/// Writes the schema file of the image at a path, of which nothing has to be known: what the program's word `dump` does. Its fields begin
/// with the heap that recovery gives. Objects and fields have the names of the schema file, where one is named, or else numbers. The image
/// is only looked at.
///
/// Refusals, in this order:
/// - `Schema`: the schema file is refused; `Fault` and `NoMemory` where it could not be read, which is noted as trouble. Nothing is
///   written;
/// - as [`show_at`](crate::show_at) says where the image can't be had. Nothing is written;
/// - those of [`dump`]: `OtherSchema` where the schema isn't the image's. Nothing is written;
/// - `Fault`: the writer failed. A beginning of the file is written.
pub fn dump_at<D, P, F, R, W>(
    rt: &R,
    images: &mut P,
    alloc: Global,
    trouble: &Trouble,
    path: &str,
    schema_path: Option<&str>,
    writer: &mut W,
) -> Result<(), NamedFault>
where
    D: Disk + Drop,
    P: Images<Medium = D>,
    F: Read + Drop,
    R: Files<File = F>,
    W: Write,
    // What is dumped is the schema file of a study of the image at the path, by the names of a schema that is the image's
    // where a file of one is named, and the image stays. It is refused for what is wrong with that image, or with that
    // file.
    ensures ends { DumpsBy schema_path.entry result (P.holds images.old path.now)
        (P.holds images.new path.now) (W.contents writer.old) (W.contents writer.new) }
    // Nothing beside the path is lost.
    ensures beside { LeavesBesideIt path.now P.holds P.lies images.old images.new }
{
    let given = match schema_at(rt, alloc, trouble, schema_path) {
        Ok(given) => given,
        Err(fault) => return Err(fault),
    };
    match dump_there(images, alloc, path, given, writer) {
        Ok(()) => Ok(()),
        Err(fault) => Err(fault),
    }
}

// Writes the schema file of the image at the path by the names of the schema that is given.
fn dump_there<D: Disk + Drop, P: Images<Medium = D>, W: Write>(
    images: &mut P,
    alloc: Global,
    path: &str,
    given: Option<Schema>,
    writer: &mut W,
) -> Result<(), NamedFault>
    ensures ok { OnOk result
        (DumpsThere given (P.holds images.old path.now) (W.contents writer.old) (W.contents writer.new)) }
    ensures refused { IfErr result
        (RefusesToDump given (P.holds images.old path.now) (W.contents writer.old)
        (W.contents writer.new)) }
    ensures same { P.holds images.new path.now ≡ P.holds images.old path.now }
    ensures beside { LeavesBesideIt path.now P.holds P.lies images.old images.new }
{
    let mut disk = match look_at(images, alloc, path) {
        Ok(disk) => disk,
        Err(fault) => {
            drop(given);
            return Err(NamedFault::Image(ImageFault::from(fault)));
        }
    };
    let dumped = dump(alloc, &mut disk, given, writer);
    drop(disk);
    match dumped {
        Ok(()) => Ok(()),
        Err(error) => Err(fault_of_naming(error)),
    }
}
