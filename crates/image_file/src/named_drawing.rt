//! Drawing the sections of an image by the names of a schema file.
ghost use Rattle.std.specs.Prelude.{◌≡◌, IfErr, OnOk};
ghost use Rattle.image_file.specs.Beside.{LeavesBesideIt};
ghost use Rattle.image_file.specs.Drawing.{DrawsBy, DrawsThere, RefusesToDraw};

use crate::error::{ImageFault, NamedFault};
use crate::images::{Images, look_at};
use crate::names::schema_at;
use crate::refusal::fault_of_naming;
use crate::trouble::Trouble;
use block_disk::Disk;
use guards::Schema;
use image_schema::draw_named;
use std::alloc::Global;
use std::io::{Read, Write};
use std::rt::Files;

/// Writes the live sections of the image at a path, of which nothing has to be known, and their dependences, as a graph in Graphviz's
/// DOT language: what the program's word `show` does with `--dot`. It draws of each lane the last so many sections. Objects have the names
/// of the schema file, where one is named, or else numbers. The image is only looked at.
///
/// Refusals, in this order:
/// - `Schema`: the schema file is refused; `Fault` and `NoMemory` where it could not be read, which is noted as trouble. Nothing is
///   written;
/// - as [`show_at`](crate::show_at) says where the image can't be had. Nothing is written;
/// - those of [`draw_named`]: `OtherSchema` where the schema isn't the image's. Nothing is written;
/// - `Fault`: the writer failed. A beginning of the graph is written.
pub fn draw_named_at<D, P, F, R, W>(
    rt: &R,
    images: &mut P,
    alloc: Global,
    trouble: &Trouble,
    path: &str,
    schema_path: Option<&str>,
    last: u32,
    writer: &mut W,
) -> Result<(), NamedFault>
where
    D: Disk + Drop,
    P: Images<Medium = D>,
    F: Read + Drop,
    R: Files<File = F>,
    W: Write,
    // What is drawn is the graph of a study of the image at the path, by the names of a schema that is the image's where a
    // file of one is named, and the image stays. It is refused for what is wrong with that image, or with that file.
    ensures ends { DrawsBy schema_path.entry last result (P.holds images.old path.now)
        (P.holds images.new path.now) (W.contents writer.old) (W.contents writer.new) }
    // Nothing beside the path is lost.
    ensures beside { LeavesBesideIt path.now P.holds P.lies images.old images.new }
{
    let given = match schema_at(rt, alloc, trouble, schema_path) {
        Ok(given) => given,
        Err(fault) => return Err(fault),
    };
    match draw_there(images, alloc, path, given, last, writer) {
        Ok(()) => Ok(()),
        Err(fault) => Err(fault),
    }
}

// Draws the image at the path by the names of the schema that is given.
fn draw_there<D: Disk + Drop, P: Images<Medium = D>, W: Write>(
    images: &mut P,
    alloc: Global,
    path: &str,
    given: Option<Schema>,
    last: u32,
    writer: &mut W,
) -> Result<(), NamedFault>
    ensures ok { OnOk result
        (DrawsThere given last (P.holds images.old path.now) (W.contents writer.old) (W.contents writer.new)) }
    ensures refused { IfErr result
        (RefusesToDraw given last (P.holds images.old path.now) (W.contents writer.old)
        (W.contents writer.new)) }
    ensures same { P.holds images.new path.now ≡ P.holds images.old path.now }
    ensures beside { LeavesBesideIt path.now P.holds P.lies images.old images.new }
{
    let mut disk = match look_at(images, alloc, path) {
        Ok(disk) => disk,
        Err(fault) => {
            drop(given);
            return Err(NamedFault::Image(ImageFault::from(fault)));
        }
    };
    let drawn = draw_named(alloc, &mut disk, given, last, writer);
    drop(disk);
    match drawn {
        Ok(()) => Ok(()),
        Err(error) => Err(fault_of_naming(error)),
    }
}
