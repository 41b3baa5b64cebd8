//! The sections of an image as a graph, by the names of a schema file.
ghost use Rattle.std.specs.Prelude.{◌↔◌, IsTrue};
ghost use Rattle.image_schema.specs.Drawing.{Drawn, DrawnStudy, FitsGiven};
ghost use Rattle.image_schema.specs.OfImage.{IsStudied};

use crate::error::DumpError;
use crate::fitting::fits;
use block_disk::Disk;
use guards::Schema;
use inspect::{ShowError, write_graph};
use recover::{RecoverError, Study, study, study_law};
use std::alloc::Global;
use std::io::Write;

/// Writes the live sections of the image on the device, of which nothing has to be known, and their dependences: the graph of
/// [`write_graph`], of each lane the last so many sections. Objects have the names of the schema that is given, which has to be the
/// image's, or else numbers. The device is left as it was.
///
/// Refusals, in this order:
/// - `Study`: the image is refused, or there was no memory. Nothing is written;
/// - `OtherSchema`: the schema that is given isn't the image's. Nothing is written;
/// - `Study` by `NoMemory`: there was no memory for what is drawn. Nothing is written;
/// - `Write`: a beginning of the graph is written.
pub fn draw_named<D: Disk, W: Write>(
    alloc: Global,
    disk: &mut D,
    given: Option<Schema>,
    last: u32,
    writer: &mut W,
) -> Result<(), DumpError>
    // What is drawn of an image is the graph of a study of exactly these bytes, by the names of the image's own schema. Where
    // the image is refused, or the schema is another image's, nothing is written.
    ensures { Drawn given last D.device disk.old disk.new W.contents writer.old writer.new result }
{
    match study(alloc, disk) {
        Ok(study) => {
            let drawn = draw_study(alloc, &study, given, last, writer);
            drop(study);
            drawn
        }
        Err(error) => {
            drop(given);
            Err(DumpError::Study(error))
        }
    }
}

// Draws an image that was studied.
fn draw_study<W: Write>(
    alloc: Global,
    study: &Study,
    given: Option<Schema>,
    last: u32,
    writer: &mut W,
) -> Result<(), DumpError>
    requires { IsStudied study.now }
    ensures { DrawnStudy given last study.now W.contents writer.old writer.new result }
{
    if !fits_given(&given, study) {
        drop(given);
        return Err(DumpError::OtherSchema);
    }
    // The study of an image is within the limits that its graph needs.
    study_law();
    let drawn = write_graph(alloc, study, given.as_ref(), last, writer);
    drop(given);
    match drawn {
        Ok(()) => Ok(()),
        Err(ShowError::NoMemory) => Err(DumpError::Study(RecoverError::NoMemory)),
        Err(ShowError::Write) => Err(DumpError::Write),
    }
}

// Whether the schema, if one was given, is the image's.
fn fits_given(given: &Option<Schema>, study: &Study) -> bool
    ensures { IsTrue result ↔ FitsGiven given.now study.now }
{
    match given {
        Some(schema) => fits(schema, study),
        None => true,
    }
}
