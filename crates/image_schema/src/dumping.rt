//! The schema file that the heap of an image makes.
ghost use Rattle.image_schema.specs.Dumping.{Dumped, DumpedStudy};
ghost use Rattle.image_schema.specs.OfImage.{IsStudied};

use crate::error::{DumpError, NamingError};
use crate::naming::schema_of;
use crate::writing::write_schema;
use block_disk::Disk;
use guards::Schema;
use recover::{RecoverError, Study, study};
use std::alloc::Global;
use std::io::Write;

/// Writes the schema file of the image on the device, of which nothing has to be known: its fields begin with the heap that
/// recovery gives. The names are those of the schema that is given, which has to be the image's, or else numbers. The device is
/// left as it was.
///
/// Refusals, in this order:
/// - `Study`: the image is refused, or there was no memory. Nothing is written;
/// - `OtherSchema`: the schema that is given isn't the image's. Nothing is written;
/// - `Study` by `NoMemory`: there was no memory for the names. Nothing is written;
/// - `Write`: a beginning of the file is written.
pub fn dump<D: Disk, W: Write>(
    alloc: Global,
    disk: &mut D,
    given: Option<Schema>,
    writer: &mut W,
) -> Result<(), DumpError>
    // What is written of an image is the file of the image's own schema, with the heap that a study of exactly these
    // bytes finds. Where the image is refused, or the schema is another image's, nothing is written.
    ensures { Dumped given D.device disk.old disk.new W.contents writer.old writer.new result }
{
    match study(alloc, disk) {
        Ok(study) => {
            let dumped = dump_study(alloc, &study, given, writer);
            drop(study);
            dumped
        }
        Err(error) => {
            drop(given);
            Err(DumpError::Study(error))
        }
    }
}

// Writes the schema file of an image that was studied.
fn dump_study<W: Write>(
    alloc: Global,
    study: &Study,
    given: Option<Schema>,
    writer: &mut W,
) -> Result<(), DumpError>
    requires { IsStudied study.now }
    ensures { DumpedStudy given study.now W.contents writer.old writer.new result }
{
    let schema = match schema_of(alloc, study, given) {
        Ok(schema) => schema,
        Err(NamingError::OtherSchema) => return Err(DumpError::OtherSchema),
        Err(NamingError::NoMemory) => return Err(DumpError::Study(RecoverError::NoMemory)),
    };
    let written = write_schema(&schema, &study.heap, writer);
    drop(schema);
    match written {
        Ok(()) => Ok(()),
        Err(_) => Err(DumpError::Write),
    }
}
