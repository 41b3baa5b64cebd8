//! The schema file that an image's home cells make.
ghost use Rattle.image_salvage.specs.Cells.{AreOfImage, DumpedCells, DumpedRead};

use crate::cells::read_cells;
use crate::home_cells::Cells;
use crate::naming::schema_for;
use crate::notes::cells_note;
use crate::writing::write_noted;
use block_disk::Disk;
use guards::Schema;
use image_schema::{DumpError, NamingError};
use recover::RecoverError;
use std::alloc::Global;
use std::io::Write;

/// Writes what the home cells of the image on the device hold, of which nothing has to be known, as a schema file after a comment: each
/// persistent field begins with the value in its cell, and each transient one with its own first value. Neither the control nor any log
/// is read, so these needn't be the values of one moment. The names are those of the schema that is given, which has to be the image's, or
/// else numbers. The device is left as it was.
///
/// Refusals, in this order:
/// - `Study`, by `NotFormatted`, `BadHeader`, `TooSmall`, or `BadHeader` for a guard row, as [`recover::study`] says; by `NoMemory`, and by
///   `Fault` where a read fails. Nothing is written;
/// - `OtherSchema`: the schema that is given isn't the image's. Nothing is written;
/// - `Study` by `NoMemory`: there was no memory for the names. Nothing is written;
/// - `Write`: a beginning of the text is written.
pub fn dump_cells<D: Disk, W: Write>(
    alloc: Global,
    disk: &mut D,
    given: Option<Schema>,
    writer: &mut W,
) -> Result<(), DumpError>
    // The home cells of an image are dumped as the file of the image's own schema, each field with the value that the
    // format says of its cell, after a comment. They are refused for what is wrong with header or guard rows, or with the
    // schema; then nothing is written.
    ensures { DumpedCells given D.device disk.old disk.new W.contents writer.old writer.new result }
{
    match read_cells(alloc, disk) {
        Ok(cells) => {
            let dumped = write_cells(alloc, &cells, given, writer);
            drop(cells);
            dumped
        }
        Err(error) => {
            drop(given);
            Err(DumpError::Study(error))
        }
    }
}

// Writes the schema file of the cells that were read.
fn write_cells<W: Write>(
    alloc: Global,
    cells: &Cells,
    given: Option<Schema>,
    writer: &mut W,
) -> Result<(), DumpError>
    requires { AreOfImage cells.now }
    ensures { DumpedRead given cells.now W.contents writer.old writer.new result }
{
    let schema = match schema_for(alloc, &cells.layout, &cells.guards, given) {
        Ok(schema) => schema,
        Err(NamingError::OtherSchema) => return Err(DumpError::OtherSchema),
        Err(NamingError::NoMemory) => return Err(DumpError::Study(RecoverError::NoMemory)),
    };
    let written = write_noted(cells_note(), &schema, &cells.values, writer);
    drop(schema);
    match written {
        Ok(()) => Ok(()),
        Err(_) => Err(DumpError::Write),
    }
}
