//! The schema file that the heap of an image makes by one slot of its control.
ghost use Rattle.std.specs.Prelude.{◌≡◌, slice_set};
ghost use Rattle.block_disk.specs.Device.{new_device};
ghost use Rattle.image_parts.specs.Slots.{slot_at};
ghost use Rattle.image_schema.specs.OfImage.{IsStudied};
ghost use Rattle.image_salvage.specs.Slots.{DumpedSlot, DumpedStudied, alone};

use crate::notes::slot_note;
use crate::writing::write_noted;
use disk_file::VolatileDisk;
use guards::Schema;
use image::Slot;
use image_schema::{DumpError, NamingError, schema_of};
use recover::{RecoverError, Study, study};
use std::alloc::Global;
use std::io::Write;

/// Writes the heap that recovery gives of an image with these bytes, of which nothing has to be known, by this slot of its control, as a
/// schema file after a comment: as [`image_schema::dump`] does of the image in which the other slot's gate is closed. Where the other slot
/// is newer, or its commit had begun, cells and log needn't fit this one, so these needn't be the values of one moment. The names are
/// those of the schema that is given, which has to be the image's, or else numbers.
///
/// Refusals, in this order:
/// - `Study`: the image is refused by this slot, as [`recover::study`] says: by `NoControl` where the slot's gate is closed, by
///   `BadControl` where it holds no control of this layout, by `BadRecord` and `IllegalLog` where its log can't be replayed; or there was
///   no memory. Nothing is written;
/// - `OtherSchema`: the schema that is given isn't the image's. Nothing is written;
/// - `Study` by `NoMemory`: there was no memory for the names. Nothing is written;
/// - `Write`: a beginning of the text is written.
pub fn dump_slot<W: Write>(
    alloc: Global,
    image: Vec<u8>,
    slot: Slot,
    given: Option<Schema>,
    writer: &mut W,
) -> Result<(), DumpError>
    // What is dumped by a slot is the file of the image's own schema, with the heap that a study finds of the image in
    // which the other slot's gate is closed, after a comment. A slot is refused exactly for what a study of that image is
    // refused for, or for the schema; then nothing is written.
    ensures { DumpedSlot slot given image.items W.contents writer.old writer.new result }
{
    let mut disk = disk_of(image, slot);
    let studied = study(alloc, &mut disk);
    drop(disk);
    match studied {
        Ok(study) => {
            let dumped = write_study(alloc, &study, slot, given, writer);
            drop(study);
            dumped
        }
        Err(error) => {
            drop(given);
            Err(DumpError::Study(error))
        }
    }
}

// A disk in memory with these bytes, in which this slot stands alone.
fn disk_of(image: Vec<u8>, slot: Slot) -> VolatileDisk
    ensures { result ≡ new_device (alone slot image.items) }
{
    let mut image = image;
    shut(&mut image, slot.other());
    VolatileDisk::holding(image)
}

// Closes the slot's gate. An image that ends before it has none.
fn shut(image: &mut [u8], slot: Slot)
    ensures { image.new ≡ slice_set image.old (slot_at slot) 0 }
{
    let at = slot.start() as usize;
    if at < image.len() {
        image[at] = 0;
    }
}

// Writes the schema file of what was studied by this slot.
fn write_study<W: Write>(
    alloc: Global,
    study: &Study,
    slot: Slot,
    given: Option<Schema>,
    writer: &mut W,
) -> Result<(), DumpError>
    requires { IsStudied study.now }
    ensures { DumpedStudied slot given study.now W.contents writer.old writer.new result }
{
    let schema = match schema_of(alloc, study, given) {
        Ok(schema) => schema,
        Err(NamingError::OtherSchema) => return Err(DumpError::OtherSchema),
        Err(NamingError::NoMemory) => return Err(DumpError::Study(RecoverError::NoMemory)),
    };
    let written = write_noted(slot_note(slot), &schema, &study.heap, writer);
    drop(schema);
    match written {
        Ok(()) => Ok(()),
        Err(_) => Err(DumpError::Write),
    }
}
