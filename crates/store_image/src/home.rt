//! A logged value goes home.
ghost use Rattle.std.specs.Prelude.{◌<◌, ◌≤◌, length};
ghost use Rattle.image_parts.specs.Layout.{size_of};
ghost use Rattle.store_image.specs.Promises.{GoesHome};

use block_disk::Disk;
use heap_model::{FieldId, StoreError};
use image::{Layout, put_cell};

/// What a home step did.
#[derive(Clone, Copy, Debug, PartialEq, Eq)]
pub enum Home {
    /// It wrote this field's logged value into its home cell.
    Wrote(FieldId),
    /// No field is dirty: there was nothing to write.
    Done,
}

/// Writes the logged value of a dirty field into its home cell, in one write. A crash may leave any bytes there; what
/// recovery puts back is in the undo log by then. `Fault` is the one refusal.
pub fn write_home<D: Disk>(
    disk: &mut D,
    layout: &Layout,
    field: FieldId,
    value: u64,
) -> Result<(), StoreError>
    requires fits { size_of layout.now ≤ length (D.device disk.old).now.bytes }
    requires field { field.0 < layout.now.fields }
    // The logged value stands in its home cell.
    ensures { GoesHome layout.now (D.device disk.old) field.0 value (D.device disk.new) result }
{
    match put_cell(disk, layout, field, value) {
        Ok(()) => Ok(()),
        Err(_) => Err(StoreError::Fault),
    }
}
