//! Home cells (`docs/FORMAT.md`, "Image").
ghost use Rattle.std.specs.Prelude.{◌≡◌, ◌<◌, ◌≤◌, [], ◌∷◌, length, IfErr, IfOk, OnOk};
ghost use Rattle.std.specs.Int.{to_be_bytes, w64};
ghost use Rattle.block_disk.specs.Device.{SameMoments, written};
ghost use Rattle.block_disk.specs.Since.{AlwaysBut, HasCauseSince, LeavesBut};
ghost use Rattle.image_parts.specs.Cells.{HasCell, cell_range};
ghost use Rattle.image_parts.specs.Layout.{cell_at, size_of};
ghost use Rattle.image_parts.specs.declared.error.ImageError.TheVariants.{Fault};

use crate::bytes::u64_at;
use crate::error::ImageError;
use crate::layout::Layout;
use block_disk::{Disk, read_within, write_within};
use heap_model::FieldId;

/// Writes the field's home cell. Until the next sync that succeeds, a crash may leave any bytes there; no other byte of
/// any image changes. `Fault` is the one refusal.
pub fn put_cell<D: Disk>(
    disk: &mut D,
    layout: &Layout,
    field: FieldId,
    value: u64,
) -> Result<(), ImageError>
    requires fits { size_of layout.now ≤ length (D.device disk.old).now.bytes }
    requires field { field.0 < layout.now.fields }
    ensures ok { OnOk result (HasCell layout.now field.0 (D.device disk.new).now.bytes value) }
    ensures written { OnOk result
        (D.device disk.new ≡ written (cell_at layout.now field.0) (to_be_bytes w64 value)
        (D.device disk.old)) }
    ensures only_fault { IfErr result (λ e. e ≡ Fault) }
    // After a home cell is written each image differs from what reads in that cell alone.
    ensures crash { AlwaysBut (cell_range layout.now field.0 ∷ []) (D.device disk.old)
        (D.device disk.new) }
    // While a home cell is written each image differs from one of before in that cell alone.
    ensures any_moment { LeavesBut (cell_range layout.now field.0 ∷ []) (D.device disk.old)
        (D.device disk.new) }
    ensures cause { HasCauseSince (D.device disk.old) (D.device disk.new) Fault result }
{
    write_within(disk, layout.home_cell(field), &value.to_be_bytes())?;
    Ok(())
}

/// The value in the field's home cell, in one read. `Fault` is the one refusal.
pub fn get_cell<D: Disk>(disk: &mut D, layout: &Layout, field: FieldId) -> Result<u64, ImageError>
    requires fits { size_of layout.now ≤ length (D.device disk.old).now.bytes }
    requires field { field.0 < layout.now.fields }
    // A home cell that is read gives its field's value.
    ensures ok { IfOk result (HasCell layout.now field.0 (D.device disk.old).now.bytes) }
    ensures only_fault { IfErr result (λ e. e ≡ Fault) }
    ensures same { SameMoments (D.device disk.old) (D.device disk.new) }
    ensures cause { HasCauseSince (D.device disk.old) (D.device disk.new) Fault result }
{
    let mut bytes = [0; 8];
    read_within(disk, layout.home_cell(field), &mut bytes)?;
    Ok(u64_at(&bytes, 0))
}
