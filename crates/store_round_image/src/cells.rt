//! Cells get the values that a round before has made durable in the helper's lane.
ghost use Rattle.std.specs.Prelude.{◌≡◌, ◌<◌, ◌≤◌, ℕ, [], ◌∷◌, All, Contains, IfErr, OnOk, length};
ghost use Rattle.block_disk.specs.Since.{AlwaysBut, HasCauseSince, LeavesBut, ReadsSameBut};
ghost use Rattle.image_parts.specs.Cells.{HasCell, cell_range};
ghost use Rattle.image_parts.specs.Layout.{size_of};
ghost use Rattle.store_round_image.specs.Turning.{IsValueIn, cell_ranges, fields_of};
ghost use Rattle.heap_model.specs.declared.store_error.StoreError.TheVariants.{Fault};

use block_disk::Disk;
use heap_model::{FieldId, StoreError};
use image::{Layout, put_cell};

/// The value that a field's home cell is to have.
#[derive(Clone, Copy, Debug, PartialEq, Eq)]
pub struct HomeValue {
    pub field: FieldId,
    pub value: u64,
}

/// Writes these cells, in one write each. `Fault` is the one refusal.
pub(crate) fn write_cells<D: Disk>(
    disk: &mut D,
    layout: &Layout,
    cells: &[HomeValue],
) -> Result<(), StoreError>
    requires room { size_of layout.now ≤ length (D.device disk.old).now.bytes }
    requires values { (heap : ℕ → ℕ) × All (IsValueIn layout.now heap) cells.now }
    ensures ok { (heap : ℕ → ℕ) → All (IsValueIn layout.now heap) cells.now → OnOk result
        ((f : ℕ) → Contains (fields_of cells.now) f → HasCell layout.now f (D.device disk.new).now.bytes (heap f)) }
    ensures same { OnOk result (ReadsSameBut (cell_ranges layout.now cells.now) (D.device disk.old)
        (D.device disk.new)) }
    ensures only_fault { IfErr result (λ e. e ≡ Fault) }
    ensures any_moment { LeavesBut (cell_ranges layout.now cells.now) (D.device disk.old)
        (D.device disk.new) }
    ensures cause { HasCauseSince (D.device disk.old) (D.device disk.new) Fault result }
{
    for cell in cells {
        write_cell(disk, layout, *cell)?;
    }
    Ok(())
}

// Writes one cell.
fn write_cell<D: Disk>(disk: &mut D, layout: &Layout, cell: HomeValue) -> Result<(), StoreError>
    requires room { size_of layout.now ≤ length (D.device disk.old).now.bytes }
    requires field { cell.field.0 < layout.now.fields }
    ensures ok { OnOk result (HasCell layout.now cell.field.0 (D.device disk.new).now.bytes cell.value) }
    ensures same { OnOk result (ReadsSameBut (cell_range layout.now cell.field.0 ∷ []) (D.device disk.old)
        (D.device disk.new)) }
    ensures only_fault { IfErr result (λ e. e ≡ Fault) }
    ensures any_moment { LeavesBut (cell_range layout.now cell.field.0 ∷ []) (D.device disk.old)
        (D.device disk.new) }
    ensures cause { HasCauseSince (D.device disk.old) (D.device disk.new) Fault result }
{
    match put_cell(disk, layout, cell.field, cell.value) {
        Ok(()) => Ok(()),
        Err(_) => Err(StoreError::Fault),
    }
}
