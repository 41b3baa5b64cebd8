//! Calls of the device with this crate's refusal: a fault is the one thing that can go wrong.
ghost use Rattle.std.specs.Prelude.{◌≡◌, ◌<◌, [], ◌∷◌, ◌≤◌, length, IfErr, OnErr, OnOk};
ghost use Rattle.block_disk.specs.Device.{SameMoments, synced};
ghost use Rattle.block_disk.specs.Since.{HasCauseSince, LeavesBut};
ghost use Rattle.image_parts.specs.Cells.{cell_range};
ghost use Rattle.image_parts.specs.Layout.{size_of};
ghost use Rattle.recover_heap.specs.Putting.{IsPut, put_on};
ghost use Rattle.recover_heap.specs.declared.error.RecoverError.TheVariants.{Fault};

use crate::error::RecoverError;
use block_disk::{Disk, make_durable};
use heap_model::FieldId;
use image_parts::{Layout, put_cell};

/// Makes what was written durable. `Fault` fixes nothing.
pub fn sync<D: Disk>(disk: &mut D) -> Result<(), RecoverError>
    ensures ok { OnOk result (D.device disk.new ≡ synced (D.device disk.old)) }
    ensures only_fault { IfErr result (λ e. e ≡ Fault) }
    ensures err { OnErr result (SameMoments (D.device disk.old) (D.device disk.new)) }
    ensures any_moment { LeavesBut [] (D.device disk.old) (D.device disk.new) }
    ensures cause { HasCauseSince (D.device disk.old) (D.device disk.new) Fault result }
{
    match make_durable(disk) {
        Ok(()) => Ok(()),
        Err(_) => Err(RecoverError::Fault),
    }
}

/// Writes the field's value of the heap, which has values by field, into its home cell, in one write.
pub fn put_value<D: Disk>(
    disk: &mut D,
    layout: &Layout,
    heap: &[u64],
    field: FieldId,
) -> Result<(), RecoverError>
    requires fits { size_of layout.now ≤ length (D.device disk.old).now.bytes }
    requires heap { length heap.now ≡ layout.now.fields }
    requires field { field.0 < layout.now.fields }
    ensures ok { OnOk result (IsPut layout.now heap.now (D.device disk.new).now.bytes field) }
    ensures written { OnOk result
        (D.device disk.new ≡ put_on layout.now heap.now field (D.device disk.old)) }
    ensures only_fault { IfErr result (λ e. e ≡ Fault) }
    ensures any_moment { LeavesBut (cell_range layout.now field.0 ∷ [])
        (D.device disk.old) (D.device disk.new) }
    ensures cause { HasCauseSince (D.device disk.old) (D.device disk.new) Fault result }
{
    match put_cell(disk, layout, field, heap[field.0 as usize]) {
        Ok(()) => Ok(()),
        Err(_) => Err(RecoverError::Fault),
    }
}
