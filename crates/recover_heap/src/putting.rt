//! Old values go back to their home cells.
ghost use Rattle.std.specs.Prelude.{◌≡◌, ◌<◌, ◌≤◌, All, length, IfErr, OnOk};
ghost use Rattle.block_disk.specs.Since.{HasCauseSince, LeavesBut};
ghost use Rattle.image_parts.specs.Calls.{after};
ghost use Rattle.image_parts.specs.Layout.{size_of};
ghost use Rattle.recover_heap.specs.Putting.{ArePut, cell_ranges, put_calls};
ghost use Rattle.recover_heap.specs.declared.error.RecoverError.TheVariants.{Fault};

use crate::device::put_value;
use crate::error::RecoverError;
use block_disk::Disk;
use heap_model::FieldId;
use image_parts::Layout;

/// Writes the home cell of each of these fields, in their order, with its value of the heap, which has values by field.
/// Until the next sync that succeeds, a crash may leave any bytes in these cells; no other byte of any image changes.
/// `Fault` is the one refusal: some of the cells may be written then.
pub fn put_back<D: Disk>(
    disk: &mut D,
    layout: &Layout,
    heap: &[u64],
    undone: &[FieldId],
) -> Result<(), RecoverError>
    requires fits { size_of layout.now ≤ length (D.device disk.old).now.bytes }
    requires heap { length heap.now ≡ layout.now.fields }
    requires fields { All (λ f. f.0 < layout.now.fields) undone.now }
    ensures ok { OnOk result (ArePut layout.now heap.now (D.device disk.new).now.bytes undone.now) }
    ensures calls { OnOk result (D.device disk.new
        ≡ after (put_calls layout.now heap.now undone.now) (D.device disk.old)) }
    ensures only_fault { IfErr result (λ e. e ≡ Fault) }
    ensures any_moment { LeavesBut (cell_ranges layout.now undone.now)
        (D.device disk.old) (D.device disk.new) }
    ensures cause { HasCauseSince (D.device disk.old) (D.device disk.new) Fault result }
{
    for field in undone {
        put_value(disk, layout, heap, *field)?;
    }
    Ok(())
}
