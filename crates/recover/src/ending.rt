//! The end of a recovery: from then on nothing counts of what was logged.
ghost use Rattle.std.specs.Prelude.{◌≡◌, ◌+◌, ◌-◌, ◌<◌, ◌^◌, [], IfErr, IfOk, OnOk};
ghost use Rattle.block_disk.specs.Since.{HasCauseSince};
ghost use Rattle.image_parts.specs.Control.{empty_control};
ghost use Rattle.image_parts.specs.Layout.{IsLayout};
ghost use Rattle.image_parts.specs.Slots.{Shows, other};
ghost use Rattle.recover.specs.Ending.{LeavesEnding, ShowsSequence, ended_on};
ghost use Rattle.recover_heap.specs.declared.error.RecoverError.TheVariants.{Fault};

use block_disk::Disk;
use image::{LaneRow, Layout, Slot, commit_control};
use recover_heap::{RecoverError, sync};

/// Makes what was put back durable, and then a control with empty logs and the next sequence, and answers its slot.
///
/// `chosen` and `sequence` are those of the control that every image shows now, and the sequence isn't at its last
/// value. At every moment a crash leaves that control or the new one. `Fault` is the one refusal.
pub fn end_recovery<D: Disk>(
    disk: &mut D,
    layout: &Layout,
    chosen: Slot,
    sequence: u64,
) -> Result<Slot, RecoverError>
    requires limits { IsLayout layout.now }
    requires shows { ShowsSequence layout.now (D.device disk.old) chosen sequence }
    requires sequence { sequence < 2 ^ 64 - 1 }
    ensures slot { IfOk result (λ slot. slot ≡ other chosen) }
    ensures ok { OnOk result (Shows layout.now (D.device disk.new).now.bytes (other chosen)
        (empty_control (sequence + 1))) }
    ensures durable { OnOk result ((D.device disk.new).now.pending ≡ []) }
    ensures calls { OnOk result (D.device disk.new ≡ ended_on chosen sequence (D.device disk.old)) }
    ensures only_fault { IfErr result (λ e. e ≡ Fault) }
    ensures any_moment { LeavesEnding layout.now chosen sequence
        (D.device disk.old) (D.device disk.new) }
    ensures cause { HasCauseSince (D.device disk.old) (D.device disk.new) Fault result }
{
    // The home cells have to be durable before the control that gives up the undo records.
    sync(disk)?;
    // From here on a crash may leave the control with empty logs.
    match commit_control(disk, layout, chosen, sequence, &[LaneRow::EMPTY; 32]) {
        Ok(slot) => Ok(slot),
        Err(_) => Err(RecoverError::Fault),
    }
}
