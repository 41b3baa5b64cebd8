//! A commit over writes that are still pending: they become durable together with the gate that closes before it.
ghost use Rattle.std.specs.Prelude.{◌≡◌, ◌⊎◌, ◌↔◌, ◌-◌, ◌<◌, ◌^◌, Err, IfErr, IfOk, OnOk, length};
ghost use Rattle.block_disk.specs.Images.{LeavesOnly};
ghost use Rattle.block_disk.specs.Since.{HasCauseSince};
ghost use Rattle.image_parts.specs.Calls.{after};
ghost use Rattle.image.specs.Commit.{ClosedOrSame, IsSteady, StillShows, shutting_calls};
ghost use Rattle.image.specs.Commits.{CommitsPending, HasSequence, IsReady};
ghost use Rattle.image_parts.specs.Control.{AreRows};
ghost use Rattle.image_parts.specs.Layout.{IsLayout};
ghost use Rattle.image_parts.specs.Slots.{IsShut, other, slot_at};
ghost use Rattle.image_parts.specs.declared.control.Control.{Control as Content};
ghost use Rattle.image_parts.specs.declared.error.ImageError.TheVariants.{Fault, Worn};

use crate::commit::commit_control;
use block_disk::{Disk, make_durable, read_within, write_within};
use image_parts::{CLOSED, ImageError, LaneRow, Layout, OPEN, ROWS, Slot};

/// Makes all that was written durable, and then commits a control with these rows and the next sequence into the slot that
/// isn't chosen, and answers that slot. A closing of that slot's gate becomes durable together with what was written before,
/// so it takes three syncs.
///
/// `chosen` and `sequence` are those of the control that every image shows now. At every moment a crash leaves that control,
/// or the new one, and the new one over all that was written before; no byte outside of the other slot changes.
///
/// Refusals, in this order:
/// - `Worn`: the sequence is at its last value, 2^64 - 1. No call is made;
/// - `Fault`: a call failed. A crash may leave either control.
pub(crate) fn commit_pending<D: Disk>(
    disk: &mut D,
    layout: &Layout,
    chosen: Slot,
    sequence: u64,
    rows: &[LaneRow; ROWS],
) -> Result<Slot, ImageError>
    requires limits { IsLayout layout.now }
    requires rows { AreRows layout.now rows.now }
    requires steady { IsReady layout.now (D.device disk.old) chosen (HasSequence sequence) }
    ensures slot { IfOk result (λ slot. slot ≡ other chosen) }
    ensures commits { CommitsPending layout.now chosen sequence rows.now
        (D.device disk.old) (D.device disk.new) result }
    ensures worn { (result ≡ Err Worn) ↔ (sequence ≡ 2 ^ 64 - 1) }
    ensures no_call { result ≡ Err Worn → D.device disk.new ≡ D.device disk.old }
    ensures no_other { IfErr result (λ e. (e ≡ Worn) ⊎ (e ≡ Fault)) }
{
    if sequence == u64::MAX {
        return Err(ImageError::Worn);
    }
    close_spare(disk, layout, chosen)?;
    // What was written has to be durable before the control that counts it, and the closed gate before the body.
    make_durable(disk)?;
    commit_control(disk, layout, chosen, sequence, rows)
}

// Closes the gate of the slot that isn't chosen, if it reads open, and leaves it to the next sync to make that durable.
//
// At every moment a crash leaves the control that counts: until that sync the other slot is closed, or as it was. Its one
// refusal is `Fault`.
fn close_spare<D: Disk>(disk: &mut D, layout: &Layout, chosen: Slot) -> Result<(), ImageError>
    requires steady { (old : Content) × IsSteady layout.now (D.device disk.old) chosen old }
    ensures closed { OnOk result (IsShut (slot_at (other chosen)) (D.device disk.new).now.bytes) }
    // Closing the spare gate makes exactly the documented calls.
    ensures calls { OnOk result (D.device disk.new
        ≡ after (shutting_calls (slot_at (other chosen)) (D.device disk.old).now.bytes)
        (D.device disk.old)) }
    ensures only_fault { IfErr result (λ e. e ≡ Fault) }
    // While the spare gate is closed, every image shows the control that counts.
    ensures any_moment { (old : Content) → IsSteady layout.now (D.device disk.old) chosen old
        → LeavesOnly (D.device disk.old) (D.device disk.new)
        (StillShows layout.now (D.device disk.old) chosen old) }
    ensures cause { HasCauseSince (D.device disk.old) (D.device disk.new) Fault result }
{
    // The layout is the contract's alone: it says which bytes are a control.
    let _layout = layout;
    let slot = chosen.other();
    shut(disk, slot.start())
}

// Writes a closed gate at this place, if it reads open. At each moment it is closed or as it was.
fn shut<D: Disk>(disk: &mut D, at: u64) -> Result<(), ImageError>
    requires fits { at < length (D.device disk.old).now.bytes }
    ensures closed { OnOk result (IsShut at (D.device disk.new).now.bytes) }
    ensures calls { OnOk result (D.device disk.new
        ≡ after (shutting_calls at (D.device disk.old).now.bytes) (D.device disk.old)) }
    ensures only_fault { IfErr result (λ e. e ≡ Fault) }
    ensures any_moment { LeavesOnly (D.device disk.old) (D.device disk.new)
        (ClosedOrSame (D.device disk.old) at) }
    ensures cause { HasCauseSince (D.device disk.old) (D.device disk.new) Fault result }
{
    let mut gate = [CLOSED];
    read_within(disk, at, &mut gate)?;
    if gate[0] == OPEN {
        write_within(disk, at, &[CLOSED])?;
    }
    Ok(())
}
