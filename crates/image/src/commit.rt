//! A commit of a control: at every moment a crash leaves the old one or the new one.
ghost use Rattle.std.specs.Prelude.{◌≡◌, ◌⊎◌, ◌↔◌, ◌-◌, ◌<◌, ◌^◌, Err, IfErr, IfOk, OnOk, length, slice_index};
ghost use Rattle.block_disk.specs.Images.{Always, LeavesOnly};
ghost use Rattle.block_disk.specs.Since.{HasCauseSince, SameSize};
ghost use Rattle.image_parts.specs.Calls.{after};
ghost use Rattle.image.specs.Commit.{ClosedOrSame, closing_calls};
ghost use Rattle.image.specs.Commits.{CommitsApart, CommitsBytes, HasSequence, IsReady, IsReadyFor};
ghost use Rattle.image_parts.specs.Control.{AreRows};
ghost use Rattle.image_parts.specs.Layout.{IsLayout};
ghost use Rattle.image_parts.specs.Slots.{IsBody, IsShut, other};
ghost use Rattle.image_parts.specs.declared.error.ImageError.TheVariants.{Fault, Worn};

use block_disk::{Disk, read_within, write_through};
use image_parts::{
    BODY_BYTES, CLOSED, Control, ImageError, LaneRow, Layout, OPEN, ROWS, Slot, VERSION,
    encode_control,
};

/// Commits a control with these rows and the next sequence into the slot that isn't chosen, and answers that slot.
///
/// `chosen` and `sequence` are those of the control that every image shows now. At every moment a crash leaves that
/// control or the new one, and no byte outside of the other slot changes. It takes six writes and syncs, or four where
/// the other slot's gate reads closed.
///
/// Refusals, in this order:
/// - `Worn`: the sequence is at its last value, 2^64 - 1. No call is made;
/// - `Fault`: a call failed. A crash may leave either control.
pub fn commit_control<D: Disk>(
    disk: &mut D,
    layout: &Layout,
    chosen: Slot,
    sequence: u64,
    rows: &[LaneRow; ROWS],
) -> Result<Slot, ImageError>
    requires limits { IsLayout layout.now }
    requires rows { AreRows layout.now rows.now }
    requires steady { IsReady layout.now (D.device disk.old) chosen (HasSequence sequence) }
    ensures slot { IfOk result (λ slot. slot ≡ other chosen) }
    ensures commits { CommitsApart layout.now chosen sequence rows.now
        (D.device disk.old) (D.device disk.new) result }
    // A commit is refused as `Worn` exactly where the control's sequence is at its last value.
    ensures worn { (result ≡ Err Worn) ↔ (sequence ≡ 2 ^ 64 - 1) }
    // A commit that is refused as `Worn` makes no call.
    ensures no_call { result ≡ Err Worn → D.device disk.new ≡ D.device disk.old }
    ensures no_other { IfErr result (λ e. (e ≡ Worn) ⊎ (e ≡ Fault)) }
{
    if sequence == u64::MAX {
        return Err(ImageError::Worn);
    }
    let control = Control {
        sequence: sequence + 1,
        version: VERSION,
        rows: *rows,
    };
    let mut content = [0; BODY_BYTES];
    encode_control(&control, &mut content);
    replace(disk, layout, chosen, &content)
}

// Writes a control with a greater sequence into the slot that isn't chosen.
fn replace<D: Disk>(
    disk: &mut D,
    layout: &Layout,
    chosen: Slot,
    content: &[u8],
) -> Result<Slot, ImageError>
    requires long { IsBody content.now }
    requires steady { IsReadyFor layout.now (D.device disk.old) chosen content.now }
    ensures slot { IfOk result (λ slot. slot ≡ other chosen) }
    ensures commits { CommitsBytes layout.now chosen content.now
        (D.device disk.old) (D.device disk.new) result }
    ensures only_fault { IfErr result (λ e. e ≡ Fault) }
{
    // The layout is the contract's alone: it says which bytes are a control.
    let _layout = layout;
    let slot = chosen.other();
    let gate = slot.start();
    // A body that is torn behind an open gate would count.
    close(disk, gate)?;
    // The body has to be durable before the gate opens over it.
    write_through(disk, slot.body(), content)?;
    // Once this write may have reached the device, the new control may count; once it is durable, it does.
    write_through(disk, gate, &[OPEN])?;
    Ok(slot)
}

// Closes the gate at this place, if it reads open. At each moment it is closed or as it was: to write over a closed gate
// would let a crash leave it open, behind it whatever stands in the slot.
fn close<D: Disk>(disk: &mut D, at: u64) -> Result<(), ImageError>
    requires fits { at < length (D.device disk.old).now.bytes }
    requires steady { Always (D.device disk.old)
        (λ image. slice_index image at ≡ slice_index (D.device disk.old).now.bytes at) }
    ensures closed { OnOk result (Always (D.device disk.new) (IsShut at)) }
    ensures size { OnOk result (SameSize (D.device disk.old) (D.device disk.new)) }
    ensures calls { OnOk result (D.device disk.new
        ≡ after (closing_calls at (D.device disk.old).now.bytes) (D.device disk.old)) }
    ensures only_fault { IfErr result (λ e. e ≡ Fault) }
    ensures any_moment { LeavesOnly (D.device disk.old) (D.device disk.new)
        (ClosedOrSame (D.device disk.old) at) }
    ensures cause { HasCauseSince (D.device disk.old) (D.device disk.new) Fault result }
{
    let mut gate = [CLOSED];
    read_within(disk, at, &mut gate)?;
    if gate[0] == OPEN {
        write_through(disk, at, &[CLOSED])?;
    }
    Ok(())
}
