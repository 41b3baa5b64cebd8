//! A commit that turns one gate, with two syncs.
ghost use Rattle.std.specs.Prelude.{◌≡◌, IfErr, IfOk, length};
ghost use Rattle.image.specs.Commit.{IsSteady};
ghost use Rattle.image.specs.Commits.{CommitsByClosing, CommitsByOpening, IsReadyFor};
ghost use Rattle.image_parts.specs.Slots.{IsBody, IsOpen, IsShut, other, slot_at};
ghost use Rattle.image_parts.specs.declared.control.Control.{Control as Content};
ghost use Rattle.image_parts.specs.declared.error.ImageError.TheVariants.{Fault};

use block_disk::{Disk, write_through};
use image_parts::{CLOSED, ImageError, Layout, OPEN, Slot};

/// Makes all that was written durable, and then commits the control that these 1,040 bytes spell by opening the gate of the
/// slot that isn't chosen, which reads closed; both by two syncs. It answers that slot.
///
/// At every moment a crash leaves the control that counted, or the new one, and the new one over all that was written before.
/// Its one refusal is `Fault`: a call failed, and a crash may leave either control.
pub(crate) fn commit_by_opening<D: Disk>(
    disk: &mut D,
    layout: &Layout,
    chosen: Slot,
    content: &[u8],
) -> Result<Slot, ImageError>
    requires long { IsBody content.now }
    requires closed { IsShut (slot_at (other chosen)) (D.device disk.old).now.bytes }
    requires steady { IsReadyFor layout.now (D.device disk.old) chosen content.now }
    ensures slot { IfOk result (λ slot. slot ≡ other chosen) }
    ensures commits { CommitsByOpening layout.now chosen content.now
        (D.device disk.old) (D.device disk.new) result }
    ensures only_fault { IfErr result (λ e. e ≡ Fault) }
{
    // The layout is the contract's alone: it says which bytes are a control.
    let _layout = layout;
    let slot = chosen.other();
    // The body has to be durable before the gate opens over it, and so has what it counts.
    write_through(disk, slot.body(), content)?;
    // Once this write may have reached the device, the new control may count; once it is durable, it does.
    write_through(disk, slot.start(), &[OPEN])?;
    Ok(slot)
}

/// Makes all that was written durable, and then commits a control by closing the gate of the one that counts; both by two
/// syncs. It answers the other slot, whose gate reads open. So the sequence there is the smaller one, and nobody looks at what
/// stands behind it: `rest`, 1,032 bytes, is written there first, and spells the new control with that sequence before it.
///
/// At every moment a crash leaves the control that counted, or the new one, and the new one over all that was written before.
/// Its one refusal is `Fault`: a call failed, and a crash may leave either control.
pub(crate) fn commit_by_closing<D: Disk>(
    disk: &mut D,
    layout: &Layout,
    chosen: Slot,
    rest: &[u8],
) -> Result<Slot, ImageError>
    // All of a body but its sequence.
    requires long { length rest.now ≡ 1032 }
    requires open { IsOpen (slot_at (other chosen)) (D.device disk.old).now.bytes }
    requires steady { (old : Content) × IsSteady layout.now (D.device disk.old) chosen old }
    ensures slot { IfOk result (λ slot. slot ≡ other chosen) }
    ensures commits { CommitsByClosing layout.now chosen rest.now
        (D.device disk.old) (D.device disk.new) result }
    ensures only_fault { IfErr result (λ e. e ≡ Fault) }
{
    // The layout is the contract's alone: it says which bytes are a control.
    let _layout = layout;
    let slot = chosen.other();
    // The sequence stays: until the gate closes it has to be the smaller one.
    write_through(disk, slot.body() + 8, rest)?;
    // Once this write may have reached the device, the new control may count; once it is durable, it does.
    write_through(disk, chosen.start(), &[CLOSED])?;
    Ok(slot)
}
