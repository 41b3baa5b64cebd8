//! Which control of an image counts (`docs/FORMAT.md`, "Control").
ghost use Rattle.std.specs.Prelude.{◌≡◌, ◌≤◌, length, IfOk, OnErr, OnOk};
ghost use Rattle.block_disk.specs.Device.{SameMoments};
ghost use Rattle.block_disk.specs.Since.{HasCauseSince, HasFailedSince};
ghost use Rattle.image_parts.specs.Choice.{HeadOf, Picks};
ghost use Rattle.image_parts.specs.Layout.{IsLayout};
ghost use Rattle.image_parts.specs.Slots.{Chooses, sequence_of};
ghost use Rattle.image_parts.specs.declared.error.ControlError.TheVariants as refusal;

use crate::bytes::u64_at;
use crate::control::{BODY_BYTES, Control, decode_control};
use crate::error::ControlError;
use crate::header::OPEN;
use crate::layout::Layout;
use crate::slot::Slot;
use block_disk::{Disk, Fault, read_within};

/// The control that counts, and its slot: of those with an open gate, the one with the greater sequence. Three reads.
///
/// Refusals, in this order; the device is left as it was:
/// - `NoControl`: both gates are closed;
/// - `BadControl`: both are open with the same sequence, or the slot that counts doesn't hold the control of an image
///   of this layout.
///
/// `Fault` comes where a read fails.
pub fn choose_control<D: Disk>(
    disk: &mut D,
    layout: &Layout,
) -> Result<(Slot, Control), ControlError>
    requires limits { IsLayout layout.now }
    requires fits { 2160 ≤ length (D.device disk.old).now.bytes }
    // Any bytes are refused as a control exactly where the definition says, and else give the one control that counts.
    ensures exact { Chooses layout.now (D.device disk.old).now.bytes result }
    ensures same { SameMoments (D.device disk.old) (D.device disk.new) }
    ensures cause { HasCauseSince (D.device disk.old) (D.device disk.new) refusal.Fault result }
{
    let slot = pick(disk)?;
    let mut body = [0; BODY_BYTES];
    read_within(disk, slot.body(), &mut body)?;
    let Some(control) = decode_control(layout, &body) else {
        return Err(ControlError::BadControl);
    };
    Ok((slot, control))
}

// The slot that counts. The sequences are compared whether or not the rest of the bodies is a control's.
fn pick<D: Disk>(disk: &mut D) -> Result<Slot, ControlError>
    requires { 2160 ≤ length (D.device disk.old).now.bytes }
    ensures exact { Picks (D.device disk.old).now.bytes result }
    ensures same { SameMoments (D.device disk.old) (D.device disk.new) }
    ensures cause { HasCauseSince (D.device disk.old) (D.device disk.new) refusal.Fault result }
{
    let a = read_head(disk, Slot::A)?;
    let b = read_head(disk, Slot::B)?;
    if !a.is_open && !b.is_open {
        return Err(ControlError::NoControl);
    }
    if !b.is_open {
        return Ok(Slot::A);
    }
    if !a.is_open {
        return Ok(Slot::B);
    }
    if a.sequence == b.sequence {
        return Err(ControlError::BadControl);
    }
    if a.sequence > b.sequence {
        Ok(Slot::A)
    } else {
        Ok(Slot::B)
    }
}

/// What a slot begins with.
#[derive(Clone, Copy)]
pub struct Head {
    /// Whether the gate reads open.
    pub is_open: bool,
    /// The sequence with which the body begins, whether or not the rest is a control's.
    pub sequence: u64,
}

/// What this slot begins with, in one read.
#[tactic(auto, unfolding(crate::specs::Slots::sequence_of))]
pub fn read_head<D: Disk>(disk: &mut D, slot: Slot) -> Result<Head, Fault>
    requires { 2160 ≤ length (D.device disk.old).now.bytes }
    ensures ok { IfOk result (HeadOf (D.device disk.old).now.bytes slot) }
    ensures untouched { OnOk result (D.device disk.new ≡ D.device disk.old) }
    ensures same { SameMoments (D.device disk.old) (D.device disk.new) }
    ensures later { (D.device disk.old).failures ≤ (D.device disk.new).failures }
    ensures cause { OnErr result (HasFailedSince (D.device disk.old) (D.device disk.new)) }
{
    let mut bytes = [0; 16];
    read_within(disk, slot.start(), &mut bytes)?;
    Ok(Head {
        is_open: bytes[0] == OPEN,
        sequence: u64_at(&bytes, 8),
    })
}
