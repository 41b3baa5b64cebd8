//! A commit that turns whichever gate two syncs suffice for.
ghost use Rattle.std.specs.Prelude.{◌≡◌, ◌⊎◌, ◌↔◌, ◌+◌, ◌-◌, ◌<◌, ◌^◌, Err, IfErr, IfOk};
ghost use Rattle.std.specs.Int.{to_be_bytes, w64};
ghost use Rattle.block_disk.specs.Bytes.{part};
ghost use Rattle.image.specs.Commit.{IsSteady, turned_sequence};
ghost use Rattle.image.specs.Commits.{ClosesChosen, CommitsByTurning, HasSequence, IsBefore, IsReady, OpensSpare, RewritesSpare};
ghost use Rattle.image_parts.specs.Control.{AreRows, control_bytes, control_of};
ghost use Rattle.image_parts.specs.Layout.{IsLayout};
ghost use Rattle.image_parts.specs.Slots.{IsOpen, IsShut, body_at, other, slot_at};
ghost use Rattle.image_parts.specs.declared.control.Control.{Control as Content};
ghost use Rattle.image_parts.specs.declared.error.ImageError.TheVariants.{Fault, Worn};

use crate::one_gate::{commit_by_closing, commit_by_opening};
use crate::pending::commit_pending;
use block_disk::Disk;
use image_parts::{
    BODY_BYTES, Control, ImageError, LaneRow, Layout, ROWS, Slot, VERSION, encode_control,
    read_head,
};

/// Makes all that was written durable, and then commits a control with these rows by turning one gate; both by two syncs.
/// Returns the slot in which it stands, which is the one that isn't chosen, and its sequence.
///
/// Where the other slot's gate reads closed, the control gets the next sequence, and that gate opens over it. Where it reads
/// open, its sequence is the smaller one: the control gets that one, and the gate of the chosen slot closes, so that the other
/// one counts. A sequence of 0, which is no control's, is not kept: then the other slot is rewritten as by [`commit_pending`],
/// with three syncs.
///
/// `chosen` and `sequence` are those of the control that every image shows now. At every moment a crash leaves that control,
/// or the new one, and the new one over all that was written before; no byte outside of the two slots changes.
///
/// Refusals, in this order:
/// - `Worn`: the sequence is at its last value, 2^64 - 1. No call is made;
/// - `Fault`: a call failed. A crash may leave either control.
pub fn commit_by_turning<D: Disk>(
    disk: &mut D,
    layout: &Layout,
    chosen: Slot,
    sequence: u64,
    rows: &[LaneRow; ROWS],
) -> Result<(Slot, u64), ImageError>
    requires limits { IsLayout layout.now }
    requires rows { AreRows layout.now rows.now }
    requires steady { IsReady layout.now (D.device disk.old) chosen (HasSequence sequence) }
    // A commit that turns one gate answers the slot and the sequence of the new control.
    ensures made { IfOk result (λ made. (made.0 ≡ other chosen)
        × (made.1 ≡ turned_sequence chosen sequence (D.device disk.old).now.bytes)) }
    ensures commits { CommitsByTurning layout.now chosen sequence rows.now
        (D.device disk.old) (D.device disk.new) result }
    // A commit that turns one gate is refused as `Worn` exactly where the control's sequence is at its last value.
    ensures worn { (result ≡ Err Worn) ↔ (sequence ≡ 2 ^ 64 - 1) }
    // A commit that is refused as `Worn` makes no call.
    ensures no_call { result ≡ Err Worn → D.device disk.new ≡ D.device disk.old }
    ensures no_other { IfErr result (λ e. (e ≡ Worn) ⊎ (e ≡ Fault)) }
{
    if sequence == u64::MAX {
        return Err(ImageError::Worn);
    }
    let spare = read_head(disk, chosen.other())?;
    if spare.is_open {
        if spare.sequence > 0 {
            return close_chosen(disk, layout, chosen, spare.sequence, rows);
        }
        return rewrite_spare(disk, layout, chosen, sequence, rows);
    }
    open_spare(disk, layout, chosen, sequence + 1, rows)
}

// Commits a control with this sequence by opening the gate of the other slot, which reads closed.
fn open_spare<D: Disk>(
    disk: &mut D,
    layout: &Layout,
    chosen: Slot,
    next: u64,
    rows: &[LaneRow; ROWS],
) -> Result<(Slot, u64), ImageError>
    requires rows { AreRows layout.now rows.now }
    requires closed { IsShut (slot_at (other chosen)) (D.device disk.old).now.bytes }
    requires steady { IsReady layout.now (D.device disk.old) chosen (IsBefore next) }
    ensures made { IfOk result (λ made. (made.0 ≡ other chosen) × (made.1 ≡ next)) }
    ensures commits { OpensSpare layout.now chosen next rows.now
        (D.device disk.old) (D.device disk.new) result }
    ensures only_fault { IfErr result (λ e. e ≡ Fault) }
{
    let content = content_of(next, rows);
    match commit_by_opening(disk, layout, chosen, &content) {
        Ok(slot) => Ok((slot, next)),
        Err(_) => Err(ImageError::Fault),
    }
}

// Commits a control with the sequence that stands behind the other slot's gate, which reads open, by closing the chosen one's.
fn close_chosen<D: Disk>(
    disk: &mut D,
    layout: &Layout,
    chosen: Slot,
    next: u64,
    rows: &[LaneRow; ROWS],
) -> Result<(Slot, u64), ImageError>
    requires rows { AreRows layout.now rows.now }
    requires open { IsOpen (slot_at (other chosen)) (D.device disk.old).now.bytes }
    requires some { 0 < next }
    requires stands { to_be_bytes w64 next
        ≡ part (body_at (other chosen)) 8 (D.device disk.old).now.bytes }
    requires steady { (old : Content) × IsSteady layout.now (D.device disk.old) chosen old }
    ensures made { IfOk result (λ made. (made.0 ≡ other chosen) × (made.1 ≡ next)) }
    ensures commits { ClosesChosen layout.now chosen next rows.now
        (D.device disk.old) (D.device disk.new) result }
    ensures only_fault { IfErr result (λ e. e ≡ Fault) }
{
    let content = content_of(next, rows);
    match commit_by_closing(disk, layout, chosen, &content[8..]) {
        Ok(slot) => Ok((slot, next)),
        Err(_) => Err(ImageError::Fault),
    }
}

// Commits a control with the next sequence, whatever stands in the other slot.
fn rewrite_spare<D: Disk>(
    disk: &mut D,
    layout: &Layout,
    chosen: Slot,
    sequence: u64,
    rows: &[LaneRow; ROWS],
) -> Result<(Slot, u64), ImageError>
    requires limits { IsLayout layout.now }
    requires rows { AreRows layout.now rows.now }
    requires steady { IsReady layout.now (D.device disk.old) chosen (HasSequence sequence) }
    requires next { sequence < 2 ^ 64 - 1 }
    ensures made { IfOk result (λ made. (made.0 ≡ other chosen) × (made.1 ≡ sequence + 1)) }
    ensures commits { RewritesSpare layout.now chosen sequence rows.now
        (D.device disk.old) (D.device disk.new) result }
    ensures only_fault { IfErr result (λ e. e ≡ Fault) }
{
    match commit_pending(disk, layout, chosen, sequence, rows) {
        Ok(slot) => Ok((slot, sequence + 1)),
        Err(_) => Err(ImageError::Fault),
    }
}

// The bytes of the control with this sequence and these rows.
fn content_of(next: u64, rows: &[LaneRow; ROWS]) -> [u8; BODY_BYTES]
    ensures { result ≡ control_bytes (control_of next rows.now) }
{
    let control = Control {
        sequence: next,
        version: VERSION,
        rows: *rows,
    };
    let mut content = [0; BODY_BYTES];
    encode_control(&control, &mut content);
    content
}
