//! What the first bytes of a device say, read as bytes (`docs/FORMAT.md`, "Header", "Control" and "Making an image").
ghost use Rattle.std.specs.Prelude.{◌≡◌, ◌↔◌, ◌≤◌, ◌+◌, ◌*◌, IfNone, IfSome, IsFalse, IsTrue, length};
ghost use Rattle.block_disk.specs.Bytes.{part};
ghost use Rattle.image_parts.specs.Head as heads;
ghost use Rattle.image_parts.specs.Head.{HasNoControl, IsNamed};
ghost use Rattle.image_parts.specs.Header.{HasHeader, IsFormatted};
ghost use Rattle.image_parts.specs.Slots.{body, gate, sequence_of};
ghost use Rattle.image_parts.specs.declared.layout.Layout.{Layout as Shape};

use crate::bytes::{u32_at, u64_at};
use crate::guard_row::GUARD_ROW_BYTES;
use crate::header::{FORMATTED, HEADER_BYTES, OPEN, decode_header};
use crate::layout::{CELL_BYTES, HEAD_BYTES, Layout};
use crate::slot::Slot;

// The name of an image, behind which its gate stands.
const NAME: [u8; 8] = *b"MONIHEAP";

/// Whether they begin with the name of an image.
pub fn is_named(begun: &[u8]) -> bool
    requires { 2160 ≤ length begun.now }
    ensures { IsTrue result ↔ IsNamed begun.now }
{
    begun[..8] == NAME[..]
}

/// Whether there is room for a header, and they begin with the name and an open gate.
pub fn is_formatted(begun: &[u8]) -> bool
    ensures { IsTrue result ↔ IsFormatted begun.now }
{
    begun.len() >= HEADER_BYTES && begun[..9] == FORMATTED[..]
}

/// How many fields the header says, whatever its gate.
pub fn fields_in(begun: &[u8]) -> u32
    requires { 2160 ≤ length begun.now }
    ensures { result ≡ heads.fields_in begun.now }
{
    u32_at(begun, 16)
}

/// Where the lanes' areas begin, of an image with so many fields.
pub fn areas_at(fields: u32) -> u64
    requires { fields ≤ 16384 }
    ensures { result ≡ 2160 + 24 * fields }
{
    (HEAD_BYTES + (GUARD_ROW_BYTES + CELL_BYTES as usize) * fields as usize) as u64
}

/// Whether a slot of the control counts that has a sequence.
pub fn has_control(begun: &[u8]) -> bool
    requires { 2160 ≤ length begun.now }
    ensures { IsFalse result ↔ HasNoControl begun.now }
{
    counts(begun, Slot::A) || counts(begun, Slot::B)
}

fn counts(begun: &[u8], slot: Slot) -> bool
    requires { 2160 ≤ length begun.now }
    ensures { IsFalse result ↔ (gate slot begun.now ≡ 165 → sequence_of (body slot begun.now) ≡ 0) }
{
    begun[slot.start() as usize] == OPEN && sequence_at(begun, slot) > 0
}

// The sequence with which the slot's body begins, whether or not the rest is a control's.
fn sequence_at(begun: &[u8], slot: Slot) -> u64
    requires { 2160 ≤ length begun.now }
    ensures { result ≡ sequence_of (body slot begun.now) }
{
    u64_at(begun, slot.start() as usize + 8)
}

/// The layout whose header they begin with.
pub fn layout_in(begun: &[u8]) -> Option<Layout>
    requires { 2160 ≤ length begun.now }
    ensures some { IfSome result (HasHeader begun.now) }
    ensures none { IfNone result ((l : Shape) → HasHeader begun.now l → ⊥) }
{
    match decode_header(&header_in(begun)) {
        Some(layout) => Some(layout),
        None => None,
    }
}

fn header_in(begun: &[u8]) -> [u8; 64]
    requires { 2160 ≤ length begun.now }
    ensures { result ≡ part 0 64 begun.now }
{
    let mut bytes = [0; HEADER_BYTES];
    bytes.copy_from_slice(&begun[..HEADER_BYTES]);
    bytes
}
