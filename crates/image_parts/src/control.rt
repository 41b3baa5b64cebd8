//! The control of an image: what counts of each lane's log (`docs/FORMAT.md`, "Control").
ghost use Rattle.std.specs.Prelude.{◌≡◌, ◌↔◌, IfNone, IfSome, IsTrue};
ghost use Rattle.image_parts.specs.Control.{IsControl, Spells, control_bytes};
ghost use Rattle.image_parts.specs.Layout.{IsLayout};
ghost use Rattle.image_parts.specs.Slots.{IsBody};
ghost use Rattle.image_parts.specs.declared.control.Control.{Control as Content};

use crate::bytes::{u32_at, u64_at};
use crate::lane_row::{LaneRow, decode_rows, encode_rows};
use crate::layout::Layout;

/// How many rows a control has, one for each lane that an image can have.
pub const ROWS: usize = 32;

/// The bytes of a control.
pub const BODY_BYTES: usize = 1040;

/// The version of the format.
pub const VERSION: u32 = 2;

/// The version of images from before there were transient fields.
pub const OLD_VERSION: u32 = 1;

/// What counts of the logs of an image.
#[derive(Clone, Copy, Debug, PartialEq, Eq)]
pub struct Control {
    /// From 1. Where the gates of both slots are open, the control with the greater one counts.
    pub sequence: u64,
    /// The version of the format: [`VERSION`], or [`OLD_VERSION`] in an image from before there were transient fields.
    pub version: u32,
    /// By lane. The rows of lanes that the image doesn't have are empty.
    pub rows: [LaneRow; ROWS],
}

/// The bytes of the control.
pub fn encode_control(control: &Control, body: &mut [u8])
    requires { IsBody body.old }
    ensures { body.new ≡ control_bytes control.now }
{
    body[..8].copy_from_slice(&control.sequence.to_be_bytes());
    body[8..12].copy_from_slice(&control.version.to_be_bytes());
    body[12..16].fill(0);
    encode_rows(&control.rows, &mut body[16..]);
}

/// The control whose bytes these are, if an image of this layout may have one with these bytes.
pub fn decode_control(layout: &Layout, body: &[u8]) -> Option<Control>
    requires limits { IsLayout layout.now }
    requires long { IsBody body.now }
    ensures some { IfSome result (Spells layout.now body.now) }
    ensures none { IfNone result ((c : Content) → Spells layout.now body.now c → ⊥) }
{
    if u32_at(body, 12) != 0 {
        return None;
    }
    let mut control = Control {
        sequence: u64_at(body, 0),
        version: u32_at(body, 8),
        rows: [LaneRow::EMPTY; ROWS],
    };
    decode_rows(&body[16..], &mut control.rows);
    if !is_control(layout, &control) {
        return None;
    }
    Some(control)
}

fn is_control(layout: &Layout, control: &Control) -> bool
    requires { IsLayout layout.now }
    ensures { IsTrue result ↔ IsControl layout.now control.now }
{
    let (rows, rest) = control.rows.split_at(usize::from(layout.lanes));
    control.sequence >= 1
        && (control.version == VERSION || control.version == OLD_VERSION)
        && rows.iter().all(|row| row.is_within(layout.capacity))
        && rest.iter().all(|row| *row == LaneRow::EMPTY)
}
