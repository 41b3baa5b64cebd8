//! What the first bytes of a device say (`docs/FORMAT.md`, "Header", "Control" and "Making an image").
ghost use Rattle.std.specs.Prelude.{◌≡◌, ◌≤◌, ◌+◌, ◌*◌, ◌↔◌, IsFalse, IsTrue, length};
ghost use Rattle.image_parts.specs.Header.{IsFormatted};
ghost use Rattle.image_parts.specs.Layout.{IsLayout};
ghost use Rattle.zelamiku.specs.HeadDoors.{HasFirstControl, IsUnused, TellsHead, begun_head, damaged_head, no_head};
ghost use Rattle.zelamiku.specs.HeadDoors as doors;
ghost use Rattle.zelamiku.specs.declared.status.TheConstants.{NOT_FORMATTED};

use crate::status;
use crate::words::Head;
use heap_model::MOST_FIELDS;
use image::{
    HEAD_BYTES, Layout, areas_at, fields_in, has_control, is_formatted, is_named, layout_in,
};

// Slot A of a new image up to its rows: an open gate, seven zeros, sequence 1, version 2, four zeros.
const FIRST_CONTROL: [u8; 24] = [
    165, 0, 0, 0, 0, 0, 0, 0, 0, 0, 0, 0, 0, 0, 0, 1, 0, 0, 0, 2, 0, 0, 0, 0,
];

/// What these bytes say, with which a device begins, and the status.
pub fn told_of(begun: &[u8]) -> (Head, u32)
    ensures { TellsHead begun.now result.0 result.1 }
{
    if begun.len() < HEAD_BYTES {
        return (nothing(), status::TOO_SMALL);
    }
    if !is_formatted(begun) {
        return (unformatted(begun), status::NOT_FORMATTED);
    }
    match layout_in(begun) {
        Some(layout) => (head_of(layout), status::OK),
        None => (damaged(), status::BAD_HEADER),
    }
}

// What bytes say that don't begin with a name and an open gate.
fn unformatted(begun: &[u8]) -> Head
    requires room { 2160 ≤ length begun.now }
    requires shut { IsFormatted begun.now → ⊥ }
    ensures { TellsHead begun.now result NOT_FORMATTED }
{
    if !is_named(begun) {
        return nothing();
    }
    let fields = fields_in(begun);
    if fields > MOST_FIELDS as u32 || is_used(begun) {
        return damaged();
    }
    making(fields)
}

// Whether a control counts that no making has written.
fn is_used(begun: &[u8]) -> bool
    requires { 2160 ≤ length begun.now }
    ensures { IsFalse result ↔ IsUnused begun.now }
{
    has_control(begun) && !has_first_control(begun)
}

// Whether slot A has the control with which an image is made, and slot B has zeros, as before a heap's first round.
fn has_first_control(begun: &[u8]) -> bool
    requires { 2160 ≤ length begun.now }
    ensures { IsTrue result ↔ HasFirstControl begun.now }
{
    begun[64..88] == FIRST_CONTROL[..] && begun[88..HEAD_BYTES].iter().all(|byte| *byte == 0)
}

/// No head.
pub fn nothing() -> Head
    ensures { result ≡ no_head }
{
    making_of(0)
}

fn damaged() -> Head
    ensures { result ≡ damaged_head }
{
    Head {
        is_damaged: 1,
        ..nothing()
    }
}

// What is said of a heap with so many fields that was being made.
fn making(fields: u32) -> Head
    requires { fields ≤ 16384 }
    ensures { result ≡ begun_head (2160 + 24 * fields) }
{
    making_of(areas_at(fields))
}

fn making_of(zeros_from: u64) -> Head
    ensures { result ≡ begun_head zeros_from }
{
    Head {
        size: 0,
        zeros_from,
        objects: 0,
        fields: 0,
        lanes: 0,
        capacity: 0,
        is_damaged: 0,
    }
}

/// The head of an image of this layout.
pub fn head_of(layout: Layout) -> Head
    requires { IsLayout layout }
    ensures { result ≡ doors.head_of layout }
{
    Head {
        size: layout.size(),
        zeros_from: 0,
        objects: layout.objects,
        fields: layout.fields,
        lanes: u32::from(layout.lanes),
        capacity: layout.capacity,
        is_damaged: 0,
    }
}
