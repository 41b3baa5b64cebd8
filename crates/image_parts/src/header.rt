//! The header of an image (`docs/FORMAT.md`, "Header").
ghost use Rattle.std.specs.Prelude.{◌≡◌, IfNone, IfSome};
ghost use Rattle.block_disk.specs.Device.{SameMoments};
ghost use Rattle.block_disk.specs.Since.{HasCauseSince};
ghost use Rattle.image_parts.specs.Header.{ReadsHeader, header_bytes};
ghost use Rattle.image_parts.specs.Layout.{IsLayout};
ghost use Rattle.image_parts.specs.declared.error.HeaderError.TheVariants.{Fault};
ghost use Rattle.image_parts.specs.declared.layout.Layout.{Layout as Shape};

use crate::bytes::u32_at;
use crate::error::HeaderError;
use crate::layout::Layout;
use block_disk::{Disk, read_within};

/// The bytes of a header.
pub const HEADER_BYTES: usize = 64;

/// A gate that is open; any other byte is a closed one. A header, and a slot of the control, counts while it is open.
pub const OPEN: u8 = 0xa5;

/// Where the header's gate lies.
pub const GATE_AT: u64 = 8;

/// A gate that is closed.
pub const CLOSED: u8 = 0;

/// The first bytes of an image: its name and the open gate.
pub const FORMATTED: [u8; 9] = *b"MONIHEAP\xa5";

/// The bytes of the layout's header, with the gate open.
pub fn encode_header(layout: &Layout) -> [u8; 64]
    requires { IsLayout layout.now }
    ensures { result ≡ header_bytes layout.now }
{
    let mut bytes = [0; HEADER_BYTES];
    bytes[..8].copy_from_slice(b"MONIHEAP");
    bytes[8] = OPEN;
    bytes[9] = layout.lanes;
    bytes[12..16].copy_from_slice(&layout.objects.to_be_bytes());
    bytes[16..20].copy_from_slice(&layout.fields.to_be_bytes());
    bytes[20..24].copy_from_slice(&layout.capacity.to_be_bytes());
    bytes[24..32].copy_from_slice(&layout.size().to_be_bytes());
    bytes
}

// The numbers at the places of a layout's.
fn candidate(bytes: &[u8; 64]) -> Layout
    ensures { (l : Shape) → IsLayout l → bytes.now ≡ header_bytes l → result ≡ l }
{
    Layout {
        objects: u32_at(bytes, 12),
        fields: u32_at(bytes, 16),
        lanes: bytes[9],
        capacity: u32_at(bytes, 20),
    }
}

/// The layout whose header these bytes are. What they leave out is tested at once: a layout has one header.
pub fn decode_header(bytes: &[u8; 64]) -> Option<Layout>
    ensures some { IfSome result (λ l. (bytes.now ≡ header_bytes l) × IsLayout l) }
    ensures none { IfNone result ((l : Shape) → IsLayout l → bytes.now ≡ header_bytes l → ⊥) }
{
    let layout = candidate(bytes);
    if !layout.is_within_limits() {
        return None;
    }
    if encode_header(&layout) != *bytes {
        return None;
    }
    Some(layout)
}

/// The layout of the image on the device, in one read.
///
/// Refusals, in this order; the device is left as it was:
/// - `NotFormatted`: the device has fewer than 64 bytes, the name isn't there, or the gate is closed;
/// - `BadHeader`: a number is out of its limits, a byte that has to be zero isn't, or the size isn't the layout's;
/// - `TooSmall`: the device is smaller than that size.
///
/// `Fault` comes where the read fails.
pub fn read_header<D: Disk>(disk: &mut D) -> Result<Layout, HeaderError>
    // Any bytes are refused as a header exactly where the definition says, and else give the one layout that they
    // spell.
    ensures exact { ReadsHeader (D.device disk.old).now.bytes result }
    ensures same { SameMoments (D.device disk.old) (D.device disk.new) }
    ensures cause { HasCauseSince (D.device disk.old) (D.device disk.new) Fault result }
{
    if disk.size() < HEADER_BYTES as u64 {
        return Err(HeaderError::NotFormatted);
    }
    let mut bytes = [0; HEADER_BYTES];
    read_within(disk, 0, &mut bytes)?;
    if bytes[..9] != FORMATTED[..] {
        return Err(HeaderError::NotFormatted);
    }
    let Some(layout) = decode_header(&bytes) else {
        return Err(HeaderError::BadHeader);
    };
    if disk.size() < layout.size() {
        return Err(HeaderError::TooSmall);
    }
    Ok(layout)
}
