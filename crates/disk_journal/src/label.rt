//! The label of a journaled device.
ghost use Rattle.std.specs.Prelude.{◌≡◌, ◌≤◌, ◌↔◌, ◌+◌, IfSome, IsTrue, None, length};
ghost use Rattle.std.specs.Int.{from_be_bytes, to_be_bytes, w64};
ghost use Rattle.block_disk.specs.Bytes.{part};
ghost use Rattle.journal_batches.specs.Areas.{room_of};
ghost use Rattle.disk_journal.specs.Labels.{HasLabel, HasNoLabel, label_bytes, label_sector};

use journal_batches::Areas;

/// How many bytes a label has.
pub const LABEL_BYTES: usize = 24;

/// The parts of a journaled device, by its first bytes; none where they are no label.
pub fn label_areas(bytes: &[u8]) -> Option<Areas>
    requires { 24 ≤ length bytes.now }
    ensures some { IfSome result (λ areas. HasLabel areas bytes.now) }
    ensures none { result ≡ None → HasNoLabel bytes.now }
{
    let areas = Areas {
        half: number_at(bytes, 8) as usize,
        image: number_at(bytes, 16) as usize,
    };
    let label = label_of(areas);
    if bytes[..LABEL_BYTES] != label[..] {
        return None;
    }
    Some(areas)
}

// The number in the eight bytes from `at` on.
pub(crate) fn number_at(bytes: &[u8], at: usize) -> u64
    requires { at + 8 ≤ length bytes.now }
    ensures { to_be_bytes w64 result ≡ part at 8 bytes.now }
{
    let eight = &bytes[at..at + 8];
    u64::from_be_bytes([
        eight[0], eight[1], eight[2], eight[3], eight[4], eight[5], eight[6], eight[7],
    ])
}

// The label of a device with these parts.
fn label_of(areas: Areas) -> [u8; 24]
    ensures { result ≡ label_bytes areas }
{
    let mut bytes = [0; LABEL_BYTES];
    bytes[..8].copy_from_slice(b"MONIHALF");
    bytes[8..16].copy_from_slice(&(areas.half as u64).to_be_bytes());
    bytes[16..].copy_from_slice(&(areas.image as u64).to_be_bytes());
    bytes
}

/// The first sector of a device with these parts.
pub(crate) fn sector_of(areas: Areas) -> [u8; 512]
    ensures { result ≡ label_sector areas }
{
    let mut bytes = [0; 512];
    bytes[..LABEL_BYTES].copy_from_slice(&label_of(areas));
    bytes
}

/// Whether a device of so many bytes has room for these parts, and a half a page.
pub fn has_room(areas: Areas, size: u64) -> bool
    ensures { IsTrue result ↔ ((room_of areas ≤ size) × (1 ≤ areas.half)) }
{
    let pages = size / 4096;
    let half = areas.half as u64;
    if half == 0 || half > pages / 2 {
        return false;
    }
    (areas.image as u64) < pages - 2 * half
}
