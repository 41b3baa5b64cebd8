//! Numbers in bytes, the highest byte first.
ghost use Rattle.std.specs.Prelude.{◌≡◌, ◌+◌, ◌≤◌, length};
ghost use Rattle.std.specs.Int.{from_be_bytes, to_be_bytes, w16, w32, w64};
ghost use Rattle.block_disk.specs.Bytes.{part};

/// The number in the two bytes from `at` on.
pub fn u16_at(bytes: &[u8], at: usize) -> u16
    requires { at + 2 ≤ length bytes.now }
    ensures number { result ≡ from_be_bytes w16 (part at 2 bytes.now) }
    ensures spelled { to_be_bytes w16 result ≡ part at 2 bytes.now }
{
    let two = &bytes[at..at + 2];
    u16::from_be_bytes([two[0], two[1]])
}

/// The number in the four bytes from `at` on.
pub fn u32_at(bytes: &[u8], at: usize) -> u32
    requires { at + 4 ≤ length bytes.now }
    ensures number { result ≡ from_be_bytes w32 (part at 4 bytes.now) }
    ensures spelled { to_be_bytes w32 result ≡ part at 4 bytes.now }
{
    let four = &bytes[at..at + 4];
    u32::from_be_bytes([four[0], four[1], four[2], four[3]])
}

/// The number in the eight bytes from `at` on.
pub fn u64_at(bytes: &[u8], at: usize) -> u64
    requires { at + 8 ≤ length bytes.now }
    ensures number { result ≡ from_be_bytes w64 (part at 8 bytes.now) }
    ensures spelled { to_be_bytes w64 result ≡ part at 8 bytes.now }
{
    let eight = &bytes[at..at + 8];
    u64::from_be_bytes([
        eight[0], eight[1], eight[2], eight[3], eight[4], eight[5], eight[6], eight[7],
    ])
}
