//! The row of a lane in a control (`docs/FORMAT.md`, "Control").
ghost use Rattle.std.specs.Prelude.{◌≡◌, ◌↔◌, ◌*◌, length, All, IsTrue};
ghost use Rattle.image_parts.specs.Rows.{FitsRow, IsRow, row_bytes, rows_bytes};

use crate::bytes::u64_at;

/// The bytes of a row.
const ROW_BYTES: usize = 32;

/// What counts of one lane's log. Places count the lane's records, from 0 at each open.
#[derive(Clone, Copy, Debug, PartialEq, Eq)]
pub struct LaneRow {
    /// The first live place.
    pub start: u64,
    /// The place after the acknowledged sections.
    pub settled: u64,
    /// The place after the last live record.
    pub logged: u64,
    /// The number of acknowledged sections since the last format or recovery.
    pub kept: u64,
}

impl LaneRow {
    /// The row of a log with nothing in it.
    pub const EMPTY: LaneRow = LaneRow {
        start: 0,
        settled: 0,
        logged: 0,
        kept: 0,
    };

    /// Whether a lane whose area holds `capacity` records may have this row.
    pub fn is_within(&self, capacity: u32) -> bool
        ensures { IsTrue result ↔ IsRow capacity self.now }
    {
        self.start <= self.settled
            && self.settled <= self.logged
            && self.logged <= 1 << 63
            && self.kept <= self.settled
            && self.logged - self.start <= u64::from(capacity)
    }
}

fn encode_row(row: &LaneRow, bytes: &mut [u8])
    requires { length bytes.old ≡ 32 }
    ensures { bytes.new ≡ row_bytes row.now }
{
    bytes[..8].copy_from_slice(&row.start.to_be_bytes());
    bytes[8..16].copy_from_slice(&row.settled.to_be_bytes());
    bytes[16..24].copy_from_slice(&row.logged.to_be_bytes());
    bytes[24..].copy_from_slice(&row.kept.to_be_bytes());
}

fn decode_row(bytes: &[u8]) -> LaneRow
    requires { length bytes.now ≡ 32 }
    ensures spelled { bytes.now ≡ row_bytes result }
    ensures fits { FitsRow result }
{
    LaneRow {
        start: u64_at(bytes, 0),
        settled: u64_at(bytes, 8),
        logged: u64_at(bytes, 16),
        kept: u64_at(bytes, 24),
    }
}

/// The bytes of these rows, one behind the other.
pub fn encode_rows(rows: &[LaneRow], bytes: &mut [u8])
    requires { length bytes.old ≡ 32 * length rows.now }
    ensures { bytes.new ≡ rows_bytes rows.now }
{
    for (i, row) in rows.iter().enumerate() {
        encode_row(row, &mut bytes[ROW_BYTES * i..ROW_BYTES * i + ROW_BYTES]);
    }
}

/// The rows of these bytes. Any bytes are those of some rows.
pub fn decode_rows(bytes: &[u8], rows: &mut [LaneRow])
    requires { length bytes.now ≡ 32 * length rows.old }
    ensures spelled { bytes.now ≡ rows_bytes rows.new }
    ensures fits { All FitsRow rows.new }
{
    for (i, row) in rows.iter_mut().enumerate() {
        *row = decode_row(&bytes[ROW_BYTES * i..ROW_BYTES * i + ROW_BYTES]);
    }
}
