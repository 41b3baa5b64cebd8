//! The label, with which a device of sectors in two places begins (docs/FORMAT.md, "Sectors in two places").
ghost use Rattle.std.specs.Prelude.{◌≡◌, ◌≤◌, [], ◌∷◌, IfNone, IfSome, length, take, OnOk};
ghost use Rattle.block_disk.specs.Since.{ReadsSameBut};
ghost use Rattle.disk_sectors.specs.Labels.{IsNoLabel, IsNoLabelOf, TellsCount, label_bytes};
ghost use Rattle.disk_sectors.specs.Places.{one_sector};
ghost use Rattle.disk_sectors.specs.Size.{bytes_in, place_of};

use crate::access::{put_sector, settle};
use crate::sectors::Sectors;
use crate::size::SectorSize;
use block_disk::Fault;

/// The bytes of a label. Those behind it in its sector mean nothing.
pub const LABEL_BYTES: usize = 16;

/// What a label says.
#[derive(Clone, Copy, Debug, PartialEq, Eq)]
pub struct Label {
    /// How many bytes a sector has.
    pub size: SectorSize,
    /// How many sectors the disk has in each of its two places.
    pub count: u64,
}

impl Label {
    /// The label with which these first bytes of a device begin. `None` where they begin with none, or are fewer than 16: what lies
    /// there is no disk in two places.
    pub fn read(head: &[u8]) -> Option<Label>
        // A label that is read is what the first bytes spell.
        ensures some { IfSome result (λ l. take 16 head.now ≡ label_bytes l.size l.count) }
        // Where no label is read, the first bytes spell none.
        ensures none { IfNone result (IsNoLabel (take 16 head.now)) }
    {
        let Some(spelled) = head.first_chunk::<LABEL_BYTES>() else {
            return None;
        };
        match read_as(spelled, SectorSize::Bytes512) {
            Some(label) => Some(label),
            None => read_as(spelled, SectorSize::Bytes4096),
        }
    }

    /// The label's bytes.
    pub fn bytes(self) -> [u8; 16]
        // A label's bytes are those of the documented layout.
        ensures { result ≡ label_bytes self.size self.count }
    {
        let mut bytes = [0; LABEL_BYTES];
        match self.size {
            SectorSize::Bytes512 => bytes[..8].copy_from_slice(b"MONI0512"),
            SectorSize::Bytes4096 => bytes[..8].copy_from_slice(b"MONI4096"),
        }
        bytes[8..].copy_from_slice(&self.count.to_be_bytes());
        bytes
    }
}

// The label of such sectors whose bytes these are. What they leave out is tested at once: a label has one spelling.
fn read_as(spelled: &[u8; 16], size: SectorSize) -> Option<Label>
    ensures some { IfSome result (λ l. (l.size ≡ size)
        × (spelled.now ≡ label_bytes l.size l.count)) }
    ensures none { IfNone result (IsNoLabelOf size spelled.now) }
{
    let label = Label {
        size,
        count: count_in(spelled),
    };
    if label.bytes() != *spelled {
        return None;
    }
    Some(label)
}

// The number behind the name.
fn count_in(label: &[u8; 16]) -> u64
    ensures { TellsCount label.now result }
{
    u64::from_be_bytes([
        label[8], label[9], label[10], label[11], label[12], label[13], label[14], label[15],
    ])
}

/// Makes the device begin with these bytes, durably.
pub(crate) fn put_label<S: Sectors>(
    sectors: &mut S,
    size: SectorSize,
    label: &[u8; 16],
) -> Result<(), Fault>
    requires size { S.of_size sectors.old ≡ size }
    requires fits { place_of size 2 ≤ length (S.device sectors.old).now.bytes }
    ensures durable { OnOk result ((S.device sectors.new).now.pending ≡ []) }
    ensures said { OnOk result (take 16 (S.device sectors.new).now.bytes ≡ label.now) }
    ensures same { ReadsSameBut (one_sector size 0 ∷ [])
        (S.device sectors.old) (S.device sectors.new) }
    ensures size { S.of_size sectors.new ≡ size }
{
    write_label(sectors, size, label)?;
    settle(sectors)
}

// Writes them, and zeros behind them in their sector.
fn write_label<S: Sectors>(sectors: &mut S, size: SectorSize, label: &[u8; 16]) -> Result<(), Fault>
    requires size { S.of_size sectors.old ≡ size }
    requires fits { place_of size 2 ≤ length (S.device sectors.old).now.bytes }
    ensures said { OnOk result (take 16 (S.device sectors.new).now.bytes ≡ label.now) }
    ensures same { ReadsSameBut (one_sector size 0 ∷ [])
        (S.device sectors.old) (S.device sectors.new) }
    ensures size { S.of_size sectors.new ≡ size }
{
    let mut room = [0u8; 4096];
    match size {
        SectorSize::Bytes512 => write_label_by(sectors, size, label, &mut room[..512]),
        SectorSize::Bytes4096 => write_label_by(sectors, size, label, &mut room),
    }
}

// The same, by way of these bytes.
fn write_label_by<S: Sectors>(
    sectors: &mut S,
    size: SectorSize,
    label: &[u8; 16],
    bytes: &mut [u8],
) -> Result<(), Fault>
    requires size { S.of_size sectors.old ≡ size }
    requires whole { length bytes.old ≡ bytes_in size }
    requires fits { place_of size 2 ≤ length (S.device sectors.old).now.bytes }
    ensures said { OnOk result (take 16 (S.device sectors.new).now.bytes ≡ label.now) }
    ensures same { ReadsSameBut (one_sector size 0 ∷ [])
        (S.device sectors.old) (S.device sectors.new) }
    ensures size { S.of_size sectors.new ≡ size }
{
    begin_with(label, bytes);
    put_sector(sectors, size, 0, bytes)
}

fn begin_with(label: &[u8; 16], bytes: &mut [u8])
    requires { 16 ≤ length bytes.old }
    ensures begun { take 16 bytes.new ≡ label.now }
    ensures count { length bytes.new ≡ length bytes.old }
{
    bytes[..16].copy_from_slice(label);
}
