//! Making a journaled device.
ghost use Rattle.std.specs.Prelude.{◌≡◌, ◌⊎◌, ◌+◌, ◌*◌, ◌<◌, ◌≤◌, ℕ, [], false, drop, length, replicate, slice_index, OnErr, OnOk};
ghost use Rattle.block_disk.specs.Bytes.{spliced};
ghost use Rattle.block_disk.specs.Since.{HasFailedSince};
ghost use Rattle.atomic_sectors.specs.Left.{LeavesWhole, MakesSyncs};
ghost use Rattle.journal_batches.specs.Areas.{image_bytes, room_of};
ghost use Rattle.journal_batches.specs.Shown.{shown};
ghost use Rattle.disk_journal.specs.Labels.{HasLabel};
ghost use Rattle.disk_journal.specs.Made.{ChangesArea, ChangesHead, IsLaid};
ghost use Rattle.disk_journal.specs.Stands.{IsAllHome, IsMadeWithin};

use crate::label::sector_of;
use crate::pages::{PAGE, flush, write_batch};
use atomic_sectors::UntornDisk;
use block_disk::{Disk, Fault};
use journal_batches::Areas;

/// Makes the device stand for zeros, and begin with the label of one that does. It has no label until then, whatever it had before.
pub(crate) fn make_journal<D: UntornDisk>(disk: &mut D, areas: Areas) -> Result<(), Fault>
    requires room { room_of areas ≤ length (D.device disk.old).now.bytes }
    requires half { 1 ≤ areas.half }
    ensures label { OnOk result (HasLabel areas (D.device disk.new).now.bytes) }
    ensures image { OnOk result (shown areas (D.device disk.new).now.bytes ≡ replicate (image_bytes areas) 0) }
    ensures home { OnOk result (IsAllHome areas false 2 (D.device disk.new)) }
    ensures syncs { OnOk result (MakesSyncs 4 (D.device disk.old) (D.device disk.new)) }
    ensures steady { OnOk result ((D.device disk.new).failures ≡ (D.device disk.old).failures) }
    // A making that begins with nothing pending and is cut off leaves no label, or the disk. What lies behind the disk stays.
    ensures left { (D.device disk.old).now.pending ≡ []
        → LeavesWhole (D.device disk.old) (D.device disk.new) (IsMadeWithin areas (D.device disk.old).now.bytes) }
    // A making changes no byte behind the disk's.
    ensures beyond { drop (room_of areas) (D.device disk.new).now.bytes ≡ drop (room_of areas) (D.device disk.old).now.bytes }
    ensures cause { OnErr result (HasFailedSince (D.device disk.old) (D.device disk.new)) }
{
    write_head(disk, &[0; 512])?;
    lay(disk, areas)?;
    write_head(disk, &sector_of(areas))
}

// Writes the first sector, durably.
fn write_head<D: UntornDisk>(disk: &mut D, sector: &[u8; 512]) -> Result<(), Fault>
    requires { 512 ≤ length (D.device disk.old).now.bytes }
    ensures ok { OnOk result ((D.device disk.new).now.bytes ≡ spliced (D.device disk.old).now.bytes 0 sector.now) }
    ensures durable { OnOk result ((D.device disk.new).now.pending ≡ []) }
    ensures head { ChangesHead sector.now (D.device disk.old) (D.device disk.new) }
    ensures syncs { OnOk result (MakesSyncs 1 (D.device disk.old) (D.device disk.new)) }
    ensures steady { OnOk result ((D.device disk.new).failures ≡ (D.device disk.old).failures) }
    ensures cause { OnErr result (HasFailedSince (D.device disk.old) (D.device disk.new)) }
{
    disk.write_untorn(0, sector)?;
    flush(disk)
}

// Writes zeros to the halves and the image's place, and an empty batch to the first half, durably.
fn lay<D: UntornDisk>(disk: &mut D, areas: Areas) -> Result<(), Fault>
    requires room { room_of areas ≤ length (D.device disk.old).now.bytes }
    requires half { 1 ≤ areas.half }
    ensures ok { OnOk result (IsLaid areas (D.device disk.new).now.bytes) }
    ensures durable { OnOk result ((D.device disk.new).now.pending ≡ []) }
    ensures area { ChangesArea areas (D.device disk.old) (D.device disk.new) }
    ensures syncs { OnOk result (MakesSyncs 2 (D.device disk.old) (D.device disk.new)) }
    ensures steady { OnOk result ((D.device disk.new).failures ≡ (D.device disk.old).failures) }
    ensures cause { OnErr result (HasFailedSince (D.device disk.old) (D.device disk.new)) }
{
    fill(disk, areas)?;
    flush(disk)?;
    write_batch(disk, areas, false, 2, &[])?;
    flush(disk)
}

// Writes zeros to the halves and the image's place, page by page.
fn fill<D: UntornDisk>(disk: &mut D, areas: Areas) -> Result<(), Fault>
    requires room { room_of areas ≤ length (D.device disk.old).now.bytes }
    ensures ok { OnOk result ((i : ℕ) → 4096 ≤ i → i < room_of areas → slice_index (D.device disk.new).now.bytes i ≡ 0) }
    ensures area { ChangesArea areas (D.device disk.old) (D.device disk.new) }
    ensures syncs { OnOk result (MakesSyncs 0 (D.device disk.old) (D.device disk.new)) }
    ensures steady { OnOk result ((D.device disk.new).failures ≡ (D.device disk.old).failures) }
    ensures cause { OnErr result (HasFailedSince (D.device disk.old) (D.device disk.new)) }
{
    let _size = disk.size();
    let pages = 2 * areas.half + areas.image;
    for page in 0..pages {
        disk.write_untorn((PAGE + page * PAGE) as u64, &[0; PAGE])?;
    }
    Ok(())
}
