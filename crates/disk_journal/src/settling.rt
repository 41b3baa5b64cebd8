//! From one image to the next: by one flush where the words fit into a batch, else by three.
ghost use Rattle.std.specs.Prelude.{◌≡◌, ◌+◌, ◌≤◌, not, suc, List, ℕ, [], length, OnErr, OnOk};
ghost use Rattle.block_disk.specs.Since.{HasFailedSince};
ghost use Rattle.atomic_sectors.specs.Left.{LeavesWhole, MakesSyncs};
ghost use Rattle.journal_batches.specs.Areas.{room_of};
ghost use Rattle.journal_batches.specs.Batches.{AllUpTo};
ghost use Rattle.journal_batches.specs.Entries.{AreOf, replayed};
ghost use Rattle.journal_batches.specs.Shown.{newest_half, shown};
ghost use Rattle.journal_batches.specs.Spelled.{CanSpell};
ghost use Rattle.disk_journal.specs.Stands.{IsAllHome, IsAtRest, StandsMixed, StandsStill, StandsTurned};
ghost use Rattle.disk_journal.specs.Steps.{AreWordPlaces, BringsHome};

use crate::pages::{bring_home, flush, write_batch};
use atomic_sectors::UntornDisk;
use block_disk::Fault;
use journal_batches::{Areas, Entry};

/// A turn: the last batch's words go to their places and the next batch to the other half, by one flush.
pub(crate) fn turn<D: UntornDisk>(
    disk: &mut D,
    areas: Areas,
    second: bool,
    stamp: u64,
    last: &[Entry],
    next: &[Entry],
) -> Result<(), Fault>
    requires rest { IsAtRest areas second stamp last.now (D.device disk.old) }
    requires places { AreWordPlaces last.now }
    requires spells { CanSpell areas (suc stamp) next.now }
    requires own { AreOf (replayed next.now (shown areas (D.device disk.old).now.bytes)) next.now }
    // A crash at any moment of a turn leaves what stands for the image of before or for the one of after, whatever the turn answers.
    ensures left { LeavesWhole (D.device disk.old) (D.device disk.new) (StandsTurned areas next.now (D.device disk.old).now.bytes) }
    ensures image { OnOk result (shown areas (D.device disk.new).now.bytes ≡ replayed next.now (shown areas (D.device disk.old).now.bytes)) }
    ensures rest { OnOk result (IsAtRest areas (not second) (suc stamp) next.now (D.device disk.new)) }
    // A turn makes one flush.
    ensures one_sync { OnOk result (MakesSyncs 1 (D.device disk.old) (D.device disk.new)) }
    // No call of one that succeeds has failed.
    ensures steady { OnOk result ((D.device disk.new).failures ≡ (D.device disk.old).failures) }
    ensures cause { OnErr result (HasFailedSince (D.device disk.old) (D.device disk.new)) }
{
    write_batch(disk, areas, !second, stamp + 1, next)?;
    bring_home(disk, areas, last)?;
    flush(disk)
}

/// Brings the image to its place, and then clears the journal: by two flushes. The entries are the image's own, and all in which its place differs.
pub(crate) fn clear<D: UntornDisk>(
    disk: &mut D,
    areas: Areas,
    second: bool,
    top: u64,
    entries: &[Entry],
) -> Result<(), Fault>
    requires room { room_of areas ≤ length (D.device disk.old).now.bytes }
    requires durable { (D.device disk.old).now.pending ≡ [] }
    requires newest { newest_half areas (D.device disk.old).now.bytes ≡ second }
    requires top { AllUpTo areas top (D.device disk.old).now.bytes }
    requires spells { CanSpell areas (top + 2) [] }
    requires places { AreWordPlaces entries.now }
    requires brings { BringsHome areas (shown areas (D.device disk.old).now.bytes) entries.now (D.device disk.old) }
    // A crash at any moment of it leaves what stands for the same image.
    ensures left { LeavesWhole (D.device disk.old) (D.device disk.new) (StandsStill areas (D.device disk.old).now.bytes) }
    ensures image { OnOk result (shown areas (D.device disk.new).now.bytes ≡ shown areas (D.device disk.old).now.bytes) }
    ensures home { OnOk result (IsAllHome areas (not second) (top + 2) (D.device disk.new)) }
    ensures two_syncs { OnOk result (MakesSyncs 2 (D.device disk.old) (D.device disk.new)) }
    ensures steady { OnOk result ((D.device disk.new).failures ≡ (D.device disk.old).failures) }
    ensures cause { OnErr result (HasFailedSince (D.device disk.old) (D.device disk.new)) }
{
    bring_home(disk, areas, entries)?;
    flush(disk)?;
    write_batch(disk, areas, !second, top + 2, &[])?;
    flush(disk)
}

/// Writes words past the journal, once nothing is to be replayed: by one flush, of which a crash may leave a part.
pub(crate) fn pass<D: UntornDisk>(
    disk: &mut D,
    areas: Areas,
    second: bool,
    stamp: u64,
    entries: &[Entry],
) -> Result<(), Fault>
    requires home { IsAllHome areas second stamp (D.device disk.old) }
    requires places { AreWordPlaces entries.now }
    // Of entries that are an image's own, and all in which it differs: a crash at any moment leaves what stands for bytes of both images.
    ensures left { (image : List ℕ) → BringsHome areas image entries.now (D.device disk.old)
        → LeavesWhole (D.device disk.old) (D.device disk.new) (StandsMixed areas image (D.device disk.old).now.bytes) }
    ensures image { (image : List ℕ) → BringsHome areas image entries.now (D.device disk.old)
        → OnOk result (shown areas (D.device disk.new).now.bytes ≡ image) }
    ensures home { (image : List ℕ) → BringsHome areas image entries.now (D.device disk.old)
        → OnOk result (IsAllHome areas second stamp (D.device disk.new)) }
    ensures one_sync { OnOk result (MakesSyncs 1 (D.device disk.old) (D.device disk.new)) }
    ensures steady { OnOk result ((D.device disk.new).failures ≡ (D.device disk.old).failures) }
    ensures cause { OnErr result (HasFailedSince (D.device disk.old) (D.device disk.new)) }
{
    bring_home(disk, areas, entries)?;
    flush(disk)
}
