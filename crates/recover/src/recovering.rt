//! Recovering an image, or upgrading it: old values are put back, and then nothing counts of what was logged.
ghost use Rattle.std.specs.Prelude.{◌≡◌, ◌-◌, ◌<◌, ◌≤◌, ◌^◌, [], IfErr, IfOk, OnErr, OnOk};
ghost use Rattle.block_disk.specs.Device.{SameMoments};
ghost use Rattle.block_disk.specs.Images.{LeavesOnly};
ghost use Rattle.block_disk.specs.Since.{HasCauseSince};
ghost use Rattle.recover.specs.Reading.{IsOfOldVersion};
ghost use Rattle.recover.specs.Recovery.{EndsOnTheWay, FindsRecoverable, HasOnlySynced, IsCaused, IsCutOff, IsMadeBy, IsOnTheWay, IsRecoveredFrom, IsRecovery, IsTooOld, RefusesOf, RefusesRecovery, RefusesUpgrade, LeavesTooOld, StaysOnTheWay, finished_on};
ghost use Rattle.recover.specs.Study.{AreUndoneOf, IsStudyOf};
ghost use Rattle.recover_heap.specs.declared.error.RecoverError.TheVariants.{Fault};
ghost use Rattle.recover.specs.declared.versions.Versions.TheVariants.{Current};

use crate::ending::end_recovery;
use crate::findings::Findings;
use crate::reading::read_front;
use crate::report::Report;
use crate::studied::Study;
use crate::studying::find_out;
use crate::version::test_version;
use crate::versions::Versions;
use block_disk::Disk;
use image::Recovered;
use recover_heap::{RecoverError, put_back, sync};
use std::alloc::Global;

/// Recovers the image on the device, of which nothing has to be known: puts the old values back, and then commits a
/// control with empty logs and the next sequence. It gives the recovered device, and what was kept and dropped.
///
/// The calls that change the device are a sync; a write of the home cell of each field that takes an old value back, by
/// number; a sync; and a commit. Once the first sync was answered, whatever a crash leaves stands for the same heap, so
/// that another recovery gives it again, and the same report until the new control shows.
///
/// Refusals, in this order, each with the device (docs/FORMAT.md, "Which image is refused"); but for the last nothing
/// was done but the first sync:
/// - `NotFormatted`, `BadHeader`, `TooSmall`, `NoControl`, `BadControl`: as of [`study`](crate::study);
/// - `OldVersion`: the control is of version 1; [`upgrade`] takes such an image;
/// - `Worn`: the control's sequence is at its last value, 2^64 - 1, so that no other can be committed;
/// - `BadRecord`, `IllegalLog`: as of [`study`](crate::study);
/// - `NoMemory`: there was no room for what is read or found;
/// - `Fault`: a call of the device failed. The image may be recovered again.
pub fn recover<D: Disk>(alloc: Global, disk: D) -> Result<(Recovered<D>, Report), (D, RecoverError)>
    // Recovery gives the heap and the report of the study, by a sync, a write for each field that takes an old value
    // back, a sync and a commit.
    ensures ok { IfOk result (λ r. IsRecovery (D.device disk) (D.device r.0.disk) r.0 r.1) }
    // An image of version 1 isn't recovered.
    ensures current { OnOk result (IsOfOldVersion (D.device disk).now.bytes → ⊥) }
    // At every moment of recovery, from its first sync on, every image has the same study, report included, or that of
    // the recovered image, which has the same heap.
    ensures any_moment { IfOk result (λ r. StaysOnTheWay (D.device disk) (D.device r.0.disk)) }
    // Recovery refuses an image by the first of the documented reasons. An image of version 1 with nothing else wrong
    // is refused as old.
    ensures refused { IfErr result (λ back. RefusesRecovery (D.device disk).now.bytes back.1) }
    // A recovery that is refused has done nothing but a sync, unless it is refused by a fault.
    ensures untouched { IfErr result (λ back. HasOnlySynced (D.device disk) (D.device back.0) back.1) }
    // Whatever a crash leaves of a recovery that was refused has the same study, or that of the recovered image. So
    // another recovery gives the same heap.
    ensures interrupted { IfErr result (λ back. EndsOnTheWay (D.device disk) (D.device back.0)) }
    // After a recovery that was refused nothing was done, or a sync alone, or only images on its way were left.
    ensures cut_off { IfErr result (λ back. IsCutOff (D.device disk) (D.device back.0)) }
    // A recovery of an image of version 1 has done nothing but a sync, a fault included.
    ensures too_old { IfErr result (λ back. LeavesTooOld Current (D.device disk) (D.device back.0)) }
    // Recovery answers a fault only where the device has failed.
    ensures cause { IfErr result (λ back. IsCaused (D.device disk) (D.device back.0) back.1) }
    // The count of the device's failures doesn't fall over a recovery.
    ensures failures { IfOk result (λ r. (D.device disk).failures ≤ (D.device r.0.disk).failures) }
{
    recover_of(alloc, disk, Versions::Current)
}

/// Makes the image on the device, of which nothing has to be known, one of the current version, in place. An image of
/// version 1 is from before there were transient fields. Its records are read, and its old values are put back under the old
/// control. Then a control of version 2 is committed, with empty logs and the next sequence; all its fields are persistent.
/// An image of version 2 is recovered as [`recover`] does it.
///
/// The calls of the device are those of [`recover`]. Once the first sync was answered, whatever a crash leaves stands for the
/// same heap, under the old control or under the new one. So it may be run again after any crash and after any refusal.
///
/// The refusals are those of [`recover`], in the same order and leaving the same, but that no image is of an old version.
pub fn upgrade<D: Disk>(alloc: Global, disk: D) -> Result<(Recovered<D>, Report), (D, RecoverError)>
    // An upgrade recovers an image of either version, with the calls of a recovery. Its last commit has version 2.
    ensures ok { IfOk result (λ r. IsRecovery (D.device disk) (D.device r.0.disk) r.0 r.1) }
    // At every moment of an upgrade, from its first sync on, every image has the same study under the version that it
    // had, or that of the upgraded image, with the same heap.
    ensures any_moment { IfOk result (λ r. StaysOnTheWay (D.device disk) (D.device r.0.disk)) }
    // An upgrade refuses what recovery refuses, in the same order, but no image as too old.
    ensures refused { IfErr result (λ back. RefusesUpgrade (D.device disk).now.bytes back.1) }
    ensures untouched { IfErr result (λ back. HasOnlySynced (D.device disk) (D.device back.0) back.1) }
    // Whatever a crash leaves of an upgrade that was refused has the same study, or that of the upgraded image. So it
    // may be run again.
    ensures interrupted { IfErr result (λ back. EndsOnTheWay (D.device disk) (D.device back.0)) }
    // After an upgrade that was refused nothing was done, or a sync alone, or only images on its way were left.
    ensures cut_off { IfErr result (λ back. IsCutOff (D.device disk) (D.device back.0)) }
    ensures cause { IfErr result (λ back. IsCaused (D.device disk) (D.device back.0) back.1) }
    ensures failures { IfOk result (λ r. (D.device disk).failures ≤ (D.device r.0.disk).failures) }
{
    recover_of(alloc, disk, Versions::Both)
}

/// What [`recover`] does of an image of the current version, and [`upgrade`] of either: the one of them that takes these
/// versions.
pub fn recover_of<D: Disk>(
    alloc: Global,
    disk: D,
    versions: Versions,
) -> Result<(Recovered<D>, Report), (D, RecoverError)>
    ensures ok { IfOk result (λ r. IsRecovery (D.device disk) (D.device r.0.disk) r.0 r.1) }
    ensures taken { OnOk result (IsTooOld versions (D.device disk).now.bytes → ⊥) }
    ensures any_moment { IfOk result (λ r. StaysOnTheWay (D.device disk) (D.device r.0.disk)) }
    ensures refused { IfErr result (λ back. RefusesOf versions (D.device disk).now.bytes back.1) }
    ensures untouched { IfErr result (λ back. HasOnlySynced (D.device disk) (D.device back.0) back.1) }
    ensures interrupted { IfErr result (λ back. EndsOnTheWay (D.device disk) (D.device back.0)) }
    ensures cut_off { IfErr result (λ back. IsCutOff (D.device disk) (D.device back.0)) }
    ensures too_old { IfErr result (λ back. LeavesTooOld versions (D.device disk) (D.device back.0)) }
    ensures cause { IfErr result (λ back. IsCaused (D.device disk) (D.device back.0) back.1) }
    ensures failures { IfOk result (λ r. (D.device disk).failures ≤ (D.device r.0.disk).failures) }
{
    let mut disk = disk;
    match recover_in_place(alloc, &mut disk, versions) {
        Ok(study) => {
            let sequence = study.control.sequence + 1;
            let recovered = Recovered::of(
                disk,
                study.layout,
                study.guards,
                study.slot.other(),
                sequence,
                study.heap,
            );
            Ok((recovered, study.report))
        }
        Err(error) => Err((disk, error)),
    }
}

// Recovers the image, and gives the study of it as it was before.
fn recover_in_place<D: Disk>(
    alloc: Global,
    disk: &mut D,
    versions: Versions,
) -> Result<Study, RecoverError>
    ensures ok { IfOk result (λ s. IsStudyOf (D.device disk.old).now.bytes s) }
    ensures taken { OnOk result (IsTooOld versions (D.device disk.old).now.bytes → ⊥) }
    ensures recovered { IfOk result (λ s. IsRecoveredFrom (D.device disk.new) s) }
    ensures not_worn { IfOk result (λ s. s.control.sequence < 2 ^ 64 - 1) }
    ensures made { IfOk result (λ s. IsMadeBy s (D.device disk.old) (D.device disk.new)) }
    ensures any_moment { OnOk result (StaysOnTheWay (D.device disk.old) (D.device disk.new)) }
    ensures refused { IfErr result (RefusesOf versions (D.device disk.old).now.bytes) }
    ensures untouched { IfErr result (HasOnlySynced (D.device disk.old) (D.device disk.new)) }
    ensures interrupted { OnErr result (EndsOnTheWay (D.device disk.old) (D.device disk.new)) }
    ensures cut_off { OnErr result (IsCutOff (D.device disk.old) (D.device disk.new)) }
    ensures too_old { OnErr result (LeavesTooOld versions (D.device disk.old) (D.device disk.new)) }
    ensures cause { HasCauseSince (D.device disk.old) (D.device disk.new) Fault result }
{
    // What is read has to be what another crash would leave.
    sync(disk)?;
    let found = find_recoverable(alloc, disk, versions)?;
    finish(disk, &found)?;
    Ok(found.study)
}

// Finds out whether the image can be recovered, and what that takes.
fn find_recoverable<D: Disk>(
    alloc: Global,
    disk: &mut D,
    versions: Versions,
) -> Result<Findings, RecoverError>
    ensures exact { FindsRecoverable versions (D.device disk.old).now.bytes result }
    ensures taken { OnOk result (IsTooOld versions (D.device disk.old).now.bytes → ⊥) }
    ensures undone { IfOk result (λ found. AreUndoneOf found.study found.undone.items) }
    ensures not_worn { IfOk result (λ found. found.study.control.sequence < 2 ^ 64 - 1) }
    ensures same { SameMoments (D.device disk.old) (D.device disk.new) }
    ensures cause { HasCauseSince (D.device disk.old) (D.device disk.new) Fault result }
{
    let front = read_front(alloc, disk)?;
    test_version(&front.control, versions)?;
    // The end has to commit a control, so this comes before anything is written.
    if front.control.sequence == u64::MAX {
        return Err(RecoverError::Worn);
    }
    find_out(alloc, disk, front)
}

// Puts the old values back, and ends the recovery.
fn finish<D: Disk>(disk: &mut D, found: &Findings) -> Result<(), RecoverError>
    requires study { IsStudyOf (D.device disk.old).now.bytes found.now.study }
    requires undone { AreUndoneOf found.now.study found.now.undone.items }
    requires sequence { found.now.study.control.sequence < 2 ^ 64 - 1 }
    requires durable { (D.device disk.old).now.pending ≡ [] }
    ensures ok { OnOk result (IsRecoveredFrom (D.device disk.new) found.now.study) }
    ensures calls { OnOk result (D.device disk.new
        ≡ finished_on found.now.study found.now.undone.items (D.device disk.old)) }
    ensures only_fault { IfErr result (λ e. e ≡ Fault) }
    ensures any_moment { LeavesOnly (D.device disk.old) (D.device disk.new)
        (IsOnTheWay found.now.study) }
    ensures cause { HasCauseSince (D.device disk.old) (D.device disk.new) Fault result }
{
    let study = &found.study;
    put_back(disk, &study.layout, &study.heap, &found.undone)?;
    end_recovery(disk, &study.layout, study.slot, study.control.sequence)?;
    Ok(())
}
