//! A heap of version 1 and its upgrade.
ghost use Rattle.law_survival.specs.Upgrade.{SurvivesUpgrades, Upgrades};

use crate::laws::{again_law, has_study_law};
use block_disk::Disk;
use image::Recovered;
use recover::{RecoverError, Report, upgrade};
use std::alloc::Global;

/// Upgrades a device with what a crash left of a store of version 1, which had no transient fields, and of any tries to upgrade it.
///
/// **What survives.** The heap is that of the sections that were acknowledged, and of nothing else, each whole, with all that it
/// depends on. The same holds if an upgrade was tried before, any number of times, and each time a crash cut it off or the device
/// failed. Heap, report and reasons are those of the first try, until the control of version 2 shows: then nothing is left to keep
/// or to drop. However a try ends, another may follow.
///
/// The device is refused only if a call of it fails, memory runs out, or the control's sequence is at its last value; it comes there
/// only from within as many of that as there were tries. After each refusal but the first of these, nothing was done but a sync.
pub fn upgrade_left<E: Disk>(
    alloc: Global,
    left: E,
) -> Result<(Recovered<E>, Report), (E, RecoverError)>
    ensures survives { SurvivesUpgrades (E.device left).now.bytes result }
    ensures upgraded { Upgrades E.device left result }
{
    again_law();
    has_study_law();
    upgrade(alloc, left)
}
