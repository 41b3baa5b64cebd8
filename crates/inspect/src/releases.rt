//! The live releases of a study, by object and number.
ghost use Rattle.std.specs.Prelude.{◌≡◌, ◌+◌, ◌<◌, ◌≤◌, ◌^◌, ◌++◌, ℕ, List, IfOk, OnOk, OnErr, length, reverse};
ghost use Rattle.undo_log.specs.StandsFor.{row_of};
ghost use Rattle.recover_heap.specs.Logs.{records_of};
ghost use Rattle.inspect.specs.Sections.{told};
ghost use Rattle.inspect.specs.Links.{Release, Tells, finds, releases_of, released_by};
ghost use Rattle.recover.specs.Fits.{FitsNumbers};

use crate::lanes::records_in;
use crate::numbering::{Numbering, lane_numbering};
use crate::section::SectionId;
use heap_model::{Lane, ObjectId, UndoRecord};
use recover::Study;
use recover_logs::LaneCount;
use std::alloc::{AllocError, Global};
use std::collections::BTreeMap;

/// Which section released an object, by the object's number, at which number.
pub(crate) type Releases = BTreeMap<(u32, u64), SectionId>;

/// The section that released the object at this number.
pub(crate) fn releaser(releases: &Releases, object: ObjectId, number: u64) -> Option<SectionId>
    ensures { result ≡ finds releases.now object.0 number }
{
    releases.get(&(object.0, number)).copied()
}

/// All live releases of the study. It fails only where there are some.
pub(crate) fn releases_in(alloc: Global, study: &Study) -> Result<Releases, AllocError>
    requires { FitsNumbers study.now }
    ensures ok { IfOk result (λ releases. Tells releases (releases_of study.now)) }
    ensures no_memory { OnErr result (0 < length (releases_of study.now)) }
{
    let mut releases = BTreeMap::new(alloc);
    for lane in 0..study.layout.lanes {
        let numbering = lane_numbering(study, Lane(lane));
        note_lane(
            &mut releases,
            numbering,
            records_in(&study.records, Lane(lane)),
        )?;
    }
    Ok(releases)
}

fn note_lane(
    releases: &mut Releases,
    numbering: Numbering,
    records: &[UndoRecord],
) -> Result<(), AllocError>
    requires { numbering.first + length records.now < 2 ^ 64 }
    ensures ok { OnOk result ((older : List Release) → Tells releases.old older → Tells releases.new (older ++ told (released_by numbering) (reverse records.now))) }
    ensures no_memory { OnErr result (0 < length (told (released_by numbering) (reverse records.now))) }
{
    let mut gone = LaneCount::new();
    for entry in records {
        note_release(releases, numbering, gone, *entry)?;
        gone = gone.after(*entry);
    }
    Ok(())
}

// Notes the record if it is a release.
fn note_release(
    releases: &mut Releases,
    numbering: Numbering,
    gone: LaneCount,
    entry: UndoRecord,
) -> Result<(), AllocError>
    requires { numbering.first + gone.ended < 2 ^ 64 }
    ensures ok { OnOk result ((older : List Release) → Tells releases.old older → Tells releases.new (older ++ released_by numbering gone entry)) }
    ensures no_memory { OnErr result (0 < length (released_by numbering gone entry)) }
{
    match entry {
        UndoRecord::Rel { object, number } | UndoRecord::WaitRel { object, number } => {
            releases.insert((object.0, number), numbering.section(gone.ended))?;
            Ok(())
        }
        UndoRecord::Acq { .. } | UndoRecord::Put { .. } => Ok(()),
    }
}
