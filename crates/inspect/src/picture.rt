//! What of a study is drawn.
ghost use Rattle.std.specs.Prelude.{◌≡◌, ◌+◌, ◌-◌, ◌<◌, ◌^◌, length, reverse, take};
ghost use Rattle.recover_logs.specs.Lanes.{count_of};
ghost use Rattle.recover.specs.Fits.{FitsNumbers};
ghost use Rattle.inspect.specs.Drawn as drawn;

use crate::lanes::records_in;
use crate::numbering::{Numbering, lane_numbering};
use crate::section::SectionId;
use guards::Schema;
use heap_model::{Lane, UndoRecord};
use recover::{Dropped, Study};
use recover_logs::count_all;

/// What of a study is drawn, and by which names.
#[derive(Clone, Copy)]
pub(crate) struct Picture<'a> {
    /// By lane: the number of the first section that is drawn.
    pub firsts: &'a [u64],
    /// The sections that recovery drops, each with the reason.
    pub dropped: &'a [Dropped],
    /// The schema whose objects' names are written; there are numbers where there is none.
    pub names: Option<&'a Schema>,
}

/// By lane: the number of the first section that is drawn, where the section that the lane is in is drawn, and the last so many that
/// have ended. After the study's lanes there are zeros.
pub(crate) fn bounds(study: &Study, last: u32) -> [u64; 32]
    requires { FitsNumbers study.now }
    ensures { take study.now.layout.lanes result ≡ drawn.bounds last study.now }
{
    let mut firsts = [0; 32];
    for lane in 0..study.layout.lanes {
        let numbering = lane_numbering(study, Lane(lane));
        let first = first_of_last(numbering, records_in(&study.records, Lane(lane)), last);
        firsts[usize::from(lane)] = first;
    }
    firsts
}

// The number of the first of the last so many sections of a lane that have ended. The lane's live records have the oldest first.
fn first_of_last(numbering: Numbering, records: &[UndoRecord], last: u32) -> u64
    requires { numbering.first + length records.now < 2 ^ 64 }
    ensures { result ≡ numbering.first + ((count_of (reverse records.now)).ended - last) }
{
    let ended = count_all(records).ended;
    numbering.first + ended.saturating_sub(u64::from(last))
}

/// The number of the lane's first section that is drawn.
pub(crate) fn first_drawn(firsts: &[u64], lane: Lane) -> u64
    ensures { result ≡ drawn.first_drawn firsts.now lane.0 }
{
    match firsts.get(usize::from(lane.0)) {
        Some(first) => *first,
        None => 0,
    }
}

/// Whether the section is drawn.
pub(crate) fn is_drawn(firsts: &[u64], section: SectionId) -> bool
    ensures { result ≡ drawn.is_drawn firsts.now section }
{
    first_drawn(firsts, section.lane) <= section.number
}
