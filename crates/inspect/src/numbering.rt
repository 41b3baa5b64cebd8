//! How a lane's live sections are numbered.
ghost use Rattle.std.specs.Prelude.{◌≡◌, ◌+◌, ◌<◌, ◌^◌, length};
ghost use Rattle.undo_log.specs.StandsFor.{row_of};
ghost use Rattle.recover_heap.specs.Logs.{records_of};
ghost use Rattle.inspect.specs.Sections.{first_number, numbering_of, section_id};

use crate::lanes::records_in;
use crate::section::SectionId;
use heap_model::{Lane, UndoRecord};
use image::LaneRow;
use recover::Study;
use recover_logs::count_all;

/// How a lane's live sections are numbered.
#[derive(Clone, Copy, Debug, PartialEq, Eq)]
pub(crate) struct Numbering {
    /// The lane.
    pub lane: Lane,
    /// The number of its first live section.
    pub first: u64,
    /// How many of its sections are acknowledged.
    pub kept: u64,
}

impl Numbering {
    /// The section that so many of the lane's live sections ended before.
    pub fn section(self, ended: u64) -> SectionId
        requires { self.first + ended < 2 ^ 64 }
        ensures { result ≡ section_id self ended }
    {
        SectionId {
            lane: self.lane,
            number: self.first + ended,
        }
    }
}

/// How the sections of one of the study's lanes are numbered.
pub(crate) fn lane_numbering(study: &Study, lane: Lane) -> Numbering
    requires lane { lane.0 < 32 }
    requires fits { (row_of study.now.control.rows lane.0).kept + 1 < 2 ^ 64 }
    ensures { result ≡ numbering_of study.now lane.0 }
{
    let row = study.control.rows[usize::from(lane.0)];
    Numbering {
        lane,
        first: first_section(&row, records_in(&study.records, lane)),
        kept: row.kept,
    }
}

// The number of the lane's first live section, by the lane's row and its live records.
fn first_section(row: &LaneRow, records: &[UndoRecord]) -> u64
    requires { row.now.kept + 1 < 2 ^ 64 }
    ensures { result ≡ first_number row.now records.now }
{
    let settled = row.settled.saturating_sub(row.start) as usize;
    let ended = count_all(&records[..records.len().min(settled)]).ended;
    row.kept.saturating_sub(ended) + 1
}
