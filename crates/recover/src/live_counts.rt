//! The lanes' live sections, counted.
ghost use Rattle.std.specs.Prelude.{◌≡◌, ◌<◌, ◌≤◌, ℕ, length, take};
ghost use Rattle.undo_log.specs.StandsFor.{row_of, settled_of};
ghost use Rattle.image_parts.specs.Rows.{empty_row};
ghost use Rattle.recover_heap.specs.Logs.{records_of, lanes_of};
ghost use Rattle.heap_model.specs.Sections.{ended};
ghost use Rattle.recover.specs.Settled.{IsAtRest};
ghost use Rattle.recover_logs.specs.Tally.{FreesHeld, acts_of};
ghost use Rattle.recover.specs.Live.{IsLiveIn, IsLiveOf, live_at};

use crate::live_sections::LiveSections;
use heap_model::{Lane, UndoRecord};
use image::LaneRow;
use recover_logs::{records_in, tally};

/// By lane: how many sections come before its live records, and how many are live. Each record is looked at at most twice.
pub fn live_counts(rows: &[LaneRow; 32], logs: &[Vec<UndoRecord>]) -> [LiveSections; 32]
    requires lanes { length logs.now ≤ 32 }
    requires held { (l : ℕ) → FreesHeld (acts_of (records_of logs.now l)) }
    requires order { (l : ℕ) → l < length logs.now
        → (row_of rows.now l).start ≤ (row_of rows.now l).settled }
    requires within { (l : ℕ) → l < length logs.now
        → settled_of rows.now l ≤ length (records_of logs.now l) }
    requires rest { (l : ℕ) → IsAtRest rows.now (lanes_of logs.now) l }
    requires others { (l : ℕ) → length logs.now ≤ l → row_of rows.now l ≡ empty_row }
    ensures { (l : ℕ) → IsLiveIn rows.now (lanes_of logs.now) l (live_at result l) }
{
    let mut counts = [LiveSections {
        trimmed: 0,
        settled: 0,
        whole: 0,
        live: 0,
    }; 32];
    for lane in 0..logs.len() as u8 {
        let row = rows[usize::from(lane)];
        let settled = (row.settled - row.start) as usize;
        counts[usize::from(lane)] = live_of(records_in(logs, Lane(lane)), settled, row.kept);
    }
    counts
}

// A lane's counts, of which so many records are settled and so many sections are kept.
fn live_of(records: &[UndoRecord], settled: usize, kept: u64) -> LiveSections
    requires held { FreesHeld (acts_of records.now) }
    requires within { settled ≤ length records.now }
    requires kept { ended (acts_of (take settled records.now)) ≤ kept }
    ensures { IsLiveOf records.now settled kept result }
{
    let (_, acknowledged) = tally(&records[..settled]);
    let (held, whole) = tally(records);
    LiveSections {
        trimmed: kept - acknowledged,
        settled: acknowledged,
        whole,
        live: if held == 0 { whole } else { whole + 1 },
    }
}
