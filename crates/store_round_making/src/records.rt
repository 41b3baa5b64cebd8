//! The new records of a round's lanes.
ghost use Rattle.std.specs.Prelude.{◌≡◌, ◌<◌, ◌==◌, if◌then◌else◌, min, ℕ, drop, slice_index};

use heap_model::{Lane, NewRecords, UndoRecord};

/// The threads' new records, without the first ones of each lane, and those of the helper's lane.
#[derive(Clone, Copy)]
pub(crate) struct RoundRecords<'a, F: NewRecords> {
    pub(crate) threads: &'a F,
    pub(crate) skipped: &'a [u64; 32],
    pub(crate) helper: Lane,
    pub(crate) records: &'a [UndoRecord],
}

impl<'a, F: NewRecords> NewRecords for RoundRecords<'a, F> {
    ghost lanes = { λ x. min 32 (F.lanes x.threads.now) };

    ghost fresh = { λ x l. if l == x.helper.0 then x.records.now else drop (slice_index x.skipped.now l) (F.fresh x.threads.now l) };

    fn of(&self, lane: Lane) -> &[UndoRecord] {
        if lane == self.helper {
            self.records
        } else {
            behind(self.threads.of(lane), self.skipped[usize::from(lane.0)])
        }
    }
}

// The records without the first ones.
fn behind(records: &[UndoRecord], skipped: u64) -> &[UndoRecord]
    ensures { result.now ≡ drop skipped records.now }
{
    if skipped < records.len() as u64 {
        &records[skipped as usize..]
    } else {
        &records[records.len()..]
    }
}
