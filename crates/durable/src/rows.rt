//! What the rows of a control tell.
ghost use Rattle.std.specs.Prelude.{◌≡◌, ◌<◌, ℕ, length, slice_index};
ghost use Rattle.heap_model.specs.Cuts.{counts_of};
ghost use Rattle.undo_log.specs.StandsFor.{row_of};

use heap_model::{Cut, LANES};
use image::LaneRow;

/// The place of each lane's first record that wasn't trimmed, by these rows.
pub fn starts(rows: &[LaneRow; LANES]) -> [u64; LANES]
    // The answer has each lane's start.
    ensures { (l : ℕ) → l < 32 → slice_index result l ≡ (row_of rows.now l).start }
{
    let mut places = [0; LANES];
    for (lane, row) in rows.iter().enumerate() {
        places[lane] = row.start;
    }
    places
}

/// The acknowledged sections by these rows.
pub fn kept_cut(rows: &[LaneRow; LANES]) -> Cut
    // The answer counts each lane's acknowledged sections.
    ensures kept { (l : ℕ) → l < 32 → counts_of result l ≡ (row_of rows.now l).kept }
    ensures size { length result.counts ≡ 32 }
{
    let mut counts = [0; LANES];
    for (lane, row) in rows.iter().enumerate() {
        counts[lane] = row.kept;
    }
    Cut { counts }
}
