//! What the rows of the control tell.
ghost use Rattle.std.specs.Prelude.{◌≡◌, ◌↔◌, ◌<◌, ◌≤◌, ℕ, IsTrue, length, slice_index};
ghost use Rattle.heap_model.specs.Cuts.{counts_of};
ghost use Rattle.undo_log.specs.StandsFor.{row_of};

use heap_model::Cut;
use image::LaneRow;

/// The acknowledged sections by these rows.
pub(crate) fn acknowledged_cut(rows: &[LaneRow; 32]) -> Cut
    ensures kept { (l : ℕ) → l < 32 → counts_of result l ≡ (row_of rows.now l).kept }
    ensures size { length result.counts ≡ 32 }
{
    let mut counts = [0; 32];
    for (lane, row) in rows.iter().enumerate() {
        counts[lane] = row.kept;
    }
    Cut { counts }
}

/// The lanes' starts by these rows.
pub(crate) fn starts(rows: &[LaneRow; 32]) -> [u64; 32]
    ensures { (l : ℕ) → l < 32 → slice_index result l ≡ (row_of rows.now l).start }
{
    let mut places = [0; 32];
    for (lane, row) in rows.iter().enumerate() {
        places[lane] = row.start;
    }
    places
}

/// Whether these rows count the cut's sections in each of so many lanes.
pub(crate) fn is_acknowledged(threads: u8, cut: &Cut, rows: &[LaneRow; 32]) -> bool
    requires { threads ≤ 32 }
    ensures { IsTrue result ↔ ((l : ℕ) → l < threads → counts_of cut.now l ≡ (row_of rows.now l).kept) }
{
    for lane in 0..usize::from(threads) {
        if cut.counts[lane] != rows[lane].kept {
            return false;
        }
    }
    true
}
