//! The rows of the next control, and where new records begin.
ghost use Rattle.std.specs.Prelude.{◌≡◌, ◌+◌, ◌-◌, ◌<◌, ◌≤◌, ◌^◌, ℕ, max, length, slice_index};
ghost use Rattle.undo_log.specs.StandsFor.{row_of};

use heap_model::{Cut, Lane, NewRecords};
use image::LaneRow;

/// By lane of the threads, how many of the new records come before this place, where they begin behind the row's last.
pub(crate) fn skips(threads: u8, rows: &[LaneRow; 32], places: &[u64; 32]) -> [u64; 32]
    requires { threads ≤ 32 }
    ensures { (lane : ℕ) → lane < threads → slice_index result lane ≡ slice_index places.now lane - (row_of rows.now lane).logged }
{
    let mut skipped = [0; 32];
    for lane in 0..usize::from(threads) {
        skipped[lane] = places[lane].saturating_sub(rows[lane].logged);
    }
    skipped
}

/// The rows from which new records are written: those of the threads' lanes behind the last record, and not before this place.
pub(crate) fn from_rows(threads: u8, rows: &[LaneRow; 32], places: &[u64; 32]) -> [LaneRow; 32]
    requires { threads ≤ 32 }
    ensures lanes { (lane : ℕ) → lane < threads → row_of result lane
        ≡ record (row_of rows.now lane) { logged = max (row_of rows.now lane).logged (slice_index places.now lane) } }
    ensures rest { (lane : ℕ) → threads ≤ lane → row_of result lane ≡ row_of rows.now lane }
{
    let mut from = *rows;
    for lane in 0..usize::from(threads) {
        let row = rows[lane];
        from[lane] = LaneRow {
            logged: row.logged.max(places[lane]),
            ..row
        };
    }
    from
}

/// The rows of the next control: a thread's lane begins behind the cut's sections, and the helper's, if there is one, behind those of
/// the last round. `lanes` is how many lanes there are.
pub(crate) fn next_rows<F: NewRecords>(
    threads: u8,
    lanes: u8,
    rows: &[LaneRow; 32],
    fresh: &F,
    next: &Cut,
    places: &[u64; 32],
    helper: u64,
) -> [LaneRow; 32]
    requires few { lanes ≤ 32 }
    requires within { threads ≤ lanes }
    requires lanes { threads ≤ F.lanes fresh.now }
    requires limit { (lane : ℕ) → lane < threads
        → (row_of rows.now lane).logged + length (F.fresh fresh.now lane) ≤ 2 ^ 63 }
    requires helper_limit { threads < lanes → (row_of rows.now threads).logged + helper ≤ 2 ^ 63 }
    ensures lanes { (lane : ℕ) → lane < threads → row_of result lane
        ≡ record {
          start = slice_index places.now lane;
          settled = slice_index places.now lane;
          logged = (row_of rows.now lane).logged + length (F.fresh fresh.now lane);
          kept = slice_index next.now.counts lane;
        } }
    ensures helper { threads < lanes → row_of result threads
        ≡ record (row_of rows.now threads) {
          start = (row_of rows.now threads).logged;
          settled = (row_of rows.now threads).logged;
          logged = (row_of rows.now threads).logged + helper;
        } }
    ensures rest { (lane : ℕ) → lanes ≤ lane → row_of result lane ≡ row_of rows.now lane }
    ensures size { length result ≡ length rows.now }
{
    let mut following = thread_rows(threads, rows, fresh, next, places);
    if threads < lanes {
        let row = rows[usize::from(threads)];
        following[usize::from(threads)] = LaneRow {
            start: row.logged,
            settled: row.logged,
            logged: row.logged + helper,
            ..row
        };
    }
    following
}

// The rows with those of the threads' lanes.
fn thread_rows<F: NewRecords>(
    threads: u8,
    rows: &[LaneRow; 32],
    fresh: &F,
    next: &Cut,
    places: &[u64; 32],
) -> [LaneRow; 32]
    requires few { threads ≤ 32 }
    requires lanes { threads ≤ F.lanes fresh.now }
    requires limit { (lane : ℕ) → lane < threads
        → (row_of rows.now lane).logged + length (F.fresh fresh.now lane) ≤ 2 ^ 63 }
    ensures lanes { (lane : ℕ) → lane < threads → row_of result lane
        ≡ record {
          start = slice_index places.now lane;
          settled = slice_index places.now lane;
          logged = (row_of rows.now lane).logged + length (F.fresh fresh.now lane);
          kept = slice_index next.now.counts lane;
        } }
    ensures rest { (lane : ℕ) → threads ≤ lane → row_of result lane ≡ row_of rows.now lane }
    ensures size { length result ≡ length rows.now }
{
    let mut following = *rows;
    for lane in 0..threads {
        let place = places[usize::from(lane)];
        following[usize::from(lane)] = LaneRow {
            start: place,
            settled: place,
            logged: rows[usize::from(lane)].logged + fresh.of(Lane(lane)).len() as u64,
            kept: next.counts[usize::from(lane)],
        };
    }
    following
}
