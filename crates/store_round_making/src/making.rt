//! The round.
ghost use Rattle.std.specs.Prelude.{◌≤◌};
ghost use Rattle.store_round_making.specs.Promises.{MakesRound};
ghost use Rattle.store_round_making.specs.Rounds.{CanMake};

use crate::records::RoundRecords;
use crate::rows::{from_rows, next_rows, skips};
use block_disk::Disk;
use heap_model::{Cut, Lane, NewRecords, StoreError, UndoRecord};
use image::Layout;
use store_image::Committed;
use store_round_image::{HomeValue, turn_round};

/// Takes the threads' newer records on, and acknowledges this cut of all that was applied; `places` has, by lane, the place after the cut's sections.
/// It writes these cells, the records of the helper's sections, and of the threads' newer records those beyond the cut; makes them
/// durable together with the body of the next control; and turns its gate: two syncs. The sections of the last round's in the helper's
/// lane are given up. The first `threads` lanes are the threads', and the next one is the helper's; without one, `helper` is empty.
///
/// Refusals, in this order:
/// - `Worn`: the control's sequence is at its last value, 2^64 - 1. The device isn't called;
/// - `Fault`: a call failed. A crash may leave either control.
pub fn make_round<D: Disk, F: NewRecords>(
    disk: &mut D,
    layout: &Layout,
    committed: &mut Committed,
    threads: u8,
    next: &Cut,
    places: &[u64; 32],
    cells: &[HomeValue],
    fresh: &F,
    helper: &[UndoRecord],
) -> Result<(), StoreError>
    requires lanes { layout.now.lanes ≤ F.lanes fresh.now }
    requires makes { CanMake layout.now threads committed.old (D.device disk.old) next.now places.now cells.now
        (F.fresh fresh.now) helper.now }
    // The cut of all that was applied is acknowledged.
    ensures { MakesRound D.device layout.now threads next.now places.now cells.now (F.fresh fresh.now) helper.now
        committed.old disk.old committed.new disk.new result }
{
    let skipped = skips(threads, &committed.rows, places);
    let from = from_rows(threads, &committed.rows, places);
    let rows = next_rows(
        threads,
        layout.lanes,
        &committed.rows,
        fresh,
        next,
        places,
        helper.len() as u64,
    );
    let records = RoundRecords {
        threads: fresh,
        skipped: &skipped,
        helper: Lane(threads),
        records: helper,
    };
    turn_round(disk, layout, committed, cells, &from, &records, &rows)
}
