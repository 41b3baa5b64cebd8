//! The records that were applied and not yet logged.

ghost use Rattle.std.specs.Prelude.{◌≡◌, ◌≢◌, ◌<◌, ◌≤◌, ◌∷◌, [], ◌++◌, ℕ, length, IfOk};
ghost use Rattle.heap_model.specs.Log.{lane as lane_of, log_from};
ghost use Rattle.store_memory.specs.Fresh.{undo_log_of, log_in, room_in};

use heap_model::{Lane, LaneRecord, Record, UndoRecord};
use std::alloc::{AllocError, Global};
use std::marker::Model;

/// The records that were applied and not yet logged: in the order applied, and by lane.
#[derive(Drop)]
pub struct FreshRecords {
    // For how many records of each lane there is room.
    room: u32,
    // In the order applied.
    records: Vec<LaneRecord>,
    // By lane, the oldest first, as its undo log keeps them. Room is reserved and not filled: until a record comes, no page of it is
    // touched.
    logs: Vec<Vec<UndoRecord>>,
}

impl Model for FreshRecords {
    ghost use Rattle.std.specs.Prelude.{length, vec_capacity};
    ghost use Rattle.store_memory.specs.Fresh.{FreshRecords as Fresh};

    ghost Value = { Fresh };

    ghost use Rattle.store_memory.specs.Fresh.{IsSorted};

    ghost view = { λ f. record { lanes = length f.logs.items; room = f.room; records = f.records.items } };

    ghost invariant = { λ f. IsSorted f.room f.records.items f.logs.items (vec_capacity f.records) };
}

impl FreshRecords {
    /// No records, with room for so many of each of so many lanes.
    ///
    /// It reserves all the memory that they will need, and touches none of it. No other call takes memory.
    pub fn new(alloc: Global, lanes: u8, room: u32) -> Result<FreshRecords, AllocError>
        ensures lanes { IfOk result (λ f. f.lanes ≡ lanes) }
        ensures room { IfOk result (λ f. f.room ≡ room) }
        ensures empty { IfOk result (λ f. f.records ≡ []) }
    {
        let records = Vec::with_capacity(alloc, lanes as usize * room as usize)?;
        let logs = empty_logs(alloc, lanes, room)?;
        Ok(FreshRecords {
            room,
            records,
            logs,
        })
    }

    /// Adds a lane's next record.
    #[inline(always)]
    pub fn push(&mut self, lane: Lane, next: Record)
        requires lane { lane.0 < self.old.lanes }
        requires room { length (lane_of lane.0 (log_from self.old.records)) < self.old.room }
        ensures records { self.new.records ≡ self.old.records ++ record { lane = lane; «record» = next } ∷ [] }
        ensures lanes { self.new.lanes ≡ self.old.lanes }
        ensures room { self.new.room ≡ self.old.room }
    {
        put(&mut self.logs, lane, next.undo());
        self.records
            .push_reserved(LaneRecord { lane, record: next });
    }

    /// The records in the order applied.
    pub fn records(&self) -> &[LaneRecord]
        ensures { result.now ≡ self.now.records }
    {
        &self.records
    }

    /// The lane's records as its undo log keeps them, the oldest first.
    pub fn of(&self, lane: Lane) -> &[UndoRecord]
        requires { lane.0 < self.now.lanes }
        ensures { result.now ≡ undo_log_of lane.0 self.now.records }
    {
        &self.logs[lane.0 as usize]
    }

    /// Forgets them: they are logged.
    pub fn clear(&mut self)
        ensures records { self.new.records ≡ [] }
        ensures lanes { self.new.lanes ≡ self.old.lanes }
        ensures room { self.new.room ≡ self.old.room }
    {
        self.records.clear();
        clear_all(&mut self.logs);
    }
}

// An empty log for each lane, with room for so many records.
fn empty_logs(alloc: Global, lanes: u8, room: u32) -> Result<Vec<Vec<UndoRecord>>, AllocError>
    ensures lanes { IfOk result (λ logs. length logs.items ≡ lanes) }
    ensures empty { IfOk result (λ logs. (l : ℕ) → log_in logs.items l ≡ []) }
    ensures room { IfOk result (λ logs. (l : ℕ) → l < lanes → room ≤ room_in logs.items l) }
{
    let mut logs = Vec::with_capacity(alloc, lanes as usize)?;
    for _ in 0..lanes {
        logs.push_reserved(Vec::with_capacity(alloc, room as usize)?);
    }
    Ok(logs)
}

// Puts the record at the end of the lane's log.
#[inline(always)]
fn put(logs: &mut [Vec<UndoRecord>], lane: Lane, entry: UndoRecord)
    requires lane { lane.0 < length logs.old }
    requires room { length (log_in logs.old lane.0) < room_in logs.old lane.0 }
    ensures put { log_in logs.new lane.0 ≡ log_in logs.old lane.0 ++ entry ∷ [] }
    ensures others { (l : ℕ) → l ≢ lane.0 → log_in logs.new l ≡ log_in logs.old l }
    ensures rooms { (l : ℕ) → room_in logs.new l ≡ room_in logs.old l }
{
    logs[lane.0 as usize].push_reserved(entry);
}

// Empties each lane's log. The room stays.
fn clear_all(logs: &mut [Vec<UndoRecord>])
    ensures empty { (l : ℕ) → log_in logs.new l ≡ [] }
    ensures rooms { (l : ℕ) → room_in logs.new l ≡ room_in logs.old l }
{
    for lane in 0..logs.len() {
        logs[lane].clear();
    }
}
