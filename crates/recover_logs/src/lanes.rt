//! How far a replay has come in each lane.
ghost use Rattle.std.specs.Prelude.{◌≡◌, ◌↔◌, ◌-◌, ◌<◌, ◌≤◌, ℕ, All, IsTrue, length, reverse, slice_get, slice_index};
ghost use Rattle.recover_logs.specs.Logs.{guard_in, lanes_of, records_of};
ghost use Rattle.recover_logs.specs.Replay.{MayFollow};
ghost use Rattle.recover_logs.specs.Tables.{FindsNext, FindsNextOf};
ghost use Rattle.recover_logs.specs.Limits.{IsOfObjects};

use crate::Monitors;
use crate::rules::is_allowed;
use crate::step::Step;
use heap_model::{Lane, ObjectId, UndoRecord};

/// The least lane that can go on, with its next record.
pub fn least_to_go_on(
    guards: &[Option<ObjectId>],
    logs: &[Vec<UndoRecord>],
    monitors: &Monitors,
    left: &[usize; 32],
) -> Option<Step>
    requires lanes { length logs.now ≤ 32 }
    requires left { (l : ℕ) → slice_index left.now l ≤ length (lanes_of logs.now l) }
    requires objects { (l : ℕ) → All (IsOfObjects (guard_in guards.now) 4096) (records_of logs.now l) }
    ensures { FindsNext guards.now monitors.now logs.now left.now result }
{
    for lane in 0..logs.len() as u8 {
        let records = records_in(logs, Lane(lane));
        let left = left[usize::from(lane)];
        if let Some(next) = to_go_on(guards, monitors, Lane(lane), records, left) {
            return Some(next);
        }
    }
    None
}

/// The lane's records, the oldest first.
#[tactic(auto, using(crate::proofs::LaneLemmas::records_read))]
pub fn records_in(logs: &[Vec<UndoRecord>], lane: Lane) -> &[UndoRecord]
    requires { lane.0 < length logs.now }
    ensures { result.now ≡ records_of logs.now lane.0 }
{
    &logs[usize::from(lane.0)]
}

// The lane's next record, if the lane can go on with it. So many of its records are left.
fn to_go_on(
    guards: &[Option<ObjectId>],
    monitors: &Monitors,
    lane: Lane,
    records: &[UndoRecord],
    left: usize,
) -> Option<Step>
    requires left { left ≤ length records.now }
    requires objects { All (IsOfObjects (guard_in guards.now) 4096) records.now }
    ensures { FindsNextOf guards.now monitors.now lane records.now left result }
{
    let done = records.len() - left;
    let entry = *records.get(done)?;
    let next = Step { lane, entry };
    if may_follow(newest(records, done), entry) && is_allowed(monitors, guards, next) {
        Some(next)
    } else {
        None
    }
}

// The newest of the records that were done.
fn newest(records: &[UndoRecord], done: usize) -> Option<UndoRecord>
    requires { done ≤ length records.now }
    ensures { result ≡ slice_get (reverse records.now) (length records.now - done) }
{
    if done == 0 {
        None
    } else {
        Some(records[done - 1])
    }
}

// After a wait's release the lane's next record takes the same object again.
fn may_follow(newest: Option<UndoRecord>, next: UndoRecord) -> bool
    ensures { IsTrue result ↔ MayFollow newest next }
{
    match (newest, next) {
        (Some(UndoRecord::WaitRel { object, .. }), UndoRecord::Acq { object: taken, .. }) => {
            taken == object
        }
        (Some(UndoRecord::WaitRel { .. }), _) => false,
        _ => true,
    }
}
