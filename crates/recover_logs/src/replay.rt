//! The greedy replay of the lanes' live records.
ghost use Rattle.std.specs.Prelude.{◌≡◌, ◌≤◌, ℕ, All, IfErr, IfOk, length, slice_index};
ghost use Rattle.recover_logs.specs.Limits.{IsInRange, IsOfObjects};
ghost use Rattle.recover_logs.specs.Logs.{guard_in, records_of};
ghost use Rattle.recover_logs.specs.Settled.{IsPlaceIn};
ghost use Rattle.recover_logs.specs.Tables.{FindsLeft, IsLow, ReplaysLogs};

use crate::Monitors;
use crate::error::LogsError;
use crate::first_numbers::first_numbers;
use crate::lanes::{least_to_go_on, records_in};
use crate::step::Step;
use heap_model::{Lane, ObjectId, UndoRecord};
use std::alloc::Global;

/// The lanes' records in the order of the greedy replay, the oldest first: again and again the least lane that can go on
/// does its next record.
///
/// `IllegalLog` comes where no lane can go on and records are left, and names the least lane with one left and its first
/// one; `NoMemory` comes where there is no room for the steps. After each step the lanes are looked at again, at most 32.
pub fn replay(
    alloc: Global,
    guards: &[Option<ObjectId>],
    logs: &[Vec<UndoRecord>],
) -> Result<Vec<Step>, LogsError>
    requires lanes { length logs.now ≤ 32 }
    requires objects { (l : ℕ) → All (IsOfObjects (guard_in guards.now) 4096) (records_of logs.now l) }
    requires range { (l : ℕ) → All IsInRange (records_of logs.now l) }
    ensures exact { ReplaysLogs guards.now logs.now result }
    ensures there { IfErr result (IsPlaceIn logs.now) }
    ensures low { IfOk result (λ steps. All IsLow steps.items) }
{
    let mut monitors = Monitors::free_at(first_numbers(logs));
    let mut left = lengths(logs);
    let mut steps = Vec::new(alloc);
    while let Some(next) = least_to_go_on(guards, logs, &monitors, &left) {
        let Ok(()) = steps.push(next) else {
            return Err(LogsError::NoMemory);
        };
        monitors.note(next.lane, next.entry);
        left[usize::from(next.lane.0)] -= 1;
    }
    match least_left(&left) {
        None => Ok(steps),
        Some(lane) => Err(LogsError::IllegalLog {
            lane,
            place: (records_in(logs, lane).len() - left[usize::from(lane.0)]) as u64,
        }),
    }
}

// How many records each lane has.
fn lengths(logs: &[Vec<UndoRecord>]) -> [usize; 32]
    requires { length logs.now ≤ 32 }
    ensures each { (l : ℕ) → slice_index result l ≡ length (records_of logs.now l) }
    ensures all { length result ≡ 32 }
{
    let mut lengths = [0; 32];
    for lane in 0..logs.len() as u8 {
        lengths[usize::from(lane)] = records_in(logs, Lane(lane)).len();
    }
    lengths
}

// The least lane with records left.
fn least_left(left: &[usize; 32]) -> Option<Lane>
    ensures { FindsLeft left.now result }
{
    for lane in 0..32u8 {
        if left[usize::from(lane)] > 0 {
            return Some(Lane(lane));
        }
    }
    None
}
