//! What a record changes of the memory.

ghost use Rattle.std.specs.Prelude.{◌≡◌, ◌+◌, ◌<◌, ◌≤◌, ◌^◌, ◌==◌, ℕ, if◌then◌else◌, length, slice_index, slice_set};
ghost use Rattle.store_memory.specs.Memory.{lane_in, awaited_after as awaited_after_record, lane_after as lane_after_record, monitors_after, fields_after};
ghost use Rattle.store_memory.specs.Verdict.{IsNamed, NumberFits};

use crate::check::{held_after, lane_at};
use crate::states::{FieldState, LaneState, MonitorState};
use heap_model::{LANES, Lane, ObjectId, Record};

// The object on which the lane waits after the record.
#[inline(always)]
fn awaited_after(next: Record) -> Option<ObjectId>
    ensures { result ≡ awaited_after_record next }
{
    match next {
        Record::WaitRel { object, .. } => Some(object),
        _ => None,
    }
}

// The lane after the record.
#[inline(always)]
fn lane_after(next: Record, state: LaneState) -> LaneState
    requires place { state.place + 1 < 2 ^ 64 }
    requires held { state.held + 1 < 2 ^ 32 }
    requires section { state.section + 1 < 2 ^ 32 }
    ensures { result ≡ lane_after_record next state }
{
    let held = held_after(next, state.held);
    LaneState {
        start: state.start,
        place: state.place + 1,
        section: if held == 0 { 0 } else { state.section + 1 },
        held,
        awaited: awaited_after(next),
    }
}

/// Notes the record of its lane.
#[inline(always)]
pub fn note_lane(lanes: &mut [LaneState], lane: Lane, next: Record)
    requires lane { lane.0 < length lanes.old }
    requires place { (lane_in lanes.old lane.0).place + 1 < 2 ^ 64 }
    requires held { (lane_in lanes.old lane.0).held + 1 < 2 ^ 32 }
    requires section { (lane_in lanes.old lane.0).section + 1 < 2 ^ 32 }
    ensures { lanes.new ≡ slice_set lanes.old lane.0 (lane_after_record next (lane_in lanes.old lane.0)) }
{
    lanes[lane.0 as usize] = lane_after(next, lane_at(lanes, lane));
}

/// Notes who holds the record's monitor.
#[inline(always)]
pub fn note_monitor(monitors: &mut [MonitorState], fields: &[FieldState], lane: Lane, next: Record)
    requires named { IsNamed (length monitors.old) fields.now next }
    requires fits { NumberFits next }
    ensures { monitors.new ≡ monitors_after lane next monitors.old }
{
    match next {
        Record::Acq { object, .. } => monitors[object.0 as usize].holder = Some(lane),
        Record::Rel { object, number } | Record::WaitRel { object, number } => {
            monitors[object.0 as usize] = MonitorState {
                holder: None,
                number: number + 1,
            };
        }
        Record::Put { .. } => {}
    }
}

/// Notes the value that the record stores.
#[inline(always)]
pub fn note_store(fields: &mut [FieldState], objects: usize, next: Record)
    requires named { IsNamed objects fields.old next }
    ensures { fields.new ≡ fields_after next fields.old }
{
    if let Record::Put { field, after, .. } = next {
        fields[field.0 as usize].value = after;
    }
}

/// Notes the first places of the lanes that were not trimmed.
pub fn note_starts(lanes: &mut [LaneState], places: &[u64; LANES])
    requires { length lanes.old ≤ 32 }
    ensures { (l : ℕ) → l < length lanes.old → lane_in lanes.new l ≡ record (lane_in lanes.old l) { start = slice_index places.now l } }
{
    for lane in 0..lanes.len() {
        lanes[lane].start = places[lane];
    }
}
