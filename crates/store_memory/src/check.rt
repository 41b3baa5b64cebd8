//! Whether a lane may do a record next.

ghost use Rattle.std.specs.Prelude.{◌≡◌, ◌+◌, ◌<◌, ◌≤◌, ◌^◌, ℕ, ◌↔◌, IsTrue, Some, Ok, true, false, length};
ghost use Rattle.heap_model.specs.Events.{lane_number};
ghost use Rattle.heap_model.specs.Log.{MayFollow};
ghost use Rattle.store_memory.specs.Memory.{monitor_in, field_in, lane_in, guard_in, object_number, held_after as held_after_record};
ghost use Rattle.store_memory.specs.Apply.{HasLastNumber};
ghost use Rattle.store_memory.specs.Limits.{FitsWord, section_records};
ghost use Rattle.store_memory.specs.Verdict.{IsNamed, Allows, IsWornIn, IsNextIn, IsTooLongIn, IsFullIn, Judges, JudgesNamed};

use crate::states::{FieldState, LaneState, MonitorState};
use heap_model::{FieldId, LAST_PLACE, Lane, ObjectId, Record, SECTION_RECORDS, StoreError};

/// The object's monitor.
#[inline(always)]
pub fn monitor_at(monitors: &[MonitorState], object: ObjectId) -> MonitorState
    requires { object.0 < length monitors.now }
    ensures { result ≡ monitor_in monitors.now object.0 }
{
    monitors[object.0 as usize]
}

/// The field.
#[inline(always)]
pub fn field_at(fields: &[FieldState], field: FieldId) -> FieldState
    requires { field.0 < length fields.now }
    ensures { result ≡ field_in fields.now field.0 }
{
    fields[field.0 as usize]
}

/// The lane.
#[inline(always)]
pub fn lane_at(lanes: &[LaneState], lane: Lane) -> LaneState
    requires { lane.0 < length lanes.now }
    ensures { result ≡ lane_in lanes.now lane.0 }
{
    lanes[lane.0 as usize]
}

/// Whether the record's object is one of so many, or its field is one of these whose stores are logged.
#[inline(always)]
pub fn is_named(objects: usize, fields: &[FieldState], record: Record) -> bool
    ensures { IsTrue result ↔ IsNamed objects fields.now «record» }
{
    match record {
        Record::Acq { object, .. } | Record::Rel { object, .. } | Record::WaitRel { object, .. } =>
            { (object.0 as usize) < objects }
        Record::Put { field, .. } => {
            (field.0 as usize) < fields.len() && field_at(fields, field).is_logged
        }
    }
}

/// A record's values fit their words, as its type says.
pub fn word_law(record: Record)
    ensures { FitsWord «record» }
{}

// Whether the record's release number, if it has one, is the last or more.
#[inline(always)]
fn has_last_number(last: u64, record: Record) -> bool
    ensures { IsTrue result ↔ HasLastNumber last «record» }
{
    match record {
        Record::Acq { number, .. } | Record::Rel { number, .. } | Record::WaitRel { number, .. } =>
            { last <= number }
        Record::Put { .. } => false,
    }
}

/// Whether numbers or places have come to their end.
#[inline(always)]
pub fn is_worn(last: u64, state: LaneState, record: Record) -> bool
    ensures { IsTrue result ↔ IsWornIn last state «record» }
{
    has_last_number(last, record) || (state.held == 0 && LAST_PLACE <= state.place)
}

// Whether the lane holds the monitor.
#[inline(always)]
fn is_held_by(monitor: MonitorState, lane: Lane) -> bool
    ensures { IsTrue result ↔ (lane_number monitor.holder ≡ Some lane.0) }
{
    match monitor.holder {
        Some(holder) => holder.0 == lane.0,
        None => false,
    }
}

// Whether the lane may follow its wait with this record.
#[inline(always)]
fn may_follow(awaited: Option<ObjectId>, record: Record) -> bool
    ensures { IsTrue result ↔ MayFollow (object_number awaited) «record» }
{
    match (awaited, record) {
        (None, _) => true,
        (Some(object), Record::Acq { object: taken, .. }) => taken.0 == object.0,
        (Some(_), _) => false,
    }
}

// Whether the record takes a free object at its number, frees one that the lane holds, or stores to a field whose guard it holds.
#[inline(always)]
fn is_allowed(
    last: u64,
    monitors: &[MonitorState],
    fields: &[FieldState],
    lane: Lane,
    record: Record,
) -> bool
    requires named { IsNamed (length monitors.now) fields.now «record» }
    requires guards { (f : ℕ) → f < length fields.now → guard_in fields.now f < length monitors.now }
    ensures { IsTrue result ↔ Allows last monitors.now fields.now lane.0 «record» }
{
    match record {
        Record::Acq { object, number } => {
            let monitor = monitor_at(monitors, object);
            monitor.holder.is_none() && monitor.number == number && number < last
        }
        Record::Rel { object, number } | Record::WaitRel { object, number } => {
            let monitor = monitor_at(monitors, object);
            is_held_by(monitor, lane) && monitor.number == number
        }
        Record::Put { field, before, .. } => {
            let state = field_at(fields, field);
            is_held_by(monitor_at(monitors, state.guard), lane) && state.value == before
        }
    }
}

// Whether the lane may do the record next.
#[inline(always)]
fn is_next(
    last: u64,
    monitors: &[MonitorState],
    fields: &[FieldState],
    lane: Lane,
    state: LaneState,
    record: Record,
) -> bool
    requires named { IsNamed (length monitors.now) fields.now «record» }
    requires guards { (f : ℕ) → f < length fields.now → guard_in fields.now f < length monitors.now }
    ensures { IsTrue result ↔ IsNextIn last monitors.now fields.now lane.0 state «record» }
{
    is_allowed(last, monitors, fields, lane, record) && may_follow(state.awaited, record)
}

/// How many monitors the lane holds after the record.
#[inline(always)]
pub fn held_after(record: Record, held: u32) -> u32
    requires { held + 1 < 2 ^ 32 }
    ensures { result ≡ held_after_record «record» held }
{
    match record {
        Record::Acq { .. } => held + 1,
        Record::Rel { .. } | Record::WaitRel { .. } => held.saturating_sub(1),
        Record::Put { .. } => held,
    }
}

// Whether the section's records, with this one and the releases that are then still needed, pass the limit.
#[inline(always)]
fn is_too_long(state: LaneState, record: Record) -> bool
    requires { state.held + 1 < 2 ^ 32 }
    ensures { IsTrue result ↔ IsTooLongIn state «record» }
{
    SECTION_RECORDS < u64::from(state.section) + 1 + u64::from(held_after(record, state.held))
}

// Whether a section would begin for which the lane's area has no room.
#[inline(always)]
fn is_full(capacity: u32, state: LaneState) -> bool
    requires place { state.place + section_records < 2 ^ 64 }
    requires start { state.start ≤ state.place }
    ensures { IsTrue result ↔ IsFullIn capacity state }
{
    state.held == 0 && u64::from(capacity) < state.place - state.start + SECTION_RECORDS
}

/// The record, put together anew: where it is wanted in memory, and not before.
#[inline(always)]
pub fn again(record: Record) -> Record
    ensures { result ≡ «record» }
{
    match record {
        Record::Acq { object, number } => Record::Acq { object, number },
        Record::Rel { object, number } => Record::Rel { object, number },
        Record::WaitRel { object, number } => Record::WaitRel { object, number },
        Record::Put {
            field,
            before,
            after,
        } => Record::Put {
            field,
            before,
            after,
        },
    }
}

/// Whether the record is taken: what [`check`] answers, without the reason.
#[inline(always)]
pub fn is_taken(
    last: u64,
    capacity: u32,
    lanes: &[LaneState],
    monitors: &[MonitorState],
    fields: &[FieldState],
    lane: Lane,
    record: Record,
) -> bool
    requires guards { (f : ℕ) → f < length fields.now → guard_in fields.now f < length monitors.now }
    requires place { (l : ℕ) → l < length lanes.now → (lane_in lanes.now l).place + section_records < 2 ^ 64 }
    requires start { (l : ℕ) → l < length lanes.now → (lane_in lanes.now l).start ≤ (lane_in lanes.now l).place }
    requires held { (l : ℕ) → l < length lanes.now → (lane_in lanes.now l).held + 1 < 2 ^ 32 }
    ensures { IsTrue result ↔ Judges last capacity lanes.now monitors.now fields.now lane.0 «record» (Ok tt) }
{
    if lanes.len() <= lane.0 as usize {
        return false;
    }
    if !is_named(monitors.len(), fields, record) {
        return false;
    }
    is_right(
        last,
        capacity,
        lane_at(lanes, lane),
        monitors,
        fields,
        lane,
        record,
    )
}

// Whether the record, whose lane and names are good, is taken. The tests that most records need come first.
#[inline(always)]
fn is_right(
    last: u64,
    capacity: u32,
    state: LaneState,
    monitors: &[MonitorState],
    fields: &[FieldState],
    lane: Lane,
    record: Record,
) -> bool
    requires named { IsNamed (length monitors.now) fields.now «record» }
    requires guards { (f : ℕ) → f < length fields.now → guard_in fields.now f < length monitors.now }
    requires place { state.place + section_records < 2 ^ 64 }
    requires start { state.start ≤ state.place }
    requires held { state.held + 1 < 2 ^ 32 }
    ensures { IsTrue result ↔ JudgesNamed last capacity state monitors.now fields.now lane.0 «record» (Ok tt) }
{
    if !is_next(last, monitors, fields, lane, state, record) {
        return false;
    }
    if has_last_number(last, record) {
        return false;
    }
    if is_too_long(state, record) {
        return false;
    }
    is_open(state) || may_begin(capacity, state)
}

// Whether the lane holds a monitor.
#[inline(always)]
fn is_open(state: LaneState) -> bool
    ensures { IsTrue result ↔ (0 < state.held) }
{
    state.held > 0
}

// Whether a section may begin at the lane's place.
#[inline(always)]
fn may_begin(capacity: u32, state: LaneState) -> bool
    requires place { state.place + section_records < 2 ^ 64 }
    requires start { state.start ≤ state.place }
    ensures { IsTrue result ↔ ((state.place < 2 ^ 62) × (state.place + section_records ≤ state.start + capacity)) }
{
    state.place < LAST_PLACE && state.place - state.start + SECTION_RECORDS <= u64::from(capacity)
}

/// Whether the record is taken, and else why not.
pub fn check(
    last: u64,
    capacity: u32,
    lanes: &[LaneState],
    monitors: &[MonitorState],
    fields: &[FieldState],
    lane: Lane,
    record: Record,
) -> Result<(), StoreError>
    requires guards { (f : ℕ) → f < length fields.now → guard_in fields.now f < length monitors.now }
    requires place { (l : ℕ) → l < length lanes.now → (lane_in lanes.now l).place + section_records < 2 ^ 64 }
    requires start { (l : ℕ) → l < length lanes.now → (lane_in lanes.now l).start ≤ (lane_in lanes.now l).place }
    requires held { (l : ℕ) → l < length lanes.now → (lane_in lanes.now l).held + 1 < 2 ^ 32 }
    ensures { Judges last capacity lanes.now monitors.now fields.now lane.0 «record» result }
{
    if lanes.len() <= lane.0 as usize {
        return Err(StoreError::BadLane);
    }
    if !is_named(monitors.len(), fields, record) {
        return Err(StoreError::BadId);
    }
    judge(
        last,
        capacity,
        lane_at(lanes, lane),
        monitors,
        fields,
        lane,
        record,
    )
}

// Whether the record, whose lane and names are good, is taken, and else why not.
#[inline(always)]
fn judge(
    last: u64,
    capacity: u32,
    state: LaneState,
    monitors: &[MonitorState],
    fields: &[FieldState],
    lane: Lane,
    record: Record,
) -> Result<(), StoreError>
    requires named { IsNamed (length monitors.now) fields.now «record» }
    requires guards { (f : ℕ) → f < length fields.now → guard_in fields.now f < length monitors.now }
    requires place { state.place + section_records < 2 ^ 64 }
    requires start { state.start ≤ state.place }
    requires held { state.held + 1 < 2 ^ 32 }
    ensures { JudgesNamed last capacity state monitors.now fields.now lane.0 «record» result }
{
    if is_worn(last, state, record) {
        return Err(StoreError::Worn);
    }
    if !is_next(last, monitors, fields, lane, state, record) {
        return Err(StoreError::NotNext);
    }
    if is_too_long(state, record) {
        return Err(StoreError::TooLong);
    }
    if is_full(capacity, state) {
        return Err(StoreError::LogFull);
    }
    Ok(())
}

/// Whether a lane holds a monitor.
pub fn any_open(lanes: &[LaneState]) -> bool
    ensures open { result ≡ true → (l : ℕ) × (l < length lanes.now) × (0 < (lane_in lanes.now l).held) }
    ensures closed { result ≡ false → (l : ℕ) → (lane_in lanes.now l).held ≡ 0 }
{
    for state in lanes {
        if state.held > 0 {
            return true;
        }
    }
    false
}
