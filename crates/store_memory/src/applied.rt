//! What a store remembers of the records applied.

ghost use Rattle.std.specs.Prelude.{◌≡◌, ◌+◌, ◌^◌, ◌<◌, ◌≤◌, ◌↔◌, ℕ, false, length, slice_index, IsTrue, Ok, Err, IfOk, OnOk, OnErr, MatchOption};
ghost use Rattle.heap_model.specs.Setting.{Setting};
ghost use Rattle.heap_model.specs.declared.record.Record.TheVariants.{Acq, Rel, WaitRel, Put};
ghost use Rattle.heap_model.specs.Log.{value as value_of, log_from};
ghost use Rattle.heap_model.specs.Past.{Past, applied, no_past, after_log, after_home, after_trim};
ghost use Rattle.store_memory.specs.Memory.{field_in, lane_in, guard_in, value_in, KeepsLayout};
ghost use Rattle.store_memory.specs.Remembers.{Remembers, place_of, held_of};
ghost use Rattle.store_memory.specs.Apply.{Takes};
ghost use Rattle.store_memory.specs.Verdict.{Judges};
ghost use Rattle.store_memory.specs.Fresh.{undo_log_of};
ghost use Rattle.store_memory.specs.Limits.{AreWithin, FitWords};
ghost use Rattle.store_memory.specs.Begin.{AreFieldsOf, IsLeastDirtyOf};
ghost use Rattle.store_memory.specs.Trimming.{MayStart};

use crate::check::{again, any_open, check, field_at, is_taken, lane_at, word_law};
use crate::dirty::DirtyFields;
use crate::fresh::FreshRecords;
use crate::logged::log_all;
use crate::note::{note_lane, note_monitor, note_starts, note_store};
use crate::states::{FREE, FieldState, IDLE, LaneState, MonitorState};
use heap_model::{
    FieldId, LANES, Lane, LaneRecord, NewRecords, ObjectId, Record, StoreError, UndoRecord,
};
use std::alloc::{AllocError, Global};
use std::marker::Model;

/// What a store remembers of the records that were applied to it: who holds each monitor and its number,
/// each field's value, each lane's open section, the records that are not yet logged, and the fields that
/// have to be written home.
///
/// Contracts see a memory as plain data, and say of which pasts it is the memory.
#[derive(Drop)]
pub struct Applied {
    last: u64,
    capacity: u32,
    lanes: Vec<LaneState>,
    monitors: Vec<MonitorState>,
    fields: Vec<FieldState>,
    fresh: FreshRecords,
    dirty: DirtyFields,
}

impl Model for Applied {
    ghost use Rattle.store_memory.specs.Memory.{Memory};

    ghost Value = { Memory };

    ghost use Rattle.store_memory.specs.Within.{memory_of, IsKept};

    ghost view = { memory_of };

    ghost invariant = { IsKept };
}

impl Applied {
    /// The memory of no records: all monitors are free at number 0, and the fields have their values at home. Release
    /// numbers stay at `last` or below; `capacity` is how many records a lane's area holds.
    ///
    /// It reserves all the memory that the records will need: for each record of each lane's area what the
    /// undo log keeps of it, and the record itself. What no record has used yet isn't touched. No other call takes memory.
    pub fn new(
        alloc: Global,
        lanes: u8,
        capacity: u32,
        objects: u32,
        fields: Vec<FieldState>,
        last: u64,
    ) -> Result<Applied, AllocError>
        requires fields { length fields.items < 2 ^ 32 }
        requires guards { (f : ℕ) → f < length fields.items → guard_in fields.items f < objects }
        requires home { (f : ℕ) → f < length fields.items → (field_in fields.items f).logged ≡ value_in fields.items f }
        // A new memory is that of no records.
        ensures remembers { (s : Setting) → AreFieldsOf objects fields.items last s
            → IfOk result (λ m. Remembers s m no_past) }
        ensures lanes { IfOk result (λ m. length m.lanes ≡ lanes) }
        ensures capacity { IfOk result (λ m. m.capacity ≡ capacity) }
        ensures fields { IfOk result (λ m. length m.fields ≡ length fields.items) }
        ensures starts { IfOk result (λ m. (l : ℕ) → (lane_in m.lanes l).start ≡ 0) }
    {
        let count = fields.len() as u32;
        Ok(Applied {
            last,
            capacity,
            lanes: vec![in alloc; IDLE; lanes as usize]?,
            monitors: vec![in alloc; FREE; objects as usize]?,
            fields,
            fresh: FreshRecords::new(alloc, lanes, capacity)?,
            dirty: DirtyFields::new(alloc, count)?,
        })
    }

    /// Applies the lane's next record, in constant time and with no memory taken.
    ///
    /// A refusal changes nothing. The reasons are tried in the order of [`StoreError`].
    #[inline(always)]
    pub fn apply(&mut self, lane: Lane, record: Record) -> Result<(), StoreError>
        ensures { Takes lane.0 «record» self.old self.new result }
    {
        // Each kind has a function, which gets the record's parts in registers.
        match record {
            Record::Acq { object, number } => self.take_acquire(lane, object, number),
            Record::Rel { object, number } => self.take_release(lane, object, number),
            Record::WaitRel { object, number } => self.take_wait(lane, object, number),
            Record::Put {
                field,
                before,
                after,
            } => self.take_store(lane, field, before, after),
        }
    }

    // Applies an acquire.
    #[inline(never)]
    fn take_acquire(&mut self, lane: Lane, object: ObjectId, number: u64) -> Result<(), StoreError>
        ensures { Takes lane.0 (Acq object number) self.old self.new result }
    {
        self.take(lane, Record::Acq { object, number })
    }

    // Applies a release.
    #[inline(never)]
    fn take_release(&mut self, lane: Lane, object: ObjectId, number: u64) -> Result<(), StoreError>
        ensures { Takes lane.0 (Rel object number) self.old self.new result }
    {
        self.take(lane, Record::Rel { object, number })
    }

    // Applies the release of a wait.
    #[inline(never)]
    fn take_wait(&mut self, lane: Lane, object: ObjectId, number: u64) -> Result<(), StoreError>
        ensures { Takes lane.0 (WaitRel object number) self.old self.new result }
    {
        self.take(lane, Record::WaitRel { object, number })
    }

    // Applies a store.
    #[inline(never)]
    fn take_store(
        &mut self,
        lane: Lane,
        field: FieldId,
        before: u64,
        after: u64,
    ) -> Result<(), StoreError>
        ensures { Takes lane.0 (Put field before after) self.old self.new result }
    {
        self.take(
            lane,
            Record::Put {
                field,
                before,
                after,
            },
        )
    }

    // Applies the lane's next record. It is written out for each kind, so that no test asks for the kind.
    #[inline(always)]
    fn take(&mut self, lane: Lane, record: Record) -> Result<(), StoreError>
        ensures { Takes lane.0 «record» self.old self.new result }
    {
        if is_taken(
            self.last,
            self.capacity,
            &self.lanes,
            &self.monitors,
            &self.fields,
            lane,
            record,
        ) {
            word_law(record);
            note_lane(&mut self.lanes, lane, record);
            note_monitor(&mut self.monitors, &self.fields, lane, record);
            note_store(&mut self.fields, self.monitors.len(), record);
            self.fresh.push(lane, record);
            Ok(())
        } else {
            // Here alone the record is wanted in memory.
            Err(self.refusal(lane, again(record)))
        }
    }

    // Why the record isn't taken.
    #[inline(never)]
    fn refusal(&self, lane: Lane, record: Record) -> StoreError
        requires refused { ¬ Judges self.now.last self.now.capacity self.now.lanes self.now.monitors self.now.fields lane.0 «record» (Ok tt) }
        ensures { Judges self.now.last self.now.capacity self.now.lanes self.now.monitors self.now.fields lane.0 «record» (Err result) }
    {
        match check(
            self.last,
            self.capacity,
            &self.lanes,
            &self.monitors,
            &self.fields,
            lane,
            record,
        ) {
            Err(reason) => reason,
            Ok(()) => unreachable!(),
        }
    }

    /// The field's value after all records applied.
    pub fn value(&self, field: FieldId) -> u64
        requires { field.0 < length self.now.fields }
        ensures { (s : Setting) (p : Past) → Remembers s self.now p → result ≡ value_of s.first field.0 (applied p) }
    {
        field_at(&self.fields, field).value
    }

    /// The field's value after all records logged, which may be written home.
    pub fn logged_value(&self, field: FieldId) -> u64
        requires { field.0 < length self.now.fields }
        ensures { (s : Setting) (p : Past) → Remembers s self.now p → result ≡ value_of s.first field.0 p.logged }
    {
        field_at(&self.fields, field).logged
    }

    /// How many records of the lane were applied since the heap was opened: the place of its next one.
    pub fn place(&self, lane: Lane) -> u64
        requires { lane.0 < length self.now.lanes }
        ensures place { (s : Setting) (p : Past) → Remembers s self.now p → result ≡ place_of p lane.0 }
        ensures within { result ≤ (lane_in self.now.lanes lane.0).start + self.now.capacity }
    {
        lane_at(&self.lanes, lane).place
    }

    /// The first place of the lane that was not trimmed.
    pub fn start(&self, lane: Lane) -> u64
        requires { lane.0 < length self.now.lanes }
        ensures { result ≡ (lane_in self.now.lanes lane.0).start }
    {
        lane_at(&self.lanes, lane).start
    }

    /// Whether the lane holds a monitor: then its section is open.
    pub fn is_open(&self, lane: Lane) -> bool
        requires { lane.0 < length self.now.lanes }
        ensures { (s : Setting) (p : Past) → Remembers s self.now p → (IsTrue result ↔ (0 < held_of p lane.0)) }
    {
        lane_at(&self.lanes, lane).held > 0
    }

    /// Whether a lane holds a monitor.
    pub fn any_open(&self) -> bool
        ensures open { (s : Setting) (p : Past) (l : ℕ) → Remembers s self.now p → result ≡ false → held_of p l ≡ 0 }
        ensures closed { (s : Setting) (p : Past) → Remembers s self.now p → ((l : ℕ) → held_of p l ≡ 0) → result ≡ false }
    {
        any_open(&self.lanes)
    }

    /// The records that are not yet logged, in the order applied.
    pub fn fresh(&self) -> &[LaneRecord]
        ensures records { (s : Setting) (p : Past) → Remembers s self.now p → log_from result.now ≡ p.fresh }
        ensures words { FitWords (log_from self.now.fresh) }
        ensures within { AreWithin self.now }
    {
        self.fresh.records()
    }

    /// Takes the fresh records for logged. The fields that they store to are dirty then.
    ///
    /// The time is linear in the fresh records.
    pub fn logged_all(&mut self)
        ensures logged { (s : Setting) (p : Past) → Remembers s self.old p → Remembers s self.new (after_log p) }
        ensures kept { KeepsLayout self.old self.new }
    {
        log_all(&mut self.fields, &mut self.dirty, self.fresh.records());
        self.fresh.clear();
    }

    /// The least dirty field, if one is. The time is that of [`DirtyFields::least`].
    pub fn least_dirty(&self) -> Option<FieldId>
        ensures { (s : Setting) (p : Past) → Remembers s self.now p → MatchOption result ((f : ℕ) → f < s.fields → p.is_dirty f ≡ false) (λ field. IsLeastDirtyOf s p field.0) }
    {
        self.dirty.least()
    }

    /// Takes the field's logged value for written home: it is clean then.
    pub fn home_written(&mut self, field: FieldId)
        ensures home { (s : Setting) (p : Past) → Remembers s self.old p → Remembers s self.new (after_home p field.0) }
        ensures kept { KeepsLayout self.old self.new }
    {
        self.dirty.clear(field);
    }

    /// Takes the lanes' records before these places for trimmed; `places` has them by lane. The lanes have room for as many
    /// records more. One look for each lane.
    pub fn start_at(&mut self, places: &[u64; LANES])
        requires lanes { length self.old.lanes ≤ 32 }
        requires may { (s : Setting) × (p : Past) × MayStart s self.old p places.now }
        ensures trimmed { (s : Setting) (p : Past) → MayStart s self.old p places.now → Remembers s self.new (after_trim p) }
        ensures starts { (l : ℕ) → l < length self.old.lanes → (lane_in self.new.lanes l).start ≡ slice_index places.now l }
        ensures lanes { length self.new.lanes ≡ length self.old.lanes }
        ensures capacity { self.new.capacity ≡ self.old.capacity }
    {
        note_starts(&mut self.lanes, places);
    }
}

impl NewRecords for Applied {
    ghost lanes = { λ m. length m.lanes };

    ghost fresh = { λ m l. undo_log_of l m.fresh };

    /// The lane's records that are not yet logged, the oldest first, as its undo log keeps them.
    fn of(&self, lane: Lane) -> &[UndoRecord]
        requires { lane.0 < length self.now.lanes }
        ensures { result.now ≡ undo_log_of lane.0 self.now.fresh }
    {
        self.fresh.of(lane)
    }
}
