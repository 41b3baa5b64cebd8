//! What is kept in memory for rounds of two syncs.
ghost use Rattle.std.specs.Prelude.{◌≡◌, ◌+◌, ◌<◌, ◌≤◌, ◌∷◌, [], ℕ, List, IfOk, length, slice_index};
ghost use Rattle.heap_model.specs.Log.{log_from};
ghost use Rattle.heap_model.specs.Setting.{Setting};
ghost use Rattle.heap_model.specs.Past.{Past, after_log, after_settle, after_trim, no_past};
ghost use Rattle.store_round_memory.specs.Rounds.{HasFound, KeepsFound, KnowsRounds, MayKeep, MayLog, SurveysOnly};
ghost use Rattle.store_round_memory.specs.Surveys.{IsSortedByField, is_marked};

use crate::counting::{at_most, begin, count, counts_between, first_place, move_fronts};
use crate::keeping::{leave, write_all};
use crate::survey::Survey;
use heap_model::{FieldId, LaneRecord};
use std::alloc::{AllocError, Global};
use std::marker::Model;
use store_round_image::HomeValue;

/// What a store for rounds of two syncs keeps in memory: by field what the acknowledged cut keeps, the logged records beyond that
/// cut, and what a survey has found of these.
///
/// Contracts see it as plain data, and say of which past it is true.
#[derive(Drop)]
pub struct RoundMemory {
    lanes: u8,
    // How many records each lane may have beyond the cut.
    capacity: u32,
    // By field: what the acknowledged cut keeps.
    kept: Vec<u64>,
    // The logged records beyond the cut, the oldest first.
    beyond: Vec<LaneRecord>,
    // By lane: the place of the first of them, which is how many records lie before it.
    starts: [u64; 32],
    // By lane: how many of them are its own, and how many of these the last survey counts as kept.
    many: [u64; 32],
    counted: [u64; 32],
    // By lane: none of its records lies before this one of `beyond`. A survey begins at the least front of the lanes that it takes
    // records of, and so doesn't walk over records that stay.
    fronts: [usize; 32],
    found: Survey,
}

impl Model for RoundMemory {
    ghost use Rattle.store_round_memory.specs.Rounds.{Rounds};

    ghost Value = { Rounds };

    ghost use Rattle.store_round_memory.specs.Inside.{rounds_of, IsSound};

    ghost view = { rounds_of };

    ghost invariant = { IsSound };
}

impl RoundMemory {
    /// The memory of no records, with the first values of the fields; each of so many lanes may have so many records beyond the cut.
    ///
    /// It takes all the memory that the records will need. No other call takes memory.
    pub fn new(
        alloc: Global,
        lanes: u8,
        capacity: u32,
        objects: u32,
        heap: &[u64],
    ) -> Result<RoundMemory, AllocError>
        requires { lanes ≤ 32 }
        // A memory for rounds begins as that of no records, with the first values of the fields.
        ensures knows { (s : Setting) → s.objects ≡ objects → s.fields ≡ length heap.now → ((f : ℕ) → f < s.fields → slice_index heap.now f ≡ s.first f)
            → IfOk result (λ m. KnowsRounds s m no_past) }
        ensures lanes { IfOk result (λ m. m.lanes ≡ lanes) }
        ensures capacity { IfOk result (λ m. m.capacity ≡ capacity) }
    {
        Ok(RoundMemory {
            lanes,
            capacity,
            kept: heap.to_vec(alloc)?,
            beyond: Vec::with_capacity(alloc, usize::from(lanes) * capacity as usize)?,
            starts: [0; 32],
            many: [0; 32],
            counted: [0; 32],
            fronts: [0; 32],
            found: Survey::new(alloc, objects, heap.len())?,
        })
    }

    /// What was applied counts as logged: this record. The time is constant.
    pub fn add(&mut self, next: LaneRecord)
        requires may { (s : Setting) × (p : Past) × MayLog s self.old p × (log_from (next ∷ []) ≡ p.fresh) }
        // Once what was applied counts as logged, the memory for rounds is still that of the store's past.
        ensures knows { (s : Setting) (p : Past) → MayLog s self.old p → log_from (next ∷ []) ≡ p.fresh → KnowsRounds s self.new (after_log p) }
        ensures found { KeepsFound self.old self.new }
    {
        begin(&mut self.fronts, &self.many, next.lane, self.beyond.len());
        count(&mut self.many, next.lane);
        self.found.take(next.record);
        self.beyond.push_reserved(next);
    }

    /// Finds what the cut behind these places keeps of the records beyond the acknowledged one, and forgets what was found before.
    ///
    /// The time is linear in the records from the oldest one on that the cut keeps beyond the acknowledged one, but for a sort of the
    /// fields found. Where the last survey's cut wasn't acknowledged, it is linear in that one's records too.
    pub fn survey(&mut self, places: &[u64; 32])
        // A survey finds each field of which a later cut keeps a store beyond the acknowledged one, with the value that it keeps, and at which
        // number each object is first taken beyond the later cut.
        ensures found { (s : Setting) (p : Past) (next : ℕ → ℕ) → MayKeep s self.old p next places.now → HasFound s self.new p next }
        // A survey leaves the changed fields in their order.
        ensures sorted { IsSortedByField self.new.changed }
        ensures only { SurveysOnly self.old self.new }
    {
        let was = first_place(&self.fronts, &self.counted, self.beyond.len());
        self.found
            .forget(&self.beyond, &self.many, was, &self.counted);
        self.counted = at_most(&counts_between(&self.starts, places), &self.many);
        let from = first_place(&self.fronts, &self.counted, self.beyond.len());
        self.found
            .find(&self.beyond, &self.many, from, &self.counted);
    }

    /// The fields that the last survey found to change, each once and in their order, with their new values.
    pub fn changed(&self) -> &[HomeValue]
        ensures { result.now ≡ self.now.changed }
    {
        &self.found.changed
    }

    /// Whether the last survey found that the field changes.
    pub fn is_changed(&self, field: FieldId) -> bool
        requires { field.0 < length self.now.kept }
        ensures { result ≡ is_marked self.now.marks field.0 }
    {
        self.found.marks[field.0 as usize]
    }

    /// By object: 0, or one more than the number at which the last survey found it to be first taken beyond the later cut.
    pub fn first(&self) -> &[u64]
        ensures { result.now ≡ self.now.first }
    {
        &self.found.first
    }

    /// By field: what the acknowledged cut keeps.
    pub fn kept(&self) -> &[u64]
        ensures { result.now ≡ self.now.kept }
    {
        &self.kept
    }

    /// The cut behind these places, of which the last survey was, is acknowledged. The time is linear in the records from the oldest one
    /// on that the cut keeps.
    pub fn keep(&mut self, places: &[u64; 32])
        requires may { (s : Setting) × (p : Past) × (next : ℕ → ℕ) × MayKeep s self.old p next places.now × HasFound s self.old p next }
        // Once the surveyed cut is acknowledged and trimmed, the memory for rounds is still that of the store's past.
        ensures knows { (s : Setting) (p : Past) (next : ℕ → ℕ) → MayKeep s self.old p next places.now → HasFound s self.old p next
            → KnowsRounds s self.new (after_trim (after_settle p next)) }
        ensures found { KeepsFound self.old self.new }
    {
        write_all(&mut self.kept, &self.found.changed);
        let from = first_place(&self.fronts, &self.counted, self.beyond.len());
        let left = leave(&mut self.beyond, from, &self.counted);
        self.beyond.truncate(left);
        move_fronts(&mut self.fronts, &self.beyond, from);
        self.many = counts_between(&self.counted, &self.many);
        self.counted = [0; 32];
        self.starts = *places;
    }
}
