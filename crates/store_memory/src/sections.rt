//! What the store knows of the logged records: which sections may be acknowledged, and where they end.

ghost use Rattle.std.specs.Prelude.{◌≡◌, ◌+◌, ◌*◌, ◌^◌, ◌<◌, ◌≤◌, ◌∷◌, [], ◌++◌, ◌↔◌, ℕ, List, min, IsTrue, IfOk, length, slice_index};
ghost use Rattle.heap_model.specs.declared.record.Record.{Record as AnyRecord};
ghost use Rattle.heap_model.specs.Log.{lane as lane_of, log_from};
ghost use Rattle.heap_model.specs.Record.{undo_of};
ghost use Rattle.heap_model.specs.Sections.{action, actions, ended};
ghost use Rattle.heap_model.specs.Cuts.{counts_of, IsStable};
ghost use Rattle.dependence.specs.Trace.{sections_of};
ghost use Rattle.dependence.specs.Next.{IsNext, IsObjectBelow};
ghost use Rattle.store_memory.specs.Sections.{place_behind, with_action, Adds, MayAdd, TellsSections};
ghost use Rattle.store_memory.specs.Trimming.{MayForget, IsPaid};

use crate::ends::{are_within, count, has_ended, places_behind, records_from, slots};
use crate::stable_sections::StableSections;
use dependence::Graph;
use heap_model::{Cut, LANES, Lane, LaneRecord, MOST_OBJECTS, Record, UndoRecord};
use std::alloc::{AllocError, Global};
use std::marker::Model;

/// The sections of the logged records: how they depend on one another, and the place after each. No section depends on a
/// store, so that the graph has the other records alone.
///
/// Contracts see them as plain data, and say of which log they tell. Of that a base may have been trimmed:
/// the sections since are numbered on, and places count the records from the first on.
#[derive(Drop)]
pub struct LoggedSections {
    lanes: u8,
    // How many records each lane may have since what was trimmed.
    capacity: u32,
    graph: Graph,
    // By lane: the place after its last record, which is how many were logged since the heap was opened.
    places: [u64; LANES],
    // By slot: the place after each section since what was trimmed, and after what was. Room is reserved for all slots.
    ends: Vec<u64>,
}

impl Model for LoggedSections {
    ghost use Rattle.store_memory.specs.Sections.{Logged};

    ghost Value = { Logged };

    ghost use Rattle.store_memory.specs.KeptSections.{logged_of, HasSlots};

    ghost view = { logged_of };

    ghost invariant = { HasSlots };
}

impl LoggedSections {
    /// The sections of no records, with room for so many records of each of so many lanes, at most 32.
    ///
    /// It reserves all the memory that they will need: for each record twice what the graph takes, which
    /// forgets late, and a word of eight bytes. What no record has used yet isn't touched. No other call takes memory.
    pub fn with_capacity(
        alloc: Global,
        lanes: u8,
        capacity: u32,
    ) -> Result<LoggedSections, AllocError>
        requires { lanes ≤ 32 }
        ensures empty { IfOk result (λ m. TellsSections m (λ l. 0) []) }
        ensures lanes { IfOk result (λ m. m.lanes ≡ lanes) }
        ensures capacity { IfOk result (λ m. m.capacity ≡ capacity) }
    {
        Ok(LoggedSections {
            lanes,
            capacity,
            graph: Graph::with_capacity(alloc, lanes, 2 * room(lanes, capacity))?,
            places: [0; LANES],
            ends: Vec::with_capacity(alloc, slots(lanes, capacity))?,
        })
    }

    /// Adds a lane's next logged record. The time is constant.
    pub fn push(&mut self, lane: Lane, next: Record)
        requires may { MayAdd self.old ((lane.0, next) ∷ []) }
        ensures { Adds ((lane.0, next) ∷ []) self.old self.new }
    {
        // A case for each kind: the compiler then writes out what is done for that kind alone.
        match next {
            Record::Acq { object, number } => self.add(lane, Record::Acq { object, number }),
            Record::Rel { object, number } => self.add(lane, Record::Rel { object, number }),
            Record::WaitRel { object, number } => {
                self.add(lane, Record::WaitRel { object, number });
            }
            Record::Put {
                field,
                before,
                after,
            } => self.add(
                lane,
                Record::Put {
                    field,
                    before,
                    after,
                },
            ),
        }
    }

    // Adds a lane's next logged record.
    #[inline(always)]
    fn add(&mut self, lane: Lane, next: Record)
        requires may { MayAdd self.old ((lane.0, next) ∷ []) }
        ensures { Adds ((lane.0, next) ∷ []) self.old self.new }
    {
        let before = self.graph.sections(lane);
        tell(&mut self.graph, lane, next);
        let after = self.graph.sections(lane);
        let has_ended = has_ended(next, before, after);
        count(
            &mut self.places,
            &mut self.ends,
            self.capacity,
            self.lanes,
            lane,
            has_ended,
            after,
        );
    }

    /// Adds the next logged records, the oldest first. The time is linear in them.
    pub fn push_all(&mut self, records: &[LaneRecord])
        requires may { MayAdd self.old (log_from records.now) }
        ensures { Adds (log_from records.now) self.old self.new }
    {
        for entry in records {
            self.push(entry.lane, entry.record);
        }
    }

    /// The stable cut of what is logged, and by lane the place after its sections.
    ///
    /// The time is that of [`Graph::stable_cut`] and of a look for each lane.
    pub fn stable(&mut self) -> StableSections
        ensures stable { (base : ℕ → ℕ) (log : List (ℕ × AnyRecord)) → TellsSections self.old base log → IsStable (actions log) (counts_of result.cut) }
        ensures behind { (base : ℕ → ℕ) (log : List (ℕ × AnyRecord)) → TellsSections self.old base log → (l : ℕ) → slice_index result.places l ≡ place_behind (counts_of result.cut l) (lane_of l log) }
        ensures same { self.new ≡ self.old }
    {
        let cut = self.graph.stable_cut();
        StableSections {
            cut,
            places: places_behind(self.lanes, self.capacity, &self.ends, &cut.counts),
        }
    }

    /// Forgets the sections of the cut, and with that frees the room that their records took. Sections and places are numbered on,
    /// and no memory is taken.
    ///
    /// The graph forgets later, all at once: when what it leaves out is as much as what it has to walk over. So over many
    /// calls the time is that of the records forgotten, and in each a look for each lane. What the graph still has of the
    /// sections forgotten changes no answer.
    pub fn forget_to(&mut self, cut: &Cut)
        requires may { (base : ℕ → ℕ) × (log : List (ℕ × AnyRecord)) × MayForget self.old base log (counts_of cut.now) }
        // What is forgotten changes no stable cut.
        ensures tells { (base : ℕ → ℕ) (log : List (ℕ × AnyRecord)) → MayForget self.old base log (counts_of cut.now) → TellsSections self.new (counts_of cut.now) log }
        // Where the graph forgets, it leaves out at least as many records as stay in it and 4,096 more, or as the lanes
        // have room for. So over many trims its walks take time in what was forgotten.
        ensures paid { IsPaid self.old self.new }
        ensures lanes { self.new.lanes ≡ self.old.lanes }
        ensures capacity { self.new.capacity ≡ self.old.capacity }
    {
        let places = places_behind(self.lanes, self.capacity, &self.ends, &cut.counts);
        let left = records_from(self.lanes, self.capacity, &self.places, &places);
        let most = room(self.lanes, self.capacity);
        // Not each time: the graph walks over all that stays.
        if is_paid(2 * most - self.graph.room(), left, most) {
            self.graph.forget_to(cut);
        }
    }

    /// Whether the cut has each logged section that has ended. One look for each lane.
    pub fn is_all_within(&self, cut: &Cut) -> bool
        ensures { (base : ℕ → ℕ) (log : List (ℕ × AnyRecord)) → TellsSections self.now base log → (IsTrue result ↔ ((l : ℕ) → ended (lane_of l (actions log)) ≤ counts_of cut.now l)) }
    {
        are_within(self.lanes, &self.graph, &cut.counts)
    }
}

// Tells the graph what the lane's next record does to a monitor. A store does nothing to one, and no section depends on it.
#[inline(always)]
fn tell(graph: &mut Graph, lane: Lane, next: Record)
    requires room { 0 < graph.old.room }
    requires lane { lane.0 < graph.old.lanes }
    requires object { IsObjectBelow 4096 (undo_of next) }
    requires next { IsNext graph.old.log lane.0 (action next) }
    requires fits { sections_of graph.old lane.0 + 1 < 2 ^ 64 }
    ensures log { graph.new.log ≡ with_action (lane.0, action next) graph.old.log }
    ensures room { graph.new.room + length graph.new.log ≡ graph.old.room + length graph.old.log }
    ensures base { graph.new.base ≡ graph.old.base }
    ensures lanes { graph.new.lanes ≡ graph.old.lanes }
{
    match next {
        Record::Acq { object, number } => graph.push(lane, &UndoRecord::Acq { object, number }),
        Record::Rel { object, number } => graph.push(lane, &UndoRecord::Rel { object, number }),
        Record::WaitRel { object, number } => {
            graph.push(lane, &UndoRecord::WaitRel { object, number });
        }
        Record::Put { .. } => {}
    }
}

// How many records the lanes have room for.
fn room(lanes: u8, capacity: u32) -> usize
    ensures { result ≡ lanes * capacity }
{
    lanes as usize * capacity as usize
}

// Whether a graph of so many records, of which so many stay, leaves out as many as stay and the objects, or as many as the
// lanes have room for.
fn is_paid(records: usize, left: usize, most: usize) -> bool
    requires left { left ≤ most }
    requires most { most < 2 ^ 62 }
    ensures { IsTrue result ↔ (left + min most (left + 4096) ≤ records) }
{
    left + most.min(left + MOST_OBJECTS) <= records
}
