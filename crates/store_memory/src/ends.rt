//! Where the sections of the lanes end.
//!
//! A table has rows with a slot for each lane. Where a lane's section n ends stands in row n mod the number of rows, of which there is one
//! more than a lane may have records since what was trimmed. Row 0 is that of the lanes' beginnings at first. The table grows up to the last
//! slot that was noted; a slot past its end has 0.

ghost use Rattle.std.specs.Prelude.{◌≡◌, ◌+◌, ◌-◌, ◌*◌, ◌^◌, ◌<◌, ◌≤◌, ℕ, length, slice_index, slice_set, nat_lt, vec_capacity, IsTrue, ◌↔◌};
ghost use Rattle.dependence.specs.Trace.{in_all, sections_of};
ghost use Rattle.store_memory.specs.Ends.{slot_of, with_slot};
ghost use Rattle.store_memory.specs.Counted.{MayEnd, ends_after};

use dependence::Graph;
use heap_model::{LANES, Lane, Record};

/// How many slots a table has, for lanes that may have so many records each.
pub fn slots(lanes: u8, capacity: u32) -> usize
    ensures { result ≡ (capacity + 1) * lanes }
{
    (capacity as usize + 1) * lanes as usize
}

// The slot of the lane's section with this number.
#[inline(always)]
fn slot(capacity: u32, lanes: u8, lane: Lane, section: u64) -> usize
    ensures { result ≡ slot_of capacity lanes lane.0 section }
{
    (section % (capacity as u64 + 1)) as usize * lanes as usize + lane.0 as usize
}

// What stands in the slot.
#[inline(always)]
fn place_in(ends: &[u64], slot: usize) -> u64
    ensures { result ≡ slice_index ends.now slot }
{
    if slot < ends.len() { ends[slot] } else { 0 }
}

// Notes the place in the slot, up to which the table grows.
fn note(ends: &mut Vec<u64>, slot: usize, place: u64)
    requires { slot < vec_capacity ends.old }
    ensures noted { ends.new.items ≡ with_slot ends.old.items slot place }
    ensures capacity { vec_capacity ends.new ≡ vec_capacity ends.old }
{
    for _ in ends.len()..slot + 1 {
        ends.push_reserved(0);
    }
    ends[slot] = place;
}

/// Whether a section ended with the record, so that there are more than before. Only a release ends one.
#[inline(always)]
pub fn has_ended(next: Record, before: u64, after: u64) -> bool
    requires { MayEnd next before after }
    ensures { result ≡ nat_lt before after }
{
    match next {
        Record::Rel { .. } | Record::WaitRel { .. } => before < after,
        Record::Acq { .. } | Record::Put { .. } => false,
    }
}

/// Counts the lane's next record, and notes the place after it if that is where the section of this number ended.
#[inline(always)]
pub fn count(
    places: &mut [u64],
    ends: &mut Vec<u64>,
    capacity: u32,
    lanes: u8,
    lane: Lane,
    has_ended: bool,
    section: u64,
)
    requires lane { lane.0 < lanes }
    requires lanes { lanes ≤ length places.old }
    requires room { (capacity + 1) * lanes ≤ vec_capacity ends.old }
    requires place { slice_index places.old lane.0 + 1 < 2 ^ 64 }
    ensures places { places.new ≡ slice_set places.old lane.0 (slice_index places.old lane.0 + 1) }
    ensures ends { ends.new.items ≡ ends_after capacity lanes lane.0 has_ended section (slice_index places.old lane.0 + 1) ends.old.items }
    ensures capacity { vec_capacity ends.new ≡ vec_capacity ends.old }
{
    let place = places[lane.0 as usize] + 1;
    places[lane.0 as usize] = place;
    if has_ended {
        note(ends, slot(capacity, lanes, lane, section), place);
    }
}

/// By lane, the place after the sections that `counts` has of it. A lane from `lanes` on has 0.
pub fn places_behind(lanes: u8, capacity: u32, ends: &[u64], counts: &[u64; LANES]) -> [u64; LANES]
    requires { lanes ≤ 32 }
    ensures behind { (l : ℕ) → l < lanes → slice_index result l ≡ slice_index ends.now (slot_of capacity lanes l (slice_index counts.now l)) }
    ensures none { (l : ℕ) → lanes ≤ l → slice_index result l ≡ 0 }
{
    let mut places = [0; LANES];
    for lane in 0..lanes {
        places[lane as usize] = place_in(
            ends,
            slot(capacity, lanes, Lane(lane), counts[lane as usize]),
        );
    }
    places
}

/// How many records the lanes have from these places on, of each at most `capacity`; `behind` has the place after each lane's last one.
pub fn records_from(lanes: u8, capacity: u32, behind: &[u64; LANES], places: &[u64; LANES]) -> usize
    requires lanes { lanes ≤ 32 }
    requires low { (l : ℕ) → l < lanes → slice_index places.now l ≤ slice_index behind.now l }
    requires near { (l : ℕ) → l < lanes → slice_index behind.now l ≤ slice_index places.now l + capacity }
    ensures { result ≡ in_all lanes (λ l. slice_index behind.now l - slice_index places.now l) }
{
    let mut records = 0;
    for lane in 0..lanes as usize {
        records += (behind[lane] - places[lane]) as usize;
    }
    records
}

/// Whether each of the lanes has ended no more sections than `cut` has of it.
pub fn are_within(lanes: u8, graph: &Graph, cut: &[u64; LANES]) -> bool
    requires few { lanes ≤ 32 }
    requires lanes { graph.now.lanes ≡ lanes }
    ensures { IsTrue result ↔ ((l : ℕ) → l < lanes → sections_of graph.now l ≤ slice_index cut.now l) }
{
    for lane in 0..lanes {
        if cut[lane as usize] < graph.sections(Lane(lane)) {
            return false;
        }
    }
    true
}
