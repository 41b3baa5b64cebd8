//! What stays in memory once a cut is acknowledged.
ghost use Rattle.std.specs.Prelude.{◌≡◌, ◌≢◌, ◌+◌, ◌<◌, ◌≤◌, if◌then◌else◌, ℕ, All, AllPairs, Contains, length, slice_index, slice_set, take};
ghost use Rattle.heap_model.specs.Log.{log_from};
ghost use Rattle.store_round_image.specs.Turning.{fields_of};
ghost use Rattle.store_round_memory.specs.Counting.{Apart, records_left};
ghost use Rattle.store_round_memory.specs.Surveys.{HasField, HasLane};

use crate::counting::is_next_kept;
use heap_model::LaneRecord;
use store_round_image::HomeValue;

/// Moves the records to the front without the first so many of each lane, and tells how many are left. None of those lies before `from`,
/// where the walk begins.
pub(crate) fn leave(records: &mut [LaneRecord], from: usize, counts: &[u64; 32]) -> usize
    requires lanes { All HasLane records.old }
    requires from { from ≤ length records.old }
    requires apart { Apart counts.now (log_from (take from records.old)) }
    ensures size { length records.new ≡ length records.old }
    ensures within { result ≤ length records.old }
    ensures front { from ≤ result }
    ensures before { take from records.new ≡ take from records.old }
    ensures left { log_from (take result records.new) ≡ records_left counts.now (log_from records.old) }
{
    let mut rest = *counts;
    let mut left = from;
    for place in from..records.len() {
        let entry = records[place];
        let is_kept = is_next_kept(&mut rest, entry.lane);
        left = put_unless(is_kept, records, left, entry);
    }
    left
}

// Puts the record at the place, unless it is kept, and tells the place behind what is left.
fn put_unless(is_kept: bool, records: &mut [LaneRecord], place: usize, entry: LaneRecord) -> usize
    requires { place < length records.old }
    ensures place { result ≡ (if is_kept then place else place + 1) }
    ensures records { records.new ≡ (if is_kept then records.old else slice_set records.old place entry) }
{
    if is_kept {
        place
    } else {
        records[place] = entry;
        place + 1
    }
}

/// Gives the fields these values.
pub(crate) fn write_all(heap: &mut [u64], changed: &[HomeValue])
    requires { All (HasField (length heap.old)) changed.now }
    ensures size { length heap.new ≡ length heap.old }
    ensures written { AllPairs (λ c d. c.field.0 ≢ d.field.0) changed.now → All (λ c. slice_index heap.new c.field.0 ≡ c.value) changed.now }
    ensures others { (f : ℕ) → (Contains (fields_of changed.now) f → ⊥) → slice_index heap.new f ≡ slice_index heap.old f }
{
    for change in changed {
        write(heap, *change);
    }
}

// Gives the field this value.
fn write(heap: &mut [u64], change: HomeValue)
    requires { change.field.0 < length heap.old }
    ensures { heap.new ≡ slice_set heap.old change.field.0 change.value }
{
    heap[change.field.0 as usize] = change.value;
}
