//! How many records lanes have, and where they begin.
ghost use Rattle.std.specs.Prelude.{◌≡◌, ◌≢◌, ◌+◌, ◌-◌, ◌<◌, ◌≤◌, ◌^◌, ◌==◌, ℕ, All, if◌then◌else◌, length, nat_lt, slice_index, slice_index_or, slice_set};
ghost use Rattle.heap_model.specs.declared.record.LaneRecord.{LaneRecord};
ghost use Rattle.store_round_memory.specs.Surveys.{AreFronts, HasLane};

use heap_model::{Lane, LaneRecord};

/// Counts a record of the lane.
pub(crate) fn count(counts: &mut [u64; 32], lane: Lane)
    requires lane { lane.0 < 32 }
    requires low { slice_index counts.old lane.0 + 1 < 2 ^ 64 }
    ensures { counts.new ≡ slice_set counts.old lane.0 (slice_index counts.old lane.0 + 1) }
{
    counts[usize::from(lane.0)] += 1;
}

/// A lane that has no record yet begins at the end.
pub(crate) fn begin(fronts: &mut [usize; 32], many: &[u64; 32], lane: Lane, end: usize)
    requires { lane.0 < 32 }
    ensures set { fronts.new ≡ (if slice_index many.now lane.0 == 0 then slice_set fronts.old lane.0 end else fronts.old) }
    ensures long { length fronts.new ≡ 32 }
{
    if many[usize::from(lane.0)] == 0 {
        fronts[usize::from(lane.0)] = end;
    }
}

/// By lane: how many records lie between its two places.
pub(crate) fn counts_between(starts: &[u64; 32], places: &[u64; 32]) -> [u64; 32]
    ensures between { (l : ℕ) → l < 32 → slice_index result l ≡ slice_index places.now l - slice_index starts.now l }
    ensures long { length result ≡ 32 }
{
    let mut counts = [0; 32];
    for lane in 0..32 {
        counts[lane] = places[lane].saturating_sub(starts[lane]);
    }
    counts
}

/// By lane: the count, and no more than the lane has.
pub(crate) fn at_most(counts: &[u64; 32], many: &[u64; 32]) -> [u64; 32]
    ensures within { (l : ℕ) → l < 32 → slice_index result l ≤ slice_index many.now l }
    ensures same { (l : ℕ) → l < 32 → slice_index counts.now l ≤ slice_index many.now l → slice_index result l ≡ slice_index counts.now l }
    ensures long { length result ≡ 32 }
{
    let mut least = [0; 32];
    for lane in 0..32 {
        least[lane] = counts[lane].min(many[lane]);
    }
    least
}

/// Where the records may begin of which lanes have these counts; the end where no lane has one.
pub(crate) fn first_place(fronts: &[usize; 32], counts: &[u64; 32], end: usize) -> usize
    ensures within { result ≤ end }
    ensures front { (l : ℕ) → l < 32 → 0 < slice_index counts.now l → result ≤ slice_index fronts.now l }
{
    let mut first = end;
    for lane in 0..32 {
        first = nearer(first, fronts[lane], counts[lane]);
    }
    first
}

// The nearer one of two places, of which the second is of a lane with this count.
fn nearer(first: usize, front: usize, count: u64) -> usize
    ensures within { result ≤ first }
    ensures front { 0 < count → result ≤ front }
{
    if count > 0 && front < first {
        front
    } else {
        first
    }
}

/// Counts the lane's next record, which counts as kept if this is one of its first so many. They are one less then.
pub(crate) fn is_next_kept(left: &mut [u64; 32], lane: Lane) -> bool
    requires { lane.0 < 32 }
    ensures kept { result ≡ nat_lt 0 (slice_index left.old lane.0) }
    ensures left { left.new ≡ slice_set left.old lane.0 (slice_index left.old lane.0 - 1) }
{
    let count = left[usize::from(lane.0)];
    left[usize::from(lane.0)] = count.saturating_sub(1);
    count > 0
}

/// Whether the lane's newest record of those left is one of its first so many. It is then left no more.
pub(crate) fn is_newest_kept(left: &mut [u64; 32], counts: &[u64; 32], lane: Lane) -> bool
    requires lane { lane.0 < 32 }
    requires some { 0 < slice_index left.old lane.0 }
    ensures left { left.new ≡ slice_set left.old lane.0 (slice_index left.old lane.0 - 1) }
    ensures kept { result ≡ nat_lt (slice_index left.old lane.0 - 1) (slice_index counts.now lane.0) }
{
    let place = left[usize::from(lane.0)] - 1;
    left[usize::from(lane.0)] = place;
    place < counts[usize::from(lane.0)]
}

/// Moves each lane's front that isn't before a place to the lane's first record from there on, or to the end where it has none.
pub(crate) fn move_fronts(fronts: &mut [usize; 32], records: &[LaneRecord], from: usize)
    requires lanes { All HasLane records.now }
    requires from { from ≤ length records.now }
    requires fronts { (l k : ℕ) (d : LaneRecord) → l < 32 → k < slice_index fronts.old l → k < from → (slice_index_or records.now k d).lane.0 ≢ l }
    ensures fronts { AreFronts records.now fronts.new }
    ensures within { (l : ℕ) → l < 32 → slice_index fronts.new l ≤ length records.now }
    ensures long { length fronts.new ≡ 32 }
{
    for lane in 0..32 {
        fronts[lane] = past(fronts[lane], from, records.len());
    }
    for newer in 0..records.len() - from {
        let place = records.len() - 1 - newer;
        move_front(fronts, records[place].lane, from, place);
    }
}

// The end, in place of a front that isn't before a place.
fn past(front: usize, from: usize, end: usize) -> usize
    ensures { result ≡ (if nat_lt front from then front else end) }
{
    if front < from { front } else { end }
}

// Moves the lane's front to the place, if it isn't before another one.
fn move_front(fronts: &mut [usize; 32], lane: Lane, from: usize, place: usize)
    requires { lane.0 < 32 }
    ensures { fronts.new ≡ (if nat_lt (slice_index fronts.old lane.0) from then fronts.old else slice_set fronts.old lane.0 place) }
{
    if fronts[usize::from(lane.0)] >= from {
        fronts[usize::from(lane.0)] = place;
    }
}
