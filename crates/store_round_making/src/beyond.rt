//! What a store finds of the records beyond a cut: the values that the cut keeps, and where a helper's section stands.
ghost use Rattle.std.specs.Prelude.{◌≡◌, ℕ, [], ◌∷◌, All, length, slice_index};
ghost use Rattle.heap_model.specs.Log.{log_from};
ghost use Rattle.store_helper_sections.specs.HelperSections.{first_taken};
ghost use Rattle.store_round_making.specs.Beyond.{IsOfFields, KeptValues, put_all_back, taken_by};

use heap_model::{LaneRecord, ObjectId, Record};

/// Puts back what the records beyond a cut have stored, the oldest of which is first: of fields that had their values after all
/// records, what the cut keeps is left.
pub fn put_back(heap: &mut [u64], beyond: &[LaneRecord])
    requires { All (IsOfFields (length heap.old)) beyond.now }
    ensures size { length heap.new ≡ length heap.old }
    // Where the fields had their values after all records, putting those beyond a cut back leaves what the cut keeps.
    ensures kept { KeptValues beyond.now heap.old heap.new }
{
    for newer in 0..beyond.len() {
        put_one_back(heap, beyond[beyond.len() - 1 - newer]);
    }
}

// Puts back what the record has stored, if it is a store.
fn put_one_back(heap: &mut [u64], entry: LaneRecord)
    requires { IsOfFields (length heap.old) entry }
    ensures size { length heap.new ≡ length heap.old }
    ensures back { (f : ℕ) → slice_index heap.new f ≡ put_all_back f (slice_index heap.old f) ((entry.lane.0, entry.record) ∷ []) }
{
    match entry.record {
        Record::Put {
            field,
            before,
            after: _,
        } => heap[field.0 as usize] = before,
        Record::Acq { .. } | Record::Rel { .. } | Record::WaitRel { .. } => {}
    }
}

/// The number at which the object is first taken in these records, of which the oldest is first.
pub fn first_number(beyond: &[LaneRecord], object: ObjectId) -> Option<u64>
    // The answer is the number at which the first of these records that takes the object takes it.
    ensures { result ≡ first_taken object.0 (log_from beyond.now) }
{
    for entry in beyond {
        if let Some(number) = taken(entry.record, object) {
            return Some(number);
        }
    }
    None
}

// The number at which the record takes the object, if it does.
fn taken(next: Record, object: ObjectId) -> Option<u64>
    ensures { result ≡ taken_by next object.0 }
{
    match next {
        Record::Acq {
            object: taken,
            number,
        } if taken == object => Some(number),
        _ => None,
    }
}
