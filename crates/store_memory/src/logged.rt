//! What becomes of fields when records are logged.

ghost use Rattle.std.specs.Prelude.{◌≡◌, ◌<◌, ◌∷◌, [], ℕ, true, if◌then◌else◌, length};
ghost use Rattle.heap_model.specs.Log.{value as value_of, log_from};
ghost use Rattle.heap_model.specs.Past.{has_store};
ghost use Rattle.store_memory.specs.Memory.{field_in, value_in, guard_in, is_logged_in};
ghost use Rattle.store_memory.specs.Dirty.{is_dirty_in};

use crate::dirty::DirtyFields;
use crate::states::FieldState;
use heap_model::{LaneRecord, Record};

/// Takes the records' stores for logged, the oldest first: their fields are dirty.
pub fn log_all(fields: &mut [FieldState], dirty: &mut DirtyFields, records: &[LaneRecord])
    ensures logged { (f : ℕ) → f < length fields.old → (field_in fields.new f).logged ≡ value_of (λ g. (field_in fields.old g).logged) f (log_from records.now) }
    ensures values { (f : ℕ) → value_in fields.new f ≡ value_in fields.old f }
    ensures guards { (f : ℕ) → guard_in fields.new f ≡ guard_in fields.old f }
    ensures marks { (f : ℕ) → is_logged_in fields.new f ≡ is_logged_in fields.old f }
    ensures dirty { (f : ℕ) → f < dirty.old.fields → is_dirty_in dirty.new f ≡ (if is_dirty_in dirty.old f then true else has_store f (log_from records.now)) }
    ensures dirty_fields { dirty.new.fields ≡ dirty.old.fields }
{
    for entry in records {
        log_record(fields, dirty, *entry);
    }
}

// Takes the record for logged.
fn log_record(fields: &mut [FieldState], dirty: &mut DirtyFields, entry: LaneRecord)
    ensures logged { (f : ℕ) → f < length fields.old → (field_in fields.new f).logged ≡ value_of (λ g. (field_in fields.old g).logged) f ((entry.lane.0, entry.«record») ∷ []) }
    ensures values { (f : ℕ) → value_in fields.new f ≡ value_in fields.old f }
    ensures guards { (f : ℕ) → guard_in fields.new f ≡ guard_in fields.old f }
    ensures marks { (f : ℕ) → is_logged_in fields.new f ≡ is_logged_in fields.old f }
    ensures dirty { (f : ℕ) → f < dirty.old.fields → is_dirty_in dirty.new f ≡ (if is_dirty_in dirty.old f then true else has_store f ((entry.lane.0, entry.«record») ∷ [])) }
    ensures dirty_fields { dirty.new.fields ≡ dirty.old.fields }
{
    if let Record::Put { field, after, .. } = entry.record {
        let place = field.0 as usize;
        if place < fields.len() {
            fields[place].logged = after;
        }
        dirty.mark(field);
    }
}
