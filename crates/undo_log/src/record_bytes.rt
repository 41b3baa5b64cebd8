//! The 16 bytes of a record (`docs/FORMAT.md`, "Records"). All numbers are big-endian.
ghost use Rattle.std.specs.Prelude.{◌≡◌, ◌↔◌, IsTrue, Some};
ghost use Rattle.heap_model.specs.declared.record.UndoRecord.{UndoRecord as AnyRecord};
ghost use Rattle.undo_log.specs.RecordBytes.{record_bytes, kind_of, id_of, word_of, IsInRange, Spells};

use heap_model::{FieldId, LAST_NUMBER, MOST_FIELDS, MOST_OBJECTS, ObjectId, UndoRecord};

/// The bytes of a record.
pub const RECORD_BYTES: usize = 16;

/// The one spelling of a record.
pub fn encode_record(entry: &UndoRecord) -> [u8; 16]
    // A record's bytes are those of the documented format.
    ensures { result ≡ record_bytes entry.now }
{
    let mut bytes = [0; RECORD_BYTES];
    bytes[0] = kind(*entry);
    bytes[4..8].copy_from_slice(&id(*entry).to_be_bytes());
    bytes[8..].copy_from_slice(&word(*entry).to_be_bytes());
    bytes
}

/// The record that these bytes spell. `None` where they spell none: the kind is another, a middle byte isn't zero, or
/// the object is 4,096 or more, the field 16,384 or more, or the number 2^40 - 1 or more.
pub fn decode_record(bytes: &[u8; 16]) -> Option<UndoRecord>
    // Bytes are read as a record exactly where they are its encoding, in range.
    ensures { (r : AnyRecord) → (result ≡ Some r) ↔ Spells bytes.now r }
{
    let entry = candidate(bytes)?;
    // The middle bytes aren't looked at before this.
    if is_in_range(entry) && encode_record(&entry) == *bytes {
        Some(entry)
    } else {
        None
    }
}

// The record that the bytes spell, if they spell one.
fn candidate(bytes: &[u8; 16]) -> Option<UndoRecord>
    ensures { (r : AnyRecord) → Spells bytes.now r → result ≡ Some r }
{
    let id = u32::from_be_bytes([bytes[4], bytes[5], bytes[6], bytes[7]]);
    let word = u64::from_be_bytes([
        bytes[8], bytes[9], bytes[10], bytes[11], bytes[12], bytes[13], bytes[14], bytes[15],
    ]);
    let object = ObjectId(id);
    match bytes[0] {
        1 => Some(UndoRecord::Acq {
            object,
            number: word,
        }),
        2 => Some(UndoRecord::Rel {
            object,
            number: word,
        }),
        3 => Some(UndoRecord::WaitRel {
            object,
            number: word,
        }),
        4 => Some(UndoRecord::Put {
            field: FieldId(id),
            before: word,
        }),
        _ => None,
    }
}

// The byte that tells the kinds apart.
fn kind(entry: UndoRecord) -> u8
    ensures { result ≡ kind_of entry }
{
    match entry {
        UndoRecord::Acq { .. } => 1,
        UndoRecord::Rel { .. } => 2,
        UndoRecord::WaitRel { .. } => 3,
        UndoRecord::Put { .. } => 4,
    }
}

// The object that the record is about, or for a store the field.
fn id(entry: UndoRecord) -> u32
    ensures { result ≡ id_of entry }
{
    match entry {
        UndoRecord::Acq { object, .. }
        | UndoRecord::Rel { object, .. }
        | UndoRecord::WaitRel { object, .. } => object.0,
        UndoRecord::Put { field, .. } => field.0,
    }
}

// The release number, or for a store the value before.
fn word(entry: UndoRecord) -> u64
    ensures { result ≡ word_of entry }
{
    match entry {
        UndoRecord::Acq { number, .. }
        | UndoRecord::Rel { number, .. }
        | UndoRecord::WaitRel { number, .. } => number,
        UndoRecord::Put { before, .. } => before,
    }
}

/// Whether the record's object, field and number are within the limits of every image.
pub fn is_in_range(entry: UndoRecord) -> bool
    ensures { IsTrue result ↔ IsInRange entry }
{
    match entry {
        UndoRecord::Acq { object, number }
        | UndoRecord::Rel { object, number }
        | UndoRecord::WaitRel { object, number } => object.0 < MOST_OBJECTS as u32
            && number < LAST_NUMBER,
        UndoRecord::Put { field, .. } => field.0 < MOST_FIELDS as u32,
    }
}
