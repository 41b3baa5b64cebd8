//! The guard row of a field (`docs/FORMAT.md`, "Guard rows").
ghost use Rattle.std.specs.Prelude.{◌≡◌, ◌<◌, ◌↔◌, ◌^◌, length, IfNone, IfSome, IsTrue};
ghost use Rattle.guards.specs.Schema.{field_count};
ghost use Rattle.image_parts.specs.Guards.{NamesObjects, SpellsGuard, guard_bytes, guard_row_of, mark_of};
ghost use Rattle.image_parts.specs.declared.guard_row.GuardRow.{GuardRow as Row};

use crate::bytes::{u16_at, u32_at, u64_at};
use guards::Schema;
use heap_model::{FieldId, ObjectId};

/// The bytes of a guard row.
pub const GUARD_ROW_BYTES: usize = 16;

// The mark of a field whose stores are logged.
const PERSISTENT: u8 = 0;

// The mark of a field that is transient.
const TRANSIENT: u8 = 1;

/// A field's guard and owner, the value with which it begins, and whether it is transient.
#[derive(Clone, Copy, Debug, PartialEq, Eq)]
pub struct GuardRow {
    /// The object whose monitor guards the field.
    pub guard: ObjectId,
    /// The object that has the field.
    pub owner: ObjectId,
    /// The field's value when the image was formatted.
    pub first: u64,
    /// Whether the field is transient: it is never written home, and begins with that value at each open.
    pub transient: bool,
}

impl GuardRow {
    /// The row of the schema's field.
    pub fn of(schema: &Schema, field: FieldId) -> GuardRow
        requires { field.0 < field_count schema.now }
        ensures { result ≡ guard_row_of schema.now field.0 }
    {
        GuardRow {
            guard: schema.guard(field),
            owner: schema.owner(field),
            first: schema.first(field),
            transient: schema.transient(field),
        }
    }

    /// Whether guard and owner are among so many objects.
    pub(crate) fn names_objects(&self, objects: u32) -> bool
        ensures { IsTrue result ↔ NamesObjects objects self.now }
    {
        self.guard.0 < objects && self.owner.0 < objects
    }
}

/// The bytes of a guard row. An object's number fits two bytes, since there are no more than 4,096.
pub fn encode_guard(row: &GuardRow) -> [u8; 16]
    requires { row.now.owner.0 < 2 ^ 16 }
    // A guard row's bytes are its guard, its mark, a zero, its owner and its first value.
    ensures { result ≡ guard_bytes row.now }
{
    let mut bytes = [0; GUARD_ROW_BYTES];
    bytes[..4].copy_from_slice(&row.guard.0.to_be_bytes());
    bytes[4] = mark(row.transient);
    bytes[6..8].copy_from_slice(&(row.owner.0 as u16).to_be_bytes());
    bytes[8..].copy_from_slice(&row.first.to_be_bytes());
    bytes
}

// The mark of a field that is transient or not.
fn mark(is_transient: bool) -> u8
    ensures { result ≡ mark_of is_transient }
{
    if is_transient { TRANSIENT } else { PERSISTENT }
}

/// The row of these bytes, if they are those of one: the mark is 0 or 1, and the byte behind it zero.
pub fn decode_guard(bytes: &[u8]) -> Option<GuardRow>
    requires { length bytes.now ≡ 16 }
    ensures some { IfSome result (SpellsGuard bytes.now) }
    // Where no guard row is read, the bytes spell none: they have another mark, or another byte in the zero's place, or
    // a number past its limit.
    ensures none { IfNone result ((r : Row) → SpellsGuard bytes.now r → ⊥) }
{
    if bytes[4] > TRANSIENT || bytes[5] != 0 {
        return None;
    }
    Some(GuardRow {
        guard: ObjectId(u32_at(bytes, 0)),
        owner: ObjectId(u32::from(u16_at(bytes, 6))),
        first: u64_at(bytes, 8),
        transient: bytes[4] == TRANSIENT,
    })
}
