//! Whether the transient fields of a schema begin as those of an image.
ghost use Rattle.std.specs.Prelude.{◌≡◌, ◌<◌, ◌↔◌, IsTrue};
ghost use Rattle.guards.specs.Schema.{field_count};
ghost use Rattle.script_images.specs.Schemas.{BeginAs, begins_at, is_first};

use guards::Schema;
use heap_model::FieldId;
use image::GuardRow;

/// Whether each transient field of the schema begins with the value that its row has.
pub(crate) fn begin_as(schema: &Schema, rows: &[GuardRow]) -> bool
    ensures { IsTrue result ↔ BeginAs schema.now rows.now }
{
    for field in 0..schema.fields() {
        if !begins_at(schema, FieldId(field), rows) {
            return false;
        }
    }
    true
}

fn begins_at(schema: &Schema, field: FieldId, rows: &[GuardRow]) -> bool
    requires { field.0 < field_count schema.now }
    ensures { result ≡ begins_at schema.now rows.now field.0 }
{
    match rows.get(field.0 as usize) {
        Some(row) => is_first(schema.transient(field), row.first == schema.first(field)),
        None => false,
    }
}

fn is_first(is_transient: bool, is_same: bool) -> bool
    ensures { result ≡ is_first is_transient is_same }
{
    !is_transient || is_same
}
