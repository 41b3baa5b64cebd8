//! Whether a schema is that of an image.
ghost use Rattle.std.specs.Prelude.{◌≡◌, ◌<◌, ◌↔◌, IsTrue};
ghost use Rattle.guards.specs.Schema.{field_count};
ghost use Rattle.image_schema.specs.OfImage.{AreRowsOf, FitsImage, FitsStudy, is_row_of, is_same_mark};

use guards::Schema;
use heap_model::FieldId;
use image::{GuardRow, Layout};
use recover::Study;

/// Whether the image has the schema's objects and fields, and each field the schema's owner and guard, and is transient where
/// the schema says so. Names and first values may be any, since an image has no names, and its fields begin with its heap.
pub fn fits(schema: &Schema, study: &Study) -> bool
    // A schema is an image's exactly where the image has its objects and fields, each field with the same owner, guard
    // and kind.
    ensures { IsTrue result ↔ FitsStudy schema.now study.now }
{
    fits_rows(schema, &study.layout, &study.guards)
}

/// What [`fits`] tells, of an image of which only the layout and the guard rows are known.
pub fn fits_rows(schema: &Schema, layout: &Layout, rows: &[GuardRow]) -> bool
    // A schema is an image's by its layout and its guard rows alone.
    ensures { IsTrue result ↔ FitsImage schema.now layout.now rows.now }
{
    if layout.objects != schema.objects() || layout.fields != schema.fields() {
        return false;
    }
    are_rows_of(schema, rows)
}

// Whether each field of the schema has its row.
fn are_rows_of(schema: &Schema, rows: &[GuardRow]) -> bool
    ensures { IsTrue result ↔ AreRowsOf schema.now rows.now }
{
    for field in 0..schema.fields() {
        if !has_row(schema, FieldId(field), rows) {
            return false;
        }
    }
    true
}

fn has_row(schema: &Schema, field: FieldId, rows: &[GuardRow]) -> bool
    requires { field.0 < field_count schema.now }
    ensures { result ≡ is_row_of schema.now rows.now field.0 }
{
    match rows.get(field.0 as usize) {
        Some(row) => {
            row.owner == schema.owner(field)
                && row.guard == schema.guard(field)
                && is_same_mark(row.transient, schema.transient(field))
        }
        None => false,
    }
}

fn is_same_mark(transient: bool, mark: bool) -> bool
    ensures { result ≡ is_same_mark transient mark }
{
    transient == mark
}
