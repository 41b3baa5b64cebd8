//! Making an image.
ghost use Rattle.std.specs.Prelude.{◌≡◌, ◌<◌, ℕ, IfErr, IfOk, length, slice_index};
ghost use Rattle.std.specs.List.{slice_index_or};
ghost use Rattle.guards.specs.Schema.{field_count, first_of};
ghost use Rattle.image_parts.specs.Calls.{after};
ghost use Rattle.image_parts.specs.Format.{format_calls};
ghost use Rattle.image_parts.specs.Guards.{guard_row_of};
ghost use Rattle.image_parts.specs.Recovered.{IsRecovered};
ghost use Rattle.image_parts.specs.declared.guard_row.GuardRow.{GuardRow as Row};
ghost use Rattle.image_parts.specs.declared.slot.Slot.TheVariants.{A};
ghost use Rattle.store_image.specs.Formatting.{AreLimits, RefusesFormat, layout_with};

use block_disk::Disk;
use guards::Schema;
use heap_model::FieldId;
use image::{GuardRow, ImageError, Layout, Recovered, Slot, write_header};
use std::alloc::{AllocError, Global};

/// Makes an image of the device, for a heap of this schema with so many lanes of so many records. It holds the schema's
/// first values, and nothing in any log.
///
/// Refusals, in this order; but for the last the device is as it was:
/// - `BadHeader`: `lanes` isn't 1 to 32, or `capacity` isn't 2,000 to 1,048,576;
/// - `TooSmall`: the device is smaller than the image;
/// - `NoMemory`: there was no room for the guard rows or the heap;
/// - `Fault`: a call of the device failed. Nothing is claimed of the device then.
pub fn format<D: Disk>(
    alloc: Global,
    disk: D,
    schema: &Schema,
    lanes: u8,
    capacity: u32,
) -> Result<Recovered<D>, (D, ImageError)>
    ensures limits { IfOk result (λ made. AreLimits lanes capacity) }
    ensures layout { IfOk result (λ made. made.layout ≡ layout_with schema.now lanes capacity) }
    ensures control { IfOk result (λ made. (made.slot ≡ A) × (made.sequence ≡ 1)) }
    ensures guards { IfOk result (λ made. (f : ℕ) (d : Row) → f < field_count schema.now
        → slice_index_or made.guards f d ≡ guard_row_of schema.now f) }
    ensures heap { IfOk result (λ made. (f : ℕ) → f < field_count schema.now
        → slice_index made.heap f ≡ first_of schema.now f) }
    ensures recovered { IfOk result
        (λ made. IsRecovered
        (D.device made.disk) made.layout made.guards made.slot made.sequence made.heap) }
    ensures calls { IfOk result (λ made. D.device made.disk
        ≡ after (format_calls made.layout schema.now) (D.device disk)) }
    ensures refused { IfErr result
        (λ back. RefusesFormat schema.now lanes capacity (D.device disk) (D.device back.0) back.1) }
{
    let mut disk = disk;
    let Some(layout) = Layout::of(schema, lanes, capacity) else {
        return Err((disk, ImageError::BadHeader));
    };
    if disk.size() < layout.size() {
        return Err((disk, ImageError::TooSmall));
    }
    // Memory is taken before the device is touched, so that want of it leaves no half-made image.
    let Ok(guards) = guard_rows(alloc, schema) else {
        return Err((disk, ImageError::NoMemory));
    };
    let Ok(heap) = first_values(alloc, schema) else {
        return Err((disk, ImageError::NoMemory));
    };
    match write_header(&mut disk, &layout, schema) {
        Ok(()) => Ok(Recovered::of(disk, layout, guards, Slot::A, 1, heap)),
        Err(_) => Err((disk, ImageError::Fault)),
    }
}

// The schema's guard rows, by field.
fn guard_rows(alloc: Global, schema: &Schema) -> Result<Vec<GuardRow>, AllocError>
    ensures size { IfOk result (λ rows. length rows.items ≡ field_count schema.now) }
    ensures each { IfOk result (λ rows. (f : ℕ) (d : Row) → f < field_count schema.now
        → slice_index_or rows.items f d ≡ guard_row_of schema.now f) }
{
    let mut rows = Vec::with_capacity(alloc, schema.fields() as usize)?;
    for field in 0..schema.fields() {
        rows.push(GuardRow::of(schema, FieldId(field)))?;
    }
    Ok(rows)
}

// The schema's first values, by field.
fn first_values(alloc: Global, schema: &Schema) -> Result<Vec<u64>, AllocError>
    ensures size { IfOk result (λ values. length values.items ≡ field_count schema.now) }
    ensures each { IfOk result (λ values. (f : ℕ) → f < field_count schema.now
        → slice_index values.items f ≡ first_of schema.now f) }
{
    let mut values = Vec::with_capacity(alloc, schema.fields() as usize)?;
    for field in 0..schema.fields() {
        values.push(schema.first(FieldId(field)))?;
    }
    Ok(values)
}
