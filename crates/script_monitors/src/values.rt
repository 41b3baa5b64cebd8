//! The values of a schema's fields, by number.
ghost use Rattle.std.specs.Prelude.{◌≡◌, length, slice_index, IfOk};
ghost use Rattle.script_monitors.specs.Table.{Has};
ghost use Rattle.guards.specs.Schema.{field_count, first_of};

use guards::Schema;
use heap_model::FieldId;
use std::alloc::{AllocError, Global};

/// The first value of each field.
pub(crate) fn first_values(alloc: Global, schema: &Schema) -> Result<Vec<u64>, AllocError>
    ensures count { IfOk result (λ v. length v.items ≡ field_count schema.now) }
    ensures firsts { IfOk result (λ v. Has v.items (field_count schema.now) (first_of schema.now)) }
{
    let mut values = Vec::with_capacity(alloc, schema.fields() as usize)?;
    for field in 0..schema.fields() {
        values.push(schema.first(FieldId(field)))?;
    }
    Ok(values)
}

/// The first values of the heap, so many. A heap that has fewer is filled up with zeros.
pub(crate) fn values_in(alloc: Global, heap: &[u64], count: usize) -> Result<Vec<u64>, AllocError>
    ensures count { IfOk result (λ v. length v.items ≡ count) }
    ensures values { IfOk result (λ v. Has v.items count (slice_index heap.now)) }
{
    let mut values = Vec::with_capacity(alloc, count)?;
    for field in 0..count {
        values.push(heap.get(field).copied().unwrap_or(0))?;
    }
    Ok(values)
}
