//! The fields before any record.

ghost use Rattle.std.specs.Prelude.{◌≡◌, length, IfOk};
ghost use Rattle.durable.specs.Begin.{HaveGuards, HaveLogged, HaveMarks, HaveValues};

use image::GuardRow;
use std::alloc::{AllocError, Global};
use store_memory::FieldState;

/// What a store remembers of the fields before any record: their guards and marks, by these rows, and these values, applied and at home.
pub fn fields_of(
    alloc: Global,
    guards: &[GuardRow],
    heap: &[u64],
) -> Result<Vec<FieldState>, AllocError>
    requires { length heap.now ≡ length guards.now }
    ensures size { IfOk result (λ fields. length fields.items ≡ length guards.now) }
    // The fields have the rows' guards.
    ensures guards { IfOk result (λ fields. HaveGuards fields.items guards.now) }
    // A field is logged unless its row marks it as transient.
    ensures marks { IfOk result (λ fields. HaveMarks fields.items guards.now) }
    // The fields have the heap's values.
    ensures values { IfOk result (λ fields. HaveValues fields.items guards.now heap.now) }
    // All of these values are at home.
    ensures logged { IfOk result (λ fields. HaveLogged fields.items guards.now heap.now) }
{
    let mut fields = Vec::with_capacity(alloc, guards.len())?;
    for (place, row) in guards.iter().enumerate() {
        fields.push_reserved(FieldState {
            guard: row.guard,
            is_logged: !row.transient,
            value: heap[place],
            logged: heap[place],
        });
    }
    Ok(fields)
}
