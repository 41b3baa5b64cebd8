//! What an open heap has, on what a handle has.
ghost use Rattle.std.specs.Prelude.{◌≡◌, ◌≢◌, Some};
ghost use Rattle.law_hosted.specs.Copies.{copy_of};
ghost use Rattle.image_parts.specs.Guards.{FitsGuard, guard_bytes, mark_of};
ghost use Rattle.image_parts.specs.declared.guard_row.GuardRow.{GuardRow as Row};
ghost use Rattle.zelamiku.specs.Handles.{Answers, holding};
ghost use Rattle.zelamiku.specs.HeadDoors.{no_head};
ghost use Rattle.zelamiku.specs.HeadDoors as heads;
ghost use Rattle.zelamiku.specs.LayoutDoors as layouts;
ghost use Rattle.zelamiku.specs.LayoutDoors.{TellsField, TellsFields, TellsLayoutAt, TellsRow, field_of};
ghost use Rattle.zelamiku.specs.declared.status.TheConstants.{OK};

use crate::head_calls::nothing;
use crate::state::{Inner, Open};
use crate::status;
use crate::words::{Field, Head};
use heap_model::FieldId;
use host_heap::HostedHeap;
use image::{GuardRow, Layout, decode_guard};

// What is told where there is no field.
const NO_FIELD: Field = Field {
    owner: 0,
    guard: 0,
    first: 0,
    transient: 0,
};

/// Tells a heap's layout, and its fields, as many as there is room for; and the status.
pub fn tell(state: &Inner, fields: &mut [Field]) -> (Head, u32)
    ensures told { Answers (TellsLayoutAt result.0 fields.new) (Some state.now) (Some state.now) result.1 }
    ensures refused { result.1 ≢ OK → result.0 ≡ no_head }
    ensures kept { result.1 ≢ OK → fields.new ≡ fields.old }
{
    tell_of(&state.open, fields)
}

fn tell_of(found: &Open, fields: &mut [Field]) -> (Head, u32)
    ensures told { TellsLayoutAt result.0 fields.new found.now (holding found.now) result.1 }
    ensures refused { result.1 ≢ OK → result.0 ≡ no_head }
    ensures kept { result.1 ≢ OK → fields.new ≡ fields.old }
{
    match found {
        Open::Heap(heap) => {
            tell_fields(heap, heap.layout(), fields);
            (head_of(heap), status::OK)
        }
        Open::Closed(_) => (nothing(), status::CLOSED),
        Open::Stopped(_) => (nothing(), status::STOPPED),
        _ => (nothing(), status::WRONG_KIND),
    }
}

fn head_of(heap: &HostedHeap) -> Head
    ensures { result ≡ heads.head_of heap.now.helper.store.known.layout }
{
    let layout = heap.layout();
    Head {
        size: heap.size(),
        objects: layout.objects,
        fields: layout.fields,
        lanes: u32::from(layout.lanes),
        capacity: layout.capacity,
        ..nothing()
    }
}

fn tell_fields(heap: &HostedHeap, layout: Layout, fields: &mut [Field])
    ensures { TellsFields (copy_of heap.now.helper.store.disk) layout.fields fields.new }
{
    for (i, entry) in fields.iter_mut().enumerate() {
        *entry = told_at(heap, layout, i);
    }
}

// The field of this number.
fn told_at(heap: &HostedHeap, layout: Layout, field: usize) -> Field
    ensures { TellsField (copy_of heap.now.helper.store.disk) layout.fields field result }
{
    if field >= layout.fields as usize {
        return NO_FIELD;
    }
    field_at(heap, layout.guard_row(FieldId(field as u32)))
}

// The field whose row is at this place of the image.
fn field_at(heap: &HostedHeap, at: u64) -> Field
    ensures { TellsRow (copy_of heap.now.helper.store.disk) at result }
{
    let mut row = [0; 16];
    let _ = heap.copy_from(at, &mut row);
    field_in(&row)
}

fn field_in(row: &[u8; 16]) -> Field
    ensures { (r : Row) → FitsGuard r → row.now ≡ guard_bytes r → result ≡ field_of r }
{
    match decode_guard(row) {
        Some(found) => field_of(found),
        None => NO_FIELD,
    }
}

fn field_of(found: GuardRow) -> Field
    ensures { result ≡ layouts.field_of found }
{
    Field {
        owner: found.owner.0,
        guard: found.guard.0,
        first: found.first,
        transient: mark(found.transient),
    }
}

// 1 of a field that is transient, else 0.
fn mark(is_transient: bool) -> u32
    ensures { result ≡ mark_of is_transient }
{
    if is_transient { 1 } else { 0 }
}
