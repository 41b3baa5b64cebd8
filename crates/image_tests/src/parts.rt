//! What was read of a fresh image, taken apart and put together again.
ghost use Rattle.std.specs.Prelude.{◌≡◌, [], ◌∷◌, IfSome};

use crate::images::{common_schema, fresh};
use crate::reading::study;
use crate::unread::Unread;
use block_disk::{Disk, MemDisk};
use guards::Schema;
use heap_model::FieldId;
use image::{Recovered, Slot, get_cell, read_guards};
use std::alloc::Global;

fn pair(alloc: Global, first: u64, second: u64) -> Option<Vec<u64>>
    ensures { IfSome result (λ heap. heap.items ≡ first ∷ second ∷ []) }
{
    vec![in alloc; first, second].ok()
}

// A fresh image with what was read of it.
fn recovered(alloc: Global, schema: &Schema) -> Option<Recovered<MemDisk>> {
    let (mut disk, layout) = fresh(alloc, schema)?;
    let Ok(guards) = read_guards(alloc, &mut disk, &layout) else {
        return None;
    };
    if layout.fields != 2 {
        return None;
    }
    let Ok(first) = get_cell(&mut disk, &layout, FieldId(0)) else {
        return None;
    };
    let Ok(second) = get_cell(&mut disk, &layout, FieldId(1)) else {
        return None;
    };
    let heap = pair(alloc, first, second)?;
    Some(Recovered::of(disk, layout, guards, Slot::A, 1, heap))
}

// Its slot, and its sequence, size and stops. Put together again, it is read as before.
type Apart = (Slot, [u64; 3], Result<(Slot, u64), Unread>);

fn taken_apart(alloc: Global, made: Recovered<MemDisk>) -> Apart {
    let parts = made.into_parts();
    let (slot, sequence) = (parts.slot, parts.sequence);
    let numbers = [sequence, parts.layout.size(), parts.disk.stops()];
    let made = Recovered::of(
        parts.disk,
        parts.layout,
        parts.guards,
        parts.slot,
        parts.sequence,
        parts.heap,
    );
    let mut disk = made.into_disk();
    let told = study(alloc, &mut disk);
    drop(disk);
    (slot, numbers, told)
}

// Whether its heap has the first values, and its parts.
fn told_of_parts(alloc: Global, schema: &Schema) -> Option<(bool, Apart)> {
    match recovered(alloc, schema) {
        Some(made) => {
            let is_first = made.heap() == [10, 20].as_slice();
            Some((is_first, taken_apart(alloc, made)))
        }
        None => None,
    }
}

fn told_of_fresh(alloc: Global) -> Option<(bool, Apart)> {
    match common_schema(alloc) {
        Some(schema) => {
            let told = told_of_parts(alloc, &schema);
            drop(schema);
            told
        }
        None => None,
    }
}

#[test]
fn a_fresh_image_is_taken_apart(rt: HostRuntime) {
    let apart = (Slot::A, [1, 130_208, 13], Ok((Slot::A, 1)));
    assert!(rt; told_of_fresh(rt.alloc()) == Some((true, apart)));
}
