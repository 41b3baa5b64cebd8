//! The values that an image's fields have at home.
ghost use Rattle.std.specs.Prelude.{◌≡◌, ◌<◌, ◌≤◌, IfErr, IfOk, MatchResult, length};
ghost use Rattle.block_disk.specs.Device.{SameMoments};
ghost use Rattle.block_disk.specs.Since.{HasCauseSince};
ghost use Rattle.image_parts.specs.Cells.{HasHome, HasHomes};
ghost use Rattle.image_parts.specs.Layout.{size_of};
ghost use Rattle.recover_heap.specs.Heap.{RefusesHeap};
ghost use Rattle.recover_heap.specs.declared.error.RecoverError.TheVariants.{Fault};
ghost use Rattle.image_salvage.specs.Cells.{HasCells, RefusesToRead};

use crate::front::{Front, read_front};
use crate::home_cells::Cells;
use block_disk::Disk;
use heap_model::FieldId;
use image::{GuardRow, Layout, get_cell};
use recover::RecoverError;
use std::alloc::Global;

/// Reads header, guard rows and home cells of the image on the device, of which nothing has to be known.
pub(crate) fn read_cells<D: Disk>(alloc: Global, disk: &mut D) -> Result<Cells, RecoverError>
    ensures exact { MatchResult result (HasCells (D.device disk.old).now.bytes)
        (RefusesToRead (D.device disk.old).now.bytes) }
    ensures same { SameMoments (D.device disk.old) (D.device disk.new) }
    ensures cause { HasCauseSince (D.device disk.old) (D.device disk.new) Fault result }
{
    let Front { layout, guards } = read_front(alloc, disk)?;
    let values = home_values(alloc, disk, &layout, &guards)?;
    Ok(Cells {
        layout,
        guards,
        values,
    })
}

// The values that the fields have at home, by field.
fn home_values<D: Disk>(
    alloc: Global,
    disk: &mut D,
    layout: &Layout,
    guards: &[GuardRow],
) -> Result<Vec<u64>, RecoverError>
    requires fits { size_of layout.now ≤ length (D.device disk.old).now.bytes }
    requires guards { length guards.now ≡ layout.now.fields }
    ensures ok { IfOk result
        (λ values. HasHomes layout.now guards.now (D.device disk.old).now.bytes values.items) }
    ensures no_other { IfErr result RefusesHeap }
    ensures same { SameMoments (D.device disk.old) (D.device disk.new) }
    ensures cause { HasCauseSince (D.device disk.old) (D.device disk.new) Fault result }
{
    let Ok(mut values) = Vec::with_capacity(alloc, guards.len()) else {
        return Err(RecoverError::NoMemory);
    };
    for field in 0..layout.fields {
        let value = home_of(disk, layout, guards[field as usize], FieldId(field))?;
        values.push_reserved(value);
    }
    Ok(values)
}

// What the field of this row has at home: the value in its cell, or if it is transient always its first one.
fn home_of<D: Disk>(
    disk: &mut D,
    layout: &Layout,
    row: GuardRow,
    field: FieldId,
) -> Result<u64, RecoverError>
    requires fits { size_of layout.now ≤ length (D.device disk.old).now.bytes }
    requires field { field.0 < layout.now.fields }
    ensures ok { IfOk result (HasHome layout.now row field.0 (D.device disk.old).now.bytes) }
    ensures only_fault { IfErr result (λ e. e ≡ Fault) }
    ensures same { SameMoments (D.device disk.old) (D.device disk.new) }
    ensures cause { HasCauseSince (D.device disk.old) (D.device disk.new) Fault result }
{
    if row.transient {
        return Ok(row.first);
    }
    match get_cell(disk, layout, field) {
        Ok(value) => Ok(value),
        Err(_) => Err(RecoverError::Fault),
    }
}
