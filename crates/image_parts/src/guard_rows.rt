//! The guard rows of an image, read and tested (`docs/FORMAT.md`, "Guard rows").
ghost use Rattle.std.specs.Prelude.{◌≡◌, ◌↔◌, All, IsFalse, IsTrue, ◌+◌, ◌++◌, ◌*◌, ◌<◌, ◌≤◌, IfErr, IfOk, MatchResult, OnOk, length, vec_capacity, vec_len};
ghost use Rattle.block_disk.specs.Device.{SameMoments};
ghost use Rattle.block_disk.specs.Since.{HasCauseSince};
ghost use Rattle.image_parts.specs.Blocks.{HasBlock, HoldsNoRow, HoldsRows, RefusesBlock, HasEach};
ghost use Rattle.image_parts.specs.Guards.{HasGuards, NamesObjects, RefusesGuards};
ghost use Rattle.image_parts.specs.Layout.{IsLayout, size_of};
ghost use Rattle.image_parts.specs.declared.error.GuardsError.TheVariants.{Fault};

use crate::error::GuardsError;
use crate::guard_row::{GUARD_ROW_BYTES, GuardRow, decode_guard};
use crate::layout::Layout;
use block_disk::{Disk, read_within};
use heap_model::{FieldId, ObjectId};
use std::alloc::Global;

/// How many guard rows one read takes.
const BLOCK_ROWS: usize = 256;

const BLOCK_BYTES: usize = 4096;

/// All guard rows, by field: 256 in one read.
///
/// Refusals, in this order; the device is left as it was:
/// - `BadHeader`: the guard or the owner of some row isn't an object of the image, a mark is neither 0 nor 1, or the byte
///   behind it isn't zero;
/// - `NoMemory`: there was no room for the rows.
///
/// `Fault` comes where a read fails.
pub fn read_guards<D: Disk>(
    alloc: Global,
    disk: &mut D,
    layout: &Layout,
) -> Result<Vec<GuardRow>, GuardsError>
    requires limits { IsLayout layout.now }
    requires fits { size_of layout.now ≤ length (D.device disk.old).now.bytes }
    // Any bytes are refused as guard rows exactly where the definition says, and else give the rows that they spell.
    ensures exact { MatchResult result
        (λ rows. HasGuards layout.now (D.device disk.old).now.bytes rows.items)
        (RefusesGuards layout.now (D.device disk.old).now.bytes) }
    ensures same { SameMoments (D.device disk.old) (D.device disk.new) }
    ensures cause { HasCauseSince (D.device disk.old) (D.device disk.new) Fault result }
{
    let Ok(mut rows) = Vec::with_capacity(alloc, layout.fields as usize) else {
        // Want of memory comes last: a row that is bad is told of first.
        check_guards(disk, layout)?;
        return Err(GuardsError::NoMemory);
    };
    let mut block = [NOTHING; BLOCK_ROWS];
    while rows.len() < layout.fields as usize {
        let count = read_block(disk, layout, rows.len() as u32, &mut block)?;
        append(&mut rows, &block[..count as usize]);
    }
    Ok(rows)
}

// What stands in a block before its first read.
const NOTHING: GuardRow = GuardRow {
    guard: ObjectId(0),
    owner: ObjectId(0),
    first: 0,
    transient: false,
};

// Puts these rows behind the others, for which there is room.
fn append(rows: &mut Vec<GuardRow>, more: &[GuardRow])
    requires { vec_len rows.old + length more.now ≤ vec_capacity rows.old }
    ensures items { rows.new.items ≡ rows.old.items ++ more.now }
    ensures capacity { vec_capacity rows.old ≤ vec_capacity rows.new }
{
    let Ok(()) = rows.extend_from_slice(more) else {
        unreachable!()
    };
}

// Whether each row names objects of the image, with no memory taken.
fn check_guards<D: Disk>(disk: &mut D, layout: &Layout) -> Result<(), GuardsError>
    requires limits { IsLayout layout.now }
    requires fits { size_of layout.now ≤ length (D.device disk.old).now.bytes }
    ensures ok { OnOk result (HasEach layout.now layout.now.fields (D.device disk.old).now.bytes) }
    ensures refused { IfErr result (RefusesBlock layout.now (D.device disk.old).now.bytes) }
    ensures same { SameMoments (D.device disk.old) (D.device disk.new) }
    ensures cause { HasCauseSince (D.device disk.old) (D.device disk.new) Fault result }
{
    let mut block = [NOTHING; BLOCK_ROWS];
    let mut first = 0;
    while first < layout.fields {
        first += read_block(disk, layout, first, &mut block)?;
    }
    Ok(())
}

// Reads the next rows, from the field `first` on, and tests them. Returns how many.
fn read_block<D: Disk>(
    disk: &mut D,
    layout: &Layout,
    first: u32,
    block: &mut [GuardRow; 256],
) -> Result<u32, GuardsError>
    requires limits { IsLayout layout.now }
    requires fits { size_of layout.now ≤ length (D.device disk.old).now.bytes }
    requires first { first < layout.now.fields }
    ensures some { IfOk result (λ count. (0 < count) × (count ≤ 256)
        × (first + count ≤ layout.now.fields)) }
    ensures ok { IfOk result (λ count. HasBlock layout.now first count
        (D.device disk.old).now.bytes block.new) }
    ensures refused { IfErr result (RefusesBlock layout.now (D.device disk.old).now.bytes) }
    ensures same { SameMoments (D.device disk.old) (D.device disk.new) }
    ensures cause { HasCauseSince (D.device disk.old) (D.device disk.new) Fault result }
{
    let count = (layout.fields - first).min(BLOCK_ROWS as u32);
    let rows = &mut block[..count as usize];
    let mut bytes = [0; BLOCK_BYTES];
    let bytes = &mut bytes[..GUARD_ROW_BYTES * rows.len()];
    read_within(disk, layout.guard_row(FieldId(first)), bytes)?;
    if !decode_guards(bytes, rows) {
        return Err(GuardsError::BadHeader);
    }
    if !name_objects(layout.objects, rows) {
        return Err(GuardsError::BadHeader);
    }
    Ok(count)
}

// Whether guard and owner of each row are among so many objects.
fn name_objects(objects: u32, rows: &[GuardRow]) -> bool
    ensures { IsTrue result ↔ All (NamesObjects objects) rows.now }
{
    rows.iter().all(|row| row.names_objects(objects))
}

// The rows of these bytes, if there is one in each 16 of them.
fn decode_guards(bytes: &[u8], rows: &mut [GuardRow]) -> bool
    requires { length bytes.now ≡ 16 * length rows.old }
    ensures rows { IsTrue result → HoldsRows bytes.now (length rows.new) rows.new }
    ensures none { IsFalse result → HoldsNoRow bytes.now (length rows.new) }
    ensures size { length bytes.now ≡ 16 * length rows.new }
{
    for (i, row) in rows.iter_mut().enumerate() {
        let at = GUARD_ROW_BYTES * i;
        let Some(found) = decode_guard(&bytes[at..at + GUARD_ROW_BYTES]) else {
            return false;
        };
        *row = found;
    }
    true
}
