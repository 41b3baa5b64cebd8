//! Making an image (`docs/FORMAT.md`, "Making an image").
ghost use Rattle.std.specs.Prelude.{◌≡◌, ◌<◌, ◌≤◌, [], IfErr, OnOk, length};
ghost use Rattle.block_disk.specs.Since.{HasCauseSince, SameSize};
ghost use Rattle.image_parts.specs.Calls.{after};
ghost use Rattle.image_parts.specs.Format.{IsFresh, all_field_calls, closed_slot, field_calls, format_calls, fresh_slot, name_calls, slot_calls};
ghost use Rattle.image_parts.specs.Layout.{IsLayout, IsLayoutOf, size_of};
ghost use Rattle.image_parts.specs.declared.error.ImageError.TheVariants.{Fault};

use crate::control::{Control, ROWS, VERSION, encode_control};
use crate::error::ImageError;
use crate::guard_row::{GuardRow, encode_guard};
use crate::header::{CLOSED, GATE_AT, OPEN, encode_header};
use crate::lane_row::LaneRow;
use crate::layout::Layout;
use crate::slot::{SLOT_BYTES, Slot};
use block_disk::{Disk, make_durable, write_through, write_within};
use guards::Schema;
use heap_model::FieldId;

/// Makes an image of the device: the header, the control with sequence 1 and empty logs in slot A, each field's guard
/// row, and its home cell with the first value. The lanes' areas are left as they are.
///
/// It makes 9 writes and syncs and two more for each field. `Fault` is the one refusal; nothing is claimed of the
/// device then.
pub fn write_header<D: Disk>(
    disk: &mut D,
    layout: &Layout,
    schema: &Schema,
) -> Result<(), ImageError>
    requires schema { IsLayoutOf schema.now layout.now }
    requires fits { size_of layout.now ≤ length (D.device disk.old).now.bytes }
    // After formatting the header, the guard rows, the home cells and the control of the schema are there.
    ensures ok { OnOk result (IsFresh schema.now layout.now (D.device disk.new).now.bytes) }
    // After formatting nothing is pending.
    ensures durable { OnOk result ((D.device disk.new).now.pending ≡ []) }
    ensures size { OnOk result (SameSize (D.device disk.old) (D.device disk.new)) }
    // Formatting makes exactly the documented calls.
    ensures calls { OnOk result (D.device disk.new
        ≡ after (format_calls layout.now schema.now) (D.device disk.old)) }
    ensures only_fault { IfErr result (λ e. e ≡ Fault) }
    ensures cause { HasCauseSince (D.device disk.old) (D.device disk.new) Fault result }
{
    put_name(disk, layout)?;
    put_slots(disk)?;
    put_fields(disk, layout, schema)?;
    // All of the image has to be durable before the open gate says that it is one.
    make_durable(disk)?;
    write_through(disk, GATE_AT, &[OPEN])?;
    Ok(())
}

// Closes the header's gate, so that no crash from here on leaves an image, and writes the rest of the header.
fn put_name<D: Disk>(disk: &mut D, layout: &Layout) -> Result<(), ImageError>
    requires limits { IsLayout layout.now }
    requires fits { 64 ≤ length (D.device disk.old).now.bytes }
    ensures calls { OnOk result (D.device disk.new
        ≡ after (name_calls layout.now) (D.device disk.old)) }
    ensures size { OnOk result (SameSize (D.device disk.old) (D.device disk.new)) }
    ensures only_fault { IfErr result (λ e. e ≡ Fault) }
    ensures cause { HasCauseSince (D.device disk.old) (D.device disk.new) Fault result }
{
    let header = encode_header(layout);
    write_through(disk, GATE_AT, &[CLOSED])?;
    write_within(disk, 0, &header[..8])?;
    write_within(disk, GATE_AT + 1, &header[9..])?;
    Ok(())
}

// Writes both slots whole.
fn put_slots<D: Disk>(disk: &mut D) -> Result<(), ImageError>
    requires { 2160 ≤ length (D.device disk.old).now.bytes }
    ensures calls { OnOk result (D.device disk.new ≡ after slot_calls (D.device disk.old)) }
    ensures size { OnOk result (SameSize (D.device disk.old) (D.device disk.new)) }
    ensures only_fault { IfErr result (λ e. e ≡ Fault) }
    ensures cause { HasCauseSince (D.device disk.old) (D.device disk.new) Fault result }
{
    let mut content = [CLOSED; SLOT_BYTES];
    fill_slot(&mut content);
    write_within(disk, Slot::A.start(), &content)?;
    clear_slot(&mut content);
    write_within(disk, Slot::B.start(), &content)?;
    Ok(())
}

// The whole slot of a control with sequence 1 and empty logs, its gate open.
fn fill_slot(content: &mut [u8])
    requires { length content.old ≡ 1048 }
    ensures { content.new ≡ fresh_slot }
{
    let control = Control {
        sequence: 1,
        version: VERSION,
        rows: [LaneRow::EMPTY; ROWS],
    };
    content[..8].fill(0);
    content[0] = OPEN;
    encode_control(&control, &mut content[8..]);
}

// The whole slot that has no control yet, its gate closed.
fn clear_slot(content: &mut [u8])
    requires { length content.old ≡ 1048 }
    ensures { content.new ≡ closed_slot }
{
    content.fill(0);
}

// Writes all guard rows and home cells.
fn put_fields<D: Disk>(disk: &mut D, layout: &Layout, schema: &Schema) -> Result<(), ImageError>
    requires schema { IsLayoutOf schema.now layout.now }
    requires fits { size_of layout.now ≤ length (D.device disk.old).now.bytes }
    ensures calls { OnOk result (D.device disk.new
        ≡ after (all_field_calls layout.now schema.now layout.now.fields) (D.device disk.old)) }
    ensures size { OnOk result (SameSize (D.device disk.old) (D.device disk.new)) }
    ensures only_fault { IfErr result (λ e. e ≡ Fault) }
    ensures cause { HasCauseSince (D.device disk.old) (D.device disk.new) Fault result }
{
    for field in 0..layout.fields {
        put_field(disk, layout, schema, FieldId(field))?;
    }
    Ok(())
}

// Writes the field's guard row, and its home cell with the first value.
fn put_field<D: Disk>(
    disk: &mut D,
    layout: &Layout,
    schema: &Schema,
    field: FieldId,
) -> Result<(), ImageError>
    requires schema { IsLayoutOf schema.now layout.now }
    requires fits { size_of layout.now ≤ length (D.device disk.old).now.bytes }
    requires field { field.0 < layout.now.fields }
    ensures calls { OnOk result (D.device disk.new
        ≡ after (field_calls layout.now schema.now field.0) (D.device disk.old)) }
    ensures size { OnOk result (SameSize (D.device disk.old) (D.device disk.new)) }
    ensures only_fault { IfErr result (λ e. e ≡ Fault) }
    ensures cause { HasCauseSince (D.device disk.old) (D.device disk.new) Fault result }
{
    let row = GuardRow::of(schema, field);
    write_within(disk, layout.guard_row(field), &encode_guard(&row))?;
    write_within(disk, layout.home_cell(field), &row.first.to_be_bytes())?;
    Ok(())
}
