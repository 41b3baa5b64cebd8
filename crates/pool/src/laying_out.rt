//! Declares a pool in a schema.

ghost use Rattle.std.specs.Prelude.{◌≡◌, ◌≢◌, ◌<◌, ◌≤◌, ◌+◌, [], OnOk, IfErr};
ghost use Rattle.heap_model.specs.declared.limits.TheConstants.{MOST_FIELDS};
ghost use Rattle.guards.specs.Schema.{object_count, field_count, names_of, IsNewName};
ghost use Rattle.pool.specs.LaidOut.{cell_name, first_link, with_slots, IsNewPool, LayOutAnswers};
ghost use Rattle.pool.specs.Declaring.{NamesAnswer, DeclareAnswer, AreNewSlots, StopsAtPart, with_cell};

use crate::names::{HEAD, names_a_cell, spell};
use crate::pool::{MOST_SLOTS, Pool};
use guards::{SchemaBuilder, SchemaError};
use heap_model::{FieldId, MOST_FIELDS, ObjectId};
use itoa::Buffer;

impl Pool {
    /// Declares a pool of so many slots, 1 at least, all of which are free at first.
    ///
    /// It declares the object `name`, whose monitor guards the pool, the field `name.head`, and for each slot a field, as
    /// `name.0`. Refused, in this order: [`Empty`](SchemaError::Empty), where `name` is;
    /// [`DoubleName`](SchemaError::DoubleName), where one of these names stands already; [`TooMany`](SchemaError::TooMany).
    /// These leave the builder as it was. After [`NoMemory`](SchemaError::NoMemory) it has the first of these declarations.
    pub fn lay_out(builder: &mut SchemaBuilder, name: &str, slots: u32) -> Result<Pool, SchemaError>
        requires some { 0 < slots }
        requires few { slots ≤ MOST_SLOTS }
        // A refused pool leaves the schema as it was, but after want of memory: then the schema has the first of the
        // pool's declarations.
        ensures answer { LayOutAnswers builder.old builder.new name.now slots result }
    {
        test_names(builder, name, slots)?;
        let head = builder.fields();
        if head as usize + slots as usize >= MOST_FIELDS {
            return Err(SchemaError::TooMany);
        }
        declare(builder, name, slots)?;
        Ok(Pool::at(FieldId(head), slots))
    }
}

// Whether the pool's names are new.
fn test_names(builder: &SchemaBuilder, name: &str, slots: u32) -> Result<(), SchemaError>
    ensures answer { NamesAnswer builder.now name.now slots result }
{
    if name.is_empty() {
        return Err(SchemaError::Empty);
    }
    if builder.object_named(name).is_some() {
        return Err(SchemaError::DoubleName);
    }
    if names_a_cell(builder, name, slots) {
        return Err(SchemaError::DoubleName);
    }
    Ok(())
}

// Declares the object, the head's field, and those of the slots.
fn declare(builder: &mut SchemaBuilder, name: &str, slots: u32) -> Result<(), SchemaError>
    requires new { IsNewPool builder.old name.now slots }
    requires room { field_count builder.old + slots < MOST_FIELDS }
    ensures answer { DeclareAnswer builder.old builder.new name.now slots result }
{
    let object = builder.object(name)?;
    declare_cell(builder, name, object, HEAD, 1)?;
    declare_slots(builder, name, object, slots)?;
    Ok(())
}

// Declares the slots' fields, in their order.
fn declare_slots(
    builder: &mut SchemaBuilder,
    name: &str,
    object: ObjectId,
    slots: u32,
) -> Result<(), SchemaError>
    requires named { name.now ≢ [] }
    requires new { AreNewSlots builder.old name.now slots }
    requires object { object.0 < object_count builder.old }
    requires room { field_count builder.old + slots ≤ MOST_FIELDS }
    ensures ok { OnOk result (builder.new ≡ with_slots builder.old name.now object.0 slots slots) }
    ensures err { StopsAtPart builder.old builder.new name.now object.0 slots result }
{
    for slot in 0..slots {
        let link = link_after(slot, slots);
        declare_cell(builder, name, object, Buffer::new().format(slot), link)?;
    }
    Ok(())
}

// Declares one of the pool's fields.
fn declare_cell(
    builder: &mut SchemaBuilder,
    name: &str,
    object: ObjectId,
    cell: &str,
    first: u64,
) -> Result<(), SchemaError>
    requires new { IsNewName (names_of builder.old.fields) (cell_name name.now cell.now) }
    requires object { object.0 < object_count builder.old }
    requires room { field_count builder.old < MOST_FIELDS }
    ensures ok { OnOk result (builder.new ≡ with_cell builder.old name.now cell.now object.0 first) }
    ensures err { IfErr result (λ e. (e ≡ SchemaError.NoMemory) × (builder.new ≡ builder.old)) }
{
    let Ok(text) = spell(builder.allocator(), name, cell) else {
        return Err(SchemaError::NoMemory);
    };
    builder.field(object, text.as_str(), object, first)?;
    Ok(())
}

// The link with which a slot begins: to the next one, but for the last.
pub(crate) fn link_after(slot: u32, slots: u32) -> u64
    requires { slot < slots }
    ensures { result ≡ first_link slots slot }
{
    if slot + 1 == slots {
        0
    } else {
        u64::from(slot) + 2
    }
}
