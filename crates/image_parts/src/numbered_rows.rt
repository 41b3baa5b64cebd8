//! A schema whose objects and fields are numbered alone.
ghost use Rattle.std.specs.Prelude.{◌≡◌, ◌++◌, ◌∷◌, [], ℕ, suc, List, IfErr, IfOk, OnOk, codes, decimal};
ghost use Rattle.guards.specs.Declaring.{Declares};
ghost use Rattle.guards.specs.Schema.{field_count, object_count};
ghost use Rattle.image_parts.specs.NumberedRows.{RefusesObject, RefusesRow, RefusesRows, field_name, object_name, numbered};
ghost use Rattle.image_parts.specs.declared.guard_row.GuardRow.{GuardRow as Row};

use crate::GuardRow;
use guards::{Schema, SchemaBuilder, SchemaError};
use heap_model::FieldId;
use std::alloc::Global;

/// The schema of so many objects and of these fields, each by its owner, its guard, its first value and its mark. Object i is named
/// `oi`, and field i `fi`.
///
/// Refusals, as they are met: `TooMany` objects; then by field `UnknownObject` and `TooMany`; `Empty` for no object or no field;
/// `NoMemory` at any time.
pub fn declare(alloc: Global, objects: u32, rows: &[GuardRow]) -> Result<Schema, SchemaError>
    // Guard rows make the schema of so many numbered objects and of the fields that they say, each transient where its
    // row is marked.
    ensures ok { IfOk result (λ schema. schema ≡ numbered objects rows.now) }
    // Guard rows are refused for what is wrong with them, or for want of memory.
    ensures refused { IfErr result (RefusesRows objects rows.now) }
{
    let mut builder = SchemaBuilder::new(alloc);
    match declare_all(alloc, &mut builder, objects, rows) {
        Ok(()) => match builder.build() {
            Ok(schema) => Ok(schema),
            Err((builder, refusal)) => {
                drop(builder);
                Err(refusal)
            }
        },
        Err(refusal) => {
            drop(builder);
            Err(refusal)
        }
    }
}

// So many objects, and then these fields.
fn declare_all(
    alloc: Global,
    builder: &mut SchemaBuilder,
    objects: u32,
    rows: &[GuardRow],
) -> Result<(), SchemaError>
    requires { builder.old ≡ numbered 0 [] }
    ensures ok { OnOk result (builder.new ≡ numbered objects rows.now) }
    ensures refused { IfErr result (RefusesRows objects rows.now) }
{
    declare_objects(alloc, builder, objects)?;
    declare_rows(alloc, builder, objects, rows)
}

// So many objects.
fn declare_objects(
    alloc: Global,
    builder: &mut SchemaBuilder,
    objects: u32,
) -> Result<(), SchemaError>
    requires { builder.old ≡ numbered 0 [] }
    ensures ok { OnOk result (builder.new ≡ numbered objects []) }
    ensures refused { IfErr result (RefusesObject objects) }
{
    for number in 0..objects {
        declare_object(alloc, builder, number)?;
    }
    Ok(())
}

// The object of this number, behind those before.
fn declare_object(
    alloc: Global,
    builder: &mut SchemaBuilder,
    number: u32,
) -> Result<(), SchemaError>
    requires { builder.old ≡ numbered number [] }
    ensures ok { OnOk result (builder.new ≡ numbered (suc number) []) }
    ensures refused { IfErr result (RefusesObject (suc number)) }
{
    let Ok(name) = format!(in alloc; "o{number}") else {
        return Err(SchemaError::NoMemory);
    };
    match builder.object(name.as_str()) {
        Ok(_) => Ok(()),
        Err(refusal) => Err(refusal),
    }
}

// These fields.
fn declare_rows(
    alloc: Global,
    builder: &mut SchemaBuilder,
    objects: u32,
    rows: &[GuardRow],
) -> Result<(), SchemaError>
    requires { builder.old ≡ numbered objects [] }
    ensures ok { OnOk result (builder.new ≡ numbered objects rows.now) }
    ensures refused { IfErr result (RefusesRows objects rows.now) }
{
    let _objects = objects;
    for row in rows.iter().copied() {
        declare_row(alloc, builder, row)?;
    }
    Ok(())
}

// One field, behind those before.
fn declare_row(alloc: Global, builder: &mut SchemaBuilder, row: GuardRow) -> Result<(), SchemaError>
    ensures ok { (objects : ℕ) (before : List Row) → builder.old ≡ numbered objects before → OnOk result (builder.new ≡ numbered objects (before ++ row ∷ [])) }
    ensures refused { (objects : ℕ) (before : List Row) → builder.old ≡ numbered objects before → IfErr result (RefusesRow objects before row) }
{
    let number = builder.fields();
    let Ok(name) = format!(in alloc; "f{number}") else {
        return Err(SchemaError::NoMemory);
    };
    match declare_named(builder, name.as_str(), row) {
        Ok(_) => Ok(()),
        Err(refusal) => Err(refusal),
    }
}

// The field of this row under this name, transient where it is marked so.
fn declare_named(
    builder: &mut SchemaBuilder,
    name: &str,
    row: GuardRow,
) -> Result<FieldId, SchemaError>
    ensures { Declares row.owner name.now row.guard row.first row.transient builder.old result builder.new }
{
    if row.transient {
        builder.transient(row.owner, name, row.guard, row.first)
    } else {
        builder.field(row.owner, name, row.guard, row.first)
    }
}
