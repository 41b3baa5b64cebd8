//! The objects and fields of the workers' heap.
ghost use Rattle.std.specs.Prelude.{◌≡◌, ◌<◌, suc, IfErr, IfOk, OnOk};
ghost use Rattle.thread_drive.specs.Schemas.{count_field, schema_of};
ghost use Rattle.guards.specs.Schema.{IsNewName, field_count, names_of, object_count, with_field, with_object};
ghost use Rattle.heap_model.specs.declared.limits.TheConstants.{MOST_FIELDS, MOST_OBJECTS};

use guards::{Schema, SchemaBuilder, SchemaError};
use std::alloc::Global;

/// The object `all` with the field `total`, and then for each worker i, from 0, an object `wi` with a field `owni`. Each field is
/// guarded by its object and begins with 0.
///
/// An error is want of memory.
pub fn declare(alloc: Global, workers: u8) -> Result<Schema, SchemaError>
    // The workers' schema is `all` with `total`, and an object and a field of its own for each worker.
    ensures ok { IfOk result (λ schema. schema ≡ schema_of workers) }
    // The workers' schema is refused only for want of memory.
    ensures memory { IfErr result (λ e. e ≡ SchemaError.NoMemory) }
{
    let mut builder = SchemaBuilder::new(alloc);
    if let Err(error) = declare_count(&mut builder, "all", "total") {
        drop(builder);
        return Err(error);
    }
    for worker in 0..workers {
        if let Err(error) = declare_own(alloc, &mut builder, worker) {
            drop(builder);
            return Err(error);
        }
    }
    match builder.build() {
        Ok(schema) => Ok(schema),
        Err((builder, error)) => {
            drop(builder);
            Err(error)
        }
    }
}

// The worker's own object and field.
fn declare_own(alloc: Global, builder: &mut SchemaBuilder, worker: u8) -> Result<(), SchemaError>
    requires { builder.old ≡ schema_of worker }
    ensures ok { OnOk result (builder.new ≡ schema_of (suc worker)) }
    ensures memory { IfErr result (λ e. e ≡ SchemaError.NoMemory) }
{
    let Ok(name) = format!(in alloc; "w{worker}") else {
        return Err(SchemaError::NoMemory);
    };
    let Ok(field) = format!(in alloc; "own{worker}") else {
        return Err(SchemaError::NoMemory);
    };
    declare_count(builder, name.as_str(), field.as_str())
}

// An object with a field.
fn declare_count(builder: &mut SchemaBuilder, name: &str, field: &str) -> Result<(), SchemaError>
    requires name { IsNewName builder.old.objects name.now }
    requires field { IsNewName (names_of builder.old.fields) field.now }
    requires objects { object_count builder.old < MOST_OBJECTS }
    requires fields { field_count builder.old < MOST_FIELDS }
    ensures ok { OnOk result (builder.new ≡ with_field (with_object builder.old name.now) (count_field field.now (object_count builder.old))) }
    ensures memory { IfErr result (λ e. e ≡ SchemaError.NoMemory) }
{
    let object = builder.object(name)?;
    builder.field(object, field, object, 0)?;
    Ok(())
}
