//! Pools as a schema declares them.

use guards::{Schema, SchemaBuilder, SchemaError};
use heap_model::FieldId;
use pool::Pool;
use std::alloc::Global;

// Declares an object, its field of this name, and a pool `p` of two slots.
fn lay_out(builder: &mut SchemaBuilder, field: &str) -> Option<()> {
    let other = builder.object("other").ok()?;
    builder.field(other, field, other, 5).ok()?;
    Pool::lay_out(builder, "p", 2).ok()?;
    Some(())
}

// The schema of these.
fn schema_of_pool(alloc: Global) -> Option<Schema> {
    let mut builder = SchemaBuilder::new(alloc);
    if lay_out(&mut builder, "x").is_none() {
        drop(builder);
        return None;
    }
    match builder.build() {
        Ok(schema) => Some(schema),
        Err((builder, _why)) => {
            drop(builder);
            None
        }
    }
}

// The number, guard and first value of each field of the pool in this schema.
fn fields_of_pool(schema: &Schema) -> Option<[(u32, u32, u64); 3]> {
    let mut found = [(0, 0, 0); 3];
    let mut place = 0;
    for name in ["p.head", "p.0", "p.1"] {
        let field = schema.field_named(name)?;
        if field.0 >= schema.fields() || place >= found.len() {
            return None;
        }
        found[place] = (field.0, schema.guard(field).0, schema.first(field));
        place += 1;
    }
    Some(found)
}

// The same of a pool that is declared after an object and a field.
fn declared(alloc: Global) -> Option<[(u32, u32, u64); 3]> {
    let schema = schema_of_pool(alloc)?;
    let found = fields_of_pool(&schema);
    drop(schema);
    found
}

// Why pools are refused, where `p` is declared with two slots and a field is named `q.1`; and how many fields there are then.
type Refusals = ([Option<SchemaError>; 5], u32);

fn refuse_all(builder: &mut SchemaBuilder) -> Option<Refusals> {
    lay_out(builder, "q.1")?;
    let why = [
        Pool::lay_out(builder, "", 1).err(),
        Pool::lay_out(builder, "p", 1).err(),
        Pool::lay_out(builder, "q", 2).err(),
        Pool::lay_out(builder, "r", 16_380).err(),
        Pool::lay_out(builder, "q", 1).err(),
    ];
    Some((why, builder.fields()))
}

fn refusals(alloc: Global) -> Option<Refusals> {
    let mut builder = SchemaBuilder::new(alloc);
    let refusals = refuse_all(&mut builder);
    drop(builder);
    refusals
}

#[test]
fn fields_are_named_guarded_and_begun(rt: HostRuntime) {
    let expected = [(1, 1, 1), (2, 1, 2), (3, 1, 0)];
    assert!(rt; declared(rt.alloc()) == Some(expected));
}

#[test]
fn pools_are_refused(rt: HostRuntime) {
    let why = [
        Some(SchemaError::Empty),
        Some(SchemaError::DoubleName),
        Some(SchemaError::DoubleName),
        Some(SchemaError::TooMany),
        None,
    ];
    assert!(rt; refusals(rt.alloc()) == Some((why, 6)));
}

// The names of the fields of a pool `p` of eight slots, in the order in which they are declared.
const CELLS: [&str; 9] = [
    "p.head", "p.0", "p.1", "p.2", "p.3", "p.4", "p.5", "p.6", "p.7",
];

// Whether the builder has the first of the pool's declarations and no others: its object, and then its fields.
fn has_first(builder: &SchemaBuilder) -> bool {
    for number in 0..builder.fields() {
        if CELLS.get(number as usize).copied() != Some(builder.field_name(FieldId(number))) {
            return false;
        }
    }
    builder.fields() == 0 || builder.object_named("p").is_some()
}

// Whether the pool is declared whole, or, for want of memory, the first of it.
fn lays_out_in_order(builder: &mut SchemaBuilder) -> bool {
    let whole = match Pool::lay_out(builder, "p", 8) {
        Ok(_) => true,
        Err(SchemaError::NoMemory) => false,
        Err(_) => return false,
    };
    (builder.fields() == 9) == whole && has_first(builder)
}

fn declares_in_order(alloc: Global) -> bool {
    let mut builder = SchemaBuilder::new(alloc);
    let in_order = lays_out_in_order(&mut builder);
    drop(builder);
    in_order
}

// Passes with any one of its allocations refused (`rt try --test --fail-alloc N`), and with none.
#[test]
fn refused_memory_leaves_the_first_declarations(rt: HostRuntime) {
    assert!(rt; declares_in_order(rt.alloc()));
}
