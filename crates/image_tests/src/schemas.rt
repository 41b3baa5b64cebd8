//! What schemas and their builders answer.
use guards::{Schema, SchemaBuilder, SchemaError};
use heap_model::{FieldId, ObjectId};
use std::alloc::{AllocError, Global};

const O0: ObjectId = ObjectId(0);

const O1: ObjectId = ObjectId(1);

const NONE: ObjectId = ObjectId(4096);

// The builder's calls without their contracts: what a test's proof doesn't need, it doesn't carry.
pub(crate) fn object(builder: &mut SchemaBuilder, name: &str) -> Result<ObjectId, SchemaError> {
    builder.object(name)
}

pub(crate) fn field(
    builder: &mut SchemaBuilder,
    owner: ObjectId,
    name: &str,
    guard: ObjectId,
    first: u64,
) -> Result<FieldId, SchemaError> {
    builder.field(owner, name, guard, first)
}

pub(crate) fn transient(
    builder: &mut SchemaBuilder,
    owner: ObjectId,
    name: &str,
    guard: ObjectId,
    first: u64,
) -> Result<FieldId, SchemaError> {
    builder.transient(owner, name, guard, first)
}

fn objects_answered(builder: &mut SchemaBuilder) -> [Result<ObjectId, SchemaError>; 3] {
    [
        object(builder, "a"),
        object(builder, "a"),
        object(builder, ""),
    ]
}

fn fields_answered(builder: &mut SchemaBuilder) -> [Result<FieldId, SchemaError>; 3] {
    [
        field(builder, O1, "x", O0, 1),
        field(builder, O0, "x", O1, 1),
        field(builder, O0, "x", O0, 7),
    ]
}

/// The schema of a builder that makes one.
pub(crate) fn built(builder: SchemaBuilder) -> Option<Schema> {
    builder.build().ok()
}

// What a field is: its owner, its guard and its first value.
type Row = (ObjectId, ObjectId, u64);

// What a builder answers to fields; and how many fields the schema has, and the first.
type ToldOfFields = (
    [Result<FieldId, SchemaError>; 3],
    Option<(u32, Option<Row>)>,
);

fn told_of_fields(mut builder: SchemaBuilder) -> ToldOfFields {
    let fields = fields_answered(&mut builder);
    match built(builder) {
        Some(schema) => {
            let found = (schema.fields(), row(&schema, 0));
            drop(schema);
            (fields, Some(found))
        }
        None => (fields, None),
    }
}

// What a builder answers to objects, why it makes no schema then, and what it answers to fields.
type Told = (
    [Result<ObjectId, SchemaError>; 3],
    SchemaError,
    ToldOfFields,
);

fn told_of_declarations(alloc: Global) -> Option<Told> {
    let mut builder = SchemaBuilder::new(alloc);
    let objects = objects_answered(&mut builder);
    match builder.build() {
        Ok(schema) => {
            drop(schema);
            None
        }
        Err((builder, why)) => Some((objects, why, told_of_fields(builder))),
    }
}

// A builder that makes no schema is given back, with the reason, and goes on.
#[test]
fn declarations_are_answered(rt: HostRuntime) {
    let objects = [
        Ok(O0),
        Err(SchemaError::DoubleName),
        Err(SchemaError::Empty),
    ];
    let unknown = Err(SchemaError::UnknownObject);
    let fields = [unknown, unknown, Ok(FieldId(0))];
    let found = Some((1, Some((O0, O0, 7))));
    let wanted = (objects, SchemaError::Empty, (fields, found));
    assert!(rt; told_of_declarations(rt.alloc()) == Some(wanted));
}

// Two objects, each with a field that the other guards. An object and a field may have one name.
fn declare_account_and_bank(builder: &mut SchemaBuilder) -> Option<()> {
    object(builder, "account").ok()?;
    object(builder, "bank").ok()?;
    field(builder, O1, "bank", O0, 11).ok()?;
    field(builder, O0, "balance", O1, u64::MAX).ok()?;
    Some(())
}

fn account_and_bank(alloc: Global) -> Option<Schema> {
    let mut builder = SchemaBuilder::new(alloc);
    match declare_account_and_bank(&mut builder) {
        Some(()) => built(builder),
        None => {
            drop(builder);
            None
        }
    }
}

// The objects that a builder finds by an object's name, and by a field's.
fn objects_named(alloc: Global) -> [Option<ObjectId>; 2] {
    let mut builder = SchemaBuilder::new(alloc);
    let found = declare_and_find(&mut builder);
    drop(builder);
    found
}

fn declare_and_find(builder: &mut SchemaBuilder) -> [Option<ObjectId>; 2] {
    let _declared = declare_account_and_bank(builder);
    [
        builder.object_named("bank"),
        builder.object_named("balance"),
    ]
}

#[test]
fn a_builder_finds_its_objects(rt: HostRuntime) {
    assert!(rt; objects_named(rt.alloc()) == [Some(O1), None]);
}

fn row(schema: &Schema, field: u32) -> Option<Row> {
    let field = FieldId(field);
    if field.0 < schema.fields() {
        Some((
            schema.owner(field),
            schema.guard(field),
            schema.first(field),
        ))
    } else {
        None
    }
}

fn three_rows(schema: &Schema) -> [Option<Row>; 3] {
    [row(schema, 0), row(schema, 1), row(schema, 2)]
}

fn rows(alloc: Global) -> Option<[Option<Row>; 3]> {
    match account_and_bank(alloc) {
        Some(schema) => {
            let rows = three_rows(&schema);
            drop(schema);
            Some(rows)
        }
        None => None,
    }
}

#[test]
fn fields_are_as_declared(rt: HostRuntime) {
    let wanted = [Some((O1, O0, 11)), Some((O0, O1, u64::MAX)), None];
    assert!(rt; rows(rt.alloc()) == Some(wanted));
}

// The object and the field of this name.
fn named(schema: &Schema, name: &str) -> (Option<ObjectId>, Option<FieldId>) {
    (schema.object_named(name), schema.field_named(name))
}

// Whether there are two objects, the second of which has this name.
fn second_object_is(schema: &Schema, name: &str) -> bool {
    if schema.objects() == 2 {
        schema.object_name(O1) == name
    } else {
        false
    }
}

// What the names of two objects, of a field and of nothing find, and whether the second object has its name.
type Names = ([(Option<ObjectId>, Option<FieldId>); 4], bool);

fn names_in(schema: &Schema) -> Names {
    let found = [
        named(schema, "account"),
        named(schema, "bank"),
        named(schema, "balance"),
        named(schema, ""),
    ];
    (found, second_object_is(schema, "bank"))
}

fn names(alloc: Global) -> Option<Names> {
    match account_and_bank(alloc) {
        Some(schema) => {
            let names = names_in(&schema);
            drop(schema);
            Some(names)
        }
        None => None,
    }
}

#[test]
fn names_find_their_own_declarations(rt: HostRuntime) {
    let wanted = [
        (Some(O0), None),
        (Some(O1), Some(FieldId(0))),
        (None, Some(FieldId(1))),
        (None, None),
    ];
    assert!(rt; names(rt.alloc()) == Some((wanted, true)));
}

fn declares_object(
    builder: &mut SchemaBuilder,
    alloc: Global,
    number: u32,
) -> Result<bool, AllocError> {
    let name = format!(in alloc; "o{number}")?;
    let answer = object(builder, name.as_str());
    drop(name);
    Ok(answer == Ok(ObjectId(number)))
}

fn declares_field(
    builder: &mut SchemaBuilder,
    alloc: Global,
    number: u32,
) -> Result<bool, AllocError> {
    let name = format!(in alloc; "f{number}")?;
    let guard = ObjectId(number % 4096);
    let answer = field(builder, O0, name.as_str(), guard, u64::from(number));
    drop(name);
    Ok(answer == Ok(FieldId(number)))
}

fn declares_all_objects(builder: &mut SchemaBuilder, alloc: Global) -> bool {
    for number in 0..4096 {
        if !matches!(declares_object(builder, alloc, number), Ok(true)) {
            return false;
        }
    }
    true
}

fn declares_all_fields(builder: &mut SchemaBuilder, alloc: Global) -> bool {
    for number in 0..16_384 {
        if !matches!(declares_field(builder, alloc, number), Ok(true)) {
            return false;
        }
    }
    true
}

// A builder with as many objects and fields as there may be.
fn filled(alloc: Global) -> Option<SchemaBuilder> {
    let mut builder = SchemaBuilder::new(alloc);
    if declares_all_objects(&mut builder, alloc) && declares_all_fields(&mut builder, alloc) {
        Some(builder)
    } else {
        drop(builder);
        None
    }
}

fn objects_beyond(builder: &mut SchemaBuilder) -> [Result<ObjectId, SchemaError>; 3] {
    [
        object(builder, ""),
        object(builder, "o4095"),
        object(builder, "o4096"),
    ]
}

fn fields_beyond(builder: &mut SchemaBuilder) -> [Result<FieldId, SchemaError>; 5] {
    [
        field(builder, NONE, "", NONE, 0),
        field(builder, NONE, "f0", NONE, 0),
        field(builder, NONE, "o0", O0, 0),
        field(builder, O0, "o0", NONE, 0),
        field(builder, O0, "o0", O0, 0),
    ]
}

// How many objects and fields a schema has, its last field by name, and what that is.
type Counts = (u32, u32, Option<FieldId>, Option<Row>);

// What a filled builder answers to objects and to fields, and its schema's counts.
type Full = (
    [Result<ObjectId, SchemaError>; 3],
    [Result<FieldId, SchemaError>; 5],
    Option<Counts>,
);

fn told_of_full(alloc: Global) -> Option<Full> {
    match filled(alloc) {
        Some(builder) => Some(told_beyond(builder)),
        None => None,
    }
}

fn told_beyond(mut builder: SchemaBuilder) -> Full {
    let objects = objects_beyond(&mut builder);
    let fields = fields_beyond(&mut builder);
    (objects, fields, built_counts(builder))
}

fn built_counts(builder: SchemaBuilder) -> Option<Counts> {
    let schema = built(builder)?;
    let counts = counts(&schema);
    drop(schema);
    Some(counts)
}

fn counts(schema: &Schema) -> Counts {
    (
        schema.objects(),
        schema.fields(),
        schema.field_named("f16383"),
        row(schema, 16_383),
    )
}

// At each limit the earlier reasons still come first, and a full schema is built.
#[test]
fn limits_are_tested_last(rt: HostRuntime) {
    let objects = [
        Err(SchemaError::Empty),
        Err(SchemaError::DoubleName),
        Err(SchemaError::TooMany),
    ];
    let fields = [
        Err(SchemaError::Empty),
        Err(SchemaError::DoubleName),
        Err(SchemaError::UnknownObject),
        Err(SchemaError::UnknownObject),
        Err(SchemaError::TooMany),
    ];
    let row = Some((O0, ObjectId(4095), 16_383));
    let counts = Some((4096, 16_384, Some(FieldId(16_383)), row));
    assert!(rt; told_of_full(rt.alloc()) == Some((objects, fields, counts)));
}

// Where the first answer is want of memory, the declaration is made again: had the refused one
// been kept, this would be a double name, and had it been counted, the numbers would be wrong.
fn object_again(builder: &mut SchemaBuilder, name: &str) -> Result<ObjectId, SchemaError> {
    match object(builder, name) {
        Err(SchemaError::NoMemory) => object(builder, name),
        answer => answer,
    }
}

fn field_again(
    builder: &mut SchemaBuilder,
    owner: ObjectId,
    name: &str,
) -> Result<FieldId, SchemaError> {
    match field(builder, owner, name, O0, 5) {
        Err(SchemaError::NoMemory) => field(builder, owner, name, O0, 5),
        answer => answer,
    }
}

fn declares_objects_again(builder: &mut SchemaBuilder, names: &[&str]) -> bool {
    let mut number = 0u32;
    for name in names {
        if object_again(builder, name) != Ok(ObjectId(number)) {
            return false;
        }
        number = number.saturating_add(1);
    }
    true
}

fn declares_fields_again(builder: &mut SchemaBuilder, names: &[&str]) -> bool {
    let mut number = 0u32;
    for name in names {
        if field_again(builder, ObjectId(number), name) != Ok(FieldId(number)) {
            return false;
        }
        number = number.saturating_add(1);
    }
    true
}

fn finds_all(schema: &Schema, names: &[&str]) -> bool {
    let mut number = 0u32;
    for name in names {
        if named(schema, name) != (Some(ObjectId(number)), Some(FieldId(number))) {
            return false;
        }
        number = number.saturating_add(1);
    }
    true
}

// Whether nine names are all that the schema has, of objects and of fields.
fn has_nine(schema: &Schema, names: &[&str]) -> bool {
    schema.objects() == 9 && schema.fields() == 9 && finds_all(schema, names)
}

fn builds_nine(builder: SchemaBuilder, names: &[&str]) -> bool {
    match built(builder) {
        Some(schema) => {
            let has_nine = has_nine(&schema, names);
            drop(schema);
            has_nine
        }
        None => false,
    }
}

// Whether they are declared, and the schema has them then.
fn told_of_growth(alloc: Global) -> [bool; 2] {
    let names = ["a", "b", "c", "d", "e", "f", "g", "h", "i"];
    let mut builder = SchemaBuilder::new(alloc);
    let are_declared = declares_objects_again(&mut builder, &names)
        && declares_fields_again(&mut builder, &names);
    [are_declared, builds_nine(builder, &names)]
}

// Passes with any one of its allocations refused (`rt try --test --fail-alloc N`), and with none.
#[test]
fn refused_growth_changes_nothing(rt: HostRuntime) {
    assert!(rt; told_of_growth(rt.alloc()) == [true; 2]);
}
