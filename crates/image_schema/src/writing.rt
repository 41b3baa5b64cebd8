//! Writing the schema file of a schema (docs/SCRIPTS.md, "Lines").
ghost use Rattle.std.specs.Prelude.{◌≡◌, ◌<◌, length};
ghost use Rattle.guards.specs.Schema.{field_count, object_count};
ghost use Rattle.image_schema.specs.Lines.{file_of, objects_of_file, fields_of_file, object_at, field_at};
ghost use Rattle.inspect.specs.Written.{Writes};
ghost use Rattle.script_lines.specs.Grammar as grammar;

use guards::Schema;
use heap_model::{FieldId, ObjectId};
use inspect::{Piece, WriteError, put_line};
use std::io::Write;

/// Writes the schema file of a schema whose fields begin with these values: a line for each object, and then one for each
/// field, by number. After an error a beginning of the file is written.
pub fn write_schema<W: Write>(
    schema: &Schema,
    values: &[u64],
    writer: &mut W,
) -> Result<(), WriteError>
    requires { length values.now ≡ field_count schema.now }
    // The schema file of the schema is written, with these first values; after a fault of the writer a beginning of it.
    ensures { Writes W.contents writer.old writer.new (file_of schema.now values.now) result }
{
    put_objects(schema, writer)?;
    put_fields(schema, values, writer)
}

fn put_objects<W: Write>(schema: &Schema, writer: &mut W) -> Result<(), WriteError>
    ensures { Writes W.contents writer.old writer.new (objects_of_file schema.now) result }
{
    for object in 0..schema.objects() {
        put_object(schema, ObjectId(object), writer)?;
    }
    Ok(())
}

fn put_object<W: Write>(schema: &Schema, object: ObjectId, writer: &mut W) -> Result<(), WriteError>
    requires { object.0 < object_count schema.now }
    ensures { Writes W.contents writer.old writer.new (object_at schema.now object.0) result }
{
    put_line(
        writer,
        &[
            Piece::Words("object "),
            Piece::Words(schema.object_name(object)),
        ],
    )
}

fn put_fields<W: Write>(schema: &Schema, values: &[u64], writer: &mut W) -> Result<(), WriteError>
    requires { length values.now ≡ field_count schema.now }
    ensures { Writes W.contents writer.old writer.new (fields_of_file schema.now values.now) result }
{
    for field in 0..schema.fields() {
        put_field(schema, FieldId(field), values[field as usize], writer)?;
    }
    Ok(())
}

fn put_field<W: Write>(
    schema: &Schema,
    field: FieldId,
    value: u64,
    writer: &mut W,
) -> Result<(), WriteError>
    requires { field.0 < field_count schema.now }
    ensures { Writes W.contents writer.old writer.new (field_at schema.now field.0 value) result }
{
    put_line(
        writer,
        &[
            Piece::Words(field_word(schema.transient(field))),
            Piece::Words(" "),
            Piece::Words(schema.field_name(field)),
            Piece::Words(" "),
            Piece::Words(schema.object_name(schema.owner(field))),
            Piece::Words(" "),
            Piece::Words(schema.object_name(schema.guard(field))),
            Piece::Words(" "),
            Piece::Number(value),
        ],
    )
}

// The word with which a field's line begins.
fn field_word(is_transient: bool) -> &'static str
    ensures { result.now ≡ grammar.field_word is_transient }
{
    if is_transient { "transient" } else { "field" }
}
