//! Writing what is salvaged.
ghost use Rattle.std.specs.Prelude.{◌≡◌, length};
ghost use Rattle.script_declarations.specs.SchemaText.{ended};
ghost use Rattle.guards.specs.Schema.{field_count};
ghost use Rattle.inspect.specs.Written.{Writes};
ghost use Rattle.image_salvage.specs.Notes.{noted_file};

use guards::Schema;
use image_schema::write_schema;
use inspect::{Piece, WriteError, put_line};
use std::io::Write;

/// Writes this first line, and the schema file of a schema whose fields begin with these values. After an error a beginning is written.
pub(crate) fn write_noted<W: Write>(
    note: &str,
    schema: &Schema,
    values: &[u64],
    writer: &mut W,
) -> Result<(), WriteError>
    requires { length values.now ≡ field_count schema.now }
    ensures { Writes W.contents writer.old writer.new (noted_file note.now schema.now values.now) result }
{
    put_note(note, writer)?;
    write_schema(schema, values, writer)
}

fn put_note<W: Write>(note: &str, writer: &mut W) -> Result<(), WriteError>
    ensures { Writes W.contents writer.old writer.new (ended note.now) result }
{
    put_line(writer, &[Piece::Words(note)])
}
