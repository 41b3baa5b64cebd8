//! The line of the transient fields (docs/SCRIPTS.md, "The inspector's lines").
ghost use Rattle.std.specs.Prelude.{◌≡◌, length};
ghost use Rattle.std.specs.List.{list_any};
ghost use Rattle.inspect.specs.Written.{Writes};
ghost use Rattle.inspect.specs.TransientText.{transient_line, marks_line, marks_text, mark_text};

use crate::error::WriteError;
use crate::pieces::{Piece, put_pieces};
use crate::writer::put;
use image::GuardRow;
use std::io::Write;

/// Writes the numbers of the transient fields of these guard rows: a line, and nothing where there are none.
pub(crate) fn put_transients<W: Write>(writer: &mut W, rows: &[GuardRow]) -> Result<(), WriteError>
    ensures { Writes W.contents writer.old writer.new (transient_line rows.now) result }
{
    if !has_transient(rows) {
        return Ok(());
    }
    put_transient_line(writer, rows)
}

fn has_transient(rows: &[GuardRow]) -> bool
    ensures { result ≡ list_any (λ row. row.transient) rows.now }
{
    rows.iter().any(|row| row.transient)
}

fn put_transient_line<W: Write>(writer: &mut W, rows: &[GuardRow]) -> Result<(), WriteError>
    ensures { Writes W.contents writer.old writer.new (marks_line rows.now) result }
{
    put(writer, b"transient")?;
    put_marks(writer, rows)?;
    put(writer, b"\n")
}

fn put_marks<W: Write>(writer: &mut W, rows: &[GuardRow]) -> Result<(), WriteError>
    ensures { Writes W.contents writer.old writer.new (marks_text rows.now (length rows.now)) result }
{
    for field in 0..rows.len() {
        put_mark(writer, field as u64, &rows[field])?;
    }
    Ok(())
}

fn put_mark<W: Write>(writer: &mut W, field: u64, row: &GuardRow) -> Result<(), WriteError>
    ensures { Writes W.contents writer.old writer.new (mark_text field row.now) result }
{
    if !row.transient {
        return Ok(());
    }
    put_pieces(writer, &[Piece::Words(" "), Piece::Number(field)])
}
