//! The pieces that a line is made of.
ghost use Rattle.std.specs.Prelude.{◌≡◌};
ghost use Rattle.inspect.specs.Written.{Writes};
ghost use Rattle.inspect.specs.Pieces.{piece_text, pieces_text, line_text, numbers_text, list_line};

use crate::error::WriteError;
use crate::writer::put;
use itoa::Buffer;
use std::io::Write;

/// A piece of a line.
#[derive(Clone, Copy, Debug, PartialEq, Eq)]
pub enum Piece<'a> {
    /// These words.
    Words(&'a str),
    /// A number, in decimal.
    Number(u64),
}

/// Writes a line of these pieces. After an error a beginning of it is written.
pub fn put_line<W: Write>(writer: &mut W, pieces: &[Piece<'_>]) -> Result<(), WriteError>
    ensures { Writes W.contents writer.old writer.new (line_text pieces.now) result }
{
    put_pieces(writer, pieces)?;
    put(writer, b"\n")
}

/// Writes the pieces, one after the other.
pub(crate) fn put_pieces<W: Write>(writer: &mut W, pieces: &[Piece<'_>]) -> Result<(), WriteError>
    ensures { Writes W.contents writer.old writer.new (pieces_text pieces.now) result }
{
    for piece in pieces {
        put_piece(writer, piece)?;
    }
    Ok(())
}

fn put_piece<W: Write>(writer: &mut W, piece: &Piece<'_>) -> Result<(), WriteError>
    ensures { Writes W.contents writer.old writer.new (piece_text piece.now) result }
{
    match piece {
        Piece::Words(words) => put(writer, words.as_bytes()),
        Piece::Number(number) => put(writer, Buffer::new().format(*number).as_bytes()),
    }
}

/// Writes a line of a word and numbers, each after a space. After an error a beginning of it is written.
pub fn put_list<W: Write>(writer: &mut W, word: &str, numbers: &[u64]) -> Result<(), WriteError>
    ensures { Writes W.contents writer.old writer.new (list_line word.now numbers.now) result }
{
    put(writer, word.as_bytes())?;
    put_numbers(writer, numbers)?;
    put(writer, b"\n")
}

fn put_numbers<W: Write>(writer: &mut W, numbers: &[u64]) -> Result<(), WriteError>
    ensures { Writes W.contents writer.old writer.new (numbers_text numbers.now) result }
{
    for number in numbers {
        put_pieces(writer, &[Piece::Words(" "), Piece::Number(*number)])?;
    }
    Ok(())
}
