//! The lines of sections and of dependences (docs/SCRIPTS.md, "The inspector's lines").
ghost use Rattle.std.specs.Prelude.{◌≡◌};
ghost use Rattle.inspect.specs.Written.{Writes};
ghost use Rattle.inspect.specs.SectionText.{section_line, link_line};
ghost use Rattle.inspect.specs.GraphText.{state_text};

use crate::error::WriteError;
use crate::pieces::{Piece, put_line};
use crate::report_lines::thread_number;
use crate::section::{Link, Section};
use std::io::Write;

/// Writes the line of a section.
pub(crate) fn put_section_line<W: Write>(writer: &mut W, section: Section) -> Result<(), WriteError>
    ensures { Writes W.contents writer.old writer.new (section_line section) result }
{
    let thread = thread_number(section.id.lane);
    put_line(
        writer,
        &[
            Piece::Words("section t"),
            Piece::Number(thread),
            Piece::Words(" "),
            Piece::Number(section.id.number),
            Piece::Words(" "),
            Piece::Words(state(section.is_whole)),
            Piece::Words(" records "),
            Piece::Number(section.records),
        ],
    )
}

/// Writes the line of a dependence.
pub(crate) fn put_link_line<W: Write>(writer: &mut W, link: Link) -> Result<(), WriteError>
    ensures { Writes W.contents writer.old writer.new (link_line link) result }
{
    let taker = thread_number(link.taker.lane);
    let releaser = thread_number(link.releaser.lane);
    put_line(
        writer,
        &[
            Piece::Words("depends t"),
            Piece::Number(taker),
            Piece::Words(" "),
            Piece::Number(link.taker.number),
            Piece::Words(" on t"),
            Piece::Number(releaser),
            Piece::Words(" "),
            Piece::Number(link.releaser.number),
            Piece::Words(" object "),
            Piece::Number(u64::from(link.object.0)),
            Piece::Words(" number "),
            Piece::Number(link.number),
        ],
    )
}

/// Whether a section has ended, in a word.
pub(crate) fn state(is_whole: bool) -> &'static str
    ensures { result.now ≡ state_text is_whole }
{
    if is_whole { "whole" } else { "unfinished" }
}
