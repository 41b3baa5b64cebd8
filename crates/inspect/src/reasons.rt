//! Why sections are dropped, in a graph.
ghost use Rattle.std.specs.Prelude.{◌≡◌};
ghost use Rattle.inspect.specs.Written.{Writes};
ghost use Rattle.inspect.specs.GraphText.{is_about, reason_end, reason_in};
ghost use Rattle.inspect.specs.Pieces.{line};

use crate::error::WriteError;
use crate::pieces::{Piece, put_line};
use crate::report_lines::thread_number;
use crate::section::SectionId;
use recover::{Dropped, Why};
use std::io::Write;

/// Why the section is dropped, if it is one of these.
pub(crate) fn reason_of(dropped: &[Dropped], section: SectionId) -> Option<Why>
    ensures { result ≡ reason_in dropped.now section }
{
    for entry in dropped {
        if is_about(*entry, section) {
            return Some(entry.why);
        }
    }
    None
}

fn is_about(dropped: Dropped, section: SectionId) -> bool
    ensures { result ≡ is_about dropped section }
{
    dropped.lane == section.lane && dropped.section == section.number
}

/// Ends the node of a section that is dropped, with the reason where its first words don't say it, and the node's colour.
pub(crate) fn put_reason<W: Write>(writer: &mut W, why: Why) -> Result<(), WriteError>
    ensures { Writes W.contents writer.old writer.new (line (reason_end why)) result }
{
    match why {
        Why::Unfinished => put_line(
            writer,
            &[Piece::Words("\", style=filled, fillcolor=lightpink]")],
        ),
        Why::After { lane, section } => put_line(
            writer,
            &[
                Piece::Words("\\nafter t"),
                Piece::Number(thread_number(lane)),
                Piece::Words(" "),
                Piece::Number(section),
                Piece::Words("\", style=filled, fillcolor=orange]"),
            ],
        ),
        Why::Unsettled => put_line(
            writer,
            &[Piece::Words("\\nunsettled\", style=filled, fillcolor=khaki]")],
        ),
    }
}
