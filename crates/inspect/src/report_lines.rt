//! The lines of a report (docs/SCRIPTS.md, "Lines").
ghost use Rattle.std.specs.Prelude.{◌≡◌, ◌+◌, take, min};
ghost use Rattle.inspect.specs.Written.{Writes};
ghost use Rattle.inspect.specs.ReportText.{report_text, dropped_lines, dropped_line};

use crate::error::WriteError;
use crate::pieces::{Piece, put_line, put_list};
use heap_model::Lane;
use recover::{Dropped, Report, Why};
use std::io::Write;

/// Writes what recovery has made of an image of so many lanes: what is kept, each section that is dropped, how many
/// fields took their old value back, and the heap, by field. After an error a beginning of the lines is written.
pub fn write_report<W: Write>(
    report: &Report,
    heap: &[u64],
    lanes: u8,
    writer: &mut W,
) -> Result<(), WriteError>
    // The lines of a report are the documented text.
    ensures { Writes W.contents writer.old writer.new (report_text report.now heap.now lanes) result }
{
    put_list(writer, "kept", first_counts(&report.kept.counts, lanes))?;
    put_dropped(writer, &report.dropped)?;
    put_line(
        writer,
        &[
            Piece::Words("undone "),
            Piece::Number(u64::from(report.undone)),
        ],
    )?;
    put_list(writer, "heap", heap)
}

/// The counts of the first lanes, so many.
pub(crate) fn first_counts(counts: &[u64], lanes: u8) -> &[u64]
    ensures { result.now ≡ take lanes counts.now }
{
    &counts[..counts.len().min(usize::from(lanes))]
}

fn put_dropped<W: Write>(writer: &mut W, dropped: &[Dropped]) -> Result<(), WriteError>
    ensures { Writes W.contents writer.old writer.new (dropped_lines dropped.now) result }
{
    for section in dropped {
        put_section(writer, *section)?;
    }
    Ok(())
}

fn put_section<W: Write>(writer: &mut W, dropped: Dropped) -> Result<(), WriteError>
    ensures { Writes W.contents writer.old writer.new (dropped_line dropped) result }
{
    let thread = Piece::Number(thread_number(dropped.lane));
    let section = Piece::Number(dropped.section);
    let front = Piece::Words("dropped t");
    let gap = Piece::Words(" ");
    match dropped.why {
        Why::Unfinished => {
            put_line(
                writer,
                &[front, thread, gap, section, Piece::Words(" unfinished")],
            )
        }
        Why::After {
            lane,
            section: other,
        } => put_line(
            writer,
            &[
                front,
                thread,
                gap,
                section,
                Piece::Words(" after t"),
                Piece::Number(thread_number(lane)),
                gap,
                Piece::Number(other),
            ],
        ),
        Why::Unsettled => {
            put_line(
                writer,
                &[front, thread, gap, section, Piece::Words(" unsettled")],
            )
        }
    }
}

/// The number of the lane's thread: threads are numbered from 1.
pub(crate) fn thread_number(lane: Lane) -> u64
    ensures { result ≡ lane.0 + 1 }
{
    u64::from(lane.0) + 1
}
