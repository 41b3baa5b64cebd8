//! The live sections of a lane, written one by one.
ghost use Rattle.std.specs.Prelude.{◌≡◌, ◌+◌, ◌<◌, ◌^◌, IfOk, length, reverse};
ghost use Rattle.inspect.specs.Written.{Writes};
ghost use Rattle.recover_logs.specs.Lanes.{count_of};
ghost use Rattle.inspect.specs.SectionText.{section_text, live_text, whole_text, ended_text, unfinished_text};

use crate::error::WriteError;
use crate::form::Form;
use crate::graph_lines::put_node;
use crate::numbering::Numbering;
use crate::section::Section;
use crate::section_lines::put_section_line;
use heap_model::UndoRecord;
use recover_logs::LaneCount;
use std::io::Write;

/// Writes each live section of the lane, by number. The lane's live records have the oldest first.
pub(crate) fn put_sections<W: Write>(
    writer: &mut W,
    form: Form<'_>,
    numbering: Numbering,
    records: &[UndoRecord],
) -> Result<(), WriteError>
    requires { numbering.first + length records.now < 2 ^ 64 }
    ensures { Writes W.contents writer.old writer.new (live_text form.entry numbering records.now) result }
{
    let gone = put_whole_sections(writer, form, numbering, records)?;
    put_unfinished(writer, form, numbering, gone)
}

fn put_whole_sections<W: Write>(
    writer: &mut W,
    form: Form<'_>,
    numbering: Numbering,
    records: &[UndoRecord],
) -> Result<LaneCount, WriteError>
    requires { numbering.first + length records.now < 2 ^ 64 }
    ensures written { Writes W.contents writer.old writer.new (whole_text form.entry numbering records.now) result }
    ensures count { IfOk result (λ gone. gone ≡ count_of (reverse records.now)) }
{
    let mut gone = LaneCount::new();
    for entry in records {
        put_ended(writer, form, numbering, gone, *entry)?;
        gone = gone.after(*entry);
    }
    Ok(gone)
}

// Writes the section that the record ends, if it ends one.
fn put_ended<W: Write>(
    writer: &mut W,
    form: Form<'_>,
    numbering: Numbering,
    gone: LaneCount,
    entry: UndoRecord,
) -> Result<(), WriteError>
    requires number { numbering.first + gone.ended < 2 ^ 64 }
    requires records { gone.since + 1 < 2 ^ 64 }
    ensures { Writes W.contents writer.old writer.new (ended_text form.entry numbering gone entry) result }
{
    if !gone.ends(entry) {
        return Ok(());
    }
    let section = Section {
        id: numbering.section(gone.ended),
        is_whole: true,
        records: gone.since + 1,
    };
    put_section(writer, form, numbering, section)
}

// Writes the section that the lane is in, if it is in one.
fn put_unfinished<W: Write>(
    writer: &mut W,
    form: Form<'_>,
    numbering: Numbering,
    gone: LaneCount,
) -> Result<(), WriteError>
    requires number { numbering.first + gone.ended < 2 ^ 64 }
    ensures { Writes W.contents writer.old writer.new (unfinished_text form.entry numbering gone) result }
{
    if gone.since == 0 {
        return Ok(());
    }
    let section = Section {
        id: numbering.section(gone.ended),
        is_whole: false,
        records: gone.since,
    };
    put_section(writer, form, numbering, section)
}

fn put_section<W: Write>(
    writer: &mut W,
    form: Form<'_>,
    numbering: Numbering,
    section: Section,
) -> Result<(), WriteError>
    ensures { Writes W.contents writer.old writer.new (section_text form.entry numbering section) result }
{
    match form {
        Form::Lines => put_section_line(writer, section),
        Form::Graph(picture) => put_node(writer, picture, numbering, section),
    }
}
