//! What sections take from those of other lanes, written one by one.
ghost use Rattle.std.specs.Prelude.{◌≡◌, ◌+◌, ◌<◌, ◌^◌, length, reverse};
ghost use Rattle.inspect.specs.Written.{Writes};
ghost use Rattle.inspect.specs.Links.{finds, link_from, one_or_none, taken_in};
ghost use Rattle.inspect.specs.SectionText.{link_text, taken_text, taking_text};

use crate::error::WriteError;
use crate::form::Form;
use crate::graph_lines::put_edge;
use crate::numbering::Numbering;
use crate::releases::{Releases, releaser};
use crate::section::{Link, SectionId};
use crate::section_lines::put_link_line;
use heap_model::{ObjectId, UndoRecord};
use recover_logs::LaneCount;
use std::io::Write;

/// Writes a dependence for each acquire of the lane of what a section of another lane released, by place. The lane's live
/// records have the oldest first.
pub(crate) fn put_links<W: Write>(
    writer: &mut W,
    form: Form<'_>,
    releases: &Releases,
    numbering: Numbering,
    records: &[UndoRecord],
) -> Result<(), WriteError>
    requires { numbering.first + length records.now < 2 ^ 64 }
    ensures { Writes W.contents writer.old writer.new (taken_text form.entry (finds releases.now) numbering records.now) result }
{
    let mut gone = LaneCount::new();
    for entry in records {
        put_taken(
            writer,
            form,
            releases,
            numbering.section(gone.ended),
            *entry,
        )?;
        gone = gone.after(*entry);
    }
    Ok(())
}

// Writes the dependence of the section by the record, if there is one.
fn put_taken<W: Write>(
    writer: &mut W,
    form: Form<'_>,
    releases: &Releases,
    taker: SectionId,
    entry: UndoRecord,
) -> Result<(), WriteError>
    ensures { Writes W.contents writer.old writer.new (taking_text form.entry (finds releases.now) taker entry) result }
{
    match link_by(releases, taker, entry) {
        Some(link) => put_link(writer, form, link),
        None => Ok(()),
    }
}

// What the section takes from one of another lane by the record.
fn link_by(releases: &Releases, taker: SectionId, entry: UndoRecord) -> Option<Link>
    ensures { one_or_none result ≡ link_from (finds releases.now) taker entry }
{
    let UndoRecord::Acq { object, number } = entry else {
        return None;
    };
    let releaser = taken_from(releases, taker, object, number)?;
    Some(Link {
        taker,
        releaser,
        object,
        number,
    })
}

// The section of another lane that released what the section acquires at this number.
fn taken_from(
    releases: &Releases,
    taker: SectionId,
    object: ObjectId,
    number: u64,
) -> Option<SectionId>
    ensures { result ≡ taken_in (finds releases.now) taker object.0 number }
{
    if number == 0 {
        return None;
    }
    let from = releaser(releases, object, number - 1)?;
    if from.lane == taker.lane {
        None
    } else {
        Some(from)
    }
}

fn put_link<W: Write>(writer: &mut W, form: Form<'_>, link: Link) -> Result<(), WriteError>
    ensures { Writes W.contents writer.old writer.new (link_text form.entry link) result }
{
    match form {
        Form::Lines => put_link_line(writer, link),
        Form::Graph(picture) => put_edge(writer, picture, link),
    }
}
