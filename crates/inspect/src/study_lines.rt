//! The lines of a study (docs/SCRIPTS.md, "The inspector's lines").
ghost use Rattle.std.specs.Prelude.{◌≡◌, ◌+◌, ◌<◌, ◌^◌, IfErr, length};
ghost use Rattle.image_parts.specs.Layout.{IsLayout};
ghost use Rattle.inspect.specs.Written.{Shows, Writes};
ghost use Rattle.recover.specs.Fits.{FitsNumbers};
ghost use Rattle.inspect.specs.StudyText.{study_text, head_text, image_line, control_line, slot_text, lane_lines, lane_line, sections_text, lane_sections, links_text, end_text};
ghost use Rattle.inspect.specs.SectionText.{section_text, link_text};
ghost use Rattle.inspect.specs.Links.{finds, releases_of, Tells};
ghost use Rattle.inspect.specs.declared.error.ShowError.TheVariants as kinds;
ghost use Rattle.inspect.specs.declared.form.Form.TheVariants.{Lines};

use crate::error::{ShowError, WriteError};
use crate::form::Form;
use crate::lanes::records_in;
use crate::links::put_links;
use crate::numbering::lane_numbering;
use crate::pieces::{Piece, put_line, put_list};
use crate::releases::{Releases, releases_in};
use crate::report_lines::{first_counts, thread_number};
use crate::sections::put_sections;
use crate::transient_line::put_transients;
use heap_model::Lane;
use image::{Control, LaneRow, Layout, Slot};
use recover::Study;
use std::alloc::Global;
use std::io::Write;

/// Writes what an image holds: the image, its control, its transient fields, each lane, each live section, each dependence of a live section on
/// one of another lane, the acknowledged cut, and the heap that the image stands for.
///
/// `NoMemory` comes first, where there are live releases and no room for their table: nothing is written then. After
/// `Write` a beginning of the lines is written. The time is that of a sort of the live releases.
pub fn write_study<W: Write>(alloc: Global, study: &Study, writer: &mut W) -> Result<(), ShowError>
    requires limits { IsLayout study.now.layout }
    requires numbers { FitsNumbers study.now }
    // The lines of a study are the documented text, with a line of the transient fields where there are any.
    ensures text { Shows W.contents writer.old writer.new (study_text study.now) result }
    // Memory is wanted only where there are live releases to note.
    ensures needed { IfErr result (λ e. e ≡ kinds.NoMemory → 0 < length (releases_of study.now)) }
{
    let Ok(releases) = releases_in(alloc, study) else {
        return Err(ShowError::NoMemory);
    };
    match put_study(writer, study, &releases) {
        Ok(()) => Ok(()),
        Err(WriteError) => Err(ShowError::Write),
    }
}

fn put_study<W: Write>(writer: &mut W, study: &Study, releases: &Releases) -> Result<(), WriteError>
    requires limits { IsLayout study.now.layout }
    requires numbers { FitsNumbers study.now }
    requires releases { Tells releases.now (releases_of study.now) }
    ensures { Writes W.contents writer.old writer.new (study_text study.now) result }
{
    put_head(writer, study)?;
    put_all_sections(writer, study)?;
    put_all_links(writer, Form::Lines, study, releases)?;
    put_end(writer, study)
}

// Writes the lines of the image, the control, the transient fields and the lanes.
fn put_head<W: Write>(writer: &mut W, study: &Study) -> Result<(), WriteError>
    requires limits { IsLayout study.now.layout }
    ensures { Writes W.contents writer.old writer.new (head_text study.now) result }
{
    put_image(writer, &study.layout)?;
    put_control(writer, study.slot, &study.control)?;
    put_transients(writer, &study.guards)?;
    put_lanes(writer, &study.layout, &study.control)
}

fn put_image<W: Write>(writer: &mut W, layout: &Layout) -> Result<(), WriteError>
    requires limits { IsLayout layout.now }
    ensures { Writes W.contents writer.old writer.new (image_line layout.now) result }
{
    put_line(
        writer,
        &[
            Piece::Words("image lanes "),
            Piece::Number(u64::from(layout.lanes)),
            Piece::Words(" capacity "),
            Piece::Number(u64::from(layout.capacity)),
            Piece::Words(" objects "),
            Piece::Number(u64::from(layout.objects)),
            Piece::Words(" fields "),
            Piece::Number(u64::from(layout.fields)),
            Piece::Words(" size "),
            Piece::Number(layout.size()),
        ],
    )
}

fn put_control<W: Write>(writer: &mut W, slot: Slot, control: &Control) -> Result<(), WriteError>
    ensures { Writes W.contents writer.old writer.new (control_line slot control.now) result }
{
    put_line(
        writer,
        &[
            Piece::Words("control "),
            Piece::Words(slot_name(slot)),
            Piece::Words(" sequence "),
            Piece::Number(control.sequence),
            Piece::Words(" version "),
            Piece::Number(u64::from(control.version)),
        ],
    )
}

fn slot_name(slot: Slot) -> &'static str
    ensures { result.now ≡ slot_text slot }
{
    match slot {
        Slot::A => "a",
        Slot::B => "b",
    }
}

fn put_lanes<W: Write>(writer: &mut W, layout: &Layout, control: &Control) -> Result<(), WriteError>
    requires limits { IsLayout layout.now }
    ensures { Writes W.contents writer.old writer.new (lane_lines layout.now.lanes control.now.rows) result }
{
    for lane in 0..layout.lanes {
        put_lane(writer, Lane(lane), &control.rows[usize::from(lane)])?;
    }
    Ok(())
}

fn put_lane<W: Write>(writer: &mut W, lane: Lane, row: &LaneRow) -> Result<(), WriteError>
    ensures { Writes W.contents writer.old writer.new (lane_line lane.0 row.now) result }
{
    put_line(
        writer,
        &[
            Piece::Words("lane t"),
            Piece::Number(thread_number(lane)),
            Piece::Words(" start "),
            Piece::Number(row.start),
            Piece::Words(" settled "),
            Piece::Number(row.settled),
            Piece::Words(" logged "),
            Piece::Number(row.logged),
            Piece::Words(" kept "),
            Piece::Number(row.kept),
        ],
    )
}

// Writes the live sections of all lanes, by lane and number.
fn put_all_sections<W: Write>(writer: &mut W, study: &Study) -> Result<(), WriteError>
    requires { FitsNumbers study.now }
    ensures { Writes W.contents writer.old writer.new (sections_text study.now) result }
{
    for lane in 0..study.layout.lanes {
        put_lane_sections(writer, Form::Lines, study, Lane(lane))?;
    }
    Ok(())
}

/// Writes the live sections of one of the study's lanes, by number.
pub(crate) fn put_lane_sections<W: Write>(
    writer: &mut W,
    form: Form<'_>,
    study: &Study,
    lane: Lane,
) -> Result<(), WriteError>
    requires lane { lane.0 < study.now.layout.lanes }
    requires numbers { FitsNumbers study.now }
    ensures { Writes W.contents writer.old writer.new (lane_sections (section_text form.entry) study.now lane.0) result }
{
    let numbering = lane_numbering(study, lane);
    put_sections(writer, form, numbering, records_in(&study.records, lane))
}

/// Writes the dependences of the live sections of all lanes on those of others, by section and place.
pub(crate) fn put_all_links<W: Write>(
    writer: &mut W,
    form: Form<'_>,
    study: &Study,
    releases: &Releases,
) -> Result<(), WriteError>
    requires numbers { FitsNumbers study.now }
    requires releases { Tells releases.now (releases_of study.now) }
    ensures { Writes W.contents writer.old writer.new (links_text (link_text form.entry) study.now) result }
{
    for lane in 0..study.layout.lanes {
        let numbering = lane_numbering(study, Lane(lane));
        put_links(
            writer,
            form,
            releases,
            numbering,
            records_in(&study.records, Lane(lane)),
        )?;
    }
    Ok(())
}

// Writes the cut and the heap.
fn put_end<W: Write>(writer: &mut W, study: &Study) -> Result<(), WriteError>
    ensures { Writes W.contents writer.old writer.new (end_text study.now) result }
{
    put_list(
        writer,
        "cut",
        first_counts(&study.report.kept.counts, study.layout.lanes),
    )?;
    put_list(writer, "heap", &study.heap)
}
