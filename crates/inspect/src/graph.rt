//! The sections of a study as a graph, in Graphviz's DOT language.
ghost use Rattle.std.specs.Prelude.{◌≡◌, ◌<◌, IfErr, length};
ghost use Rattle.inspect.specs.Written.{Shows, Writes};
ghost use Rattle.recover.specs.Fits.{FitsNumbers};
ghost use Rattle.inspect.specs.Links.{Tells, releases_of};
ghost use Rattle.inspect.specs.Sections.{numbering_of};
ghost use Rattle.inspect.specs.WholeGraph.{picture_text, graph_head, column_head, whole_head, cut_head, column_edge, left_out_of};
ghost use Rattle.inspect.specs.Pictured.{drawn_graph, drawn_columns, drawn_column, names_of};
ghost use Rattle.inspect.specs.declared.error.ShowError.TheVariants as kinds;

use crate::error::{ShowError, WriteError};
use crate::form::Form;
use crate::numbering::lane_numbering;
use crate::picture::{Picture, bounds, first_drawn};
use crate::pieces::{Piece, put_line};
use crate::releases::{Releases, releases_in};
use crate::report_lines::thread_number;
use crate::study_lines::{put_all_links, put_lane_sections};
use guards::Schema;
use heap_model::Lane;
use recover::Study;
use std::alloc::Global;
use std::io::Write;

/// Writes live sections of a study and their dependences as a graph in Graphviz's DOT language, which `dot` draws, with a legend.
///
/// - Each lane is a column, by number, with its thread as heading. The heading says how many of the lane's sections are left out.
/// - A node in it stands for each section that is drawn, from the top. It is filled where the section is acknowledged, and has the
///   reason and a colour where the section is dropped. A dotted arrow leads to the lane's section before it.
/// - An arrow stands for each dependence on a section of another lane. It has the object that was taken, by the name that this
///   schema has for it, and goes from a section to what it depends on.
///
/// The section that a lane is in is drawn, and the last so many of the lane that have ended.
///
/// `NoMemory` comes first, where there are live releases and no room for their table: nothing is written then. After
/// `Write` a beginning of the text is written.
pub fn write_graph<W: Write>(
    alloc: Global,
    study: &Study,
    names: Option<&Schema>,
    last: u32,
    writer: &mut W,
) -> Result<(), ShowError>
    requires { FitsNumbers study.now }
    // A graph has of each lane the open section and the last so many that have ended, and says how many before these it
    // leaves out. Each dropped section has its reason, and each dependence between drawn sections an arrow.
    ensures text { Shows W.contents writer.old writer.new (picture_text (names_of names.entry) last study.now) result }
    // Memory is wanted only where there are live releases to note.
    ensures needed { IfErr result (λ e. e ≡ kinds.NoMemory → 0 < length (releases_of study.now)) }
{
    let Ok(releases) = releases_in(alloc, study) else {
        return Err(ShowError::NoMemory);
    };
    match put_picture(writer, study, names, last, &releases) {
        Ok(()) => Ok(()),
        Err(WriteError) => Err(ShowError::Write),
    }
}

fn put_picture<W: Write>(
    writer: &mut W,
    study: &Study,
    names: Option<&Schema>,
    last: u32,
    releases: &Releases,
) -> Result<(), WriteError>
    requires numbers { FitsNumbers study.now }
    requires releases { Tells releases.now (releases_of study.now) }
    ensures { Writes W.contents writer.old writer.new (picture_text (names_of names.entry) last study.now) result }
{
    let firsts = bounds(study, last);
    let picture = Picture {
        firsts: &firsts[..usize::from(study.layout.lanes)],
        dropped: &study.report.dropped,
        names,
    };
    put_graph(writer, picture, study, releases)
}

fn put_graph<W: Write>(
    writer: &mut W,
    picture: Picture<'_>,
    study: &Study,
    releases: &Releases,
) -> Result<(), WriteError>
    requires numbers { FitsNumbers study.now }
    requires releases { Tells releases.now (releases_of study.now) }
    ensures { Writes W.contents writer.old writer.new (drawn_graph picture.entry study.now) result }
{
    put_head(writer)?;
    put_columns(writer, picture, study)?;
    put_all_links(writer, Form::Graph(picture), study, releases)?;
    put_line(writer, &[Piece::Words("}")])
}

// Writes the beginning of the graph, with the legend.
fn put_head<W: Write>(writer: &mut W) -> Result<(), WriteError>
    ensures { Writes W.contents writer.old writer.new graph_head result }
{
    put_line(
        writer,
        &[
            Piece::Words(
                "digraph sections {\nrankdir=LR\nlabelloc=b\nlabeljust=l\nlabel=\"grey: acknowledged, and kept\\l",
            ),
            Piece::Words(
                "dropped by recovery: pink, it has not ended; orange, it depends on one that is dropped; yellow, it was not settled\\l",
            ),
            Piece::Words(
                "dotted: depends on the thread's section before it\\lplain: depends on the section that freed what it took; number N: by the object's Nth release since the heap was opened\\l\"",
            ),
        ],
    )
}

fn put_columns<W: Write>(
    writer: &mut W,
    picture: Picture<'_>,
    study: &Study,
) -> Result<(), WriteError>
    requires { FitsNumbers study.now }
    ensures { Writes W.contents writer.old writer.new (drawn_columns picture.entry study.now) result }
{
    for lane in 0..study.layout.lanes {
        put_column(writer, picture, study, Lane(lane))?;
    }
    Ok(())
}

fn put_column<W: Write>(
    writer: &mut W,
    picture: Picture<'_>,
    study: &Study,
    lane: Lane,
) -> Result<(), WriteError>
    requires lane { lane.0 < study.now.layout.lanes }
    requires numbers { FitsNumbers study.now }
    ensures { Writes W.contents writer.old writer.new (drawn_column picture.entry study.now lane.0) result }
{
    put_column_head(writer, lane, left_out(picture.firsts, study, lane))?;
    put_lane_sections(writer, Form::Graph(picture), study, lane)?;
    put_line(writer, &[Piece::Words("}")])?;
    put_column_edge(writer, lane)
}

// How many of the lane's first live sections are left out.
fn left_out(firsts: &[u64], study: &Study, lane: Lane) -> u64
    requires lane { lane.0 < study.now.layout.lanes }
    requires numbers { FitsNumbers study.now }
    ensures { result ≡ left_out_of firsts.now study.now lane.0 }
{
    first_drawn(firsts, lane).saturating_sub(lane_numbering(study, lane).first)
}

fn put_column_head<W: Write>(writer: &mut W, lane: Lane, left_out: u64) -> Result<(), WriteError>
    ensures { Writes W.contents writer.old writer.new (column_head lane.0 left_out) result }
{
    if left_out == 0 {
        put_whole_head(writer, lane)
    } else {
        put_cut_head(writer, lane, left_out)
    }
}

fn put_whole_head<W: Write>(writer: &mut W, lane: Lane) -> Result<(), WriteError>
    ensures { Writes W.contents writer.old writer.new (whole_head lane.0) result }
{
    let thread = thread_number(lane);
    put_line(
        writer,
        &[
            Piece::Words("subgraph t"),
            Piece::Number(thread),
            Piece::Words(" {\nrank=same\n\"t"),
            Piece::Number(thread),
            Piece::Words("\" [shape=plaintext]"),
        ],
    )
}

fn put_cut_head<W: Write>(writer: &mut W, lane: Lane, left_out: u64) -> Result<(), WriteError>
    ensures { Writes W.contents writer.old writer.new (cut_head lane.0 left_out) result }
{
    let thread = thread_number(lane);
    put_line(
        writer,
        &[
            Piece::Words("subgraph t"),
            Piece::Number(thread),
            Piece::Words(" {\nrank=same\n\"t"),
            Piece::Number(thread),
            Piece::Words("\" [shape=plaintext, label=\"t"),
            Piece::Number(thread),
            Piece::Words("\\nleft out here: "),
            Piece::Number(left_out),
            Piece::Words(" before these\"]"),
        ],
    )
}

// The columns stand in the order of the lanes.
fn put_column_edge<W: Write>(writer: &mut W, lane: Lane) -> Result<(), WriteError>
    ensures { Writes W.contents writer.old writer.new (column_edge lane.0) result }
{
    if lane.0 == 0 {
        return Ok(());
    }
    put_line(
        writer,
        &[
            Piece::Words("\"t"),
            Piece::Number(u64::from(lane.0)),
            Piece::Words("\" -> \"t"),
            Piece::Number(thread_number(lane)),
            Piece::Words("\" [style=invis]"),
        ],
    )
}
