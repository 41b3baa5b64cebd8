//! The nodes and edges of a graph of sections, in Graphviz's DOT language.
ghost use Rattle.std.specs.Prelude.{◌≡◌, ◌<◌, ◌≤◌, ◌↔◌, IsTrue, option_map};
ghost use Rattle.inspect.specs.Written.{Writes};
ghost use Rattle.inspect.specs.Pictured.{drawn_node, drawn_edge, node_by, names_of};
ghost use Rattle.inspect.specs.GraphText.{node_line, node_front, node_end, plain_end, order_edge, heading_edge, before_edge, whole_edge, edge_front, edge_end, object_text, name_in};

use crate::error::WriteError;
use crate::numbering::Numbering;
use crate::picture::{Picture, first_drawn, is_drawn};
use crate::pieces::{Piece, put_line, put_pieces};
use crate::reasons::{put_reason, reason_of};
use crate::report_lines::thread_number;
use crate::section::{Link, Section};
use crate::section_lines::state;
use guards::Schema;
use heap_model::ObjectId;
use recover::Why;
use std::io::Write;

/// Writes the node of a section that is drawn, with the reason where it is dropped, and the edge that puts it below the lane's section before it, or below the heading.
pub(crate) fn put_node<W: Write>(
    writer: &mut W,
    picture: Picture<'_>,
    numbering: Numbering,
    section: Section,
) -> Result<(), WriteError>
    ensures { Writes W.contents writer.old writer.new (drawn_node picture.entry numbering section) result }
{
    if is_drawn(picture.firsts, section.id) {
        put_whole_node(writer, picture, numbering, section)
    } else {
        Ok(())
    }
}

fn put_whole_node<W: Write>(
    writer: &mut W,
    picture: Picture<'_>,
    numbering: Numbering,
    section: Section,
) -> Result<(), WriteError>
    ensures { Writes W.contents writer.old writer.new (node_by picture.entry numbering section) result }
{
    let why = reason_of(picture.dropped, section.id);
    put_node_line(writer, numbering, why, section)?;
    put_order_edge(writer, picture.firsts, section)
}

fn put_node_line<W: Write>(
    writer: &mut W,
    numbering: Numbering,
    why: Option<Why>,
    section: Section,
) -> Result<(), WriteError>
    ensures { Writes W.contents writer.old writer.new (node_line numbering why section) result }
{
    put_node_front(writer, section)?;
    put_node_end(writer, why, section.id.number <= numbering.kept)
}

fn put_node_front<W: Write>(writer: &mut W, section: Section) -> Result<(), WriteError>
    ensures { Writes W.contents writer.old writer.new (node_front section) result }
{
    let thread = thread_number(section.id.lane);
    put_pieces(
        writer,
        &[
            Piece::Words("\"t"),
            Piece::Number(thread),
            Piece::Words("."),
            Piece::Number(section.id.number),
            Piece::Words("\" [label=\"t"),
            Piece::Number(thread),
            Piece::Words(" "),
            Piece::Number(section.id.number),
            Piece::Words("\\n"),
            Piece::Words(state(section.is_whole)),
            Piece::Words(", "),
            Piece::Number(section.records),
            Piece::Words(" records"),
        ],
    )
}

// Ends a node by why its section is dropped, or else by whether it is acknowledged.
fn put_node_end<W: Write>(writer: &mut W, why: Option<Why>, is_kept: bool) -> Result<(), WriteError>
    ensures { Writes W.contents writer.old writer.new (node_end why is_kept) result }
{
    match why {
        Some(why) => put_reason(writer, why),
        None => put_line(writer, &[Piece::Words(plain_end(is_kept))]),
    }
}

// How the node of a section that isn't dropped ends.
fn plain_end(is_kept: bool) -> &'static str
    ensures { result.now ≡ plain_end is_kept }
{
    if is_kept { "\", style=filled]" } else { "\"]" }
}

// Sections of a lane stand in its column by number.
fn put_order_edge<W: Write>(
    writer: &mut W,
    firsts: &[u64],
    section: Section,
) -> Result<(), WriteError>
    ensures { Writes W.contents writer.old writer.new (order_edge firsts.now section) result }
{
    if section.id.number <= first_drawn(firsts, section.id.lane) {
        put_heading_edge(writer, section)
    } else {
        put_before_edge(writer, section)
    }
}

fn put_heading_edge<W: Write>(writer: &mut W, section: Section) -> Result<(), WriteError>
    ensures { Writes W.contents writer.old writer.new (heading_edge section) result }
{
    let thread = thread_number(section.id.lane);
    put_line(
        writer,
        &[
            Piece::Words("\"t"),
            Piece::Number(thread),
            Piece::Words("\" -> \"t"),
            Piece::Number(thread),
            Piece::Words("."),
            Piece::Number(section.id.number),
            Piece::Words("\" [style=invis]"),
        ],
    )
}

fn put_before_edge<W: Write>(writer: &mut W, section: Section) -> Result<(), WriteError>
    requires { 0 < section.id.number }
    ensures { Writes W.contents writer.old writer.new (before_edge section) result }
{
    let thread = thread_number(section.id.lane);
    put_line(
        writer,
        &[
            Piece::Words("\"t"),
            Piece::Number(thread),
            Piece::Words("."),
            Piece::Number(section.id.number - 1),
            Piece::Words("\" -> \"t"),
            Piece::Number(thread),
            Piece::Words("."),
            Piece::Number(section.id.number),
            Piece::Words("\" [style=dotted, dir=back]"),
        ],
    )
}

/// Writes the edge of a dependence of a section that is drawn on another one.
pub(crate) fn put_edge<W: Write>(
    writer: &mut W,
    picture: Picture<'_>,
    link: Link,
) -> Result<(), WriteError>
    ensures { Writes W.contents writer.old writer.new (drawn_edge picture.entry link) result }
{
    if is_drawn(picture.firsts, link.taker) && is_drawn(picture.firsts, link.releaser) {
        put_whole_edge(writer, picture.names, link)
    } else {
        Ok(())
    }
}

fn put_whole_edge<W: Write>(
    writer: &mut W,
    names: Option<&Schema>,
    link: Link,
) -> Result<(), WriteError>
    ensures { Writes W.contents writer.old writer.new (whole_edge (names_of names.entry) link) result }
{
    put_edge_front(writer, link)?;
    put_object(writer, names, link.object)?;
    put_edge_end(writer, link)
}

fn put_edge_front<W: Write>(writer: &mut W, link: Link) -> Result<(), WriteError>
    ensures { Writes W.contents writer.old writer.new (edge_front link) result }
{
    let taker = thread_number(link.taker.lane);
    let releaser = thread_number(link.releaser.lane);
    put_pieces(
        writer,
        &[
            Piece::Words("\"t"),
            Piece::Number(taker),
            Piece::Words("."),
            Piece::Number(link.taker.number),
            Piece::Words("\" -> \"t"),
            Piece::Number(releaser),
            Piece::Words("."),
            Piece::Number(link.releaser.number),
            Piece::Words("\" [label=\""),
        ],
    )
}

// Writes an object by its name where there is one, and else by its number.
fn put_object<W: Write>(
    writer: &mut W,
    names: Option<&Schema>,
    object: ObjectId,
) -> Result<(), WriteError>
    ensures { Writes W.contents writer.old writer.new (object_text (names_of names.entry) object.0) result }
{
    match name_of(names, object) {
        Some(name) => put_pieces(writer, &[Piece::Words(name)]),
        None => put_pieces(
            writer,
            &[Piece::Words("object "), Piece::Number(u64::from(object.0))],
        ),
    }
}

// The name that the schema has for the object, where there is a schema, and it has the object.
fn name_of<'a>(names: Option<&'a Schema>, object: ObjectId) -> Option<&'a str>
    ensures { option_map (λ x. x.now) result ≡ name_in (names_of names.entry) object.0 }
{
    let schema = names?;
    if object.0 < schema.objects() {
        Some(schema.object_name(object))
    } else {
        None
    }
}

fn put_edge_end<W: Write>(writer: &mut W, link: Link) -> Result<(), WriteError>
    ensures { Writes W.contents writer.old writer.new (edge_end link) result }
{
    put_line(
        writer,
        &[
            Piece::Words(" number "),
            Piece::Number(link.number),
            Piece::Words("\", constraint=false]"),
        ],
    )
}
