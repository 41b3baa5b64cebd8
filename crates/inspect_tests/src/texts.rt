//! Texts of hand-made studies, by the rules of docs/SCRIPTS.md and, for graphs, of `write_graph`.
ghost use Rattle.std.specs.Prelude.{◌≡◌, ◌<◌, IfOk, length};
ghost use Rattle.image_parts.specs.Layout.{IsLayout};
ghost use Rattle.recover_heap.specs.Logs.{records_of};
ghost use Rattle.recover.specs.Fits.{FitsNumbers};

mod images;

use block_disk::MemDisk;
use durable::Store;
use guards::{Schema, SchemaBuilder};
use heap_model::{Cut, FieldId, Lane, ObjectId, UndoRecord};
use image::{Control, GuardRow, LaneRow, Layout, Recovered, Slot};
use inspect::{WriteError, write_graph, write_report, write_study};
use recover::{Dropped, Report, Study, Why};
use std::alloc::{AllocError, Global};
use std::io;
use std::io::Write;

// Takes two bytes a call at most; the call of this number, counted from 1, fails.
#[derive(Drop)]
struct Sink {
    taken: Vec<u8>,
    calls: u64,
    fault: u64,
}

impl Write for Sink {
    fn write(&mut self, buf: &[u8]) -> io::Result<usize> {
        self.calls = self.calls.saturating_add(1);
        if self.calls == self.fault {
            return Err(io::Error::from(io::ErrorKind::Interrupted));
        }
        let count = buf.len().min(2);
        self.taken.extend_from_slice(&buf[..count])?;
        Ok(count)
    }

    fn flush(&mut self) -> io::Result<()> {
        Ok(())
    }
}

fn writer_failing(alloc: Global, fault: u64) -> Sink {
    Sink {
        taken: Vec::new(alloc),
        calls: 0,
        fault,
    }
}

fn row(settled: u64, logged: u64, kept: u64) -> LaneRow
    ensures { result.kept ≡ kept }
{
    LaneRow {
        start: 0,
        settled,
        logged,
        kept,
    }
}

fn acq(object: u32, number: u64) -> UndoRecord {
    UndoRecord::Acq {
        object: ObjectId(object),
        number,
    }
}

fn rel(object: u32, number: u64) -> UndoRecord {
    UndoRecord::Rel {
        object: ObjectId(object),
        number,
    }
}

fn store(before: u64) -> UndoRecord {
    UndoRecord::Put {
        field: FieldId(0),
        before,
    }
}

// The lanes' records, one lane after the other.
fn both(
    alloc: Global,
    first: &[UndoRecord],
    second: &[UndoRecord],
) -> Result<Vec<Vec<UndoRecord>>, AllocError>
    ensures first { IfOk result (λ logs. records_of logs.items 0 ≡ first.now) }
    ensures second { IfOk result (λ logs. records_of logs.items 1 ≡ second.now) }
{
    let mut logs = Vec::new(alloc);
    logs.push(Vec::from_slice(alloc, first)?)?;
    logs.push(Vec::from_slice(alloc, second)?)?;
    Ok(logs)
}

// The row of a field of this object, which guards it.
fn guard_row(object: u32, first: u64, transient: bool) -> GuardRow {
    GuardRow {
        guard: ObjectId(object),
        owner: ObjectId(object),
        first,
        transient,
    }
}

// The study of an image of two lanes, whose second field is transient.
fn study_of(
    alloc: Global,
    rows: (LaneRow, LaneRow),
    first: &[UndoRecord],
    second: &[UndoRecord],
    report: Report,
) -> Result<Study, AllocError>
    requires first_row { rows.0.kept < 100 }
    requires second_row { rows.1.kept < 100 }
    requires first { length first.now < 100 }
    requires second { length second.now < 100 }
    ensures limits { IfOk result (λ s. IsLayout s.layout) }
    ensures numbers { IfOk result FitsNumbers }
{
    let mut control = Control {
        sequence: 3,
        version: 2,
        rows: [LaneRow::EMPTY; 32],
    };
    control.rows[0] = rows.0;
    control.rows[1] = rows.1;
    Ok(Study {
        layout: Layout {
            objects: 4,
            fields: 2,
            lanes: 2,
            capacity: 4000,
        },
        slot: Slot::A,
        control,
        guards: Vec::from_slice(alloc, &[guard_row(0, 10, false), guard_row(1, 20, true)])?,
        records: both(alloc, first, second)?,
        heap: Vec::from_slice(alloc, &[10, 20])?,
        report,
    })
}

// Thread 1 still holds o1 when it frees o0, which thread 2 then takes.
fn unfinished(alloc: Global) -> Result<Report, AllocError> {
    let dropped = [
        Dropped {
            lane: Lane(0),
            section: 1,
            why: Why::Unfinished,
        },
        Dropped {
            lane: Lane(1),
            section: 1,
            why: Why::After {
                lane: Lane(0),
                section: 1,
            },
        },
    ];
    Ok(Report {
        kept: Cut { counts: [0; 32] },
        dropped: Vec::from_slice(alloc, &dropped)?,
        undone: 1,
    })
}

// Of thread 1's live sections one is settled, the third; thread 2's second has taken what the fourth freed.
fn settled(alloc: Global) -> Result<Study, AllocError>
    ensures limits { IfOk result (λ s. IsLayout s.layout) }
    ensures numbers { IfOk result FitsNumbers }
{
    let mut counts = [0; 32];
    counts[0] = 3;
    counts[1] = 1;
    let dropped = [
        Dropped {
            lane: Lane(0),
            section: 4,
            why: Why::Unsettled,
        },
        Dropped {
            lane: Lane(1),
            section: 2,
            why: Why::Unfinished,
        },
    ];
    let report = Report {
        kept: Cut { counts },
        dropped: Vec::from_slice(alloc, &dropped)?,
        undone: 1,
    };
    study_of(
        alloc,
        (row(3, 5, 3), row(0, 2, 1)),
        &[acq(0, 4), store(10), rel(0, 4), acq(0, 5), rel(0, 5)],
        &[acq(0, 6), store(10)],
        report,
    )
}

// What is answered to writing the report where the call of this number fails, and whether these lines are written.
fn report_written(
    alloc: Global,
    report: &Report,
    fault: u64,
    lines: &[u8],
) -> (Result<(), WriteError>, bool) {
    let mut out = writer_failing(alloc, fault);
    let answer = write_report(report, &[10, 20], 2, &mut out);
    let are_written = out.taken.as_slice() == lines;
    drop(out);
    (answer, are_written)
}

// Whether the whole report is written so; and whether it is refused where the ninth call fails, with what is written before
// it.
fn told_of_report(alloc: Global, lines: &[u8]) -> Option<[bool; 3]> {
    let report = unfinished(alloc).ok()?;
    let (whole, is_whole) = report_written(alloc, &report, 0, lines);
    let (refused, is_begun) = report_written(alloc, &report, 9, b"kept 0 0\ndr");
    drop(report);
    whole.ok()?;
    Some([is_whole, refused == Err(WriteError), is_begun])
}

#[test]
fn a_report_is_written(rt: HostRuntime) {
    let lines = b"kept 0 0
dropped t1 1 unfinished
dropped t2 1 after t1 1
undone 1
heap 10 20
";
    assert!(rt; told_of_report(rt.alloc(), lines) == Some([true; 3]));
}

// Whether the study is written so.
fn is_written(alloc: Global, lines: &[u8]) -> Option<bool> {
    let study = settled(alloc).ok()?;
    let mut out = writer_failing(alloc, 0);
    let written = write_study(alloc, &study, &mut out);
    drop(study);
    let is_so = out.taken.as_slice() == lines;
    drop(out);
    written.ok()?;
    Some(is_so)
}

#[test]
fn numbers_go_on_from_what_is_kept(rt: HostRuntime) {
    let lines = b"image lanes 2 capacity 4000 objects 4 fields 2 size 130208
control a sequence 3 version 2
transient 1
lane t1 start 0 settled 3 logged 5 kept 3
lane t2 start 0 settled 0 logged 2 kept 1
section t1 3 whole records 3
section t1 4 whole records 2
section t2 2 unfinished records 2
depends t2 2 on t1 4 object 0 number 6
cut 3 1
heap 10 20
";
    assert!(rt; is_written(rt.alloc(), lines) == Some(true));
}

// Whether its graph is written so, by these names, with so many sections of each thread.
fn is_drawn(alloc: Global, names: Option<&Schema>, last: u32, lines: &[u8]) -> Option<bool> {
    let study = settled(alloc).ok()?;
    let mut out = writer_failing(alloc, 0);
    let drawn = write_graph(alloc, &study, names, last, &mut out);
    drop(study);
    let is_so = out.taken.as_slice() == lines;
    drop(out);
    drawn.ok()?;
    Some(is_so)
}

#[test]
fn a_graph_is_written(rt: HostRuntime) {
    let lines = b"digraph sections {
rankdir=LR
labelloc=b
labeljust=l
label=\"grey: acknowledged, and kept\\ldropped by recovery: pink, it has not ended; orange, it depends on one that is dropped; yellow, it was not settled\\ldotted: depends on the thread's section before it\\lplain: depends on the section that freed what it took; number N: by the object's Nth release since the heap was opened\\l\"
subgraph t1 {
rank=same
\"t1\" [shape=plaintext]
\"t1.3\" [label=\"t1 3\\nwhole, 3 records\", style=filled]
\"t1\" -> \"t1.3\" [style=invis]
\"t1.4\" [label=\"t1 4\\nwhole, 2 records\\nunsettled\", style=filled, fillcolor=khaki]
\"t1.3\" -> \"t1.4\" [style=dotted, dir=back]
}
subgraph t2 {
rank=same
\"t2\" [shape=plaintext]
\"t2.2\" [label=\"t2 2\\nunfinished, 2 records\", style=filled, fillcolor=lightpink]
\"t2\" -> \"t2.2\" [style=invis]
}
\"t1\" -> \"t2\" [style=invis]
\"t2.2\" -> \"t1.4\" [label=\"object 0 number 6\", constraint=false]
}
";
    assert!(rt; is_drawn(rt.alloc(), None, 50, lines) == Some(true));
}

// The same by the names of a schema, with the last section of each thread that has ended.
fn is_drawn_in_part(alloc: Global, lines: &[u8]) -> Option<bool> {
    let schema = schema_or_none(alloc)?;
    let is_drawn = is_drawn(alloc, Some(&schema), 1, lines);
    drop(schema);
    is_drawn
}

#[test]
fn a_graph_says_what_it_leaves_out(rt: HostRuntime) {
    let lines = b"digraph sections {
rankdir=LR
labelloc=b
labeljust=l
label=\"grey: acknowledged, and kept\\ldropped by recovery: pink, it has not ended; orange, it depends on one that is dropped; yellow, it was not settled\\ldotted: depends on the thread's section before it\\lplain: depends on the section that freed what it took; number N: by the object's Nth release since the heap was opened\\l\"
subgraph t1 {
rank=same
\"t1\" [shape=plaintext, label=\"t1\\nleft out here: 1 before these\"]
\"t1.4\" [label=\"t1 4\\nwhole, 2 records\\nunsettled\", style=filled, fillcolor=khaki]
\"t1\" -> \"t1.4\" [style=invis]
}
subgraph t2 {
rank=same
\"t2\" [shape=plaintext]
\"t2.2\" [label=\"t2 2\\nunfinished, 2 records\", style=filled, fillcolor=lightpink]
\"t2\" -> \"t2.2\" [style=invis]
}
\"t1\" -> \"t2\" [style=invis]
\"t2.2\" -> \"t1.4\" [label=\"o0 number 6\", constraint=false]
}
";
    assert!(rt; is_drawn_in_part(rt.alloc(), lines) == Some(true));
}

// Four objects, and a field of each of the first two, which guards it; none where memory is wanting.
fn declare(builder: &mut SchemaBuilder) -> Option<()> {
    for name in ["o0", "o1", "o2", "o3"] {
        builder.object(name).ok()?;
    }
    builder.field(ObjectId(0), "f0", ObjectId(0), 10).ok()?;
    builder.field(ObjectId(1), "f1", ObjectId(1), 20).ok()?;
    Some(())
}

fn schema_or_none(alloc: Global) -> Option<Schema> {
    let mut builder = SchemaBuilder::new(alloc);
    if declare(&mut builder).is_none() {
        drop(builder);
        return None;
    }
    builder.build().ok()
}

fn formatted_of(alloc: Global, schema: &Schema) -> Option<Recovered<MemDisk>> {
    let disk = MemDisk::new(alloc, 130_208).ok()?;
    Store::format(alloc, disk, schema, 2, 4000).ok()
}

// The image of the schema with two lanes of 4,000 records; none where memory is wanting.
fn formatted(alloc: Global) -> Option<Recovered<MemDisk>> {
    let schema = schema_or_none(alloc)?;
    let made = formatted_of(alloc, &schema);
    drop(schema);
    made
}
