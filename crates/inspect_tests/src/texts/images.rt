//! Images that a store left, whole or altered, as the inspector shows them. Each byte's place follows from docs/FORMAT.md.
use super::{Sink, formatted, writer_failing};
use block_disk::{Fill, MemDisk};
use durable::{Store, StoreCall};
use heap_model::{FieldId, Lane, ObjectId, Record};
use inspect::{InspectError, draw, inspect};
use recover::RecoverError;
use std::alloc::Global;

// A byte of an image by its place, and its new value.
type Change = (usize, u8);

const WORN: [Change; 8] = [
    (72, 255),
    (73, 255),
    (74, 255),
    (75, 255),
    (76, 255),
    (77, 255),
    (78, 255),
    (79, 255),
];

fn acq(lane: u8, object: u32, number: u64) -> StoreCall {
    let object = ObjectId(object);
    StoreCall::Apply(Lane(lane), Record::Acq { object, number })
}

fn rel(lane: u8, object: u32, number: u64) -> StoreCall {
    let object = ObjectId(object);
    StoreCall::Apply(Lane(lane), Record::Rel { object, number })
}

fn put(lane: u8, before: u64, after: u64) -> StoreCall {
    let field = FieldId(0);
    StoreCall::Apply(
        Lane(lane),
        Record::Put {
            field,
            before,
            after,
        },
    )
}

// A section of the first thread that stores 5, logged, written home and acknowledged.
fn stored() -> [StoreCall; 7] {
    [
        acq(0, 0, 0),
        put(0, 10, 5),
        rel(0, 0, 0),
        StoreCall::Log,
        StoreCall::Home,
        StoreCall::Home,
        StoreCall::Settle,
    ]
}

// The first thread stores 1 and frees the guard, but not its other monitor; the second one stores 2 in a section.
fn two_stores() -> [StoreCall; 11] {
    [
        acq(0, 0, 0),
        acq(0, 1, 0),
        put(0, 10, 1),
        rel(0, 0, 0),
        acq(1, 0, 1),
        put(1, 1, 2),
        rel(1, 0, 1),
        StoreCall::Log,
        StoreCall::Home,
        StoreCall::Home,
        StoreCall::Settle,
    ]
}

// Each of two sections takes a monitor that the other one freed. The last three calls end the second.
fn circle() -> [StoreCall; 14] {
    [
        acq(0, 0, 0),
        acq(0, 1, 0),
        rel(0, 1, 0),
        acq(1, 2, 0),
        acq(1, 1, 1),
        rel(1, 2, 0),
        acq(0, 2, 1),
        rel(0, 2, 1),
        rel(0, 0, 0),
        StoreCall::Log,
        StoreCall::Settle,
        rel(1, 1, 1),
        StoreCall::Log,
        StoreCall::Settle,
    ]
}

// What a crash behind the last call leaves of the disk.
fn left_by(disk: &MemDisk) -> Option<MemDisk> {
    disk.crash_image(disk.stops().saturating_add(1), Fill::Lost)
        .ok()?
}

// What a crash behind the last of these calls leaves of a store of two lanes.
fn crashed(alloc: Global, calls: &[StoreCall]) -> Option<MemDisk> {
    let made = formatted(alloc)?;
    let mut store = Store::adopt(alloc, made, 9).ok()?;
    let is_played = store.play(calls).is_ok();
    let disk = store.into_disk();
    let left = if is_played { left_by(&disk) } else { None };
    drop(disk);
    left
}

// Changes the bytes at these places.
fn change(bytes: &mut [u8], changes: &[Change]) -> Option<()> {
    for (at, value) in changes {
        *bytes.get_mut(*at)? = *value;
    }
    Some(())
}

// The image with the bytes at these places changed.
fn changed(alloc: Global, image: &MemDisk, changes: &[Change]) -> Option<Vec<u8>> {
    let mut bytes = image.bytes().to_vec(alloc).ok()?;
    if change(&mut bytes, changes).is_none() {
        drop(bytes);
        return None;
    }
    Some(bytes)
}

// Whether the image's lines are these.
fn is_shown(alloc: Global, image: &mut MemDisk, lines: &[u8]) -> bool {
    let mut out = writer_failing(alloc, 0);
    let answer = inspect(alloc, image, &mut out);
    let are_written = out.taken.as_slice() == lines;
    drop(out);
    answer == Ok(()) && are_written
}

// Whether the image's graph is this.
fn is_drawn(alloc: Global, image: &mut MemDisk, graph: &[u8]) -> bool {
    let mut out = writer_failing(alloc, 0);
    let answer = draw(alloc, image, &mut out);
    let is_written = out.taken.as_slice() == graph;
    drop(out);
    answer == Ok(()) && is_written
}

// Whether the lines of what a crash leaves are these, and its graph.
fn is_crash_shown(alloc: Global, calls: &[StoreCall], lines: &[u8]) -> Option<bool> {
    let mut image = crashed(alloc, calls)?;
    let is_shown = is_shown(alloc, &mut image, lines);
    drop(image);
    Some(is_shown)
}

fn is_crash_drawn(alloc: Global, calls: &[StoreCall], graph: &[u8]) -> Option<bool> {
    let mut image = crashed(alloc, calls)?;
    let is_drawn = is_drawn(alloc, &mut image, graph);
    drop(image);
    Some(is_drawn)
}

// Whether the graph of what a crash leaves of the circle, while the second section has not ended, is this.
fn is_open_circle_drawn(alloc: Global, graph: &[u8]) -> Option<bool> {
    let calls = circle();
    is_crash_drawn(alloc, calls.as_slice().get(..11)?, graph)
}

fn is_format_shown(alloc: Global, lines: &[u8]) -> Option<bool> {
    let mut image = formatted(alloc)?.into_disk();
    let is_shown = is_shown(alloc, &mut image, lines);
    drop(image);
    Some(is_shown)
}

// Whether the inspector and its graph refuse an image of these bytes for this reason, write nothing, and keep the bytes.
fn is_refused(alloc: Global, bytes: &[u8], why: RecoverError) -> Option<[bool; 4]> {
    let mut disk = MemDisk::from_bytes(alloc, bytes).ok()?;
    let mut out = writer_failing(alloc, 0);
    let is_not_shown = inspect(alloc, &mut disk, &mut out) == Err(InspectError::Study(why));
    let is_not_drawn = draw(alloc, &mut disk, &mut out) == Err(InspectError::Study(why));
    let is_silent = out.calls == 0;
    drop(out);
    let is_kept = disk.bytes() == bytes;
    drop(disk);
    Some([is_not_shown, is_not_drawn, is_silent, is_kept])
}

#[test]
fn a_formatted_image_is_shown(rt: HostRuntime) {
    let lines = b"image lanes 2 capacity 4000 objects 4 fields 2 size 130208
control a sequence 1 version 2
lane t1 start 0 settled 0 logged 0 kept 0
lane t2 start 0 settled 0 logged 0 kept 0
cut 0 0
heap 10 20
";
    assert!(rt; is_format_shown(rt.alloc(), lines) == Some(true));
}

#[test]
fn an_unfinished_section_is_shown_and_drawn(rt: HostRuntime) {
    let alloc = rt.alloc();
    let lines = b"image lanes 2 capacity 4000 objects 4 fields 2 size 130208
control a sequence 3 version 2
lane t1 start 0 settled 0 logged 4 kept 0
lane t2 start 0 settled 0 logged 3 kept 0
section t1 1 unfinished records 4
section t2 1 whole records 3
depends t2 1 on t1 1 object 0 number 1
cut 0 0
heap 10 20
";
    let graph = b"digraph sections {
rankdir=LR
labelloc=b
labeljust=l
label=\"grey: acknowledged, and kept\\ldropped by recovery: pink, it has not ended; orange, it depends on one that is dropped; yellow, it was not settled\\ldotted: depends on the thread's section before it\\lplain: depends on the section that freed what it took; number N: by the object's Nth release since the heap was opened\\l\"
subgraph t1 {
rank=same
\"t1\" [shape=plaintext]
\"t1.1\" [label=\"t1 1\\nunfinished, 4 records\", style=filled, fillcolor=lightpink]
\"t1\" -> \"t1.1\" [style=invis]
}
subgraph t2 {
rank=same
\"t2\" [shape=plaintext]
\"t2.1\" [label=\"t2 1\\nwhole, 3 records\\nafter t1 1\", style=filled, fillcolor=orange]
\"t2\" -> \"t2.1\" [style=invis]
}
\"t1\" -> \"t2\" [style=invis]
\"t2.1\" -> \"t1.1\" [label=\"object 0 number 1\", constraint=false]
}
";
    let found = [
        is_crash_shown(alloc, &two_stores(), lines),
        is_crash_drawn(alloc, &two_stores(), graph),
    ];
    assert!(rt; found == [Some(true); 2]);
}

// Neither is acknowledged while the second has not ended.
#[test]
fn a_circle_is_drawn(rt: HostRuntime) {
    let alloc = rt.alloc();
    let open = b"digraph sections {
rankdir=LR
labelloc=b
labeljust=l
label=\"grey: acknowledged, and kept\\ldropped by recovery: pink, it has not ended; orange, it depends on one that is dropped; yellow, it was not settled\\ldotted: depends on the thread's section before it\\lplain: depends on the section that freed what it took; number N: by the object's Nth release since the heap was opened\\l\"
subgraph t1 {
rank=same
\"t1\" [shape=plaintext]
\"t1.1\" [label=\"t1 1\\nwhole, 6 records\\nafter t2 1\", style=filled, fillcolor=orange]
\"t1\" -> \"t1.1\" [style=invis]
}
subgraph t2 {
rank=same
\"t2\" [shape=plaintext]
\"t2.1\" [label=\"t2 1\\nunfinished, 3 records\", style=filled, fillcolor=lightpink]
\"t2\" -> \"t2.1\" [style=invis]
}
\"t1\" -> \"t2\" [style=invis]
\"t1.1\" -> \"t2.1\" [label=\"object 2 number 1\", constraint=false]
\"t2.1\" -> \"t1.1\" [label=\"object 1 number 1\", constraint=false]
}
";
    let ended = b"digraph sections {
rankdir=LR
labelloc=b
labeljust=l
label=\"grey: acknowledged, and kept\\ldropped by recovery: pink, it has not ended; orange, it depends on one that is dropped; yellow, it was not settled\\ldotted: depends on the thread's section before it\\lplain: depends on the section that freed what it took; number N: by the object's Nth release since the heap was opened\\l\"
subgraph t1 {
rank=same
\"t1\" [shape=plaintext]
\"t1.1\" [label=\"t1 1\\nwhole, 6 records\", style=filled]
\"t1\" -> \"t1.1\" [style=invis]
}
subgraph t2 {
rank=same
\"t2\" [shape=plaintext]
\"t2.1\" [label=\"t2 1\\nwhole, 4 records\", style=filled]
\"t2\" -> \"t2.1\" [style=invis]
}
\"t1\" -> \"t2\" [style=invis]
\"t1.1\" -> \"t2.1\" [label=\"object 2 number 1\", constraint=false]
\"t2.1\" -> \"t1.1\" [label=\"object 1 number 1\", constraint=false]
}
";
    let found = [
        is_open_circle_drawn(alloc, open),
        is_crash_drawn(alloc, &circle(), ended),
    ];
    assert!(rt; found == [Some(true); 2]);
}

// What a crash leaves, with the bytes at these places changed.
fn stored_and_changed(alloc: Global, changes: &[Change]) -> Option<MemDisk> {
    let image = crashed(alloc, &stored())?;
    let bytes = changed(alloc, &image, changes);
    drop(image);
    let bytes = bytes?;
    let image = MemDisk::from_bytes(alloc, &bytes);
    drop(bytes);
    image.ok()
}

// Whether the lines of that are these.
fn is_change_shown(alloc: Global, changes: &[Change], lines: &[u8]) -> Option<bool> {
    let mut image = stored_and_changed(alloc, changes)?;
    let is_shown = is_shown(alloc, &mut image, lines);
    drop(image);
    Some(is_shown)
}

// Recovery refuses the control's sequence; the inspector shows it.
#[test]
fn a_worn_control_is_shown(rt: HostRuntime) {
    let lines = b"image lanes 2 capacity 4000 objects 4 fields 2 size 130208
control a sequence 18446744073709551615 version 2
lane t1 start 0 settled 3 logged 3 kept 1
lane t2 start 0 settled 0 logged 0 kept 0
section t1 1 whole records 3
cut 1 0
heap 5 20
";
    assert!(rt; is_change_shown(rt.alloc(), &WORN, lines) == Some(true));
}

// The same of a control of version 1, from before there were transient fields.
#[test]
fn an_image_of_version_1_is_shown(rt: HostRuntime) {
    let lines = b"image lanes 2 capacity 4000 objects 4 fields 2 size 130208
control a sequence 3 version 1
lane t1 start 0 settled 3 logged 3 kept 1
lane t2 start 0 settled 0 logged 0 kept 0
section t1 1 whole records 3
cut 1 0
heap 5 20
";
    assert!(rt; is_change_shown(rt.alloc(), &[(83, 1)], lines) == Some(true));
}

// Whether the image without its last byte is refused as too small.
fn is_short_refused(alloc: Global, image: &MemDisk) -> Option<[bool; 4]> {
    is_refused(alloc, image.bytes().get(..130_207)?, RecoverError::TooSmall)
}

fn is_change_refused(
    alloc: Global,
    image: &MemDisk,
    changes: &[Change],
    why: RecoverError,
) -> Option<[bool; 4]> {
    let bytes = changed(alloc, image, changes)?;
    let is_refused = is_refused(alloc, &bytes, why);
    drop(bytes);
    is_refused
}

// The first of these changes that isn't refused so.
fn first_other(
    alloc: Global,
    image: &MemDisk,
    cases: &[([Change; 2], RecoverError)],
) -> Option<usize> {
    cases.iter().position(|case| is_change_refused(alloc, image, &case.0, case.1)
        != Some([true; 4]))
}

// Whether a short image is refused, and the first of these changes that isn't.
fn told_of_refused(
    alloc: Global,
    cases: &[([Change; 2], RecoverError)],
) -> Option<([bool; 4], Option<usize>)> {
    let image = crashed(alloc, &stored())?;
    let short = is_short_refused(alloc, &image);
    let other = first_other(alloc, &image, cases);
    drop(image);
    Some((short?, other))
}

#[test]
fn refused_images_are_not_shown(rt: HostRuntime) {
    let (lane, place) = (Lane(0), 0);
    let cases = [
        ([(8, 0), (8, 0)], RecoverError::NotFormatted),
        ([(9, 33), (9, 33)], RecoverError::BadHeader),
        ([(64, 0), (1112, 0)], RecoverError::NoControl),
        ([(83, 3), (83, 3)], RecoverError::BadControl),
        ([(83, 1), (2164, 1)], RecoverError::BadControl),
        ([(2164, 2), (2164, 2)], RecoverError::BadHeader),
        ([(2165, 1), (2165, 1)], RecoverError::BadHeader),
        (
            [(2208, 9), (2208, 9)],
            RecoverError::BadRecord { lane, place },
        ),
        (
            [(119, 0), (119, 0)],
            RecoverError::IllegalLog { lane, place: 3 },
        ),
    ];
    assert!(rt; told_of_refused(rt.alloc(), &cases) == Some(([true; 4], None)));
}

// Whether a writer that fails at its ninth call ends the lines behind the first of these texts, and the graph behind the
// second.
fn is_cut_off(alloc: Global, image: &mut MemDisk, lines: &[u8], graph: &[u8]) -> [bool; 4] {
    let mut shown = writer_failing(alloc, 9);
    let is_not_shown = inspect(alloc, image, &mut shown) == Err(InspectError::Write);
    let is_begun = shown.taken.as_slice() == lines;
    drop(shown);
    let mut drawn = writer_failing(alloc, 9);
    let is_not_drawn = draw(alloc, image, &mut drawn) == Err(InspectError::Write);
    let is_graph_begun = drawn.taken.as_slice() == graph;
    drop(drawn);
    [is_not_shown, is_begun, is_not_drawn, is_graph_begun]
}

// Whether a read that fails is told, and nothing is written.
fn is_fault_told(alloc: Global, image: &mut MemDisk) -> [bool; 2] {
    let mut out = writer_failing(alloc, 0);
    image.fail_call(1);
    let fault = Err(InspectError::Study(RecoverError::Fault));
    let is_told = inspect(alloc, image, &mut out) == fault;
    let is_silent = out.calls == 0;
    drop(out);
    [is_told, is_silent]
}

fn told_of_faults(alloc: Global) -> Option<([bool; 4], [bool; 2])> {
    let mut image = crashed(alloc, &two_stores())?;
    let cut_off = is_cut_off(alloc, &mut image, b"image lanes 2 c", b"digraph sections");
    let is_told = is_fault_told(alloc, &mut image);
    drop(image);
    Some((cut_off, is_told))
}

#[test]
fn faults_are_handed_on(rt: HostRuntime) {
    assert!(rt; told_of_faults(rt.alloc()) == Some(([true; 4], [true; 2])));
}
