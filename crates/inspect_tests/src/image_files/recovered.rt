//! Image files recovered, shown, drawn and dumped. Lines and bytes follow from docs/SCRIPTS.md and docs/FORMAT.md.
use super::{SCHEMA, format_there, has};
use block_disk::{Fill, MemDisk};
use durable::{Store, StoreCall};
use guards::Schema;
use heap_model::{FieldId, Lane, ObjectId, Record};
use image_file::{
    FileImages, FormatError, ImageFault, NamedFault, Trouble, draw_named_at, dump_at, recover_at,
    show_at,
};
use recover::{RecoverError, Versions};
use script_declarations::{SchemaFault, SchemaFaultKind, read_schema};
use std::alloc::Global;
use std::io::Write;
use std::{fs, io};

// What a word of the program asks of an image file.
#[derive(Clone, Copy)]
enum Ask {
    Show,
    Draw,
    Recover,
    Upgrade,
}

fn show<W: Write>(rt: &HostRuntime, image: &str, out: &mut W) -> Result<(), ImageFault> {
    let trouble = Trouble::none();
    let mut images = FileImages::new(rt, &trouble);
    let answer = show_at(&mut images, rt.alloc(), image, out);
    drop(images);
    answer
}

// By numbers, and with the last fifty sections of each thread.
fn draw(rt: &HostRuntime, image: &str, out: &mut Vec<u8>) -> Result<(), ImageFault> {
    let trouble = Trouble::none();
    let mut images = FileImages::new(rt, &trouble);
    let answer = draw_named_at(rt, &mut images, rt.alloc(), &trouble, image, None, 50, out);
    drop(images);
    match answer {
        Ok(()) => Ok(()),
        Err(NamedFault::Image(fault)) => Err(fault),
        // No schema is named.
        Err(_) => Err(ImageFault::InUse),
    }
}

// What is answered where an image of one of these versions is recovered.
fn recover<W: Write>(
    rt: &HostRuntime,
    versions: Versions,
    image: &str,
    out: &mut W,
) -> Result<(), ImageFault> {
    let trouble = Trouble::none();
    let mut images = FileImages::new(rt, &trouble);
    let answer = recover_at(&mut images, rt.alloc(), versions, image, out);
    drop(images);
    answer
}

// What is answered.
fn answer(rt: &HostRuntime, ask: Ask, image: &str, out: &mut Vec<u8>) -> Result<(), ImageFault> {
    match ask {
        Ask::Show => show(rt, image, out),
        Ask::Draw => draw(rt, image, out),
        Ask::Recover => recover(rt, Versions::Current, image, out),
        Ask::Upgrade => recover(rt, Versions::Both, image, out),
    }
}

// Whether it is answered that, and these lines are written.
fn is_answered(
    rt: &HostRuntime,
    ask: Ask,
    image: &str,
    wanted: Result<(), ImageFault>,
    lines: &[u8],
) -> bool {
    let mut out = Vec::new(rt.alloc());
    let answered = answer(rt, ask, image, &mut out);
    let are_written = out.as_slice() == lines;
    drop(out);
    answered == wanted && are_written
}

// What is asked of an image file, one after the other, and the lines that are written.
type Told = (Ask, &'static [u8]);

// The first of these that isn't told.
fn first_untold(rt: &HostRuntime, image: &str, told: &[Told]) -> Option<usize> {
    for (place, (ask, lines)) in told.iter().enumerate() {
        if !is_answered(rt, *ask, image, Ok(()), lines) {
            return Some(place);
        }
    }
    None
}

// Whether the file is refused for this reason by all three words, which write nothing.
fn are_refused(rt: &HostRuntime, image: &str, why: RecoverError) -> bool {
    let refused = Err(ImageFault::Image(why));
    is_answered(rt, Ask::Recover, image, refused, b"")
        && is_answered(rt, Ask::Show, image, refused, b"")
        && is_answered(rt, Ask::Draw, image, refused, b"")
}

// What is answered to dumping an image by the names of a schema file, if one is given, and whether these lines are written.
type Dumped = (Result<(), NamedFault>, bool);

fn dump_there(rt: &HostRuntime, image: &str, schema: Option<&str>, lines: &[u8]) -> Dumped {
    let mut writer = Vec::new(rt.alloc());
    let trouble = Trouble::none();
    let mut images = FileImages::new(rt, &trouble);
    let answer = dump_at(
        rt,
        &mut images,
        rt.alloc(),
        &trouble,
        image,
        schema,
        &mut writer,
    );
    drop(images);
    let are_written = writer.as_slice() == lines;
    drop(writer);
    (answer, are_written)
}

fn schema_there(rt: &HostRuntime) -> Option<Schema> {
    fs::write(rt, "schema", SCHEMA).ok()?;
    let mut file = fs::open(rt, "schema").ok()?;
    let schema = read_schema(rt.alloc(), &mut file);
    drop(file);
    schema.ok()
}

// A store of the schema with two lanes of 4,000 records.
fn store_of(alloc: Global, schema: &Schema) -> Option<Store<MemDisk>> {
    let Ok(disk) = MemDisk::new(alloc, 130_208) else {
        return None;
    };
    match Store::format(alloc, disk, schema, 2, 4000) {
        Ok(made) => Store::adopt(alloc, made, 9).ok(),
        Err(refused) => {
            drop(refused);
            None
        }
    }
}

fn store_there(rt: &HostRuntime) -> Option<Store<MemDisk>> {
    let schema = schema_there(rt)?;
    let store = store_of(rt.alloc(), &schema);
    drop(schema);
    store
}

fn acq(object: u32, number: u64) -> Record {
    Record::Acq {
        object: ObjectId(object),
        number,
    }
}

fn rel(object: u32, number: u64) -> Record {
    Record::Rel {
        object: ObjectId(object),
        number,
    }
}

fn put(before: u64, after: u64) -> Record {
    Record::Put {
        field: FieldId(0),
        before,
        after,
    }
}

// The first thread frees the guard, but not its other monitor, and the second one takes it: a section drags another along.
fn dragging() -> [StoreCall; 11] {
    [
        StoreCall::Apply(Lane(0), acq(0, 0)),
        StoreCall::Apply(Lane(0), acq(1, 0)),
        StoreCall::Apply(Lane(0), put(10, 1)),
        StoreCall::Apply(Lane(0), rel(0, 0)),
        StoreCall::Apply(Lane(1), acq(0, 1)),
        StoreCall::Apply(Lane(1), put(1, 2)),
        StoreCall::Apply(Lane(1), rel(0, 1)),
        StoreCall::Log,
        StoreCall::Home,
        StoreCall::Home,
        StoreCall::Settle,
    ]
}

// What a crash behind the last of these calls leaves of the store's disk.
fn left_by(store: Store<MemDisk>, calls: &[StoreCall]) -> Option<MemDisk> {
    let mut store = store;
    let is_played = store.play(calls).is_ok();
    let disk = store.into_disk();
    let left = disk.crash_image(disk.stops().saturating_add(1), Fill::Lost);
    drop(disk);
    if is_played {
        left.ok()?
    } else {
        drop(left);
        None
    }
}

// What a crash leaves where a section drags another along.
fn crashed(rt: &HostRuntime) -> Option<MemDisk> {
    match store_there(rt) {
        Some(store) => left_by(store, &dragging()),
        None => None,
    }
}

// Writes its bytes into a file.
fn write_crashed(rt: &HostRuntime, image: &str) -> bool {
    match crashed(rt) {
        Some(disk) => {
            let written = fs::write(rt, image, disk.bytes());
            drop(disk);
            written.is_ok()
        }
        None => false,
    }
}

// What is written of it where it is recovered, and where that is done again.
const REPORT: &[u8] = b"kept 0 0
dropped t1 1 unfinished
dropped t2 1 after t1 1
undone 1
heap 10 20
";

const NOTHING_UNDONE: &[u8] = b"kept 0 0
undone 0
heap 10 20
";

const CRASHED: &[Told] = &[
    (
        Ask::Show,
        b"image lanes 2 capacity 4000 objects 4 fields 2 size 130208
control a sequence 3 version 2
lane t1 start 0 settled 0 logged 4 kept 0
lane t2 start 0 settled 0 logged 3 kept 0
section t1 1 unfinished records 4
section t2 1 whole records 3
depends t2 1 on t1 1 object 0 number 1
cut 0 0
heap 10 20
",
    ),
    (Ask::Recover, REPORT),
    (Ask::Recover, NOTHING_UNDONE),
];

#[test]
fn a_crashed_file_is_shown_and_recovered(rt: HostRuntime) {
    assert!(rt; write_crashed(&rt, "crashed"));
    assert!(rt; first_untold(&rt, "crashed", CRASHED).is_none());
}

// Makes the file's controls those of version 1. Returns its bytes then.
fn make_old(rt: &HostRuntime, image: &str) -> Option<Vec<u8>> {
    let mut bytes = fs::read(rt, image).ok()?;
    if write_old(rt, image, &mut bytes).is_none() {
        drop(bytes);
        return None;
    }
    Some(bytes)
}

fn write_old(rt: &HostRuntime, image: &str, bytes: &mut [u8]) -> Option<()> {
    *bytes.get_mut(83)? = 1;
    *bytes.get_mut(1131)? = 1;
    fs::write(rt, image, bytes).ok()
}

// Whether such a file isn't recovered, and keeps each byte.
fn is_old_refused(rt: &HostRuntime, image: &str) -> bool {
    match make_old(rt, image) {
        Some(bytes) => {
            let refused = Err(ImageFault::Image(RecoverError::OldVersion));
            let is_refused = is_answered(rt, Ask::Recover, image, refused, b"")
                && has(rt, image, &bytes);
            drop(bytes);
            is_refused
        }
        None => false,
    }
}

const OLD: &[Told] = &[
    (
        Ask::Show,
        b"image lanes 2 capacity 4000 objects 4 fields 2 size 130208
control a sequence 3 version 1
lane t1 start 0 settled 0 logged 4 kept 0
lane t2 start 0 settled 0 logged 3 kept 0
section t1 1 unfinished records 4
section t2 1 whole records 3
depends t2 1 on t1 1 object 0 number 1
cut 0 0
heap 10 20
",
    ),
    (Ask::Upgrade, REPORT),
    (
        Ask::Show,
        b"image lanes 2 capacity 4000 objects 4 fields 2 size 130208
control b sequence 4 version 2
lane t1 start 0 settled 0 logged 0 kept 0
lane t2 start 0 settled 0 logged 0 kept 0
cut 0 0
heap 10 20
",
    ),
    (Ask::Recover, NOTHING_UNDONE),
];

#[test]
fn an_old_file_is_shown_and_upgraded(rt: HostRuntime) {
    assert!(rt; write_crashed(&rt, "old"));
    assert!(rt; is_old_refused(&rt, "old"));
    assert!(rt; first_untold(&rt, "old", OLD).is_none());
}

// Whether a file of these bytes is refused for this reason by all three words, and keeps its bytes.
fn is_refused(rt: &HostRuntime, bytes: &[u8], why: RecoverError) -> bool {
    fs::write(rt, "refused", bytes).is_ok()
        && are_refused(rt, "refused", why)
        && has(rt, "refused", bytes)
}

// A place, the byte that is put there, and what it is refused for: the header's gate, its lanes, the version of the control, the first
// row's mark, and the first thread's first record.
const CHANGES: &[(usize, u8, RecoverError)] = &[
    (8, 0, RecoverError::NotFormatted),
    (9, 33, RecoverError::BadHeader),
    (83, 3, RecoverError::BadControl),
    (2164, 2, RecoverError::BadHeader),
    (
        2208,
        9,
        RecoverError::BadRecord {
            lane: Lane(0),
            place: 0,
        },
    ),
];

// These bytes with this one changed.
fn changed(alloc: Global, bytes: &[u8], at: usize, value: u8) -> Option<Vec<u8>> {
    let mut bytes = bytes.to_vec(alloc).ok()?;
    match bytes.get_mut(at) {
        Some(byte) => *byte = value,
        None => {
            drop(bytes);
            return None;
        }
    }
    Some(bytes)
}

// Whether the image with the byte at this place changed is refused so.
fn is_change_refused(
    rt: &HostRuntime,
    image: &[u8],
    change: (usize, u8),
    why: RecoverError,
) -> bool {
    match changed(rt.alloc(), image, change.0, change.1) {
        Some(bytes) => {
            let is_refused = is_refused(rt, &bytes, why);
            drop(bytes);
            is_refused
        }
        None => false,
    }
}

// The first of these changes for which the image isn't refused so.
fn first_other(rt: &HostRuntime, image: &[u8]) -> Option<usize> {
    for (place, (at, value, why)) in CHANGES.iter().enumerate() {
        if !is_change_refused(rt, image, (*at, *value), *why) {
            return Some(place);
        }
    }
    None
}

// Whether a short image is refused, and each of these changes.
fn are_all_refused(rt: &HostRuntime, image: &[u8]) -> [bool; 2] {
    let is_short_refused = match image.get(..130_207) {
        Some(short) => is_refused(rt, short, RecoverError::TooSmall),
        None => false,
    };
    [is_short_refused, first_other(rt, image).is_none()]
}

// The same of the crashed image.
fn are_crashed_refused(rt: &HostRuntime) -> Option<[bool; 2]> {
    match crashed(rt) {
        Some(disk) => {
            let are_refused = are_all_refused(rt, disk.bytes());
            drop(disk);
            Some(are_refused)
        }
        None => None,
    }
}

#[test]
fn a_refused_file_keeps_each_byte(rt: HostRuntime) {
    assert!(rt; is_refused(&rt, b"", RecoverError::NotFormatted));
    assert!(rt; are_crashed_refused(&rt) == Some([true; 2]));
}

#[test]
fn a_missing_file_is_a_fault(rt: HostRuntime) {
    assert!(rt; are_refused(&rt, "missing", RecoverError::Fault));
    assert!(rt; fs::metadata(&rt, "missing").is_err());
}

// Takes a line, and then fails.
#[derive(Drop)]
struct OneLine {
    taken: Vec<u8>,
}

impl Write for OneLine {
    fn write(&mut self, buf: &[u8]) -> io::Result<usize> {
        if self.taken.ends_with(b"\n") {
            return Err(io::Error::from(io::ErrorKind::StorageFull));
        }
        self.taken.extend_from_slice(buf)?;
        Ok(buf.len())
    }

    fn flush(&mut self) -> io::Result<()> {
        Ok(())
    }
}

// What is answered where the writer fails behind a line, to showing and to recovering; and whether that line is the first of the report.
fn told_of_half(rt: &HostRuntime, image: &str) -> ([Result<(), ImageFault>; 2], bool) {
    let mut writer = OneLine {
        taken: Vec::new(rt.alloc()),
    };
    let shown = show(rt, image, &mut writer);
    writer.taken.clear();
    let recovered = recover(rt, Versions::Current, image, &mut writer);
    let is_first = writer.taken.as_slice() == b"kept 0 0\n".as_slice();
    drop(writer);
    ([shown, recovered], is_first)
}

// The image is recovered all the same.
#[test]
fn a_writer_that_fails_is_a_fault(rt: HostRuntime) {
    assert!(rt; write_crashed(&rt, "half_told"));
    let faults = [Err(ImageFault::Image(RecoverError::Fault)); 2];
    assert!(rt; told_of_half(&rt, "half_told") == (faults, true));
    assert!(rt; is_answered(&rt, Ask::Recover, "half_told", Ok(()), NOTHING_UNDONE));
}

// What is answered to dumping the crashed image with the names of this schema file, and to making an image of what is dumped, with
// another line at its end, which is dumped in its turn.
fn told_of_dumped(
    rt: &HostRuntime,
    lines: &[u8],
    more: &[u8],
) -> Option<([Dumped; 2], (Result<(), FormatError>, bool))> {
    let first = dump_there(rt, "dumped", Some("schema"), lines);
    fs::write(rt, "larger_schema", more).ok()?;
    let made = format_there(rt, "larger", "larger_schema", b"formatted 130232\n");
    let again = dump_there(rt, "larger", Some("larger_schema"), more);
    Some(([first, again], made))
}

#[test]
fn a_heap_is_moved_to_a_larger_schema(rt: HostRuntime) {
    let lines = b"object o0
object o1
object o2
object o3
field f0 o0 o0 10
field f1 o1 o1 20
";
    let more = b"object o0
object o1
object o2
object o3
field f0 o0 o0 10
field f1 o1 o1 20
transient f2 o2 o2 30
";
    let wanted = ([(Ok(()), true); 2], (Ok(()), true));
    assert!(rt; write_crashed(&rt, "dumped"));
    assert!(rt; told_of_dumped(&rt, lines, more) == Some(wanted));
}

// What is answered to dumping an image by numbers, by the names of a schema file that isn't its own, and of one that is refused.
fn told_of_names(rt: &HostRuntime, lines: &[u8]) -> Option<[Dumped; 3]> {
    fs::write(rt, "another_schema", "object a\nfield f a a 1\n").ok()?;
    fs::write(rt, "no_schema", "object a\nobject a\n").ok()?;
    Some([
        dump_there(rt, "named", None, lines),
        dump_there(rt, "named", Some("another_schema"), b""),
        dump_there(rt, "named", Some("no_schema"), b""),
    ])
}

#[test]
fn names_are_those_of_the_image(rt: HostRuntime) {
    let fault = SchemaFault {
        line: 2,
        why: SchemaFaultKind::DoubleName,
    };
    let wanted = [
        (Ok(()), true),
        (Err(NamedFault::OtherSchema), true),
        (Err(NamedFault::Schema(fault)), true),
    ];
    assert!(rt; write_crashed(&rt, "named"));
    assert!(rt; told_of_names(&rt, SCHEMA.as_bytes()) == Some(wanted));
}
