//! Image files in a folder that the tests share.
mod recovered;

use disk_file::{BackingFile, Claim};
use disk_sector_file::ImageKind;
use image_file::{FileImages, FormatError, NewImage, Trouble, format_at};
use script_declarations::{SchemaFault, SchemaFaultKind};
use std::fs;
use std::fs::OpenOptions;

const SCHEMA: &str = "\
object o0
object o1
object o2
object o3
field f0 o0 o0 10
field f1 o1 o1 20
";

// What the first bytes of its image are.
const HEADER: &[u8] = b"MONIHEAP\xA5\x02\x00\x00\x00\x00\x00\x04\x00\x00\x00\x02\x00\x00\x0F\xA0";

// An image of 2 lanes of 4,000 records. One that was there isn't kept.
const NEW: NewImage = NewImage {
    lanes: 2,
    capacity: 4000,
    kind: ImageKind::Plain,
    is_kept: false,
};

// Whether the file has these bytes.
fn has(rt: &HostRuntime, name: &str, bytes: &[u8]) -> bool {
    match fs::read(rt, name) {
        Ok(left) => {
            let is_so = left.as_slice() == bytes;
            drop(left);
            is_so
        }
        Err(_) => false,
    }
}

// Makes an image file of 2 lanes, and gives what is answered and whether this is written.
fn format_there(
    rt: &HostRuntime,
    image: &str,
    schema: &str,
    lines: &[u8],
) -> (Result<(), FormatError>, bool) {
    let alloc = rt.alloc();
    let mut writer = Vec::new(alloc);
    let trouble = Trouble::none();
    let mut images = FileImages::new(rt, &trouble);
    let made = format_at(
        rt,
        &mut images,
        alloc,
        &trouble,
        image,
        schema,
        NEW,
        &mut writer,
    );
    drop(images);
    let is_written = writer.as_slice() == lines;
    drop(writer);
    (made, is_written)
}

// What is answered and whether it is written, and the size of the file, with whether it begins as documented.
fn told_of_made(rt: &HostRuntime) -> Option<((Result<(), FormatError>, bool), (usize, bool))> {
    fs::write(rt, "schema", SCHEMA).ok()?;
    let made = format_there(rt, "made", "schema", b"formatted 130208\n");
    let image = fs::read(rt, "made").ok()?;
    let found = (image.len(), image.starts_with(HEADER));
    drop(image);
    Some((made, found))
}

#[test]
fn a_schema_file_gives_an_image_file(rt: HostRuntime) {
    let wanted = ((Ok(()), true), (130_208, true));
    assert!(rt; told_of_made(&rt) == Some(wanted));
}

// What is answered, whether nothing is written, and whether there is no file.
type Unmade = (Result<(), FormatError>, bool, bool);

fn unmade(rt: &HostRuntime, schema: &str) -> Unmade {
    let (made, is_silent) = format_there(rt, "unmade", schema, b"");
    (made, is_silent, fs::metadata(rt, "unmade").is_err())
}

// Of a schema that is refused, and of one that is missing.
fn told_of_unmade(rt: &HostRuntime) -> Option<[Unmade; 2]> {
    fs::write(rt, "bad_schema", "object a\nobject a\n").ok()?;
    let refused = unmade(rt, "bad_schema");
    Some([refused, unmade(rt, "missing")])
}

#[test]
fn a_refused_schema_makes_no_file(rt: HostRuntime) {
    let fault = SchemaFault {
        line: 2,
        why: SchemaFaultKind::DoubleName,
    };
    let refused = (Err(FormatError::Schema(fault)), true, true);
    let missing = (Err(FormatError::Fault), true, true);
    assert!(rt; told_of_unmade(&rt) == Some([refused, missing]));
}

// What is answered to making an image over other bytes, whether nothing is written, and whether they stay; and over the schema file
// itself, by another spelling.
fn told_of_other_bytes(rt: &HostRuntime) -> Option<[(Result<(), FormatError>, bool, bool); 2]> {
    fs::write(rt, "schema_too", SCHEMA).ok()?;
    fs::write(rt, "notes", "my notes, of a year").ok()?;
    let (notes, is_silent) = format_there(rt, "notes", "schema_too", b"");
    let notes_stay = has(rt, "notes", b"my notes, of a year");
    let (same, is_silent_too) = format_there(rt, "./schema_too", "schema_too", b"");
    let schema_stays = has(rt, "schema_too", SCHEMA.as_bytes());
    Some([
        (notes, is_silent, notes_stay),
        (same, is_silent_too, schema_stays),
    ])
}

#[test]
fn other_bytes_are_never_replaced(rt: HostRuntime) {
    let refused = (Err(FormatError::NotImage), true, true);
    assert!(rt; told_of_other_bytes(&rt) == Some([refused; 2]));
}

// Whether another open claims the image, and making one over it is refused then and leaves these bytes.
fn told_while_claimed(rt: &HostRuntime, before: &[u8]) -> Option<[bool; 2]> {
    let mut options = OpenOptions::new();
    let other = options.read(true).write(true).open(rt, "claimed").ok()?;
    let claimed = other.claim(Claim::Alone);
    let (refused, is_silent) = format_there(rt, "claimed", "schema_of_claimed", b"");
    let stays = has(rt, "claimed", before);
    drop(other);
    let is_in_use = refused == Err(FormatError::InUse) && is_silent;
    Some([claimed.ok()?, is_in_use && stays])
}

// Whether making an image is refused while another open has claimed the one that is there, whose bytes stay; and done after that.
fn told_of_claimed(rt: &HostRuntime) -> Option<[bool; 3]> {
    fs::write(rt, "schema_of_claimed", SCHEMA).ok()?;
    let lines = b"formatted 130208\n";
    let (made, _) = format_there(rt, "claimed", "schema_of_claimed", lines);
    let before = fs::read(rt, "claimed").ok()?;
    let told = told_while_claimed(rt, &before);
    drop(before);
    let [is_claimed, is_refused] = told?;
    let (again, _) = format_there(rt, "claimed", "schema_of_claimed", lines);
    Some([
        made.is_ok() && is_claimed,
        is_refused,
        again.is_ok() && fs::metadata(rt, "claimed.heapctl-new").is_err(),
    ])
}

#[test]
fn an_image_that_another_has_is_left_alone(rt: HostRuntime) {
    assert!(rt; told_of_claimed(&rt) == Some([true; 3]));
}
