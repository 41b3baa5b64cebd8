//! Setting fields of an image, by their names: the lines of a section of its own are played over it.
ghost use Rattle.std.specs.Prelude.{◌≡◌, ◌<◌, ◌++◌, [], None, length, set, string_bytes, IfErr, IfOk, IfSome, IsTrue, OnOk};
ghost use Rattle.image_file.specs.Beside.{LiesOn, LeavesBesideIt, StaysBesideIt};
ghost use Rattle.image_file.specs.declared.error.ImageFault.TheVariants as images;
ghost use Rattle.image_file.specs.declared.error.NamedFault.TheVariants.{Image};
ghost use Rattle.image_schema.specs.OfImage.{IsStudied};
ghost use Rattle.script_images.specs.Assigning.{HasAssignments, HasHeap, HasSection, IsAssigned, IsAssignment, IsPlanned, IsPlannedOf, IsPlayedPlan, IsSetOver, IsUnchecked, Misses, NoAssignment, RefusesPlan, RefusesPlayed, RefusesStudied, RefusesTexts, RefusesThere, RefusesToSet, SetsAt, SetsHeld, SetsThere, acknowledging, exiting, storing, told_of_miss};
ghost use Rattle.script_images.specs.declared.error.RunFault.TheVariants as runs;
ghost use Rattle.script_images.specs.declared.error.SetFault.TheVariants.{Run};
ghost use Rattle.recover_heap.specs.declared.error.RecoverError.TheVariants.{NoMemory};

use crate::error::{RunFault, SetFault};
use crate::opening::{refused, schema_for};
use crate::playing::{Played, play_over};
use crate::running::{of_file, place_for, put_image, tidy};
use block_disk::{Disk, MemDisk};
use disk_sector_file::ImageKind;
use guards::Schema;
use image_file::{Images, Trouble, schema_at};
use recover::{RecoverError, Study, study};
use script_lines::Ending;
use script_play::put;
use std::alloc::{AllocError, Global};
use std::fmt::Write as _;
use std::io::{Read, Write};
use std::rt::Files;

// The lines behind those of the section: what it has stored is acknowledged by the last.
const ACKNOWLEDGE: &str = "log\nhome\nsettle\n";

// Why a word assigns nothing.
#[derive(Clone, Copy, PartialEq, Eq)]
enum Miss {
    Word,
    Unknown,
    Transient,
    NoMemory,
}

/// Sets the fields of the image at the path that these words assign, each `NAME=VALUE`: what the program's word `set` does. Thread 1 enters
/// the guards, stores the values and exits the guards, as [`run_at`](crate::run_at) plays it, and the lines `log`, `home` and `settle`
/// acknowledge that section. What the lines print is written once they are played and the image has taken its place. Names are those of the
/// schema file, where one is named, or else `f0`, `f1` and so on.
///
/// Refusals, in this order. Nothing is written, but for the last:
/// - `Run` by `Named`: the schema file is refused, or can't be read; the image can't be had, or is refused; the schema isn't the image's;
/// - `Word`, `Unknown`, `Transient`: as the first such word says;
/// - `Run`: as [`play_over`] says of a strict script; the image is as it was;
/// - `Run` by `Named`: the image isn't replaced. It is as it was, or, by `Fault`, it may be that the new one is there and isn't known to be
///   durable;
/// - `Run` by `Write`: the image is replaced, and the writer failed. A beginning of the text is written.
///
/// What the system says of a call on the schema file that fails is noted as trouble.
pub fn set_at<D, P, F, R, W>(
    rt: &R,
    images: &mut P,
    alloc: Global,
    trouble: &Trouble,
    path: &str,
    schema_path: Option<&str>,
    texts: &[&str],
    writer: &mut W,
) -> Result<(), SetFault>
where
    D: Disk + Drop,
    P: Images<Medium = D>,
    F: Read + Drop,
    R: Files<File = F>,
    W: Write,
    // After `set` recovery of the image at the path gives the heap that recovery of the old image gave, with the assigned
    // fields changed and no other: by the lines of one section, which is acknowledged before anything is printed. A
    // refusal leaves the image.
    ensures ends { SetsAt schema_path.entry texts.now result (P.holds images.old path.now) (P.holds images.new path.now)
        (W.contents writer.old) (W.contents writer.new) }
    // Nothing beside the path is lost: what is kept there remains, and the image lies as it did, in one place or in two.
    ensures beside { StaysBesideIt path.now P.holds P.lies images.old images.new }
{
    let given = match schema_at(rt, alloc, trouble, schema_path) {
        Ok(given) => given,
        Err(fault) => return Err(SetFault::Run(RunFault::Named(fault))),
    };
    let ended = set_image(images, alloc, path, given, texts, writer);
    let is_done = ended.is_ok();
    tidy(images, path, is_done);
    ended
}

// Sets the fields of the image at the path.
fn set_image<D: Disk + Drop, P: Images<Medium = D>, W: Write>(
    images: &mut P,
    alloc: Global,
    path: &str,
    given: Option<Schema>,
    texts: &[&str],
    writer: &mut W,
) -> Result<(), SetFault>
    ensures ends { SetsHeld given texts.now (P.holds images.old path.now) (P.holds images.new path.now)
        (W.contents writer.old) (W.contents writer.new) result }
    ensures beside { StaysBesideIt path.now P.holds P.lies images.old images.new }
{
    match place_for(images, alloc, path) {
        Ok((disk, kind)) => set_on(images, alloc, path, disk, kind, given, texts, writer),
        Err(why) => {
            drop(given);
            Err(SetFault::Run(of_file(why)))
        }
    }
}

// Sets them, and makes the new image on this disk.
fn set_on<D: Disk + Drop, P: Images<Medium = D>, W: Write>(
    images: &mut P,
    alloc: Global,
    path: &str,
    disk: D,
    kind: ImageKind,
    given: Option<Schema>,
    texts: &[&str],
    writer: &mut W,
) -> Result<(), SetFault>
    requires { LiesOn kind (P.lies images.old path.now) }
    ensures ends { SetsHeld given texts.now (P.holds images.old path.now) (P.holds images.new path.now)
        (W.contents writer.old) (W.contents writer.new) result }
    ensures beside { StaysBesideIt path.now P.holds P.lies images.old images.new }
{
    let played = match set_there(images, alloc, path, given, texts) {
        Ok(played) => played,
        Err(fault) => {
            drop(disk);
            return Err(fault);
        }
    };
    if let Err(why) = put_image(images, path, disk, kind, &played.image) {
        return Err(SetFault::Run(of_file(why)));
    }
    match put(writer, &played.text) {
        Ok(()) => Ok(()),
        Err(_) => Err(SetFault::Run(RunFault::Write)),
    }
}

// Sets the fields of the image at the path in memory. What is at the path is only read.
fn set_there<D: Disk + Drop, P: Images<Medium = D>>(
    images: &mut P,
    alloc: Global,
    path: &str,
    given: Option<Schema>,
    texts: &[&str],
) -> Result<Played, SetFault>
    ensures ok { IfOk result (λ played. SetsThere given texts.now (P.holds images.old path.now) played.image.items played.text.items) }
    ensures refused { IfErr result (RefusesThere given texts.now (P.holds images.old path.now)) }
    ensures same { P.holds images.new path.now ≡ P.holds images.old path.now }
    ensures beside { LeavesBesideIt path.now P.holds P.lies images.old images.new }
{
    match images.read(alloc, path) {
        Ok(image) => {
            let played = set_over(alloc, &image, given, texts);
            drop(image);
            played
        }
        Err(why) => {
            drop(given);
            Err(SetFault::Run(of_file(why)))
        }
    }
}

/// Sets the fields of this image in memory, as [`set_at`] says, and gives what the lines leave of it and what they print.
pub fn set_over(
    alloc: Global,
    image: &[u8],
    given: Option<Schema>,
    texts: &[&str],
) -> Result<Played, SetFault>
    // What is left is what the lines of that section, and `log`, `home` and `settle`, leave of exactly this image, none of them
    // refused; and recovery gives of it the heap of this image with just the assigned fields changed.
    ensures ok { IfOk result (λ played. IsSetOver given texts.now image.now played.image.items played.text.items) }
    // A word is refused where it assigns nothing to a field of this image that is persistent, and all others are as of a
    // strict script.
    ensures refused { IfErr result (RefusesToSet given texts.now image.now) }
{
    let mut begins = String::new(alloc);
    let mut heap = Vec::new(alloc);
    let schema = match plan(alloc, image, given, texts, &mut begins, &mut heap) {
        Ok(schema) => schema,
        Err(fault) => {
            drop(begins);
            drop(heap);
            return Err(fault);
        }
    };
    let played = play_plan(alloc, image, schema, &begins, &heap);
    drop(begins);
    drop(heap);
    played
}

// Plays these lines over the image, where recovery gives this heap of what they leave.
fn play_plan(
    alloc: Global,
    image: &[u8],
    schema: Schema,
    lines: &str,
    heap: &[u64],
) -> Result<Played, SetFault>
    ensures ok { IfOk result (λ played. IsPlayedPlan schema lines.now heap.now image.now played.image.items played.text.items) }
    ensures refused { IfErr result (RefusesPlayed schema lines.now image.now) }
{
    let script = lines.as_bytes();
    match play_over(alloc, image, Some(schema), script, Ending::Whole, true) {
        Ok(played) => checked(alloc, played, heap),
        Err(fault) => Err(SetFault::Run(fault)),
    }
}

// What was played, where recovery gives this heap of what it leaves.
fn checked(alloc: Global, played: Played, heap: &[u64]) -> Result<Played, SetFault>
    ensures ok { IfOk result (λ same. (same ≡ played) × HasHeap heap.now played.image.items) }
    ensures refused { IfErr result IsUnchecked }
{
    match has_heap(alloc, &played.image, heap) {
        Ok(true) => Ok(played),
        Ok(false) => {
            drop(played);
            Err(SetFault::OtherHeap)
        }
        Err(AllocError) => {
            drop(played);
            Err(no_memory())
        }
    }
}

// Whether recovery gives this heap of an image.
fn has_heap(alloc: Global, image: &[u8], heap: &[u64]) -> Result<bool, AllocError>
    ensures { IfOk result (λ same. IsTrue same → HasHeap heap.now image.now) }
{
    let mut disk = MemDisk::from_bytes(alloc, image)?;
    let studied = study(alloc, &mut disk);
    drop(disk);
    match studied {
        Ok(study) => {
            let same = study.heap.as_slice() == heap;
            drop(study);
            Ok(same)
        }
        Err(RecoverError::NoMemory) => Err(AllocError),
        Err(_) => Ok(false),
    }
}

// The schema of an image, with the lines that set its fields, and the heap that they are to leave.
fn plan(
    alloc: Global,
    image: &[u8],
    given: Option<Schema>,
    texts: &[&str],
    lines: &mut String,
    heap: &mut Vec<u64>,
) -> Result<Schema, SetFault>
    requires lines { string_bytes lines.old ≡ [] }
    requires heap { heap.old.items ≡ [] }
    ensures ok { IfOk result (λ schema. IsPlanned given texts.now image.now schema (string_bytes lines.new) heap.new.items) }
    ensures refused { IfErr result (RefusesPlan given texts.now image.now) }
{
    let Ok(mut disk) = MemDisk::from_bytes(alloc, image) else {
        drop(given);
        return Err(no_memory());
    };
    let studied = study(alloc, &mut disk);
    drop(disk);
    match studied {
        Ok(study) => {
            let planned = plan_study(alloc, &study, given, texts, lines, heap);
            drop(study);
            planned
        }
        Err(why) => {
            drop(given);
            Err(SetFault::Run(RunFault::Named(refused(why))))
        }
    }
}

// The same of an image that was studied.
fn plan_study(
    alloc: Global,
    study: &Study,
    given: Option<Schema>,
    texts: &[&str],
    lines: &mut String,
    heap: &mut Vec<u64>,
) -> Result<Schema, SetFault>
    requires studied { IsStudied study.now }
    requires lines { string_bytes lines.old ≡ [] }
    requires heap { heap.old.items ≡ [] }
    ensures ok { IfOk result (λ schema. IsPlannedOf given texts.now study.now schema (string_bytes lines.new) heap.new.items) }
    ensures refused { IfErr result (RefusesStudied given texts.now study.now) }
{
    let schema = match schema_for(alloc, study, given) {
        Ok(schema) => schema,
        Err(fault) => return Err(SetFault::Run(RunFault::Named(fault))),
    };
    match plan_lines(alloc, &schema, &study.heap, texts, lines, heap) {
        Ok(()) => Ok(schema),
        Err(fault) => {
            drop(schema);
            Err(fault)
        }
    }
}

// The lines that set fields of this schema, and what they make of this heap.
fn plan_lines(
    alloc: Global,
    schema: &Schema,
    before: &[u64],
    texts: &[&str],
    lines: &mut String,
    heap: &mut Vec<u64>,
) -> Result<(), SetFault>
    requires lines { string_bytes lines.old ≡ [] }
    requires heap { heap.old.items ≡ [] }
    ensures ok { OnOk result (HasSection schema.now before.now texts.now (string_bytes lines.new) heap.new.items) }
    ensures refused { IfErr result (RefusesTexts schema.now texts.now) }
{
    if heap.extend_from_slice(before).is_err() {
        return Err(no_memory());
    }
    let mut ends = String::new(alloc);
    let assigned = assign_all(schema, texts, lines, &mut ends, heap);
    let ended = end(lines, &ends);
    drop(ends);
    match assigned {
        Ok(()) => ended,
        Err(fault) => Err(fault),
    }
}

// Adds these lines, and those that acknowledge them.
fn end(lines: &mut String, ends: &str) -> Result<(), SetFault>
    ensures ok { OnOk result (string_bytes lines.new ≡ string_bytes lines.old ++ (ends.now ++ acknowledging)) }
    ensures memory { IfErr result (λ fault. fault ≡ Run (runs.Named (Image (images.Image NoMemory)))) }
{
    match push_both(lines, ends, ACKNOWLEDGE) {
        Ok(()) => Ok(()),
        Err(AllocError) => Err(no_memory()),
    }
}

fn push_both(lines: &mut String, one: &str, other: &str) -> Result<(), AllocError>
    ensures { OnOk result (string_bytes lines.new ≡ string_bytes lines.old ++ (one.now ++ other.now)) }
{
    lines.push_str(one)?;
    lines.push_str(other)
}

// Adds the lines that assign what these words say, and those that exit the guards, and assigns it in the heap.
fn assign_all(
    schema: &Schema,
    texts: &[&str],
    lines: &mut String,
    ends: &mut String,
    heap: &mut Vec<u64>,
) -> Result<(), SetFault>
    ensures ok { OnOk result (HasAssignments schema.now texts.now (string_bytes lines.old) (string_bytes ends.old) heap.old.items
        (string_bytes lines.new) (string_bytes ends.new) heap.new.items) }
    ensures refused { IfErr result (RefusesTexts schema.now texts.now) }
{
    for (place, text) in texts.iter().enumerate() {
        if let Err(why) = assign(schema, *text, lines, ends, heap) {
            return Err(missed(why, place));
        }
    }
    Ok(())
}

// Why the word at this place assigns nothing.
fn missed(why: Miss, place: usize) -> SetFault
    ensures { result ≡ told_of_miss why place }
{
    match why {
        Miss::Word => SetFault::Word(place),
        Miss::Unknown => SetFault::Unknown(place),
        Miss::Transient => SetFault::Transient(place),
        Miss::NoMemory => no_memory(),
    }
}

fn no_memory() -> SetFault
    ensures { result ≡ Run (runs.Named (Image (images.Image NoMemory))) }
{
    SetFault::Run(RunFault::Named(refused(RecoverError::NoMemory)))
}

// Adds the lines that assign what this word says, and assigns it in the heap.
fn assign(
    schema: &Schema,
    text: &str,
    lines: &mut String,
    ends: &mut String,
    heap: &mut Vec<u64>,
) -> Result<(), Miss>
    ensures ok { OnOk result (IsAssigned schema.now text.now (string_bytes lines.old) (string_bytes ends.old) heap.old.items
        (string_bytes lines.new) (string_bytes ends.new) heap.new.items) }
    ensures refused { IfErr result (Misses schema.now text.now) }
{
    let Some((name, value)) = assignment_in(text) else {
        return Err(Miss::Word);
    };
    let Some(field) = schema.field_named(name) else {
        return Err(Miss::Unknown);
    };
    if schema.transient(field) {
        return Err(Miss::Transient);
    }
    let guard = schema.object_name(schema.guard(field));
    if put_lines(lines, ends, guard, name, value).is_err() {
        return Err(Miss::NoMemory);
    }
    if put_value(heap, field.0 as usize, value) {
        Ok(())
    } else {
        Err(Miss::NoMemory)
    }
}

// Adds the lines that store this value into the field, and the one that exits its guard.
fn put_lines(
    lines: &mut String,
    ends: &mut String,
    guard: &str,
    name: &str,
    value: u64,
) -> Result<(), AllocError>
    ensures lines { OnOk result (string_bytes lines.new ≡ string_bytes lines.old ++ storing guard.now name.now value) }
    ensures ends { OnOk result (string_bytes ends.new ≡ string_bytes ends.old ++ exiting guard.now) }
{
    write!(lines, "t1 enter {guard}\nt1 store {name} {value}\n")?;
    write!(ends, "t1 exit {guard}\n")
}

// Puts the value into the field of the heap, where the heap has it.
fn put_value(heap: &mut Vec<u64>, field: usize, value: u64) -> bool
    ensures { IsTrue result → (field < length heap.old.items) × (heap.new.items ≡ set heap.old.items field value) }
{
    if field >= heap.len() {
        return false;
    }
    heap[field] = value;
    true
}

// What a word assigns, and to which name.
fn assignment_in(text: &str) -> Option<(&str, u64)>
    ensures some { IfSome result (λ assigned. IsAssignment text.now assigned.0.now assigned.1) }
    ensures none { result ≡ None → NoAssignment text.now }
{
    let (name, digits) = text.split_once('=')?;
    let value = digits.parse::<u64>().ok()?;
    Some((name, value))
}
