//! What is told behind the first line of a fault: which file, why, and what mends it.
//!
//! The first line is fixed (docs/SCRIPTS.md, "The program's fault texts").

use crate::fault::WorkFault;
use crate::head::{Head, read_head, tell_slots};
use crate::holder::holder_of;
use crate::refused::{
    is_cut_short, tell_refused_image, tell_refused_line, tell_refused_schema, tell_stopped_script,
};
use crate::system_errors::{Path, is_wrong_path, tell, tell_cause};
use crate::values::{tell_other_heap, tell_transient, tell_unknown, tell_wrong_word};
use disk_file::{BackingFile, VolatileDisk};
use disk_sector_file::whole_image;
use heapctl_words::{Part, Words};
use image::Layout;
use image_file::{FileFault, FormatError, ImageFault, KEPT, NamedFault, Place, Trouble};
use recover::RecoverError;
use script_images::{RunFault, SetFault, StrictFault, ValueFault};
use std::alloc::Global;
use std::fs;
use std::io::{ErrorKind, Read};
use std::rt::Files;
use thread_drive::DriveError;

/// Whether the fault is that nobody reads the output any more, of which nothing is told.
pub fn is_left_by_reader(trouble: &Trouble) -> bool {
    match trouble.cause() {
        Some((Place::Output, Some(error))) => error.kind() == ErrorKind::BrokenPipe,
        _ => false,
    }
}

/// Tells on standard error, behind the fault's first line, which file it is about, what the system says, and what mends it. A line that
/// can't be written is left out. `names` are those that the words name beside the files, and `script` is what was read of a strict script.
pub fn explain<F, R>(
    rt: &R,
    words: &Words<'_>,
    names: &[&str],
    script: &[u8],
    fault: &WorkFault,
    trouble: &Trouble,
)
where
    F: BackingFile + Read + Drop,
    R: Files<File = F> + Eprint + AllocGlobal,
{
    let image = image_of(words);
    match fault {
        WorkFault::Script(error) | WorkFault::Strict(StrictFault::Script(error)) => {
            tell_stopped_script(rt, error, script, trouble);
        }
        WorkFault::Strict(StrictFault::Refused(_, why)) => tell_refused_line(rt, *why),
        WorkFault::Values(ValueFault::Unknown(place)) => tell_unknown(rt, image, names, *place),
        WorkFault::Values(ValueFault::Named(fault)) | WorkFault::Named(fault) => {
            explain_named(rt, words, fault, trouble);
        }
        WorkFault::Set(fault) => explain_set(rt, words, names, fault, trouble),
        WorkFault::Format(FormatError::Schema(refused)) => {
            tell_refused_schema(rt, schema_of(words), refused);
        }
        WorkFault::Image(ImageFault::InUse)
        | WorkFault::Format(FormatError::InUse)
        | WorkFault::File(FileFault::InUse) => tell_in_use(rt, image),
        WorkFault::Format(FormatError::NotImage) | WorkFault::File(FileFault::NotImage) => {
            tell_not_image(rt, image);
        }
        WorkFault::Image(ImageFault::Image(why)) | WorkFault::Drive(DriveError::Recover(why)) => {
            explain_refused(rt, words, image, why, trouble);
        }
        WorkFault::Drive(DriveError::OtherSchema) => tell_other(rt, words, image),
        _ => explain_call(rt, words, trouble),
    }
}

/// Tells that an image which was there is kept beside the new one, where the words have made one and it is.
pub fn tell_kept<R: Files + Eprint>(rt: &R, words: &Words<'_>, was_there: bool) {
    if let Words::Format {
        image,
        is_forced: false,
        ..
    } = words
    {
        if was_there {
            let _ = eprintln!(rt;
                "heapctl: {image}: the image that was there is {image}{KEPT} now; with '--force' none is kept"
            );
        }
    }
}

/// Tells that what was dumped of a damaged image needn't be the values of one moment, where the words have asked for that.
pub fn tell_salvaged<R: Eprint>(rt: &R, words: &Words<'_>) {
    let Words::Dump { image, part, .. } = words else {
        return;
    };
    let told = match part {
        Part::Heap | Part::Unclear => return,
        Part::Cells => {
            "these are the values of its home cells, which needn't be those of one moment"
        }
        Part::SlotA => {
            "this is the heap by its control slot a, which needn't be that of one moment"
        }
        Part::SlotB => {
            "this is the heap by its control slot b, which needn't be that of one moment"
        }
    };
    tell(rt, image, told);
}

/// Whether there is something at the path of the image that the words are to make.
pub fn is_something_there<R: Files>(rt: &R, words: &Words<'_>) -> bool {
    match words {
        Words::Format { image, .. } => match rt.metadata(image) {
            Ok(metadata) => metadata.len() > 0,
            Err(_) => false,
        },
        _ => false,
    }
}

// Fields that aren't set.
fn explain_set<F, R>(rt: &R, words: &Words<'_>, names: &[&str], fault: &SetFault, trouble: &Trouble)
where
    F: BackingFile + Read + Drop,
    R: Files<File = F> + Eprint + AllocGlobal,
{
    let image = image_of(words);
    match fault {
        SetFault::Word(place) => tell_wrong_word(rt, names, *place),
        SetFault::Unknown(place) => tell_unknown(rt, image, names, *place),
        SetFault::Transient(place) => tell_transient(rt, image, names, *place),
        SetFault::OtherHeap => tell_other_heap(rt, image),
        SetFault::Run(RunFault::Named(fault)) => explain_named(rt, words, fault, trouble),
        SetFault::Run(RunFault::Refused(_, why)) => tell_refused_line(rt, *why),
        SetFault::Run(_) => explain_call(rt, words, trouble),
    }
}

// An image or a schema file that is refused, or that can't be had.
fn explain_named<F, R>(rt: &R, words: &Words<'_>, fault: &NamedFault, trouble: &Trouble)
where
    F: BackingFile + Read + Drop,
    R: Files<File = F> + Eprint + AllocGlobal,
{
    let image = image_of(words);
    match fault {
        NamedFault::Schema(refused) => tell_refused_schema(rt, schema_of(words), refused),
        NamedFault::OtherSchema => tell_other_schema(rt, words, image),
        NamedFault::Image(ImageFault::InUse) => tell_in_use(rt, image),
        NamedFault::Image(ImageFault::Image(why)) => {
            explain_refused(rt, words, image, why, trouble);
        }
    }
}

// Another process has the image.
fn tell_in_use<F, R>(rt: &R, image: &str)
where
    F: Read + Drop,
    R: Files<File = F> + Eprint + AllocGlobal,
{
    match holder_of(rt, image) {
        Some(process) => {
            let _ = eprintln!(rt; "heapctl: {image}: process {process} has it; wait until it ends");
        }
        None => tell(rt, image, "another process has it; wait until it ends"),
    }
    tell(
        rt,
        image,
        "a heap in use is copied by the program that has it (zelamiku_heap_copy, or copy_to in Rust and Python), and its copy can be shown",
    );
}

// An image that is refused, or that can't be had.
fn explain_refused<F, R>(
    rt: &R,
    words: &Words<'_>,
    image: &str,
    why: &RecoverError,
    trouble: &Trouble,
)
where
    F: BackingFile + Read + Drop,
    R: Files<File = F> + Eprint + AllocGlobal,
{
    match why {
        RecoverError::Fault | RecoverError::NoMemory => explain_call(rt, words, trouble),
        RecoverError::NoControl
        | RecoverError::BadControl
        | RecoverError::BadRecord { .. }
        | RecoverError::IllegalLog { .. }
            if is_by_slot(words) => {
            tell(
                rt,
                image,
                "by that control slot it can't be recovered; try the other one, or '--cells'",
            );
            tell_head(rt, image);
        }
        RecoverError::BadHeader
        | RecoverError::NoControl
        | RecoverError::BadControl
        | RecoverError::BadRecord { .. }
        | RecoverError::IllegalLog { .. } => {
            tell_refused_image(rt, image, why);
            tell_head(rt, image);
        }
        _ => tell_refused_image(rt, image, why),
    }
}

// The words ask for the heap by one slot of the control.
fn is_by_slot(words: &Words<'_>) -> bool {
    match words {
        Words::Dump {
            part: Part::SlotA | Part::SlotB,
            ..
        } => true,
        _ => false,
    }
}

// Tells what can still be read of an image that is refused: its header, what both slots of its control hold, and the lanes.
fn tell_head<F, R>(rt: &R, image: &str)
where
    F: BackingFile + Read + Drop,
    R: Files<File = F> + Eprint + AllocGlobal,
{
    if let Some(head) = head_of(rt, rt.alloc(), image) {
        tell_header(rt, image, &head.layout);
        tell_slots(rt, image, &head);
    }
}

fn tell_header<R: Eprint>(rt: &R, image: &str, layout: &Layout) {
    let (lanes, capacity) = (layout.lanes, layout.capacity);
    let (objects, fields) = (layout.objects, layout.fields);
    let _ = eprintln!(rt;
        "heapctl: {image}: its header can be read: {lanes} lanes of {capacity} records, {objects} objects and {fields} fields"
    );
}

// What the first call that failed was about, and what the system says of it.
fn explain_call<R: Files + Eprint>(rt: &R, words: &Words<'_>, trouble: &Trouble) {
    if let Some((place, error)) = trouble.cause() {
        let path = Path {
            image: image_of(words),
            schema: schema_of(words),
            place,
        };
        tell_cause(rt, &path, &error);
    }
}

// What is at the path is no image and no empty file.
fn tell_not_image<F, R>(rt: &R, image: &str)
where
    F: BackingFile + Read + Drop,
    R: Files<File = F> + Eprint,
{
    if is_cut_short(rt, image) {
        tell(
            rt,
            image,
            "it has fewer bytes than its label says: it was cut short; restore it from a copy, or name another file",
        );
    } else if !is_wrong_path(rt, image) {
        tell(
            rt,
            image,
            "it has bytes and doesn't begin as an image, so it is neither used nor replaced; name another file, or remove it",
        );
    }
}

// Tells of an image that isn't of the schema that the words name.
fn tell_other_schema<R: Eprint>(rt: &R, words: &Words<'_>, image: &str) {
    let schema = schema_of(words);
    let _ = eprintln!(rt;
        "heapctl: {image}: it hasn't the objects and fields of {schema}; name the schema file that it was made of, or none"
    );
}

// The file that the words name as their image; none in memory.
fn image_of<'a>(words: &Words<'a>) -> &'a str {
    match words {
        Words::Get { image, .. }
        | Words::Set { image, .. }
        | Words::Format { image, .. }
        | Words::Show { image, .. }
        | Words::Draw { image, .. }
        | Words::Dump { image, .. }
        | Words::Recover { image }
        | Words::Upgrade { image } => *image,
        Words::Drive { image, .. } | Words::Run { image, .. } => image.unwrap_or("memory"),
    }
}

// The file that the words name as the schema.
fn schema_of<'a>(words: &Words<'a>) -> &'a str {
    match words {
        Words::Format { schema, .. } => *schema,
        Words::Draw { schema, .. }
        | Words::Dump { schema, .. }
        | Words::Get { schema, .. }
        | Words::Set { schema, .. }
        | Words::Run { schema, .. } => schema.unwrap_or(""),
        _ => "",
    }
}

// What an image file begins with, where its header can be read.
fn head_of<F, R>(rt: &R, alloc: Global, image: &str) -> Option<Head>
where
    F: BackingFile + Read + Drop,
    R: Files<File = F>,
{
    let file = match fs::open(rt, image) {
        Ok(file) => file,
        Err(_) => return None,
    };
    let bytes = match whole_image(alloc, file) {
        Ok(bytes) => bytes,
        Err(_) => return None,
    };
    let mut disk = VolatileDisk::holding(bytes);
    let head = read_head(&mut disk);
    drop(disk);
    head
}

// Tells of an image that isn't one of so many workers whose it is.
fn tell_other<F, R>(rt: &R, words: &Words<'_>, image: &str)
where
    F: BackingFile + Read + Drop,
    R: Files<File = F> + Eprint + AllocGlobal,
{
    let Words::Drive { workers, .. } = words else {
        return;
    };
    let Some(head) = head_of(rt, rt.alloc(), image) else {
        return;
    };
    let layout = head.layout;
    let (lanes, objects, fields) = (layout.lanes, layout.objects, layout.fields);
    // So many workers have an object and a field each and one more, and a lane each; the helper may have one of its own.
    let others = objects.saturating_sub(1);
    let has_lanes = u32::from(lanes) == others || u32::from(lanes) == objects;
    if others > 0 && has_lanes && fields == objects && others != u32::from(*workers) {
        let _ = eprintln!(rt;
            "heapctl: {image}: it is an image of {others} workers, not of {workers}; type --workers {others}"
        );
    } else {
        let _ = eprintln!(rt;
            "heapctl: {image}: it has {lanes} lanes, {objects} objects and {fields} fields, and isn't one of {workers} workers; name another file"
        );
    }
}
