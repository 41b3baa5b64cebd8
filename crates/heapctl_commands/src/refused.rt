//! What is told of an image, a schema file and a script that are refused.

use crate::forms::{DECLARATIONS, LINES, text_of_line};
use crate::system_errors::{Path, is_wrong_path, tell, tell_cause};
use disk_file::BackingFile;
use disk_sector_file::{has_label, label_of};
use image_file::Trouble;
use recover::RecoverError;
use script_declarations::{SchemaFault, SchemaFaultKind};
use script_images::{Refusal, refusal_text};
use script_lines::{ScriptError, ScriptErrorKind};
use std::fs;
use std::io::Read;
use std::os::unix::fs::FileTypeExt;
use std::rt::Files;

// How many bytes a label has (docs/FORMAT.md).
const LABEL_BYTES: usize = 24;

/// Tells why an image is refused, and what mends it.
pub(crate) fn tell_refused_image<F, R>(rt: &R, image: &str, why: &RecoverError)
where
    F: BackingFile + Read + Drop,
    R: Files<File = F> + Eprint,
{
    if *why == RecoverError::NotFormatted {
        if is_cut_short(rt, image) {
            tell(
                rt,
                image,
                "it has fewer bytes than its label says: it was cut short; restore it from a copy",
            );
            return;
        }
        if is_wrong_path(rt, image) {
            return;
        }
    }
    tell(rt, image, refused_text(why));
}

/// Whether the file or the block device at this path begins with an image's label, and has fewer bytes than that counts.
pub(crate) fn is_cut_short<F, R>(rt: &R, image: &str) -> bool
where
    F: BackingFile + Read + Drop,
    R: Files<File = F>,
{
    // To open a pipe may take for ever.
    match rt.metadata(image) {
        Ok(metadata) if metadata.is_file() || metadata.file_type().is_block_device() => {}
        _ => return false,
    }
    let Ok(mut file) = fs::open(rt, image) else {
        return false;
    };
    let is_short = lacks_bytes(&mut file);
    drop(file);
    is_short
}

fn lacks_bytes<F: BackingFile>(file: &mut F) -> bool {
    let mut head = [0; LABEL_BYTES];
    if file.read_from(0, &mut head).is_err() || !has_label(&head) {
        return false;
    }
    match label_of(file) {
        Ok(label) => label.is_none(),
        Err(_) => false,
    }
}

fn refused_text(why: &RecoverError) -> &'static str {
    match why {
        RecoverError::Fault => "a call has failed",
        RecoverError::NoMemory => "there is no memory for it",
        RecoverError::NotFormatted => {
            "it doesn't begin as an image, or its making was cut off; 'heapctl format' and 'heapctl drive' make images"
        }
        RecoverError::BadHeader => {
            "a number of its header or of a guard row is out of its limits: it is damaged; restore it from a copy"
        }
        RecoverError::TooSmall => {
            "it has fewer bytes than its header says: it was cut short; restore it from a copy"
        }
        RecoverError::NoControl => {
            "the gates of both control slots are closed: it is damaged; restore it from a copy, or see what 'heapctl dump --cells' tells"
        }
        RecoverError::BadControl => {
            "no control slot counts: it is damaged; restore it from a copy, or see what 'heapctl dump --slot' and '--cells' tell"
        }
        RecoverError::OldVersion => {
            "it is of version 1; 'heapctl upgrade' makes it one of version 2, in place, and keeps its heap"
        }
        RecoverError::Worn => {
            "its control's sequence is at its last number; 'heapctl dump' it, and 'heapctl format' another of that schema file"
        }
        RecoverError::BadRecord { .. } => {
            "a record of that thread, at that place of its log, can't be read: it is damaged; restore it from a copy, or see what 'heapctl dump --slot' and '--cells' tell"
        }
        RecoverError::IllegalLog { .. } => {
            "no threads can have left that thread's log, from that place on: it is damaged; restore it from a copy, or see what 'heapctl dump --slot' and '--cells' tell"
        }
    }
}

/// Tells why a schema file is refused, and what mends it: of a line that has no form its text, where the file can be read again.
pub(crate) fn tell_refused_schema<F, R>(rt: &R, schema: &str, fault: &SchemaFault)
where
    F: Read + Drop,
    R: Files<File = F> + Eprint + AllocGlobal,
{
    if fault.why == SchemaFaultKind::Syntax && is_line_told(rt, schema, fault.line) {
        return;
    }
    tell(rt, schema, schema_text(fault.why));
}

// Tells of this line of a schema file; whether it could be told.
fn is_line_told<F, R>(rt: &R, schema: &str, line: u64) -> bool
where
    F: Read + Drop,
    R: Files<File = F> + Eprint + AllocGlobal,
{
    // What a pipe had was read.
    match rt.metadata(schema) {
        Ok(metadata) if metadata.is_file() => {}
        _ => return false,
    }
    let Ok(text) = fs::read(rt, schema) else {
        return false;
    };
    let told = text_of_line(rt.alloc(), &text, line, DECLARATIONS);
    drop(text);
    match told {
        Some(told) => {
            tell(rt, schema, told.as_str());
            drop(told);
            true
        }
        None => false,
    }
}

fn schema_text(why: SchemaFaultKind) -> &'static str {
    match why {
        SchemaFaultKind::Syntax => {
            "that line is no 'object NAME', no 'field NAME OWNER GUARD VALUE' and no 'transient NAME OWNER GUARD VALUE'; mend it"
        }
        SchemaFaultKind::NotText => "that line has a byte past ASCII; take it out",
        SchemaFaultKind::TooLong => "that line, or the file, is too long; shorten it",
        SchemaFaultKind::Read => "it can't be read to its end",
        SchemaFaultKind::Memory => "there is no memory for it",
        SchemaFaultKind::Empty =>
            "it declares no object, or no field; declare one of each at least",
        SchemaFaultKind::DoubleName => "that line declares a name that is taken; choose another",
        SchemaFaultKind::Unknown => {
            "that line names an object that no line before it declares; declare it first"
        }
        SchemaFaultKind::TooMany => {
            "that line declares more objects or fields than a heap may have, 16384 fields and 4096 objects; leave some out"
        }
    }
}

/// Tells why a script has stopped, and what mends it. `script` is what was read of a strict one.
pub(crate) fn tell_stopped_script<R: Files + Eprint + AllocGlobal>(
    rt: &R,
    error: &ScriptError,
    script: &[u8],
    trouble: &Trouble,
) {
    let text = match error.kind {
        ScriptErrorKind::Syntax => {
            tell_line(rt, script, error.line);
            return;
        }
        ScriptErrorKind::NotText => "that line has a byte past ASCII; take it out",
        ScriptErrorKind::TooLong => "that line, or the script, is too long; shorten it",
        ScriptErrorKind::Read => "it can't be read to its end",
        ScriptErrorKind::Memory => "there is no memory for it",
        ScriptErrorKind::Write => {
            tell_output(rt, trouble);
            return;
        }
    };
    tell(rt, "standard input", text);
}

// Tells of a line that has no form. The fixed text of such a fault is one line, but for a strict script (docs/SCRIPTS.md, "The program's
// fault texts").
fn tell_line<R: Eprint + AllocGlobal>(rt: &R, script: &[u8], line: u64) {
    if let Some(told) = text_of_line(rt.alloc(), script, line, LINES) {
        tell(rt, "standard input", told.as_str());
        drop(told);
    }
}

/// Tells what a refused line prints that ends a strict script.
pub(crate) fn tell_refused_line<R: Eprint + AllocGlobal>(rt: &R, why: Refusal) {
    if let Ok(text) = refusal_text(rt.alloc(), why) {
        let _ = eprintln!(rt;
            "heapctl: standard input: that line prints '{text}', and a refused line ends a strict script; mend it, or leave '--strict' out"
        );
        drop(text);
    }
}

// Tells why the output can't be written.
fn tell_output<R: Files + Eprint>(rt: &R, trouble: &Trouble) {
    if let Some((place, error)) = trouble.cause() {
        let path = Path {
            image: "",
            schema: "",
            place,
        };
        tell_cause(rt, &path, &error);
    }
}
