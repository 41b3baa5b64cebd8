//! The program's exit statuses.
ghost use Rattle.std.specs.Prelude.{◌≡◌};
ghost use Rattle.heapctl_commands.specs.Status.{status_for, status_for_fault, status_for_file, status_for_format, status_for_image, status_for_named, status_for_run, status_for_set, status_for_strict, status_for_values};

use crate::fault::WorkFault;
use image_file::{FileFault, FormatError, ImageFault, NamedFault};
use script_images::{RunFault, SetFault, StrictFault, ValueFault};
use script_lines::ScriptErrorKind;

/// Wrong words, a refused schema file, or a script that can't be played to its end.
pub const WRONG_INPUT: u8 = 2;

/// What is the fault of neither the caller nor a text: reading, writing, memory.
pub const FAULT: u8 = 1;

/// Another process has the image.
pub const IN_USE: u8 = 3;

// The status for a script that ended with such an error.
fn status_of(kind: ScriptErrorKind) -> u8
    ensures { result ≡ status_for kind }
{
    match kind {
        ScriptErrorKind::Syntax | ScriptErrorKind::NotText | ScriptErrorKind::TooLong => {
            WRONG_INPUT
        }
        ScriptErrorKind::Read | ScriptErrorKind::Write | ScriptErrorKind::Memory => FAULT,
    }
}

// The status where no image was made.
fn status_of_format(error: &FormatError) -> u8
    ensures { result ≡ status_for_format error.now }
{
    match error {
        FormatError::Schema(_) => WRONG_INPUT,
        FormatError::InUse => IN_USE,
        FormatError::BadHeader
        | FormatError::Fault
        | FormatError::NoMemory
        | FormatError::NotImage => FAULT,
    }
}

// The status where an image isn't shown or recovered.
fn status_of_image(fault: &ImageFault) -> u8
    ensures { result ≡ status_for_image fault.now }
{
    match fault {
        ImageFault::InUse => IN_USE,
        ImageFault::Image(_) => FAULT,
    }
}

// The status where an image isn't drawn or dumped by the names of a schema file.
fn status_of_named(fault: &NamedFault) -> u8
    ensures { result ≡ status_for_named fault.now }
{
    match fault {
        NamedFault::Image(fault) => status_of_image(fault),
        NamedFault::Schema(_) => WRONG_INPUT,
        NamedFault::OtherSchema => FAULT,
    }
}

// The status where a script wasn't played over an image file.
fn status_of_run(fault: &RunFault) -> u8
    ensures { result ≡ status_for_run fault.now }
{
    match fault {
        RunFault::Named(fault) => status_of_named(fault),
        RunFault::Script(error) => status_of(error.kind),
        RunFault::Refused(..) | RunFault::Write => FAULT,
    }
}

// The status where a strict script stopped.
fn status_of_strict(fault: &StrictFault) -> u8
    ensures { result ≡ status_for_strict fault.now }
{
    match fault {
        StrictFault::Script(error) => status_of(error.kind),
        StrictFault::Refused(..) => FAULT,
    }
}

// The status where values weren't told.
fn status_of_values(fault: &ValueFault) -> u8
    ensures { result ≡ status_for_values fault.now }
{
    match fault {
        ValueFault::Named(fault) => status_of_named(fault),
        ValueFault::Unknown(_) => WRONG_INPUT,
        ValueFault::Write => FAULT,
    }
}

// The status where fields weren't set.
fn status_of_set(fault: &SetFault) -> u8
    ensures { result ≡ status_for_set fault.now }
{
    match fault {
        SetFault::Word(_) | SetFault::Unknown(_) | SetFault::Transient(_) => WRONG_INPUT,
        SetFault::OtherHeap => FAULT,
        SetFault::Run(fault) => status_of_run(fault),
    }
}

// The status where an image file isn't had.
fn status_of_file(fault: FileFault) -> u8
    ensures { result ≡ status_for_file fault }
{
    match fault {
        FileFault::InUse => IN_USE,
        FileFault::Fault | FileFault::NoMemory | FileFault::NotImage => FAULT,
    }
}

/// The status where what the words ask for wasn't done.
pub fn status_of_fault(fault: &WorkFault) -> u8
    // The exit status is 2 for what the words, the script or the schema file have, 3 where another process has the image,
    // and 1 for every other fault: a strict script's refused line too.
    ensures { result ≡ status_for_fault fault.now }
{
    match fault {
        WorkFault::Script(error) => status_of(error.kind),
        WorkFault::Strict(error) => status_of_strict(error),
        WorkFault::Values(error) => status_of_values(error),
        WorkFault::Set(error) => status_of_set(error),
        WorkFault::Format(error) => status_of_format(error),
        WorkFault::Image(error) => status_of_image(error),
        WorkFault::Named(error) => status_of_named(error),
        WorkFault::File(error) => status_of_file(*error),
        WorkFault::Drive(_) | WorkFault::Write => FAULT,
    }
}
