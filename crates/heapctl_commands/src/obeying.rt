//! What the program's words do.
ghost use Rattle.std.specs.Prelude.{◌≡◌};
ghost use Rattle.heapctl_commands.specs.Beside.{PlaysBeside, Spares};
ghost use Rattle.image_file.specs.Beside.{LeavesBesideIt};
ghost use Rattle.heapctl_commands.specs.Obeying.{DumpsPartOf, Obeys, PlaysAt, PlaysInMemory, kind_asked, told_of_format, told_of_image, told_of_named, told_of_run, told_of_script, told_of_set, told_of_strict, told_of_values};

use crate::driving::drive;
use crate::fault::WorkFault;
use crate::progress::{Progress, rounds_for};
use block_disk::Disk;
use disk_file::BackingFile;
use disk_sector_file::ImageKind;
use disk_sectors::SectorSize;
use heapctl_words::{Kind, Part, Words};
use image::Slot;
use image_file::{
    FormatError, ImageFault, Images, NamedFault, NewImage, Trouble, draw_named_at, dump_at,
    format_at, recover_at, show_at,
};
use image_salvage::{dump_cells_at, dump_slot_at};
use recover::Versions;
use script_images::{
    RunFault, SetFault, StrictFault, ValueFault, get_at, run_at, run_strictly, set_at,
};
use script_lines::ScriptError;
use script_play::run_script;
use std::alloc::Global;
use std::io::{Read, Write};
use std::rt::{Clock, Files};
use std::sync::Wait;
use std::thread::Threads;

/// Does what the words ask for: plays the script that `reader` has, in memory or over an image, works on an image, or lets workers work,
/// and writes what that prints. Images are those of `images`; a schema file is read of `rt`.
/// `names` are those of the fields that are told, or what is assigned to them. `is_telling`: how far workers are is told on standard error,
/// which is a terminal. What the system says of a call on a file that fails is
/// noted as trouble.
pub fn obey<D, P, F, R, S, W>(
    rt: &R,
    images: &mut P,
    is_telling: bool,
    trouble: &Trouble,
    words: Words<'_>,
    names: &[&str],
    reader: &mut S,
    writer: &mut W,
) -> Result<(), WorkFault>
where
    D: Disk + Drop,
    P: Images<Medium = D>,
    F: BackingFile + Read + Drop,
    R: Files<File = F> + AllocGlobal + Clock + Eprint + Threads + Wait + Sync,
    S: Read,
    W: Write,
    // Each word does what it asks for, on the image at the path that it names. What is written is that word's output, and
    // a refusal writes nothing, or a beginning of the text after a fault.
    ensures ends { Obeys D.device words.entry names.now result (P.holds images.old) (P.holds images.new)
        (P.lies images.new) (S.remaining reader.old) (S.remaining reader.new)
        (W.contents writer.old) (W.contents writer.new) }
    // Beside the path that words name nothing is lost: `format` keeps there the image that it replaces, unless it is forced,
    // and all else that was there remains. An image over which a script is played, or whose fields are set, lies as it did.
    ensures beside { Spares words.entry result (P.holds images.old) (P.holds images.new) (P.lies images.old)
        (P.lies images.new) }
{
    let alloc = rt.alloc();
    match words {
        Words::Run {
            image,
            schema,
            is_strict,
        } => play(
            rt, images, trouble, image, schema, is_strict, reader, writer,
        ),
        Words::Get { image, schema } => on_values(get_at(
            rt, images, alloc, trouble, image, schema, names, writer,
        )),
        Words::Set { image, schema } => on_set(set_at(
            rt, images, alloc, trouble, image, schema, names, writer,
        )),
        Words::Format {
            image,
            schema,
            lanes,
            capacity,
            kind,
            is_forced,
        } => {
            let new = NewImage {
                lanes,
                capacity,
                kind: kind_for(kind),
                is_kept: !is_forced,
            };
            on_format(format_at(rt, images, alloc, trouble, image, schema, new, writer))
        }
        Words::Show { image, .. } => on_image(show_at(images, alloc, image, writer)),
        Words::Draw {
            image,
            last,
            schema,
        } => on_named(draw_named_at(rt, images, alloc, trouble, image, schema, last, writer)),
        Words::Dump {
            image,
            schema,
            part,
        } => dump(rt, images, trouble, image, schema, part, writer),
        Words::Recover { image } => {
            on_image(recover_at(images, alloc, Versions::Current, image, writer))
        }
        Words::Upgrade { image } => {
            on_image(recover_at(images, alloc, Versions::Both, image, writer))
        }
        Words::Drive {
            workers,
            rounds,
            seconds,
            image,
        } => {
            let rounds = rounds_for(rounds, seconds);
            let progress = Progress::new(rt, is_telling, workers, rounds, seconds);
            let driven = drive(rt, images, &progress, workers, rounds, image, writer);
            drop(progress);
            driven
        }
    }
}

// How an image lies that words ask for. They take none of no kind.
fn kind_for(asked: Kind) -> ImageKind
    ensures { result ≡ kind_asked asked }
{
    match asked {
        Kind::Plain => ImageKind::Plain,
        Kind::Placed | Kind::OtherSectors => ImageKind::Placed(SectorSize::Bytes4096),
        Kind::Journaled | Kind::Both => ImageKind::Journaled,
    }
}

// Dumps these values of the image at this path. Words that aren't clear ask for what `dump` alone does.
fn dump<D, P, F, R, W>(
    rt: &R,
    images: &mut P,
    trouble: &Trouble,
    image: &str,
    schema: Option<&str>,
    part: Part,
    writer: &mut W,
) -> Result<(), WorkFault>
where
    D: Disk + Drop,
    P: Images<Medium = D>,
    F: Read + Drop,
    R: Files<File = F> + AllocGlobal,
    W: Write,
    ensures ends { DumpsPartOf part schema.entry result (P.holds images.old image.now)
        (P.holds images.new image.now) (W.contents writer.old) (W.contents writer.new) }
    ensures beside { LeavesBesideIt image.now P.holds P.lies images.old images.new }
{
    let alloc = rt.alloc();
    match part {
        Part::Heap | Part::Unclear => {
            on_named(dump_at(rt, images, alloc, trouble, image, schema, writer))
        }
        Part::Cells => on_named(dump_cells_at(rt, images, alloc, trouble, image, schema, writer)),
        Part::SlotA => on_named(dump_slot_at(
            rt,
            images,
            alloc,
            trouble,
            image,
            Slot::A,
            schema,
            writer,
        )),
        Part::SlotB => on_named(dump_slot_at(
            rt,
            images,
            alloc,
            trouble,
            image,
            Slot::B,
            schema,
            writer,
        )),
    }
}

// Plays the script over the image at this path, or, where none is named, in memory.
fn play<D, P, F, R, S, W>(
    rt: &R,
    images: &mut P,
    trouble: &Trouble,
    image: Option<&str>,
    schema: Option<&str>,
    is_strict: bool,
    reader: &mut S,
    writer: &mut W,
) -> Result<(), WorkFault>
where
    D: Disk + Drop,
    P: Images<Medium = D>,
    F: Read + Drop,
    R: Files<File = F> + AllocGlobal,
    S: Read,
    W: Write,
    ensures ends { PlaysAt image.entry schema.entry is_strict result (P.holds images.old) (P.holds images.new)
        (S.remaining reader.old) (S.remaining reader.new) (W.contents writer.old)
        (W.contents writer.new) }
    ensures beside { PlaysBeside image.entry (P.holds images.old) (P.holds images.new) (P.lies images.old)
        (P.lies images.new) }
{
    let alloc = rt.alloc();
    match image {
        Some(path) => on_run(run_at(
            rt, images, alloc, trouble, path, schema, is_strict, reader, writer,
        )),
        None => play_in_memory(alloc, is_strict, reader, writer),
    }
}

// Plays the script in memory, up to the first refused line where it is strict.
fn play_in_memory<S: Read, W: Write>(
    alloc: Global,
    is_strict: bool,
    reader: &mut S,
    writer: &mut W,
) -> Result<(), WorkFault>
    ensures { PlaysInMemory is_strict result (S.remaining reader.old) (S.remaining reader.new)
        (W.contents writer.old) (W.contents writer.new) }
{
    if is_strict {
        on_strict(run_strictly(alloc, reader, writer))
    } else {
        on_script(run_script(alloc, reader, writer))
    }
}

// How the run of a script over an image file ended.
fn on_run(answer: Result<(), RunFault>) -> Result<(), WorkFault>
    ensures { result ≡ told_of_run answer }
{
    match answer {
        Ok(()) => Ok(()),
        Err(RunFault::Named(fault)) => Err(WorkFault::Named(fault)),
        Err(RunFault::Script(error)) => Err(WorkFault::Script(error)),
        Err(RunFault::Refused(line, why)) => {
            Err(WorkFault::Strict(StrictFault::Refused(line, why)))
        }
        Err(RunFault::Write) => Err(WorkFault::Write),
    }
}

// How the run of a script ended.
fn on_script(answer: Result<(), ScriptError>) -> Result<(), WorkFault>
    ensures { result ≡ told_of_script answer }
{
    match answer {
        Ok(()) => Ok(()),
        Err(error) => Err(WorkFault::Script(error)),
    }
}

// How a strict run of a script ended.
fn on_strict(answer: Result<(), StrictFault>) -> Result<(), WorkFault>
    ensures { result ≡ told_of_strict answer }
{
    match answer {
        Ok(()) => Ok(()),
        Err(error) => Err(WorkFault::Strict(error)),
    }
}

// How telling of values ended.
fn on_values(answer: Result<(), ValueFault>) -> Result<(), WorkFault>
    ensures { result ≡ told_of_values answer }
{
    match answer {
        Ok(()) => Ok(()),
        Err(error) => Err(WorkFault::Values(error)),
    }
}

// How setting fields ended.
fn on_set(answer: Result<(), SetFault>) -> Result<(), WorkFault>
    ensures { result ≡ told_of_set answer }
{
    match answer {
        Ok(()) => Ok(()),
        Err(error) => Err(WorkFault::Set(error)),
    }
}

// How the making of an image file ended.
fn on_format(answer: Result<(), FormatError>) -> Result<(), WorkFault>
    ensures { result ≡ told_of_format answer }
{
    match answer {
        Ok(()) => Ok(()),
        Err(error) => Err(WorkFault::Format(error)),
    }
}

// How work on an image file ended.
fn on_image(answer: Result<(), ImageFault>) -> Result<(), WorkFault>
    ensures { result ≡ told_of_image answer }
{
    match answer {
        Ok(()) => Ok(()),
        Err(error) => Err(WorkFault::Image(error)),
    }
}

// How telling of an image file by the names of a schema file ended.
fn on_named(answer: Result<(), NamedFault>) -> Result<(), WorkFault>
    ensures { result ≡ told_of_named answer }
{
    match answer {
        Ok(()) => Ok(()),
        Err(error) => Err(WorkFault::Named(error)),
    }
}
