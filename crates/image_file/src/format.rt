//! Making an image for the schema of a file.
ghost use Rattle.std.specs.Prelude.{◌≡◌, [], IfErr, IfOk, OnErr, OnOk};
ghost use Rattle.std.specs.Io.KnownBytes.{Appends};
ghost use Rattle.script_declarations.specs.SchemaFiles.{DeclaresSchema};
ghost use Rattle.image_parts.specs.Layout.{size_of};
ghost use Rattle.inspect.specs.Written.{AppendsPart};
ghost use Rattle.image_file.specs.declared.error.FormatError.TheVariants.{BadHeader, Fault};
ghost use Rattle.store_image.specs.Formatting.{AreLimits, layout_with};
ghost use Rattle.image_file.specs.Beside.{MakesBeside, LeavesBesideIt};
ghost use Rattle.image_file.specs.Images.{AtPath, IsThere};
ghost use Rattle.image_file.specs.Formatting.{FormatsAt, IsBeforeFile, IsImageFor, IsSilent, LiesSo, MakesAt, MayBeMade, MayBlameNumbers, PrintsLess, PrintsLessOf, PrintsSize, RefusesImage, StaysOrIsMade, formatted_line, told_of_schema};

use crate::error::{FileFault, FormatError};
use crate::images::Images;
use crate::new_image::NewImage;
use crate::trouble::{Place, Trouble};
use crate::watched::Watched;
use block_disk::Disk;
use durable::Store;
use guards::Schema;
use image::{ImageError, Layout};
use inspect::{Piece, WriteError, put_line};
use script_declarations::{SchemaFault, read_schema};
use std::alloc::Global;
use std::fs;
use std::io::{Read, Write};
use std::rt::Files;

/// Makes an image at a path for the schema that `reader` has, and writes `formatted` and the image's size.
///
/// Refusals, in this order:
/// - `Schema`: the schema is refused; `Fault` or `NoMemory` where it could not be read;
/// - those of [`make_image`];
/// - `Fault`: the line was not written whole. The image is in its place, and a beginning of the line is written.
pub fn format_image<D: Disk + Drop, P: Images<Medium = D>, S: Read, W: Write>(
    images: &mut P,
    alloc: Global,
    path: &str,
    reader: &mut S,
    new: NewImage,
    writer: &mut W,
) -> Result<(), FormatError>
    // The image is made for the schema that the file declares, with so many lanes of so many records.
    ensures ok { OnOk result (FormatsAt (DeclaresSchema (S.remaining reader.old) (S.remaining reader.new)) new (P.holds images.new path.now) (P.lies images.new path.now)
        (W.contents writer.old) (W.contents writer.new)) }
    // A refusal leaves the old image at the path, or a whole new one of some schema.
    ensures kept { OnErr result (AtPath (MayBeMade new) P.holds images.old images.new path.now) }
    // An image is refused for what is wrong with the schema file or the numbers, or by what its maker answers.
    ensures refused { IfErr result
        (λ error. RefusesImage (S.remaining reader.old) (S.remaining reader.new) new.lanes
        new.capacity error) }
    // A refused schema, and numbers past their limits, leave everything untouched.
    ensures untouched { IfErr result (λ error. IsBeforeFile error → images.new ≡ images.old) }
    // Where no image is made nothing is written, unless a fault came.
    ensures silent { IfErr result
        (λ error. IsSilent error → Appends (W.contents writer.old) (W.contents writer.new) []) }
    // After a fault nothing is written, or a beginning of the size's line.
    ensures part { OnErr result (PrintsLessOf (DeclaresSchema (S.remaining reader.old) (S.remaining reader.new)) new.lanes new.capacity
        (W.contents writer.old) (W.contents writer.new)) }
    // Nothing beside the path is lost: an image that is replaced is kept where it is to be, and else what was kept before
    // remains.
    ensures beside { MakesBeside new.is_kept result path.now (P.holds images.old) (P.holds images.new) }
{
    let schema = match read_schema(alloc, reader) {
        Ok(schema) => schema,
        Err(fault) => return Err(told(fault)),
    };
    let tried = make_image(images, alloc, path, &schema, new);
    drop(schema);
    let (disk, layout) = match tried {
        Ok(made) => made,
        Err(error) => return Err(error),
    };
    drop(disk);
    match print_size(layout.size(), writer) {
        Ok(()) => Ok(()),
        Err(error) => Err(error),
    }
}

/// Makes an image for this schema of a disk that is made for it, and puts it in the place of what is at the path. Its disk is given, and its
/// layout.
///
/// Refusals, in this order:
/// - `BadHeader`: `lanes` isn't 1 to 32, or `capacity` isn't 2,000 to 1,048,576. No disk was asked for until here;
/// - `InUse`, `NotImage`, `Fault` and `NoMemory`: there is no disk, or no whole image on it, or it isn't put in its place.
pub fn make_image<D: Disk + Drop, P: Images<Medium = D>>(
    images: &mut P,
    alloc: Global,
    path: &str,
    schema: &Schema,
    new: NewImage,
) -> Result<(D, Layout), FormatError>
    // The image is made for the schema that the file declares, with so many lanes of so many records.
    ensures ok { IfOk result (λ made. IsImageFor schema.now new made.1 (D.device made.0)) }
    // The image that is made is there, at the path.
    ensures there { IfOk result
        (λ made. IsThere (D.device made.0).now.bytes (P.holds images.new path.now)) }
    // The image that is made lies as was asked.
    ensures lies { OnOk result (LiesSo new (P.lies images.new path.now)) }
    // The numbers are blamed only where lanes or records are past their limits.
    ensures bad_header { IfErr result
        (λ error. IsBeforeFile error → (error ≡ BadHeader) ×
        (AreLimits new.lanes new.capacity → ⊥)) }
    // A refused schema, and numbers past their limits, leave everything untouched.
    ensures untouched { IfErr result (λ error. IsBeforeFile error → images.new ≡ images.old) }
    // A refusal leaves the old image at the path, or a whole new one of this schema.
    ensures kept { OnErr result (AtPath (StaysOrIsMade schema.now new) P.holds images.old images.new path.now) }
    // Nothing beside the path is lost: an image that is replaced is kept where it is to be, and else what was kept before
    // remains.
    ensures beside { MakesBeside new.is_kept result path.now (P.holds images.old) (P.holds images.new) }
{
    let Some(layout) = Layout::of(schema, new.lanes, new.capacity) else {
        return Err(FormatError::BadHeader);
    };
    match make_in_place(images, alloc, path, schema, new, layout.size()) {
        Ok(made) => Ok(made),
        Err(fault) => {
            images.give_up(path);
            Err(FormatError::from(fault))
        }
    }
}

// How it is told that the schema file is refused.
fn told(fault: SchemaFault) -> FormatError
    ensures { result ≡ told_of_schema fault }
{
    FormatError::from(fault)
}

// Makes the image, of this size, and puts it in its place.
fn make_in_place<D: Disk + Drop, P: Images<Medium = D>>(
    images: &mut P,
    alloc: Global,
    path: &str,
    schema: &Schema,
    new: NewImage,
    size: u64,
) -> Result<(D, Layout), FileFault>
    requires { size ≡ size_of (layout_with schema.now new.lanes new.capacity) }
    ensures ok { IfOk result (λ made. IsImageFor schema.now new made.1 (D.device made.0)) }
    ensures there { IfOk result
        (λ made. IsThere (D.device made.0).now.bytes (P.holds images.new path.now)) }
    ensures lies { OnOk result (LiesSo new (P.lies images.new path.now)) }
    ensures kept { OnErr result (AtPath (StaysOrIsMade schema.now new) P.holds images.old images.new path.now) }
    ensures beside { MakesBeside new.is_kept result path.now (P.holds images.old) (P.holds images.new) }
{
    let (disk, layout) = match formatted(images, alloc, path, schema, new, size) {
        Ok(made) => made,
        Err(fault) => return Err(fault),
    };
    match images.replace(path, new.kind, &disk, new.is_kept) {
        Ok(()) => Ok((disk, layout)),
        Err(fault) => {
            drop(disk);
            Err(fault)
        }
    }
}

// Makes the image on a disk that is to replace what is at the path.
fn formatted<D: Disk + Drop, P: Images<Medium = D>>(
    images: &mut P,
    alloc: Global,
    path: &str,
    schema: &Schema,
    new: NewImage,
    size: u64,
) -> Result<(D, Layout), FileFault>
    requires { size ≡ size_of (layout_with schema.now new.lanes new.capacity) }
    ensures ok { IfOk result (λ made. IsImageFor schema.now new made.1 (D.device made.0)) }
    ensures durable { IfOk result (λ made. (D.device made.0).now.pending ≡ []) }
    ensures same { P.holds images.new path.now ≡ P.holds images.old path.now }
    ensures beside { LeavesBesideIt path.now P.holds P.lies images.old images.new }
{
    let disk = match images.make(alloc, path, new.kind, size) {
        Ok(disk) => disk,
        Err(fault) => return Err(fault),
    };
    match Store::format(alloc, disk, schema, new.lanes, new.capacity) {
        Ok(made) => {
            let layout = made.layout();
            Ok((made.into_disk(), layout))
        }
        Err((disk, why)) => {
            drop(disk);
            Err(fault_of_formatting(why))
        }
    }
}

// The disk has room for the image, so that these two are all.
fn fault_of_formatting(why: ImageError) -> FileFault {
    match why {
        ImageError::NoMemory => FileFault::NoMemory,
        _ => FileFault::Fault,
    }
}

// Writes the line that tells the image's size, in bytes.
fn print_size<W: Write>(size: u64, writer: &mut W) -> Result<(), FormatError>
    ensures ok { OnOk result (PrintsSize size (W.contents writer.old) (W.contents writer.new)) }
    ensures fault { IfErr result (λ error. error ≡ Fault) }
    ensures part { OnErr result
        (AppendsPart (W.contents writer.old) (W.contents writer.new) (formatted_line size)) }
{
    match put_line(writer, &[Piece::Words("formatted "), Piece::Number(size)]) {
        Ok(()) => Ok(()),
        Err(WriteError) => Err(FormatError::Fault),
    }
}

/// Makes an image at a path for the schema that a schema file declares, and writes `formatted` and the image's size: what the
/// program's word `format` does.
///
/// The schema file is read first, and the image is touched only where it isn't refused. An image that is there is replaced by the whole
/// new one or stays, whatever stops this. Refused as [`format_image`] says:
/// - `InUse`: another process has the image that is there;
/// - `NotImage`: what is there has bytes and is no image, the schema file for one.
///
/// What the system says of a call on the schema file that fails is noted as trouble.
pub fn format_at<D, P, F, R, W>(
    rt: &R,
    images: &mut P,
    alloc: Global,
    trouble: &Trouble,
    path: &str,
    schema_path: &str,
    new: NewImage,
    writer: &mut W,
) -> Result<(), FormatError>
where
    D: Disk + Drop,
    P: Images<Medium = D>,
    F: Read + Drop,
    R: Files<File = F>,
    W: Write,
    // After `format` the image at that path is one for the schema, with so many lanes of so many records, and its size
    // is written.
    ensures ok { OnOk result
        (MakesAt new (P.holds images.new path.now) (P.lies images.new path.now)
        (W.contents writer.old) (W.contents writer.new)) }
    // A refusal leaves the old image at the path, or a whole new one of some schema.
    ensures kept { OnErr result (AtPath (MayBeMade new) P.holds images.old images.new path.now) }
    // A refused schema, and numbers past their limits, leave everything untouched.
    ensures untouched { IfErr result (λ error. IsBeforeFile error → images.new ≡ images.old) }
    // The numbers are blamed only where lanes or records are past their limits.
    ensures bad_header { IfErr result (MayBlameNumbers new.lanes new.capacity) }
    // Where no image is made nothing is written, unless a fault came.
    ensures silent { IfErr result
        (λ error. IsSilent error → Appends (W.contents writer.old) (W.contents writer.new) []) }
    // After a fault nothing is written, or a beginning of the size's line.
    ensures part { OnErr result
        (PrintsLess new.lanes new.capacity (W.contents writer.old) (W.contents writer.new)) }
    // Nothing beside the path is lost: an image that is replaced is kept where it is to be, and else what was kept before
    // remains.
    ensures beside { MakesBeside new.is_kept result path.now (P.holds images.old) (P.holds images.new) }
{
    let mut schema = match fs::open(rt, schema_path) {
        Ok(file) => Watched::new(file, Place::Schema, trouble),
        Err(error) => {
            trouble.note(Place::Schema, &error);
            return Err(FormatError::Fault);
        }
    };
    let formatted = format_image(images, alloc, path, &mut schema, new, writer);
    drop(schema);
    formatted
}
