//! The values of an image's fields, by their names.
ghost use Rattle.std.specs.Prelude.{◌≡◌, false, string_bytes, IfErr, IfOk, IsTrue, OnOk};
ghost use Rattle.image_schema.specs.OfImage.{IsStudied};
ghost use Rattle.script_images.specs.Values.{GetsBy, HasLine, HasLines, IsHeldTold, IsNoField, IsTold, IsToldOfStudy, RefusesHeldValues, RefusesNames, RefusesStudied, RefusesValues};
ghost use Rattle.image_file.specs.Beside.{LeavesBesideIt};
ghost use Rattle.image_file.specs.declared.error.ImageFault.TheVariants as images;
ghost use Rattle.image_file.specs.declared.error.NamedFault.TheVariants.{Image};
ghost use Rattle.script_images.specs.declared.error.ValueFault.TheVariants.{Named};

use crate::error::ValueFault;
use block_disk::Disk;
use disk_file::VolatileDisk;
use guards::Schema;
use image_file::{ImageFault, Images, NamedFault, Trouble, look_at, schema_at};
use image_schema::{NamingError, schema_of};
use recover::{RecoverError, Study, study};
use script_play::put;
use std::alloc::{AllocError, Global};
use std::fmt::Write as _;
use std::io::{Read, Write};
use std::rt::Files;

/// Writes a line `NAME=VALUE` for each of these fields of the image at the path, with the value that recovery of that image gives: what
/// the program's word `get` does. Names are those of the schema file, where one is named, or else `f0`, `f1` and so on. The image is only
/// looked at.
///
/// Refusals, in this order:
/// - `Named`: the schema file is refused, or can't be read; the image can't be had, or is refused; the schema isn't the image's;
/// - `Unknown`: the image has no field of the name at this place of them;
/// - `Write`: a beginning of the lines is written.
///
/// What the system says of a call on the schema file that fails is noted as trouble.
pub fn get_at<D, P, F, R, W>(
    rt: &R,
    images: &mut P,
    alloc: Global,
    trouble: &Trouble,
    path: &str,
    schema_path: Option<&str>,
    names: &[&str],
    writer: &mut W,
) -> Result<(), ValueFault>
where
    D: Disk + Drop,
    P: Images<Medium = D>,
    F: Read + Drop,
    R: Files<File = F>,
    W: Write,
    // What is written are the values that recovery of the image at the path gives to the named fields, in their order, and
    // the image stays. A name is refused only where that image has no field of it. The image or the schema file is refused
    // only for what is wrong with it. A refusal writes nothing, or a beginning of the lines where the writer fails.
    ensures ends { GetsBy schema_path.entry names.now result (P.holds images.old path.now) (P.holds images.new path.now)
        (W.contents writer.old) (W.contents writer.new) }
    // Nothing beside the path is lost.
    ensures beside { LeavesBesideIt path.now P.holds P.lies images.old images.new }
{
    let given = match schema_at(rt, alloc, trouble, schema_path) {
        Ok(given) => given,
        Err(fault) => return Err(ValueFault::Named(fault)),
    };
    let text = match held_values(images, alloc, path, given, names) {
        Ok(text) => text,
        Err(fault) => return Err(fault),
    };
    match put(writer, text.as_bytes()) {
        Ok(()) => Ok(()),
        Err(_) => Err(ValueFault::Write),
    }
}

// The lines of the image at the path, which is only looked at.
fn held_values<D: Disk + Drop, P: Images<Medium = D>>(
    images: &mut P,
    alloc: Global,
    path: &str,
    given: Option<Schema>,
    names: &[&str],
) -> Result<String, ValueFault>
    ensures ok { IfOk result (λ text. IsHeldTold given names.now (P.holds images.old path.now) (string_bytes text)) }
    ensures refused { IfErr result (RefusesHeldValues given names.now (P.holds images.old path.now)) }
    ensures same { P.holds images.new path.now ≡ P.holds images.old path.now }
    ensures beside { LeavesBesideIt path.now P.holds P.lies images.old images.new }
{
    match look_at(images, alloc, path) {
        Ok(disk) => values_on(alloc, disk, given, names),
        Err(why) => {
            drop(given);
            Err(ValueFault::Named(NamedFault::Image(ImageFault::from(why))))
        }
    }
}

// The lines of the image on this disk.
fn values_on(
    alloc: Global,
    disk: VolatileDisk,
    given: Option<Schema>,
    names: &[&str],
) -> Result<String, ValueFault>
    ensures ok { IfOk result (λ text. IsTold given names.now disk.now.bytes (string_bytes text)) }
    ensures refused { IfErr result (RefusesValues given names.now disk.now.bytes) }
{
    let mut disk = disk;
    let studied = study(alloc, &mut disk);
    drop(disk);
    match studied {
        Ok(study) => {
            let text = studied_values(alloc, &study, given, names);
            drop(study);
            text
        }
        Err(why) => {
            drop(given);
            Err(refused(why))
        }
    }
}

fn refused(why: RecoverError) -> ValueFault
    ensures { result ≡ Named (Image (images.Image why)) }
{
    ValueFault::Named(NamedFault::Image(ImageFault::Image(why)))
}

// The lines of an image that was studied.
fn studied_values(
    alloc: Global,
    study: &Study,
    given: Option<Schema>,
    names: &[&str],
) -> Result<String, ValueFault>
    requires { IsStudied study.now }
    ensures ok { IfOk result (λ text. IsToldOfStudy given names.now study.now (string_bytes text)) }
    ensures refused { IfErr result (RefusesStudied given names.now study.now) }
{
    let schema = match schema_of(alloc, study, given) {
        Ok(schema) => schema,
        Err(NamingError::OtherSchema) => return Err(ValueFault::Named(NamedFault::OtherSchema)),
        Err(NamingError::NoMemory) => return Err(refused(RecoverError::NoMemory)),
    };
    let mut text = String::new(alloc);
    let told = put_values(&mut text, &schema, &study.heap, names);
    drop(schema);
    match told {
        Ok(()) => Ok(text),
        Err(fault) => Err(fault),
    }
}

// Adds the lines of these fields.
fn put_values(
    text: &mut String,
    schema: &Schema,
    heap: &[u64],
    names: &[&str],
) -> Result<(), ValueFault>
    ensures ok { OnOk result (HasLines schema.now heap.now names.now (string_bytes text.old) (string_bytes text.new)) }
    ensures refused { IfErr result (RefusesNames schema.now heap.now names.now) }
{
    for (place, name) in names.iter().enumerate() {
        match put_value(text, schema, heap, *name) {
            Ok(true) => {}
            Ok(false) => return Err(ValueFault::Unknown(place)),
            Err(AllocError) => return Err(refused(RecoverError::NoMemory)),
        }
    }
    Ok(())
}

// Adds the line of the field of this name, where there is one.
fn put_value(
    text: &mut String,
    schema: &Schema,
    heap: &[u64],
    name: &str,
) -> Result<bool, AllocError>
    ensures ok { IfOk result (λ there. IsTrue there → HasLine schema.now heap.now name.now (string_bytes text.old) (string_bytes text.new)) }
    ensures none { IfOk result (λ there. there ≡ false → IsNoField schema.now heap.now name.now) }
{
    let Some(field) = schema.field_named(name) else {
        return Ok(false);
    };
    let Some(value) = heap.get(field.0 as usize) else {
        return Ok(false);
    };
    let value = *value;
    write!(text, "{name}={value}\n")?;
    Ok(true)
}
