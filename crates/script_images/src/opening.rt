//! The machine over an image.
ghost use Rattle.std.specs.Prelude.{◌≡◌, IfErr, IfOk};
ghost use Rattle.block_disk.specs.Device.{SameMoments};
ghost use Rattle.block_disk.specs.Memory.{device_of};
ghost use Rattle.image_file.specs.declared.error.ImageFault.TheVariants as images;
ghost use Rattle.image_file.specs.declared.error.NamedFault.TheVariants.{Image};
ghost use Rattle.image_schema.specs.OfImage.{IsStudied, named_as};
ghost use Rattle.script_images.specs.Playing.{IsDown, IsNotNamed, IsNotRecovered, IsOver, IsRecovered, RefusesOver};
ghost use Rattle.script_images.specs.Schemas.{IsNamed, IsSchemaOf};
ghost use Rattle.recover_heap.specs.declared.error.RecoverError.TheVariants.{NoMemory};
ghost use Rattle.script_play.specs.Texts.{text_of};

use crate::firsts::begin_as;
use crate::reasons::{reason_of, refusal_in};
use block_disk::MemDisk;
use guards::Schema;
use image_file::{ImageFault, NamedFault};
use image_schema::{NamingError, schema_of};
use recover::{RecoverError, Study, study};
use script_lines::Command;
use script_machine::{Answer, Machine, disk_law};
use script_play::text;
use std::alloc::Global;

/// A machine that is down over this image, as after a crash that left it. Its names are those of the schema that is given, which has to
/// be the image's, or else numbers.
///
/// Refusals, in this order: those of [`study`]; `OtherSchema`: the schema that is given isn't the image's. `NoMemory` comes at any time.
pub(crate) fn machine_over(
    alloc: Global,
    image: &[u8],
    given: Option<Schema>,
) -> Result<Machine, NamedFault>
    ensures ok { IfOk result (IsOver given image.now) }
    ensures refused { IfErr result (RefusesOver given image.now) }
{
    let Ok(mut disk) = MemDisk::from_bytes(alloc, image) else {
        drop(given);
        return Err(refused(RecoverError::NoMemory));
    };
    match schema_on(alloc, &mut disk, given) {
        Ok(schema) => {
            // A disk of an image of this schema is what the machine asks for.
            disk_law();
            Ok(Machine::down(schema, disk))
        }
        Err(fault) => {
            drop(disk);
            Err(fault)
        }
    }
}

/// The image is refused for this reason.
pub(crate) fn refused(why: RecoverError) -> NamedFault
    ensures { result ≡ Image (images.Image why) }
{
    NamedFault::Image(ImageFault::Image(why))
}

// The schema of the image on this disk, which is only read.
fn schema_on(alloc: Global, disk: &mut MemDisk, given: Option<Schema>) -> Result<Schema, NamedFault>
    ensures ok { IfOk result (IsNamed given (device_of disk.old).now.bytes) }
    ensures refused { IfErr result (RefusesOver given (device_of disk.old).now.bytes) }
    ensures same { SameMoments (device_of disk.old) (device_of disk.new) }
{
    match study(alloc, disk) {
        Ok(study) => {
            let schema = schema_for(alloc, &study, given);
            drop(study);
            schema
        }
        Err(why) => {
            drop(given);
            Err(refused(why))
        }
    }
}

/// The schema of an image that was studied, by the names that are given.
pub(crate) fn schema_for(
    alloc: Global,
    study: &Study,
    given: Option<Schema>,
) -> Result<Schema, NamedFault>
    requires { IsStudied study.now }
    ensures is { IfOk result (λ schema. schema ≡ named_as given study.now) }
    ensures fits { IfOk result (λ schema. IsSchemaOf (named_as given study.now) study.now) }
    ensures refused { IfErr result (IsNotNamed given study.now) }
{
    let schema = match schema_of(alloc, study, given) {
        Ok(schema) => schema,
        Err(NamingError::OtherSchema) => return Err(NamedFault::OtherSchema),
        Err(NamingError::NoMemory) => return Err(refused(RecoverError::NoMemory)),
    };
    if !begin_as(&schema, &study.guards) {
        drop(schema);
        return Err(NamedFault::OtherSchema);
    }
    Ok(schema)
}

/// Recovers a machine that is down, and gives what the line `recover` prints.
pub(crate) fn recovered(alloc: Global, machine: &mut Machine) -> Result<Vec<u8>, NamedFault>
    requires { IsDown machine.old }
    ensures ok { IfOk result (λ text. IsRecovered machine.old text.items machine.new) }
    ensures refused { IfErr result (IsNotRecovered machine.old) }
{
    let answer = match machine.step(alloc, &Command::Recover) {
        Ok(answer) => answer,
        Err(_) => return Err(refused(RecoverError::NoMemory)),
    };
    match refusal_in(&answer) {
        Some(why) => {
            drop(answer);
            Err(refused(reason_of(&why)))
        }
        None => {
            let text = told(alloc, &answer);
            drop(answer);
            text
        }
    }
}

// What an answer prints.
fn told(alloc: Global, answer: &Answer) -> Result<Vec<u8>, NamedFault>
    ensures text { IfOk result (λ told. told.items ≡ text_of answer.now) }
    ensures memory { IfErr result (λ fault. fault ≡ Image (images.Image NoMemory)) }
{
    match text(alloc, answer) {
        Ok(told) => Ok(told),
        Err(_) => Err(refused(RecoverError::NoMemory)),
    }
}
