//! The machine between a crash and a recovery.
ghost use Rattle.std.specs.Prelude.{◌≡◌, IfOk};
ghost use Rattle.block_disk.specs.Memory.{device_of};
ghost use Rattle.script_machine.specs.Answering.{ShowsDown};
ghost use Rattle.script_machine.specs.OfSchema.{IsDiskOf};

use crate::answer::Answer;
use crate::image_study::ImageStudy;
use crate::refusals::refused_recovery;
use block_disk::MemDisk;
use guards::Schema;
use recover::study;
use std::alloc::{AllocError, Global};
use std::marker::Model;

/// The schema, and what the crash left of the device: an image of this schema, if it is one.
#[derive(Drop)]
pub(crate) struct Down {
    schema: Schema,
    disk: MemDisk,
}

impl Model for Down {
    ghost use Rattle.script_machine.specs.States.{Wreck};
    ghost use Rattle.script_machine.specs.OfSchema.{IsDiskOf};

    ghost Value = { Wreck };

    ghost view = { λ d. record { schema = d.schema; disk = d.disk } };

    ghost invariant = { λ d. IsDiskOf d.schema d.disk };
}

impl Down {
    /// The machine after a crash that left this device.
    pub(crate) fn new(schema: Schema, disk: MemDisk) -> Down
        requires { IsDiskOf schema disk }
        ensures { result ≡ record { schema = schema; disk = disk } }
    {
        Down { schema, disk }
    }

    /// Shows what the image on the device holds, or why it is refused. The device reads as before.
    pub(crate) fn show(&mut self, alloc: Global) -> Result<Answer, AllocError>
        ensures { ShowsDown self.old self.new result }
    {
        match study(alloc, &mut self.disk) {
            Ok(study) => Ok(Answer::Shown(ImageStudy::of(study))),
            Err(why) => Ok(Answer::Refused(refused_recovery(why)?)),
        }
    }

    /// The bytes on the device.
    pub(crate) fn image(&self) -> &[u8]
        ensures { result.now ≡ (device_of self.now.disk).now.bytes }
    {
        self.disk.bytes()
    }

    /// The schema and the device.
    pub(crate) fn into_parts(self) -> (Schema, MemDisk)
        ensures parts { result ≡ (self.schema, self.disk) }
        ensures of_schema { IsDiskOf self.schema self.disk }
    {
        (self.schema, self.disk)
    }
}
