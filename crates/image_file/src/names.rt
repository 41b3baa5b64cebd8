//! The names that a schema file gives.
ghost use Rattle.std.specs.Prelude.{IfErr, IfOk};
ghost use Rattle.image_file.specs.Naming.{IsNamedBy, IsOfSchemaFile};

use crate::error::{ImageFault, NamedFault};
use crate::trouble::{Place, Trouble};
use crate::watched::Watched;
use guards::Schema;
use recover::RecoverError;
use script_declarations::read_schema;
use std::alloc::Global;
use std::fs;
use std::io::Read;
use std::rt::Files;

/// The schema that the file at this path declares; `None` where none is named.
///
/// `Schema`: the file is refused. `Fault` says that it isn't there or can't be read, which is noted as trouble; `NoMemory` that there
/// was no memory.
pub fn schema_at<F: Read + Drop, R: Files<File = F>>(
    rt: &R,
    alloc: Global,
    trouble: &Trouble,
    path: Option<&str>,
) -> Result<Option<Schema>, NamedFault>
    // Names are given exactly where a file of them is named.
    ensures ok { IfOk result (IsNamedBy path.entry) }
    ensures refused { IfErr result IsOfSchemaFile }
{
    let Some(path) = path else {
        return Ok(None);
    };
    let mut file = match fs::open(rt, path) {
        Ok(file) => Watched::new(file, Place::Schema, trouble),
        Err(error) => {
            trouble.note(Place::Schema, &error);
            return Err(NamedFault::Image(ImageFault::Image(RecoverError::Fault)));
        }
    };
    let read = read_schema(alloc, &mut file);
    drop(file);
    match read {
        Ok(schema) => Ok(Some(schema)),
        Err(fault) => Err(NamedFault::from(fault)),
    }
}
