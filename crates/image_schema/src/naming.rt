//! The schema of an image, by the names that are given.
ghost use Rattle.std.specs.Prelude.{◌≡◌, ◌↔◌, IfOk, IsErrOf};
ghost use Rattle.image_schema.specs.OfImage.{FitsStudy, IsStudied, named_as, numbers_of};
ghost use Rattle.image_schema.specs.declared.error.NamingError.TheVariants.{OtherSchema};

use crate::error::NamingError;
use crate::fitting::fits;
use guards::Schema;
use image::declare;
use recover::Study;
use std::alloc::{AllocError, Global};

/// The schema of the image that was studied: the one that is given, which has to be the image's, or else one in which object 0
/// is named `o0` and field 0 `f0`, and so on.
pub fn schema_of(alloc: Global, study: &Study, given: Option<Schema>) -> Result<Schema, NamingError>
    requires { IsStudied study.now }
    // The schema of an image is the one that is given, or the one of numbers where none is given.
    ensures ok { IfOk result (λ schema. schema ≡ named_as given study.now) }
    // A schema that is answered is the image's.
    ensures fits { IfOk result (λ schema. FitsStudy schema study.now) }
    // A schema is refused as another's exactly where it isn't the image's.
    ensures other { IsErrOf result OtherSchema ↔ (FitsStudy (named_as given study.now) study.now → ⊥) }
{
    let Some(schema) = given else {
        return match numbered_of(alloc, study) {
            Ok(schema) => Ok(schema),
            Err(_) => Err(NamingError::NoMemory),
        };
    };
    if !fits(&schema, study) {
        drop(schema);
        return Err(NamingError::OtherSchema);
    }
    Ok(schema)
}

// The schema of the image's rows. They make one, so there is no other refusal than want of memory.
fn numbered_of(alloc: Global, study: &Study) -> Result<Schema, AllocError>
    ensures { IfOk result (λ schema. schema ≡ numbers_of study.now) }
{
    match declare(alloc, study.layout.objects, &study.guards) {
        Ok(schema) => Ok(schema),
        Err(_) => Err(AllocError),
    }
}
