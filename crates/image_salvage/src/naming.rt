//! Names for the fields of an image, of which only header and guard rows are known: those of a schema that fits it, or numbers.
ghost use Rattle.std.specs.Prelude.{◌≡◌, ◌↔◌, IfOk, IsErrOf, length};
ghost use Rattle.image_schema.specs.OfImage.{FitsImage};
ghost use Rattle.image_schema.specs.declared.error.NamingError.TheVariants.{OtherSchema};
ghost use Rattle.image_parts.specs.NumberedRows.{numbered};
ghost use Rattle.image_salvage.specs.Cells.{named_by};

use guards::Schema;
use image::{GuardRow, Layout, declare};
use image_schema::{NamingError, fits_rows};
use std::alloc::{AllocError, Global};

/// The schema of the image of this layout and these rows: the one that is given, which has to be the image's, or else the one of numbers.
pub(crate) fn schema_for(
    alloc: Global,
    layout: &Layout,
    rows: &[GuardRow],
    given: Option<Schema>,
) -> Result<Schema, NamingError>
    requires { length rows.now ≡ layout.now.fields }
    ensures ok { IfOk result (λ schema. schema ≡ named_by given layout.now rows.now) }
    ensures fits { IfOk result (λ schema. FitsImage schema layout.now rows.now) }
    ensures other { IsErrOf result OtherSchema ↔ (FitsImage (named_by given layout.now rows.now) layout.now rows.now → ⊥) }
{
    let Some(schema) = given else {
        return match numbered_of(alloc, layout.objects, rows) {
            Ok(schema) => Ok(schema),
            Err(_) => Err(NamingError::NoMemory),
        };
    };
    if !fits_rows(&schema, layout, rows) {
        drop(schema);
        return Err(NamingError::OtherSchema);
    }
    Ok(schema)
}

// The schema of the rows. Those of an image make one, so there is no other refusal than want of memory.
fn numbered_of(alloc: Global, objects: u32, rows: &[GuardRow]) -> Result<Schema, AllocError>
    ensures { IfOk result (λ schema. schema ≡ numbered objects rows.now) }
{
    match declare(alloc, objects, rows) {
        Ok(schema) => Ok(schema),
        Err(_) => Err(AllocError),
    }
}
