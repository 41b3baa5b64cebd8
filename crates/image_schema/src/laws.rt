//! A law of dumps: a contract of a function that does nothing.
ghost use Rattle.image_schema.specs.Dumping.{DumpLaw};

use script_declarations::schema_text_law;

/// What [`dump`](crate::dump) writes declares the image's schema with the heap that recovery gives. So an image that is made of it
/// has that heap, and one that is made of it with more lines at its end has more beside.
pub fn dump_law()
    // A heap is carried over by its schema file. What is written of an image declares the image's schema with the heap
    // that recovery gives, and no other.
    ensures { DumpLaw }
{
    schema_text_law();
}
