//! The schema of an image, which keeps no names: with those of a schema file, or numbered; and the schema file that the image's heap makes.
//!
//! [`schema_of`] finds the schema of a [`recover::Study`], and [`write_schema`] writes the file of a schema. [`dump`] writes that of the image
//! on a device. Its first values are the heap that recovery gives: so the heap is carried over ([`dump_law`]). [`draw_named`] writes the
//! image's sections as a graph.
#![tactic(auto)]

mod drawing;
mod dumping;
mod error;
mod fitting;
mod laws;
mod naming;
mod writing;

pub use drawing::draw_named;
pub use dumping::dump;
pub use error::{DumpError, NamingError};
pub use fitting::{fits, fits_rows};
pub use laws::dump_law;
pub use naming::schema_of;
pub use writing::write_schema;
