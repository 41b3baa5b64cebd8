//! Declarations of objects and fields, as the lines of a script or of a schema file make them (docs/SCRIPTS.md, "Lines").
//!
//! [`Declaring`] takes them by name, one by one, and refuses what no schema may have. [`read_schema`] reads a schema file, which has these
//! lines alone; the file that has a schema's own lines declares it ([`schema_text_law`]).
#![tactic(auto)]

mod declared;
mod declaring;
mod laws;
mod schema_fault;
mod schema_file;

pub use declared::{DeclarationRefusal, Declared};
pub use declaring::Declaring;
pub use laws::schema_text_law;
pub use schema_fault::{SchemaFault, SchemaFaultKind};
pub use schema_file::read_schema;
