//! A schema: which objects and fields a heap has, which object's monitor guards each field, and
//! the value with which each field begins.
//!
//! A [`SchemaBuilder`] takes the declarations one by one, and [`SchemaBuilder::build`] closes
//! them into a [`Schema`], which never changes again.
#![tactic(auto)]

mod builder;
mod error;
mod field_row;
mod fields;
mod names;
mod schema;

pub use builder::SchemaBuilder;
pub use error::SchemaError;
pub use schema::Schema;
