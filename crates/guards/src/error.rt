//! Why a declaration or a schema is refused.

use thiserror::Error;

/// Why a declaration is refused, or why what was declared makes no schema.
#[derive(Clone, Copy, Debug, Drop, Error, PartialEq, Eq, Hash)]
pub enum SchemaError {
    /// The name is empty, or a schema would have no object or no field.
    #[error("empty")]
    Empty,
    /// An object, or a field, of this name is declared already. Objects and fields have name
    /// spaces of their own.
    #[error("double name")]
    DoubleName,
    /// The owner or the guard is no object that is declared.
    #[error("unknown")]
    UnknownObject,
    /// There are [`MOST_OBJECTS`](heap_model::MOST_OBJECTS) objects, or
    /// [`MOST_FIELDS`](heap_model::MOST_FIELDS) fields, already.
    #[error("too many")]
    TooMany,
    /// The allocator gave no memory.
    #[error("no memory")]
    NoMemory,
}
