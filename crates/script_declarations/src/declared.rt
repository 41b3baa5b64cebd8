//! What becomes of a declaration.
ghost use Rattle.std.specs.Prelude.{◌≡◌};
ghost use Rattle.script_declarations.specs.Telling.{told_of_schema};

use guards::SchemaError;
use std::alloc::AllocError;

/// What became of a declaration.
#[derive(Clone, Copy, Debug, PartialEq, Eq)]
pub enum Declared {
    /// The object or the field was added.
    Added,
    /// Nothing was added.
    Refused(DeclarationRefusal),
}

/// Why a declaration is refused. They are tried in this order.
#[derive(Clone, Copy, Debug, PartialEq, Eq)]
pub enum DeclarationRefusal {
    /// The name is empty.
    Empty,
    /// The name is taken.
    DoubleName,
    /// The owner or the guard isn't declared.
    Unknown,
    /// There are as many already as there may be.
    TooMany,
}

/// How a refusal of the schema's builder is told. Want of memory is no refusal.
pub(crate) fn refused(error: SchemaError) -> Result<Declared, AllocError>
    ensures { result ≡ told_of_schema error }
{
    match error {
        SchemaError::Empty => Ok(Declared::Refused(DeclarationRefusal::Empty)),
        SchemaError::DoubleName => Ok(Declared::Refused(DeclarationRefusal::DoubleName)),
        SchemaError::UnknownObject => Ok(Declared::Refused(DeclarationRefusal::Unknown)),
        SchemaError::TooMany => Ok(Declared::Refused(DeclarationRefusal::TooMany)),
        SchemaError::NoMemory => Err(AllocError),
    }
}
