//! Why a schema file is refused.
use thiserror::Error;

/// At which line a schema file is refused, and why.
#[derive(Clone, Copy, Debug, PartialEq, Eq, Error)]
#[error("line {line}: {why}")]
pub struct SchemaFault {
    /// The line, counted from 1 over all lines. `Empty` names the last line, or 0 where there is none.
    pub line: u64,
    /// What is wrong with it.
    pub why: SchemaFaultKind,
}

/// Why a schema file is refused. On one line `TooLong` is tried before `NotText`, that before `Syntax`, and that before
/// what the declarations refuse.
#[derive(Clone, Copy, Debug, PartialEq, Eq, Error)]
pub enum SchemaFaultKind {
    /// The line is no `object`, no `field` and no `transient` line.
    #[error("syntax")]
    Syntax,
    /// The line has a byte past ASCII.
    #[error("not text")]
    NotText,
    /// The line is too long, or has the first byte past the text's length.
    #[error("too long")]
    TooLong,
    /// The line could not be read to its end.
    #[error("fault")]
    Read,
    /// There was no memory.
    #[error("no memory")]
    Memory,
    /// The file ends, and there is no object or no field.
    #[error("empty")]
    Empty,
    /// The name is taken.
    #[error("double name")]
    DoubleName,
    /// The owner or the guard isn't declared.
    #[error("unknown")]
    Unknown,
    /// There are as many already as there may be.
    #[error("too many")]
    TooMany,
}
