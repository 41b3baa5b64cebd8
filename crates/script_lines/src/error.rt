//! Why a script stopped.
use thiserror::Error;

/// Where a script stopped, and why. What was written before stands.
#[derive(Clone, Copy, Debug, PartialEq, Eq, Error)]
#[error("line {line}: {kind}")]
pub struct ScriptError {
    /// The line, counted from 1.
    pub line: u64,
    pub kind: ScriptErrorKind,
}

/// Why a script stopped. On one line `TooLong` is tried before `NotText`, and that before `Syntax`.
#[derive(Clone, Copy, Debug, PartialEq, Eq, Error)]
pub enum ScriptErrorKind {
    /// The line isn't of a form that scripts may have.
    #[error("syntax")]
    Syntax,
    /// The line has a byte past ASCII.
    #[error("not text")]
    NotText,
    /// The line is too long, or has the first byte past the text's length.
    #[error("too long")]
    TooLong,
    /// The line could not be read to its end.
    #[error("read")]
    Read,
    /// What the line prints could not be written to its end.
    #[error("write")]
    Write,
    /// There was no memory.
    #[error("memory")]
    Memory,
}
