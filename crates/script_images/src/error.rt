//! Why a script was not run over an image.
use image_file::NamedFault;
use script_lines::ScriptError;
use script_machine::Refusal;
use thiserror::Error;

/// Why a script was not run over an image, or what it prints was not written.
#[derive(Clone, Copy, Debug, PartialEq, Eq, Error)]
pub enum RunFault {
    /// The image isn't had, is refused or isn't replaced; or the schema file is refused, or isn't the image's. Nothing is printed.
    #[error("{0}")]
    Named(NamedFault),
    /// The script stopped at a line. The image is as it was, and nothing is printed.
    #[error("{0}")]
    Script(ScriptError),
    /// The script is strict, and its first refused line is this one, counted from 1, for this reason. The image is as it was, and nothing is
    /// printed.
    #[error("line {0}: refused")]
    Refused(u64, Refusal),
    /// The image was replaced, and the writer failed. A beginning of the text is written, and not all.
    #[error("fault")]
    Write,
}

/// Why a strict run stopped.
#[derive(Clone, Copy, Debug, PartialEq, Eq, Error)]
pub enum StrictFault {
    /// At a line that has a fault, isn't had or isn't written, or for want of memory.
    #[error("{0}")]
    Script(ScriptError),
    /// At the first refused line, counted from 1, for this reason. Its text is written.
    #[error("line {0}: refused")]
    Refused(u64, Refusal),
}

/// Why the values of fields aren't told.
#[derive(Clone, Copy, Debug, PartialEq, Eq, Error)]
pub enum ValueFault {
    /// The image isn't had or is refused; or the schema file is refused, or isn't the image's. Nothing is written.
    #[error("{0}")]
    Named(NamedFault),
    /// The image has no field of the name at this place, counted from 0. Nothing is written.
    #[error("unknown")]
    Unknown(usize),
    /// The writer failed. A beginning of the lines is written, and not all.
    #[error("fault")]
    Write,
}

/// Why fields aren't set. The places are those of the words, counted from 0.
#[derive(Clone, Copy, Debug, PartialEq, Eq, Error)]
pub enum SetFault {
    /// The word at this place isn't `NAME=VALUE`, with a number below 2^64.
    #[error("syntax")]
    Word(usize),
    /// The image has no field of the name at this place.
    #[error("unknown")]
    Unknown(usize),
    /// The field of the name at this place is transient: it begins with its first value at each open.
    #[error("transient")]
    Transient(usize),
    /// What the lines leave has another heap. No machine leaves it.
    #[error("fault")]
    OtherHeap,
    /// The lines that set the fields aren't played over the image, or what they print isn't written.
    #[error("{0}")]
    Run(RunFault),
}
