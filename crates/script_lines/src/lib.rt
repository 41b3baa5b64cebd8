//! The lines of a script: what they ask for, and what is wrong with them (docs/SCRIPTS.md, "Text" and "Lines").
//!
//! [`read_lines`] takes a text from a reader, [`cut_line`] its first line, and [`read_line`] makes of a line the
//! [`Command`] that it asks for, or says what is wrong with it. Nothing here knows what a command does.
#![tactic(auto)]

mod command;
mod error;
mod grammar;
mod line;
mod lines;
mod reader;
mod terms;
mod words;

pub use command::{Command, Step};
pub use error::{ScriptError, ScriptErrorKind};
pub use grammar::parse;
pub use line::{LONGEST_LINE, read_line};
pub use lines::cut_line;
pub use reader::{Ending, read_lines};
