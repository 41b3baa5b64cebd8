//! Scripts: lines that play threads on one machine, crash its device and recover it (docs/SCRIPTS.md).
//!
//! [`run_script`] reads a text, plays it line by line on a [`Machine`](script_machine::Machine), and writes what each
//! line prints; [`run_on`] plays lines on a machine that stands in any state. [`text`] makes it of the machine's answer, and [`put`]
//! writes it. What a script's `settle` acknowledges, a `recover` after a crash keeps ([`crash_law`], [`play_law`]).
#![tactic(auto)]

mod laws;
mod play;
mod texts;
mod writer;

pub use laws::{crash_law, play_law};
pub use play::{run_on, run_script};
pub use script_lines::{ScriptError, ScriptErrorKind};
pub use texts::text;
pub use writer::put;
