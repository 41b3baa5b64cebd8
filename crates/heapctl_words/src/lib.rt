//! The words of the program `heapctl`, and their help (`docs/SCRIPTS.md`).
//!
//! [`read_words`] tells what the words ask for. Nothing is opened and nothing is printed here.
#![tactic(auto)]

mod options;
mod words;

pub use words::{Asked, Kind, Part, Words, read_words};
