//! What a user looks at after a crash: what recovery made of an image, and what the image holds.
//!
//! [`inspect`] reads an image and writes what it holds, line by line; [`draw`] writes its sections and dependences as a graph.
//! [`write_study`] and [`write_graph`] write the same of a [`recover::Study`], and [`write_report`] the lines of a [`recover::Report`].
//! [`put_line`] and [`put_list`] write a line as these texts have it. All write in small pieces. A fault of the writer leaves a beginning of
//! the text.
#![tactic(auto)]

mod error;
mod form;
mod graph;
mod graph_lines;
mod inspecting;
mod lanes;
mod links;
mod numbering;
mod picture;
mod pieces;
mod reasons;
mod releases;
mod report_lines;
mod section;
mod section_lines;
mod sections;
mod study_lines;
mod transient_line;
mod writer;

pub use error::{InspectError, ShowError, WriteError};
pub use graph::write_graph;
pub use inspecting::{draw, inspect};
pub use pieces::{Piece, put_line, put_list};
pub use report_lines::write_report;
pub use study_lines::write_study;
