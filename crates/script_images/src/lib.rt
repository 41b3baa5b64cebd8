//! Scripts over an image: it is recovered, the lines are played over it in memory, and what they leave takes its place (docs/SCRIPTS.md,
//! "A script over an image file").
//!
//! [`run_at`] does it with the image at a path, among any [`Images`](image_file::Images), and [`run_image`] with lines that were read.
//! Nothing is printed before the other image is in its place, so that no line tells as acknowledged what isn't there. Under them,
//! [`play_over`] says what a script makes of an image, and what it prints. What a stop leaves of a machine that runs is what the line
//! `crash kept` leaves ([`stop_law`]), so that the laws of crashes speak of it ([`crash_law`](script_play::crash_law)). [`run_strictly`] plays a
//! script in memory up to the first line that is refused. [`get_at`] writes the values of fields, and [`set_at`] sets them, by a section of its
//! own.
#![tactic(auto)]

mod assigning;
mod error;
mod firsts;
mod laws;
mod opening;
mod playing;
mod reasons;
mod running;
mod stopping;
mod strict;
mod values;

pub use assigning::{set_at, set_over};
pub use error::{RunFault, SetFault, StrictFault, ValueFault};
pub use laws::stop_law;
pub use playing::{Played, play_over};
pub use running::{run_at, run_image};
pub use script_machine::Refusal;
pub use strict::{refusal_text, run_strictly};
pub use values::get_at;
