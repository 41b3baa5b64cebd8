//! Image files: made for the schema that a file declares, recovered, upgraded, shown, drawn and dumped (docs/SCRIPTS.md, "The program's
//! fault texts").
//!
//! [`format_at`] and [`recover_at`] are what the program's words do over any [`Images`]; [`show_at`], [`draw_named_at`] and [`dump_at`] only
//! look at an image. [`FileImages`] are those in files of the system. One process has an image file at a time ([`claim_at`]), and [`Trouble`]
//! keeps what the system says of a call that fails. Under them, [`format_image`] makes an image for what any reader has, and
//! [`recover_image`] recovers over any device.
#![tactic(auto)]

mod claiming;
mod devices;
mod dumping;
mod error;
mod file_images;
mod format;
mod images;
mod named_drawing;
mod names;
mod new_image;
mod reading;
mod recovering;
mod refusal;
mod showing;
mod trouble;
mod watched;

pub use claiming::{Content, claim_at, content_of};
pub use devices::Beginning;
pub use dumping::dump_at;
pub use error::{FileFault, FormatError, ImageFault, NamedFault};
pub use file_images::{BESIDE, FileImages, KEPT, KEPT_IN_USE, PASSING};
pub use format::{format_at, format_image, make_image};
pub use images::{Images, look_at};
pub use named_drawing::draw_named_at;
pub use names::schema_at;
pub use new_image::NewImage;
pub use recovering::{Told, recover_at, recover_image};
pub use showing::show_at;
pub use trouble::{Place, Trouble};
pub use watched::Watched;
