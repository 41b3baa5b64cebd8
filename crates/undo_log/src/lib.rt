//! Each lane's undo log in the image (Atlas, OOPSLA 2014).
//!
//! The bytes of a record; [`append`] and [`read`], which put records into a lane's area and find them there; and what
//! an image stands for: the heap that its home cells have once old values are put back. Its laws tie that to the heap
//! that a cut keeps.
#![tactic(auto)]

mod appending;
mod error;
mod laws;
mod reading;
mod record_bytes;

pub use appending::append;
pub use error::LogError;
pub use laws::{
    back_since_law, first_dropped_law, image_stands_law, one_heap_law, one_span_law, one_value_law,
    place_law, spare_law, stands_law, survival_law,
};
pub use reading::{is_of_image, read};
pub use record_bytes::{decode_record, encode_record, is_in_range};
