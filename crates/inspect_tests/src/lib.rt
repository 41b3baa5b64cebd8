//! Tests of: inspect, script_declarations, image_file.
//!
//! Tests of the inspector and of image files by their public calls: the texts of hand-made studies, of images that a
//! store left, and of files.
//!
//! They stand apart from the rooms that they test, since a crate with tests is proved twice.
#![tactic(auto)]

#[cfg(test)]
mod image_files;
#[cfg(test)]
mod texts;
