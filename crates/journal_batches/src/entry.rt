//! An entry of a batch.

/// A word of eight bytes, as a number with the first byte highest, and its place in the image.
#[derive(Clone, Copy, Debug, PartialEq, Eq)]
pub struct Entry {
    pub at: u64,
    pub word: u64,
}
