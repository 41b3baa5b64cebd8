//! Where the parts of a journaled device lie.

/// How many pages of 4,096 bytes a half of the journal has, and the image.
#[derive(Clone, Copy, Debug, PartialEq, Eq)]
pub struct Areas {
    pub half: usize,
    pub image: usize,
}
