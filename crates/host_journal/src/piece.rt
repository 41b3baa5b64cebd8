//! A write that the journal hasn't taken.

/// These bytes at this place.
#[derive(Drop)]
pub(crate) struct Piece {
    pub at: u64,
    pub bytes: Vec<u8>,
}
