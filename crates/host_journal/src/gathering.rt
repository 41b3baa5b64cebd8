//! A journal, and what is yet to be written to it.
use crate::piece::Piece;
use disk_deferred::DeferredDisk;
use disk_journal::Journaled;

/// The journal, and the heap's writes since its last order, the oldest first, of which the journal has taken the first `moved` ones.
///
/// Since the last turn the journal has taken `taken` words at most, and with what it is yet to take there are `words`. `turns` turns took one flush.
#[derive(Drop)]
pub(crate) struct Gathering {
    pub disk: Journaled<DeferredDisk>,
    pub group: Vec<Piece>,
    pub moved: usize,
    pub taken: usize,
    pub words: usize,
    pub turns: u64,
}
