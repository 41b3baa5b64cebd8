//! The sections that may be acknowledged.

use heap_model::{Cut, LANES};

/// The stable cut of what is logged, and by lane the place after its sections: places count a lane's
/// records since the heap was opened.
#[derive(Clone, Copy, Debug, PartialEq, Eq)]
pub struct StableSections {
    pub cut: Cut,
    pub places: [u64; LANES],
}
