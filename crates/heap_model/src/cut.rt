//! A set of sections that holds, with each section, the earlier ones of its lane.

use crate::limits::LANES;

/// The first `counts[l]` sections of each lane l, counted since the heap was last opened.
#[derive(Clone, Copy, Debug, PartialEq, Eq)]
pub struct Cut {
    pub counts: [u64; LANES],
}
