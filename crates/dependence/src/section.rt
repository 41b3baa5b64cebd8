//! A section that another depends on.

use heap_model::Lane;

/// A section of a lane. A lane's sections are numbered from 1, what was forgotten included.
#[derive(Clone, Copy, Debug, PartialEq, Eq)]
pub struct Dependence {
    pub lane: Lane,
    pub section: u64,
}
