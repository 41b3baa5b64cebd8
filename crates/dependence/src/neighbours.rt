//! The steps next to one.

/// The places of the steps next to a step. A place is kept as one more than the step's index, and 0 says that there is none.
#[derive(Clone, Copy)]
pub struct Neighbours {
    /// The step before it in its lane.
    pub before: usize,
    /// Of a take the release before it, of a release the take after it.
    pub partner: usize,
}
