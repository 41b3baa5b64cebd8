//! Why a pool refuses a call.

use std::fmt::Display;
use thiserror::Error;

/// Why a call is refused. It leaves the cells as they were.
#[derive(Clone, Copy, Debug, Drop, Error, PartialEq, Eq)]
#[error_bound(F: Display)]
pub enum PoolError<F> {
    /// No slot is free.
    #[error("empty")]
    Empty,
    /// The slot that is given isn't taken.
    #[error("not taken")]
    NotTaken,
    /// A cell of the free list names no slot: its link is above the number of slots.
    #[error("damaged")]
    Damaged,
    /// The cells failed.
    #[error("{0}")]
    Cells(F),
}
