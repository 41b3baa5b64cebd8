//! A call of a store, as a value.
use heap_model::{Lane, Record};

/// A call that changes a store.
#[derive(Clone, Copy, Debug, PartialEq, Eq)]
pub enum StoreCall {
    /// [`Store::apply`](crate::Store::apply) of this lane's record.
    Apply(Lane, Record),
    /// [`Store::log_step`](crate::Store::log_step).
    Log,
    /// [`Store::home_step`](crate::Store::home_step).
    Home,
    /// [`Store::settle`](crate::Store::settle).
    Settle,
    /// [`Store::trim`](crate::Store::trim).
    Trim,
}
