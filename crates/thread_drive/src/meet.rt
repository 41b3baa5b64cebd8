//! Where workers' sections meet.

/// What a worker does within each of its sections, while it holds the monitor of its own object and not yet that of the object for
/// all: there two sections may be open at once.
pub trait Meet {
    /// Called in each section of the worker; workers are numbered from 0. What it answers is for the caller of the workers alone.
    fn inside(&self, worker: u8) -> bool;

    /// Asked before each section, while the worker holds no monitor: whether it goes on. Where this says no, the worker has ended.
    fn goes_on(&self) -> bool {
        true
    }
}
