//! Why a step of a thread is refused.

/// Why a thread's step is refused by the monitors. A refused step changes nothing.
#[derive(Clone, Copy, Debug, PartialEq, Eq)]
pub enum MonitorRefusal {
    /// Another thread owns the monitor.
    Held,
    /// The thread doesn't own the monitor: for a load or a store that of the field's guard.
    NotHeld,
    /// The thread doesn't wait.
    NotWaiting,
    /// The thread is in a wait set still.
    InSet,
    /// The monitor is free and its release number is the last: it is never taken again.
    Worn,
}
