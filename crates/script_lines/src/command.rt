//! What a line asks for.
use block_disk::Fill;
use heap_model::Lane;

/// What a line asks for. Names are those of the line, and numbers are as written there.
#[derive(Clone, Copy, PartialEq, Eq)]
pub enum Command<'a> {
    /// Declares an object.
    Object {
        name: &'a str,
    },
    /// Declares a field of `owner`, guarded by the monitor of `guard`, that begins with `first`. A transient field's line
    /// begins with a word of its own.
    Field {
        name: &'a str,
        owner: &'a str,
        guard: &'a str,
        first: u64,
        is_transient: bool,
    },
    /// Makes and formats the device, for so many lanes with room for `capacity` records each.
    Format {
        lanes: u64,
        capacity: u64,
    },
    /// A thread's step.
    Step {
        thread: Lane,
        step: Step<'a>,
    },
    /// Writes the records that aren't logged yet.
    Log,
    /// Takes home steps until none is left.
    Home,
    /// Acknowledges what it can.
    Settle,
    /// Gives the places of acknowledged sections back to the log.
    Trim,
    /// Shows all applied values.
    Heap,
    /// Crashes the device with all but the last `back` writes and syncs ended and the next begun.
    Crash {
        fill: Fill,
        back: u64,
    },
    /// Shows what the image has.
    Show,
    /// Recovers the device.
    Recover,
    /// Upgrades the device's image to the current version, and recovers it so.
    Upgrade,
}

/// A step of a thread, on an object's monitor or on a field.
#[derive(Clone, Copy, PartialEq, Eq)]
pub enum Step<'a> {
    /// Takes the object's monitor, once more where the thread has it.
    Enter(&'a str),
    /// Gives back one of its locks of the object's monitor.
    Exit(&'a str),
    /// Loads the field.
    Load(&'a str),
    /// Stores the value into the field.
    Store(&'a str, u64),
    /// Frees the object's monitor and goes into its wait set.
    Wait(&'a str),
    /// Takes back the monitor in whose wait set the thread was.
    Resume,
    /// Wakes one thread of the object's wait set.
    Notify(&'a str),
    /// Wakes all threads of the object's wait set.
    NotifyAll(&'a str),
}
