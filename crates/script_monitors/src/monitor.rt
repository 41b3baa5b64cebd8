//! One monitor: who owns it, by how many locks, and how often it has become free (JLS 17.1).
ghost use Rattle.std.specs.Prelude.{◌≡◌, ◌≢◌, ◌+◌, ◌-◌, ◌<◌, ◌^◌, Some, None, IfOk};
ghost use Rattle.script_monitors.specs.Monitor.{owner_in, count_in, number_in, MayRise};

use heap_model::Lane;
use std::alloc::AllocError;

/// A monitor. Its release number counts how often it has become free since the heap was opened.
#[derive(Clone, Copy)]
pub(crate) enum Monitor {
    /// Nobody owns it.
    Free {
        number: u64,
    },
    /// The thread owns it, by `again + 1` locks.
    Held {
        thread: Lane,
        again: u64,
        number: u64,
    },
}

impl Monitor {
    /// A free monitor that the thread has taken at this number.
    pub(crate) fn taken(thread: Lane, number: u64) -> Monitor
        ensures owner { owner_in result ≡ Some thread.0 }
        ensures count { count_in result ≡ 1 }
        ensures number { number_in result ≡ number }
        ensures rise { number + 1 < 2 ^ 64 → MayRise result }
    {
        Monitor::Held {
            thread,
            again: 0,
            number,
        }
    }

    /// The monitor with one more lock of its owner's.
    ///
    /// A count past 2^64 - 1 has no room, which is want of memory: no script is long enough to meet it, and no caller
    /// could rule it out without counting a second time.
    pub(crate) fn nested(self) -> Result<Monitor, AllocError>
        requires { owner_in self ≢ None }
        ensures owner { IfOk result (λ m. owner_in m ≡ owner_in self) }
        ensures count { IfOk result (λ m. count_in m ≡ count_in self + 1) }
        ensures number { IfOk result (λ m. number_in m ≡ number_in self) }
        ensures rise { MayRise self → IfOk result MayRise }
    {
        match self {
            Monitor::Free { .. } => unreachable!(),
            Monitor::Held {
                thread,
                again,
                number,
            } => match again.checked_add(1) {
                Some(again) => Ok(Monitor::Held {
                    thread,
                    again,
                    number,
                }),
                None => Err(AllocError),
            },
        }
    }

    /// The monitor with one lock less, which leaves its owner others.
    pub(crate) fn unnested(self) -> Monitor
        requires { 1 < count_in self }
        ensures owner { owner_in result ≡ owner_in self }
        ensures count { count_in result ≡ count_in self - 1 }
        ensures number { number_in result ≡ number_in self }
        ensures rise { MayRise self → MayRise result }
    {
        match self {
            Monitor::Free { .. } => unreachable!(),
            Monitor::Held {
                thread,
                again,
                number,
            } => Monitor::Held {
                thread,
                again: again - 1,
                number,
            },
        }
    }

    /// How many locks its owner has, less one.
    pub(crate) fn again(self) -> u64
        requires { owner_in self ≢ None }
        ensures { count_in self ≡ result + 1 }
    {
        match self {
            Monitor::Free { .. } => unreachable!(),
            Monitor::Held { again, .. } => again,
        }
    }

    /// The monitor, free: its owner gives up all its locks, and its number rises by one.
    pub(crate) fn freed(self) -> Monitor
        requires rise { MayRise self }
        requires held { owner_in self ≢ None }
        ensures { result ≡ Monitor.Free (number_in self + 1) }
    {
        match self {
            Monitor::Free { .. } => unreachable!(),
            Monitor::Held { number, .. } => Monitor::Free { number: number + 1 },
        }
    }
}
