//! Whether a thread waits (JLS 17.2).
ghost use Rattle.std.specs.Prelude.{◌≡◌, ◌≢◌, ◌+◌};
ghost use Rattle.heap_model.specs.State.{Awake, kept_count, woken, woken_from};
ghost use Rattle.script_monitors.specs.WaitSets.{is_in_set, waiting_in};

use heap_model::ObjectId;

/// What a thread waits for. The locks that it keeps aside are `again + 1`.
#[derive(Clone, Copy)]
pub(crate) enum Pause {
    /// It doesn't wait.
    Awake,
    /// It is in the object's wait set.
    InSet { object: ObjectId, again: u64 },
    /// It was removed from the object's wait set, and hasn't taken the monitor again.
    Woken { object: ObjectId, again: u64 },
}

impl Pause {
    /// Whether the thread is in this object's wait set.
    pub(crate) fn is_in(self, object: ObjectId) -> bool
        ensures { result ≡ is_in_set object.0 (waiting_in self) }
    {
        match self {
            Pause::InSet { object: other, .. } => other.0 == object.0,
            Pause::Awake | Pause::Woken { .. } => false,
        }
    }

    /// How many locks the thread keeps aside, less one.
    pub(crate) fn again(self) -> u64
        requires { waiting_in self ≢ Awake }
        ensures { kept_count (waiting_in self) ≡ result + 1 }
    {
        match self {
            Pause::Awake => unreachable!(),
            Pause::InSet { again, .. } | Pause::Woken { again, .. } => again,
        }
    }

    /// The thread, removed from its wait set.
    pub(crate) fn woken(self) -> Pause
        ensures { waiting_in result ≡ woken (waiting_in self) }
    {
        match self {
            Pause::InSet { object, again } => Pause::Woken { object, again },
            other => other,
        }
    }

    /// The thread, removed from the object's wait set, if it is in that one.
    pub(crate) fn woken_from(self, object: ObjectId) -> Pause
        ensures { waiting_in result ≡ woken_from object.0 (waiting_in self) }
    {
        if self.is_in(object) {
            self.woken()
        } else {
            self
        }
    }
}
