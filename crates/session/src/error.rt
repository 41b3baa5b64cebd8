//! Why a session refuses a call.

use std::hint;
use thiserror::Error;
use thread_steps::Seen;

/// Why a call is refused. The reasons are tried in this order, as far as a call has them.
///
/// A refused call leaves what is held and what was sent. It leaves the shared words too, with two exceptions: a monitor may have become
/// fat; and a call that is refused by `NoFat` may have raised the count of fat slots by one. The thread's view has what it looked at.
#[derive(Clone, Copy, Debug, Drop, Error, PartialEq, Eq)]
pub enum SessionError {
    /// No object has this number.
    #[error("unknown")]
    UnknownObject,
    /// No field has this number.
    #[error("unknown")]
    UnknownField,
    /// The session doesn't hold the monitor, or that of the field's guard.
    #[error("not held")]
    NotHeld,
    /// The helper is late: the ring, or the lane from where it was trimmed, lacks room for a whole section.
    #[error("behind")]
    Behind,
    /// The section, with the releases that it still needs, would have more than
    /// [`SECTION_RECORDS`](heap_model::SECTION_RECORDS) records.
    #[error("section full")]
    SectionFull,
    /// The session holds [`MOST_HELD`](crate::MOST_HELD) monitors already.
    #[error("too many")]
    TooMany,
    /// The session holds the monitor by [`FAT_LOCKS`](crate::FAT_LOCKS) locks already.
    #[error("too deep")]
    TooDeep,
    /// The monitor would have to become fat, and all [`FAT_SLOTS`](lock_word::FAT_SLOTS) slots are taken.
    #[error("no fat slot")]
    NoFat,
    /// Release numbers or places have come to their end.
    #[error("worn")]
    Worn,
    /// Another thread has the monitor, or had it between the look and the try. This is the word that was found.
    #[error("held")]
    Held(Seen),
}

/// Why a thread waits on.
#[derive(Clone, Copy, Debug, PartialEq, Eq)]
pub enum Still {
    /// Nobody has taken it out of the wait set.
    InSet,
    /// It is out of the wait set, but the monitor wasn't free, or has the last number. This is its word.
    Held(Seen),
}

/// Tells the compiler that a refusal is the seldom case, so that the way without one is laid out straight. It pauses for a moment,
/// since a thread that is refused mostly tries again.
#[cold]
#[inline(never)]
pub fn seldom() {
    hint::spin_loop();
}
