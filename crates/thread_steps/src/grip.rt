//! What steps find, and what a thread knows of the monitors that it holds.

use heap_model::ObjectId;
use lock_word::{FatWord, LockWord};

/// A word as a step found it: a lock word, or the word of a fat slot.
#[derive(Clone, Copy, Debug, PartialEq, Eq)]
pub enum Seen {
    /// The object's lock word.
    Lock(LockWord),
    /// The word of the object's fat slot.
    Fat(FatWord),
}

/// What a look found: the lock word, and where that is fat the word of its slot.
#[derive(Clone, Copy, Debug, PartialEq, Eq)]
pub struct Sighted {
    pub lock: LockWord,
    pub fat: Option<FatWord>,
}

/// What a thread knows of a monitor that it holds. It stays right until the thread's next step on the object.
#[derive(Clone, Copy, Debug, PartialEq, Eq)]
pub struct Grip {
    pub object: ObjectId,
    /// By how many locks the thread holds it: 1 to [`THIN_LOCKS`](crate::THIN_LOCKS) thin, to [`FAT_LOCKS`](crate::FAT_LOCKS) fat.
    pub count: u32,
    /// The release number at which it was taken.
    pub number: u64,
    /// The fat slot, or `None` for a thin monitor.
    pub slot: Option<u32>,
}

/// No hold: a filling for fixed arrays.
impl Default for Grip {
    fn default() -> Grip {
        Grip {
            object: ObjectId(0),
            count: 0,
            number: 0,
            slot: None,
        }
    }
}
