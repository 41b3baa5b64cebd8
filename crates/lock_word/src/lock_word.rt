//! An object's lock word.

ghost use Rattle.std.specs.Prelude.{◌≡◌, ◌<◌, ◌≤◌, ◌↔◌, IsTrue, IfSome, Some};
ghost use Rattle.lock_word.specs.declared.lock_word.Shape.{Shape};
ghost use Rattle.lock_word.specs.declared.lock_word.Shape.TheVariants.{Free, Thin, Fat};
ghost use Rattle.lock_word.specs.LockWord.{bits_of, HasWord, CanNest, CanUnnest, CanRelease, nested, unnested, released};
ghost use Rattle.heap_model.specs.declared.limits.TheConstants.{LAST_NUMBER};

use heap_model::LAST_NUMBER;
use std::marker::Model;

/// One more than the greatest thread number that a thin word has room for, in 15 bits. Threads
/// are numbered from 1.
pub const THIN_THREADS: u16 = 32_768;

/// How many fat slots there are. They are numbered from 0.
pub const FAT_SLOTS: u32 = 1_024;

/// The thread's place in a thin word. Below it are the locks less one, in 8 bits.
const THREAD: u64 = 1 << 8;

/// The bit that is set in a fat word.
const FAT: u64 = 1 << 23;

/// The number's place in the word, in its upper 40 bits.
const NUMBER: u64 = 1 << 24;

/// What a lock word says of its monitor.
#[derive(Clone, Copy, Debug, PartialEq, Eq)]
pub enum Shape {
    /// Nobody owns the monitor. It has become free `number` times.
    Free { number: u64 },
    /// The thread, whose lane's number is one less, owns the monitor, by `again + 1` locks.
    /// `number` is the release number at which it took it.
    Thin { thread: u16, again: u8, number: u64 },
    /// The monitor is in the fat slot `index`, whose word says the rest. `number` is the release
    /// number at inflation.
    Fat { index: u32, number: u64 },
}

/// A lock word that says something. Contracts see it as its [`Shape`].
#[derive(Clone, Copy, Debug, PartialEq, Eq)]
pub struct LockWord {
    shape: Shape,
}

impl Model for LockWord {
    ghost use Rattle.lock_word.specs.declared.lock_word.Shape.{Shape};
    ghost use Rattle.lock_word.specs.LockWord.{HasWord};

    ghost Value = { Shape };

    ghost view = { λ w. w.shape };

    ghost invariant = { λ w. HasWord w.shape };

    ghost inverse = { λ s. record { shape = s } };
}

impl LockWord {
    /// The word of a monitor that nobody owns, and that has become free `number` times.
    pub fn free(number: u64) -> LockWord
        requires { number ≤ LAST_NUMBER }
        ensures { result ≡ Free number }
    {
        LockWord {
            shape: Shape::Free { number },
        }
    }

    /// The word of a monitor that `thread`, numbered from 1, owns by `again + 1` locks, having
    /// taken it at the release number `number`.
    pub fn thin(thread: u16, again: u8, number: u64) -> LockWord
        requires thread { (0 < thread) × (thread < THIN_THREADS) }
        requires number { number ≤ LAST_NUMBER }
        ensures { result ≡ Thin thread again number }
    {
        let shape = Shape::Thin {
            thread,
            again,
            number,
        };
        LockWord { shape }
    }

    /// The word of a monitor that was inflated into the slot `index`, at the release number
    /// `number`.
    pub fn fat(index: u32, number: u64) -> LockWord
        requires index { index < FAT_SLOTS }
        requires number { number ≤ LAST_NUMBER }
        ensures { result ≡ Fat index number }
    {
        LockWord {
            shape: Shape::Fat { index, number },
        }
    }

    /// The lock that these 64 bits spell, if they spell one. Each lock is spelled by one word.
    pub fn parse(word: u64) -> Option<LockWord>
        // A lock that is read from a word has exactly the word's bits.
        ensures spelled { IfSome result (λ lock. (bits_of lock ≡ word) × HasWord lock) }
        // Each lock that has a word is read back from it.
        ensures back { (shape : Shape) → HasWord shape → bits_of shape ≡ word
            → result ≡ Some shape }
    {
        let number = word / NUMBER;
        let low = word % NUMBER;
        if low >= FAT {
            return Self::parse_fat(low - FAT, number);
        }
        let thread = low / THREAD;
        let again = low % THREAD;
        if thread > 0 {
            Some(LockWord::thin(thread as u16, again as u8, number))
        } else if again == 0 {
            Some(LockWord::free(number))
        } else {
            None
        }
    }

    // The fat word with these bits for its index, if there is such a slot.
    fn parse_fat(index: u64, number: u64) -> Option<LockWord>
        requires { number ≤ LAST_NUMBER }
        ensures some { index < FAT_SLOTS → result ≡ Some (Fat index number) }
        ensures none { FAT_SLOTS ≤ index → result ≡ None }
    {
        if index < u64::from(FAT_SLOTS) {
            Some(LockWord::fat(index as u32, number))
        } else {
            None
        }
    }

    /// The 64 bits, as the table of shared words keeps them.
    pub fn bits(self) -> u64
        // The bits of a lock are those of the documented layout.
        ensures bits { result ≡ bits_of self }
        ensures within { HasWord self }
    {
        match self.shape {
            Shape::Free { number } => number * NUMBER,
            Shape::Thin {
                thread,
                again,
                number,
            } => number * NUMBER + u64::from(thread) * THREAD + u64::from(again),
            Shape::Fat { index, number } => number * NUMBER + FAT + u64::from(index),
        }
    }

    /// What the word says.
    pub fn shape(self) -> Shape
        ensures shape { result ≡ self }
        ensures within { HasWord self }
    {
        self.shape
    }

    /// Whether the owner may lock once more and leave the lock thin.
    pub fn can_nest(self) -> bool
        ensures { IsTrue result ↔ CanNest self }
    {
        match self.shape {
            Shape::Thin { again, .. } => again < u8::MAX,
            Shape::Free { .. } | Shape::Fat { .. } => false,
        }
    }

    /// The word after one lock more by the owner.
    pub fn nested(self) -> LockWord
        requires { CanNest self }
        // A nested lock adds one to the count, and changes nothing else.
        ensures { result ≡ nested self }
    {
        match self.shape {
            Shape::Thin {
                thread,
                again,
                number,
            } => LockWord::thin(thread, again + 1, number),
            Shape::Free { .. } | Shape::Fat { .. } => unreachable!(),
        }
    }

    /// Whether the owner keeps the monitor after one unlock.
    pub fn can_unnest(self) -> bool
        ensures { IsTrue result ↔ CanUnnest self }
    {
        match self.shape {
            Shape::Thin { again, .. } => again > 0,
            Shape::Free { .. } | Shape::Fat { .. } => false,
        }
    }

    /// The word after an unlock that isn't the owner's last.
    pub fn unnested(self) -> LockWord
        requires { CanUnnest self }
        // A nested unlock takes one from the count, and changes nothing else.
        ensures { result ≡ unnested self }
    {
        match self.shape {
            Shape::Thin {
                thread,
                again,
                number,
            } => LockWord::thin(thread, again - 1, number),
            Shape::Free { .. } | Shape::Fat { .. } => unreachable!(),
        }
    }

    /// Whether the monitor, which a thread owns, may become free once more.
    pub fn can_release(self) -> bool
        ensures { IsTrue result ↔ CanRelease self }
    {
        match self.shape {
            Shape::Thin { number, .. } => number < LAST_NUMBER,
            Shape::Free { .. } | Shape::Fat { .. } => false,
        }
    }

    /// The word after the owner gave the monitor up: the release number is the next.
    pub fn released(self) -> LockWord
        requires { CanRelease self }
        // A release gives the free word with the next number.
        ensures { result ≡ released self }
    {
        match self.shape {
            Shape::Thin { number, .. } => LockWord::free(number + 1),
            Shape::Free { .. } | Shape::Fat { .. } => unreachable!(),
        }
    }
}
