//! The lock word of a monitor that was inflated.

ghost use Rattle.std.specs.Prelude.{◌≡◌, ◌<◌, ◌≤◌, ◌↔◌, IsTrue, IfSome, Some};
ghost use Rattle.lock_word.specs.declared.fat_word.FatShape.{FatShape};
ghost use Rattle.lock_word.specs.declared.fat_word.FatShape.TheVariants.{Free, Held};
ghost use Rattle.lock_word.specs.FatWord.{bits_of, HasWord, CanNest, CanUnnest, CanRelease, nested, unnested, released};
ghost use Rattle.heap_model.specs.declared.limits.TheConstants.{LAST_NUMBER};

use heap_model::LAST_NUMBER;
use std::marker::Model;

/// The place of the locks less one, in 16 bits. Below it is the thread.
const AGAIN: u64 = 1 << 8;

/// The number's place in the word, in its upper 40 bits.
const NUMBER: u64 = 1 << 24;

/// What a fat word says of its monitor.
#[derive(Clone, Copy, Debug, PartialEq, Eq)]
pub enum FatShape {
    /// Nobody owns the monitor. It has become free `number` times.
    Free { number: u64 },
    /// The thread, whose lane's number is one less, owns the monitor, by `again + 1` locks.
    /// `number` is the release number at which it took it.
    Held { thread: u8, again: u16, number: u64 },
}

/// A fat word that says something. Contracts see it as its [`FatShape`].
#[derive(Clone, Copy, Debug, PartialEq, Eq)]
pub struct FatWord {
    shape: FatShape,
}

impl Model for FatWord {
    ghost use Rattle.lock_word.specs.declared.fat_word.FatShape.{FatShape};
    ghost use Rattle.lock_word.specs.FatWord.{HasWord};

    ghost Value = { FatShape };

    ghost view = { λ w. w.shape };

    ghost invariant = { λ w. HasWord w.shape };

    ghost inverse = { λ s. record { shape = s } };
}

impl FatWord {
    /// The word of a monitor that nobody owns, and that has become free `number` times.
    pub fn free(number: u64) -> FatWord
        requires { number ≤ LAST_NUMBER }
        ensures { result ≡ Free number }
    {
        FatWord {
            shape: FatShape::Free { number },
        }
    }

    /// The word of a monitor that `thread`, numbered from 1, owns by `again + 1` locks, having
    /// taken it at the release number `number`.
    pub fn held(thread: u8, again: u16, number: u64) -> FatWord
        requires thread { 0 < thread }
        requires number { number ≤ LAST_NUMBER }
        ensures { result ≡ Held thread again number }
    {
        let shape = FatShape::Held {
            thread,
            again,
            number,
        };
        FatWord { shape }
    }

    /// The lock that these 64 bits spell, if they spell one. Each lock is spelled by one word.
    pub fn parse(word: u64) -> Option<FatWord>
        // A lock that is read from a word has exactly the word's bits.
        ensures spelled { IfSome result (λ lock. (bits_of lock ≡ word) × HasWord lock) }
        // Each lock that has a word is read back from it.
        ensures back { (shape : FatShape) → HasWord shape → bits_of shape ≡ word
            → result ≡ Some shape }
    {
        let number = word / NUMBER;
        let low = word % NUMBER;
        let thread = low % AGAIN;
        let again = low / AGAIN;
        if thread > 0 {
            Some(FatWord::held(thread as u8, again as u16, number))
        } else if again == 0 {
            Some(FatWord::free(number))
        } else {
            None
        }
    }

    /// The 64 bits, as the table of shared words keeps them.
    pub fn bits(self) -> u64
        // The bits of a lock are those of the documented layout.
        ensures bits { result ≡ bits_of self }
        ensures within { HasWord self }
    {
        match self.shape {
            FatShape::Free { number } => number * NUMBER,
            FatShape::Held {
                thread,
                again,
                number,
            } => number * NUMBER + u64::from(again) * AGAIN + u64::from(thread),
        }
    }

    /// What the word says.
    pub fn shape(self) -> FatShape
        ensures shape { result ≡ self }
        ensures within { HasWord self }
    {
        self.shape
    }

    /// Whether there is an owner, and its count has room for one lock more.
    pub fn can_nest(self) -> bool
        ensures { IsTrue result ↔ CanNest self }
    {
        match self.shape {
            FatShape::Held { again, .. } => again < u16::MAX,
            FatShape::Free { .. } => false,
        }
    }

    /// The word after one lock more by the owner.
    pub fn nested(self) -> FatWord
        requires { CanNest self }
        // A nested lock adds one to the count, and changes nothing else.
        ensures { result ≡ nested self }
    {
        match self.shape {
            FatShape::Held {
                thread,
                again,
                number,
            } => FatWord::held(thread, again + 1, number),
            FatShape::Free { .. } => unreachable!(),
        }
    }

    /// Whether the owner keeps the monitor after one unlock.
    pub fn can_unnest(self) -> bool
        ensures { IsTrue result ↔ CanUnnest self }
    {
        match self.shape {
            FatShape::Held { again, .. } => again > 0,
            FatShape::Free { .. } => false,
        }
    }

    /// The word after an unlock that isn't the owner's last.
    pub fn unnested(self) -> FatWord
        requires { CanUnnest self }
        // A nested unlock takes one from the count, and changes nothing else.
        ensures { result ≡ unnested self }
    {
        match self.shape {
            FatShape::Held {
                thread,
                again,
                number,
            } => FatWord::held(thread, again - 1, number),
            FatShape::Free { .. } => unreachable!(),
        }
    }

    /// Whether there is an owner, and the monitor may become free once more.
    pub fn can_release(self) -> bool
        ensures { IsTrue result ↔ CanRelease self }
    {
        match self.shape {
            FatShape::Held { number, .. } => number < LAST_NUMBER,
            FatShape::Free { .. } => false,
        }
    }

    /// The word after the owner gave the monitor up, by its last unlock or by a wait with any
    /// count: the release number is the next.
    pub fn released(self) -> FatWord
        requires { CanRelease self }
        // A release gives the free word with the next number.
        ensures { result ≡ released self }
    {
        match self.shape {
            FatShape::Held { number, .. } => FatWord::free(number + 1),
            FatShape::Free { .. } => unreachable!(),
        }
    }
}
