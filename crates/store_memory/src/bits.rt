//! Sets of numbers as bits, 64 a word.

ghost use Rattle.std.specs.Prelude.{◌≡◌, ◌≢◌, ◌<◌, ◌/◌, ◌^◌, ◌==◌, ℕ, true, false, if◌then◌else◌, length, slice_index, MatchOption};
ghost use Rattle.store_memory.specs.Bits.{has_bit, IsLowestIn, IsFirstWord};

// The bits of a word.
const WORD_BITS: usize = 64;

/// The word that has the number's bit.
pub fn word_of(at: usize) -> usize
    ensures { result ≡ at / 64 }
{
    at / WORD_BITS
}

/// Whether the number is in the set.
pub fn has(words: &[u64], at: usize) -> bool
    requires { at / 64 < length words.now }
    ensures { result ≡ has_bit words.now at }
{
    (words[at / WORD_BITS] >> (at % WORD_BITS)) & 1 == 1
}

/// Puts the number into the set.
pub fn set_bit(words: &mut [u64], at: usize)
    requires { at / 64 < length words.old }
    ensures bits { (i : ℕ) → has_bit words.new i ≡ (if at == i then true else has_bit words.old i) }
    ensures others { (w : ℕ) → w ≢ at / 64 → slice_index words.new w ≡ slice_index words.old w }
{
    words[at / WORD_BITS] |= 1u64 << (at % WORD_BITS);
}

/// Takes the number out of the set.
pub fn clear_bit(words: &mut [u64], at: usize)
    requires { at / 64 < length words.old }
    ensures bits { (i : ℕ) → has_bit words.new i ≡ (if at == i then false else has_bit words.old i) }
    ensures others { (w : ℕ) → w ≢ at / 64 → slice_index words.new w ≡ slice_index words.old w }
{
    words[at / WORD_BITS] &= !(1u64 << (at % WORD_BITS));
}

/// The first word that isn't 0.
pub fn first_word(words: &[u64]) -> Option<usize>
    ensures { MatchOption result ((w : ℕ) → slice_index words.now w ≡ 0) (IsFirstWord words.now) }
{
    for (place, word) in words.iter().enumerate() {
        if *word != 0 {
            return Some(place);
        }
    }
    None
}

/// The least number of the set that is in this word, which isn't 0.
pub fn lowest_in(words: &[u64], word: usize) -> usize
    requires some { 0 < slice_index words.now word }
    requires fits { word < 2 ^ 32 }
    ensures { IsLowestIn words.now word result }
{
    word * WORD_BITS + words[word].trailing_zeros() as usize
}
