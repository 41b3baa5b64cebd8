//! The words that were written since the last sync, and memory for their entries.
ghost use Rattle.std.specs.Prelude.{◌≡◌, ◌⊎◌, ◌+◌, ◌*◌, ◌/◌, ◌^◌, ◌<◌, ◌≤◌, ℕ, [], length, IsTrue, IsFalse};
ghost use Rattle.std.specs.Vec.{vec_capacity, vec_len};
ghost use Rattle.disk_journal.specs.Kept.{AreWithin, HasRoom, Touches, words_among};

use journal_batches::Entry;

/// Notes the words in which a write lies, if there is memory for that and for their entries.
pub(crate) fn note_write(
    touched: &mut Vec<u64>,
    next: &mut Vec<Entry>,
    at: u64,
    len: usize,
    size: usize,
) -> bool
    requires fits { at + len ≤ size }
    requires words { size ≡ size / 8 * 8 }
    requires within { AreWithin size touched.old.items }
    requires room { HasRoom (vec_len touched.old) next.old.items (vec_len next.old) (vec_capacity next.old) }
    ensures within { AreWithin size touched.new.items }
    ensures all { IsTrue result → (i : ℕ) → Touches touched.old.items i ⊎ ((at ≤ i) × (i < at + len)) → Touches touched.new.items i }
    ensures few { IsTrue result → (n : ℕ) → words_among n touched.new.items ≤ words_among n touched.old.items + (len / 8 + 2) }
    ensures same { IsFalse result → touched.new.items ≡ touched.old.items }
    // There is memory for the entries of all words that wait, so that a sync needs none.
    ensures room { HasRoom (vec_len touched.new) next.new.items (vec_len next.new) (vec_capacity next.new) }
{
    if !reserve_entries(next, touched.len(), len) {
        return false;
    }
    touch(touched, at, len, size)
}

/// Notes the words in which these bytes lie, if there is memory for that.
pub(crate) fn touch(touched: &mut Vec<u64>, at: u64, len: usize, size: usize) -> bool
    requires fits { at + len ≤ size }
    requires words { size ≡ size / 8 * 8 }
    requires within { AreWithin size touched.old.items }
    ensures within { AreWithin size touched.new.items }
    // Each byte whose word was noted, and each of these bytes, lies in a word that is noted.
    ensures all { IsTrue result → (i : ℕ) → Touches touched.old.items i ⊎ ((at ≤ i) × (i < at + len)) → Touches touched.new.items i }
    // As many words more are noted as those in which the bytes lie, at most.
    ensures few { IsTrue result → (n : ℕ) → words_among n touched.new.items ≤ words_among n touched.old.items + (len / 8 + 2) }
    ensures len { IsTrue result → vec_len touched.new ≤ vec_len touched.old + (len / 8 + 2) }
    ensures same { IsFalse result → touched.new.items ≡ touched.old.items }
{
    if len == 0 {
        return true;
    }
    let first = at / 8;
    let count = ((at + len as u64 - 1) / 8 - first + 1) as usize;
    if touched.reserve(count).is_err() {
        return false;
    }
    note(touched, first, count);
    true
}

// Notes so many words from the first one on, for which there is room.
fn note(touched: &mut Vec<u64>, first: u64, count: usize)
    requires room { vec_len touched.old + count ≤ vec_capacity touched.old }
    requires fits { (first + count) * 8 < 2 ^ 64 }
    ensures within { (size : ℕ) → (first + count) * 8 ≤ size → AreWithin size touched.old.items → AreWithin size touched.new.items }
    ensures old { (i : ℕ) → Touches touched.old.items i → Touches touched.new.items i }
    ensures these { (i : ℕ) → first * 8 ≤ i → i < (first + count) * 8 → Touches touched.new.items i }
    ensures few { (n : ℕ) → words_among n touched.new.items ≤ words_among n touched.old.items + count }
    ensures len { vec_len touched.new ≡ vec_len touched.old + count }
{
    for word in 0..count {
        touched.push_reserved((first + word as u64) * 8);
    }
}

// Takes memory for as many entries as places were noted, and as a write of so many bytes notes at most. Whether there is that memory.
fn reserve_entries(next: &mut Vec<Entry>, noted: usize, len: usize) -> bool
    requires none { next.old.items ≡ [] }
    ensures room { IsTrue result → HasRoom (noted + (len / 8 + 2)) next.new.items (vec_len next.new) (vec_capacity next.new) }
    // Memory that was there stays.
    ensures keeps { (count : ℕ) → HasRoom count next.old.items (vec_len next.old) (vec_capacity next.old) → HasRoom count next.new.items (vec_len next.new) (vec_capacity next.new) }
{
    match noted.checked_add(len / 8 + 2) {
        Some(count) => next.reserve(count).is_ok(),
        None => false,
    }
}
