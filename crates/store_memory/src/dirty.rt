//! Which fields have a logged store newer than their last home write.

ghost use Rattle.std.specs.Prelude.{◌≡◌, ◌<◌, ◌/◌, ◌==◌, ℕ, true, false, if◌then◌else◌, nat_lt, length, slice_index, IsTrue, IfOk, MatchOption};
ghost use Rattle.store_memory.specs.Bits.{has_bit};
ghost use Rattle.store_memory.specs.Dirty.{is_dirty_in, IsLeastDirty};

use crate::bits::{clear_bit, first_word, has, lowest_in, set_bit, word_of};
use heap_model::FieldId;
use std::alloc::{AllocError, Global};
use std::marker::Model;

/// The dirty fields: those with a logged store newer than their last home write.
///
/// A word of bits for 64 fields, and above them a summary with a bit for each word. The least field is
/// found from the summary's first word that isn't 0: of 16,384 fields there are four such words.
#[derive(Drop)]
pub struct DirtyFields {
    fields: u32,
    words: Vec<u64>,
    // Bit w is set where word w isn't 0.
    summary: Vec<u64>,
}

impl Model for DirtyFields {
    ghost use Rattle.store_memory.specs.Dirty.{DirtySet};

    ghost Value = { DirtySet };

    ghost use Rattle.store_memory.specs.Dirty.{IsSummed};

    ghost view = { λ d. record { fields = d.fields; words = d.words.items } };

    ghost invariant = { λ d. IsSummed d.fields d.words.items d.summary.items };
}

impl DirtyFields {
    /// So many fields, none of them dirty.
    pub fn new(alloc: Global, fields: u32) -> Result<DirtyFields, AllocError>
        ensures fields { IfOk result (λ d. d.fields ≡ fields) }
        ensures clean { IfOk result (λ d. (f : ℕ) → is_dirty_in d f ≡ false) }
    {
        let words = word_of(fields as usize) + 1;
        Ok(DirtyFields {
            fields,
            words: vec![in alloc; 0; words]?,
            summary: vec![in alloc; 0; word_of(words) + 1]?,
        })
    }

    /// Makes the field dirty, where it isn't yet. A number that no field has changes nothing.
    pub fn mark(&mut self, field: FieldId)
        ensures marked { (f : ℕ) → f < self.old.fields → is_dirty_in self.new f ≡ (if field.0 == f then true else is_dirty_in self.old f) }
        ensures fields { self.new.fields ≡ self.old.fields }
    {
        if self.is_dirty(field) {
            return;
        }
        self.set(field);
    }

    // Whether the field is dirty.
    fn is_dirty(&self, field: FieldId) -> bool
        ensures { IsTrue result → is_dirty_in self.now field.0 ≡ true }
    {
        field.0 < self.fields && has(&self.words, field.0 as usize)
    }

    // Makes the field dirty.
    fn set(&mut self, field: FieldId)
        ensures marked { (f : ℕ) → f < self.old.fields → is_dirty_in self.new f ≡ (if field.0 == f then true else is_dirty_in self.old f) }
        ensures fields { self.new.fields ≡ self.old.fields }
    {
        if field.0 < self.fields {
            let at = field.0 as usize;
            set_bit(&mut self.words, at);
            sum_up(&self.words, &mut self.summary, word_of(at));
        }
    }

    /// Makes the field clean.
    pub fn clear(&mut self, field: FieldId)
        ensures cleared { (f : ℕ) → is_dirty_in self.new f ≡ (if field.0 == f then false else is_dirty_in self.old f) }
        ensures fields { self.new.fields ≡ self.old.fields }
    {
        if field.0 < self.fields {
            let at = field.0 as usize;
            clear_bit(&mut self.words, at);
            sum_up(&self.words, &mut self.summary, word_of(at));
        }
    }

    /// The least dirty field, if one is. The time is that of looking at one bit for each 4,096 fields.
    pub fn least(&self) -> Option<FieldId>
        ensures { MatchOption result ((f : ℕ) → is_dirty_in self.now f ≡ false) (λ field. IsLeastDirty self.now field.0) }
    {
        match first_word(&self.summary) {
            Some(group) => {
                let word = lowest_in(&self.summary, group);
                Some(FieldId(lowest_in(&self.words, word) as u32))
            }
            None => None,
        }
    }
}

// Says in the summary whether the word is 0.
fn sum_up(words: &[u64], summary: &mut [u64], word: usize)
    requires word { word < length words.now }
    requires summary { word / 64 < length summary.old }
    ensures { (w : ℕ) → has_bit summary.new w ≡ (if word == w then nat_lt 0 (slice_index words.now word) else has_bit summary.old w) }
{
    if words[word] == 0 {
        clear_bit(summary, word);
    } else {
        set_bit(summary, word);
    }
}
