//! Who holds each object, and its release number.
ghost use Rattle.std.specs.Prelude.{◌≡◌, length};

use heap_model::{Lane, MOST_OBJECTS, ObjectId, UndoRecord};

/// By object: the lane that holds it, and its release number, how often it has become free.
#[derive(Drop)]
pub struct Monitors {
    holders: [Option<Lane>; 4096],
    numbers: [u64; 4096],
    ghost all_holders: { length holders ≡ 4096 },
    ghost all_numbers: { length numbers ≡ 4096 },
}

impl Monitors {
    ghost use Rattle.std.specs.Prelude.{◌≡◌, ◌↔◌, ◌<◌, ◌∷◌, ℕ, IsTrue, List, [], None, Some, slice_index};
    ghost use Rattle.recover_logs.specs.Limits.{IsInRange, IsOfObjects};
    ghost use Rattle.recover_logs.specs.Monitors.{AnswersAllowed, AreMonitors, IsAllowedBy, NotesRecord, holder_at, holders_after, number_at, numbers_after};

    /// The monitors before any record: all free, at these numbers.
    pub fn free_at(numbers: [u64; 4096]) -> Monitors
        ensures free { AreMonitors (slice_index numbers) [] result }
        ensures numbers { number_at result ≡ slice_index numbers }
    {
        Monitors {
            holders: [None; MOST_OBJECTS],
            numbers,
        }
    }

    /// Whether the lane may do the record next, as far as the monitors go: it takes a free object at its number, frees one
    /// that it holds from that number, or stores to a field whose guard it holds. For a store, `guard` is the field's,
    /// or `None` where logs keep no store of the field: then no lane may do it.
    pub fn allows(&self, lane: Lane, next: UndoRecord, guard: Option<ObjectId>) -> bool
        requires objects { IsOfObjects (λ f. guard) 4096 next }
        // The answer is true exactly where the monitors allow the lane's record after the records so far.
        ensures allowed { AnswersAllowed self.now lane next guard result }
        ensures tables { IsTrue result ↔ IsAllowedBy (λ f. guard) self.now lane.0 next }
    {
        match next {
            UndoRecord::Acq { object, number } => self.is_free(object)
                && self.is_at(object, number),
            UndoRecord::Rel { object, number } | UndoRecord::WaitRel { object, number } => {
                self.is_held(object, lane) && self.is_at(object, number)
            }
            UndoRecord::Put { .. } => match guard {
                Some(object) => self.is_held(object, lane),
                None => false,
            },
        }
    }

    /// Notes what the lane's record makes of the monitors.
    pub fn note(&mut self, lane: Lane, done: UndoRecord)
        requires range { IsInRange done }
        // What is noted are the monitors after one record more.
        ensures noted { NotesRecord self.old lane done self.new }
        ensures holders { self.new.holders ≡ holders_after self.old.holders lane.0 done }
        ensures numbers { self.new.numbers ≡ numbers_after self.old.numbers done }
    {
        match done {
            UndoRecord::Acq { object, .. } => {
                self.holders[object.0 as usize] = Some(lane);
            }
            UndoRecord::Rel { object, number } | UndoRecord::WaitRel { object, number } => {
                self.holders[object.0 as usize] = None;
                self.numbers[object.0 as usize] = number + 1;
            }
            UndoRecord::Put { .. } => {}
        }
    }

    // Whether nobody holds the object.
    fn is_free(&self, object: ObjectId) -> bool
        requires { object.0 < 4096 }
        ensures { IsTrue result ↔ (holder_at self.now object.0 ≡ None) }
    {
        self.holders[object.0 as usize].is_none()
    }

    // Whether the lane holds the object.
    fn is_held(&self, object: ObjectId, lane: Lane) -> bool
        requires { object.0 < 4096 }
        ensures { IsTrue result ↔ (holder_at self.now object.0 ≡ Some lane) }
    {
        self.holders[object.0 as usize] == Some(lane)
    }

    // Whether the object stands at this number.
    fn is_at(&self, object: ObjectId, number: u64) -> bool
        requires { object.0 < 4096 }
        ensures { IsTrue result ↔ (number_at self.now object.0 ≡ number) }
    {
        self.numbers[object.0 as usize] == number
    }
}
