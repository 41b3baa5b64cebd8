//! The numbers that name an object, a field and a lane.
//!
//! Each has a type of its own, so that none is taken for another.

ghost use Rattle.std.specs.Prelude.{◌≡◌, ◌+◌, ◌-◌, ◌≤◌, ◌<◌, ◌↔◌, ◌⊎◌, Some, None};
ghost use Rattle.heap_model.specs.declared.limits.TheConstants.{LANES};

use crate::limits::LANES;

/// An object, numbered from 0 in the order of declaration. Each object has one monitor.
#[derive(Clone, Copy, Debug, PartialEq, Eq)]
pub struct ObjectId(pub u32);

/// A field, numbered from 0 over all objects, in the order of declaration.
#[derive(Clone, Copy, Debug, PartialEq, Eq)]
pub struct FieldId(pub u32);

/// A thread and its log, numbered from 0. Texts show lane 0 as `t1`.
#[derive(Clone, Copy, Debug, PartialEq, Eq)]
pub struct Lane(pub u8);

impl Lane {
    /// The number by which texts and words name the lane's thread, from 1.
    pub fn thread(self) -> u64
        // Texts show a lane as its number plus one.
        ensures { result ≡ self.0 + 1 }
    {
        u64::from(self.0) + 1
    }

    /// The lane of the thread of this number, from 1. No heap has a lane for 0, nor for a number
    /// past [`LANES`].
    pub fn of_thread(thread: u64) -> Option<Lane>
        // A number that texts show is read back as its lane.
        ensures found { 0 < thread → thread ≤ LANES → result ≡ Some (record { 0 = thread - 1 }) }
        ensures none { (result ≡ None) ↔ ((thread ≡ 0) ⊎ (LANES < thread)) }
    {
        if thread == 0 || thread > LANES as u64 {
            return None;
        }
        Some(Lane((thread - 1) as u8))
    }
}
