//! The words that threads share, and what stays the same about them.

ghost use Rattle.std.specs.Prelude.{◌≡◌, ◌<◌, ◌^◌};
ghost use Rattle.monitor.specs.Words.{objects, fields, setting_of};

use crate::view::{Key, View};
use atomic_table::{Table, TableRule};
use guards::Schema;
use heap_model::{FieldId, ObjectId};
use std::alloc::Global;
use std::marker::Model;

/// The rule that the words keep between any two steps: they spell the state of one legal history, whose
/// part of each lane is what its seat knows.
pub struct Lawful;

impl TableRule<(), View, Key> for Lawful {
    ghost use Rattle.monitor.specs.Rule.{Kept};
    ghost use Rattle.monitor.specs.Words.{plan_of};
    ghost use Rattle.monitor.specs.Views.{helper};

    // Between any two atomic steps one legal history has each seat's view as its part, and the shared words spell the
    // state after it.
    ghost holds = { λ k. Kept (plan_of k) };

    ghost first = { λ k. helper (plan_of k) };
}

/// The words of one heap that threads share: a lock word and a wait mask for each object, the words of the
/// fat slots and their count, a word for each field, and two published numbers for each lane.
///
/// Threads step on them through a `&Shared`, each with its [`Seat`](crate::Seat). A step is one atomic step, or a few
/// where its doc says so; none locks, allocates or waits. Contracts see a `Shared` as a `Home`: which table it
/// is, and its plan, which never changes.
#[derive(Drop)]
pub struct Shared {
    pub(crate) table: Table<(), View, Key, Lawful, Global>,
    pub(crate) object_total: usize,
    pub(crate) field_total: usize,
    // Where the fields begin.
    pub(crate) field_base: usize,
    pub(crate) last: u64,
    pub(crate) schema: Schema,
}

impl Model for Shared {
    ghost use Rattle.monitor.specs.Words.{plan_of};
    ghost use Rattle.monitor.specs.Seats.{Home, IsHome};

    ghost Value = { Home };

    ghost view = { λ s. record { table = s.table.shared.table_id; plan = plan_of s.table.shared.key } };

    ghost invariant = { λ s. IsHome (plan_of s.table.shared.key) s.table.shared.table_id s.object_total s.field_total s.field_base s.last s.schema };
}

impl Shared {
    /// How many objects there are.
    pub fn objects(&self) -> usize
        ensures { result ≡ objects self.now.plan }
    {
        self.object_total
    }

    /// How many fields there are.
    pub fn fields(&self) -> usize
        ensures { result ≡ fields self.now.plan }
    {
        self.field_total
    }

    /// The object whose monitor guards the field.
    pub fn guard(&self, field: FieldId) -> ObjectId
        requires { field.0 < fields self.now.plan }
        ensures guard { result.0 ≡ (setting_of self.now.plan).guard field.0 }
        ensures named { result.0 < objects self.now.plan }
    {
        let _total = self.field_total;
        self.schema.guard(field)
    }

    /// Whether logs keep the field's stores. Those of a transient field they don't.
    pub fn is_logged(&self, field: FieldId) -> bool
        requires { field.0 < fields self.now.plan }
        ensures { result ≡ (setting_of self.now.plan).is_logged field.0 }
    {
        let _total = self.field_total;
        !self.schema.transient(field)
    }

    /// The bound on release numbers, below 2^40: a monitor that has become free so often is never taken again.
    pub fn last(&self) -> u64
        ensures last { result ≡ self.now.plan.last }
        ensures low { result < 2 ^ 40 }
    {
        self.last
    }
}
