//! The fields, and what stays the same about a heap.

ghost use Rattle.std.specs.Prelude.{◌≡◌, ◌<◌, [], ◌∷◌, Some, ℕ};
ghost use Rattle.heap_model.specs.declared.event.Event.TheVariants as event;
ghost use Rattle.heap_model.specs.Known.{known_value};
ghost use Rattle.thread_steps.specs.Views.{view, plan, IsSeatOf, KeepsEach, Lengthens, IsClear, IsAwake, IsHeld};

use heap_model::{FieldId, ObjectId};
use monitor::{Seat, Shared};

/// Loads a field whose guard the thread holds. One load.
pub fn read_field(shared: &Shared, seat: &mut Seat, field: FieldId) -> u64
    requires seat { IsSeatOf shared.now seat.old }
    requires field { field.0 < (plan shared.now).fields }
    requires held { IsHeld (view seat.old) ((plan shared.now).guard field.0) }
    requires free { IsClear (view seat.old) × IsAwake (view seat.old) }
    ensures seat { IsSeatOf shared.now seat.new }
    ensures clear { IsClear (view seat.new) }
    // The call adds just its event to the thread's view, with what the answer tells.
    ensures told { Lengthens (view seat.old) (view seat.new) (event.Load field result ∷ []) }
    // A load gives the value that the thread's own events tell of the field.
    ensures known { (value : ℕ) → known_value (plan shared.now) (view seat.old).events field.0 ≡ Some value → result ≡ value }
    ensures grips { KeepsEach (view seat.old) (view seat.new) }
{
    shared.read_field(seat, field)
}

/// Stores a field whose guard the thread holds. Returns the value before. One swap.
pub fn write_field(shared: &Shared, seat: &mut Seat, field: FieldId, value: u64) -> u64
    requires seat { IsSeatOf shared.now seat.old }
    requires field { field.0 < (plan shared.now).fields }
    requires held { IsHeld (view seat.old) ((plan shared.now).guard field.0) }
    requires free { IsClear (view seat.old) × IsAwake (view seat.old) }
    ensures seat { IsSeatOf shared.now seat.new }
    ensures clear { IsClear (view seat.new) }
    // The call adds just its event to the thread's view, with what the answer tells.
    ensures told { Lengthens (view seat.old) (view seat.new) (event.Store field result value ∷ []) }
    ensures grips { KeepsEach (view seat.old) (view seat.new) }
{
    shared.write_field(seat, field, value)
}

/// The object whose monitor guards the field.
pub fn guard(shared: &Shared, field: FieldId) -> ObjectId
    requires { field.0 < (plan shared.now).fields }
    ensures guard { result.0 ≡ (plan shared.now).guard field.0 }
    ensures named { result.0 < (plan shared.now).objects }
{
    shared.guard(field)
}

/// Whether logs keep the field's stores. Those of a transient field they don't.
pub fn is_logged(shared: &Shared, field: FieldId) -> bool
    requires { field.0 < (plan shared.now).fields }
    ensures { result ≡ (plan shared.now).is_logged field.0 }
{
    shared.is_logged(field)
}

/// How many objects there are.
pub fn objects(shared: &Shared) -> u64
    ensures { result ≡ (plan shared.now).objects }
{
    shared.objects() as u64
}

/// How many fields there are.
pub fn fields(shared: &Shared) -> u64
    ensures { result ≡ (plan shared.now).fields }
{
    shared.fields() as u64
}

/// The bound on release numbers: a monitor that has become free so often is never taken again.
pub fn last(shared: &Shared) -> u64
    ensures { result ≡ (plan shared.now).last }
{
    shared.last()
}
