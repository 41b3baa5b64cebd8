//! What a thread's log keeps of an event.
ghost use Rattle.std.specs.Prelude.{◌≡◌, ◌<◌};
ghost use Rattle.guards.specs.Schema.{field_count};
ghost use Rattle.heap_model.specs.declared.event.Event.TheVariants.{Store};
ghost use Rattle.heap_model.specs.History.{logged};
ghost use Rattle.script_monitors.specs.Table.{IsStepOf, setting_of};

use heap_model::{Event, FieldId, Record};
use script_monitors::Monitors;

/// The event's record, if a log keeps one: of first enters and resumes, last exits, waits, and the stores of persistent
/// fields (Atlas; waits are this project's own).
pub(crate) fn record_of(monitors: &Monitors, event: &Event) -> Option<Record>
    requires { IsStepOf (setting_of monitors.now) event.now }
    ensures { result ≡ logged (setting_of monitors.now) event.now }
{
    match event {
        Event::Enter { object, number } | Event::Resume { object, number } => Some(Record::Acq {
            object: *object,
            number: *number,
        }),
        Event::Exit { object, number } => Some(Record::Rel {
            object: *object,
            number: *number,
        }),
        Event::Wait { object, number } => Some(Record::WaitRel {
            object: *object,
            number: *number,
        }),
        Event::Store {
            field,
            before,
            after,
        } => store_record(monitors, *field, *before, *after),
        Event::NestedEnter { .. }
        | Event::NestedExit { .. }
        | Event::Load { .. }
        | Event::Notify { .. }
        | Event::NotifyAll { .. }
        | Event::Look { .. } => None,
    }
}

// No log keeps the store of a transient field.
fn store_record(monitors: &Monitors, field: FieldId, before: u64, after: u64) -> Option<Record>
    requires { field.0 < field_count monitors.now.schema }
    ensures { result ≡ logged (setting_of monitors.now) (Store field before after) }
{
    if monitors.schema().transient(field) {
        return None;
    }
    Some(Record::Put {
        field,
        before,
        after,
    })
}
