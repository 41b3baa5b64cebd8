//! The plain machine of monitors: which thread owns each, how often it has become free, and each field's value.
ghost use Rattle.std.specs.Prelude.{◌≡◌, ◌<◌, ◌≤◌, ◌↔◌, IsTrue, Some, None, length, replicate, slice_index, slice_set, IfOk, OnOk, OnErr};
ghost use Rattle.guards.specs.Schema.{object_count, field_count, first_of};
ghost use Rattle.heap_model.specs.State.{initial_state, Awake};
ghost use Rattle.heap_model.specs.Events.{MayDo};
ghost use Rattle.heap_model.specs.History.{logged};
ghost use Rattle.script_monitors.specs.Monitor.{MayRise};
ghost use Rattle.script_monitors.specs.Asking.{EnterIs, ExitIs, LoadIs, StoreIs, WaitIs};
ghost use Rattle.script_monitors.specs.Table.{monitor_at, pause_at, lanes_of, setting_of, state_of, IsWhole, IsStepOf, IsAfter, Has};
ghost use Rattle.script_monitors.specs.WaitSets.{IsPauseOf};
ghost use Rattle.heap_model.specs.declared.event.Event.TheVariants.{Enter, NestedEnter, NestedExit, Exit, Load, Store, Wait};

use crate::monitor::Monitor;
use crate::pause::Pause;
use crate::refusal::MonitorRefusal;
use crate::values::{first_values, values_in};
use guards::Schema;
use heap_model::{Event, FieldId, Lane, ObjectId};
use std::alloc::{AllocError, Global};
use std::marker::Model;

/// The monitors and the values of a schema's objects and fields. Contracts see them as `heap_model`'s plain state
/// ([`State`](heap_model)), and what a thread does as an event of it.
///
/// A step is asked for before it is done: `may_enter`, `may_exit`, `may_store`, `may_wait` and `may_resume` answer the event
/// that the step would be, or refuse it; [`Monitors::perform`] does it. So whoever keeps the record of the event may refuse
/// it in between. Waits lie in `wait_sets`.
#[derive(Drop)]
pub struct Monitors {
    schema: Schema,
    last: u64,
    monitors: Vec<Monitor>,
    // By lane.
    pauses: Vec<Pause>,
    values: Vec<u64>,
}

impl Model for Monitors {
    ghost use Rattle.script_monitors.specs.Table.{Table, IsWhole};

    ghost Value = { Table };

    ghost view = { λ m. record { schema = m.schema; last = m.last; monitors = m.monitors.items; pauses = m.pauses.items; values = m.values.items } };

    ghost invariant = { λ m. IsWhole (record { schema = m.schema; last = m.last; monitors = m.monitors.items; pauses = m.pauses.items; values = m.values.items }) };
}

impl Monitors {
    /// All monitors free, with release number 0, each field with its first value, and so many threads, all awake. A
    /// monitor whose number is `last` or more is never taken.
    pub fn new(alloc: Global, schema: Schema, last: u64, lanes: u8) -> Result<Monitors, AllocError>
        requires { lanes ≤ 32 }
        ensures lanes { IfOk result (λ m. lanes_of m ≡ lanes) }
        ensures schema { IfOk result (λ m. m.schema ≡ schema) }
        ensures last { IfOk result (λ m. m.last ≡ last) }
        // At first all monitors are free, and the fields have the schema's first values.
        ensures state { IfOk result (λ m. state_of m ≡ initial_state (first_of schema)) }
    {
        match first_values(alloc, &schema) {
            Ok(values) => Monitors::holding(alloc, schema, last, lanes, values),
            Err(why) => {
                drop(schema);
                Err(why)
            }
        }
    }

    /// All monitors free, with release number 0, each field with its value in `heap`, and so many threads, all awake.
    pub fn with_values(
        alloc: Global,
        schema: Schema,
        last: u64,
        lanes: u8,
        heap: &[u64],
    ) -> Result<Monitors, AllocError>
        requires { lanes ≤ 32 }
        ensures lanes { IfOk result (λ m. lanes_of m ≡ lanes) }
        ensures schema { IfOk result (λ m. m.schema ≡ schema) }
        ensures last { IfOk result (λ m. m.last ≡ last) }
        // At first all monitors are free.
        ensures state { IfOk result (λ m. state_of m ≡ initial_state (slice_index m.values)) }
        // At first the fields have the values of the heap that is given.
        ensures values { IfOk result (λ m. Has m.values (field_count schema) (slice_index heap.now)) }
    {
        match values_in(alloc, heap, schema.fields() as usize) {
            Ok(values) => Monitors::holding(alloc, schema, last, lanes, values),
            Err(why) => {
                drop(schema);
                Err(why)
            }
        }
    }

    // All monitors free, and the fields with these values.
    fn holding(
        alloc: Global,
        schema: Schema,
        last: u64,
        lanes: u8,
        values: Vec<u64>,
    ) -> Result<Monitors, AllocError>
        requires values { length values.items ≡ field_count schema }
        requires few { lanes ≤ 32 }
        ensures lanes { IfOk result (λ m. lanes_of m ≡ lanes) }
        ensures schema { IfOk result (λ m. m.schema ≡ schema) }
        ensures last { IfOk result (λ m. m.last ≡ last) }
        ensures values { IfOk result (λ m. m.values ≡ values.items) }
        ensures state { IfOk result (λ m. state_of m ≡ initial_state (slice_index values.items)) }
    {
        let monitors = match free_monitors(alloc, schema.objects() as usize) {
            Ok(monitors) => monitors,
            Err(why) => {
                drop(schema);
                drop(values);
                return Err(why);
            }
        };
        let pauses = match awake(alloc, lanes) {
            Ok(pauses) => pauses,
            Err(why) => {
                drop(schema);
                drop(monitors);
                drop(values);
                return Err(why);
            }
        };
        Ok(Monitors {
            schema,
            last,
            monitors,
            pauses,
            values,
        })
    }

    /// The schema.
    pub fn schema(&self) -> &Schema
        ensures { result.now ≡ self.now.schema }
    {
        &self.schema
    }

    /// The bound on release numbers.
    pub(crate) fn last(&self) -> u64
        ensures { result ≡ self.now.last }
    {
        self.last
    }

    /// There is a monitor for each object and a value for each field, whatever was done.
    pub(crate) fn whole_law(&self)
        ensures { IsWhole self.now }
    {
        let _ = &self.monitors;
    }

    /// The schema, without the monitors.
    pub fn into_schema(self) -> Schema
        ensures { result ≡ self.schema }
    {
        let Monitors { schema, .. } = self;
        schema
    }

    /// What it would be if the thread locked the object's monitor: a first lock of a free one, or one more of its own.
    pub fn may_enter(&self, thread: Lane, object: ObjectId) -> Result<Event, MonitorRefusal>
        requires { object.0 < object_count self.now.schema }
        // A thread is answered the event that its lock would be, which the model allows, or why there is none.
        ensures { EnterIs self.now thread object result }
    {
        match self.monitor(object) {
            Monitor::Free { number } => {
                if number < self.last {
                    Ok(Event::Enter { object, number })
                } else {
                    Err(MonitorRefusal::Worn)
                }
            }
            Monitor::Held { thread: owner, .. } => {
                if owner == thread {
                    Ok(Event::NestedEnter { object })
                } else {
                    Err(MonitorRefusal::Held)
                }
            }
        }
    }

    /// What it would be if the thread gave up one lock of the object's monitor: the last one, or one of several.
    pub fn may_exit(&self, thread: Lane, object: ObjectId) -> Result<Event, MonitorRefusal>
        requires { object.0 < object_count self.now.schema }
        // A thread is answered the event that giving up a lock would be, which the model allows, or why there is none.
        ensures { ExitIs self.now thread object result }
    {
        match self.monitor(object) {
            Monitor::Free { .. } => Err(MonitorRefusal::NotHeld),
            Monitor::Held {
                thread: owner,
                again,
                number,
            } => {
                if owner != thread {
                    Err(MonitorRefusal::NotHeld)
                } else if again == 0 {
                    Ok(Event::Exit { object, number })
                } else {
                    Ok(Event::NestedExit { object })
                }
            }
        }
    }

    /// The field's value, to a thread that owns the field's guard.
    pub fn load(&self, thread: Lane, field: FieldId) -> Result<u64, MonitorRefusal>
        requires { field.0 < field_count self.now.schema }
        // A load gives the field's value to the thread that owns the field's guard, and is refused to any other.
        ensures { LoadIs self.now thread field result }
    {
        if !self.owns(thread, self.schema.guard(field)) {
            return Err(MonitorRefusal::NotHeld);
        }
        Ok(self.values[field.0 as usize])
    }

    /// What it would be if the thread stored `after` to the field.
    pub fn may_store(
        &self,
        thread: Lane,
        field: FieldId,
        after: u64,
    ) -> Result<Event, MonitorRefusal>
        requires { field.0 < field_count self.now.schema }
        // A thread is answered the event that its store would be, which the model allows, or why there is none.
        ensures { StoreIs self.now thread field after result }
    {
        let before = self.load(thread, field)?;
        Ok(Event::Store {
            field,
            before,
            after,
        })
    }

    /// Does what the thread's event does. Want of memory changes nothing; only a nested enter meets it.
    pub fn perform(&mut self, thread: Lane, event: &Event) -> Result<(), AllocError>
        requires lane { thread.0 < lanes_of self.old }
        requires kind { IsStepOf (setting_of self.old) event.now }
        requires allowed { MayDo (setting_of self.old) (state_of self.old) thread.0 event.now }
        // Performing an event makes the model's next state.
        ensures ok { OnOk result (IsAfter self.old thread.0 event.now self.new) }
        ensures err { OnErr result (self.new ≡ self.old) }
        ensures nested { OnErr result (logged (setting_of self.old) event.now ≡ None) }
    {
        // The table is whole: there is a place for each object and each field.
        let _ = &self.monitors;
        match event {
            Event::Enter { object, number } => {
                let taken = Monitor::taken(thread, *number);
                self.set_monitor(*object, taken);
            }
            Event::NestedEnter { object } => {
                let nested = self.monitor(*object).nested()?;
                self.set_monitor(*object, nested);
            }
            Event::NestedExit { object } => {
                let unnested = self.monitor(*object).unnested();
                self.set_monitor(*object, unnested);
            }
            Event::Exit { object, .. } => {
                let freed = self.monitor(*object).freed();
                self.set_monitor(*object, freed);
            }
            Event::Store { field, after, .. } => self.set_value(*field, *after),
            Event::Load { .. } => {}
            Event::Wait { object, .. } => self.go_waiting(thread, *object),
            Event::Resume { object, number } => self.come_back(thread, *object, *number),
            // These have functions of their own.
            Event::Notify { .. } | Event::NotifyAll { .. } | Event::Look { .. } => unreachable!(),
        }
        Ok(())
    }

    /// Whether the thread is one of those that there are.
    pub fn has_lane(&self, thread: Lane) -> bool
        ensures { IsTrue result ↔ (thread.0 < lanes_of self.now) }
    {
        usize::from(thread.0) < self.pauses.len()
    }

    /// What it would be if the thread waited on the object's monitor.
    pub fn may_wait(&self, thread: Lane, object: ObjectId) -> Result<Event, MonitorRefusal>
        requires { object.0 < object_count self.now.schema }
        // A thread is answered the event that its wait would be, which the model allows, or why there is none.
        ensures { WaitIs self.now thread object result }
    {
        match self.monitor(object) {
            Monitor::Free { .. } => Err(MonitorRefusal::NotHeld),
            Monitor::Held {
                thread: owner,
                number,
                ..
            } => {
                if owner == thread {
                    Ok(Event::Wait { object, number })
                } else {
                    Err(MonitorRefusal::NotHeld)
                }
            }
        }
    }

    /// Puts another monitor in the object's place.
    pub(crate) fn set_monitor(&mut self, object: ObjectId, monitor: Monitor)
        requires object { object.0 < object_count self.old.schema }
        requires rise { MayRise monitor }
        ensures { self.new ≡ record self.old { monitors = slice_set self.old.monitors object.0 monitor } }
    {
        self.monitors[object.0 as usize] = monitor;
    }

    // Puts another value in the field.
    fn set_value(&mut self, field: FieldId, value: u64)
        requires { field.0 < field_count self.old.schema }
        ensures { self.new ≡ record self.old { values = slice_set self.old.values field.0 value } }
    {
        self.values[field.0 as usize] = value;
    }

    /// Puts the thread into another state of waiting.
    pub(crate) fn set_pause(&mut self, thread: Lane, pause: Pause)
        requires lane { thread.0 < lanes_of self.old }
        requires object { IsPauseOf (object_count self.old.schema) pause }
        ensures { self.new ≡ record self.old { pauses = slice_set self.old.pauses thread.0 pause } }
    {
        self.pauses[usize::from(thread.0)] = pause;
    }

    /// Whether the thread owns the object's monitor.
    pub fn owns(&self, thread: Lane, object: ObjectId) -> bool
        requires { object.0 < object_count self.now.schema }
        ensures { IsTrue result ↔ ((state_of self.now).owner object.0 ≡ Some thread.0) }
    {
        match self.monitor(object) {
            Monitor::Free { .. } => false,
            Monitor::Held { thread: owner, .. } => owner == thread,
        }
    }

    /// What the thread waits for.
    pub(crate) fn pause(&self, thread: Lane) -> Pause
        requires { thread.0 < lanes_of self.now }
        ensures pause { result ≡ pause_at self.now thread.0 }
        ensures object { IsPauseOf (object_count self.now.schema) result }
    {
        self.pauses[usize::from(thread.0)]
    }

    /// How many threads there are.
    pub(crate) fn lanes(&self) -> u8
        ensures { result ≡ lanes_of self.now }
    {
        self.pauses.len() as u8
    }

    /// The object's monitor.
    pub(crate) fn monitor(&self, object: ObjectId) -> Monitor
        requires { object.0 < object_count self.now.schema }
        ensures monitor { result ≡ monitor_at self.now object.0 }
        ensures rise { MayRise result }
    {
        self.monitors[object.0 as usize]
    }
}

// So many monitors, all free.
fn free_monitors(alloc: Global, count: usize) -> Result<Vec<Monitor>, AllocError>
    ensures { IfOk result (λ v. v.items ≡ replicate count (Monitor.Free 0)) }
{
    let free = Monitor::Free { number: 0 };
    Ok(vec![in alloc; free; count]?)
}

// So many threads, all awake.
fn awake(alloc: Global, lanes: u8) -> Result<Vec<Pause>, AllocError>
    ensures { IfOk result (λ v. v.items ≡ replicate lanes Pause.Awake) }
{
    let pause = Pause::Awake;
    Ok(vec![in alloc; pause; usize::from(lanes)]?)
}
