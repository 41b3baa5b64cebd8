//! The machine while it runs: threads step on the monitors, and the store keeps what they do.
ghost use Rattle.std.specs.Prelude.{◌≡◌, ◌<◌, ◌≤◌, ℕ, IfOk, IfSome, MatchResult, MatchOption, None, length};
ghost use Rattle.guards.specs.Schema.{Declarations, first_of, names_of, object_count, field_count};
ghost use Rattle.block_disk.specs.Crash.{done_at, LeftSinceStop};
ghost use Rattle.block_disk.specs.Device.{Image};
ghost use Rattle.block_disk.specs.Memory.{fresh, moment_after};
ghost use Rattle.heap_model.specs.Events.{MayDo};
ghost use Rattle.heap_model.specs.State.{Awake};
ghost use Rattle.script_machine.specs.Agreement.{Agrees};
ghost use Rattle.script_machine.specs.Answering.{DoesEvent, GoesOn, GoesOnAs, StepsOn, StepsTo};
ghost use Rattle.script_monitors.specs.Table.{lanes_of, setting_of, state_of, IsStepOf};
ghost use Rattle.script_lines.specs.Orders.{step_of};
ghost use Rattle.script_lines.specs.Orders as order;
ghost use Rattle.script_machine.specs.Lookups.{LooksUp, object_of, field_of};
ghost use Rattle.script_machine.specs.Machine as machine;
ghost use Rattle.script_machine.specs.States.{begun_at, crash_back};

use crate::answer::{Answer, Refusal};
use crate::refusals::{refused_call, refused_record};
use crate::store_calls::{acknowledged_counts, applied_values, keep_record, write_homes};
use block_disk::{Fill, MemDisk};
use durable::Store;
use guards::Schema;
use heap_model::{Event, FieldId, Lane, ObjectId};
use law_cuts::stable_law;
use law_histories::log_law;
use script_lines::Step;
use script_monitors::Monitors;
use std::alloc::{AllocError, Global};
use std::marker::Model;

/// The monitors, and the store behind them. They agree: what the store was told are the logged events of a legal history,
/// and the monitors are in the state after it. So the store never refuses a step's record as one that isn't the next.
///
/// Its device hasn't failed: after a fault there is no such machine, and a call that may meet one takes it whole.
#[derive(Drop)]
pub(crate) struct Running {
    monitors: Monitors,
    store: Store<MemDisk>,
}

impl Model for Running {
    ghost use Rattle.script_machine.specs.States.{Live};
    ghost use Rattle.script_machine.specs.Agreement.{Agrees};

    ghost Value = { Live };

    ghost view = { λ r. record { monitors = r.monitors; store = r.store } };

    ghost invariant = { λ r. Agrees r.monitors r.store };
}

impl Running {
    /// These monitors over this store.
    pub(crate) fn new(monitors: Monitors, store: Store<MemDisk>) -> Running
        requires { Agrees monitors store }
        ensures { result ≡ record { monitors = monitors; store = store } }
    {
        Running { monitors, store }
    }

    /// Takes the thread's step.
    pub(crate) fn step(
        &mut self,
        alloc: Global,
        thread: Lane,
        step: &Step<'_>,
    ) -> Result<Answer, AllocError>
        ensures { StepsOn self.old self.new thread.0 (step_of step.now) result }
    {
        match step {
            Step::Enter(name) => self.enter(thread, name),
            Step::Exit(name) => self.exit(thread, name),
            Step::Load(name) => Ok(self.load(thread, name)),
            Step::Store(name, value) => self.store(thread, name, *value),
            Step::Wait(name) => self.wait(thread, name),
            Step::Resume => self.resume(thread),
            Step::Notify(name) => self.notify(alloc, thread, name),
            Step::NotifyAll(name) => self.notify_all(alloc, thread, name),
        }
    }

    fn enter(&mut self, thread: Lane, name: &str) -> Result<Answer, AllocError>
        ensures { StepsOn self.old self.new thread.0 (order.Enter name.now) result }
    {
        let object = match self.object(thread, name) {
            Ok(object) => object,
            Err(why) => return Ok(Answer::Refused(why)),
        };
        match self.monitors.may_enter(thread, object) {
            Ok(event) => self.perform(thread, &event, Answer::Done),
            Err(why) => Ok(Answer::Refused(Refusal::from(why))),
        }
    }

    fn exit(&mut self, thread: Lane, name: &str) -> Result<Answer, AllocError>
        ensures { StepsOn self.old self.new thread.0 (order.Exit name.now) result }
    {
        let object = match self.object(thread, name) {
            Ok(object) => object,
            Err(why) => return Ok(Answer::Refused(why)),
        };
        match self.monitors.may_exit(thread, object) {
            Ok(event) => self.perform(thread, &event, Answer::Done),
            Err(why) => Ok(Answer::Refused(Refusal::from(why))),
        }
    }

    fn load(&self, thread: Lane, name: &str) -> Answer
        ensures { StepsTo self.now self.now thread.0 (order.Load name.now) result }
    {
        let field = match self.field(thread, name) {
            Ok(field) => field,
            Err(why) => return Answer::Refused(why),
        };
        match self.monitors.load(thread, field) {
            Ok(value) => Answer::Value(value),
            Err(why) => Answer::Refused(Refusal::from(why)),
        }
    }

    fn store(&mut self, thread: Lane, name: &str, value: u64) -> Result<Answer, AllocError>
        ensures { StepsOn self.old self.new thread.0 (order.Store name.now value) result }
    {
        let field = match self.field(thread, name) {
            Ok(field) => field,
            Err(why) => return Ok(Answer::Refused(why)),
        };
        match self.monitors.may_store(thread, field, value) {
            Ok(event) => self.perform(thread, &event, Answer::Done),
            Err(why) => Ok(Answer::Refused(Refusal::from(why))),
        }
    }

    fn wait(&mut self, thread: Lane, name: &str) -> Result<Answer, AllocError>
        ensures { StepsOn self.old self.new thread.0 (order.Wait name.now) result }
    {
        let object = match self.object(thread, name) {
            Ok(object) => object,
            Err(why) => return Ok(Answer::Refused(why)),
        };
        match self.monitors.may_wait(thread, object) {
            Ok(event) => self.perform(thread, &event, Answer::Waiting),
            Err(why) => Ok(Answer::Refused(Refusal::from(why))),
        }
    }

    fn resume(&mut self, thread: Lane) -> Result<Answer, AllocError>
        ensures { StepsOn self.old self.new thread.0 order.Resume result }
    {
        if !self.monitors.has_lane(thread) {
            return Ok(Answer::Refused(Refusal::Lane));
        }
        match self.monitors.may_resume(thread) {
            Ok(event) => self.perform(thread, &event, Answer::Done),
            Err(why) => Ok(Answer::Refused(Refusal::from(why))),
        }
    }

    fn notify(&mut self, alloc: Global, thread: Lane, name: &str) -> Result<Answer, AllocError>
        ensures { StepsOn self.old self.new thread.0 (order.Notify name.now) result }
    {
        let object = match self.object(thread, name) {
            Ok(object) => object,
            Err(why) => return Ok(Answer::Refused(why)),
        };
        if !self.monitors.owns(thread, object) {
            return Ok(Answer::Refused(Refusal::NotHeld));
        }
        let woken = self.monitors.notify(alloc, thread, object)?;
        Ok(Answer::Woke(woken))
    }

    fn notify_all(&mut self, alloc: Global, thread: Lane, name: &str) -> Result<Answer, AllocError>
        ensures { StepsOn self.old self.new thread.0 (order.NotifyAll name.now) result }
    {
        let object = match self.object(thread, name) {
            Ok(object) => object,
            Err(why) => return Ok(Answer::Refused(why)),
        };
        if !self.monitors.owns(thread, object) {
            return Ok(Answer::Refused(Refusal::NotHeld));
        }
        let woken = self.monitors.notify_all(alloc, thread, object)?;
        Ok(Answer::Woke(woken))
    }

    // The object that the thread's step names.
    fn object(&self, thread: Lane, name: &str) -> Result<ObjectId, Refusal>
        ensures named { LooksUp object_of self.now.monitors self.now.monitors.schema.objects name.now thread.0 result }
        ensures within { IfOk result (λ o. o.0 < object_count self.now.monitors.schema) }
        ensures lane { IfOk result (λ o. thread.0 < lanes_of self.now.monitors) }
        ensures awake { IfOk result (λ o. (state_of self.now.monitors).waiting thread.0 ≡ Awake) }
    {
        if !self.monitors.has_lane(thread) {
            return Err(Refusal::Lane);
        }
        let Some(object) = self.monitors.schema().object_named(name) else {
            return Err(Refusal::Unknown);
        };
        if self.monitors.is_waiting(thread) {
            return Err(Refusal::Waiting);
        }
        Ok(object)
    }

    // The field that the thread's step names.
    fn field(&self, thread: Lane, name: &str) -> Result<FieldId, Refusal>
        ensures named { LooksUp field_of self.now.monitors (names_of self.now.monitors.schema.fields) name.now thread.0 result }
        ensures within { IfOk result (λ f. f.0 < field_count self.now.monitors.schema) }
        ensures lane { IfOk result (λ f. thread.0 < lanes_of self.now.monitors) }
        ensures awake { IfOk result (λ f. (state_of self.now.monitors).waiting thread.0 ≡ Awake) }
    {
        if !self.monitors.has_lane(thread) {
            return Err(Refusal::Lane);
        }
        let Some(field) = self.monitors.schema().field_named(name) else {
            return Err(Refusal::Unknown);
        };
        if self.monitors.is_waiting(thread) {
            return Err(Refusal::Waiting);
        }
        Ok(field)
    }

    // Does the event, if the store takes its record, and answers so. The store is asked first: what it refuses is not done.
    fn perform(&mut self, thread: Lane, event: &Event, said: Answer) -> Result<Answer, AllocError>
        requires lane { thread.0 < lanes_of self.old.monitors }
        requires kind { IsStepOf (setting_of self.old.monitors) event.now }
        requires allowed { MayDo (setting_of self.old.monitors) (state_of self.old.monitors) thread.0 event.now }
        ensures { DoesEvent self.old self.new thread.0 said event.now result }
    {
        // What the monitors allow is the next of the store's records.
        log_law();
        if let Err(why) = keep_record(&mut self.store, &self.monitors, thread, event) {
            drop(said);
            return Ok(Answer::Refused(refused_record(why)));
        }
        if let Err(why) = self.monitors.perform(thread, event) {
            drop(said);
            return Err(why);
        }
        Ok(said)
    }

    /// Logs the records that no log has yet.
    pub(crate) fn log(self) -> Result<(Running, Answer), AllocError>
        ensures { GoesOnAs machine.LogsRecords self result }
    {
        let Running {
            monitors,
            mut store,
        } = self;
        let answer = match store.log_step() {
            Ok(records) => Answer::Logged(records),
            Err(why) => match refused_call(why) {
                Ok(refusal) => Answer::Refused(refusal),
                Err(why) => {
                    drop(monitors);
                    drop(store);
                    return Err(why);
                }
            },
        };
        Ok((Running { monitors, store }, answer))
    }

    /// Writes home until nothing is left to write.
    pub(crate) fn home(self) -> Result<(Running, Answer), AllocError>
        ensures { GoesOnAs machine.WritesHome self result }
    {
        let Running {
            monitors,
            mut store,
        } = self;
        let Ok(cells) = write_homes(&mut store) else {
            // The device hadn't failed, so this is a fault: the disk in memory had no room for one more write.
            drop(monitors);
            drop(store);
            return Err(AllocError);
        };
        Ok((Running { monitors, store }, Answer::Wrote(cells)))
    }

    /// Settles what may be settled.
    pub(crate) fn settle(self, alloc: Global) -> Result<(Running, Answer), AllocError>
        ensures { GoesOnAs machine.Settles self result }
    {
        let Running {
            monitors,
            mut store,
        } = self;
        stable_law();
        let answer = match store.settle() {
            Ok(()) => match acknowledged_counts(alloc, &store) {
                Ok(counts) => Answer::Acknowledged(counts),
                Err(why) => {
                    drop(monitors);
                    drop(store);
                    return Err(why);
                }
            },
            Err(why) => match refused_call(why) {
                Ok(refusal) => Answer::Refused(refusal),
                Err(why) => {
                    drop(monitors);
                    drop(store);
                    return Err(why);
                }
            },
        };
        Ok((Running { monitors, store }, answer))
    }

    /// Trims what is acknowledged, so that its places are free again.
    pub(crate) fn trim(self) -> Result<(Running, Answer), AllocError>
        ensures { GoesOnAs machine.TrimsLogs self result }
    {
        let Running {
            monitors,
            mut store,
        } = self;
        let answer = match store.trim() {
            Ok(()) => Answer::Done,
            Err(why) => match refused_call(why) {
                Ok(refusal) => Answer::Refused(refusal),
                Err(why) => {
                    drop(monitors);
                    drop(store);
                    return Err(why);
                }
            },
        };
        Ok((Running { monitors, store }, answer))
    }

    /// The applied values of all fields.
    pub(crate) fn heap(&self, alloc: Global) -> Result<Answer, AllocError>
        ensures { GoesOn machine.TellsHeap self.now self.now result }
    {
        Ok(Answer::Heap(applied_values(alloc, &self.store)?))
    }

    /// What a crash leaves of the device with all but the last `back` writes and syncs ended and the next begun, if there
    /// were so many.
    pub(crate) fn crash_image(&self, fill: Fill, back: u64) -> Result<Option<MemDisk>, AllocError>
        ensures agrees { Agrees self.now.monitors self.now.store }
        ensures image { IfOk result (λ left. MatchOption left (length self.now.store.disk.stops < back)
            (λ disk. (back ≤ length self.now.store.disk.stops) × (disk ≡ fresh (crash_back fill back self.now.store.disk)))) }
        ensures possible { let d = self.now.store.disk in
            IfOk result (λ left. IfSome left (λ disk. Image (moment_after d.first (done_at (begun_at back d) d.stops)) disk.first)) }
        ensures any_moment { IfOk result (λ left. IfSome left (λ disk. LeftSinceStop (begun_at back self.now.store.disk) self.now.store.disk disk.first)) }
    {
        let disk = self.store.disk();
        let stops = disk.stops();
        if stops < back {
            return Ok(None);
        }
        let Some(begun) = (stops - back).checked_add(1) else {
            return Err(AllocError);
        };
        disk.crash_image(begun, fill)
    }

    /// The schema, without monitors and store.
    pub(crate) fn into_schema(self) -> Schema
        ensures { result ≡ self.monitors.schema }
    {
        let Running { monitors, store } = self;
        drop(store);
        monitors.into_schema()
    }
}
