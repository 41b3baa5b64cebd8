//! The wait sets of the monitors: who waits, who is woken, and who takes a monitor again (JLS 17.2).
ghost use Rattle.std.specs.Prelude.{◌≡◌, ◌≢◌, ◌<◌, ◌+◌, ◌^◌, ◌↔◌, ◌++◌, List, All, take, IsTrue, Some, IfOk, OnErr, OnOk};
ghost use Rattle.guards.specs.Schema.{object_count};
ghost use Rattle.heap_model.specs.State.{Awake, InSet, Woken, IsWoken};
ghost use Rattle.heap_model.specs.declared.event.Event.TheVariants.{Wait, Resume, Notify, NotifyAll};
ghost use Rattle.script_monitors.specs.Table.{lanes_of, state_of, SameSetting, IsAfter};
ghost use Rattle.script_monitors.specs.WaitSets.{least_of, wait_set};
ghost use Rattle.script_monitors.specs.Asking.{ResumeIs, MayNotify, member_of, waiters, notice, less_one};

use crate::monitor::Monitor;
use crate::monitors::Monitors;
use crate::pause::Pause;
use crate::refusal::MonitorRefusal;
use heap_model::{Event, Lane, ObjectId};
use std::alloc::{AllocError, Global};

impl Monitors {
    /// Whether the thread waits: it may only resume.
    pub fn is_waiting(&self, thread: Lane) -> bool
        requires { thread.0 < lanes_of self.now }
        ensures { IsTrue result ↔ ((state_of self.now).waiting thread.0 ≢ Awake) }
    {
        !matches!(self.pause(thread), Pause::Awake)
    }

    /// What it would be if the thread took again the monitor in whose wait set it was.
    pub fn may_resume(&self, thread: Lane) -> Result<Event, MonitorRefusal>
        requires { thread.0 < lanes_of self.now }
        // A thread is answered the event that taking the monitor again would be, which the model allows, or why there is none.
        ensures { ResumeIs self.now thread result }
    {
        match self.pause(thread) {
            Pause::Awake => Err(MonitorRefusal::NotWaiting),
            Pause::InSet { .. } => Err(MonitorRefusal::InSet),
            Pause::Woken { object, .. } => match self.monitor(object) {
                Monitor::Held { .. } => Err(MonitorRefusal::Held),
                Monitor::Free { number } => {
                    if number < self.last() {
                        Ok(Event::Resume { object, number })
                    } else {
                        Err(MonitorRefusal::Worn)
                    }
                }
            },
        }
    }

    /// The thread goes into the object's wait set, and frees its monitor.
    pub(crate) fn go_waiting(&mut self, thread: Lane, object: ObjectId)
        requires lane { thread.0 < lanes_of self.old }
        requires object { object.0 < object_count self.old.schema }
        requires held { (state_of self.old).owner object.0 ≡ Some thread.0 }
        ensures { IsAfter self.old thread.0 (Wait object ((state_of self.old).number object.0)) self.new }
    {
        self.whole_law();
        let monitor = self.monitor(object);
        let again = monitor.again();
        self.set_monitor(object, monitor.freed());
        self.set_pause(thread, Pause::InSet { object, again });
    }

    /// The thread, which was woken, takes the object's monitor again by as many locks as it had.
    pub(crate) fn come_back(&mut self, thread: Lane, object: ObjectId, number: u64)
        requires lane { thread.0 < lanes_of self.old }
        requires object { object.0 < object_count self.old.schema }
        requires woken { IsWoken object.0 ((state_of self.old).waiting thread.0) }
        requires number { (state_of self.old).number object.0 ≡ number }
        requires rise { number + 1 < 2 ^ 64 }
        ensures { IsAfter self.old thread.0 (Resume object number) self.new }
    {
        self.whole_law();
        let again = self.pause(thread).again();
        self.set_monitor(
            object,
            Monitor::Held {
                thread,
                again,
                number,
            },
        );
        self.set_pause(thread, Pause::Awake);
    }

    /// The threads of the object's wait set, in order.
    pub(crate) fn wait_set(&self, alloc: Global, object: ObjectId) -> Result<Vec<Lane>, AllocError>
        ensures { IfOk result (λ v. v.items ≡ wait_set (lanes_of self.now) (state_of self.now) object.0) }
    {
        let mut set = Vec::new(alloc);
        for lane in 0..self.lanes() {
            self.push_member(&mut set, Lane(lane), object)?;
        }
        Ok(set)
    }

    // Adds the thread, if it is in the object's wait set.
    fn push_member(
        &self,
        set: &mut Vec<Lane>,
        lane: Lane,
        object: ObjectId,
    ) -> Result<(), AllocError>
        requires { lane.0 < lanes_of self.now }
        ensures { OnOk result (set.new.items ≡ set.old.items ++ member_of self.now lane object) }
    {
        if self.pause(lane).is_in(object) {
            set.push(lane)?;
        }
        Ok(())
    }

    /// The owner wakes the least thread of the object's wait set, if there is one.
    pub fn notify(
        &mut self,
        alloc: Global,
        thread: Lane,
        object: ObjectId,
    ) -> Result<Vec<Lane>, AllocError>
        ensures allowed { MayNotify self.old thread object (notice self.old object) }
        // A notify wakes what the model says.
        ensures woken { IfOk result (λ v. v.items ≡ take 1 (waiters self.old object)) }
        // A notify makes the model's next state.
        ensures after { IfOk result (λ v. IsAfter self.old thread.0 (notice self.old object) self.new) }
        ensures err { OnErr result (self.new ≡ self.old) }
    {
        let mut set = self.wait_set(alloc, object)?;
        self.wake_least(thread, object, &set);
        set.truncate(1);
        Ok(set)
    }

    /// The owner wakes all threads of the object's wait set.
    pub fn notify_all(
        &mut self,
        alloc: Global,
        thread: Lane,
        object: ObjectId,
    ) -> Result<Vec<Lane>, AllocError>
        ensures allowed { MayNotify self.old thread object (NotifyAll object (waiters self.old object)) }
        // A notify wakes what the model says.
        ensures woken { IfOk result (λ v. v.items ≡ waiters self.old object) }
        // A notify makes the model's next state.
        ensures after { IfOk result (λ v. IsAfter self.old thread.0 (NotifyAll object v.items) self.new) }
        ensures err { OnErr result (self.new ≡ self.old) }
    {
        let set = self.wait_set(alloc, object)?;
        self.wake_all(thread, object);
        Ok(set)
    }

    // Removes the first of these threads of the object's wait set, if there is one.
    fn wake_least(&mut self, thread: Lane, object: ObjectId, set: &[Lane])
        requires { All (λ l. l.0 < lanes_of self.old) set.now }
        ensures { IsAfter self.old thread.0 (Notify object (least_of set.now)) self.new }
    {
        if set.is_empty() {
            return;
        }
        self.wake(thread, set[0], object);
    }

    // Removes this thread of the object's wait set.
    fn wake(&mut self, thread: Lane, lane: Lane, object: ObjectId)
        requires lane { lane.0 < lanes_of self.old }
        ensures { IsAfter self.old thread.0 (Notify object (Some lane)) self.new }
    {
        let woken = self.pause(lane).woken();
        self.set_pause(lane, woken);
    }

    // Removes all threads of the object's wait set.
    fn wake_all(&mut self, thread: Lane, object: ObjectId)
        ensures { (set : List Lane) → IsAfter self.old thread.0 (NotifyAll object set) self.new }
    {
        for lane in 0..self.lanes() {
            self.wake_from(Lane(lane), object);
        }
    }

    // Removes the thread from the object's wait set, if it is in that one.
    fn wake_from(&mut self, lane: Lane, object: ObjectId)
        requires { lane.0 < lanes_of self.old }
        ensures setting { SameSetting self.old self.new }
        ensures state { state_of self.new ≡ less_one (state_of self.old) lane object }
    {
        let woken = self.pause(lane).woken_from(object);
        self.set_pause(lane, woken);
    }
}
