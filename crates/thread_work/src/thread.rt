//! A thread of a heap.
ghost use Rattle.std.specs.Prelude.{◌≡◌, ◌≤◌, IfErr, IfOk, IsFalse, IsTrue};
ghost use Rattle.session.specs.Calls.{WaitsFor};
ghost use Rattle.session.specs.Sessions.{IsSessionOf, SameRing};
ghost use Rattle.thread_work.specs.Threads.{IsDurable, IsFrom, IsStill, IsUnsettled, waited};

use crate::bell::Bell;
use crate::joint::Joint;
use core::mem::replace_with;
use heap_model::{FieldId, Lane, ObjectId};
use lock_word::{FatWord, LockWord, WaitMask};
use monitor::Shared;
use session::{Session, SessionError};
use std::marker::{Model, PhantomData};
use std::sync::Wait;

/// The helper has stopped: what isn't acknowledged yet is acknowledged no more in this run.
#[derive(Clone, Copy, Debug, Drop, PartialEq, Eq)]
pub struct HelperStopped;

/// A thread of a heap: its session, with the words of the heap.
///
/// Its calls answer as those of a [`Session`], and require nothing. Contracts see it as its session; the words are `J.home`. Over each
/// call it stays a session of these words (`of`), with the same lane, capacity and ring (`ring`).
#[derive(Drop)]
pub struct HeapThread<'a, J: Joint> {
    shared: &'a Shared,
    bell: &'a Bell,
    session: Session,
    joint: PhantomData<J>,
}

impl<'a, J: Joint> Model for HeapThread<'a, J> {
    ghost use Rattle.std.specs.Coded.{codes};
    ghost use Rattle.session.specs.declared.session.Session.{Session};
    ghost use Rattle.session.specs.contracts.session.Session as sessions;
    ghost use Rattle.thread_work.specs.Threads.{IsThreadOf};

    ghost Value = { Session };

    ghost coded = { sessions.the_row.coded };

    ghost view = { λ t. t.session };

    ghost invariant = { λ t. IsThreadOf J.home J.first t.shared.now t.session };
}

impl<'a, J: Joint> HeapThread<'a, J> {
    ghost use Rattle.std.specs.Prelude.{◌≡◌, IfErr, IfOk};
    ghost use Rattle.session.specs.Calls.{Enters, Exits, Loads, Looks, Notifies, NotifiesAll, ReadsStable, StoresAs, WaitsFor, WaitsToEnter};
    ghost use Rattle.session.specs.Logs.{held_count, sections_ended};
    ghost use Rattle.session.specs.Sessions.{IsSessionOf, SameRing, view_of};
    ghost use Rattle.thread_work.specs.Threads.{IsDurable, IsFrom, IsStill, IsUnsettled, waited};

    // A thread on this session.
    pub(crate) fn new(shared: &'a Shared, bell: &'a Bell, session: Session) -> HeapThread<'a, J>
        requires words { shared.now ≡ J.home }
        requires of { IsSessionOf J.home session }
        requires from { IsFrom J.first session }
        ensures { result ≡ session }
    {
        HeapThread {
            shared,
            bell,
            session,
            joint: PhantomData,
        }
    }

    // Its session.
    pub(crate) fn into_session(self) -> Session
        ensures same { result ≡ self.entry }
        ensures of { IsSessionOf J.home result }
        ensures from { IsFrom J.first result }
    {
        let HeapThread { session, .. } = self;
        session
    }

    /// The lane that it is of ([`Session::lane`]).
    pub fn lane(&self) -> Lane
        ensures { result ≡ (view_of self.now).lane }
    {
        self.session.lane()
    }

    /// How many of its sections have ended ([`Session::sections`]).
    pub fn sections(&self) -> u64
        ensures { result ≡ sections_ended (view_of self.now) }
    {
        self.session.sections()
    }

    /// How many monitors it holds ([`Session::holds`]).
    pub fn holds(&self) -> u32
        ensures { result ≡ held_count (view_of self.now) }
    {
        self.session.holds()
    }

    /// Takes the monitor, or one lock more of it, and waits while another thread has it ([`Session::enter`]). Where it answers `Behind`,
    /// the helper is woken: after [`durable`](HeapThread::durable) it may be called again.
    pub fn enter<R: Wait>(&mut self, rt: &R, object: ObjectId) -> Result<(), SessionError>
        ensures told { WaitsToEnter J.home self.old self.new object result }
        ensures of { IsSessionOf J.home self.new }
        ensures ring { SameRing self.old self.new }
    {
        let entered = self.session.enter(rt, self.shared, object);
        wake_if_behind(self.bell, &entered);
        entered
    }

    /// Takes the monitor, or one lock more of it ([`Session::try_enter`]). `Behind` wakes the helper.
    pub fn try_enter(&mut self, object: ObjectId) -> Result<(), SessionError>
        ensures told { Enters J.home self.old self.new object result }
        ensures of { IsSessionOf J.home self.new }
        ensures ring { SameRing self.old self.new }
    {
        let entered = self.session.try_enter(self.shared, object);
        wake_if_behind(self.bell, &entered);
        entered
    }

    /// Gives one lock back, and with the last one the monitor ([`Session::exit`]).
    pub fn exit(&mut self, object: ObjectId) -> Result<(), SessionError>
        ensures told { Exits J.home self.old self.new object result }
        ensures of { IsSessionOf J.home self.new }
        ensures ring { SameRing self.old self.new }
    {
        self.session.exit(self.shared, object)
    }

    /// Loads a field ([`Session::load`]).
    pub fn load(&mut self, field: FieldId) -> Result<u64, SessionError>
        ensures told { Loads J.home self.old self.new field result }
        ensures of { IsSessionOf J.home self.new }
        ensures ring { SameRing self.old self.new }
    {
        self.session.load(self.shared, field)
    }

    /// Stores a field ([`Session::store`]).
    pub fn store(&mut self, field: FieldId, value: u64) -> Result<(), SessionError>
        ensures told { StoresAs J.home self.old self.new field value result }
        ensures of { IsSessionOf J.home self.new }
        ensures ring { SameRing self.old self.new }
    {
        self.session.store(self.shared, field, value)
    }

    /// Frees the monitor, and waits until the thread was notified and has taken it again ([`Session::wait`]). `Behind` wakes the helper.
    pub fn wait<R: Wait>(&mut self, rt: &R, object: ObjectId) -> Result<(), SessionError>
        ensures told { WaitsFor J.home self.old object (waited self.new result) }
        ensures of { IsSessionOf J.home self.new }
        ensures ring { SameRing self.old self.new }
    {
        let back = wait_there(rt, self.shared, &mut self.session, object);
        wake_if_behind(self.bell, &back);
        back
    }

    /// Takes one lane out of the monitor's wait set ([`Session::notify`]).
    pub fn notify(&mut self, object: ObjectId) -> Result<Option<Lane>, SessionError>
        ensures told { Notifies J.home self.old self.new object result }
        ensures of { IsSessionOf J.home self.new }
        ensures ring { SameRing self.old self.new }
    {
        self.session.notify(self.shared, object)
    }

    /// Takes all lanes out of the monitor's wait set ([`Session::notify_all`]).
    pub fn notify_all(&mut self, object: ObjectId) -> Result<WaitMask, SessionError>
        ensures told { NotifiesAll J.home self.old self.new object result }
        ensures of { IsSessionOf J.home self.new }
        ensures ring { SameRing self.old self.new }
    {
        self.session.notify_all(self.shared, object)
    }

    /// What the monitor's words say ([`Session::look`]).
    pub fn look(&mut self, object: ObjectId) -> Result<(LockWord, Option<FatWord>), SessionError>
        ensures told { Looks J.home self.old self.new object result }
        ensures of { IsSessionOf J.home self.new }
        ensures ring { SameRing self.old self.new }
    {
        self.session.look(self.shared, object)
    }

    /// How many of its sections are acknowledged ([`Session::stable`]).
    pub fn stable(&mut self) -> u64
        ensures told { ReadsStable self.old self.new result }
        ensures of { IsSessionOf J.home self.new }
        ensures ring { SameRing self.old self.new }
    {
        self.session.stable(self.shared)
    }

    /// Whether the helper makes no more rounds: what isn't acknowledged yet is acknowledged no more in this run. No proof rests on it.
    pub fn has_helper_stopped(&self) -> bool {
        self.bell.has_stopped()
    }

    /// Sleeps until all sections that it has ended are acknowledged: no crash takes them back from then on
    /// ([`durable_law`](crate::durable_law)). While it holds a monitor, its open section isn't among them.
    ///
    /// Refused once the helper has stopped, after a fault of the device or with a control that is worn. Then some section that it has ended
    /// isn't acknowledged.
    pub fn durable<R: Wait>(&mut self, rt: &R) -> Result<(), HelperStopped>
        // After `durable` answered Ok, the thread has read that all sections that it has ended are acknowledged.
        ensures ok { IfOk result (λ done. IsDurable self.old self.new) }
        // `durable` is refused only where some section that the thread has ended isn't acknowledged.
        ensures stopped { IfErr result (λ e. IsUnsettled self.old self.new) }
        ensures of { IsSessionOf J.home self.new }
        ensures ring { SameRing self.old self.new }
    {
        await_stable(rt, self.shared, self.bell, &mut self.session)
    }
}

// Wakes the helper where a call was refused as `Behind`.
fn wake_if_behind(bell: &Bell, answer: &Result<(), SessionError>) {
    if let Err(SessionError::Behind) = answer {
        bell.ask();
    }
}

// Waits on the monitor, after which the session is in its place again.
fn wait_there<R: Wait>(
    rt: &R,
    shared: &Shared,
    session: &mut Session,
    object: ObjectId,
) -> Result<(), SessionError>
    requires seat { IsSessionOf shared.now session.old }
    ensures seat { IsSessionOf shared.now session.new }
    ensures ring { SameRing session.old session.new }
    ensures told { WaitsFor shared.now session.old object (waited session.new result) }
{
    replace_with(
        session,
        (),
        |own, _none| waited_for(rt, shared, own, object),
    )
}

// The same, by value.
fn waited_for<R: Wait>(
    rt: &R,
    shared: &Shared,
    session: Session,
    object: ObjectId,
) -> (Session, Result<(), SessionError>)
    requires { IsSessionOf shared.now session }
    ensures seat { IsSessionOf shared.now result.0 }
    ensures ring { SameRing session result.0 }
    ensures told { WaitsFor shared.now session object (waited result.0 result.1) }
{
    match session.wait(rt, shared, object) {
        Ok(session) => (session, Ok(())),
        Err((session, refusal)) => (session, Err(refusal)),
    }
}

// Sleeps until all sections that the session has ended are acknowledged, or the helper has stopped.
fn await_stable<R: Wait>(
    rt: &R,
    shared: &Shared,
    bell: &Bell,
    session: &mut Session,
) -> Result<(), HelperStopped>
    requires seat { IsSessionOf shared.now session.old }
    ensures seat { IsSessionOf shared.now session.new }
    ensures ring { SameRing session.old session.new }
    ensures ok { IfOk result (λ done. IsDurable session.old session.new) }
    ensures stopped { IfErr result (λ e. IsUnsettled session.old session.new) }
{
    for _ in rt.forever() {
        let seen = bell.rounds();
        if is_stable(shared, session) {
            return Ok(());
        }
        if bell.has_stopped() {
            return Err(HelperStopped);
        }
        bell.await_round(rt, seen);
    }
    unreachable!()
}

// Whether all sections that the session has ended are acknowledged.
fn is_stable(shared: &Shared, session: &mut Session) -> bool
    requires seat { IsSessionOf shared.now session.old }
    ensures seat { IsSessionOf shared.now session.new }
    ensures ring { SameRing session.old session.new }
    ensures quiet { IsStill session.old session.new }
    ensures stable { IsTrue result → IsDurable session.old session.new }
    ensures not_yet { IsFalse result → IsUnsettled session.old session.new }
{
    let stable = session.stable(shared);
    session.sections() <= stable
}
