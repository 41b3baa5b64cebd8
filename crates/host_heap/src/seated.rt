//! A session, with the words of its heap.
ghost use Rattle.std.specs.Prelude.{◌≡◌, ◌<◌};
ghost use Rattle.std.specs.Arc.{arc_value};
ghost use Rattle.rtrb.specs.Ring.{known_free, sent};

use crate::returned::Returned;
use crate::returning::Returning;
use crate::stop::Stop;
use crate::waiting::HostedWaiting;
use heap_model::{FieldId, Lane, ObjectId};
use lock_word::{FatWord, LockWord, WaitMask};
use monitor::Shared;
use rtrb::Producer;
use session::{Session, SessionError};
use std::alloc::Global;
use std::marker::Model;
use std::sync::Arc;

/// A session, with the words of its heap: a host can't use it with another heap's. It may go to another thread.
///
/// Its calls answer as those of a [`Session`]. Contracts see it as its words, its session, the ring by which it comes back, and
/// what it has seen of a stop.
#[derive(Drop)]
pub struct HostedSession {
    pub(crate) shared: Arc<Shared>,
    pub(crate) session: Session,
    pub(crate) back: Producer<Session, Global, Returning>,
    pub(crate) stop: Stop,
}

impl Model for HostedSession {
    ghost use Rattle.std.specs.Arc.{arc_value};
    ghost use Rattle.rtrb.specs.Ring.{known_free, sent};
    ghost use Rattle.host_heap.specs.Sessions.{Seated, IsSeated};
    ghost use Rattle.session.specs.contracts.session.Session as sessions;
    ghost use Rattle.std.specs.Coded.{codes};

    ghost Value = { Seated };

    ghost coded = { Prim.hlevel (codes, sessions.the_row.coded) };

    ghost view = { λ s. record { home = arc_value s.shared; session = s.session; back = s.back; stop = s.stop } };

    ghost invariant = { λ s. IsSeated (arc_value s.shared) s.session (sent s.back) (known_free s.back) };
}

impl HostedSession {
    ghost use Rattle.std.specs.Prelude.{◌≡◌, [], ◌∷◌, ◌++◌, IsSome, true};
    ghost use Rattle.std.specs.Option.{is_some};
    ghost use Rattle.rtrb.specs.Ring.{sent};
    ghost use Rattle.host_heap.specs.Sessions.{HasLookedAt, SamePlace, SamePlaceWait, inner_wait};
    ghost use Rattle.session.specs.Calls.{AsksToWait, Enters, Exits, Loads, Looks, Notifies, NotifiesAll, ReadsStable, StoresAs};
    ghost use Rattle.session.specs.Logs.{sections_ended};
    ghost use Rattle.session.specs.Sessions.{view_of};

    /// The lane that it is of ([`Session::lane`]).
    pub fn lane(&self) -> Lane
        ensures { result ≡ (view_of self.now.session).lane }
    {
        self.session.lane()
    }

    /// How many sections of its lane have ended since the heap was opened ([`Session::sections`]).
    pub fn sections(&self) -> u64
        ensures { result ≡ sections_ended (view_of self.now.session) }
    {
        self.session.sections()
    }

    /// Looks whether the heap has stopped since its host couldn't make a sync
    /// ([`HostedHeap::call_failed`](crate::HostedHeap::call_failed)). Nothing that the session does from then on is made durable;
    /// once it is so, it stays so.
    pub fn is_stopped(&mut self) -> bool
        // A look for a stop changes nothing else of the session.
        ensures looked { HasLookedAt self.old self.new }
        // A session answers that its heap has stopped exactly where it has seen that word written.
        ensures seen { result ≡ is_some self.new.stop.seen }
        // A session that has seen its heap stopped answers so from then on.
        ensures again { IsSome self.old.stop.seen → result ≡ true }
    {
        self.stop.is_written()
    }

    /// Takes the monitor, or one lock more of it ([`Session::try_enter`]).
    pub fn try_enter(&mut self, object: ObjectId) -> Result<(), SessionError>
        // A call leaves the session its heap, its lane, the ring to its helper, and the ring by which it comes back.
        ensures heap { SamePlace self.old self.new }
        // A call of a host's session does and answers what the session's own call does, by the words of its own heap.
        ensures told { Enters self.old.home self.old.session self.new.session object result }
    {
        self.session.try_enter(&self.shared, object)
    }

    /// Gives one lock back, and with the last one the monitor ([`Session::exit`]).
    pub fn exit(&mut self, object: ObjectId) -> Result<(), SessionError>
        // A call leaves the session its heap, its lane, the ring to its helper, and the ring by which it comes back.
        ensures heap { SamePlace self.old self.new }
        // A call of a host's session does and answers what the session's own call does, by the words of its own heap.
        ensures told { Exits self.old.home self.old.session self.new.session object result }
    {
        self.session.exit(&self.shared, object)
    }

    /// Loads a field ([`Session::load`]).
    pub fn load(&mut self, field: FieldId) -> Result<u64, SessionError>
        // A call leaves the session its heap, its lane, the ring to its helper, and the ring by which it comes back.
        ensures heap { SamePlace self.old self.new }
        // A call of a host's session does and answers what the session's own call does, by the words of its own heap.
        ensures told { Loads self.old.home self.old.session self.new.session field result }
    {
        self.session.load(&self.shared, field)
    }

    /// Stores a field ([`Session::store`]).
    pub fn store(&mut self, field: FieldId, value: u64) -> Result<(), SessionError>
        // A call leaves the session its heap, its lane, the ring to its helper, and the ring by which it comes back.
        ensures heap { SamePlace self.old self.new }
        // A call of a host's session does and answers what the session's own call does, by the words of its own heap.
        ensures told { StoresAs self.old.home self.old.session self.new.session field value result }
    {
        self.session.store(&self.shared, field, value)
    }

    /// Takes one lane out of the monitor's wait set ([`Session::notify`]).
    pub fn notify(&mut self, object: ObjectId) -> Result<Option<Lane>, SessionError>
        // A call leaves the session its heap, its lane, the ring to its helper, and the ring by which it comes back.
        ensures heap { SamePlace self.old self.new }
        // A call of a host's session does and answers what the session's own call does, by the words of its own heap.
        ensures told { Notifies self.old.home self.old.session self.new.session object result }
    {
        self.session.notify(&self.shared, object)
    }

    /// Takes all lanes out of the monitor's wait set ([`Session::notify_all`]).
    pub fn notify_all(&mut self, object: ObjectId) -> Result<WaitMask, SessionError>
        // A call leaves the session its heap, its lane, the ring to its helper, and the ring by which it comes back.
        ensures heap { SamePlace self.old self.new }
        // A call of a host's session does and answers what the session's own call does, by the words of its own heap.
        ensures told { NotifiesAll self.old.home self.old.session self.new.session object result }
    {
        self.session.notify_all(&self.shared, object)
    }

    /// What the monitor's words say ([`Session::look`]).
    pub fn look(&mut self, object: ObjectId) -> Result<(LockWord, Option<FatWord>), SessionError>
        // A call leaves the session its heap, its lane, the ring to its helper, and the ring by which it comes back.
        ensures heap { SamePlace self.old self.new }
        // A call of a host's session does and answers what the session's own call does, by the words of its own heap.
        ensures told { Looks self.old.home self.old.session self.new.session object result }
    {
        self.session.look(&self.shared, object)
    }

    /// How many sections of the lane the helper's last round acknowledged ([`Session::stable`]). They are on the host's device once
    /// the host has made the calls of that round.
    pub fn stable(&mut self) -> u64
        // A call leaves the session its heap, its lane, the ring to its helper, and the ring by which it comes back.
        ensures heap { SamePlace self.old self.new }
        // A call of a host's session does and answers what the session's own call does, by the words of its own heap.
        ensures told { ReadsStable self.old.session self.new.session result }
    {
        self.session.stable(&self.shared)
    }

    /// Joins the monitor's wait set and frees the monitor ([`Session::begin_wait`]).
    pub fn begin_wait(
        self,
        object: ObjectId,
    ) -> Result<HostedWaiting, (HostedSession, SessionError)>
        // A call leaves the session its heap, its lane, the ring to its helper, and the ring by which it comes back.
        ensures heap { SamePlaceWait self result }
        // A call of a host's session does and answers what the session's own call does, by the words of its own heap.
        ensures told { AsksToWait self.home self.session object (inner_wait result) }
    {
        let HostedSession {
            shared,
            session,
            back,
            stop,
        } = self;
        match session.begin_wait(&shared, object) {
            Ok(waiting) => Ok(HostedWaiting {
                shared,
                waiting,
                back,
                stop,
            }),
            Err((session, refusal)) => {
                let session = HostedSession {
                    shared,
                    session,
                    back,
                    stop,
                };
                Err((session, refusal))
            }
        }
    }

    /// Ends the session, and lets it come back to its heap: it is the last that went into the ring by which it comes back. It may still
    /// hold monitors: then its heap isn't closed.
    pub fn end(self) -> Returned
        // A session that ends goes into the ring by which it comes back.
        ensures back { result ≡ sent self.back ++ self.session ∷ [] }
    {
        let HostedSession {
            shared,
            session,
            back,
            stop: _,
        } = self;
        // The words first: when the session has come back nobody else has them.
        drop(shared);
        let mut back = back;
        back.push_reserved(session);
        Returned { back }
    }
}
