//! A session that waits, with the words of its heap.
ghost use Rattle.std.specs.Prelude.{◌≡◌};

use crate::returning::Returning;
use crate::seated::HostedSession;
use crate::stop::Stop;
use monitor::Shared;
use rtrb::Producer;
use session::{Session, Still, Waiting};
use std::alloc::Global;
use std::marker::Model;
use std::sync::Arc;

/// A session that waits for a monitor, with the words of its heap. It can do nothing but resume.
#[derive(Drop)]
pub struct HostedWaiting {
    pub(crate) shared: Arc<Shared>,
    pub(crate) waiting: Waiting,
    pub(crate) back: Producer<Session, Global, Returning>,
    pub(crate) stop: Stop,
}

impl Model for HostedWaiting {
    ghost use Rattle.std.specs.Arc.{arc_value};
    ghost use Rattle.rtrb.specs.Ring.{known_free, sent};
    ghost use Rattle.host_heap.specs.Sessions.{SeatedWaiting, IsSeatedWaiting};
    ghost use Rattle.session.specs.contracts.session.Session as sessions;
    ghost use Rattle.session.specs.contracts.waiting.Waiting as waits;
    ghost use Rattle.std.specs.Coded.{codes};

    ghost Value = { SeatedWaiting };

    ghost coded = { Prim.hlevel (codes, sessions.the_row.coded, waits.the_row.coded) };

    ghost view = { λ w. record { home = arc_value w.shared; waiting = w.waiting; back = w.back; stop = w.stop } };

    ghost invariant = { λ w. IsSeatedWaiting (arc_value w.shared) w.waiting (sent w.back) (known_free w.back) };
}

impl HostedWaiting {
    ghost use Rattle.std.specs.Prelude.{◌≡◌, IsSome, true};
    ghost use Rattle.std.specs.Option.{is_some};
    ghost use Rattle.session.specs.Calls.{AsksToResume};
    ghost use Rattle.host_heap.specs.Sessions.{HasLookedWaiting, SamePlaceResume, inner_resume};

    /// Looks whether the heap has stopped ([`HostedSession::is_stopped`]).
    pub fn is_stopped(&mut self) -> bool
        // A look for a stop changes nothing else of the session.
        ensures looked { HasLookedWaiting self.old self.new }
        // A session answers that its heap has stopped exactly where it has seen that word written.
        ensures seen { result ≡ is_some self.new.stop.seen }
        // A session that has seen its heap stopped answers so from then on.
        ensures again { IsSome self.old.stop.seen → result ≡ true }
    {
        self.stop.is_written()
    }

    /// Takes the monitor again, if the thread was removed from its wait set and the monitor is free ([`Waiting::try_resume`]).
    pub fn try_resume(self) -> Result<HostedSession, (HostedWaiting, Still)>
        // A call leaves the session its heap, its lane, the ring to its helper, and the ring by which it comes back.
        ensures heap { SamePlaceResume self result }
        // A call of a host's session does and answers what the session's own call does, by the words of its own heap.
        ensures told { AsksToResume self.waiting (inner_resume result) }
    {
        let HostedWaiting {
            shared,
            waiting,
            back,
            stop,
        } = self;
        match waiting.try_resume(&shared) {
            Ok(session) => Ok(HostedSession {
                shared,
                session,
                back,
                stop,
            }),
            Err((waiting, still)) => {
                let waiting = HostedWaiting {
                    shared,
                    waiting,
                    back,
                    stop,
                };
                Err((waiting, still))
            }
        }
    }
}
