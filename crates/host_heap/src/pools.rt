//! A pool's calls, by a session that has the words of its heap.
use crate::seated::HostedSession;
use pool::{Pool, PoolError};
use session::SessionError;

impl HostedSession {
    ghost use Rattle.std.specs.Prelude.{◌<◌};
    ghost use Rattle.host_heap.specs.Sessions.{SamePlace};
    ghost use Rattle.pool.specs.SectionCalls.{GivesSlot, TakesSlot};

    /// Takes a slot of the pool, whose monitor the session holds ([`Pool::take`]).
    pub fn take_slot(self, pool: &Pool) -> (HostedSession, Result<u32, PoolError<SessionError>>)
        // A call leaves the session its heap, its lane, the ring to its helper, and the ring by which it comes back.
        ensures heap { SamePlace self result.0 }
        // A call of a host's session does and answers what the session's own call does, by the words of its own heap.
        ensures told { TakesSlot self.home self.session result.0.session pool.now result.1 }
    {
        let HostedSession {
            shared,
            session,
            back,
            stop,
        } = self;
        let (session, answer) = pool::take(session, &shared, pool);
        let session = HostedSession {
            shared,
            session,
            back,
            stop,
        };
        (session, answer)
    }

    /// Gives a slot back to the pool, whose monitor the session holds ([`Pool::give`]).
    pub fn give_slot(
        self,
        pool: &Pool,
        slot: u32,
    ) -> (HostedSession, Result<(), PoolError<SessionError>>)
        requires { slot < pool.now.slots }
        // A call leaves the session its heap, its lane, the ring to its helper, and the ring by which it comes back.
        ensures heap { SamePlace self result.0 }
        // A call of a host's session does and answers what the session's own call does, by the words of its own heap.
        ensures told { GivesSlot self.home self.session result.0.session pool.now slot result.1 }
    {
        let HostedSession {
            shared,
            session,
            back,
            stop,
        } = self;
        let (session, answer) = pool::give(session, &shared, pool, slot);
        let session = HostedSession {
            shared,
            session,
            back,
            stop,
        };
        (session, answer)
    }
}
