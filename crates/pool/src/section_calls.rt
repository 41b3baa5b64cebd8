//! A pool's calls, by a session.

ghost use Rattle.std.specs.Prelude.{◌<◌};
ghost use Rattle.pool.specs.SectionCalls.{GivesSlot, TakesSlot};
ghost use Rattle.session.specs.Sessions.{IsSessionOf, SameRing};

use crate::in_section::InSection;
use crate::{Pool, PoolError};
use monitor::Shared;
use session::{Session, SessionError};

/// Takes a slot of the pool, by a session that holds its monitor ([`Pool::take`]).
pub fn take(
    session: Session,
    shared: &Shared,
    pool: &Pool,
) -> (Session, Result<u32, PoolError<SessionError>>)
    requires { IsSessionOf shared.now session }
    // The session stays one of the same heap.
    ensures seat { IsSessionOf shared.now result.0 }
    // The session keeps its end of its ring.
    ensures ring { SameRing session result.0 }
    ensures told { TakesSlot shared.now session result.0 pool.now result.1 }
{
    let mut cells = InSection::new(session, shared);
    let answer = pool.take(&mut cells);
    (cells.into_session(), answer)
}

/// Gives a slot back, by a session that holds the pool's monitor ([`Pool::give`]).
pub fn give(
    session: Session,
    shared: &Shared,
    pool: &Pool,
    slot: u32,
) -> (Session, Result<(), PoolError<SessionError>>)
    requires session { IsSessionOf shared.now session }
    requires slot { slot < pool.now.slots }
    // The session stays one of the same heap.
    ensures seat { IsSessionOf shared.now result.0 }
    // The session keeps its end of its ring.
    ensures ring { SameRing session result.0 }
    ensures told { GivesSlot shared.now session result.0 pool.now slot result.1 }
{
    let mut cells = InSection::new(session, shared);
    let answer = pool.give(&mut cells, slot);
    (cells.into_session(), answer)
}
