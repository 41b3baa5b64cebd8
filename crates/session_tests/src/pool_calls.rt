//! A pool's calls in a section, so that a test may list them with their answers.

ghost use Rattle.std.specs.Prelude.{◌≡◌};
ghost use Rattle.pool.specs.Knowing.{home_of};
ghost use Rattle.session.specs.Sessions.{IsSessionOf};

use monitor::Shared;
use pool::{InSection, Pool, PoolError};
use session::{Session, SessionError};

/// A call of a pool.
#[derive(Clone, Copy)]
pub enum Call {
    Take,
    Give(u32),
}

/// The slot that was taken, or none where one was given.
pub type Answer = Result<Option<u32>, PoolError<SessionError>>;

/// A call, and its answer.
pub type Row = (Call, Answer);

// Makes the call.
fn make(pool: &Pool, cells: &mut InSection<'_>, call: Call) -> Answer
    ensures home { home_of cells.new ≡ home_of cells.old }
{
    match call {
        Call::Take => match pool.take(cells) {
            Ok(slot) => Ok(Some(slot)),
            Err(error) => Err(error),
        },
        Call::Give(slot) => give(pool, cells, slot),
    }
}

// Gives a slot. One that the pool lacks is answered instead.
fn give(pool: &Pool, cells: &mut InSection<'_>, slot: u32) -> Answer
    ensures home { home_of cells.new ≡ home_of cells.old }
{
    if slot >= pool.slots() {
        return Ok(Some(slot));
    }
    match pool.give(cells, slot) {
        Ok(()) => Ok(None),
        Err(error) => Err(error),
    }
}

// Makes these calls. Returns whether all answer so.
fn follow(pool: &Pool, cells: &mut InSection<'_>, rows: &[Row]) -> bool
    ensures home { home_of cells.new ≡ home_of cells.old }
{
    let mut are_so = true;
    for (call, answer) in rows {
        are_so &= make(pool, cells, *call) == *answer;
    }
    are_so
}

/// Makes these calls by the session. Returns whether all answer so.
pub fn call_all(shared: &Shared, pool: &Pool, session: Session, rows: &[Row]) -> (Session, bool)
    requires seat { IsSessionOf shared.now session }
    ensures seat { IsSessionOf shared.now result.0 }
{
    let mut cells = InSection::new(session, shared);
    let are_so = follow(pool, &mut cells, rows);
    (cells.into_session(), are_so)
}
