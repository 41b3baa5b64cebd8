//! A session whose fields are cells.

ghost use Rattle.std.proofs.Props.{props};
ghost use Rattle.session.specs.Sessions.{IsSessionOf};

use crate::Cells;
use heap_model::FieldId;
use monitor::Shared;
use session::{Session, SessionError};

/// A session, and the shared words of its heap. Its cells are the fields whose monitors the session holds, and it knows what
/// the session's own events say of them since it took the monitor.
///
/// A call fails as the session's `load` or `store_two` is refused, and tells the session loads and stores alone.
#[derive(Drop)]
pub struct InSection<'a> {
    session: Session,
    shared: &'a Shared,
    ghost seat: { IsSessionOf shared.now session } by { Prim.hlevel props },
}

impl<'a> InSection<'a> {
    ghost use Rattle.std.specs.Prelude.{◌≡◌};
    ghost use Rattle.session.specs.Sessions.{IsSessionOf};
    ghost use Rattle.pool.specs.Knowing.{session_of, home_of};

    /// Uses the session's fields as cells.
    pub fn new(session: Session, shared: &'a Shared) -> InSection<'a>
        requires { IsSessionOf shared.now session }
        ensures session { session_of result ≡ session }
        ensures home { home_of result ≡ shared.now }
    {
        InSection { session, shared }
    }

    /// The session again.
    pub fn into_session(self) -> Session
        ensures session { result ≡ session_of self.entry }
        ensures home { IsSessionOf (home_of self.entry) result }
    {
        let InSection { session, shared: _ } = self;
        session
    }
}

impl<'a> Cells for InSection<'a> {
    ghost use Rattle.std.specs.Prelude.{IfOk, IfErr, OnOk};
    ghost use Rattle.pool.specs.Knowledge.{Reads, Stores, FailsToLoad, FailsToStore};
    ghost use Rattle.pool.specs.Knowing.{known_by, Keeps};
    ghost use Rattle.pool.specs.Keeping.{keeps_on};

    type Fault = SessionError;

    ghost knows = { known_by };

    ghost keeps = { Keeps };

    fn load(&mut self, field: FieldId) -> Result<u64, SessionError> {
        self.session.load(self.shared, field)
    }

    fn store_two(
        &mut self,
        first: FieldId,
        one: u64,
        second: FieldId,
        two: u64,
    ) -> Result<(), SessionError> {
        self.session.store_two(self.shared, first, one, second, two)
    }

    ghost keeps_both = { keeps_on };
}
