//! A session that has come back.
ghost use Rattle.rtrb.specs.Ring.{sent};

use crate::returning::Returning;
use rtrb::Producer;
use session::Session;
use std::alloc::Global;
use std::marker::Model;

/// What is left of a session that has ended: the ring by which it came back, in which it is now. It can be let go.
///
/// Contracts see it as what went through that ring.
#[derive(Drop)]
pub struct Returned {
    pub(crate) back: Producer<Session, Global, Returning>,
}

impl Model for Returned {
    ghost use Rattle.std.specs.Prelude.{List};
    ghost use Rattle.rtrb.specs.Ring.{sent};
    ghost use Rattle.session.specs.declared.session.Session.{Session};
    ghost use Rattle.session.specs.contracts.session.Session as sessions;
    ghost use Rattle.std.specs.Coded.{codes};

    ghost Value = { List Session };

    ghost coded = { Prim.hlevel (codes, sessions.the_row.coded) };

    ghost view = { λ r. sent r.back };
}
