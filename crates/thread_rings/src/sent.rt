//! What goes through a ring.

use heap_model::Record;
use monitor::Told;
use rtrb::Protocol;

/// A record, and with a release, or a wait's, a witness of what its lane had logged then. It takes no more bytes than a record.
#[derive(Drop)]
pub struct Sent {
    pub entry: Record,
    pub told: Told,
}

/// What may go through a ring: a greeting, whose record says nothing, and then a lane's log, each release with a witness that the
/// lane has logged just what was sent up to it.
#[derive(Clone, Copy)]
pub struct Following;

impl Protocol<Sent> for Following {
    ghost use Rattle.thread_rings.specs.Following.{Follows};

    ghost allows = { λ before next. Follows before next };
}
