//! How a session comes back to the heap that handed it out.
use rtrb::Protocol;
use session::Session;

/// What goes through the ring by which a session comes back: first the session as it is handed out, and then that session again, after
/// all its calls.
#[derive(Clone, Copy)]
pub struct Returning;

impl Protocol<Session> for Returning {
    ghost use Rattle.host_heap.specs.Returning.{MayReturn};

    ghost allows = { λ before session. MayReturn before session };
}
