//! The heap's end of a lane.
ghost use Rattle.std.specs.Prelude.{◌≡◌, ◌↔◌, ◌++◌, [], true, false, None, IfNone, IsSome, IsTrue, option_to_list};
ghost use Rattle.host_heap.specs.Lanes.{GivesBack, IsAwaited, IsIdle, IsTaken, KeepsCome, KeepsEnd, KeepsFirst};
ghost use Rattle.rtrb.specs.Ring.{SameConsumer, known_items, received};

use crate::returning::Returning;
use rtrb::Consumer;
use session::Session;
use std::alloc::Global;
use thread_heap::joined_law;

/// Where a lane's session comes back, and the session once it has.
#[derive(Drop)]
pub struct LaneEnd {
    pub back: Consumer<Session, Global, Returning>,
    pub came: Option<Session>,
}

impl LaneEnd {
    /// Whether the lane's session has come back.
    pub fn has_come(&mut self) -> bool
        ensures kept { KeepsEnd self.old self.new }
        ensures come { KeepsCome self.old self.new }
        ensures came { IsTrue result ↔ IsSome self.new.came }
        ensures awaited { result ≡ false → IsAwaited self.new }
    {
        if self.came.is_some() {
            return true;
        }
        self.came = take_one(&mut self.back);
        self.came.is_some()
    }

    /// Whether it has come back and holds no monitor.
    pub fn is_idle(&mut self) -> bool
        ensures kept { KeepsEnd self.old self.new }
        ensures come { KeepsCome self.old self.new }
        ensures idle { result ≡ true → IsIdle self.new }
        ensures taken { result ≡ false → IsTaken self.new }
    {
        if !self.has_come() {
            return false;
        }
        match &self.came {
            Some(session) => session.holds() == 0,
            None => false,
        }
    }
}

// The session that has come through, if one has.
fn take_one(back: &mut Consumer<Session, Global, Returning>) -> Option<Session>
    ensures first { KeepsFirst (received back.old) (received back.new) }
    ensures back { GivesBack (received back.old) result }
    ensures none { IfNone result (known_items back.new ≡ []) }
    ensures ring { SameConsumer back.old back.new }
    ensures received { received back.new ≡ received back.old ++ option_to_list result }
{
    joined_law();
    match back.pop() {
        Ok(session) => Some(session),
        Err(_) => None,
    }
}
