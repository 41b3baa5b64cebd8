//! A session that has ended.

ghost use Rattle.std.specs.Prelude.{◌≡◌, ◌+◌};
ghost use Rattle.heap_model.specs.Limits.{IsWithinLimits};
ghost use Rattle.thread_rings.specs.Rings.{sent};
ghost use Rattle.thread_steps.specs.Views.{view};
ghost use Rattle.session.specs.Logs.{sent_in, actions_in, held_count};
ghost use Rattle.session.specs.Past.{BeganBelow, IsWithinLimits-prop, BeganBelow-prop};

use crate::parts::Parts;
use crate::session::Session;
use monitor::Seat;
use thread_rings::Sender;

/// A session that has ended: its seat, and its end of the ring, in which records may still wait for the helper.
#[derive(Drop)]
pub struct Ended {
    pub(crate) seat: Seat,
    pub(crate) ring: Sender,
    // How many records the lane holds.
    pub(crate) capacity: u64,
    // How many monitors it still holds.
    pub(crate) held: u32,
    ghost sent: { sent ring ≡ sent_in (view seat) },
    ghost counted: { held ≡ held_count (view seat) },
    ghost limits: { IsWithinLimits (actions_in (view seat)) } by { IsWithinLimits-prop (actions_in (view seat)) },
    ghost began: { BeganBelow ((view seat).trimmed + capacity) (actions_in (view seat)) } by { Prim.hlevel BeganBelow-prop },
}

impl Session {
    ghost use Rattle.session.specs.Sessions.{Ends};

    /// Ends the session. It may still hold monitors: then its last section stays open.
    pub fn finish(self) -> Ended
        ensures { Ends self result }
    {
        let Session { parts } = self;
        let Parts {
            seat,
            ring,
            held,
            records: _,
            place: _,
            sections: _,
            capacity,
            trimmed: _,
        } = parts;
        Ended {
            seat,
            ring,
            capacity,
            held: held.len() as u32,
        }
    }
}

impl Ended {
    ghost use Rattle.session.specs.Sessions.{IsMadeOf};

    /// Its seat, its end of the ring, how many records its lane holds, and how many monitors it still holds. All that it was
    /// told is sent; each of its sections is within its limit, and began where the lane, up to the trimmed place that its view
    /// has, had room for a whole one.
    pub fn into_parts(self) -> (Seat, Sender, u64, u32)
        ensures parts { IsMadeOf self result.0 result.1 result.2 }
        ensures all_sent { sent result.1 ≡ sent_in (view result.0) }
        ensures held { result.3 ≡ held_count (view result.0) }
        // An ended session is within the limits of a lane's log.
        ensures limits { IsWithinLimits (actions_in (view result.0)) }
        // Each of an ended session's sections began where the lane had room for it.
        ensures began { BeganBelow ((view result.0).trimmed + result.2) (actions_in (view result.0)) }
    {
        let Ended {
            seat,
            ring,
            capacity,
            held,
        } = self;
        (seat, ring, capacity, held)
    }
}
