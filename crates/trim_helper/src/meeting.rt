//! Sessions that have ended meet the helper.
ghost use Rattle.std.specs.Prelude.{◌≡◌, ◌≢◌, ◌+◌, ◌<◌, ◌≤◌, ◌∷◌, ◌++◌, [], ℕ, List, length, vec_len};
ghost use Rattle.trim_helper.specs.Endings.{AreEnded, HoldNone, IsComplete, IsEnded, part_at, parts_of};
ghost use Rattle.monitor.specs.Words.{setting_of};
ghost use Rattle.trim_helper.specs.Helping.{IsHelper, count_published, place_published, taken_in};
ghost use Rattle.trim_helper.specs.Meeting.{HasPart, HaveMet};
ghost use Rattle.trim_helper.specs.Moves.{IsEndOf, Looks};
ghost use Rattle.thread_rings.specs.Rings.{sent};
ghost use Rattle.trim_helper.specs.Rings.{received_of, known_of};
ghost use Rattle.trim_helper.specs.Seen.{SameSight};

use crate::ended::Ended;
use crate::published::gather;
use monitor::{HelperSeat, Shared};
use thread_rings::{Receiver, Sender};

// Looks at the lane's ring beside its other end: what was received and what is left is what was sent.
fn look_beside(rings: &mut [Receiver], lane: usize, producer: &mut Sender)
    requires ring { lane < length rings.old }
    requires pair { IsEndOf producer.old rings.old lane }
    ensures looks { Looks rings.old rings.new }
    ensures others { (l : ℕ) → lane ≢ l → known_of rings.new l ≡ known_of rings.old l }
    ensures fifo { received_of rings.new lane ++ known_of rings.new lane ≡ sent producer.old }
{
    rings[lane].slots_beside(producer);
}

// Lets one session that has ended meet its lane's ring, and takes in its seat.
fn meet_one(
    shared: &Shared,
    one: Ended,
    rings: &mut [Receiver],
    seat: &mut HelperSeat,
    capacity: u32,
)
    requires helper { IsHelper shared.now seat.old }
    requires one { IsEnded shared.now capacity rings.old one }
    ensures looks { Looks rings.old rings.new }
    ensures others { (l : ℕ) → one.lane.0 ≢ l → known_of rings.new l ≡ known_of rings.old l }
    ensures fifo { received_of rings.new one.lane.0 ++ known_of rings.new one.lane.0 ≡ sent one.producer }
    ensures helper { IsHelper shared.now seat.new }
    ensures count { (l : ℕ) → count_published seat.new l ≡ count_published seat.old l }
    ensures place { (l : ℕ) → place_published seat.new l ≡ place_published seat.old l }
    ensures gathered { taken_in seat.new ≡ part_at one.seat ∷ taken_in seat.old }
    ensures notes { seat.new.view.notes ≡ seat.old.view.notes }
    ensures sight { SameSight seat.old seat.new }
{
    let Ended {
        seat: other,
        lane,
        held: _,
        mut producer,
    } = one;
    let _ = capacity;
    look_beside(rings, usize::from(lane.0), &mut producer);
    gather(shared, seat, other);
}

/// Lets each session that has ended meet its lane's ring, and takes in its seat.
pub fn meet(
    shared: &Shared,
    ended: Vec<Ended>,
    rings: &mut [Receiver],
    seat: &mut HelperSeat,
    capacity: u32,
)
    requires helper { IsHelper shared.now seat.old }
    requires ended { AreEnded shared.now capacity rings.old ended.items }
    requires none { HoldNone ended.items }
    requires complete { IsComplete (length rings.old) ended.items }
    requires nothing { taken_in seat.old ≡ [] }
    ensures looks { Looks rings.old rings.new }
    ensures helper { IsHelper shared.now seat.new }
    ensures count { (l : ℕ) → count_published seat.new l ≡ count_published seat.old l }
    ensures place { (l : ℕ) → place_published seat.new l ≡ place_published seat.old l }
    ensures met { HaveMet (setting_of shared.now.plan) rings.new (taken_in seat.new) capacity }
    ensures gathered { taken_in seat.new ≡ parts_of ended.items }
    ensures notes { seat.new.view.notes ≡ seat.old.view.notes }
    ensures sight { SameSight seat.old seat.new }
    ensures present { (l : ℕ) → l < length rings.old → HasPart (taken_in seat.new) l }
{
    let mut left = ended;
    'ends: while let Some(one) = left.pop() {
        meet_one(shared, one, rings, seat, capacity);
    }
}
