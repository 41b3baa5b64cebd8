//! The one history of all threads, as a seat sees it.

ghost use Rattle.std.specs.Prelude.{◌≡◌};
ghost use Rattle.thread_steps.specs.Views.{view, IsSeatOf, KeepsEach, SeesHistory};

use monitor::{Seat, Shared};

/// Sees the one history so far, in which what the seat was told stands. From then on each history that is named for the seat
/// goes on from it. One load.
pub fn see(shared: &Shared, seat: &mut Seat)
    requires seat { IsSeatOf shared.now seat.old }
    ensures seat { IsSeatOf shared.now seat.new }
    ensures mark { (view seat.new).mark ≡ (view seat.old).mark }
    ensures seen { SeesHistory (view seat.old) (view seat.new) }
    ensures grips { KeepsEach (view seat.old) (view seat.new) }
{
    shared.see(seat);
}
