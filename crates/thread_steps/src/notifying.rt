//! The steps that end waits (JLS 17.2.2).

ghost use Rattle.std.specs.Prelude.{◌≡◌, [], ◌∷◌, ◌↔◌, true, Contains, List};
ghost use Rattle.std.specs.FinSet as set;
ghost use Rattle.heap_model.specs.declared.event.Event.TheVariants as event;
ghost use Rattle.thread_steps.specs.Views.{view, IsSeatOf, Keeps, KeepsEach, Lengthens, IsClear, IsAwake};

use crate::grip::Grip;
use heap_model::Lane;
use lock_word::WaitMask;
use monitor::{Seat, Shared};

/// Takes one lane out of the wait set, if any lane waits, and answers which (JLS 17.2.2). A load, and a fetch-and where a
/// lane waits.
pub fn notify_one(shared: &Shared, seat: &mut Seat, grip: Grip) -> Option<Lane>
    requires seat { IsSeatOf shared.now seat.old }
    requires keeps { Keeps (view seat.old) grip }
    requires free { IsClear (view seat.old) × IsAwake (view seat.old) }
    ensures seat { IsSeatOf shared.now seat.new }
    ensures clear { IsClear (view seat.new) }
    // The call adds just its event to the thread's view, with what the answer tells.
    ensures told { Lengthens (view seat.old) (view seat.new) (event.Notify grip.object result ∷ []) }
    ensures grips { KeepsEach (view seat.old) (view seat.new) }
{
    shared.notify_one(seat, grip.object)
}

/// Takes all lanes out of the wait set, and answers them (JLS 17.2.2). One swap.
pub fn notify_all(shared: &Shared, seat: &mut Seat, grip: Grip) -> WaitMask
    requires seat { IsSeatOf shared.now seat.old }
    requires keeps { Keeps (view seat.old) grip }
    requires free { IsClear (view seat.old) × IsAwake (view seat.old) }
    ensures seat { IsSeatOf shared.now seat.new }
    ensures clear { IsClear (view seat.new) }
    // The call adds just its event to the thread's view, with what the answer tells.
    ensures told { (woken : List Lane) × Lengthens (view seat.old) (view seat.new) (event.NotifyAll grip.object woken ∷ [])
        × ((l : Lane) → Contains woken l ↔ (set.contains result l.0 ≡ true)) }
    ensures grips { KeepsEach (view seat.old) (view seat.new) }
{
    let woken = shared.notify_all(seat, grip.object);
    let _ = woken.bits();
    woken
}
