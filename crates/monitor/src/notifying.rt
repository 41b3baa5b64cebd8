//! Steps that take lanes out of a wait set (JLS 17.2.2).

ghost use Rattle.std.specs.Prelude.{◌≡◌, ◌≢◌, ◌<◌, ◌^◌, true, Some, None};
ghost use Rattle.std.specs.FinSet as set;
ghost use Rattle.lock_word.specs.WaitMask.{mask_of};
ghost use Rattle.lock_word.specs.Members.{members};
ghost use Rattle.monitor.specs.declared.view.Mark.TheVariants.{Clear, Knows};
ghost use Rattle.monitor.specs.Words.{objects};
ghost use Rattle.monitor.specs.Views.{told, learned, IsAwake, IsClear};
ghost use Rattle.monitor.specs.Seats.{IsSeatOf, IsHeld};

use crate::seat::Seat;
use crate::shared::Shared;
use crate::view::View;
use atomic_table::Play;
use heap_model::{Event, LANES, Lane, ObjectId};
use lock_word::WaitMask;

/// A load of a wait mask by the owner.
pub struct Masks;

impl Play<(), View> for Masks {
    ghost use Rattle.monitor.specs.Kinds.{masks};

    ghost then = { masks };
}

/// A fetch-and that clears one lane's bit in a wait mask.
pub struct Wakes;

impl Play<(), View> for Wakes {
    ghost use Rattle.monitor.specs.Kinds.{wakes};

    ghost then = { wakes };
}

/// A swap of a wait mask with 0.
pub struct Empties;

impl Play<(), View> for Empties {
    ghost use Rattle.monitor.specs.Kinds.{empties};

    ghost then = { empties };
}

impl Shared {
    /// Takes one lane out of the wait set, and answers which; none only where nobody waits. A load, and a fetch-and
    /// where a lane waits.
    pub fn notify_one(&self, seat: &mut Seat, object: ObjectId) -> Option<Lane>
        requires seat { IsSeatOf self.now seat.old }
        requires object { object.0 < objects self.now.plan }
        requires held { IsHeld seat.old.view object.0 }
        requires free { IsAwake seat.old.view × (seat.old.view.mark ≡ Clear) }
        ensures seat { IsSeatOf self.now seat.new }
        // The step adds just its event to the seat's view, with what the answer tells.
        ensures told { seat.new.view ≡ told seat.old.view (Event.Notify object result) }
    {
        let found = self.look_mask(seat, object);
        let mask = WaitMask::parse(found).unwrap();
        let _ = mask.bits();
        match mask.least() {
            None => None,
            Some(lane) => {
                self.wake(seat, object, mask, lane);
                Some(lane)
            }
        }
    }

    // The mask, which stays as it is while the seat holds the monitor.
    fn look_mask(&self, seat: &mut Seat, object: ObjectId) -> u64
        requires seat { IsSeatOf self.now seat.old }
        requires object { object.0 < objects self.now.plan }
        requires held { IsHeld seat.old.view object.0 }
        requires free { IsAwake seat.old.view × IsClear seat.old.view }
        ensures seat { IsSeatOf self.now seat.new }
        ensures small { result < 2 ^ 32 }
        ensures none { result ≡ 0 → seat.new.view ≡ told seat.old.view (Event.Notify object None) }
        ensures some { result ≢ 0 → seat.new.view ≡ learned seat.old.view object result }
    {
        let place = self.mask_place(object);
        self.table.shared.load::<Masks>(&mut seat.seat, place)
    }

    // Takes one lane out of the wait set, whose mask is known.
    fn wake(&self, seat: &mut Seat, object: ObjectId, mask: WaitMask, lane: Lane)
        requires seat { IsSeatOf self.now seat.old }
        requires object { object.0 < objects self.now.plan }
        requires awake { IsAwake seat.old.view }
        requires known { seat.old.view.mark ≡ Knows object (mask_of mask) }
        requires lane { (lane.0 < LANES) × (set.contains mask lane.0 ≡ true) }
        ensures seat { IsSeatOf self.now seat.new }
        ensures told { seat.new.view ≡ told seat.old.view (Event.Notify object (Some lane)) }
    {
        let place = self.mask_place(object);
        let _lane = seat.lane;
        let _ = mask.bits();
        let others = mask.without(lane).bits();
        self.table
            .shared
            .fetch_and::<Wakes>(&mut seat.seat, place, others);
    }

    /// Takes all lanes out of the wait set, and answers them. One swap.
    pub fn notify_all(&self, seat: &mut Seat, object: ObjectId) -> WaitMask
        requires seat { IsSeatOf self.now seat.old }
        requires object { object.0 < objects self.now.plan }
        requires held { IsHeld seat.old.view object.0 }
        requires free { IsAwake seat.old.view × IsClear seat.old.view }
        ensures seat { IsSeatOf self.now seat.new }
        // The step adds just its event to the seat's view, with what the answer tells.
        ensures told { seat.new.view ≡ told seat.old.view (Event.NotifyAll object (members result)) }
    {
        let place = self.mask_place(object);
        let found = self.table.shared.swap::<Empties>(&mut seat.seat, place, 0);
        WaitMask::parse(found).unwrap()
    }
}
