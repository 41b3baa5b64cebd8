//! The one history, as seats see it while threads go on; and what lanes had had, told to the helper.

ghost use Rattle.std.specs.Prelude.{◌≡◌};
ghost use Rattle.monitor.specs.Words.{setting_of};
ghost use Rattle.heap_model.specs.Log.{lane};
ghost use Rattle.monitor.specs.Views.{witness_for, hearing, caught_up, lane_of, GoesOn, HasHeard};
ghost use Rattle.heap_model.specs.History.{IsLegalHistory};
ghost use Rattle.monitor.specs.Seats.{IsSeatOf, IsHelperOf};

use crate::seat::{HelperSeat, Seat, Witness};
use crate::shared::Shared;
use crate::view::View;
use atomic_table::{Join, Play, Split};

/// A seat leaves a witness.
pub struct Attest;

impl Split<View> for Attest {
    ghost use Rattle.monitor.specs.Views.{unchanged, witness_for};

    ghost left = { unchanged };

    ghost right = { witness_for };
}

/// The helper's seat hears a witness.
pub struct Hears;

impl Join<View> for Hears {
    ghost use Rattle.monitor.specs.Views.{hearing, spent};

    ghost both = { hearing };

    ghost spent = { spent };
}

/// A load by which a lane's seat sees the history so far.
pub struct Sees;

impl Play<(), View> for Sees {
    ghost use Rattle.monitor.specs.Kinds.{sees};

    ghost then = { sees };
}

/// A load by which the helper's seat sees the history so far.
pub struct CatchesUp;

impl Play<(), View> for CatchesUp {
    ghost use Rattle.monitor.specs.Kinds.{catches_up};

    ghost then = { catches_up };
}

impl Shared {
    /// Leaves a witness of what the seat's lane has had so far; the seat goes on as it was. One load.
    pub fn witness(&self, seat: &mut Seat) -> Witness
        requires seat { IsSeatOf self.now seat.old }
        ensures seat { IsSeatOf self.now seat.new }
        // A witness leaves its seat as it was.
        ensures same { seat.new.view ≡ seat.old.view }
        // A witness has the events that its seat had when it left.
        ensures witness { IsSeatOf self.now result × (result.view ≡ witness_for seat.old.view) }
    {
        let _lane = seat.lane;
        let witness = self.table.shared.split_seat::<Attest>(&mut seat.seat);
        Witness { seat: witness }
    }

    /// Notes what a witness tells. From then on the helper may count on it: [`catch_up`](Self::catch_up) says for what. One load.
    pub fn hear(&self, helper: &mut HelperSeat, witness: Witness)
        requires helper { IsHelperOf self.now helper.old }
        requires witness { IsSeatOf self.now witness }
        // The helper has heard of the witness's lane what the witness tells, and nothing else is new.
        ensures helper { IsHelperOf self.now helper.new × (helper.new.view ≡ hearing helper.old.view witness.view) × (helper.new.next ≡ helper.old.next) }
    {
        let Witness { seat } = witness;
        self.table.shared.join_seat::<Hears>(&mut helper.seat, seat);
    }

    /// Sees the one history so far. It is legal, goes on from what the seat had seen before, and its lane's part is what the
    /// seat was told. From then on [`Seat::stands`] names a history that goes on from it. One load.
    pub fn see(&self, seat: &mut Seat)
        requires seat { IsSeatOf self.now seat.old }
        ensures seat { IsSeatOf self.now seat.new }
        // Seeing the history changes nothing else of the seat's view.
        ensures seen { seat.new.view ≡ caught_up seat.old.view seat.new.view.history }
        // The history that a seat has seen is legal.
        ensures legal { IsLegalHistory (setting_of self.now.plan) seat.new.view.history }
        // The lane's part of the history that a seat has seen is just what the seat was told.
        ensures part { lane (lane_of seat.old.view).0 seat.new.view.history ≡ seat.old.view.events }
        // The history that a seat has seen goes on from the one that it saw before.
        ensures goes_on { GoesOn seat.new.view.history seat.old.view.history }
    {
        let _lane = seat.lane;
        let place = self.count_place();
        self.table.shared.load::<Sees>(&mut seat.seat, place);
    }

    /// Sees the one history so far. It is legal, goes on from what the helper had seen before, and for each witness that was
    /// heard since, the part of its lane goes on from what that one told. One load.
    pub fn catch_up(&self, helper: &mut HelperSeat)
        requires helper { IsHelperOf self.now helper.old }
        ensures helper { IsHelperOf self.now helper.new × (helper.new.next ≡ helper.old.next) }
        // A helper that catches up changes nothing of its view but what it has seen.
        ensures seen { helper.new.view ≡ caught_up helper.old.view helper.new.view.history }
        // What the helper's seat has seen, while threads go on, is one legal history.
        ensures legal { IsLegalHistory (setting_of self.now.plan) helper.new.view.history }
        // The history that is seen goes on from the one that was seen before.
        ensures goes_on { GoesOn helper.new.view.history helper.old.view.history }
        // The history has, of each lane whose witness was heard, all that the lane had when the witness left its seat.
        ensures heard { HasHeard helper.new.view.history helper.old.view }
    {
        let place = self.count_place();
        self.table.shared.load::<CatchesUp>(&mut helper.seat, place);
    }
}
