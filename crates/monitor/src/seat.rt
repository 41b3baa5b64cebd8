//! The seats, by which threads step on the shared words.

ghost use Rattle.std.specs.Prelude.{◌≡◌, ◌<◌, [], ◌∷◌};
ghost use Rattle.monitor.specs.Seats.{Sitting};
ghost use Rattle.monitor.specs.Views.{lane_of, Stands};

use crate::view::View;
use atomic_table::Badge;
use heap_model::{LANES, Lane};
use std::marker::Model;

/// The seat of one lane, by which its thread steps. There is one for each lane, and it has no bytes but the
/// lane's number. Contracts see it as a `Sitting`: its table, and its view, which is what it knows.
#[derive(Drop)]
pub struct Seat {
    pub(crate) seat: atomic_table::Seat<(), View>,
    pub(crate) lane: Lane,
}

impl Model for Seat {
    ghost use Rattle.monitor.specs.Seats.{Sitting, IsWorker};

    ghost Value = { Sitting };

    ghost view = { λ s. record { table = s.seat.table_id; id = s.seat.id; view = s.seat.me.0 } };

    ghost invariant = { λ s. IsWorker s.seat s.lane };
}

/// The helper's seat, by which the one thread that writes to the device publishes. It also gives out the
/// lanes' seats before the threads start, and takes them in when they have ended. There is one.
#[derive(Drop)]
pub struct HelperSeat {
    pub(crate) seat: atomic_table::Seat<(), View>,
    pub(crate) next: u8,
}

impl Model for HelperSeat {
    ghost use Rattle.monitor.specs.Seats.{Helping, IsHelper};

    ghost Value = { Helping };

    ghost view = { λ s. record { table = s.seat.table_id; id = s.seat.id; view = s.seat.me.0; next = s.next } };

    ghost invariant = { λ s. IsHelper s.seat s.next };
}

/// What tells the helper which events a lane had had when its seat left this. It steps no more, may cross to the helper's
/// thread with what the lane sends, and takes no bytes. Contracts see it as a `Sitting`.
#[derive(Drop)]
pub struct Witness {
    pub(crate) seat: atomic_table::Seat<(), View>,
}

impl Model for Witness {
    ghost use Rattle.monitor.specs.Seats.{Sitting, IsWitness};

    ghost Value = { Sitting };

    ghost view = { λ s. record { table = s.seat.table_id; id = s.seat.id; view = s.seat.me.0 } };

    ghost invariant = { λ s. IsWitness s.seat };
}

/// A witness, or none, so that each item of a queue may have one. It takes no bytes. Contracts see it as a list of a `Sitting`,
/// or of none.
#[derive(Drop)]
pub struct Told {
    pub(crate) badge: Badge<View>,
}

impl Model for Told {
    ghost use Rattle.std.specs.Prelude.{List};
    ghost use Rattle.monitor.specs.Seats.{Sitting, IsTold, seats_of};

    ghost Value = { List Sitting };

    ghost view = { λ t. seats_of t.badge.table_id t.badge.id t.badge.views };

    ghost invariant = { λ t. IsTold t.badge.views };
}

impl Told {
    /// No witness.
    pub fn nothing() -> Told
        ensures { result ≡ [] }
    {
        Told {
            badge: Badge::blank(),
        }
    }

    /// This witness.
    pub fn of(witness: Witness) -> Told
        ensures { result ≡ witness ∷ [] }
    {
        let Witness { seat } = witness;
        Told {
            badge: seat.into_badge(),
        }
    }

    /// The witness that it is.
    pub fn into_witness(self) -> Witness
        requires { (w : Sitting) × (self ≡ w ∷ []) }
        ensures { self ≡ result ∷ [] }
    {
        let Told { badge } = self;
        Witness {
            seat: badge.into_seat::<()>(),
        }
    }
}

impl Seat {
    /// The lane whose seat it is, numbered from 0.
    pub fn lane(&self) -> Lane
        ensures lane { result ≡ lane_of self.now.view }
        ensures small { result.0 < LANES }
    {
        self.lane
    }

    /// What the seat was told is its lane's part of one legal history: the one that it has seen ([`Shared::see`](crate::Shared::see)),
    /// or one that goes on from it. This does nothing at run time.
    pub fn stands(&self)
        ensures { Stands self.now.view }
    {
        let _lane = self.lane;
    }
}
