//! A heap that was recovered, opened for threads.
ghost use Rattle.std.specs.Prelude.{◌≡◌, ◌<◌, ◌≤◌, ◌+◌, ◌^◌, IfErr, IfOk, All, false, map};
ghost use Rattle.store_rounds.specs.Store.{HasPast};
ghost use Rattle.monitor.specs.Seats.{IsSeatOf, fresh_views, helper_at};
ghost use Rattle.monitor.specs.Words.{setting_of};
ghost use Rattle.heap_model.specs.Past.{no_past};
ghost use Rattle.trim_helper.specs.Helping.{IsHelper};
ghost use Rattle.trim_helper.specs.Opening.{FitsSchema, plan_of};

use block_disk::Disk;
use guards::Schema;
use image::Recovered;
use monitor::{HelperSeat, Seat, Shared};
use std::alloc::{AllocError, Global};
use store_rounds::RoundStore;

/// A heap that is open for threads: the words that they share, the seats of its lanes, and what a helper is made of.
#[derive(Drop)]
pub struct Opened<D: Disk> {
    /// The words of its monitors and fields, all free and with the recovered values.
    pub shared: Shared,
    /// The seat of each thread's lane, lane i's as the i-th.
    pub seats: Vec<Seat>,
    /// The store of the device, which was told nothing.
    pub store: RoundStore<D>,
    /// The helper's seat, which has published nothing.
    pub seat: HelperSeat,
}

/// Opens a heap of this schema that was recovered, with so many lanes for threads. If the image has one more, its last lane is the
/// helper's. Both the words and the store begin with the heap's values, and release numbers stay at `last` or below. After want of
/// memory the device is given back as it was.
pub fn open_heap<D: Disk>(
    alloc: Global,
    schema: Schema,
    recovered: Recovered<D>,
    threads: u8,
    last: u64,
) -> Result<Opened<D>, (Recovered<D>, AllocError)>
    requires last { last < 2 ^ 40 }
    requires some { 1 ≤ threads }
    requires within { threads ≤ recovered.layout.lanes }
    requires most { recovered.layout.lanes ≤ threads + 1 }
    requires schema { FitsSchema schema recovered.layout recovered.guards }
    // The shared words and the store begin with one recovered heap.
    ensures plan { IfOk result (λ o. o.shared.plan ≡ plan_of schema recovered.heap last threads) }
    ensures seats { IfOk result (λ o. All (IsSeatOf o.shared) o.seats.items) }
    ensures views { IfOk result (λ o. map (λ s. s.view) o.seats.items ≡ fresh_views o.shared.plan threads) }
    ensures helper { IfOk result (λ o. IsHelper o.shared o.seat) }
    ensures silent { IfOk result (λ o. o.seat.view ≡ helper_at o.shared.plan threads) }
    // The store of a new heap was told nothing.
    ensures past { IfOk result (λ o. HasPast o.store.known (setting_of o.shared.plan) no_past (D.device o.store.disk)) }
    // The store of a new heap hasn't failed.
    ensures running { IfOk result (λ o. o.store.known.has_failed ≡ false) }
    ensures layout { IfOk result (λ o. o.store.known.layout ≡ recovered.layout) }
    // A new heap has as many lanes for threads as was asked for.
    ensures threads { IfOk result (λ o. o.store.known.threads ≡ threads) }
    ensures disk { IfOk result (λ o. o.store.disk ≡ recovered.disk) }
    ensures refused { IfErr result (λ back. back.0 ≡ recovered) }
{
    let (shared, seats, seat) = match Shared::new(alloc, schema, recovered.heap(), threads, last) {
        Ok(made) => made,
        Err(error) => return Err((recovered, error)),
    };
    match RoundStore::adopt(alloc, recovered, threads, last) {
        Ok(store) => Ok(Opened {
            shared,
            seats,
            store,
            seat,
        }),
        Err(back) => {
            drop(seat);
            drop(seats);
            drop(shared);
            Err(back)
        }
    }
}
