//! Both ends meet.
ghost use Rattle.std.specs.Prelude.{◌≡◌, ◌<◌, ◌≤◌, [], ℕ, ◌⊎◌, MatchOption, MatchResult, length};
ghost use Rattle.heap_model.specs.Past.{Past};
ghost use Rattle.monitor.specs.Words.{setting_of};
ghost use Rattle.trim_helper.specs.Calls.{Closes, Finishes, StaysFailedTaking};
ghost use Rattle.trim_helper.specs.Helping.{IsHelper, taken_in};
ghost use Rattle.trim_helper.specs.Endings.{AreEnded, HasOpen, HoldNone, IsComplete, RefusesEnded, count_lane};
ghost use Rattle.trim_helper.specs.Moves.{most_room};
ghost use Rattle.thread_rings.specs.declared.ring_records.TheConstants.{MOST_RING_RECORDS};
ghost use Rattle.trim_helper.specs.Parts.{IsServing};
ghost use Rattle.trim_helper.specs.Taken.{with_rings};

use crate::close_error::{CloseError, close_error};
use crate::draining::drain_known;
use crate::ended::Ended;
use crate::helper::Helper;
use crate::meeting::meet;
use crate::published::close;
use crate::settling::make_durable;
use block_disk::Disk;
use heap_model::{Lane, Record};
use law_cuts::{stable_law, unlogged_law};
use law_histories::{all_kept_law, log_law, next_law, order_law, own_log_law};
use monitor::{Finals, HelperSeat, Shared};
use store_rounds::RoundStore;
use thread_rings::{MOST_RING_RECORDS, Receiver};

// How many of the sessions are of this lane.
fn count_of(ended: &[Ended], lane: u8) -> usize
    ensures count { result ≡ count_lane lane ended.now }
    ensures few { result ≤ length ended.now }
{
    match ended.split_first() {
        None => 0,
        Some((one, rest)) => {
            let later = count_of(rest, lane);
            if one.lane.0 == lane { later + 1 } else { later }
        }
    }
}

// The least lane whose session holds a monitor.
fn first_open(ended: &[Ended]) -> Option<Lane>
    ensures { MatchOption result (HoldNone ended.now) (λ lane. HasOpen lane.0 ended.now × ((k : ℕ) → HasOpen k ended.now → lane.0 ≤ k)) }
{
    match ended.split_first() {
        None => None,
        Some((one, rest)) => {
            let later = first_open(rest);
            if one.held == 0 {
                later
            } else {
                Some(lesser(one.lane, later))
            }
        }
    }
}

// The lesser of these lanes.
fn lesser(one: Lane, other: Option<Lane>) -> Lane
    ensures { MatchOption other (result ≡ one) (λ lane. ((result ≡ one) × (one.0 ≤ lane.0)) ⊎ ((result ≡ lane) × (lane.0 ≤ one.0))) }
{
    match other {
        Some(lane) => { if lane.0 < one.0 { lane } else { one } }
        None => one,
    }
}

// Whether there is just one session of each lane, and none holds a monitor.
fn check_ended(ended: &[Ended], lanes: u8) -> Result<(), CloseError>
    ensures { MatchResult result (λ done. HoldNone ended.now × IsComplete lanes ended.now) (RefusesEnded lanes ended.now) }
{
    for lane in 0..lanes {
        if count_of(ended, lane) != 1 {
            return Err(CloseError::Missing { lane: Lane(lane) });
        }
    }
    match first_open(ended) {
        Some(lane) => Err(CloseError::Unfinished { lane }),
        None => Ok(()),
    }
}

// The rings meet their other ends, and what is left in them is applied, made durable and acknowledged.
fn finish<D: Disk>(
    shared: Shared,
    ended: Vec<Ended>,
    store: &mut RoundStore<D>,
    rings: &mut [Receiver],
    waiting: &mut [Option<Record>],
    mut seat: HelperSeat,
) -> Result<Finals, CloseError>
    requires helper { IsHelper shared seat }
    requires lanes { shared.plan.lanes ≡ store.old.known.threads }
    requires rings { length rings.old ≡ store.old.known.threads }
    requires few { length rings.old ≤ 32 }
    requires room { most_room rings.old ≤ MOST_RING_RECORDS }
    requires slots { length waiting.old ≡ 32 }
    requires ended { AreEnded shared store.old.known.layout.capacity rings.old ended.items }
    requires none { HoldNone ended.items }
    requires complete { IsComplete store.old.known.threads ended.items }
    requires nothing { taken_in seat ≡ [] }
    ensures finishes { Finishes D.device shared seat ended.items (with_rings store.old rings.old waiting.old) (D.device store.new.disk) result }
    ensures still { StaysFailedTaking D.device (with_rings store.old rings.old waiting.old) store.new }
{
    log_law();
    own_log_law();
    next_law();
    order_law();
    all_kept_law();
    stable_law();
    unlogged_law();
    let layout = store.layout();
    meet(&shared, ended, rings, &mut seat, layout.capacity);
    if let Err(reason) = drain_known(store, rings, waiting, u64::MAX) {
        drop(close(shared, seat));
        return Err(close_error(reason));
    }
    if let Err(reason) = make_durable(store) {
        drop(close(shared, seat));
        return Err(close_error(reason));
    }
    let words = close(shared, seat);
    Ok(words)
}

/// Both ends meet: what the sessions sent is applied, made durable and acknowledged, and the device is given back.
///
/// Refusals, in this order, each with the device, as a stop leaves it:
/// - `Missing`: the least lane that hasn't just one session in the list. Nothing was done;
/// - `Unfinished`: the least lane whose session holds a monitor. Nothing was done;
/// - `Failed`: the device had failed in an earlier call;
/// - `Worn`: a control must be written, and the device's is at its last sequence;
/// - `Fault`: a call of the device failed now.
pub fn close_down<D: Disk>(
    shared: Shared,
    ended: Vec<Ended>,
    helper: Helper<D>,
) -> Result<D, (D, CloseError)>
    requires helper { IsHelper shared helper.seat }
    requires lanes { shared.plan.lanes ≡ helper.store.known.threads }
    requires ended { AreEnded shared helper.store.known.layout.capacity helper.rings ended.items }
    requires nothing { taken_in helper.seat ≡ [] }
    ensures closes { (p : Past) → IsServing D.device helper (setting_of shared.plan) p → Closes D.device shared ended.items p helper result }
{
    let Helper {
        mut store,
        mut rings,
        mut waiting,
        seat,
        is_settled: _,
    } = helper;
    let threads = store.threads();
    if let Err(reason) = check_ended(&ended, threads) {
        drop(seat);
        drop(waiting);
        drop(rings);
        drop(ended);
        drop(shared);
        return Err((store.into_disk(), reason));
    }
    let finished = finish(shared, ended, &mut store, &mut rings, &mut waiting, seat);
    drop(waiting);
    drop(rings);
    match finished {
        Ok(finals) => {
            drop(finals);
            Ok(store.into_disk())
        }
        Err(reason) => Err((store.into_disk(), reason)),
    }
}
