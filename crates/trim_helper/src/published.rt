//! The shared words, as the helper uses them.
ghost use Rattle.std.specs.Prelude.{◌≡◌, ◌==◌, ◌<◌, ◌≤◌, ◌⊎◌, ◌∷◌, ℕ, if◌then◌else◌};
ghost use Rattle.monitor.specs.Seats.{IsSeatOf};
ghost use Rattle.monitor.specs.Views.{GoesOn};
ghost use Rattle.trim_helper.specs.Counts.{AddsCounts, WasCount};
ghost use Rattle.trim_helper.specs.Endings.{part_at};
ghost use Rattle.trim_helper.specs.Helping.{HasPublished, HavePublished, HaveRead, IsHelper, MayPublish, TellsHistory, count_published, place_published, taken_in};
ghost use Rattle.trim_helper.specs.Seen.{SameSight};

use block_disk::Disk;
use heap_model::Lane;
use monitor::{Finals, HelperSeat, Seat, Shared};
use store_rounds::RoundStore;

/// Publishes by lane what is acknowledged and trimmed.
pub fn publish_all<D: Disk>(store: &RoundStore<D>, shared: &Shared, seat: &mut HelperSeat)
    requires seat { IsHelper shared.now seat.old }
    requires lanes { shared.now.plan.lanes ≡ store.now.known.threads }
    requires rises { MayPublish D.device store.now seat.old }
    ensures published { HasPublished D.device store.now seat.new }
    ensures counts { AddsCounts D.device store.now seat.old seat.new }
    ensures notes { GoesOn seat.new.view.notes seat.old.view.notes }
    ensures seat { IsHelper shared.now seat.new }
    ensures gathered { taken_in seat.new ≡ taken_in seat.old }
    ensures sight { SameSight seat.old seat.new }
{
    let threads = store.threads();
    for lane in 0..threads {
        let lane = Lane(lane);
        let acknowledged = store.acknowledged(lane);
        let trimmed = store.trimmed(lane);
        publish(shared, seat, lane, acknowledged, trimmed);
    }
}

// Publishes of the lane how many sections are acknowledged, and the place up to which its log is trimmed.
fn publish(shared: &Shared, seat: &mut HelperSeat, lane: Lane, acknowledged: u64, trimmed: u64)
    requires seat { IsHelper shared.now seat.old }
    requires lane { lane.0 < shared.now.plan.lanes }
    requires count { count_published seat.old lane.0 ≤ acknowledged }
    requires place { place_published seat.old lane.0 ≤ trimmed }
    ensures seat { IsHelper shared.now seat.new }
    ensures count { (l : ℕ) → l < 32 → count_published seat.new l ≡ (if lane.0 == l then acknowledged else count_published seat.old l) }
    ensures place { (l : ℕ) → l < 32 → place_published seat.new l ≡ (if lane.0 == l then trimmed else place_published seat.old l) }
    ensures counts { (l n : ℕ) → l < 32 → WasCount seat.new l n → WasCount seat.old l n ⊎ ((lane.0 ≡ l) × (n ≡ acknowledged)) }
    ensures notes { GoesOn seat.new.view.notes seat.old.view.notes }
    ensures gathered { taken_in seat.new ≡ taken_in seat.old }
    ensures sight { SameSight seat.old seat.new }
{
    shared.publish(seat, lane, acknowledged, trimmed);
}

/// Takes in the seat of a session that has ended.
pub fn gather(shared: &Shared, helper: &mut HelperSeat, seat: Seat)
    requires helper { IsHelper shared.now helper.old }
    requires seat { IsSeatOf shared.now seat }
    ensures helper { IsHelper shared.now helper.new }
    ensures count { (l : ℕ) → count_published helper.new l ≡ count_published helper.old l }
    ensures place { (l : ℕ) → place_published helper.new l ≡ place_published helper.old l }
    ensures gathered { taken_in helper.new ≡ part_at seat ∷ taken_in helper.old }
    ensures notes { helper.new.view.notes ≡ helper.old.view.notes }
    ensures sight { SameSight helper.old helper.new }
{
    shared.gather(helper, seat);
}

/// Nobody goes on. One legal history has the lanes that were taken in as its parts, and goes on from what the helper had seen. Lock words,
/// fat words, masks and fields spell its state. Each count that a lane read was published.
pub fn close(shared: Shared, helper: HelperSeat) -> Finals
    requires helper { IsHelper shared helper }
    ensures history { TellsHistory shared.plan helper result }
    ensures read { HaveRead helper }
    ensures published { HavePublished helper }
{
    shared.close(helper)
}
