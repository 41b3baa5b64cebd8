//! The helper hears what the rings tell of the one history.
ghost use Rattle.std.specs.Prelude.{◌≡◌, ◌<◌, ◌+◌, ℕ, length};
ghost use Rattle.heap_model.specs.History.{IsLegalHistory};
ghost use Rattle.monitor.specs.Views.{GoesOn};
ghost use Rattle.monitor.specs.Words.{setting_of};
ghost use Rattle.trim_helper.specs.Heard.{SeenLaw};
ghost use Rattle.trim_helper.specs.Hearing.{IsNoted, KeepsRecords};
ghost use Rattle.trim_helper.specs.Helping.{IsHelper};
ghost use Rattle.trim_helper.specs.Seen.{AreHeard, SeesFrom};

use block_disk::Disk;
use law_histories::sent_law;
use monitor::{HelperSeat, Shared};
use thread_rings::Receiver;

// Hears the witness that the lane's ring keeps, if it keeps one, and sees the history so far.
fn hear_at(shared: &Shared, rings: &mut [Receiver], lane: usize, seat: &mut HelperSeat)
    requires seat { IsHelper shared.now seat.old }
    requires ring { lane < length rings.old }
    requires sees { SeesFrom seat.old 0 rings.old }
    requires heard { AreHeard lane rings.old }
    ensures seat { IsHelper shared.now seat.new }
    ensures noted { IsNoted seat.old seat.new }
    ensures goes_on { GoesOn seat.new.view.history seat.old.view.history }
    ensures sees { SeesFrom seat.new 0 rings.new }
    ensures heard { AreHeard (lane + 1) rings.new }
    ensures records { KeepsRecords rings.old rings.new }
{
    sent_law();
    if let Some(witness) = rings[lane].take_witness() {
        shared.hear(seat, witness);
        shared.catch_up(seat);
    }
}

/// Hears the witnesses that the rings keep, and sees the history so far. At most two loads a lane, and one.
pub fn catch_up(shared: &Shared, rings: &mut [Receiver], seat: &mut HelperSeat)
    requires seat { IsHelper shared.now seat.old }
    requires sees { SeesFrom seat.old 0 rings.old }
    ensures seat { IsHelper shared.now seat.new }
    ensures noted { IsNoted seat.old seat.new }
    ensures goes_on { GoesOn seat.new.view.history seat.old.view.history }
    ensures legal { IsLegalHistory (setting_of shared.now.plan) seat.new.view.history }
    ensures sees { SeesFrom seat.new 0 rings.new }
    ensures heard { AreHeard (length rings.new) rings.new }
    ensures records { KeepsRecords rings.old rings.new }
{
    sent_law();
    for lane in 0..rings.len() {
        hear_at(shared, rings, lane, seat);
    }
    shared.catch_up(seat);
}

/// What a helper has seen of what it took it has seen of what it applied: of each lane, up to its last release, that is the beginning of
/// what the history that it has seen logs of the lane. This does nothing at run time.
pub fn seen_law<D: Disk>()
    // What was applied of each lane, up to the last release, is the beginning of what the seen history logs of the
    // lane.
    ensures { SeenLaw D.device }
{}
