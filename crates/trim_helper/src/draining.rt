//! What is next in its lane is applied, until nothing is or a bound is reached.
ghost use Rattle.std.specs.Prelude.{◌≡◌, ◌<◌, ◌≤◌, Some, length};
ghost use Rattle.thread_rings.specs.declared.ring_records.TheConstants.{MOST_RING_RECORDS};
ghost use Rattle.trim_helper.specs.declared.draining.TheConstants.{LOOKS};
ghost use Rattle.trim_helper.specs.Bounds.{IsShare};
ghost use Rattle.trim_helper.specs.Draining.{DrainsRings, Empties, AppliesNext, AppliesLane, AppliesLanes};
ghost use Rattle.trim_helper.specs.Moves.{most_room};
ghost use Rattle.trim_helper.specs.Taken.{with_rings};

use crate::rings::{clear_waiting, fetch, has_nothing, have_nothing, look};
use block_disk::Disk;
use heap_model::{Lane, Record, StoreError};
use law_histories::{log_law, next_law, own_log_law};
use store_rounds::RoundStore;
use thread_rings::{MOST_RING_RECORDS, Receiver};

/// How often a drain looks at the rings at most. While threads send as quickly as it applies, a drain with no bound takes so many
/// rings' fill of each lane.
pub const LOOKS: usize = 16;

/// Applies the lane's next record, if one is known and it is next. Returns whether it did.
pub fn apply_next<D: Disk>(
    store: &mut RoundStore<D>,
    rings: &mut [Receiver],
    waiting: &mut [Option<Record>],
    lane: usize,
) -> Result<bool, StoreError>
    requires ring { lane < length rings.old }
    requires slot { lane < length waiting.old }
    requires few { lane < 32 }
    ensures { AppliesNext D.device lane (with_rings store.old rings.old waiting.old) (with_rings store.new rings.new waiting.new) result }
{
    fetch(rings, waiting, lane);
    let Some(next) = waiting[lane] else {
        return Ok(false);
    };
    match store.apply(Lane(lane as u8), next) {
        Ok(()) => {
            clear_waiting(waiting, lane);
            Ok(true)
        }
        Err(reason) => match reason {
            StoreError::Failed => Err(reason),
            // The store runs, and refuses this record: as not next, for want of room, or at an end of numbers. It waits for the next
            // drain, and the other lanes go on.
            _ => Ok(false),
        },
    }
}

/// Applies the lane's records as long as the next one can be, at most `most` of them, and answers how many it applied.
pub fn apply_lane<D: Disk>(
    store: &mut RoundStore<D>,
    rings: &mut [Receiver],
    waiting: &mut [Option<Record>],
    lane: usize,
    most: u64,
) -> Result<u64, StoreError>
    requires lane { lane < length rings.old }
    requires slots { length waiting.old ≡ 32 }
    requires few { length rings.old ≤ 32 }
    ensures { AppliesLane D.device lane most (with_rings store.old rings.old waiting.old) (with_rings store.new rings.new waiting.new) result }
{
    let mut count = 0u64;
    'records: while count < most {
        match apply_next(store, rings, waiting, lane) {
            Ok(gone) => {
                if !gone {
                    return Ok(count);
                }
                count += 1;
            }
            Err(reason) => return Err(reason),
        }
    }
    Ok(count)
}

// The next lane's part of what remains of a bound, where so many lanes are left: an equal part, rounded up. So a bound of at least one
// record for each lane leaves no lane out.
fn share_of(remaining: u64, lanes: usize) -> u64
    requires lanes { 0 < lanes }
    // The part is at least any equal part that all of the lanes can have, and leaves the others theirs.
    ensures { IsShare remaining lanes result }
{
    if remaining == 0 {
        0
    } else {
        (remaining - 1) / lanes as u64 + 1
    }
}

/// Applies the lanes' records in turn, each as long as its next one can be, and at most `most` in all: each lane at most an equal part
/// of what the lanes before it left. Returns how many it applied.
pub fn apply_lanes<D: Disk>(
    store: &mut RoundStore<D>,
    rings: &mut [Receiver],
    waiting: &mut [Option<Record>],
    most: u64,
) -> Result<u64, StoreError>
    requires slots { length waiting.old ≡ 32 }
    requires few { length rings.old ≤ 32 }
    ensures { AppliesLanes D.device most (with_rings store.old rings.old waiting.old) (with_rings store.new rings.new waiting.new) result }
{
    let lanes = rings.len();
    let mut went = 0u64;
    for lane in 0..lanes {
        // An idle lane costs a look at two words.
        if has_nothing(rings, waiting, lane) {
            continue;
        }
        let share = share_of(most - went, lanes - lane);
        match apply_lane(store, rings, waiting, lane, share) {
            Ok(gone) => went += gone,
            Err(reason) => return Err(reason),
        }
    }
    Ok(went)
}

/// Applies what is next in its lane, until nothing is or `most` records were applied, and reads no more of the rings than is known of
/// them.
pub fn drain_known<D: Disk>(
    store: &mut RoundStore<D>,
    rings: &mut [Receiver],
    waiting: &mut [Option<Record>],
    most: u64,
) -> Result<u64, StoreError>
    requires slots { length waiting.old ≡ 32 }
    requires few { length rings.old ≤ 32 }
    requires lanes { length rings.old ≡ store.old.known.threads }
    ensures { Empties D.device most (with_rings store.old rings.old waiting.old) (with_rings store.new rings.new waiting.new) result }
{
    next_law();
    log_law();
    own_log_law();
    let mut count = 0u64;
    'turns: while count < most {
        if have_nothing(rings, waiting) {
            return Ok(count);
        }
        match apply_lanes(store, rings, waiting, most - count) {
            Ok(went) => {
                if went == 0 {
                    return Ok(count);
                }
                count += went;
            }
            Err(reason) => return Err(reason),
        }
    }
    Ok(count)
}

/// Looks at the rings and applies what is next in its lane, again and again until nothing was, it has looked [`LOOKS`] times, or
/// `most` records were applied. Returns how many it applied.
pub fn drain_rings<D: Disk>(
    store: &mut RoundStore<D>,
    rings: &mut [Receiver],
    waiting: &mut [Option<Record>],
    most: u64,
) -> Result<u64, StoreError>
    requires slots { length waiting.old ≡ 32 }
    requires few { length rings.old ≤ 32 }
    requires room { most_room rings.old ≤ MOST_RING_RECORDS }
    requires lanes { length rings.old ≡ store.old.known.threads }
    ensures { DrainsRings D.device LOOKS (Some most) (with_rings store.old rings.old waiting.old) (with_rings store.new rings.new waiting.new) result }
{
    let mut count = 0u64;
    for again in 0..LOOKS {
        look(rings);
        match drain_known(store, rings, waiting, most - count) {
            Ok(more) => {
                count += more;
                if more == 0 {
                    return Ok(count);
                }
                if count == most {
                    return Ok(count);
                }
            }
            Err(reason) => return Err(reason),
        }
    }
    Ok(count)
}
