//! Sessions end, and meet their helper.
ghost use Rattle.std.specs.Prelude.{◌≡◌, All, IfOk};
ghost use Rattle.thread_heap.specs.Closed.{ClosesFromEach, IsClosed, MeetHelper};
ghost use Rattle.thread_heap.specs.Joined.{IsHelping, LeavesEnd};
ghost use Rattle.session.specs.Sessions.{seat_of};
ghost use Rattle.trim_helper.specs.Endings.{IsEnded};

use block_disk::Disk;
use monitor::Shared;
use session::Session;
use trim_helper::{CloseError, Ended, Helper, close_down};

/// Ends a session, for its helper to meet. It may still hold monitors; then its heap isn't closed.
pub fn end(session: Session) -> Ended
    ensures seat { result.seat ≡ seat_of session }
    // What a session leaves is what its helper needs to close.
    ensures ended { LeavesEnd session result }
{
    let ended = session.finish();
    let (seat, producer, _capacity, held) = ended.into_parts();
    let lane = seat.lane();
    Ended {
        seat,
        lane,
        held,
        producer,
    }
}

/// Lets the sessions that have ended meet their helper: all that they sent is applied, made durable and acknowledged, and the
/// device is given back. One legal history has what each session was told as its part, and lock words, fat words, masks and fields, as
/// the threads left them, spell the state after it. Recovery accepts whatever a crash leaves of the device, and the device stands for the
/// history's heap. The history goes on from the one that the helper had seen, so each session's part goes on from what was seen of its
/// lane. The helper had published each count that a session read as stable as acknowledged, and there is a whole, closed cut of the one
/// history with so many of the session's sections.
///
/// Refusals, in this order, each with the device, as a stop leaves it:
/// - `Missing`: the least lane that hasn't just one session in the list. Nothing was done;
/// - `Unfinished`: the least lane whose session holds a monitor. Nothing was done;
/// - `Failed`: the device had failed in an earlier call;
/// - `Worn`: a control must be written, and the device's is at its last sequence;
/// - `Fault`: a call of the device failed now.
pub fn close<D: Disk>(
    shared: Shared,
    ended: Vec<Ended>,
    helper: Helper<D>,
) -> Result<D, (D, CloseError)>
    requires helper { IsHelping D.device shared helper }
    requires ended { All (IsEnded shared helper.store.known.layout.capacity helper.rings) ended.items }
    // After a closing one legal history has each session's told events as its part. Recovery accepts whatever a crash
    // leaves of the device, and it stands for the history's heap with all sections.
    ensures ok { IfOk result (λ disk. IsClosed shared helper.store.known.layout ended.items (D.device disk)) }
    ensures from { ClosesFromEach D.device shared ended.items helper result }
    // A closing that its sessions stop leaves the device as it was. Where they don't stop it and the store had failed,
    // it answers `Failed`.
    ensures closes { MeetHelper D.device shared ended.items helper result }
{
    close_down(shared, ended, helper)
}
