//! What C calls of a heap. Each export is one call of `heap_calls` on the heap of the handle.
ghost use Rattle.std.specs.Prelude.{◌≡◌, ◌≢◌, None};
ghost use Rattle.zelamiku.specs.Ended.{still_held};
ghost use Rattle.zelamiku.specs.HandleDoors.{AnswersBy, HandsOutBy};
ghost use Rattle.zelamiku.specs.HeapDoors.{AcknowledgesAt, ClosesAt, MakesCallAt, RoundsAt, TellsNextAt, TellsWaitingAt, told_of};
ghost use Rattle.zelamiku.specs.declared.status.TheConstants.{OK};

use crate::slot::{Slot, is_taken, let_go};
use crate::words::Call;
use crate::{heap_calls, status};
use std::alloc::Global;

/// Hands out a session.
#[unsafe(no_mangle)]
pub extern "C" fn zelamiku_session(alloc: Global, place: &mut Slot, session: &mut Slot) -> u32
    // Sessions are handed out lane by lane, and nothing was told to them. Once each lane's was handed out, a session
    // that has ended and holds no monitor is handed out again. `NONE_LEFT` is answered only where there is none of
    // either. A session's handle that is in use is answered `OPEN` and keeps what it has.
    ensures told { HandsOutBy session.old session.new place.old place.new result }
    // Where no session is handed out the session's handle is as it was.
    ensures refused { result ≢ OK → session.new.handle.state ≡ still_held session.old.handle.state }
{
    if is_taken(alloc, session) {
        return status::OPEN;
    }
    if !place.is_open() {
        return status::NOTHING;
    }
    heap_calls::session(alloc, place.handle.as_mut(), session)
}

/// The call of the device that the host has to make next.
#[unsafe(no_mangle)]
pub extern "C" fn zelamiku_next_call(place: &mut Slot, call: &mut Call, bytes: &mut [u8]) -> u32
    // What the host is told is the first of the calls that are left: its kind, its place, how many bytes, and as many
    // of them as there is room for. Calls are fetched just where none is left.
    ensures told { AnswersBy (TellsNextAt call.new bytes.old bytes.new) place.old place.new result }
    // Where no call is told, it is told that there is none.
    ensures refused { result ≢ OK → call.new ≡ told_of None }
    // Where no call is told the buffer stays as it was.
    ensures kept { result ≢ OK → bytes.new ≡ bytes.old }
{
    *call = heap_calls::no_call();
    if !place.is_open() {
        return status::NOTHING;
    }
    let (next, answer) = heap_calls::next_call(place.handle.as_mut(), bytes);
    *call = next;
    answer
}

/// The host has made that call.
#[unsafe(no_mangle)]
pub extern "C" fn zelamiku_call_done(place: &mut Slot) -> u32
    // A call that is done is the first of those that are left, and goes over to those that were made. Where none is
    // left, that is told.
    ensures { AnswersBy MakesCallAt place.old place.new result }
{
    if !place.is_open() {
        return status::NOTHING;
    }
    heap_calls::call_done(place.handle.as_mut())
}

/// How many groups of calls were handed over and aren't fetched yet.
#[unsafe(no_mangle)]
pub extern "C" fn zelamiku_waiting(place: &mut Slot, count: &mut u32) -> u32
    // C is told how many groups of calls a heap has handed over, also one that was closed, which aren't fetched yet. A
    // group is the calls up to a sync. No call is made or fetched.
    ensures told { AnswersBy (TellsWaitingAt count.new) place.old place.new result }
    // Where no groups are told the count is 0.
    ensures refused { result ≢ OK → count.new ≡ 0 }
{
    *count = 0;
    if !place.is_open() {
        return status::NOTHING;
    }
    let (groups, answer) = heap_calls::waiting(place.handle.as_mut());
    *count = groups;
    answer
}

/// A round of the helper, of at most `most` records, or of any number by [`ALL`](heap_calls::ALL).
#[unsafe(no_mangle)]
pub extern "C" fn zelamiku_round(place: &mut Slot, most: u64, applied: &mut u64) -> u32
    // A round does what the heap's round does, by the bound that C gives, and 2^64 - 1 is no bound. A round that reaches
    // its bound has shared it equally among the lanes. It tells how many records it applied or why it stopped.
    // `CALLS_LEFT` is answered exactly where there may be no room for its calls, and nothing was done.
    ensures told { AnswersBy (RoundsAt most applied.new) place.old place.new result }
    // A round that isn't good tells 0 records.
    ensures refused { result ≢ OK → applied.new ≡ 0 }
{
    *applied = 0;
    if !place.is_open() {
        return status::NOTHING;
    }
    let (count, answer) = heap_calls::round(place.handle.as_mut(), most);
    *applied = count;
    answer
}

/// How many sections of a lane are acknowledged.
#[unsafe(no_mangle)]
pub extern "C" fn zelamiku_acknowledged(place: &mut Slot, lane: u32, sections: &mut u64) -> u32
    // A closed heap is answered `CLOSED`, one that has stopped `STOPPED`, another kind of handle `WRONG_KIND`, and an
    // empty one `NOTHING`. What is there stays.
    ensures told { AnswersBy (AcknowledgesAt lane sections.new) place.old place.new result }
    // Where nothing is told as acknowledged the count is 0.
    ensures refused { result ≢ OK → sections.new ≡ 0 }
{
    *sections = 0;
    if !place.is_open() {
        return status::NOTHING;
    }
    let (count, answer) = heap_calls::acknowledged(place.handle.as_mut(), lane);
    *sections = count;
    answer
}

/// Closes a heap.
#[unsafe(no_mangle)]
pub extern "C" fn zelamiku_close(place: &mut Slot) -> u32
    // A closed heap's sessions have ended, one a lane, holding no monitor, and its disk stands for the heap of their
    // one history. A heap that isn't closed goes on, or has stopped for the reason that is told.
    ensures { AnswersBy ClosesAt place.old place.new result }
{
    if !place.is_open() {
        return status::NOTHING;
    }
    heap_calls::close(place.handle.as_mut())
}

/// Lets go of what a handle has. The handle is empty then.
#[unsafe(no_mangle)]
pub extern "C" fn zelamiku_free(alloc: Global, place: &mut Slot)
    // A handle that is freed is empty.
    ensures { place.new.handle.state ≡ None }
{
    let_go(alloc, place);
}
