//! What C calls of a session. Each export is one call of `session_calls` on the session of the handle.
ghost use Rattle.std.specs.Prelude.{◌≡◌, ◌≢◌};
ghost use Rattle.zelamiku.specs.HandleDoors.{AnswersBy, ByHandle};
ghost use Rattle.zelamiku.specs.SessionDoors.{AnswersAs, AnswersUnlessStopped, Ends, EntersAt, ExitsAt, LoadsAt, LooksAt, NotifiesAllAt, NotifiesAt, ReadsStableAt, Resumes, StoresAt, TellsLaneAt, WaitsAt, free_sight};
ghost use Rattle.zelamiku.specs.declared.session_calls.TheConstants.{NOBODY};
ghost use Rattle.zelamiku.specs.declared.status.TheConstants.{OK};

use crate::slot::Slot;
use crate::words::Sight;
use crate::{session_calls, status};

/// Takes the monitor, or one lock more of it.
#[unsafe(no_mangle)]
pub extern "C" fn zelamiku_try_enter(place: &mut Slot, object: u32) -> u32
    // An enter is the session's own, by the object that C gave. It is answered `STOPPED` only where the session has
    // seen its heap's word written, and then nothing else is done.
    ensures told { ByHandle (AnswersUnlessStopped (EntersAt object)) place.old place.new result }
{
    if !place.is_open() {
        return status::NOTHING;
    }
    session_calls::try_enter(place.handle.as_mut(), object)
}

/// Gives one lock back, and with the last one the monitor.
#[unsafe(no_mangle)]
pub extern "C" fn zelamiku_exit(place: &mut Slot, object: u32) -> u32
    // Each call of a session is the one of its name, for the object, field and value that C gave, and the handle has the
    // session again. A session that waits is answered `WAITING`, a heap `WRONG_KIND`, and both stay.
    ensures told { ByHandle (AnswersAs (ExitsAt object)) place.old place.new result }
{
    if !place.is_open() {
        return status::NOTHING;
    }
    session_calls::exit(place.handle.as_mut(), object)
}

/// Loads a field.
#[unsafe(no_mangle)]
pub extern "C" fn zelamiku_load(place: &mut Slot, field: u32, value: &mut u64) -> u32
    // Each call of a session is the one of its name, for the object, field and value that C gave, and the handle has the
    // session again. A session that waits is answered `WAITING`, a heap `WRONG_KIND`, and both stay.
    ensures told { ByHandle (AnswersAs (LoadsAt field value.new)) place.old place.new result }
    // Where the status isn't `OK` the value is 0.
    ensures refused { result ≢ OK → value.new ≡ 0 }
{
    *value = 0;
    if !place.is_open() {
        return status::NOTHING;
    }
    let (found, answer) = session_calls::load(place.handle.as_mut(), field);
    *value = found;
    answer
}

/// Stores a field.
#[unsafe(no_mangle)]
pub extern "C" fn zelamiku_store(place: &mut Slot, field: u32, value: u64) -> u32
    // Each call of a session is the one of its name, for the object, field and value that C gave, and the handle has the
    // session again. A session that waits is answered `WAITING`, a heap `WRONG_KIND`, and both stay.
    ensures told { ByHandle (AnswersAs (StoresAt field value)) place.old place.new result }
{
    if !place.is_open() {
        return status::NOTHING;
    }
    session_calls::store(place.handle.as_mut(), field, value)
}

/// Joins the monitor's wait set and frees the monitor.
#[unsafe(no_mangle)]
pub extern "C" fn zelamiku_begin_wait(place: &mut Slot, object: u32) -> u32
    // After a wait the handle has a session that waits, or the session that was refused.
    ensures told { AnswersBy (WaitsAt object) place.old place.new result }
{
    if !place.is_open() {
        return status::NOTHING;
    }
    session_calls::begin_wait(place.handle.as_mut(), object)
}

/// Takes the monitor again, once the thread is out of the wait set.
#[unsafe(no_mangle)]
pub extern "C" fn zelamiku_try_resume(place: &mut Slot) -> u32
    // After a resume the handle has the session, or one that waits on.
    ensures told { AnswersBy Resumes place.old place.new result }
{
    if !place.is_open() {
        return status::NOTHING;
    }
    session_calls::try_resume(place.handle.as_mut())
}

/// Takes one lane out of the monitor's wait set.
#[unsafe(no_mangle)]
pub extern "C" fn zelamiku_notify(place: &mut Slot, object: u32, lane: &mut u32) -> u32
    // Each call of a session is the one of its name, for the object, field and value that C gave, and the handle has the
    // session again. A session that waits is answered `WAITING`, a heap `WRONG_KIND`, and both stay.
    ensures told { ByHandle (AnswersAs (NotifiesAt object lane.new)) place.old place.new result }
    // Where the status isn't `OK` it is told that there is no lane.
    ensures refused { result ≢ OK → lane.new ≡ NOBODY }
{
    *lane = session_calls::NOBODY;
    if !place.is_open() {
        return status::NOTHING;
    }
    let (woken, answer) = session_calls::notify(place.handle.as_mut(), object);
    *lane = woken;
    answer
}

/// Takes all lanes out of the monitor's wait set.
#[unsafe(no_mangle)]
pub extern "C" fn zelamiku_notify_all(place: &mut Slot, object: u32, lanes: &mut u64) -> u32
    // Each call of a session is the one of its name, for the object, field and value that C gave, and the handle has the
    // session again. A session that waits is answered `WAITING`, a heap `WRONG_KIND`, and both stay.
    ensures told { ByHandle (AnswersAs (NotifiesAllAt object lanes.new)) place.old place.new result }
    // Where the status isn't `OK` no lane is told.
    ensures refused { result ≢ OK → lanes.new ≡ 0 }
{
    *lanes = 0;
    if !place.is_open() {
        return status::NOTHING;
    }
    let (woken, answer) = session_calls::notify_all(place.handle.as_mut(), object);
    *lanes = woken;
    answer
}

/// What the monitor's words say.
#[unsafe(no_mangle)]
pub extern "C" fn zelamiku_look(place: &mut Slot, object: u32, sight: &mut Sight) -> u32
    // Each call of a session is the one of its name, for the object, field and value that C gave, and the handle has the
    // session again. A session that waits is answered `WAITING`, a heap `WRONG_KIND`, and both stay.
    ensures told { ByHandle (AnswersAs (LooksAt object sight.new)) place.old place.new result }
    // Where the status isn't `OK` the monitor is told to be free, never freed.
    ensures refused { result ≢ OK → sight.new ≡ free_sight 0 }
{
    *sight = session_calls::nobodys(0);
    if !place.is_open() {
        return status::NOTHING;
    }
    let (found, answer) = session_calls::look(place.handle.as_mut(), object);
    *sight = found;
    answer
}

/// How many sections of the session's lane the last round acknowledged.
#[unsafe(no_mangle)]
pub extern "C" fn zelamiku_round_sections(place: &mut Slot, sections: &mut u64) -> u32
    // Each call of a session is the one of its name, for the object, field and value that C gave, and the handle has the
    // session again. A session that waits is answered `WAITING`, a heap `WRONG_KIND`, and both stay.
    ensures told { ByHandle (AnswersAs (ReadsStableAt sections.new)) place.old place.new result }
    // Where the status isn't `OK` the count of sections is 0.
    ensures refused { result ≢ OK → sections.new ≡ 0 }
{
    *sections = 0;
    if !place.is_open() {
        return status::NOTHING;
    }
    let (found, answer) = session_calls::stable(place.handle.as_mut());
    *sections = found;
    answer
}

/// The session's lane, and how many sections of it have ended.
#[unsafe(no_mangle)]
pub extern "C" fn zelamiku_lane(place: &mut Slot, lane: &mut u32, sections: &mut u64) -> u32
    ensures told { ByHandle (AnswersAs (TellsLaneAt lane.new sections.new)) place.old place.new result }
    // Where the status isn't `OK` it is told that there is no lane, and 0 sections.
    ensures refused { result ≢ OK → (lane.new ≡ NOBODY) × (sections.new ≡ 0) }
{
    *lane = session_calls::NOBODY;
    *sections = 0;
    if !place.is_open() {
        return status::NOTHING;
    }
    let (number, count, answer) = session_calls::lane(place.handle.as_mut());
    *lane = number;
    *sections = count;
    answer
}

/// Ends the session. Its handle keeps what is left of it, until it is used again or freed.
#[unsafe(no_mangle)]
pub extern "C" fn zelamiku_end(place: &mut Slot) -> u32
    // A session that is ended has come back to its heap. The handle keeps the end of the ring by which it came back,
    // until it is opened again or freed.
    ensures told { AnswersBy Ends place.old place.new result }
{
    if !place.is_open() {
        return status::NOTHING;
    }
    session_calls::end(place.handle.as_mut())
}
