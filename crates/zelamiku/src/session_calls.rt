//! The calls of a session, on the session of a handle.
ghost use Rattle.std.specs.Prelude.{ℕ, ◌≡◌, ◌≢◌, ◌<◌, ◌+◌, ◌-◌, ◌^◌, IfOk, Some};
ghost use Rattle.std.specs.Int.{bit_at};
ghost use Rattle.std.specs.Option.{option_map_or};
ghost use Rattle.std.specs.Result.{result_unwrap_or};
ghost use Rattle.lock_word.specs.Spelling.{fat_sight, sight_of};
ghost use Rattle.lock_word.specs.WaitMask.{bit_of};
ghost use Rattle.zelamiku.specs.Handles.{Answers, holding};
ghost use Rattle.zelamiku.specs.SessionDoors.{AnswersAs, AnswersUnlessStopped, Ends, EntersAt, ExitsAt, HasNoSession, LoadsAt, LooksAt, NotifiesAllAt, NotifiesAt, ReadsStableAt, Resumes, StoresAt, TellsLaneAt, WaitsAt, free_sight, lane_told, sight_told};
ghost use Rattle.zelamiku.specs.SessionStatuses.{status_of};
ghost use Rattle.zelamiku.specs.declared.status.TheConstants.{OK};

use crate::state::{Inner, Open};
use crate::words::Sight;
use crate::{status, stop_calls};
use heap_model::{FieldId, Lane, ObjectId};
use lock_word::{FatShape, FatWord, LockWord, Shape, WaitMask};
use session::SessionError;

// What a call of a session is answered where there is none.
pub(crate) fn no_session(found: &Open) -> u32
    ensures { HasNoSession found.now (holding found.now) result }
{
    match found {
        Open::Waiting(_) => status::WAITING,
        Open::Ended(_) => status::NOTHING,
        _ => status::WRONG_KIND,
    }
}

/// Takes the monitor, or one lock more of it.
pub fn try_enter(state: &mut Inner, object: u32) -> u32
    ensures told { AnswersUnlessStopped (EntersAt object) (Some state.old) (Some state.new) result }
{
    match &mut state.open {
        Open::Session(session) => stop_calls::enter(session, object),
        other => no_session(other),
    }
}

/// Gives one lock back.
pub fn exit(state: &mut Inner, object: u32) -> u32
    ensures told { AnswersAs (ExitsAt object) (Some state.old) (Some state.new) result }
{
    match &mut state.open {
        Open::Session(session) => status::of_answer(session.exit(ObjectId(object))),
        other => no_session(other),
    }
}

/// Loads a field: its value, or 0, and the status.
pub fn load(state: &mut Inner, field: u32) -> (u64, u32)
    ensures told { AnswersAs (LoadsAt field result.0) (Some state.old) (Some state.new) result.1 }
    ensures refused { result.1 ≢ OK → result.0 ≡ 0 }
{
    match &mut state.open {
        Open::Session(session) => value_given(session.load(FieldId(field))),
        other => (0, no_session(other)),
    }
}

fn value_given(answer: Result<u64, SessionError>) -> (u64, u32)
    ensures value { result.0 ≡ result_unwrap_or answer 0 }
    ensures status { result.1 ≡ status_of answer }
    ensures refused { result.1 ≢ OK → result.0 ≡ 0 }
{
    match answer {
        Ok(value) => (value, status::OK),
        Err(refusal) => (0, status::of_session(refusal)),
    }
}

/// Stores a field.
pub fn store(state: &mut Inner, field: u32, value: u64) -> u32
    ensures told { AnswersAs (StoresAt field value) (Some state.old) (Some state.new) result }
{
    match &mut state.open {
        Open::Session(session) => status::of_answer(session.store(FieldId(field), value)),
        other => no_session(other),
    }
}

/// Takes one lane out of the monitor's wait set: the lane, or [`NOBODY`], and the status.
pub fn notify(state: &mut Inner, object: u32) -> (u32, u32)
    ensures told { AnswersAs (NotifiesAt object result.0) (Some state.old) (Some state.new) result.1 }
    ensures refused { result.1 ≢ OK → result.0 ≡ NOBODY }
{
    match &mut state.open {
        Open::Session(session) => lane_given(session.notify(ObjectId(object))),
        other => (NOBODY, no_session(other)),
    }
}

fn lane_given(answer: Result<Option<Lane>, SessionError>) -> (u32, u32)
    ensures lane { result.0 ≡ lane_told answer }
    ensures status { result.1 ≡ status_of answer }
    ensures refused { result.1 ≢ OK → result.0 ≡ NOBODY }
{
    match answer {
        Ok(woken) => (lane_number(woken), status::OK),
        Err(refusal) => (NOBODY, status::of_session(refusal)),
    }
}

/// No lane.
pub const NOBODY: u32 = 64;

fn lane_number(lane: Option<Lane>) -> u32
    ensures { result ≡ option_map_or (λ l. l.0) lane NOBODY }
{
    match lane {
        Some(lane) => u32::from(lane.0),
        None => NOBODY,
    }
}

/// Takes all lanes out of the monitor's wait set: a bit for each of them, and the status.
pub fn notify_all(state: &mut Inner, object: u32) -> (u64, u32)
    ensures told { AnswersAs (NotifiesAllAt object result.0) (Some state.old) (Some state.new) result.1 }
    ensures refused { result.1 ≢ OK → result.0 ≡ 0 }
{
    match &mut state.open {
        Open::Session(session) => lanes_given(session.notify_all(ObjectId(object))),
        other => (0, no_session(other)),
    }
}

fn lanes_given(answer: Result<WaitMask, SessionError>) -> (u64, u32)
    ensures lanes { IfOk answer (λ woken. (lane : ℕ) → bit_at result.0 lane ≡ bit_of woken lane) }
    ensures status { result.1 ≡ status_of answer }
    ensures refused { result.1 ≢ OK → result.0 ≡ 0 }
{
    match answer {
        Ok(woken) => (woken.bits(), status::OK),
        Err(refusal) => (0, status::of_session(refusal)),
    }
}

/// Looks at the monitor's words: what they say, and the status.
pub fn look(state: &mut Inner, object: u32) -> (Sight, u32)
    ensures told { AnswersAs (LooksAt object result.0) (Some state.old) (Some state.new) result.1 }
    ensures refused { result.1 ≢ OK → result.0 ≡ free_sight 0 }
{
    match &mut state.open {
        Open::Session(session) => sight_given(session.look(ObjectId(object))),
        other => (nobodys(0), no_session(other)),
    }
}

fn sight_given(answer: Result<(LockWord, Option<FatWord>), SessionError>) -> (Sight, u32)
    ensures sight { IfOk answer (λ found. result.0 ≡ sight_told (sight_of found.0 found.1)) }
    ensures status { result.1 ≡ status_of answer }
    ensures refused { result.1 ≢ OK → result.0 ≡ free_sight 0 }
{
    match answer {
        Ok((lock, fat)) => (shown(lock, fat), status::OK),
        Err(refusal) => (nobodys(0), status::of_session(refusal)),
    }
}

/// A free monitor.
pub fn nobodys(number: u64) -> Sight
    ensures { result ≡ free_sight number }
{
    Sight {
        owner: NOBODY,
        locks: 0,
        number,
    }
}

// What the words say. Threads are the lanes, numbered from 1, and `again` counts the locks less one.
fn shown(lock: LockWord, fat: Option<FatWord>) -> Sight
    ensures { result ≡ sight_told (sight_of lock fat) }
{
    match lock.shape() {
        Shape::Free { number } => nobodys(number),
        Shape::Thin {
            thread,
            again,
            number,
        } => owned(u32::from(thread), u32::from(again), number),
        Shape::Fat { index: _, number } => match fat {
            Some(word) => shown_fat(word),
            None => nobodys(number),
        },
    }
}

fn shown_fat(word: FatWord) -> Sight
    ensures { result ≡ sight_told (fat_sight word) }
{
    match word.shape() {
        FatShape::Free { number } => nobodys(number),
        FatShape::Held {
            thread,
            again,
            number,
        } => owned(u32::from(thread), u32::from(again), number),
    }
}

fn owned(thread: u32, again: u32, number: u64) -> Sight
    requires { again < 2 ^ 16 }
    ensures { result ≡ record { owner = thread - 1; locks = again + 1; number = number } }
{
    Sight {
        owner: thread.saturating_sub(1),
        locks: again.saturating_add(1),
        number,
    }
}

/// How many sections of the lane the last round acknowledged, and the status.
pub fn stable(state: &mut Inner) -> (u64, u32)
    ensures told { AnswersAs (ReadsStableAt result.0) (Some state.old) (Some state.new) result.1 }
    ensures refused { result.1 ≢ OK → result.0 ≡ 0 }
{
    match &mut state.open {
        Open::Session(session) => (session.stable(), status::OK),
        other => (0, no_session(other)),
    }
}

/// The session's lane, or [`NOBODY`], how many sections of it have ended, or 0, and the status.
pub fn lane(state: &mut Inner) -> (u32, u64, u32)
    ensures told { AnswersAs (TellsLaneAt result.0 result.1) (Some state.old) (Some state.new) result.2 }
    ensures refused { result.2 ≢ OK → (result.0 ≡ NOBODY) × (result.1 ≡ 0) }
{
    match &mut state.open {
        Open::Session(session) => (u32::from(session.lane().0), session.sections(), status::OK),
        other => (NOBODY, 0, no_session(other)),
    }
}

/// Joins the monitor's wait set.
pub fn begin_wait(state: &mut Inner, object: u32) -> u32
    ensures told { Answers (WaitsAt object) (Some state.old) (Some state.new) result }
{
    let found = state.take();
    let (open, answer) = waiting_of(found, object);
    state.put(open);
    answer
}

fn waiting_of(found: Open, object: u32) -> (Open, u32)
    ensures { WaitsAt object found (holding result.0) result.1 }
{
    match found {
        Open::Session(session) => stop_calls::wait(session, object),
        other => {
            let answer = no_session(&other);
            (other, answer)
        }
    }
}

/// Takes the monitor again.
pub fn try_resume(state: &mut Inner) -> u32
    ensures told { Answers Resumes (Some state.old) (Some state.new) result }
{
    let found = state.take();
    let (open, answer) = resumed_of(found);
    state.put(open);
    answer
}

fn resumed_of(found: Open) -> (Open, u32)
    ensures { Resumes found (holding result.0) result.1 }
{
    match found {
        Open::Waiting(waiting) => stop_calls::resume(waiting),
        Open::Ended(back) => (Open::Ended(back), status::NOTHING),
        other => (other, status::WRONG_KIND),
    }
}

/// Ends the session: it comes back to its heap, and what it came back by is left of it. Where no session is, what is there stays.
pub fn end(state: &mut Inner) -> u32
    ensures told { Answers Ends (Some state.old) (Some state.new) result }
{
    let found = state.take();
    let (open, answer) = ended_of(found);
    state.put(open);
    answer
}

fn ended_of(found: Open) -> (Open, u32)
    ensures { Ends found (holding result.0) result.1 }
{
    match found {
        Open::Session(session) => (Open::Ended(session.end()), status::OK),
        other => {
            let answer = no_session(&other);
            (other, answer)
        }
    }
}
