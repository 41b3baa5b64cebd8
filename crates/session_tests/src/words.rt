//! The words that sessions leave, as they are worked out in `docs/FORMAT.md`.

ghost use Rattle.session.specs.Sessions.{IsSessionOf, IsWaitingOf};
ghost use Rattle.std.specs.Prelude.{All, IfSome};

use crate::calls::{Answer, Call, make, make_often};
use crate::heap::{LAST, declare, open_heap, take_last, take_two};
use crate::limits::inflate_many;
use heap_model::{Lane, ObjectId};
use lock_word::FatWord;
use monitor::Shared;
use session::{Session, SessionError, Still, Waiting};
use std::alloc::Global;
use thread_steps::Seen;

const OBJECT: ObjectId = ObjectId(0);

/// An object's lock word, and its fat word where it has one.
pub type Words = (u64, Option<u64>);

/// What the session finds of the object.
pub fn words_of(shared: &Shared, session: &mut Session) -> Words
    requires seat { IsSessionOf shared.now session.old }
    ensures seat { IsSessionOf shared.now session.new }
{
    let Ok((lock, fat)) = session.look(shared, OBJECT) else {
        return (0, None);
    };
    match fat {
        Some(word) => (lock.bits(), Some(word.bits())),
        None => (lock.bits(), None),
    }
}

// The first session takes the object by 256 locks, then by one more, and gives all back. Returns what the second one finds
// each time, and the answers: to the locks, to the one more, to the second one's try in between, to the exits, and to the second
// one's try at last.
fn fill_count(shared: &Shared, a: &mut Session, b: &mut Session) -> ([Words; 3], [Answer; 5])
    requires seats { IsSessionOf shared.now a.old × IsSessionOf shared.now b.old }
{
    let filled = make_often(shared, a, Call::Enter(OBJECT), 256);
    let full = words_of(shared, b);
    let nested = make(shared, a, Call::Enter(OBJECT));
    let more = words_of(shared, b);
    let met = make(shared, b, Call::Enter(OBJECT));
    let left = make_often(shared, a, Call::Exit(OBJECT), 257);
    let free = words_of(shared, b);
    let taken = make(shared, b, Call::Enter(OBJECT));
    ([full, more, free], [filled, nested, met, left, taken])
}

// The same of the last two sessions.
fn fill_last(shared: &Shared, sessions: &mut Vec<Session>) -> Option<([Words; 3], [Answer; 5])>
    requires seats { All (IsSessionOf shared.now) sessions.old.items }
{
    let (mut a, mut b) = take_two(shared, sessions)?;
    Some(fill_count(shared, &mut a, &mut b))
}

// The same of a fresh heap.
fn told_of_count(alloc: Global) -> Option<([Words; 3], [Answer; 5])> {
    let mut heap = open_heap(alloc, declare(alloc, 1)?, 2, LAST, 4_000)?;
    let told = fill_last(&heap.shared, &mut heap.sessions);
    drop(heap);
    told
}

// A session that waits for the object, which it has taken.
fn begin_wait(shared: &Shared, session: Session) -> Option<Waiting>
    requires seat { IsSessionOf shared.now session }
    ensures seat { IfSome result (IsWaitingOf shared.now) }
{
    let mut session = session;
    let _ = session.try_enter(shared, OBJECT);
    session.begin_wait(shared, OBJECT).ok()
}

// A session that still waits, for this reason.
fn stays(shared: &Shared, waiting: Waiting, why: Still) -> Option<Waiting>
    requires seat { IsWaitingOf shared.now waiting }
    ensures seat { IfSome result (IsWaitingOf shared.now) }
{
    match waiting.try_resume(shared) {
        Ok(_) => None,
        Err((waiting, still)) => { if still == why { Some(waiting) } else { None } }
    }
}

// Takes the object, and wakes one who waits for it.
fn wake(shared: &Shared, session: &mut Session) -> Option<Lane>
    requires seat { IsSessionOf shared.now session.old }
    ensures seat { IsSessionOf shared.now session.new }
{
    let _ = session.try_enter(shared, OBJECT);
    match session.notify(shared, OBJECT) {
        Ok(woken) => woken,
        Err(_) => None,
    }
}

// Comes back from the wait and leaves. Returns how many sections it has then.
fn resume_and_leave(shared: &Shared, waiting: Waiting) -> Option<u64>
    requires seat { IsWaitingOf shared.now waiting }
{
    match waiting.try_resume(shared) {
        Ok(session) => {
            let mut session = session;
            let _ = session.exit(shared, OBJECT);
            Some(session.sections())
        }
        Err(_) => None,
    }
}

// The first session waits, the second notifies it and leaves, and the first comes back and leaves (JLS 17.2). Returns what
// the second one finds of the wait and at last, whom it notified, and how many sections each has.
fn wait_and_wake(
    shared: &Shared,
    a: Session,
    b: &mut Session,
) -> Option<([Words; 2], Option<Lane>, [u64; 2])>
    requires seats { IsSessionOf shared.now a × IsSessionOf shared.now b.old }
{
    let waiting = begin_wait(shared, a)?;
    let left = words_of(shared, b);
    let waiting = stays(shared, waiting, Still::InSet)?;
    let woken = wake(shared, b);
    let held = Still::Held(Seen::Fat(FatWord::held(2, 0, 1)));
    let waiting = stays(shared, waiting, held)?;
    let _ = b.exit(shared, OBJECT);
    let sections = resume_and_leave(shared, waiting)?;
    let free = words_of(shared, b);
    Some(([left, free], woken, [sections, b.sections()]))
}

// The same of the last two sessions.
fn wake_last(
    shared: &Shared,
    sessions: &mut Vec<Session>,
) -> Option<([Words; 2], Option<Lane>, [u64; 2])>
    requires seats { All (IsSessionOf shared.now) sessions.old.items }
{
    let (a, mut b) = take_two(shared, sessions)?;
    wait_and_wake(shared, a, &mut b)
}

// The same of a fresh heap.
fn told_of_wait(alloc: Global) -> Option<([Words; 2], Option<Lane>, [u64; 2])> {
    let mut heap = open_heap(alloc, declare(alloc, 1)?, 2, LAST, 4_000)?;
    let told = wake_last(&heap.shared, &mut heap.sessions);
    drop(heap);
    told
}

// 256 locks fill the thin word of the first thread, and the 257th needs a slot, which is the first. 257 exits free the
// object, once, and then another may take it.
#[test]
fn a_full_count_inflates(rt: HostRuntime) {
    let words = [
        (511, None),
        (8_388_608, Some(65_537)),
        (8_388_608, Some(16_777_216)),
    ];
    let held = SessionError::Held(Seen::Fat(FatWord::held(1, 256, 0)));
    let answers = [Ok(()), Ok(()), Err(held), Ok(()), Ok(())];
    assert!(rt; told_of_count(rt.alloc()) == Some((words, answers)));
}

// The second thread's lock, met by the first, has the bits 16777218.
#[test]
fn a_wait_is_notified(rt: HostRuntime) {
    let words = [(8_388_608, Some(16_777_216)), (8_388_608, Some(50_331_648))];
    let bits = FatWord::held(2, 0, 1).bits();
    let found = (told_of_wait(rt.alloc()), bits);
    assert!(rt; found == (Some((words, Some(Lane(0)), [2, 1])), 16_777_218));
}

// The first session makes five other objects fat, and the second one takes the object and leaves it seven times. Then the third one
// takes it by 256 locks, and by one more. Returns what the first one finds after either.
fn fatten_sixth(
    shared: &Shared,
    a: &mut Session,
    b: &mut Session,
    c: &mut Session,
) -> Option<[Words; 2]>
    requires seats { IsSessionOf shared.now a.old × IsSessionOf shared.now b.old × IsSessionOf shared.now c.old }
{
    if !inflate_many(shared, a, 5) || make_often(shared, b, Call::Pass(OBJECT), 7).is_err() {
        return None;
    }
    let _ = make_often(shared, c, Call::Enter(OBJECT), 256);
    let thin = words_of(shared, a);
    let _ = make(shared, c, Call::Enter(OBJECT));
    Some([thin, words_of(shared, a)])
}

// The same of the last three sessions.
fn fatten_by_three(shared: &Shared, sessions: &mut Vec<Session>) -> Option<[Words; 2]>
    requires seats { All (IsSessionOf shared.now) sessions.old.items }
{
    let mut c = take_last(shared, sessions)?;
    let (mut a, mut b) = take_two(shared, sessions)?;
    fatten_sixth(shared, &mut a, &mut b, &mut c)
}

// The same of a fresh heap.
fn told_of_slots(alloc: Global) -> Option<[Words; 2]> {
    let mut heap = open_heap(alloc, declare(alloc, 6)?, 3, LAST, 4_000)?;
    let told = fatten_by_three(&heap.shared, &mut heap.sessions);
    drop(heap);
    told
}

// The third thread holds an object, which has become free 7 times, by 256 locks; then it takes the sixth slot.
#[test]
fn words_have_thread_number_and_slot(rt: HostRuntime) {
    let [thin, fat] = told_of_slots(rt.alloc()).unwrap_or([(0, None); 2]);
    assert!(rt; (thin, fat.0) == ((117_441_535, None), 125_829_125));
}
