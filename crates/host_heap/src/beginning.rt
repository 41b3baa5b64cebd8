//! The sessions of a heap that begins to run, and where they come back.
ghost use Rattle.std.specs.Prelude.{◌≡◌, ◌∷◌, ◌++◌, [], All, IfOk, OnOk, None, length};
ghost use Rattle.std.specs.List.{range_with_len};
ghost use Rattle.std.specs.Arc.{arc_value};
ghost use Rattle.host_heap.specs.Hosting.{lanes_of};
ghost use Rattle.host_heap.specs.Lanes.{IsAwaitedBy};
ghost use Rattle.host_heap.specs.Seating.{AreSeated};
ghost use Rattle.host_heap.specs.Sessions.{Seated};
ghost use Rattle.host_heap.specs.declared.lane_end.LaneEnd.{LaneEnd as End};
ghost use Rattle.rtrb.specs.Ring.{IsPair, known_free, known_items, received, sent};
ghost use Rattle.thread_heap.specs.Joined.{AreNew};
ghost use Rattle.session.specs.Sessions.{IsSessionOf};

use crate::lane_end::LaneEnd;
use crate::returning::Returning;
use crate::seated::HostedSession;
use crate::stop::{Stop, Stopper};
use monitor::Shared;
use rtrb::{Consumer, Producer, RingBuffer};
use session::Session;
use std::alloc::{AllocError, Global};
use std::sync::Arc;

/// The words, to be shared; the word by which their sessions learn of a stop, which isn't written; the sessions with both; and the ends
/// where they come back.
pub fn seat_all(
    alloc: Global,
    shared: Shared,
    sessions: Vec<Session>,
) -> Result<(Arc<Shared>, Stopper, Vec<HostedSession>, Vec<LaneEnd>), AllocError>
    requires of { All (IsSessionOf shared) sessions.items }
    requires fresh { AreNew 0 sessions.items }
    ensures home { IfOk result (λ r. arc_value r.0 ≡ shared) }
    ensures unstopped { IfOk result (λ r. r.1.seen ≡ None) }
    ensures in_order { IfOk result (λ r. lanes_of r.2.items ≡ range_with_len 0 (length sessions.items)) }
    ensures seated { IfOk result (λ r. AreSeated shared sessions.items r.1.word r.2.items r.3.items) }
{
    let shared = match Arc::new(alloc, shared) {
        Ok(shared) => shared,
        Err(error) => {
            drop(sessions);
            return Err(error.into());
        }
    };
    let mut stop = match Stopper::new(alloc) {
        Ok(stop) => stop,
        Err(error) => {
            drop(shared);
            drop(sessions);
            return Err(error);
        }
    };
    match begin_all(alloc, &shared, sessions, &mut stop) {
        Ok((unused, lanes)) => Ok((shared, stop, unused, lanes)),
        Err(error) => {
            drop(stop);
            drop(shared);
            Err(error)
        }
    }
}

// The sessions with their words, and where each comes back.
fn begin_all(
    alloc: Global,
    shared: &Arc<Shared>,
    sessions: Vec<Session>,
    stop: &mut Stopper,
) -> Result<(Vec<HostedSession>, Vec<LaneEnd>), AllocError>
    requires of { All (IsSessionOf (arc_value shared.now)) sessions.items }
    requires fresh { AreNew 0 sessions.items }
    ensures stop { stop.new ≡ stop.old }
    ensures in_order { IfOk result (λ r. lanes_of r.0.items ≡ range_with_len 0 (length sessions.items)) }
    ensures seated { IfOk result (λ r.
        AreSeated (arc_value shared.now) sessions.items stop.old.word r.0.items r.1.items) }
{
    let mut left = sessions;
    let mut unused = Vec::new(alloc);
    let mut lanes = Vec::new(alloc);
    'sessions: while let Some(session) = left.pop() {
        if let Err(error) = add(alloc, shared, session, stop, &mut unused, &mut lanes) {
            drop(lanes);
            drop(unused);
            drop(left);
            return Err(error);
        }
    }
    Ok((unused, lanes))
}

// Adds the session with the words, and where it comes back.
fn add(
    alloc: Global,
    shared: &Arc<Shared>,
    session: Session,
    stop: &mut Stopper,
    unused: &mut Vec<HostedSession>,
    lanes: &mut Vec<LaneEnd>,
) -> Result<(), AllocError>
    requires of { IsSessionOf (arc_value shared.now) session }
    ensures added { OnOk result ((one : Seated) × (end : End) × (unused.new.items ≡ unused.old.items ++ one ∷ []) × (lanes.new.items ≡ lanes.old.items ++ end ∷ [])
        × (one.home ≡ arc_value shared.now) × (one.session ≡ session) × (one.stop ≡ stop.old) × IsAwaitedBy one end) }
    ensures same { stop.new ≡ stop.old }
{
    let (shared, word, producer, back) = match outfit(alloc, shared, stop) {
        Ok(made) => made,
        Err(error) => {
            drop(session);
            return Err(error);
        }
    };
    let (session, end) = seat(shared, session, word, producer, back);
    if let Err(error) = unused.push(session) {
        drop(end);
        return Err(error.into());
    }
    lanes.push(end)?;
    Ok(())
}

/// What a session of this heap is handed out with: the words, what it learns of a stop by, and the ring by which it comes back.
pub fn outfit(
    alloc: Global,
    shared: &Arc<Shared>,
    stop: &mut Stopper,
) -> Result<
    (
        Arc<Shared>,
        Stop,
        Producer<Session, Global, Returning>,
        Consumer<Session, Global, Returning>,
    ),
    AllocError,
>
    ensures home { IfOk result (λ r. arc_value r.0 ≡ arc_value shared.now) }
    ensures word { IfOk result (λ r. r.1 ≡ stop.old) }
    ensures pair { IfOk result (λ r. IsPair r.2 r.3) }
    ensures unsent { IfOk result (λ r. (sent r.2 ≡ []) × (known_free r.2 ≡ 2)) }
    ensures unread { IfOk result (λ r. (received r.3 ≡ []) × (known_items r.3 ≡ [])) }
    ensures same { stop.new ≡ stop.old }
{
    let word = stop.for_session()?;
    let shared = match Arc::try_clone(shared) {
        Ok(shared) => shared,
        Err(error) => {
            drop(word);
            return Err(error);
        }
    };
    match RingBuffer::with_protocol::<Global, Returning>(alloc, 2) {
        Ok((producer, back)) => Ok((shared, word, producer, back)),
        Err(error) => {
            drop(shared);
            drop(word);
            Err(error)
        }
    }
}

/// A session with the words, and the end where it comes back, by a ring through which nothing went.
pub fn seat(
    shared: Arc<Shared>,
    session: Session,
    stop: Stop,
    producer: Producer<Session, Global, Returning>,
    back: Consumer<Session, Global, Returning>,
) -> (HostedSession, LaneEnd)
    requires of { IsSessionOf (arc_value shared) session }
    requires pair { IsPair producer back }
    requires unsent { (sent producer ≡ []) × (known_free producer ≡ 2) }
    requires unread { (received back ≡ []) × (known_items back ≡ []) }
    ensures session { (result.0.home ≡ arc_value shared) × (result.0.session ≡ session) × (result.0.stop ≡ stop) }
    ensures end { (received result.1.back ≡ session ∷ []) × (result.1.came ≡ None) }
    ensures ring { IsPair result.0.back result.1.back }
{
    let mut producer = producer;
    let mut back = back;
    producer.push_reserved(session);
    back.slots_beside(&mut producer);
    let session = back.pop_known();
    let session = HostedSession {
        shared,
        session,
        back: producer,
        stop,
    };
    (session, LaneEnd { back, came: None })
}
