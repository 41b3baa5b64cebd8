//! A lane's body in its thread, and what it leaves.
ghost use Rattle.std.specs.Prelude.{◌≡◌, IfOk};
ghost use Rattle.thread_work.specs.Beside.{JoinsOne};
ghost use Rattle.thread_work.specs.Bodies.{HasWorked, IsFirst, both_of};
ghost use Rattle.thread_work.specs.Threads.{IsFrom};
ghost use Rattle.session.specs.Sessions.{IsSessionOf};

use crate::bell::Bell;
use crate::joint::Joint;
use crate::thread::HeapThread;
use crate::work::Work;
use monitor::Shared;
use session::{Session, SessionError};
use std::alloc::AllocError;
use std::marker::Brand;
use std::snapshot::Snapshot;
use std::sync::Wait;
use std::thread::Promise;
use thread_heap::{end, joined_law};
use trim_helper::Ended;

/// What a body has answered.
pub type Answer = Result<(), SessionError>;

/// What a thread leaves.
#[derive(Drop)]
pub struct Worked {
    /// What its session leaves.
    pub ended: Ended,
    /// What its body has answered. `None` where that wasn't called.
    pub answer: Option<Answer>,
}

/// What the threads of all lanes leave.
#[derive(Drop)]
pub struct AllWorked {
    /// What their sessions leave, by lane.
    pub ended: Vec<Ended>,
    /// What their bodies have answered: the refusal of the least lane that has one. `None` where one wasn't called.
    pub answer: Option<Answer>,
}

// What a lane's thread promises: that its body was called with this session, and what that has done.
#[derive(Drop)]
pub struct Works<'a, W: Work> {
    pub shared: &'a Shared,
    pub work: &'a W,
    pub first: Snapshot<Session>,
}

impl<'a, W: Work> Promise<Worked> for Works<'a, W> {
    ghost kept_by = { λ p r. HasWorked (W.does p.work.now) p.shared.now p.first.value r };
}

/// Waits until each lane has its thread, calls the body, and ends the session.
pub fn work_in_thread<R: Wait, W: Work>(
    rt: &R,
    shared: &Shared,
    bell: &Bell,
    work: &W,
    session: Session,
) -> Worked
    requires { IsFirst shared.now session }
    ensures { HasWorked (W.does work.now) shared.now session result }
{
    joined_law();
    if !bell.await_start(rt) {
        return Worked {
            ended: end(session),
            answer: None,
        };
    }
    let (session, answer) = call_body::<Brand, R, W>(rt, shared, bell, work, session);
    bell.leave();
    Worked {
        ended: end(session),
        answer: Some(answer),
    }
}

// Calls the body, with the session as a thread of the heap.
fn call_body<J: Joint, R: Wait, W: Work>(
    rt: &R,
    shared: &Shared,
    bell: &Bell,
    work: &W,
    session: Session,
) -> (Session, Answer)
    requires words { shared.now ≡ J.home }
    requires of { IsSessionOf J.home session }
    requires from { IsFrom J.first session }
    requires first { IsFirst J.home session }
    ensures of { IsSessionOf J.home result.0 }
    ensures from { IsFrom J.first result.0 }
    ensures does { W.does work.now J.home session result.0 result.1 }
{
    let mut thread: HeapThread<'_, J> = HeapThread::new(shared, bell, session);
    let answer = work.work(rt, &mut thread);
    (thread.into_session(), answer)
}

/// What the threads of the first lanes leave, and then what the next lane's leaves.
pub fn and_worked(
    before: Result<AllWorked, AllocError>,
    one: Worked,
) -> Result<AllWorked, AllocError>
    ensures { IfOk result (λ all. JoinsOne before one all) }
{
    let AllWorked { ended, answer } = before?;
    let mut all = ended;
    all.push(one.ended)?;
    Ok(AllWorked {
        ended: all,
        answer: both(answer, one.answer),
    })
}

// The first refusal among the answers of the first lanes and the next lane's. `None` where a body wasn't called.
fn both(first: Option<Answer>, next: Option<Answer>) -> Option<Answer>
    ensures { result ≡ both_of first next }
{
    match (first, next) {
        (Some(Ok(())), Some(next)) => Some(next),
        (Some(first), Some(_)) => Some(first),
        _ => None,
    }
}
