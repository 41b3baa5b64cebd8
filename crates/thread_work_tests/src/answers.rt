//! What a run answers of its bodies.

use crate::room::{CAPACITY, CHAIR, TABLE, disk, schema};
use std::alloc::Global;
use std::sync::Wait;
use std::thread::Threads;
use thread_work::{HeapThread, Joint, ObjectId, Outcome, RunError, SessionError, Work, run_new};

// Lanes from 1 on are refused, each in its own way; a lane may end with a monitor held.
#[derive(Drop)]
struct Refused {
    holds: bool,
}

impl Work for Refused {
    fn work<J: Joint, R: Wait>(
        &self,
        rt: &R,
        thread: &mut HeapThread<'_, J>,
    ) -> Result<(), SessionError> {
        match thread.lane().0 {
            1 => thread.exit(TABLE),
            2 => thread.enter(rt, ObjectId(9)),
            _ => {
                if self.holds {
                    return thread.enter(rt, CHAIR);
                }
                Ok(())
            }
        }
    }
}

// What three lanes answer, or why they don't.
fn answered<R: Threads + Wait + Sync>(
    rt: &R,
    alloc: Global,
    holds: bool,
) -> Option<Result<Result<(), SessionError>, RunError>> {
    let schema = schema(alloc)?;
    let Some(disk) = disk(alloc, &schema, 3) else {
        drop(schema);
        return None;
    };
    match run_new(rt, alloc, disk, schema, 3, CAPACITY, &Refused { holds }) {
        Ok(ran) => {
            let answer = answer_of(&ran.outcome);
            drop(ran);
            Some(Ok(answer))
        }
        Err((disk, refusal)) => {
            drop(disk);
            Some(Err(refusal))
        }
    }
}

fn answer_of(outcome: &Outcome) -> Result<(), SessionError> {
    outcome.answer
}

#[test]
fn the_refusal_of_the_least_lane_is_told(rt: HostRuntime) {
    let answer = answered(&rt, rt.alloc(), false);
    assert!(rt; answer == Some(Ok(Err(SessionError::NotHeld))));
}

#[test]
fn a_monitor_that_is_held_is_told(rt: HostRuntime) {
    let answer = answered(&rt, rt.alloc(), true);
    assert!(rt; answer == Some(Err(RunError::Unfinished)));
}
