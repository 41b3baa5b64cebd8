//! What is answered once the device has failed.

ghost use Rattle.std.specs.Prelude.{◌≤◌};

use crate::connection::{Peer, answered, is_answer};
use crate::room::{CAPACITY, disk, schema};
use std::alloc::Global;
use std::hash::RandomState;
use std::sync::Wait;
use std::sync::atomic::{AtomicU64, Ordering};
use std::test::Fail;
use std::thread::Threads;
use thread_work::{HeapThread, Joint, SessionError, Work, run_new};

// How many requests there are at most.
const MOST: u64 = 1_000;

// Asks for transfers to and fro until one isn't answered 200.
#[derive(Drop)]
struct Asks {
    peer: Peer,
    durable: AtomicU64,
    // Answers 503 by which the transfer was made.
    only_made: AtomicU64,
}

impl Work for Asks {
    fn work<J: Joint, R: Wait>(
        &self,
        rt: &R,
        thread: &mut HeapThread<'_, J>,
    ) -> Result<(), SessionError> {
        for number in 0..MOST {
            let line = if number % 2 == 0 {
                "POST /transfer/0/1/1"
            } else {
                "POST /transfer/1/0/1"
            };
            let Some(answer) = answered(rt, self.peer, thread, line) else {
                return Ok(());
            };
            if !is_answer(self.peer.alloc, &answer, "200 OK", "made") {
                if is_answer(self.peer.alloc, &answer, "503 Service Unavailable", "made") {
                    self.only_made.fetch_add(1, Ordering::SeqCst);
                }
                return Ok(());
            }
            self.durable.fetch_add(1, Ordering::SeqCst);
        }
        Ok(())
    }
}

// How many requests were answered 200, and how many 503 and `made`, over a disk whose call of this number fails.
fn answers_at<R: Threads + Wait + Sync>(rt: &R, peer: Peer, call: u64) -> Option<(u64, u64)>
    requires { 1 ≤ call }
{
    let schema = schema(peer.alloc)?;
    let Some(mut disk) = disk(peer.alloc, &schema) else {
        drop(schema);
        return None;
    };
    disk.fail_call(call);
    let asks = Asks {
        peer,
        durable: AtomicU64::new(0),
        only_made: AtomicU64::new(0),
    };
    match run_new(rt, peer.alloc, disk, schema, 1, CAPACITY, &asks) {
        Ok(ran) => drop(ran),
        Err((disk, _)) => drop(disk),
    }
    Some((
        asks.durable.load(Ordering::SeqCst),
        asks.only_made.load(Ordering::SeqCst),
    ))
}

#[test]
fn a_transfer_that_may_be_lost_is_told_as_made(rt: HostRuntime) -> Result<(), Fail> {
    let peer = Peer {
        alloc: rt.alloc(),
        keys: RandomState::new(&rt)?,
    };
    let told = answers_at(&rt, peer, 300);
    assert!(rt; matches!(told, Some((1.., 1))));
    Ok(())
}
