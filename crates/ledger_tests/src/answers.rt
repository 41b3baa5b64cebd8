//! What each request is answered, and what it leaves of the balances.

use crate::connection::{Peer, answered, is_answer};
use crate::room::{CAPACITY, FIRST, SECOND, disk, schema};
use std::alloc::Global;
use std::hash::RandomState;
use std::sync::Wait;
use std::sync::atomic::{AtomicU64, Ordering};
use std::test::Fail;
use std::thread::Threads;
use thread_work::{HeapThread, Joint, ObjectId, SessionError, Work, run_new};

// A request line; the status and the text that it is answered; and both balances then.
#[derive(Clone, Copy)]
struct Case {
    line: &'static str,
    status: &'static str,
    text: &'static str,
    first: u64,
    second: u64,
}

const CASES: [Case; 18] = [
    Case {
        line: "POST /transfer/0/1/4",
        status: "200 OK",
        text: "made",
        first: FIRST - 4,
        second: SECOND + 4,
    },
    Case {
        line: "POST /transfer/1/0/7",
        status: "200 OK",
        text: "made",
        first: FIRST + 7,
        second: SECOND - 7,
    },
    // The other account has room for just that, and the one has just as much.
    Case {
        line: "POST /transfer/1/0/18446744073709551605",
        status: "200 OK",
        text: "made",
        first: u64::MAX,
        second: 6,
    },
    Case {
        line: "POST /transfer/0/1/11",
        status: "409 Conflict",
        text: "not made",
        first: FIRST,
        second: SECOND,
    },
    // The sum would pass 64 bits.
    Case {
        line: "POST /transfer/0/1/5",
        status: "409 Conflict",
        text: "not made",
        first: FIRST,
        second: SECOND,
    },
    Case {
        line: "POST /transfer/1/0/18446744073709551606",
        status: "409 Conflict",
        text: "not made",
        first: FIRST,
        second: SECOND,
    },
    // There is no such object.
    Case {
        line: "POST /transfer/0/9/4",
        status: "404 Not Found",
        text: "not made",
        first: FIRST,
        second: SECOND,
    },
    Case {
        line: "POST /transfer/9/0/4",
        status: "404 Not Found",
        text: "not made",
        first: FIRST,
        second: SECOND,
    },
    // The object has no field of its number.
    Case {
        line: "POST /transfer/0/3/4",
        status: "404 Not Found",
        text: "not made",
        first: FIRST,
        second: SECOND,
    },
    Case {
        line: "POST /transfer/3/0/4",
        status: "404 Not Found",
        text: "not made",
        first: FIRST,
        second: SECOND,
    },
    // That field is under another monitor.
    Case {
        line: "POST /transfer/0/2/4",
        status: "404 Not Found",
        text: "not made",
        first: FIRST,
        second: SECOND,
    },
    // Nothing is moved, or to the account itself.
    Case {
        line: "POST /transfer/0/1/0",
        status: "400 Bad Request",
        text: "not made",
        first: FIRST,
        second: SECOND,
    },
    Case {
        line: "POST /transfer/0/0/4",
        status: "400 Bad Request",
        text: "not made",
        first: FIRST,
        second: SECOND,
    },
    // The line spells no order.
    Case {
        line: "GET /transfer/0/1/4",
        status: "400 Bad Request",
        text: "not made",
        first: FIRST,
        second: SECOND,
    },
    Case {
        line: "POST /transfer/0/1/04",
        status: "400 Bad Request",
        text: "not made",
        first: FIRST,
        second: SECOND,
    },
    Case {
        line: "POST /transfer/0/1/4/",
        status: "400 Bad Request",
        text: "not made",
        first: FIRST,
        second: SECOND,
    },
    Case {
        line: "POST /transfer/0/1/18446744073709551616",
        status: "400 Bad Request",
        text: "not made",
        first: FIRST,
        second: SECOND,
    },
    Case {
        line: "POST /",
        status: "400 Bad Request",
        text: "not made",
        first: FIRST,
        second: SECOND,
    },
];

// Asks once, and counts the answer if it is the case's.
#[derive(Drop)]
struct Asks<'a> {
    peer: Peer,
    case: &'a Case,
    // A monitor that the thread holds meanwhile.
    held: Option<ObjectId>,
    met: AtomicU64,
}

impl<'a> Work for Asks<'a> {
    fn work<J: Joint, R: Wait>(
        &self,
        rt: &R,
        thread: &mut HeapThread<'_, J>,
    ) -> Result<(), SessionError> {
        if let Some(object) = self.held {
            thread.enter(rt, object)?;
        }
        if let Some(answer) = answered(rt, self.peer, thread, self.case.line)
            && is_answer(self.peer.alloc, &answer, self.case.status, self.case.text)
        {
            self.met.fetch_add(1, Ordering::SeqCst);
        }
        match self.held {
            Some(object) => thread.exit(object),
            None => Ok(()),
        }
    }
}

// Both balances after the case's request, and how often its answer was met.
fn asked<R: Threads + Wait + Sync>(
    rt: &R,
    peer: Peer,
    case: &Case,
    held: Option<ObjectId>,
) -> Option<(u64, u64, u64)> {
    let schema = schema(peer.alloc)?;
    let Some(disk) = disk(peer.alloc, &schema) else {
        drop(schema);
        return None;
    };
    let asks = Asks {
        peer,
        case,
        held,
        met: AtomicU64::new(0),
    };
    match run_new(rt, peer.alloc, disk, schema, 1, CAPACITY, &asks) {
        Ok(ran) => {
            let left = balances(&ran.outcome.heap);
            drop(ran);
            let (first, second) = left?;
            Some((first, second, asks.met.load(Ordering::SeqCst)))
        }
        Err((disk, _)) => {
            drop(disk);
            None
        }
    }
}

fn balances(heap: &[u64]) -> Option<(u64, u64)> {
    Some((*heap.first()?, *heap.get(1)?))
}

// Whether the case's request is answered so, and leaves those balances.
fn holds<R: Threads + Wait + Sync>(
    rt: &R,
    peer: Peer,
    case: &Case,
    held: Option<ObjectId>,
) -> bool {
    asked(rt, peer, case, held) == Some((case.first, case.second, 1))
}

#[test]
fn each_request_has_its_answer(rt: HostRuntime) -> Result<(), Fail> {
    let peer = Peer {
        alloc: rt.alloc(),
        keys: RandomState::new(&rt)?,
    };
    for case in &CASES {
        assert!(rt; holds(&rt, peer, case, None), "{}", case.line);
    }
    Ok(())
}

// A transfer would be no section of its own, and its 200 would come before the section that it is in is durable.
#[test]
fn a_thread_that_holds_a_monitor_makes_no_transfer(rt: HostRuntime) -> Result<(), Fail> {
    let peer = Peer {
        alloc: rt.alloc(),
        keys: RandomState::new(&rt)?,
    };
    let case = Case {
        line: "POST /transfer/0/1/4",
        status: "503 Service Unavailable",
        text: "not made",
        first: FIRST,
        second: SECOND,
    };
    assert!(rt; holds(&rt, peer, &case, Some(ObjectId(3))));
    Ok(())
}
