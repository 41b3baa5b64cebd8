//! Threads on image files, each of which has a heap of its own.

use crate::room::{TABLE, TURN, schema};
use disk_file::BackingFile;
use std::fs;
use std::fs::OpenFile;
use std::io::Read;
use std::rt::Files;
use std::sync::Wait;
use std::thread::Threads;
use thread_files::{FilePlan, HeapThread, Joint, SessionError, Work, run_file};

// Each lane adds one to the turn.
#[derive(Drop)]
struct Adds;

impl Work for Adds {
    fn work<J: Joint, R: Wait>(
        &self,
        rt: &R,
        thread: &mut HeapThread<'_, J>,
    ) -> Result<(), SessionError> {
        thread.enter(rt, TABLE)?;
        let turn = thread.load(TURN)?;
        thread.store(TURN, turn.wrapping_add(1))?;
        thread.exit(TABLE)
    }
}

// The turn that two lanes leave in this file.
fn turn_left<F, R>(rt: &R, path: &str) -> Option<u64>
where
    F: BackingFile + OpenFile + Read + Drop,
    R: Files<File = F> + AllocGlobal + Threads + Wait + Sync,
{
    let schema = schema(rt.alloc())?;
    match run_file(rt, rt.alloc(), path, schema, FilePlan::of(2), &Adds) {
        Ok((outcome, report)) => {
            drop(report);
            let left = outcome.heap.first().copied();
            drop(outcome);
            left
        }
        Err(_) => None,
    }
}

// What they leave in one file, in another, and in both again.
fn turns_left<F, R>(rt: &R) -> Option<[u64; 4]>
where
    F: BackingFile + OpenFile + Read + Drop,
    R: Files<File = F> + AllocGlobal + Threads + Wait + Sync,
{
    Some([
        turn_left(rt, "first.heap")?,
        turn_left(rt, "second.heap")?,
        turn_left(rt, "first.heap")?,
        turn_left(rt, "second.heap")?,
    ])
}

#[test]
fn each_file_has_its_own_heap(rt: HostRuntime) {
    assert!(rt; turns_left(&rt) == Some([2, 2, 4, 4]));
}

// Whether threads on one file leave another one, and a file beside theirs, as they were.
fn leaves_others<F, R>(rt: &R) -> Option<bool>
where
    F: BackingFile + OpenFile + Read + Drop,
    R: Files<File = F> + AllocGlobal + Threads + Wait + Sync,
{
    turn_left(rt, "other.heap")?;
    fs::write(rt, "own.heap~", b"kept").ok()?;
    let before = fs::read(rt, "other.heap").ok()?;
    let left = turn_left(rt, "own.heap");
    let other = fs::read(rt, "other.heap").ok()?;
    let stays = other.as_slice() == before.as_slice();
    drop(other);
    drop(before);
    let kept = fs::read(rt, "own.heap~").ok()?;
    let keeps = kept.as_slice() == b"kept".as_slice();
    drop(kept);
    Some(stays && left == Some(2) && keeps)
}

#[test]
fn another_file_stays_as_it_was(rt: HostRuntime) {
    assert!(rt; leaves_others(&rt) == Some(true));
}

// What they leave in a file that is moved then, where it is, and where another has taken its place.
fn turns_moved<F, R>(rt: &R) -> Option<[u64; 3]>
where
    F: BackingFile + OpenFile + Read + Drop,
    R: Files<File = F> + AllocGlobal + Threads + Wait + Sync,
{
    let made = turn_left(rt, "moved.heap")?;
    rt.rename("moved.heap", "there.heap").ok()?;
    Some([
        made,
        turn_left(rt, "there.heap")?,
        turn_left(rt, "moved.heap")?,
    ])
}

#[test]
fn a_heap_lies_in_the_file_that_is_named(rt: HostRuntime) {
    assert!(rt; turns_moved(&rt) == Some([2, 4, 2]));
}
