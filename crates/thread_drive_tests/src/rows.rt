//! What workers leave, whatever the order in which they come.

use crate::apart::Apart;
use image::ImageError;
use std::alloc::Global;
use std::sync::Wait;
use std::thread::Threads;
use thread_drive::{DriveError, Driven, drive_with};

// Of how many lanes how many sections are acknowledged, the total, and each own field's value. Zeros where lanes, or own fields, differ
// from one another.
type Row = (usize, u64, u64, u64);

// What so many workers leave after so many rounds each; or why there is nothing.
fn left_by<R: Threads + Wait + Sync>(
    rt: &R,
    alloc: Global,
    workers: u8,
    rounds: u32,
) -> Result<Row, DriveError> {
    match drive_with(rt, alloc, &Apart, workers, rounds) {
        Ok(driven) => {
            let row = told(&driven);
            drop(driven);
            Ok(row)
        }
        Err(refusal) => Err(refusal),
    }
}

fn told(driven: &Driven) -> Row {
    (
        driven.acknowledged.len(),
        common(&driven.acknowledged),
        driven.heap.first().copied().unwrap_or(0),
        common(driven.heap.get(1..).unwrap_or(&[])),
    )
}

// The value that all have, 0 where they differ.
fn common(values: &[u64]) -> u64 {
    let first = values.first().copied().unwrap_or(0);
    for value in values {
        if *value != first {
            return 0;
        }
    }
    first
}

// So many workers, so many rounds each, and what they leave.
const ROWS: [(u8, u32, Row); 3] = [
    (2, 1_000, (2, 1_000, 2_000, 1_000)),
    (8, 100, (8, 100, 800, 100)),
    (32, 10, (32, 10, 320, 10)),
];

// The first number of workers that leave something else.
fn first_other<R: Threads + Wait + Sync>(rt: &R, alloc: Global) -> Option<u8> {
    for (workers, rounds, row) in ROWS {
        if left_by(rt, alloc, workers, rounds) != Ok(row) {
            return Some(workers);
        }
    }
    None
}

#[test]
fn workers_count_side_by_side(rt: HostRuntime) {
    assert!(rt; first_other(&rt, rt.alloc()).is_none());
}

// Whether so many workers are refused for their number.
fn is_refused<R: Threads + Wait + Sync>(rt: &R, alloc: Global, workers: u8) -> bool {
    match left_by(rt, alloc, workers, 1) {
        Ok(_) => false,
        Err(refusal) => refusal == DriveError::Image(ImageError::BadHeader),
    }
}

#[test]
fn workers_are_1_to_32(rt: HostRuntime) {
    let refused = (
        is_refused(&rt, rt.alloc(), 0),
        is_refused(&rt, rt.alloc(), 33),
    );
    assert!(rt; refused == (true, true));
}
