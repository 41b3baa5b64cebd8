//! What a pool's calls answer in a row of cells.

use crate::row::{Row, WHOLE, laid_out};
use pool::{MOST_SLOTS, Pool, PoolError, TAKEN};
use std::alloc::Global;

// The slot that was taken, or none where one was given.
type Answer = Result<Option<u32>, PoolError<()>>;

fn take(pool: &Pool, row: &mut Row) -> Answer {
    match pool.take(row) {
        Ok(slot) => Ok(Some(slot)),
        Err(error) => Err(error),
    }
}

fn give(pool: &Pool, row: &mut Row, slot: u32) -> Answer {
    if slot >= pool.slots() {
        return Ok(Some(slot));
    }
    match pool.give(row, slot) {
        Ok(()) => Ok(None),
        Err(error) => Err(error),
    }
}

// Three are taken of two slots; the first is given twice, and taken.
fn taken_and_given(alloc: Global) -> Option<[Answer; 6]> {
    let (pool, mut row) = laid_out(alloc, 2)?;
    Some([
        take(&pool, &mut row),
        take(&pool, &mut row),
        take(&pool, &mut row),
        give(&pool, &mut row, 0),
        give(&pool, &mut row, 0),
        take(&pool, &mut row),
    ])
}

#[test]
fn takes_and_gives(rt: HostRuntime) {
    let expected = [
        Ok(Some(0)),
        Ok(Some(1)),
        Err(PoolError::Empty),
        Ok(None),
        Err(PoolError::NotTaken),
        Ok(Some(0)),
    ];
    assert!(rt; taken_and_given(rt.alloc()) == Some(expected));
}

// A slot is taken, and then slot 1 given, of a pool of two slots in a row that holds these values at first.
fn answers_in(alloc: Global, values: [u64; 3], broken: u32, stuck: bool) -> Option<[Answer; 2]> {
    let (pool, _) = laid_out(alloc, 2)?;
    let mut row = Row {
        values: Vec::from_array(alloc, values).ok()?,
        broken,
        stuck,
    };
    Some([take(&pool, &mut row), give(&pool, &mut row, 1)])
}

// A head or a link above the number of slots names no slot.
#[test]
fn damaged_links_are_refused(rt: HostRuntime) {
    let damaged = Err(PoolError::Damaged);
    let found = [
        answers_in(rt.alloc(), [3, 2, TAKEN], WHOLE, false),
        answers_in(rt.alloc(), [1, 3, TAKEN], WHOLE, false),
    ];
    assert!(rt; found == [Some([damaged, damaged]), Some([damaged, Ok(None)])]);
}

// The cells fail at each call in turn: at the head, at a slot, at the store.
#[test]
fn faults_are_handed_on(rt: HostRuntime) {
    let fault = Err(PoolError::Cells(()));
    let found = [
        answers_in(rt.alloc(), [1, 0, TAKEN], 0, false),
        answers_in(rt.alloc(), [1, 0, TAKEN], 1, false),
        answers_in(rt.alloc(), [1, 0, TAKEN], 2, false),
        answers_in(rt.alloc(), [1, 0, TAKEN], WHOLE, true),
    ];
    assert!(rt;
        found
            == [
                Some([fault, fault]),
                Some([fault, Ok(None)]),
                Some([Ok(Some(0)), fault]),
                Some([fault, fault])
            ]
    );
}

// Takes all slots, and tells whether they come in their order.
fn take_all(pool: &Pool, row: &mut Row) -> bool {
    let mut in_order = true;
    for slot in 0..pool.slots() {
        in_order &= pool.take(row) == Ok(slot);
    }
    in_order
}

// Gives all slots, the last first, and tells whether all are accepted.
fn give_all(pool: &Pool, row: &mut Row) -> bool {
    let mut given = true;
    for slot in (0..pool.slots()).rev() {
        given &= pool.give(row, slot) == Ok(());
    }
    given
}

// Whether all slots are taken in their order, then none; whether all are given, and taken in their order again.
fn told_of_greatest(alloc: Global) -> Option<[bool; 4]> {
    let (pool, mut row) = laid_out(alloc, MOST_SLOTS)?;
    let first = take_all(&pool, &mut row);
    let empty = pool.take(&mut row) == Err(PoolError::Empty);
    let given = give_all(&pool, &mut row);
    Some([first, empty, given, take_all(&pool, &mut row)])
}

#[test]
fn the_greatest_pool(rt: HostRuntime) {
    assert!(rt; told_of_greatest(rt.alloc()) == Some([true; 4]));
}
