//! A pool of slots.

use crate::cells::Cells;
use crate::error::PoolError;
use heap_model::FieldId;
use std::marker::Model;

/// How many slots a pool has at most: with its head it has one field each, of the
/// [`MOST_FIELDS`](heap_model::MOST_FIELDS) that a heap has.
pub const MOST_SLOTS: u32 = 16_383;

/// What the cell of a taken slot holds. It is no link: those are at most [`MOST_SLOTS`].
pub const TAKEN: u64 = u64::MAX;

/// A pool of slots, numbered from 0, as it lies in the fields of a heap. Contracts see it as its [`Place`].
#[derive(Clone, Copy, Debug, PartialEq, Eq)]
pub struct Pool {
    // The field that holds the first link. Those of the slots follow it.
    head: FieldId,
    slots: u32,
}

impl Model for Pool {
    ghost use Rattle.std.specs.Prelude.{◌+◌, ◌<◌, ◌≤◌, ◌^◌};
    ghost use Rattle.pool.specs.FreeList.{Place};

    ghost Value = { Place };

    ghost view = { λ p. record { head = p.head.0; slots = p.slots } };

    ghost inverse = { λ v. record { head = record { 0 = v.head }; slots = v.slots } };

    ghost invariant = { λ p. (p.slots ≤ 16383) × (p.head.0 + p.slots < 2 ^ 32) };
}

impl Pool {
    ghost use Rattle.std.specs.Prelude.{◌≡◌, ◌<◌, ◌≤◌, ◌+◌, ◌^◌, List};
    ghost use Rattle.pool.specs.Knowledge.{Access};
    ghost use Rattle.pool.specs.FreeList.{cell_of};
    ghost use Rattle.pool.specs.Calls.{TakeAnswers, GiveAnswers};

    // The pool whose head is kept in this field, and its slots in those that follow.
    pub(crate) fn at(head: FieldId, slots: u32) -> Pool
        requires few { slots ≤ MOST_SLOTS }
        requires room { head.0 + slots < 2 ^ 32 }
        ensures head { result.head ≡ head.0 }
        ensures slots { result.slots ≡ slots }
    {
        Pool { head, slots }
    }

    /// How many slots there are.
    pub fn slots(&self) -> u32
        ensures { result ≡ self.now.slots }
    {
        self.slots
    }

    /// Takes the first slot of the free list. Two loads, and a store to two fields.
    ///
    /// Refused, in this order: [`Damaged`](PoolError::Damaged) by the head; [`Empty`](PoolError::Empty);
    /// [`Damaged`](PoolError::Damaged) by the slot's link. Where the cells fail, [`Cells`](PoolError::Cells).
    pub fn take<C: Cells>(&self, cells: &mut C) -> Result<u32, PoolError<C::Fault>>
        // A take answers a slot, or is refused where the cells show why, or passes on the cells' fault; a refusal
        // leaves the cells as they were.
        ensures answer { (done : List Access) × TakeAnswers self.now (C.knows cells.old) (C.knows cells.new) done result × C.keeps cells.old cells.new done }
    {
        let link = match cells.load(self.head) {
            Ok(link) => link,
            Err(fault) => return Err(PoolError::Cells(fault)),
        };
        if link > u64::from(self.slots) {
            return Err(PoolError::Damaged);
        }
        if link == 0 {
            return Err(PoolError::Empty);
        }
        let slot = link as u32 - 1;
        let cell = self.cell(slot);
        let next = match cells.load(cell) {
            Ok(next) => next,
            Err(fault) => return Err(PoolError::Cells(fault)),
        };
        if next > u64::from(self.slots) {
            return Err(PoolError::Damaged);
        }
        match cells.store_two(self.head, next, cell, TAKEN) {
            Ok(()) => Ok(slot),
            Err(fault) => Err(PoolError::Cells(fault)),
        }
    }

    /// Puts a taken slot at the head of the free list. Two loads, and a store to two fields. `slot` is one of the pool's.
    ///
    /// Refused, in this order: [`NotTaken`](PoolError::NotTaken); [`Damaged`](PoolError::Damaged) by the head. Where the
    /// cells fail, [`Cells`](PoolError::Cells).
    pub fn give<C: Cells>(&self, cells: &mut C, slot: u32) -> Result<(), PoolError<C::Fault>>
        requires { slot < self.now.slots }
        // A give puts its slot back, or is refused where the cells show why, or passes on the cells' fault; a refusal
        // leaves the cells as they were.
        ensures answer { (done : List Access) × GiveAnswers self.now (C.knows cells.old) (C.knows cells.new) done slot result × C.keeps cells.old cells.new done }
    {
        let cell = self.cell(slot);
        let mark = match cells.load(cell) {
            Ok(mark) => mark,
            Err(fault) => return Err(PoolError::Cells(fault)),
        };
        if mark != TAKEN {
            return Err(PoolError::NotTaken);
        }
        let rest = match cells.load(self.head) {
            Ok(rest) => rest,
            Err(fault) => return Err(PoolError::Cells(fault)),
        };
        if rest > u64::from(self.slots) {
            return Err(PoolError::Damaged);
        }
        match cells.store_two(self.head, u64::from(slot) + 1, cell, rest) {
            Ok(()) => Ok(()),
            Err(fault) => Err(PoolError::Cells(fault)),
        }
    }

    // The field of a slot.
    fn cell(&self, slot: u32) -> FieldId
        requires { slot < self.now.slots }
        ensures { result.0 ≡ cell_of self.now slot }
    {
        FieldId(self.head.0 + 1 + slot)
    }
}
