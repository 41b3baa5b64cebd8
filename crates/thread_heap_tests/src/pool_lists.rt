//! Free lists in the values of a recovered heap.

use crate::images::Expected;
use heap_model::Cut;
use pool::TAKEN;

// Whether each slot that isn't among these is taken.
fn are_taken(cells: &[u64; 4], free: &[bool; 4]) -> bool {
    let mut taken = true;
    for slot in 0..4 {
        taken &= free[slot] || cells[slot] == TAKEN;
    }
    taken
}

// Whether the list that begins with this link has no slot twice, and all slots that aren't in it are taken.
fn is_whole(head: u64, cells: &[u64; 4]) -> bool {
    let mut free = [false; 4];
    let mut link = head;
    for _ in 0..5 {
        if link == 0 {
            return are_taken(cells, &free);
        }
        if link > 4 {
            return false;
        }
        let slot = link as usize - 1;
        if free[slot] {
            return false;
        }
        free[slot] = true;
        link = cells[slot];
    }
    false
}

/// The list of a pool of four slots, whose head is the first field.
pub struct WholeList;

impl Expected for WholeList {
    fn is_met(&self, values: &[u64], _kept: &Cut) -> bool {
        match values {
            [head, a, b, c, d, _] => is_whole(*head, &[*a, *b, *c, *d]),
            _ => false,
        }
    }
}
