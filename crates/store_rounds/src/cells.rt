//! The cells that a round writes, and those that wait for a later one.
ghost use Rattle.std.specs.Prelude.{◌≡◌, ◌+◌, ◌-◌, ◌<◌, ◌≤◌, ◌^◌, ℕ, true, length};
ghost use Rattle.std.specs.List.Sorted.{IsPermutation};
ghost use Rattle.std.specs.Vec.{vec_capacity, vec_len};
ghost use Rattle.undo_log.specs.StandsFor.{row_of};
ghost use Rattle.store_round_memory.specs.Surveys.{IsSortedByField};
ghost use Rattle.store_round_sections.specs.Sections.{IsSortedByGuard, needed_of};
ghost use Rattle.store_rounds.specs.Cells.{settled_values, stays_put};
ghost use Rattle.store_rounds.specs.Turns.{IsHelped, IsJoined};

use heap_model::ObjectId;
use image::{LaneRow, Layout};
use std::alloc::Global;
use store_round_image::HomeValue;
use store_round_memory::RoundMemory;
use store_round_sections::{needed, sort_by_guard};

// Takes these values down, in the order of their fields' guards.
fn take_down(cells: &mut Vec<HomeValue>, changed: &[HomeValue], guards: &[ObjectId])
    requires room { length changed.now ≤ vec_capacity cells.old }
    ensures permutation { IsPermutation changed.now cells.new.items }
    ensures sorted { IsSortedByGuard guards.now cells.new.items }
    ensures size { length cells.new.items ≡ length changed.now }
    ensures capacity { vec_capacity cells.new ≡ vec_capacity cells.old }
{
    copy(cells, changed);
    sort_by_guard(cells.as_mut_slice(), guards);
}

// Takes these values down.
fn copy(cells: &mut Vec<HomeValue>, changed: &[HomeValue])
    requires room { length changed.now ≤ vec_capacity cells.old }
    ensures items { cells.new.items ≡ changed.now }
    ensures capacity { vec_capacity cells.new ≡ vec_capacity cells.old }
{
    cells.clear();
    for change in changed {
        cells.push_reserved(*change);
    }
}

/// Leaves out the values whose fields change again, and puts the others in the order of their fields. Neighbours are then written one
/// after the other, and a device that joins such writes makes one of them.
pub(crate) fn leave_changed_out(cells: &mut Vec<HomeValue>, rounds: &RoundMemory)
    ensures left { IsPermutation (settled_values rounds.now cells.old.items) cells.new.items }
    ensures sorted { IsSortedByField cells.new.items }
    ensures capacity { vec_capacity cells.new ≡ vec_capacity cells.old }
{
    cells.retain(|cell| stays_put(rounds, *cell));
    cells.sort_unstable_by_key(|cell| cell.field.0);
}

// Whether the value's field doesn't change again.
fn stays_put(rounds: &RoundMemory, cell: HomeValue) -> bool
    ensures { result ≡ stays_put rounds.now cell }
{
    if (cell.field.0 as usize) < rounds.kept().len() {
        !rounds.is_changed(cell.field)
    } else {
        true
    }
}

/// Takes the changed values down in the order of their guards, and tells whether the image has a lane for the helper with room for
/// their sections beside its live records.
pub(crate) fn is_joined(
    cells: &mut Vec<HomeValue>,
    changed: &[HomeValue],
    guards: &[ObjectId],
    layout: &Layout,
    threads: u8,
    rows: &[LaneRow; 32],
) -> bool
    requires room { layout.now.fields ≤ vec_capacity cells.old }
    // A field is found once, so there is room for all.
    requires few { length changed.now ≤ layout.now.fields }
    ensures joined { result ≡ true → IsJoined layout.now threads (row_of rows.now threads) guards.now changed.now cells.new.items }
    ensures capacity { vec_capacity cells.new ≡ vec_capacity cells.old }
{
    take_down(cells, changed, guards);
    is_helped(layout, threads, rows, cells, guards)
}

// Whether the image has a lane for the helper, with room for the sections of these changed values beside its live records.
fn is_helped(
    layout: &Layout,
    threads: u8,
    rows: &[LaneRow; 32],
    changed: &[HomeValue],
    guards: &[ObjectId],
) -> bool
    ensures { result ≡ true → IsHelped layout.now threads (row_of rows.now threads) (needed_of guards.now changed.now) }
{
    if threads >= layout.lanes || threads >= 32 {
        return false;
    }
    let count = needed(changed, guards) as u64;
    has_room(rows[usize::from(threads)], layout.capacity, count)
}

// Whether so many records have room in a lane's area beside the live ones.
fn has_room(row: LaneRow, capacity: u32, count: u64) -> bool
    ensures fits { result ≡ true → row.logged - row.start + count ≤ capacity }
    ensures limit { result ≡ true → row.logged + count ≤ 2 ^ 63 }
{
    let live = row.logged.saturating_sub(row.start);
    let capacity = u64::from(capacity);
    if row.logged > 1 << 62 || live > capacity {
        return false;
    }
    count <= capacity - live
}
