//! The records of a section of the helper's.
ghost use Rattle.std.specs.Prelude.{◌≡◌, ◌+◌, ◌≤◌, ◌++◌, ℕ, All, length};
ghost use Rattle.std.specs.Vec.{vec_capacity, vec_len};
ghost use Rattle.store_helper_sections.specs.HelperSections.{IsJustBefore};
ghost use Rattle.store_round_making.specs.Helper.{HasBefore, HasValueIn, number_before, records_of, section_of};

use heap_model::{ObjectId, UndoRecord};
use std::alloc::Global;
use store_round_image::HomeValue;

/// Adds a section that takes this guard, stores to these fields the values that they are to keep, and frees the guard. `first` is the
/// number at which a live record of a thread's takes the guard first, if one does: the section comes just before.
pub fn push_section(
    records: &mut Vec<UndoRecord>,
    guard: ObjectId,
    first: Option<u64>,
    cells: &[HomeValue],
)
    requires room { vec_len records.old + length cells.now + 2 ≤ vec_capacity records.old }
    requires first { HasBefore first }
    // A section of the helper's takes its guard just before a live record does, and stores to each field what it is to keep.
    ensures records { (heap : ℕ → ℕ) → All (HasValueIn heap) cells.now
        → records.new.items ≡ records.old.items ++ records_of heap (section_of guard first cells.now) }
    // A section of the helper's takes its guard at the number just before the first live record that takes it.
    ensures before { IsJustBefore first (number_before first) }
    ensures len { vec_len records.new ≡ vec_len records.old + length cells.now + 2 }
    ensures capacity { vec_capacity records.new ≡ vec_capacity records.old }
{
    let number = before(first);
    records.push_reserved(UndoRecord::Acq {
        object: guard,
        number,
    });
    for cell in cells {
        records.push_reserved(UndoRecord::Put {
            field: cell.field,
            before: cell.value,
        });
    }
    records.push_reserved(UndoRecord::Rel {
        object: guard,
        number,
    });
}

// The number just before this one.
fn before(first: Option<u64>) -> u64
    requires { HasBefore first }
    ensures { result ≡ number_before first }
{
    match first {
        Some(number) => number - 1,
        None => 0,
    }
}
